//! A keeper that does commands one after another, with books of what it doesn't show.
ghost use Rattle.std.specs.Prelude.{◌≡◌, ◌≤◌, ◌<◌, ◌^◌, None, Some, Ok, Err, ◌++◌, All, IfOk, IfErr, OnOk, length, map, unwrap_or};
ghost use Rattle.mc_classes.specs.Limits.{most_hands};
ghost use Rattle.std.specs.Option.{option_map};
ghost use Rattle.mc_classes.specs.Classes.{IsTableOf, class_of};
ghost use Rattle.mc_classes.specs.Refusals.{config_refusal};
ghost use Rattle.mc_pages.specs.Answer.{answer_of};
ghost use Rattle.mc_script.specs.Command.{IsValid};
ghost use Rattle.mc_serial_spec.specs.Automove.{machine_after_begin, decision, with_window};
ghost use Rattle.mc_serial_spec.specs.Item.{item_bytes, counting_words};
ghost use Rattle.mc_serial_spec.specs.Items.{linked_chunk};
ghost use Rattle.mc_serial_spec.specs.Lines.{decision_outcome, delete_outcome, release_outcome, hold_outcome, last_hold, touch_outcome, serve, set_outcome_of};
ghost use Rattle.mc_serial_spec.specs.Machine.{all_swept, fresh_machine, with_mode};
ghost use Rattle.mc_serial_spec.specs.Mover.{after_turns};
ghost use Rattle.mc_map.specs.Books.{fresh_books, glance_of, book_after};
ghost use Rattle.mc_map.specs.Kept.{IsLine};
ghost use Rattle.mc_map.specs.Map.{books_after, given_class, shown_classes, shown_line, IsMap};

use crate::agree::agrees;
use crate::books::Books;
use crate::glance::Glance;
use crate::hang::{chunks_of, hang_of};
use crate::items::Items;
use crate::kept::{ClassLine, class_line};
use crate::map::{Map, MapError};
use mc_classes::{ClassTable, ConfigError};
use mc_keeper::{HoldError, Keeper, Reassign, Stop, Stored};
use mc_memory::{Refused, filled, from_slice, push};
use mc_options::Run;
use mc_pages::{Entry, Owner};
use mc_script::Command;
use std::alloc::Global;

/// The most keys whose items are counted.
const MOST_KEYS: usize = 4_294_967_296;

/// A keeper, its books, and how many chunks of the moving page are cleared.
#[derive(Drop)]
pub struct Player {
    alloc: Global,
    keeper: Keeper,
    books: Books,
    items: Items,
    cleared: u64,
}

impl Player {
    /// Nothing was done yet.
    pub fn new(alloc: Global, run: &Run) -> Result<Player, ConfigError>
        requires { run.now.automove ≤ 2 }
        ensures fresh { IfOk result (λ player. player.keeper
            ≡ fresh_machine player.keeper.table run.now.config.bulk run.now.automove) }
        ensures table { IfOk result (λ player. IsTableOf run.now.config player.keeper.table) }
        ensures books { IfOk result (λ player. player.books ≡ fresh_books player.keeper.table) }
        ensures refused { IfErr result (λ error. error
            ≡ unwrap_or (config_refusal run.now.config) (ConfigError.NoMemory tt)) }
    {
        let table = ClassTable::build(alloc, &run.config)?;
        let books = Books::new(alloc, &table)?;
        let keeper = Keeper::new(alloc, table, run.config.bulk, run.automove)?;
        Ok(Player {
            alloc,
            keeper,
            books,
            items: Items::new(alloc),
            cleared: 0,
        })
    }

    /// The keeper.
    pub fn keeper(&self) -> &Keeper
        ensures { result.now ≡ self.now.keeper }
    {
        &self.keeper
    }

    /// Who owns each page, by the books.
    pub fn owners(&self) -> &[Owner]
        ensures { result.now ≡ self.now.books.owners }
    {
        self.books.owners()
    }

    /// Every change of a page's owner, by the books.
    pub fn ledger(&self) -> &[Entry]
        ensures { result.now ≡ self.now.books.ledger }
    {
        self.books.ledger()
    }

    /// Does a command. Where it stops, some of it may be done, and the books may be behind.
    pub fn play(&mut self, command: Command) -> Result<(), Stop>
        requires { IsValid command }
        ensures machine { OnOk result (option_map (λ served.
            served.machine) (serve self.old.keeper command) ≡ Some self.new.keeper) }
        ensures books { OnOk result (self.new.books
            ≡ books_after self.old.books self.old.keeper command self.new.keeper) }
        ensures stopped { result ≡ Err Stop.Turns → serve self.old.keeper command ≡ None }
    {
        match command {
            Command::Set {
                worker: _,
                key,
                words,
                base,
            } => self.set(key, words, base),
            Command::Delete { worker, key } => Ok(self.delete(worker, key)),
            Command::Get { worker: _, key: _ } => Ok(()),
            Command::Hold { worker, key } => self.hold(worker, key),
            Command::Drop { worker, key } => Ok(self.drop(worker, key)),
            Command::Touch { worker, key } => Ok(self.touch(worker, key)),
            Command::Reassign { src, dst } => self.reassign(src, dst),
            Command::Automove { mode } => Ok(self.automove(mode)),
            Command::Window => self.window(),
            Command::Turn { turns } => self.turn(turns),
            Command::Stats => Ok(()),
            Command::StatsSlabs => Ok(self.sweep()),
        }
    }
}

/// What each command does.
impl Player {
    /// Stores n words that count up from `base`, and notes the page that its class got or asked for.
    fn set(&mut self, key: u64, words: u64, base: u64) -> Result<(), Stop>
        requires { words ≤ 4096 }
        ensures machine { OnOk result (self.new.keeper
            ≡ (set_outcome_of self.old.keeper (class_of self.old.keeper.table (item_bytes words))
            key (counting_words base words)).machine) }
        ensures books { OnOk result (self.new.books
            ≡ book_after self.old.books (given_class self.old.keeper.table words)
            (glance_of self.old.keeper.slabs) (glance_of self.new.keeper.slabs)) }
        ensures memory { result ≡ Err Stop.Turns → ⊥ }
    {
        let class = given_class(self.keeper.table(), words);
        let before = Glance::of(&self.keeper);
        let stored = store_words(self.alloc, &mut self.keeper, key, words, base)?;
        self.items.note_set(stored, key, 24 + 8 * words)?;
        self.note(class, before)
    }

    /// Deletes the key's item.
    fn delete(&mut self, worker: u64, key: u64)
        ensures machine { self.new.keeper
            ≡ (delete_outcome self.old.keeper key (linked_chunk self.old.keeper.items
            key)).machine }
        ensures books { self.new.books ≡ self.old.books }
    {
        let _had = self.keeper.delete(worker, key);
    }

    /// The worker holds the key's item.
    fn hold(&mut self, worker: u64, key: u64) -> Result<(), Stop>
        requires { worker < most_hands }
        ensures machine { OnOk result (self.new.keeper
            ≡ (hold_outcome self.old.keeper worker key).machine) }
        ensures books { OnOk result (self.new.books ≡ self.old.books) }
        ensures memory { result ≡ Err Stop.Turns → ⊥ }
    {
        match self.keeper.hold(worker, key) {
            Ok(true) => self.items.hold(worker, key)?,
            Ok(false) | Err(HoldError::TooManyRefs) => {}
            Err(HoldError::NoMemory(refused)) => return Err(Stop::NoMemory(refused)),
        }
        Ok(())
    }

    /// The worker gives back its last hold of the key.
    fn drop(&mut self, worker: u64, key: u64)
        requires { worker < most_hands }
        ensures machine { self.new.keeper
            ≡ (release_outcome self.old.keeper worker key
            (last_hold self.old.keeper worker key)).machine }
        ensures books { self.new.books ≡ self.old.books }
    {
        if self.keeper.drop(worker, key).is_some() {
            self.items.give_back(worker, key);
        }
    }

    /// The key's item becomes the youngest of its class.
    fn touch(&mut self, worker: u64, key: u64)
        ensures machine { self.new.keeper
            ≡ (touch_outcome self.old.keeper key (linked_chunk self.old.keeper.items key)).machine }
        ensures books { self.new.books ≡ self.old.books }
    {
        let _had = self.keeper.touch(worker, key);
    }

    /// A page is to go to another class, or to the pool.
    fn reassign(&mut self, src: Option<u64>, dst: u64) -> Result<(), Stop>
        ensures machine { OnOk result (self.new.keeper
            ≡ machine_after_begin self.old.keeper src dst
            (answer_of self.old.keeper.slabs src dst)) }
        ensures books { OnOk result (self.new.books
            ≡ book_after self.old.books 0 (glance_of self.old.keeper.slabs)
            (glance_of self.new.keeper.slabs)) }
        ensures memory { result ≡ Err Stop.Turns → ⊥ }
    {
        let before = Glance::of(&self.keeper);
        if let Err(Reassign::NoMemory(refused)) = self.keeper.reassign(src, dst) {
            return Err(Stop::NoMemory(refused));
        }
        self.note(0, before)
    }

    /// The automover works in this mode from here on.
    fn automove(&mut self, mode: u64)
        requires { mode ≤ 2 }
        ensures machine { self.new.keeper ≡ record self.old.keeper
            { slabs = with_mode self.old.keeper.slabs mode } }
        ensures books { self.new.books ≡ self.old.books }
    {
        self.keeper.set_automove(mode);
    }

    /// A window of the automover ends.
    fn window(&mut self) -> Result<(), Stop>
        ensures machine { OnOk result (self.new.keeper
            ≡ (decision_outcome (with_window (all_swept self.old.keeper))
            (decision (with_window (all_swept self.old.keeper)))).machine) }
        ensures books { OnOk result (self.new.books
            ≡ book_after self.old.books 0 (glance_of self.old.keeper.slabs)
            (glance_of self.new.keeper.slabs)) }
        ensures memory { result ≡ Err Stop.Turns → ⊥ }
    {
        let before = Glance::of(&self.keeper);
        let _acted = self.keeper.window()?;
        self.note(0, before)
    }

    /// Does n turns of the mover.
    fn turn(&mut self, turns: u64) -> Result<(), Stop>
        requires { turns ≤ 1000000 }
        ensures machine { OnOk result (option_map (λ turned.
            turned.machine) (after_turns self.old.keeper turns) ≡ Some self.new.keeper) }
        ensures books { OnOk result (self.new.books
            ≡ book_after self.old.books 0 (glance_of self.old.keeper.slabs)
            (glance_of self.new.keeper.slabs)) }
        ensures stopped { result ≡ Err Stop.Turns → after_turns self.old.keeper turns ≡ None }
    {
        let before = Glance::of(&self.keeper);
        let (_ending, counts) = self.keeper.turns(turns)?;
        self.cleared = self.cleared.saturating_add(counts.cleared);
        self.note(0, before)
    }

    /// The dead chunks of all classes are put back.
    fn sweep(&mut self)
        ensures machine { self.new.keeper ≡ all_swept self.old.keeper }
        ensures books { self.new.books ≡ self.old.books }
    {
        self.keeper.sweep();
    }

    /// Notes which page changed hands since the glance, if one did. A page that was given went to this class.
    fn note(&mut self, class: u64, before: Glance) -> Result<(), Stop>
        ensures machine { OnOk result (self.new.keeper ≡ self.old.keeper) }
        ensures books { OnOk result (self.new.books
            ≡ book_after self.old.books class before (glance_of self.old.keeper.slabs)) }
        ensures memory { result ≡ Err Stop.Turns → ⊥ }
    {
        let after = Glance::of(&self.keeper);
        self.books.note(class, before, after)?;
        if after.moving.is_none() {
            self.cleared = 0;
        }
        Ok(())
    }
}

/// The class of an item of n words, or 0 where it is too large.
fn given_class(table: &ClassTable, words: u64) -> u64
    requires { words ≤ 4096 }
    ensures { result ≡ given_class table.now words }
{
    table.class_for(24 + 8 * words).unwrap_or(0)
}

/// Stores n words that count up from `base`, and returns whether there was room.
fn store_words(
    alloc: Global,
    keeper: &mut Keeper,
    key: u64,
    words: u64,
    base: u64,
) -> Result<bool, Refused>
    requires { words ≤ 4096 }
    ensures { OnOk result (keeper.new
        ≡ (set_outcome_of keeper.old (class_of keeper.old.table (item_bytes words)) key
        (counting_words base words)).machine) }
{
    let counted = counted_words(alloc, base, words)?;
    let stored = keeper.set(0, key, &counted)?;
    Ok(stored == Stored::Yes)
}

/// The n words that count up from `base`, modulo 2^64.
fn counted_words(alloc: Global, base: u64, count: u64) -> Result<Vec<u64>, Refused>
    ensures { IfOk result (λ words. words.items ≡ counting_words base count) }
{
    let mut words = filled(alloc, 0, count as usize)?;
    count_up(&mut words, base);
    Ok(words)
}

/// Writes base, base + 1 and so on, modulo 2^64.
fn count_up(words: &mut [u64], base: u64)
    ensures words { words.new ≡ counting_words base (length words.old) }
{
    let mut next = base;
    for word in words.iter_mut() {
        *word = next;
        next = next.wrapping_add(1);
    }
}

impl Player {
    /// The map of what is there now. `commands` are those that were done, by `run`.
    pub fn map(&self, run: &Run, commands: &[Command]) -> Result<Map, MapError>
        requires mode { run.now.automove ≤ 2 }
        requires valid { All IsValid commands.now }
        ensures map { IfOk result (IsMap self.now.keeper self.now.books self.now.items.keys.items) }
    {
        if !agrees(&self.keeper, self.books.owners()) {
            return Err(MapError::Books);
        }
        let moving = self.keeper.moving();
        let chunks = match moving {
            Some(moving) => chunks_of(self.keeper.table(), moving.src),
            None => 0,
        };
        Ok(Map {
            page: self.keeper.table().page(),
            within: self.books.within(),
            done: commands.len() as u64,
            owners: from_slice(self.alloc, self.books.owners())?,
            pool: from_slice(self.alloc, self.books.pool())?,
            moving,
            chunks,
            classes: self.classes()?,
            totals: self.keeper.totals(),
            ledger: from_slice(self.alloc, self.books.ledger())?,
            hang: hang_of(self.alloc, &self.keeper, &self.items, run, commands)?,
        })
    }

    /// What each class has that has pages, or of which an item was ever evicted.
    fn classes(&self) -> Result<Vec<ClassLine>, MapError>
        ensures lines { IfOk result (λ lines. All
            (IsLine self.now.keeper self.now.items.keys.items) lines.items) }
        ensures records { IfOk result (λ lines. map (λ line. line.class) lines.items
            ≡ shown_classes self.now.keeper.slabs (length self.now.keeper.table.sizes)) }
    {
        if self.items.keys().len() > MOST_KEYS {
            return Err(MapError::Books);
        }
        let mut lines = Vec::new(self.alloc);
        for place in 0..self.keeper.table().count() {
            let class = place + 1;
            let line = class_line(&self.keeper, class, &self.items, self.cleared_of(class))?;
            push_told(&mut lines, line)?;
        }
        Ok(lines)
    }

    /// How many chunks of the class are cleared: none but on its moving page.
    fn cleared_of(&self, class: u64) -> u64 {
        match self.keeper.moving() {
            Some(moving) if moving.src == class => self.cleared,
            _ => 0,
        }
    }
}

/// Adds a line of a class that is shown: the class has pages, or an item was evicted.
fn push_told(lines: &mut Vec<ClassLine>, line: ClassLine) -> Result<(), Refused>
    ensures { OnOk result (lines.new.items ≡ lines.old.items ++ shown_line line) }
{
    if line.pages > 0 || line.evictions > 0 {
        push(lines, line)?;
    }
    Ok(())
}
