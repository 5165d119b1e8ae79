//! Commands, one after another: each is done by its typed call, and the bytes of its reply are put together.
ghost use Rattle.std.specs.Prelude.{◌≡◌, ◌≤◌, ◌<◌, ◌++◌, codes, None, Some, Err, OnErr, OnOk, Contains};
ghost use Rattle.mc_classes.specs.Limits.{most_hands};
ghost use Rattle.std.specs.Io.{StartsWith};
ghost use Rattle.mc_classes.specs.Classes.{class_of};
ghost use Rattle.mc_pages.specs.Answer.{answer_of};
ghost use Rattle.mc_script.specs.Command.{IsValid};
ghost use Rattle.mc_watch.specs.Texts.{line};
ghost use Rattle.mc_serial_spec.specs.Automove.{decision, with_window};
ghost use Rattle.mc_serial_spec.specs.Item.{item_bytes, counting_words};
ghost use Rattle.mc_serial_spec.specs.Items.{linked_chunk};
ghost use Rattle.mc_serial_spec.specs.Lines.{decision_outcome, delete_outcome, release_outcome, general_text_of, hold_outcome, last_hold, lookup_outcome, touch_outcome, reassign_outcome, serve, set_outcome_of, slabs_text_of, IsServed};
ghost use Rattle.mc_serial_spec.specs.Machine.{all_swept, with_mode};
ghost use Rattle.mc_keeper.specs.Replies.{stored_name, reassign_word};
ghost use Rattle.mc_keeper.specs.Stages.{reassign_stages, set_stages, stages, window_stages};
ghost use Rattle.mc_keeper.specs.declared.keeper.serve.Stop.TheVariants.{NoMemory};

use super::Keeper;
use super::refs::{HoldError, TooManyRefs};
use super::store::Stored;
use mc_classes::{Failures, Fault};
use mc_memory::{Refused, reserve};
use mc_pages::Reassign;
use mc_replies::{
    TextSink, push_answer, push_key_line, push_turn_line, push_window_line, push_words_line,
};
use mc_script::Command;
use mc_serial_parts::NewWords;
use mc_watch::{stats_general, stats_slabs};
use std::marker::Brand;
use std::sync::ledger::{Blank, Ledger};

/// Room for the longest answer about a key: a word of at most 13 bytes, a space, the key, and the line's end.
const KEY_LINE: usize = 64;

/// Why a command wasn't done.
#[derive(Debug, PartialEq, Eq, Drop)]
pub enum Stop {
    /// The command asks for more turns of the mover than a run has.
    Turns,
    /// Memory ran out.
    NoMemory(Refused),
}

impl From<Refused> for Stop {
    ghost from_gives = { λ refused stop. stop ≡ NoMemory refused };

    fn from(refused: Refused) -> Stop {
        Stop::NoMemory(refused)
    }
}

impl Keeper {
    /// Does a command, and adds the bytes of its reply to `text`.
    ///
    /// Where it stops, `text` is as before, and the keeper is at one of the stages that the command comes through: what it did
    /// before the step that was refused stays, and nothing of that step.
    pub fn serve(&mut self, command: Command, text: &mut Vec<u8>) -> Result<(), Stop>
        requires { IsValid command }
        ensures served { OnOk result (IsServed self.old command text.old.items text.new.items
            self.new) }
        ensures stopped { result ≡ Err Stop.Turns → serve self.old command ≡ None }
        ensures left { OnErr result (Contains (stages self.old command) self.new) }
        ensures unchanged { OnErr result (text.new.items ≡ text.old.items) }
    {
        let before = text.len();
        let done = self.answer(command, text);
        if done.is_err() {
            text.truncate(before);
        }
        done
    }

    /// Does a command, and adds the bytes of its reply to `text`, or some of them where memory runs out.
    fn answer(&mut self, command: Command, text: &mut Vec<u8>) -> Result<(), Stop>
        requires { IsValid command }
        ensures served { OnOk result (IsServed self.old command text.old.items text.new.items
            self.new) }
        ensures stopped { result ≡ Err Stop.Turns → serve self.old command ≡ None }
        ensures left { OnErr result (Contains (stages self.old command) self.new) }
        ensures kept { StartsWith text.new.items text.old.items }
    {
        match command {
            Command::Set {
                worker: _,
                key,
                words,
                base,
            } => Ok(self.serve_set(key, words, base, text)?),
            Command::Get { worker, key } => Ok(self.serve_get(worker, key, text)?),
            Command::Hold { worker, key } => Ok(self.serve_hold(worker, key, text)?),
            Command::Drop { worker, key } => Ok(self.serve_drop(worker, key, text)?),
            Command::Delete { worker, key } => Ok(self.serve_delete(worker, key, text)?),
            Command::Touch { worker, key } => Ok(self.serve_touch(worker, key, text)?),
            Command::Reassign { src, dst } => Ok(self.serve_reassign(src, dst, text)?),
            Command::Automove { mode } => Ok(self.serve_automove(mode, text)?),
            Command::Window => Ok(self.serve_window(text)?),
            Command::Turn { turns } => {
                let (ending, counts) = self.turns(turns)?;
                Ok(push_turn_line(text, ending, counts)?)
            }
            Command::Stats => Ok(self.push_totals::<Brand>(Blank::new(1), text)?),
            Command::StatsSlabs => Ok(self.serve_classes::<Brand>(Blank::new(1), text)?),
        }
    }

    /// Stores n words that count up from `base`, and answers whether there was room for them.
    fn serve_set(
        &mut self,
        key: u64,
        words: u64,
        base: u64,
        text: &mut Vec<u8>,
    ) -> Result<(), Refused>
        requires { words ≤ 4096 }
        ensures reply { OnOk result (text.new.items ≡ text.old.items
            ++ (set_outcome_of self.old (class_of self.old.table (item_bytes words)) key
            (counting_words base words)).reply) }
        ensures after { OnOk result (self.new
            ≡ (set_outcome_of self.old (class_of self.old.table (item_bytes words)) key
            (counting_words base words)).machine) }
        ensures refused { OnErr result
            (Contains (set_stages self.old (class_of self.old.table (item_bytes words)) key
            (counting_words base words)) self.new) }
        ensures kept { StartsWith text.new.items text.old.items }
    {
        let words = NewWords::Counted { base, count: words };
        let stored = self.set_words(key, words)?;
        push_key_line(text, name_of_stored(stored), key)
    }

    /// Writes the words of the key's item.
    fn serve_get(&self, worker: u64, key: u64, text: &mut Vec<u8>) -> Result<(), Refused>
        requires { worker < most_hands }
        ensures reply { OnOk result (text.new.items ≡ text.old.items
            ++ (lookup_outcome self.now worker key).reply) }
        ensures kept { StartsWith text.new.items text.old.items }
    {
        match self.get(worker, key) {
            Ok(Some(words)) => push_words_line(text, b"VALUE", key, words),
            Ok(None) => push_key_line(text, b"NOT_FOUND", key),
            Err(TooManyRefs) => push_key_line(text, b"TOO_MANY_REFS", key),
        }
    }

    /// The worker holds the key's item, once there is room for the reply.
    fn serve_hold(&mut self, worker: u64, key: u64, text: &mut Vec<u8>) -> Result<(), Refused>
        requires { worker < most_hands }
        ensures reply { OnOk result (text.new.items ≡ text.old.items
            ++ (hold_outcome self.old worker key).reply) }
        ensures after { OnOk result (self.new ≡ (hold_outcome self.old worker key).machine) }
        ensures refused { OnErr result (self.new ≡ self.old) }
        ensures kept { StartsWith text.new.items text.old.items }
    {
        reserve(text, KEY_LINE)?;
        let answer: &[u8] = match self.hold(worker, key) {
            Ok(true) => b"HELD",
            Ok(false) => b"NOT_FOUND",
            Err(HoldError::TooManyRefs) => b"TOO_MANY_REFS",
            Err(HoldError::NoMemory(refused)) => return Err(refused),
        };
        push_key_line(text, answer, key).unwrap();
        Ok(())
    }

    /// Writes the words of the item that the worker's last hold of the key is of, and the worker gives it back.
    fn serve_drop(&mut self, worker: u64, key: u64, text: &mut Vec<u8>) -> Result<(), Refused>
        requires { worker < most_hands }
        ensures reply { OnOk result (text.new.items ≡ text.old.items
            ++ (release_outcome self.old worker key (last_hold self.old worker key)).reply) }
        ensures after { OnOk result (self.new
            ≡ (release_outcome self.old worker key (last_hold self.old worker key)).machine) }
        ensures refused { OnErr result (self.new ≡ self.old) }
        ensures kept { StartsWith text.new.items text.old.items }
    {
        let Some((chunk, place)) = self.last_hold(worker, key) else {
            return push_key_line(text, b"NOT_HELD", key);
        };
        match self.items.get(chunk) {
            Some(item) => {
                push_words_line(text, b"DROPPED", key, item.words())?;
                let is_linked = item.is_linked();
                self.give_back(worker, chunk, place, is_linked);
                Ok(())
            }
            None => push_key_line(text, b"NOT_HELD", key),
        }
    }

    /// Unlinks the key's item, and answers whether it had one.
    fn serve_delete(&mut self, worker: u64, key: u64, text: &mut Vec<u8>) -> Result<(), Refused>
        ensures reply { OnOk result (text.new.items ≡ text.old.items
            ++ (delete_outcome self.old key (linked_chunk self.old.items key)).reply) }
        ensures after { self.new
            ≡ (delete_outcome self.old key (linked_chunk self.old.items key)).machine }
        ensures kept { StartsWith text.new.items text.old.items }
    {
        let had = self.delete(worker, key);
        push_key_line(text, if had { b"DELETED" } else { b"NOT_FOUND" }, key)
    }

    /// The key's item becomes the youngest of its class, once there is room for the reply.
    fn serve_touch(&mut self, worker: u64, key: u64, text: &mut Vec<u8>) -> Result<(), Refused>
        ensures reply { OnOk result (text.new.items ≡ text.old.items
            ++ (touch_outcome self.old key (linked_chunk self.old.items key)).reply) }
        ensures after { OnOk result (self.new
            ≡ (touch_outcome self.old key (linked_chunk self.old.items key)).machine) }
        ensures refused { OnErr result (self.new ≡ self.old) }
        ensures kept { StartsWith text.new.items text.old.items }
    {
        reserve(text, KEY_LINE)?;
        let had = self.touch(worker, key);
        push_key_line(text, if had { b"TOUCHED" } else { b"NOT_FOUND" }, key).unwrap();
        Ok(())
    }

    /// Begins to move a page, or answers why not.
    fn serve_reassign(
        &mut self,
        src: Option<u64>,
        dst: u64,
        text: &mut Vec<u8>,
    ) -> Result<(), Refused>
        ensures reply { OnOk result (text.new.items ≡ text.old.items
            ++ (reassign_outcome self.old src dst (answer_of self.old.slabs src dst)).reply) }
        ensures after { OnOk result (self.new
            ≡ (reassign_outcome self.old src dst (answer_of self.old.slabs src dst)).machine) }
        ensures refused { OnErr result (Contains (reassign_stages self.old src dst) self.new) }
        ensures kept { StartsWith text.new.items text.old.items }
    {
        let answer = self.begin(src, dst)?;
        push_answer(text, name_of_answer(answer))
    }

    /// Sets the automover's mode.
    fn serve_automove(&mut self, mode: u64, text: &mut Vec<u8>) -> Result<(), Refused>
        requires { mode ≤ 2 }
        ensures reply { OnOk result (text.new.items ≡ text.old.items ++ line (codes "OK")) }
        ensures after { self.new ≡ record self.old { slabs = with_mode self.old.slabs mode } }
        ensures kept { StartsWith text.new.items text.old.items }
    {
        self.set_automove(mode);
        push_answer(text, b"OK")
    }

    /// Ends a window, and writes what became of the automover's decision.
    fn serve_window(&mut self, text: &mut Vec<u8>) -> Result<(), Refused>
        ensures reply { OnOk result (text.new.items ≡ text.old.items
            ++ (decision_outcome (with_window (all_swept self.old))
            (decision (with_window (all_swept self.old)))).reply) }
        ensures after { OnOk result (self.new
            ≡ (decision_outcome (with_window (all_swept self.old))
            (decision (with_window (all_swept self.old)))).machine) }
        ensures refused { OnErr result (Contains (window_stages self.old) self.new) }
        ensures kept { StartsWith text.new.items text.old.items }
    {
        match self.window()? {
            Some(acted) => {
                let name = name_of_answer(acted.answer);
                push_window_line(text, acted.decision.src, acted.decision.dst, name)
            }
            None => push_answer(text, b"WINDOW none"),
        }
    }

    /// Puts back the dead of all classes, and gives their statistics.
    fn serve_classes<L: Ledger>(
        &mut self,
        refusals: Blank,
        text: &mut Vec<u8>,
    ) -> Result<(), Refused>
        requires name { refusals.name ≡ L.name }
        requires parts { refusals.parts ≡ L.parts }
        requires some { 0 < refusals.parts }
        ensures reply { OnOk result (text.new.items ≡ text.old.items
            ++ slabs_text_of (all_swept self.old)) }
        ensures after { self.new ≡ all_swept self.old }
        ensures kept { StartsWith text.new.items text.old.items }
    {
        self.sweep();
        self.push_classes::<L>(refusals, text)
    }

    /// Adds the statistics of the classes as they are now.
    fn push_classes<L: Ledger>(&self, refusals: Blank, text: &mut Vec<u8>) -> Result<(), Refused>
        requires name { refusals.name ≡ L.name }
        requires parts { refusals.parts ≡ L.parts }
        requires some { 0 < refusals.parts }
        ensures reply { OnOk result (text.new.items ≡ text.old.items ++ slabs_text_of self.now) }
        ensures kept { StartsWith text.new.items text.old.items }
    {
        let counts = self.counts()?;
        let malloced = self.slabs.totals().granted * self.table.page();
        let mut sink = TextSink::take(text, Failures::<L>::new(refusals));
        match stats_slabs(
            &self.table,
            &counts.pages,
            &counts.free,
            malloced,
            &mut sink,
        ) {
            Ok(()) => Ok(sink.put_back(text)),
            Err(Fault) => Err(sink.into_refusal(text)),
        }
    }

    /// Adds the statistics of all classes together.
    fn push_totals<L: Ledger>(&self, refusals: Blank, text: &mut Vec<u8>) -> Result<(), Refused>
        requires name { refusals.name ≡ L.name }
        requires parts { refusals.parts ≡ L.parts }
        requires some { 0 < refusals.parts }
        ensures reply { OnOk result (text.new.items ≡ text.old.items ++ general_text_of self.now) }
        ensures kept { StartsWith text.new.items text.old.items }
    {
        let totals = self.slabs.totals();
        let running = self.slabs.moving().is_some();
        let mut sink = TextSink::take(text, Failures::<L>::new(refusals));
        match stats_general(
            totals.pool,
            running,
            totals.moved,
            totals.rescues,
            totals.evictions_nomem,
            totals.busy,
            &mut sink,
        ) {
            Ok(()) => Ok(sink.put_back(text)),
            Err(Fault) => Err(sink.into_refusal(text)),
        }
    }
}

/// The word for whether an item was stored.
fn name_of_stored(stored: Stored) -> &'static [u8]
    ensures name { result.now ≡ stored_name stored }
{
    match stored {
        Stored::Yes => b"STORED",
        Stored::TooLarge => b"TOO_LARGE",
        Stored::NoRoom => b"NO_ROOM",
    }
}

/// The word for whether a page began to move.
fn name_of_answer(answer: Result<(), Reassign>) -> &'static [u8]
    ensures name { result.now ≡ reassign_word answer }
{
    match answer {
        Ok(()) => b"OK",
        Err(Reassign::Busy) => b"BUSY",
        Err(Reassign::Same) => b"SAME",
        Err(Reassign::BadClass) => b"BADCLASS",
        Err(Reassign::NoSpare) => b"NOSPARE",
        Err(Reassign::NoMemory(_)) => b"",
    }
}
