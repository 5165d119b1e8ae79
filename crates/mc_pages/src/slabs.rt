//! `Slabs`: the sequential value behind the slabs lock, all pages and all chunks.
ghost use Rattle.std.specs.Prelude.{◌≡◌, ℕ, ◌-◌, ◌^◌, ◌*◌, min, ◌<◌, ◌≤◌, length, slice_get, IfOk, None};
ghost use Rattle.std.specs.Option.{option_map};
ghost use Rattle.mc_pages.specs.ClassState.{new_class, numbers_of};
ghost use Rattle.mc_classes.specs.Classes.{arena_pages_of, per_page_of};
ghost use Rattle.mc_pages.specs.Ledger.{owner_at};
ghost use Rattle.mc_pages.specs.declared.rows.ListName.TheVariants.{Free, HandedOut};
ghost use Rattle.mc_pages.specs.Rows.{fresh_rows};
ghost use Rattle.mc_pages.specs.Ages.{fresh_ages};
ghost use Rattle.mc_pages.specs.Linked.{AreLinked, list_chunks};
ghost use Rattle.mc_pages.specs.Base.{base_pages, ledger_tail};
ghost use Rattle.mc_pages.specs.Changes.{after_trim};
ghost use Rattle.mc_pages.specs.SlabState.{SlabValue, fresh_slabs, HasClass, class_at, class_of_page, totals_of};
ghost use Rattle.mc_pages.specs.Accounted.{IsAccounted};
ghost use Rattle.mc_pages.specs.InOrder.{IsStoredInOrder, classes_without_room, callers_slabs};

mod chunks;
mod moving;
mod pages;

use crate::ages::Ages;
use crate::class::SlabClass;
use crate::ids::{ChunkId, Moving};
use crate::ledger::{BasePage, Entry, Owner};
use crate::numbers::{Numbers, Totals};
use crate::recorded::Recorded;
use crate::rows::{ListName, Rows};
use mc_classes::{ClassId, ClassTable, PageId};
use mc_memory::{Refused, filled, push, with_capacity};
pub use pages::Grow;
use std::alloc::Global;
use std::marker::Model;

/// Memory ran out.
pub type NoMemory = Refused;

/// Pages, free lists, hand-out orders, the pool, the ledger, and the page that is on the move.
///
/// `grow` and `begin_move` make all room that later calls need, so no other call takes memory or can fail. Contracts
/// see what it holds, as `state`, and how many fields of its rows were ever written, as `writes`.
#[derive(Drop)]
pub struct Slabs {
    page: u64,
    limit: u64,
    classes: Vec<SlabClass>,
    rows: Rows,
    ages: Ages,
    owners: Vec<Owner>,
    /// How many pages were granted. They are the lowest ones.
    granted: usize,
    /// How many of them were granted within the limit.
    ordinary: usize,
    /// The pages of the pool, the one that came last at the end.
    pool: Vec<PageId>,
    ledger: Recorded,
    uncut: Option<ChunkId>,
    moving: Option<Moving>,
    /// Behind this class the pick of a source goes on.
    cursor: ClassId,
    moved: u64,
    rescues: u64,
    evictions_nomem: u64,
    busy: u64,
    automove: u64,
}

impl Model for Slabs {
    ghost Value = { SlabValue };

    ghost view = { callers_slabs };

    ghost invariant = { IsStoredInOrder };
}

impl Slabs {
    /// No page is granted yet.
    pub fn new(alloc: Global, table: &ClassTable) -> Result<Slabs, NoMemory>
        ensures fresh { IfOk result (λ slabs. slabs.state ≡ fresh_slabs table.now) }
        ensures accounted { IfOk result (λ slabs. IsAccounted slabs.state) }
    {
        let classes = classes_of(alloc, table)?;
        let owners = filled(alloc, Owner::Untouched, table.arena_pages() as usize)?;
        let rows = rows_of(alloc, table)?;
        let ages = ages_of(alloc, table)?;
        let ledger = Recorded::new(alloc, table.arena_pages() as usize)?;
        Ok(Slabs {
            page: table.page(),
            limit: table.limit(),
            classes,
            rows,
            ages,
            owners,
            granted: 0,
            ordinary: 0,
            pool: Vec::new(alloc),
            ledger,
            uncut: None,
            moving: None,
            cursor: table.count(),
            moved: 0,
            rescues: 0,
            evictions_nomem: 0,
            busy: 0,
            automove: 0,
        })
    }

    /// The owner of the page.
    pub fn owner(&self, page: PageId) -> Owner
        requires { page < length self.now.state.owners }
        ensures owner { result ≡ owner_at self.now.state.owners page }
        ensures accounted { IsAccounted self.now.state }
    {
        self.owners[page as usize]
    }

    /// The numbers of the class.
    pub fn numbers(&self, class: ClassId) -> Numbers
        requires { HasClass self.now.state class }
        ensures numbers { result ≡ numbers_of (class_at self.now.state class) }
        ensures accounted { IsAccounted self.now.state }
    {
        let place = class as usize - 1;
        let slab = &self.classes[place];
        Numbers {
            pages: slab.page_count() as u64,
            free: self.rows.length(ListName::Free(place)),
            evictions: slab.evictions(),
        }
    }

    /// How many chunks a page of the class has.
    pub fn per_page(&self, class: ClassId) -> u64
        requires { HasClass self.now.state class }
        ensures chunks { result ≡ (class_at self.now.state class).per_page }
        ensures accounted { IsAccounted self.now.state }
    {
        let slab = &self.classes[class as usize - 1];
        slab.per_page()
    }

    /// The numbers of all classes together.
    pub fn totals(&self) -> Totals
        ensures totals { result ≡ totals_of self.now.state }
        ensures accounted { IsAccounted self.now.state }
    {
        Totals {
            granted: self.granted as u64,
            pool: self.pool.len() as u64,
            moved: self.moved,
            rescues: self.rescues,
            evictions_nomem: self.evictions_nomem,
            busy: self.busy,
        }
    }

    /// The changes of a page's owner that are recorded, in order: all since the last `trim`.
    pub fn ledger(&self) -> &[Entry]
        ensures ledger { result.now ≡ ledger_tail self.now.state }
        ensures accounted { IsAccounted self.now.state }
    {
        self.ledger.tail()
    }

    /// How many changes came before the recorded ones; the greatest number if they are more.
    pub fn trimmed(&self) -> u64
        ensures trimmed { result ≡ min self.now.state.trimmed (2 ^ 64 - 1) }
        ensures within { self.now.state.trimmed ≤ length self.now.state.ledger }
        ensures accounted { IsAccounted self.now.state }
    {
        self.ledger.trimmed()
    }

    /// What the changes before them left of each page, page 0 first.
    pub fn base(&self) -> &[BasePage]
        ensures base { result.now ≡ base_pages self.now.state }
        ensures accounted { IsAccounted self.now.state }
    {
        self.ledger.base()
    }

    /// The changes of owners so far aren't recorded any more: what they left of each page is, in their stead. It takes no
    /// memory, so it can't be refused; and a move that runs keeps the room for its end. (own)
    pub fn trim(&mut self)
        ensures trimmed { self.new.state ≡ after_trim self.old.state }
        ensures accounted { IsAccounted self.new.state }
        ensures writes { self.new.writes ≡ self.old.writes }
    {
        self.ledger.trim();
    }

    /// The rows that have the free lists and the hand-out orders of all classes. `writes` counts what was written there.
    pub fn rows(&self) -> &Rows
        ensures linked { AreLinked result.now }
        ensures free { (class : ℕ) → HasClass self.now.state class →
            list_chunks result.now (Free (class - 1)) ≡ (class_at self.now.state class).free }
        ensures order { (class : ℕ) → HasClass self.now.state class →
            list_chunks result.now (HandedOut (class - 1)) ≡ (class_at self.now.state class).order }
        ensures writes { result.now.writes ≡ self.now.writes }
        ensures accounted { IsAccounted self.now.state }
    {
        &self.rows
    }

    /// The automover's mode.
    pub fn automove(&self) -> u64
        ensures mode { result ≡ self.now.state.automove }
        ensures at_most { result ≤ 2 }
        ensures accounted { IsAccounted self.now.state }
    {
        self.automove
    }

    /// Sets the automover's mode: 0 is off, 1 acts on each window, 2 on each eviction.
    pub fn set_automove(&mut self, mode: u64)
        requires { mode ≤ 2 }
        ensures mode { self.new.state ≡ record self.old.state { automove = mode } }
        ensures accounted { IsAccounted self.new.state }
        ensures writes { self.new.writes ≡ self.old.writes }
    {
        self.automove = mode;
    }

    /// The place of the page's class in `classes`.
    #[tactic(auto, using(crate::proofs::Owners::within_from_class_of_owner))]
    fn class_place(&self, page: PageId) -> usize
        requires { HasClass self.now.state (class_of_page self.now.state page) }
        ensures { result ≡ class_of_page self.now.state page - 1 }
    {
        self.owner(page).class() as usize - 1
    }
}

/// The classes of the table, without pages.
fn classes_of(alloc: Global, table: &ClassTable) -> Result<Vec<SlabClass>, Refused>
    ensures { IfOk result (λ classes. classes.items
        ≡ classes_without_room (fresh_slabs table.now).classes) }
{
    let mut classes = with_capacity(alloc, table.count() as usize)?;
    for place in 0..table.count() {
        let class = place + 1;
        push(
            &mut classes,
            SlabClass::new(alloc, table.size(class), table.per_page(class)),
        )?;
    }
    Ok(classes)
}

/// Rows for all chunks of the table's pages, and empty lists for its classes. No class has more chunks a page than
/// the first.
fn rows_of(alloc: Global, table: &ClassTable) -> Result<Rows, Refused>
    ensures { IfOk result (λ rows. rows ≡ fresh_rows (per_page_of table.now 1)
        (arena_pages_of table.now * per_page_of table.now 1) (length table.now.sizes)) }
{
    let classes = table.count() as usize;
    let pages = table.arena_pages() as usize;
    Rows::new(alloc, table.per_page(1), pages, classes)
}

/// An age for each of these rows.
fn ages_of(alloc: Global, table: &ClassTable) -> Result<Ages, Refused>
    ensures { IfOk result (λ ages. ages ≡ fresh_ages
        (arena_pages_of table.now * per_page_of table.now 1)) }
{
    let chunks = table.arena_pages() * table.per_page(1);
    Ages::new(alloc, chunks as usize)
}
