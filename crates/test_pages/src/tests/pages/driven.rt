//! `Slabs` as the tests drive it: each call is tested here for what it requires, so that tests may try any.
ghost use Rattle.std.specs.Prelude.{◌≡◌, ◌≤◌, true, false, IsTrue, ◌↔◌, IfSome, Some, None};
ghost use Rattle.mc_pages.specs.declared.ids.Moving.{Moving};
ghost use Rattle.mc_pages.specs.SlabState.{HasClass, class_at};
ghost use Rattle.mc_pages.specs.Accounted.{places_in};
ghost use Rattle.mc_pages.specs.Moves.{CanPass, CanWrap, CanFinish, is_held_up, chunk_at_position};
ghost use Rattle.test_pages.specs.Sized.{HasSizesOf};

use mc_classes::{ClassId, ClassTable, Config, PageId};
use mc_pages::{
    BasePage, ChunkId, Entry, Found, Grow, Moving, Numbers, Owner, Reassign, Slabs, Totals,
};
use std::alloc::Global;
use std::test::Fail;

/// How far a walk along the lists of a class goes. No memory has as many chunks.
const FURTHEST: u64 = 65_536;

/// The two lists that a class has of its chunks.
#[derive(Clone, Copy)]
pub(super) enum ChunkList {
    /// The free list, the head first.
    Free,
    /// The hand-out order, the oldest first.
    HandedOut,
}

impl ChunkList {
    /// What the list is called.
    pub(super) fn name(self) -> &'static str {
        match self {
            ChunkList::Free => "the free list",
            ChunkList::HandedOut => "the hand-out order",
        }
    }
}

/// The slabs, and the table that they are made by.
#[derive(Drop)]
pub(super) struct Driven {
    slabs: Slabs,
    table: ClassTable,
    ghost sized: { HasSizesOf slabs.state table },
}

impl Driven {
    pub(super) fn new(alloc: Global, config: &Config) -> Result<Driven, Fail> {
        let table = ClassTable::build(alloc, config)?;
        let slabs = Slabs::new(alloc, &table)?;
        Ok(Driven { slabs, table })
    }

    pub(super) fn table(&self) -> &ClassTable {
        &self.table
    }

    fn is_class(&self, class: ClassId) -> bool
        ensures { IsTrue result ↔ HasClass self.now.slabs.state class }
    {
        class >= 1 && class <= self.table.count()
    }

    /// The class, where there is such a one.
    fn find_class(&self, class: ClassId) -> Option<ClassId>
        ensures { IfSome result (λ found. HasClass self.now.slabs.state found) }
    {
        if self.is_class(class) {
            Some(class)
        } else {
            None
        }
    }

    /// Gives the class a page. None where the class doesn't exist, or a page isn't cut yet.
    #[tactic(auto, using(crate::proofs::Sized::sized_grow))]
    pub(super) fn grow(&mut self, class: ClassId) -> Option<Result<PageId, Grow>> {
        if !self.is_class(class) || self.slabs.next_uncut().is_some() {
            return None;
        }
        Some(self.slabs.grow(class))
    }

    /// Cuts the next chunk, if there is one.
    #[tactic(auto, using(crate::proofs::Sized::sized_cut))]
    pub(super) fn cut(&mut self) -> Option<ChunkId> {
        let chunk = self.slabs.next_uncut()?;
        self.slabs.cut(chunk.page, chunk.index);
        Some(chunk)
    }

    #[tactic(auto, using(crate::proofs::Sized::sized_pop))]
    pub(super) fn pop(&mut self, class: ClassId) -> Option<ChunkId> {
        let class = self.find_class(class)?;
        self.slabs.pop(class)
    }

    /// Gives back the chunk at this place of the class's hand-out order.
    #[tactic(auto, using(crate::proofs::Looked::handed_out_at))]
    pub(super) fn back(&mut self, class: ClassId, place: u64) -> Option<ChunkId> {
        let class = self.find_class(class)?;
        let chunk = self.slabs.order_at(class, place)?;
        self.slabs.back(chunk);
        Some(chunk)
    }

    /// Takes the chunk at this place of the class's hand-out order to its back.
    #[tactic(auto, using(crate::proofs::Looked::handed_out_at))]
    pub(super) fn touch(&mut self, class: ClassId, place: u64) -> Option<ChunkId> {
        let class = self.find_class(class)?;
        let chunk = self.slabs.order_at(class, place)?;
        self.slabs.touch(chunk);
        Some(chunk)
    }

    /// Puts the chunk at one place of the class's free list before the one at the other place of its hand-out order.
    #[tactic(auto, using(crate::proofs::Looked::handed_out_at, crate::proofs::Looked::free_beside))]
    pub(super) fn replace(
        &mut self,
        class: ClassId,
        free: u64,
        place: u64,
    ) -> Option<(ChunkId, ChunkId)> {
        let class = self.find_class(class)?;
        let new = self.slabs.free_at(class, free)?;
        let old = self.slabs.order_at(class, place)?;
        self.slabs.replace(new, old);
        Some((new, old))
    }

    /// Counts an eviction, where there is such a class.
    #[tactic(auto, using(crate::proofs::Sized::sized_evicted))]
    pub(super) fn evicted(&mut self, class: ClassId) -> bool {
        let is = self.is_class(class);
        if is {
            self.slabs.evicted(class);
        }
        is
    }

    #[tactic(auto, using(crate::proofs::Sized::sized_begin))]
    pub(super) fn begin(&mut self, src: Option<u64>, dst: u64) -> Result<(), Reassign> {
        self.slabs.begin_move(src, dst)
    }

    /// The mover finds this at its position, or `Already` where the chunk is cleared and nothing holds it up. It clears
    /// the chunk unless it is held up, and the position goes on. None at the page's end, or where no page moves.
    #[tactic(auto, using(crate::proofs::Sized::sized_passed))]
    pub(super) fn pass(&mut self, wanted: Found) -> Option<Found> {
        let found = if holds_up(wanted) {
            wanted
        } else {
            self.clear(wanted)?
        };
        if !self.can_pass(found) {
            return None;
        }
        self.slabs.passed(found);
        Some(found)
    }

    /// Clears the chunk at the move's position.
    #[tactic(auto, using(crate::proofs::Looked::moving_class, crate::proofs::Looked::placed_looked))]
    fn clear(&mut self, wanted: Found) -> Option<Found> {
        let moving = self.slabs.moving()?;
        let chunk = chunk_at(moving);
        if !self.is_listed(moving.src, chunk)? {
            return Some(Found::Already);
        }
        self.slabs.clear(chunk);
        Some(wanted)
    }

    #[tactic(auto, using(crate::proofs::Sized::sized_class, crate::proofs::Looked::moving_class, crate::proofs::Looked::can_pass_looked))]
    fn can_pass(&self, found: Found) -> bool
        ensures { IsTrue result → (move : Moving) × CanPass self.now.slabs.state found move }
    {
        let Some(moving) = self.slabs.moving() else {
            return false;
        };
        if self.slabs.next_uncut().is_some() || moving.at >= self.table.per_page(moving.src) {
            return false;
        }
        holds_up(found) || self.is_listed(moving.src, chunk_at(moving)) == Some(false)
    }

    /// Whether the chunk is in a list of the class. None where the lists are longer than the walk.
    fn is_listed(&self, class: ClassId, chunk: ChunkId) -> Option<bool>
        requires { HasClass self.now.slabs.state class }
        ensures listed { result ≡ Some true → 1 ≤ places_in self.now.slabs.state class chunk }
        ensures unlisted { result ≡ Some false → places_in self.now.slabs.state class chunk ≡ 0 }
    {
        for place in 0..FURTHEST {
            let free = self.slabs.free_at(class, place);
            let out = self.slabs.order_at(class, place);
            if free == Some(chunk) || out == Some(chunk) {
                return Some(true);
            }
            if free.is_none() && out.is_none() {
                return Some(false);
            }
        }
        None
    }

    /// Whether the pass began anew: it was at the page's end, and something held it up.
    #[tactic(auto, using(crate::proofs::Sized::sized_wrap))]
    pub(super) fn wrap(&mut self) -> bool {
        let can = self.can_wrap();
        if can {
            self.slabs.wrap();
        }
        can
    }

    #[tactic(auto, using(crate::proofs::Sized::sized_class, crate::proofs::Looked::moving_class))]
    fn can_wrap(&self) -> bool
        ensures { IsTrue result → (move : Moving) × CanWrap self.now.slabs.state move }
    {
        let Some(moving) = self.slabs.moving() else {
            return false;
        };
        moving.at == self.table.per_page(moving.src) && moving.busy >= 1
    }

    /// Whether the move ended: the pass was at the page's end, and nothing held it up.
    #[tactic(auto, using(crate::proofs::Sized::sized_finish))]
    pub(super) fn finish(&mut self) -> bool {
        let can = self.can_finish();
        if can {
            self.slabs.finish_move();
        }
        can
    }

    #[tactic(auto, using(crate::proofs::Sized::sized_class, crate::proofs::Looked::moving_class, mc_pages::proofs::Passes::all_cleared_at_end))]
    fn can_finish(&self) -> bool
        ensures whole { IsTrue result → self.now.slabs.state.uncut ≡ None }
        ensures cleared { IsTrue result → (move : Moving) × CanFinish self.now.slabs.state move }
    {
        let Some(moving) = self.slabs.moving() else {
            return false;
        };
        self.slabs.next_uncut().is_none()
            && moving.at == self.table.per_page(moving.src)
            && moving.busy == 0
    }

    /// Whether the mode was set: it is one of three.
    #[tactic(auto, using(crate::proofs::Sized::sized_mode))]
    pub(super) fn set_automove(&mut self, mode: u64) -> bool {
        let is = mode <= 2;
        if is {
            self.slabs.set_automove(mode);
        }
        is
    }

    pub(super) fn automove(&self) -> u64 {
        self.slabs.automove()
    }

    pub(super) fn moving(&self) -> Option<Moving> {
        self.slabs.moving()
    }

    pub(super) fn half_cut(&self) -> Option<PageId> {
        self.slabs.half_cut()
    }

    /// The chunk at this place of the class's list.
    pub(super) fn at_place(&self, class: ClassId, list: ChunkList, place: u64) -> Option<ChunkId> {
        let class = self.find_class(class)?;
        match list {
            ChunkList::Free => self.slabs.free_at(class, place),
            ChunkList::HandedOut => self.slabs.order_at(class, place),
        }
    }

    /// The first chunk of the class's list.
    pub(super) fn first_of(&self, class: ClassId, list: ChunkList) -> Option<ChunkId> {
        let class = self.find_class(class)?;
        match list {
            ChunkList::Free => self.slabs.first_free(class),
            ChunkList::HandedOut => self.slabs.first_out(class),
        }
    }

    /// The chunk behind the one at this place of the class's list.
    #[tactic(auto, using(crate::proofs::Looked::free_there_at, crate::proofs::Looked::handed_out_at))]
    pub(super) fn behind(&self, class: ClassId, list: ChunkList, place: u64) -> Option<ChunkId> {
        let class = self.find_class(class)?;
        match list {
            ChunkList::Free => {
                let chunk = self.slabs.free_at(class, place)?;
                self.slabs.next_free(chunk)
            }
            ChunkList::HandedOut => {
                let chunk = self.slabs.order_at(class, place)?;
                self.slabs.next_out(chunk)
            }
        }
    }

    /// Whether the chunk at one place of the class's hand-out order is known to be older than the one at the other place.
    #[tactic(auto, using(crate::proofs::Looked::handed_out_at, crate::proofs::Looked::handed_out_beside))]
    pub(super) fn is_older(&self, class: ClassId, place: u64, than: u64) -> Option<bool> {
        let class = self.find_class(class)?;
        let chunk = self.slabs.order_at(class, place)?;
        let other = self.slabs.order_at(class, than)?;
        Some(self.slabs.is_older(chunk, other))
    }

    /// Whether the chunk is free. None where its page has no class, isn't all cut, or has no such chunk.
    #[tactic(auto, using(crate::proofs::Sized::sized_class, crate::proofs::Looked::cut_looked))]
    pub(super) fn is_free(&self, chunk: ChunkId) -> Option<bool> {
        if chunk.page >= self.table.arena_pages() {
            return None;
        }
        let class = self.slabs.owner(chunk.page).class();
        if !self.is_class(class)
            || self.slabs.next_uncut().is_some()
            || chunk.index >= self.table.per_page(class)
        {
            return None;
        }
        Some(self.slabs.is_free(chunk))
    }

    pub(super) fn owner(&self, page: PageId) -> Option<Owner> {
        if page < self.table.arena_pages() {
            Some(self.slabs.owner(page))
        } else {
            None
        }
    }

    pub(super) fn numbers(&self, class: ClassId) -> Option<Numbers> {
        let class = self.find_class(class)?;
        Some(self.slabs.numbers(class))
    }

    pub(super) fn per_page(&self, class: ClassId) -> Option<u64> {
        let class = self.find_class(class)?;
        Some(self.slabs.per_page(class))
    }

    pub(super) fn totals(&self) -> Totals {
        self.slabs.totals()
    }

    pub(super) fn ledger(&self) -> &[Entry] {
        self.slabs.ledger()
    }

    pub(super) fn base(&self) -> &[BasePage] {
        self.slabs.base()
    }

    pub(super) fn trimmed(&self) -> u64 {
        self.slabs.trimmed()
    }

    pub(super) fn trim(&mut self) {
        self.slabs.trim();
    }
}

/// The chunk that the mover looks at next.
fn chunk_at(moving: Moving) -> ChunkId
    ensures { result ≡ chunk_at_position moving }
{
    ChunkId {
        page: moving.page,
        index: moving.at,
    }
}

/// What was found holds up the move.
fn holds_up(found: Found) -> bool
    ensures { result ≡ is_held_up found }
{
    matches!(found, Found::Busy | Found::Locked)
}
