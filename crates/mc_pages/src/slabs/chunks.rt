//! The chunks of the classes: handed out, given back, touched, replaced, cleared and cut.
//!
//! Each of these six writes eight fields of the rows at most, wherever in its list the chunk is (own). Of `pop`, `touch` and
//! `replace`, each writes one age beside them, which `writes` doesn't count.
ghost use Rattle.std.specs.Prelude.{◌≡◌, ◌+◌, ◌<◌, ◌≤◌, slice_get, nat_lt, Contains, None, Some, true};
ghost use Rattle.std.specs.Option.{option_map};
ghost use Rattle.mc_pages.specs.ClassState.{first_free, behind, times_in};
ghost use Rattle.mc_pages.specs.Before.{comes_before};
ghost use Rattle.mc_pages.specs.SlabState.{HasClass, class_at, class_of_page, class_of_chunk};
ghost use Rattle.mc_pages.specs.Changes.{after_pop, after_back, after_touch, after_replace, after_clear, after_cut, after_evicted, next_uncut};
ghost use Rattle.mc_pages.specs.Accounted.{IsAccounted, is_cut, places_in};

use super::Slabs;
use crate::ids::ChunkId;
use crate::rows::{ListName, Mark};
use mc_classes::{ClassId, PageId};

impl Slabs {
    /// Hands out the head of the class's free list: it goes to the back of the hand-out order. (slabs.c's `do_slabs_alloc`)
    pub fn pop(&mut self, class: ClassId) -> Option<ChunkId>
        requires { HasClass self.old.state class }
        ensures chunk { result ≡ first_free (class_at self.old.state class) }
        ensures popped { self.new.state ≡ after_pop self.old.state class }
        ensures accounted { IsAccounted self.new.state }
        ensures writes { self.new.writes ≤ self.old.writes + 8 }
    {
        let Some(chunk) = self.rows.pop(class as usize - 1) else {
            return None;
        };
        let row = self.rows.place(chunk);
        self.ages.renew(row);
        Some(chunk)
    }

    /// Takes a handed-out chunk back: it leaves the hand-out order and is the next to be handed out. (slabs.c's `do_slabs_free`)
    pub fn back(&mut self, chunk: ChunkId)
        requires { Contains (class_of_chunk self.old.state chunk).order chunk }
        ensures back { self.new.state ≡ after_back self.old.state chunk }
        ensures accounted { IsAccounted self.new.state }
        ensures writes { self.new.writes ≤ self.old.writes + 8 }
    {
        let place = self.class_place(chunk.page);
        self.rows.back(place, chunk);
    }

    /// Takes a handed-out chunk to the back of the hand-out order, as if it had just been handed out. (own)
    pub fn touch(&mut self, chunk: ChunkId)
        requires { Contains (class_of_chunk self.old.state chunk).order chunk }
        ensures touched { self.new.state ≡ after_touch self.old.state chunk }
        ensures accounted { IsAccounted self.new.state }
        ensures writes { self.new.writes ≤ self.old.writes + 8 }
    {
        let place = self.class_place(chunk.page);
        self.rows.touch(place, chunk);
        let youngest = self.rows.place(chunk);
        self.ages.renew(youngest);
    }

    /// Gives a free chunk the place of a handed-out one in the hand-out order. The old one is directly behind it then. (own)
    pub fn replace(&mut self, new: ChunkId, old: ChunkId)
        requires free { Contains (class_of_chunk self.old.state old).free new }
        requires handed_out { Contains (class_of_chunk self.old.state old).order old }
        ensures replaced { self.new.state ≡ after_replace self.old.state new old }
        ensures accounted { IsAccounted self.new.state }
        ensures writes { self.new.writes ≤ self.old.writes + 8 }
    {
        let place = self.class_place(old.page);
        self.rows.replace(place, new, old);
        let to = self.rows.place(new);
        let from = self.rows.place(old);
        self.ages.inherit(to, from);
    }

    /// Clears a free or handed-out chunk of the moving page: it is in no list any more. (slabs.c's `slab_rebalance_move`)
    pub fn clear(&mut self, chunk: ChunkId)
        requires moving { option_map (λ move. move.page) self.old.state.moving ≡ Some chunk.page }
        requires listed { 1 ≤ places_in self.old.state
            (class_of_page self.old.state chunk.page) chunk }
        ensures cleared { self.new.state ≡ after_clear self.old.state chunk }
        ensures accounted { IsAccounted self.new.state }
        ensures writes { self.new.writes ≤ self.old.writes + 8 }
    {
        let place = self.class_place(chunk.page);
        self.rows.clear(place, chunk);
    }

    /// Cuts the lowest uncut chunk of the page just given: it goes to the head of its class's free list.
    pub fn cut(&mut self, page: PageId, index: u64)
        requires { self.old.state.uncut ≡ Some (record { page = page; index = index }) }
        ensures cut { self.new.state ≡ after_cut self.old.state
            (record { page = page; index = index }) }
        ensures accounted { IsAccounted self.new.state }
        ensures writes { self.new.writes ≤ self.old.writes + 8 }
    {
        let chunk = ChunkId { page, index };
        let place = self.class_place(page);
        let per_page = self.classes[place].per_page();
        self.uncut = next_to_cut(chunk, per_page);
        self.rows.cut(place, chunk);
    }

    /// Counts an eviction from the class. The counter stays at 2^64 - 1 once there (own).
    pub fn evicted(&mut self, class: ClassId)
        requires { HasClass self.old.state class }
        ensures evicted { self.new.state ≡ after_evicted self.old.state class }
        ensures accounted { IsAccounted self.new.state }
        ensures writes { self.new.writes ≡ self.old.writes }
    {
        self.classes[class as usize - 1].count_eviction();
    }

    /// The page whose chunks aren't all cut yet, if there is one.
    pub fn half_cut(&self) -> Option<PageId>
        ensures page { result ≡ option_map (λ chunk. chunk.page) self.now.state.uncut }
        ensures accounted { IsAccounted self.now.state }
    {
        self.uncut.map(|chunk| chunk.page)
    }

    /// The lowest uncut chunk of the page just given, if there is one.
    pub fn next_uncut(&self) -> Option<ChunkId>
        ensures chunk { result ≡ self.now.state.uncut }
        ensures accounted { IsAccounted self.now.state }
    {
        self.uncut
    }

    /// Whether a chunk is in the free list of its class. It must have been cut. This reads the chunk's row and walks along
    /// no list. (after the flag `ITEM_SLABBED` of memcached's items, by which `slab_rebalance_move` knows a free chunk)
    pub fn is_free(&self, chunk: ChunkId) -> bool
        requires class { HasClass self.now.state (class_of_page self.now.state chunk.page) }
        requires cut { is_cut self.now.state (class_of_page self.now.state chunk.page) chunk
            ≡ true }
        ensures free { result
            ≡ nat_lt 0 (times_in chunk (class_of_chunk self.now.state chunk).free) }
        ensures accounted { IsAccounted self.now.state }
    {
        self.rows.mark(chunk) == Mark::Free
    }

    /// The head of the class's free list: the chunk that is handed out next. None where the list is empty.
    pub fn first_free(&self, class: ClassId) -> Option<ChunkId>
        requires { HasClass self.now.state class }
        ensures chunk { result ≡ slice_get (class_at self.now.state class).free 0 }
        ensures accounted { IsAccounted self.now.state }
    {
        self.rows.first(ListName::Free(class as usize - 1))
    }

    /// The chunk behind a free one in the free list of its class. None behind the last.
    pub fn next_free(&self, chunk: ChunkId) -> Option<ChunkId>
        requires { Contains (class_of_chunk self.now.state chunk).free chunk }
        ensures chunk { result ≡ behind chunk (class_of_chunk self.now.state chunk).free }
        ensures accounted { IsAccounted self.now.state }
    {
        let rows = &self.rows;
        rows.next(ListName::Free(self.class_place(chunk.page)), chunk)
    }

    /// The oldest chunk of the class's hand-out order. None where nothing is handed out.
    pub fn first_out(&self, class: ClassId) -> Option<ChunkId>
        requires { HasClass self.now.state class }
        ensures chunk { result ≡ slice_get (class_at self.now.state class).order 0 }
        ensures accounted { IsAccounted self.now.state }
    {
        self.rows.first(ListName::HandedOut(class as usize - 1))
    }

    /// The chunk behind a handed-out one in the hand-out order of its class. None behind the youngest.
    pub fn next_out(&self, chunk: ChunkId) -> Option<ChunkId>
        requires { Contains (class_of_chunk self.now.state chunk).order chunk }
        ensures chunk { result ≡ behind chunk (class_of_chunk self.now.state chunk).order }
        ensures accounted { IsAccounted self.now.state }
    {
        let rows = &self.rows;
        rows.next(ListName::HandedOut(self.class_place(chunk.page)), chunk)
    }

    /// Whether a handed-out chunk is known to be older than another of its class: then it comes before that one in the hand-out
    /// order. False proves nothing: the other one is older, or their ages are equal, as those of a chunk and of the one that
    /// replaced it are. A caller that gets false both ways has to walk. The call compares two numbers and walks along no list.
    /// (own)
    pub fn is_older(&self, chunk: ChunkId, than: ChunkId) -> bool
        requires chunk { Contains (class_of_chunk self.now.state chunk).order chunk }
        requires than { Contains (class_of_chunk self.now.state chunk).order than }
        ensures older { result ≡ true →
            comes_before chunk than (class_of_chunk self.now.state chunk).order ≡ true }
        ensures accounted { IsAccounted self.now.state }
    {
        let row = self.rows.place(chunk);
        let other = self.rows.place(than);
        self.ages.age(row) < self.ages.age(other)
    }

    /// The chunk at this place of the class's free list: 0 is handed out next. None past its end. It walks to it.
    pub fn free_at(&self, class: ClassId, place: u64) -> Option<ChunkId>
        requires { HasClass self.now.state class }
        ensures chunk { result ≡ slice_get (class_at self.now.state class).free place }
        ensures accounted { IsAccounted self.now.state }
    {
        self.rows.at(ListName::Free(class as usize - 1), place)
    }

    /// The chunk at this place of the class's hand-out order: 0 is the oldest. None past its end. It walks to it.
    pub fn order_at(&self, class: ClassId, place: u64) -> Option<ChunkId>
        requires { HasClass self.now.state class }
        ensures chunk { result ≡ slice_get (class_at self.now.state class).order place }
        ensures accounted { IsAccounted self.now.state }
    {
        self.rows.at(ListName::HandedOut(class as usize - 1), place)
    }
}

/// The chunk behind, if the page has one more.
fn next_to_cut(chunk: ChunkId, per_page: u64) -> Option<ChunkId>
    requires { chunk.index < per_page }
    ensures { result ≡ next_uncut per_page chunk }
{
    let index = chunk.index + 1;
    if index < per_page {
        Some(ChunkId { index, ..chunk })
    } else {
        None
    }
}
