//! What the calls of a slab memory write: eight fields at most each.
ghost use Rattle.std.specs.Prelude.{◌≡◌, ◌+◌, ◌<◌, ◌≤◌, slice_get, Contains};
ghost use Rattle.mc_pages.specs.declared.rows.ListName.{ListName};
ghost use Rattle.mc_pages.specs.declared.rows.ListName.TheVariants.{Free, HandedOut};
ghost use Rattle.mc_pages.specs.ClassState.{class_after_pop, put_back, class_after_touch, class_after_replacement, class_after_clear, with_cut, times_in, behind};
ghost use Rattle.mc_pages.specs.Rows.{IsRow, IsList, list_length};
ghost use Rattle.mc_pages.specs.Linked.{AreLinked, IsUnlisted, list_chunks};
ghost use Rattle.mc_pages.specs.ClassRows.{IsPlace, HasBecome};

use super::{Field, ListName, Mark, Rows};
use crate::ids::ChunkId;

impl Rows {
    /// Takes the head of the class's free list to the back of its hand-out order.
    #[inline(always)]
    pub(crate) fn pop(&mut self, class: usize) -> Option<ChunkId>
        requires linked { AreLinked self.old }
        requires class { IsPlace self.old class }
        requires below { list_length self.old (HandedOut class) < 65536 }
        ensures chunk { result ≡ slice_get (list_chunks self.old (Free class)) 0 }
        ensures popped { HasBecome self.old self.new class class_after_pop }
        ensures writes { self.new.writes ≤ self.old.writes + 8 }
    {
        let Some(head) = self.get(Field::Head(ListName::Free(class))) else {
            return None;
        };
        self.unlink(ListName::Free(class), head);
        self.put_last(ListName::HandedOut(class), head);
        Some(head)
    }

    /// Takes a handed-out chunk to the head of the class's free list.
    #[inline(always)]
    pub(crate) fn back(&mut self, class: usize, chunk: ChunkId)
        requires linked { AreLinked self.old }
        requires class { IsPlace self.old class }
        requires handed_out { Contains (list_chunks self.old (HandedOut class)) chunk }
        requires below { list_length self.old (Free class) < 65536 }
        ensures back { HasBecome self.old self.new class (λ state. put_back state chunk) }
        ensures writes { self.new.writes ≤ self.old.writes + 8 }
    {
        self.unlink(ListName::HandedOut(class), chunk);
        self.put_first(ListName::Free(class), chunk);
    }

    /// Takes a handed-out chunk to the back of the class's hand-out order.
    #[inline(always)]
    pub(crate) fn touch(&mut self, class: usize, chunk: ChunkId)
        requires linked { AreLinked self.old }
        requires class { IsPlace self.old class }
        requires handed_out { Contains (list_chunks self.old (HandedOut class)) chunk }
        requires below { list_length self.old (HandedOut class) < 65536 }
        ensures touched { HasBecome self.old self.new class (λ state.
            class_after_touch state chunk) }
        ensures writes { self.new.writes ≤ self.old.writes + 8 }
    {
        self.unlink(ListName::HandedOut(class), chunk);
        self.put_last(ListName::HandedOut(class), chunk);
    }

    /// Gives a free chunk the place of a handed-out one, which is directly behind it then.
    #[inline(always)]
    pub(crate) fn replace(&mut self, class: usize, new: ChunkId, old: ChunkId)
        requires linked { AreLinked self.old }
        requires class { IsPlace self.old class }
        requires free { Contains (list_chunks self.old (Free class)) new }
        requires handed_out { Contains (list_chunks self.old (HandedOut class)) old }
        requires below { list_length self.old (HandedOut class) < 65536 }
        ensures replaced { HasBecome self.old self.new class (λ state.
            class_after_replacement state new old) }
        ensures writes { self.new.writes ≤ self.old.writes + 8 }
    {
        self.unlink(ListName::Free(class), new);
        self.put_before(ListName::HandedOut(class), new, old);
    }

    /// Takes a chunk out of the list that it is in.
    #[inline(always)]
    pub(crate) fn clear(&mut self, class: usize, chunk: ChunkId)
        requires linked { AreLinked self.old }
        requires class { IsPlace self.old class }
        requires listed { 1 ≤ times_in chunk (list_chunks self.old (Free class)) + times_in chunk
            (list_chunks self.old (HandedOut class)) }
        ensures cleared { HasBecome self.old self.new class (λ state.
            class_after_clear state chunk) }
        ensures writes { self.new.writes ≤ self.old.writes + 8 }
    {
        match self.mark(chunk) {
            Mark::HandedOut => self.take_out(ListName::HandedOut(class), chunk),
            _ => self.take_out(ListName::Free(class), chunk),
        }
    }

    /// Takes a chunk that is in no list to the head of the class's free list.
    #[inline(always)]
    pub(crate) fn cut(&mut self, class: usize, next: ChunkId)
        requires linked { AreLinked self.old }
        requires class { IsPlace self.old class }
        requires row { IsRow self.old next }
        requires unlisted { IsUnlisted self.old next }
        requires below { list_length self.old (Free class) < 65536 }
        ensures cut { HasBecome self.old self.new class (λ state. with_cut state next) }
        ensures writes { self.new.writes ≤ self.old.writes + 8 }
    {
        self.put_first(ListName::Free(class), next);
    }

    /// The first chunk of a list.
    pub(crate) fn first(&self, list: ListName) -> Option<ChunkId>
        requires linked { AreLinked self.now }
        requires list { IsList self.now list }
        ensures { result ≡ slice_get (list_chunks self.now list) 0 }
    {
        self.get(Field::Head(list))
    }

    /// The chunk behind another in its list.
    pub(crate) fn next(&self, list: ListName, chunk: ChunkId) -> Option<ChunkId>
        requires linked { AreLinked self.now }
        requires there { Contains (list_chunks self.now list) chunk }
        ensures { result ≡ behind chunk (list_chunks self.now list) }
    {
        self.get(Field::Next(chunk))
    }

    /// The chunk at this place of a list. It walks along the list.
    pub(crate) fn at(&self, list: ListName, place: u64) -> Option<ChunkId>
        requires linked { AreLinked self.now }
        requires list { IsList self.now list }
        ensures { result ≡ slice_get (list_chunks self.now list) place }
    {
        let mut link = self.first(list);
        for _ in 0..place {
            match link {
                Some(chunk) => link = self.next(list, chunk),
                None => return None,
            }
        }
        link
    }
}
