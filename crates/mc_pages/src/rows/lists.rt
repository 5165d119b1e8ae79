//! How a chunk comes into a list and leaves it.
ghost use Rattle.std.specs.Prelude.{◌≡◌, ◌+◌, ◌<◌, ◌≤◌, [], ◌∷◌, ◌++◌};
ghost use Rattle.mc_pages.specs.declared.rows.ListName.{ListName};
ghost use Rattle.mc_pages.specs.ClassState.{times_in, without, with_before};
ghost use Rattle.mc_pages.specs.Rows.{IsRow, IsList, IsField, list_length};
ghost use Rattle.mc_pages.specs.Linked.{AreLinked, AreLinkedBut, IsUnlisted, list_chunks, with_list, forth, back, list_mark, with_neighbours, with_chunk_between, sizes_of};

use super::{Change, Field, ListName, Mark, Rows};
use crate::ids::ChunkId;

impl Rows {
    /// Takes a chunk out of its list. What it is marked as is still to be written.
    #[inline(always)]
    pub(super) fn unlink(&mut self, list: ListName, chunk: ChunkId)
        requires linked { AreLinked self.old }
        requires list { IsList self.old list }
        requires there { 1 ≤ times_in chunk (list_chunks self.old list) }
        ensures linked { AreLinkedBut self.new chunk }
        ensures lists { (other : ListName) → list_chunks self.new other
            ≡ with_list (list_chunks self.old) list
            (without chunk (list_chunks self.old list)) other }
        ensures sizes { sizes_of self.new ≡ sizes_of self.old }
        ensures writes { self.new.writes ≡ self.old.writes + 2 }
    {
        let before = self.get(Field::Previous(chunk));
        let behind = self.get(Field::Next(chunk));
        self.join(list, before, behind);
        self.shorten(list);
    }

    /// Takes a chunk out of its list, and marks it as one that is in none.
    pub(super) fn take_out(&mut self, list: ListName, chunk: ChunkId)
        requires linked { AreLinked self.old }
        requires list { IsList self.old list }
        requires there { 1 ≤ times_in chunk (list_chunks self.old list) }
        ensures linked { AreLinked self.new }
        ensures lists { (other : ListName) → list_chunks self.new other
            ≡ with_list (list_chunks self.old) list
            (without chunk (list_chunks self.old list)) other }
        ensures sizes { sizes_of self.new ≡ sizes_of self.old }
        ensures writes { self.new.writes ≡ self.old.writes + 3 }
    {
        self.unlink(list, chunk);
        self.put(Change::Mark(chunk, Mark::Unlisted));
    }

    /// Puts a chunk first in a list.
    #[inline(always)]
    pub(super) fn put_first(&mut self, list: ListName, chunk: ChunkId)
        requires linked { AreLinkedBut self.old chunk }
        requires list { IsList self.old list }
        requires row { IsRow self.old chunk }
        requires unlisted { IsUnlisted self.old chunk }
        requires below { list_length self.old list < 65536 }
        ensures linked { AreLinked self.new }
        ensures lists { (other : ListName) → list_chunks self.new other
            ≡ with_list (list_chunks self.old) list (chunk ∷ list_chunks self.old list) other }
        ensures sizes { sizes_of self.new ≡ sizes_of self.old }
        ensures writes { self.new.writes ≡ self.old.writes + 5 }
    {
        let head = self.get(Field::Head(list));
        self.link(list, None, chunk, head);
    }

    /// Puts a chunk last in a list.
    #[inline(always)]
    pub(super) fn put_last(&mut self, list: ListName, chunk: ChunkId)
        requires linked { AreLinkedBut self.old chunk }
        requires list { IsList self.old list }
        requires row { IsRow self.old chunk }
        requires unlisted { IsUnlisted self.old chunk }
        requires below { list_length self.old list < 65536 }
        ensures linked { AreLinked self.new }
        ensures lists { (other : ListName) → list_chunks self.new other
            ≡ with_list (list_chunks self.old) list (list_chunks self.old list
            ++ chunk ∷ []) other }
        ensures sizes { sizes_of self.new ≡ sizes_of self.old }
        ensures writes { self.new.writes ≡ self.old.writes + 5 }
    {
        let tail = self.get(Field::Tail(list));
        self.link(list, tail, chunk, None);
    }

    /// Puts a chunk directly before another in a list.
    #[inline(always)]
    pub(super) fn put_before(&mut self, list: ListName, chunk: ChunkId, old: ChunkId)
        requires linked { AreLinkedBut self.old chunk }
        requires list { IsList self.old list }
        requires row { IsRow self.old chunk }
        requires unlisted { IsUnlisted self.old chunk }
        requires there { 1 ≤ times_in old (list_chunks self.old list) }
        requires below { list_length self.old list < 65536 }
        ensures linked { AreLinked self.new }
        ensures lists { (other : ListName) → list_chunks self.new other
            ≡ with_list (list_chunks self.old) list
            (with_before chunk old (list_chunks self.old list)) other }
        ensures sizes { sizes_of self.new ≡ sizes_of self.old }
        ensures writes { self.new.writes ≡ self.old.writes + 5 }
    {
        let before = self.get(Field::Previous(old));
        self.link(list, before, chunk, Some(old));
    }

    /// Puts a chunk between two neighbours. None is the list's end.
    #[inline(always)]
    fn link(
        &mut self,
        list: ListName,
        before: Option<ChunkId>,
        chunk: ChunkId,
        behind: Option<ChunkId>,
    )
        requires list { IsList self.old list }
        requires row { IsRow self.old chunk }
        requires before { IsField self.old (forth list before) }
        requires behind { IsField self.old (back list behind) }
        requires below { list_length self.old list < 65536 }
        ensures { self.new ≡ with_chunk_between self.old list before chunk behind }
    {
        self.join(list, before, Some(chunk));
        self.join(list, Some(chunk), behind);
        self.put(Change::Mark(chunk, mark_of(list)));
        self.lengthen(list);
    }

    /// Makes two chunks of a list neighbours. None is the list's end.
    #[inline(always)]
    fn join(&mut self, list: ListName, before: Option<ChunkId>, behind: Option<ChunkId>)
        requires before { IsField self.old (forth list before) }
        requires behind { IsField self.old (back list behind) }
        ensures { self.new ≡ with_neighbours self.old list before behind }
    {
        self.put(Change::Link(forth(list, before), behind));
        self.put(Change::Link(back(list, behind), before));
    }
}

/// The field that leads from a chunk to the next one of its list; for no chunk the list's head.
fn forth(list: ListName, link: Option<ChunkId>) -> Field
    ensures { result ≡ forth list link }
{
    match link {
        Some(chunk) => Field::Next(chunk),
        None => Field::Head(list),
    }
}

/// The field that leads from a chunk to the one before it in its list; for no chunk the list's tail.
fn back(list: ListName, link: Option<ChunkId>) -> Field
    ensures { result ≡ back list link }
{
    match link {
        Some(chunk) => Field::Previous(chunk),
        None => Field::Tail(list),
    }
}

/// How the chunks of the list are marked.
fn mark_of(list: ListName) -> Mark
    ensures { result ≡ list_mark list }
{
    match list {
        ListName::Free(_) => Mark::Free,
        ListName::HandedOut(_) => Mark::HandedOut,
    }
}
