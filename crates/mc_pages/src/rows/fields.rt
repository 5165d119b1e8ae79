//! The rows in memory, and the one call that writes a field of theirs.
//!
//! No module is below this one, so that no other reaches what is private here: lists and calls write by `put`.
ghost use Rattle.std.specs.Prelude.{◌≡◌, ℕ, ◌+◌, ◌*◌, ◌<◌, ◌≤◌, IfOk, length};
ghost use Rattle.mc_classes.specs.Limits.{most_arena_pages, most_page_chunks};
ghost use Rattle.mc_pages.specs.Rows.{RowsState, IsChange, IsField, IsRow, IsList, field_of, with_change, row_of_chunk, row_place, list_length, longer_list, shorter_list, fresh_rows};
ghost use Rattle.mc_pages.specs.RowsInside.{list_rows, HasSpace};

use super::link::Link;
use super::{Change, Field, ListName, Mark};
use crate::ids::ChunkId;
use crate::writes::Writes;
use mc_memory::{Refused, filled};
use std::alloc::Global;
use std::marker::Model;

/// The chunks beside a chunk in its list. A list has a row of its own, where `next` is its head, `previous` its tail, and the
/// mark means nothing.
#[derive(Clone, Copy)]
pub(crate) struct Row {
    next: Link,
    previous: Link,
    mark: Mark,
}

/// A row for each chunk, and head, tail and length of each list. Fields are written one at a time, and contracts count
/// how often, as `writes`. Lengths aren't counted.
#[derive(Drop)]
pub struct Rows {
    /// The most chunks that a page has.
    most: u64,
    rows: Vec<Row>,
    free: Vec<Row>,
    handed_out: Vec<Row>,
    free_lengths: Vec<u64>,
    handed_out_lengths: Vec<u64>,
    writes: Writes,
}

impl Model for Rows {
    ghost Value = { RowsState };

    ghost view = { list_rows };

    ghost invariant = { HasSpace };
}

impl Rows {
    /// Empty lists for n classes, and rows for n pages.
    pub(crate) fn new(
        alloc: Global,
        most: u64,
        pages: usize,
        classes: usize,
    ) -> Result<Rows, Refused>
        requires most { most ≤ most_page_chunks }
        requires pages { pages ≤ most_arena_pages }
        ensures { IfOk result (λ rows. rows ≡ fresh_rows most (pages * most) classes) }
    {
        let none = Row {
            next: Link::to(None),
            previous: Link::to(None),
            mark: Mark::Unlisted,
        };
        Ok(Rows {
            most,
            rows: filled(alloc, none, pages * most as usize)?,
            free: filled(alloc, none, classes)?,
            handed_out: filled(alloc, none, classes)?,
            free_lengths: filled(alloc, 0, classes)?,
            handed_out_lengths: filled(alloc, 0, classes)?,
            writes: Writes::new(),
        })
    }

    /// The chunk to which the field leads, or none.
    #[inline(always)]
    pub(super) fn get(&self, field: Field) -> Option<ChunkId>
        requires { IsField self.now field }
        ensures { result ≡ field_of self.now field }
    {
        match field {
            Field::Next(chunk) => self.rows[self.place(chunk)].next.chunk(),
            Field::Previous(chunk) => self.rows[self.place(chunk)].previous.chunk(),
            Field::Head(ListName::Free(class)) => self.free[class].next.chunk(),
            Field::Head(ListName::HandedOut(class)) => self.handed_out[class].next.chunk(),
            Field::Tail(ListName::Free(class)) => self.free[class].previous.chunk(),
            Field::Tail(ListName::HandedOut(class)) => self.handed_out[class].previous.chunk(),
        }
    }

    /// In which kind of list the chunk is.
    pub(crate) fn mark(&self, chunk: ChunkId) -> Mark
        requires { IsRow self.now chunk }
        ensures { result ≡ (row_of_chunk self.now chunk).mark }
    {
        self.rows[self.place(chunk)].mark
    }

    /// Writes a field. No other call does.
    #[inline(always)]
    pub(super) fn put(&mut self, change: Change)
        requires { IsChange self.old change }
        ensures { self.new ≡ with_change self.old change }
    {
        self.writes.add();
        match change {
            Change::Link(Field::Next(chunk), link) => {
                let place = self.place(chunk);
                self.rows[place].next = Link::to(link);
            }
            Change::Link(Field::Previous(chunk), link) => {
                let place = self.place(chunk);
                self.rows[place].previous = Link::to(link);
            }
            Change::Link(Field::Head(ListName::Free(class)), link) => self.free[class].next =
                Link::to(link),
            Change::Link(Field::Head(ListName::HandedOut(class)), link) =>
                self.handed_out[class].next = Link::to(link),
            Change::Link(Field::Tail(ListName::Free(class)), link) => self.free[class].previous =
                Link::to(link),
            Change::Link(Field::Tail(ListName::HandedOut(class)), link) =>
                self.handed_out[class].previous = Link::to(link),
            Change::Mark(chunk, mark) => {
                let place = self.place(chunk);
                self.rows[place].mark = mark;
            }
        }
    }

    /// How many chunks the list has.
    pub(crate) fn length(&self, list: ListName) -> u64
        requires { IsList self.now list }
        ensures { result ≡ list_length self.now list }
    {
        match list {
            ListName::Free(class) => self.free_lengths[class],
            ListName::HandedOut(class) => self.handed_out_lengths[class],
        }
    }

    /// The list has one chunk more.
    pub(super) fn lengthen(&mut self, list: ListName)
        requires list { IsList self.old list }
        requires below { list_length self.old list < 65536 }
        ensures { self.new ≡ longer_list self.old list }
    {
        match list {
            ListName::Free(class) => self.free_lengths[class] += 1,
            ListName::HandedOut(class) => self.handed_out_lengths[class] += 1,
        }
    }

    /// The list has one chunk less.
    pub(super) fn shorten(&mut self, list: ListName)
        requires list { IsList self.old list }
        requires some { 1 ≤ list_length self.old list }
        ensures { self.new ≡ shorter_list self.old list }
    {
        match list {
            ListName::Free(class) => self.free_lengths[class] -= 1,
            ListName::HandedOut(class) => self.handed_out_lengths[class] -= 1,
        }
    }

    /// The place of the chunk's row.
    pub(crate) fn place(&self, chunk: ChunkId) -> usize
        requires { IsRow self.now chunk }
        ensures { result ≡ row_place self.now.most chunk }
    {
        (chunk.page * self.most + chunk.index) as usize
    }
}
