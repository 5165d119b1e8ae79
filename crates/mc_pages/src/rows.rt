//! The free lists and hand-out orders of all classes, as doubly linked rows.
//!
//! Each chunk has a row, whatever class its page is cut for. No call walks but `at`, and none takes memory but `new`. In slabs.c
//! the links and the prefix of a free chunk are in the chunk itself; rows beside the pages are own.

mod calls;
mod fields;
mod link;
mod lists;

use crate::ids::ChunkId;
pub use fields::Rows;

/// In which kind of list a chunk is. (after the flag `ITEM_SLABBED` of memcached's items, which a free chunk has)
#[derive(Clone, Copy, PartialEq, Eq)]
pub(crate) enum Mark {
    /// In none: it isn't cut yet, or was cleared.
    Unlisted,
    /// In a free list.
    Free,
    /// In a hand-out order.
    HandedOut,
}

/// One of the two lists of a class, by the class's place: class 1 is at 0.
#[derive(Clone, Copy, PartialEq, Eq)]
pub enum ListName {
    /// The chunks that are free, with the next to hand out first.
    Free(usize),
    /// The chunks that are handed out, with the oldest first.
    HandedOut(usize),
}

/// A field of the rows that leads to a chunk.
#[derive(Clone, Copy, PartialEq, Eq)]
pub(crate) enum Field {
    /// The chunk behind this one in its list.
    Next(ChunkId),
    /// The chunk before this one in its list.
    Previous(ChunkId),
    /// The first chunk of the list.
    Head(ListName),
    /// The last chunk of the list.
    Tail(ListName),
}

/// A change of the rows: a field gets a link, or a chunk a mark.
#[derive(Clone, Copy, PartialEq, Eq)]
pub(crate) enum Change {
    /// The chunk to which a field leads.
    Link(Field, Option<ChunkId>),
    /// In which kind of list the chunk is.
    Mark(ChunkId, Mark),
}
