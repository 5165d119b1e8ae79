//! The names of chunks, and the page that is on the move.
use mc_classes::{ClassId, PageId};

/// A chunk: a place on a page, whatever class the page is cut for.
#[derive(Clone, Copy, PartialEq, Eq, PartialOrd, Ord, Hash)]
pub struct ChunkId {
    /// The page, from 0.
    pub page: PageId,
    /// The index of the chunk on its page, from 0.
    pub index: u64,
}

/// A page on its way from one class to another, or to the pool.
#[derive(Clone, Copy, PartialEq, Eq)]
pub struct Moving {
    /// The page, which stays in its source's page list until the move ends.
    pub page: PageId,
    /// The class that gives the page.
    pub src: ClassId,
    /// The class that gets it, or 0 for the pool.
    pub dst: ClassId,
    /// The chunk that the mover looks at next.
    pub at: u64,
    /// How many chunks of this pass were busy or locked.
    pub busy: u64,
}
