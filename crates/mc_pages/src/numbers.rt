//! The numbers of a class and of the whole, for statistics and for the automover.

/// The numbers of a class.
#[derive(Clone, Copy, PartialEq, Eq)]
pub struct Numbers {
    /// How many pages the class has, a moving one included.
    pub pages: u64,
    /// The chunks of its free list.
    pub free: u64,
    /// How many of its items were evicted to make room.
    pub evictions: u64,
}

/// What all have together. The counters stay at 2^64 - 1 once there (own).
#[derive(Clone, Copy, PartialEq, Eq)]
pub struct Totals {
    /// Pages that were ever granted, those beyond the limit too.
    pub granted: u64,
    /// Pages in the pool.
    pub pool: u64,
    /// Moves that ended.
    pub moved: u64,
    /// Items that a move took to another chunk.
    pub rescues: u64,
    /// Items that a move evicted, as there was no other chunk.
    pub evictions_nomem: u64,
    /// Chunks that held up a move.
    pub busy: u64,
}
