//! The limits of a slab memory.

/// The least bytes of a page.
pub const LEAST_PAGE_BYTES: u64 = 64;

/// The most bytes of a page.
pub const MOST_PAGE_BYTES: u64 = 16_384;

/// The most pages within the limit.
pub const MOST_PAGES: u64 = 64;

/// The most classes of a table.
pub const MOST_CLASSES: u64 = 63;

/// The most stripes.
pub const MOST_STRIPES: u64 = 64;

/// The most chunks of a page.
pub const MOST_PAGE_CHUNKS: u64 = 256;

/// The most chunks that the mover looks at in a turn.
pub const MOST_BULK: u64 = 256;

/// The most hands of an arena (own).
pub const MOST_HANDS: u64 = 64;

/// The most workers of a script or a cache: each has a hand, and one more hand moves pages (own).
pub const MOST_WORKERS: u64 = MOST_HANDS - 1;

/// The most chunks that a hand or a worker may hold by references. One with as many gets no reference (own;
/// memcached's references have 16 bits).
pub const MOST_REFS: u64 = 255;
