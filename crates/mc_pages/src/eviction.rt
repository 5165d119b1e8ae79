//! How far an eviction looks.

/// How many of a class's oldest chunks an eviction looks at. (the tries of items.c's `lru_pull_tail`)
pub const EVICTION_TRIES: u64 = 5;
