//! Tests of items, by calls on hands.
mod calls;
mod compared;
mod eviction;
mod gets;
mod hints;
mod holds;
mod orders;
mod races;
mod refusals;
mod steps;
mod within;

/// How many words the greatest item has.
const MOST_WORDS: u64 = 61;
