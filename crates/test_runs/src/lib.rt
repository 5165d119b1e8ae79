//! A cache over the typed calls of a keeper, as its author writes it; tests that use a keeper so; and tests of workers in threads of their
//! own, over the public calls of `mc_workers` and `mc_words` alone.
#![tactic(auto)]

mod cache;
#[cfg(test)]
mod tests;

pub use cache::{SMALL, small_cache, square, tick};
