//! Whole runs against tables of worked examples, and readers and writers in memory to run them on.
#![tactic(auto)]

mod devices;
#[cfg(test)]
mod tests;

pub use devices::{MemorySink, MemorySource};
