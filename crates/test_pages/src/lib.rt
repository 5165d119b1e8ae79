//! Tests of the libraries of the memory, over their public calls alone: pages and stripes.
#![tactic(auto)]

#[cfg(test)]
mod tests;
