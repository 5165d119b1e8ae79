//! Tests of what a refused request for memory leaves, over public calls alone. `ci/memory` refuses each request of each of them in turn.
#![tactic(auto)]

#[cfg(test)]
mod tests;
