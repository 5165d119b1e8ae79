//! Large values that a test is done with. How one is dropped is proved in each crate that lets it go out of scope, so tests give it to these calls, and none proves it but this crate.
use crate::hands::Two;
use mc_core::State;
use mc_words::Arena;

/// Drops an arena.
pub fn drop_arena(arena: Arena) {
    drop(arena);
}

/// Drops an arena and its two hands.
pub fn drop_two(two: Two) {
    drop(two);
}

/// Drops a state of the model.
pub fn drop_state(state: State) {
    drop(state);
}
