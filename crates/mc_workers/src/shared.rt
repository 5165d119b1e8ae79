//! What the threads of a run share.

use mc_script::Command;
use mc_words::Arena;
use std::alloc::Global;

/// What each thread of a run is lent: how it waits, where its memory comes from, the arena, the gate, and the lines of all.
#[derive(Drop)]
pub struct Shared<'a, R, G> {
    pub rt: &'a R,
    pub alloc: Global,
    pub arena: &'a Arena,
    pub gate: &'a G,
    pub commands: &'a [Command],
}
