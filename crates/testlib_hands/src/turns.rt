//! What turns of the mover counted, all together.
use mc_mover::{Counts, Turn};

/// What turns counted, all together.
#[derive(Clone, Copy)]
pub struct Turns {
    /// Pages that came to their destination.
    pub moved: u64,
    /// Items that were taken to another chunk.
    pub rescued: u64,
    /// Items that were evicted, as there was no other chunk.
    pub evicted: u64,
    /// Chunks that held up a page.
    pub held_up: u64,
}

/// The counts before the first turn.
pub const NO_TURNS: Turns = Turns {
    moved: 0,
    rescued: 0,
    evicted: 0,
    held_up: 0,
};

impl Turns {
    /// Adds what a turn found.
    fn add(&mut self, counts: Counts) {
        self.rescued = self.rescued.saturating_add(counts.rescued);
        self.evicted = self.evicted.saturating_add(counts.evicted);
        let held_up = counts.busy.saturating_add(counts.locked);
        self.held_up = self.held_up.saturating_add(held_up);
    }

    /// Adds what a turn counted, and returns whether it ended with no page on the move.
    pub fn note(&mut self, turn: Turn) -> bool {
        match turn {
            Turn::Idle => true,
            Turn::Went(counts) => {
                self.add(counts);
                false
            }
            Turn::Finished(counts) => {
                self.add(counts);
                self.moved = self.moved.saturating_add(1);
                true
            }
        }
    }
}
