//! The answers of a turn of the mover, and its counts.
ghost use Rattle.std.specs.Prelude.{◌≡◌, ◌^◌};
ghost use Rattle.mc_mover.specs.Turning.{AreBelow, counts_with_found, no_counts};

use mc_memory::Refused;
use mc_pages::Found;

/// How many chunks a turn found of each kind. What was cleared before isn't counted.
#[derive(Clone, Copy, PartialEq, Eq)]
pub struct Counts {
    /// Chunks that are cleared now: free and dead ones, and those whose item was rescued or evicted.
    pub cleared: u64,
    /// Chunks whose item was taken to another chunk.
    pub rescued: u64,
    /// Chunks whose item was evicted, as its class had no other chunk.
    pub evicted: u64,
    /// Chunks whose item somebody held.
    pub busy: u64,
    /// Chunks whose key's stripe another hand had.
    pub locked: u64,
}

impl Counts {
    // Nothing was found yet.
    pub(crate) fn new() -> Counts
        ensures none { result ≡ no_counts }
    {
        Counts {
            cleared: 0,
            rescued: 0,
            evicted: 0,
            busy: 0,
            locked: 0,
        }
    }

    // Counts one more chunk, that was found so.
    pub(crate) fn count(&mut self, found: Found)
        requires below { AreBelow (2 ^ 32) self.old }
        ensures counted { self.new ≡ counts_with_found found self.old }
    {
        match found {
            Found::Cleared => self.cleared += 1,
            Found::Rescued => {
                self.cleared += 1;
                self.rescued += 1;
            }
            Found::Evicted => {
                self.cleared += 1;
                self.evicted += 1;
            }
            Found::Busy => self.busy += 1,
            Found::Locked => self.locked += 1,
            Found::Already => {}
        }
    }
}

/// What a turn of the mover did.
#[derive(Clone, Copy, PartialEq, Eq)]
pub enum Turn {
    /// No page moves.
    Idle,
    /// The page moves still.
    Went(Counts),
    /// The page came to its destination.
    Finished(Counts),
}

/// Why a turn that waits for nobody wasn't done, or not to its end.
#[derive(Debug, PartialEq, Eq, Drop)]
pub enum TryTurn {
    /// Another hand has the lock of the slabs, or had it at each of n tries.
    Held,
    /// The room for a call on a key was refused. The chunk at hand is as before, and the move's position is there. What was done
    /// for chunks before it stays, and dead chunks may have been put back.
    NoMemory(Refused),
}
