//! What turns of the mover did, and how the last one ended.
ghost use Rattle.std.specs.Prelude.{◌≡◌};
ghost use Rattle.mc_serial_spec.specs.Mover.{AreAtMost, zero_counts, with_count};

use mc_pages::Found;

/// What was done in some turns. Chunks whose item was rescued or evicted were cleared too.
#[derive(Clone, Copy, Debug, PartialEq, Eq)]
pub struct Counts {
    pub cleared: u64,
    pub rescued: u64,
    pub evicted: u64,
    pub busy: u64,
    pub locked: u64,
}

impl Counts {
    /// Nothing was done yet.
    pub fn new() -> Counts
        ensures { result ≡ zero_counts }
    {
        Counts {
            cleared: 0,
            rescued: 0,
            evicted: 0,
            busy: 0,
            locked: 0,
        }
    }

    /// One more chunk. Those whose item was rescued or evicted were cleared too.
    pub fn count(&mut self, found: Found)
        requires { AreAtMost 256000000 self.old }
        ensures { self.new ≡ with_count self.old found }
    {
        match found {
            Found::Cleared => self.cleared += 1,
            Found::Rescued => {
                self.cleared += 1;
                self.rescued += 1;
            }
            Found::Evicted => {
                self.cleared += 1;
                self.evicted += 1;
            }
            Found::Busy => self.busy += 1,
            Found::Locked => self.locked += 1,
            Found::Already => {}
        }
    }
}

/// How a turn ends.
#[derive(Clone, Copy, Debug, PartialEq, Eq)]
pub enum Ending {
    /// No page is moving.
    Idle,
    /// The page goes on moving.
    Went,
    /// The move ended.
    Finished,
}
