//! The counts of what a tender did.
ghost use Rattle.std.specs.Prelude.{◌≡◌, ◌-◌, ◌^◌};
ghost use Rattle.mc_cache.specs.Cases.{TwoShards, TwoTurns};
ghost use Rattle.mc_cache.specs.Tending.{tended_with};
ghost use Rattle.mc_cache.specs.Windows.{count_with, nothing_tended, with_turn};

use mc_mover::Turn;

/// What a tender did on all shards. Each number stays at 2^64 - 1 once there.
#[derive(Debug, Clone, Copy, PartialEq, Eq)]
pub struct Tended {
    /// How many moves were under way as their shard's window began: a set of mode 2 asked for them, or the window before left them so.
    pub found: u64,
    /// How many moves of a page began.
    pub began: u64,
    /// How many moves of a page came to their end.
    pub ended: u64,
    /// How many items went to another chunk of their class.
    pub rescued: u64,
    /// How many items were evicted, as their class had no other chunk.
    pub evicted: u64,
}

impl Tended {
    // Nothing was done.
    pub(crate) fn new() -> Tended
        ensures none { result ≡ nothing_tended }
    {
        Tended {
            found: 0,
            began: 0,
            ended: 0,
            rescued: 0,
            evicted: 0,
        }
    }

    // Counts what the turn did, too.
    pub(crate) fn count(&mut self, turn: Turn)
        ensures counted { self.new ≡ with_turn turn self.old }
    {
        let (ended, rescued, evicted) = match turn {
            Turn::Idle => (0, 0, 0),
            Turn::Went(done) => (0, done.rescued, done.evicted),
            Turn::Finished(done) => (1, done.rescued, done.evicted),
        };
        self.ended = self.ended.saturating_add(ended);
        self.rescued = self.rescued.saturating_add(rescued);
        self.evicted = self.evicted.saturating_add(evicted);
    }

    // Counts what was done on one shard more, too.
    pub(crate) fn add(&mut self, more: Tended)
        ensures added { self.new ≡ tended_with self.old more }
    {
        self.found = self.found.saturating_add(more.found);
        self.began = self.began.saturating_add(more.began);
        self.ended = self.ended.saturating_add(more.ended);
        self.rescued = self.rescued.saturating_add(more.rescued);
        self.evicted = self.evicted.saturating_add(more.evicted);
    }
}

/// Worked cases. A turn that went on and one that finished are one move that ended, and what both did; what two shards did is summed; and a
/// count that would pass 2^64 - 1 stays there.
#[tactic(auto, unfolding(crate::specs::Windows::turns_tended))]
pub fn worked_tended()
    ensures turns { TwoTurns }
    ensures shards { TwoShards }
    ensures stays { count_with 3 (2 ^ 64 - 2) ≡ 2 ^ 64 - 1 }
{}
