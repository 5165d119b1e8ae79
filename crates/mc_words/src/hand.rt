//! The hands of an arena.
pub(crate) mod held;
pub(crate) mod join;
pub(crate) mod kept_chunk;
pub(crate) mod recall;

ghost use Rattle.mc_core.specs.run.Chunks.{most_holdings};
ghost use Rattle.mc_words.specs.lock.Out.{IsNoted};
ghost use Rattle.mc_words.specs.hand.Tallies.{IsTallied};

use crate::hand::kept_chunk::KeptChunk;
use crate::lock::locks::{Lock, Locks};
use crate::rule::HandSeat;

/// A hand's stamps begin at this times its number.
const STAMP_UNIT: u64 = 281_474_976_710_656;

/// How many stamps a hand has.
const MOST_STAMPS: u64 = STAMP_UNIT - 1;

/// What a thread acts with: who it is, which locks it has, and how many chunks it holds.
#[derive(Drop)]
pub struct Hand {
    pub(crate) seat: HandSeat,
    pub(crate) number: u64,
    /// How many chunks the hand holds.
    pub(crate) chunks: u64,
    pub(crate) locks: Locks,
    /// How many stamps the hand gave out.
    pub(crate) stamps: u64,
    /// How many of its chunks it fills.
    pub(crate) fresh: u64,
    /// The chunk that it left dead when it last stored over an item, if it remembers such chunks.
    pub(crate) dead: KeptChunk,
    ghost noted: { IsNoted seat.me number chunks locks },
    ghost tallied: { IsTallied seat.me stamps fresh },
}

impl Hand {
    ghost use Rattle.std.specs.Prelude.{◌≡◌, ◌≤◌, length};
    ghost use Rattle.mc_core.specs.model.Holdings.{has_fresh};
    ghost use Rattle.mc_words.specs.hand.Arenas.{view};
    ghost use Rattle.mc_words.specs.rule.Happens.{LawfulView};
    ghost use Rattle.mc_words.specs.hand.Idle.{is_idle, is_unlocked};
    ghost use Rattle.mc_words.specs.lock.Out.{with_last};
    ghost use Rattle.mc_words.specs.lock.Slots.{lock_number};
    ghost use Rattle.mc_words.specs.hand.Tallies.{next_stamp};

    /// How many chunks it holds, `MOST_HOLDINGS` at most: fresh ones, and those that it has references to.
    pub fn refs(&self) -> u64
        ensures count { result ≡ length (view self.now).row.holdings }
        ensures most { LawfulView (view self.now) → result ≤ most_holdings }
    {
        self.chunks
    }

    /// Whether the hand has no lock.
    pub fn unlocked(&self) -> bool
        ensures unlocked { result ≡ is_unlocked (view self.now) }
    {
        self.locks.is_neither()
    }

    /// Whether the hand has no lock and holds no chunk, so that another may take it over.
    pub fn idle(&self) -> bool
        ensures idle { result ≡ is_idle (view self.now) }
    {
        self.unlocked() && self.refs() == 0
    }

    /// The stamp of its next item: 2^48 times its number, and one more than it gave out. None where all were given out. (own)
    pub fn next_stamp(&self) -> Option<u64>
        ensures stamp { result ≡ next_stamp (view self.now).row.ids }
    {
        if self.stamps < MOST_STAMPS {
            Some(self.number * STAMP_UNIT + (self.stamps + 1))
        } else {
            None
        }
    }

    /// Whether the hand fills a chunk.
    pub fn has_fresh(&self) -> bool
        ensures fresh { result ≡ has_fresh (view self.now).row.holdings }
    {
        self.fresh > 0
    }

    // Brings the value behind this lock, which the hand has, before the other.
    pub(crate) fn bring_forward(&mut self, lock: Lock)
        ensures locks { self.new.locks ≡ with_last (lock_number lock) self.old.locks }
        ensures table { self.new.seat.table_id ≡ self.old.seat.table_id }
        ensures view { self.new.seat.me.0 ≡ self.old.seat.me.0 }
    {
        if self.locks.is_behind(lock) {
            self.seat.turn();
            self.locks = self.locks.turned();
        }
    }
}
