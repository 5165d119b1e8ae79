//! How old each chunk is, against a clock that goes on by one with each chunk that is handed out or touched.
//!
//! An age is the clock's time when the chunk last came to the back of its class's hand-out order: the lower, the older. (after
//! the field `time` of memcached's items; a clock that counts in place of seconds is own)
ghost use Rattle.std.specs.Prelude.{◌≡◌, ◌<◌, length, IfOk};
ghost use Rattle.mc_pages.specs.Ages.{fresh_ages, age_at, ages_after_renewal, ages_after_inheritance};

use mc_memory::{Refused, filled};
use std::alloc::Global;
use std::marker::Model;

/// An age for each chunk, by the place of its row, and the clock. No call takes memory but `new`.
#[derive(Drop)]
pub(crate) struct Ages {
    ages: Vec<u64>,
    /// The clock stays at 2^64 - 1 once there. From then on ages may be equal.
    clock: u64,
}

impl Model for Ages {
    ghost use Rattle.mc_pages.specs.Ages.{AgesState, ages_of};

    ghost Value = { AgesState };

    ghost view = { ages_of };
}

impl Ages {
    /// Ages for n chunks.
    pub(crate) fn new(alloc: Global, chunks: usize) -> Result<Ages, Refused>
        ensures { IfOk result (λ ages. ages ≡ fresh_ages chunks) }
    {
        Ok(Ages {
            ages: filled(alloc, 0, chunks)?,
            clock: 0,
        })
    }

    /// The age of the chunk whose row is at this place.
    pub(crate) fn age(&self, place: usize) -> u64
        requires { place < length self.now.ages }
        ensures { result ≡ age_at self.now place }
    {
        self.ages[place]
    }

    /// The chunk is the youngest of all now, and the clock goes on.
    pub(crate) fn renew(&mut self, place: usize)
        requires { place < length self.old.ages }
        ensures { self.new ≡ ages_after_renewal self.old place }
    {
        self.ages[place] = self.clock;
        self.clock = self.clock.saturating_add(1);
    }

    /// A chunk is as old as another.
    pub(crate) fn inherit(&mut self, new: usize, old: usize)
        requires new { new < length self.old.ages }
        requires old { old < length self.old.ages }
        ensures { self.new ≡ ages_after_inheritance self.old new old }
    {
        self.ages[new] = self.ages[old];
    }
}
