//! The call of a worker that deletes every key of the cache and tries for each lock n times. (own)
ghost use Rattle.std.specs.Prelude.{◌≡◌};
ghost use Rattle.mc_cache.specs.Walking.{stopped_behind};

use crate::cache::{Cache, Worker};
use crate::resting::recall;
use mc_shard::ClearWithinError;

// The error of a clear that stopped at a shard, behind shards where n keys were deleted.
fn stopped_behind(count: u64, error: ClearWithinError) -> ClearWithinError
    ensures { result ≡ stopped_behind count error }
{
    match error {
        ClearWithinError::NoMemory(refused) => ClearWithinError::NoMemory(refused),
        ClearWithinError::Held(here) => ClearWithinError::Held(count.saturating_add(here)),
    }
}

impl Worker {
    ghost use Rattle.std.specs.Prelude.{IfErr, IfOk, OnOk};
    ghost use Rattle.mc_cache.specs.Resting.{RestsIn};
    ghost use Rattle.mc_cache.specs.Tending.{SayNothing};
    ghost use Rattle.mc_cache.specs.Walking.{ClearsCacheAgain, LosesEachHash, StopsClearingWithin};

    /// The same as [`Worker::clear`], but the worker tries for the lock of each stripe `tries` times at most, and doesn't wait. `Held` where each
    /// try for one of them missed: the stripes before it are cleared, and the error has how many keys were deleted. A caller that calls again
    /// adds these numbers up. (own)
    pub fn clear_within(&mut self, cache: &Cache, tries: u64) -> Result<u64, ClearWithinError>
        requires { RestsIn cache.now self.old }
        ensures rests { RestsIn cache.now self.new }
        ensures clears { IfOk result (λ count. ClearsCacheAgain cache.now count self.old self.new) }
        ensures gone { OnOk result (LosesEachHash cache.now self.old self.new) }
        ensures stops { IfErr result (λ error.
            StopsClearingWithin cache.now tries error self.old self.new) }
        ensures stores_nothing { SayNothing self.old.hands.items self.new.hands.items }
    {
        let mut count: u64 = 0;
        for shard in 0..cache.arenas.len() {
            let arena = &cache.arenas[shard];
            let hand = &mut self.hands[shard];
            recall(arena, hand);
            match mc_shard::clear_within(arena, hand, tries) {
                Ok(here) => count = count.saturating_add(here),
                Err(error) => return Err(stopped_behind(count, error)),
            }
        }
        Ok(count)
    }
}
