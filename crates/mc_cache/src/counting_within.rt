//! The call of a worker that counts the items of the cache and tries for each lock n times. (own)
use crate::cache::{Cache, Worker};
use crate::resting::recall;
use mc_words::Held;

impl Worker {
    ghost use Rattle.std.specs.Prelude.{IfOk, OnErr};
    ghost use Rattle.mc_cache.specs.Resting.{RestsIn};
    ghost use Rattle.mc_cache.specs.Tending.{SayNothing};
    ghost use Rattle.mc_cache.specs.Walking.{CountsItemsAgain, MissesCountingItems};

    /// The same as [`Worker::len`], but the worker tries for the lock of each stripe `tries` times at most, and doesn't wait. `Held` where each try
    /// for one of them missed: nothing is returned. (own)
    pub fn len_within(&mut self, cache: &Cache, tries: u64) -> Result<u64, Held>
        requires { RestsIn cache.now self.old }
        ensures rests { RestsIn cache.now self.new }
        ensures counts { IfOk result (λ count. CountsItemsAgain cache.now count self.old self.new) }
        ensures held { OnErr result (MissesCountingItems cache.now tries self.old self.new) }
        ensures stores_nothing { SayNothing self.old.hands.items self.new.hands.items }
    {
        let mut count: u64 = 0;
        for shard in 0..cache.arenas.len() {
            let arena = &cache.arenas[shard];
            let hand = &mut self.hands[shard];
            recall(arena, hand);
            match mc_shard::count_within(arena, hand, tries) {
                Ok(here) => count = count.saturating_add(here),
                Err(held) => return Err(held),
            }
        }
        Ok(count)
    }
}
