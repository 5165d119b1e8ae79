//! The call of a worker that counts the items of the cache.
use crate::cache::{Cache, Worker};
use std::sync::Wait;

impl Worker {
    ghost use Rattle.mc_cache.specs.Belonging.{BelongsTo};
    ghost use Rattle.mc_cache.specs.Walking.{CountsItems};
    ghost use Rattle.mc_cache.specs.Tending.{SayNothing};

    /// Returns how many items the cache has, as a sum over the stripes of all shards. It looks at one stripe after another, and waits for the lock
    /// of each. So the sum is exact where no other worker stores or deletes meanwhile. It stays at 2^64 - 1 once there. (memcached's
    /// `curr_items`)
    pub fn len<R: Wait>(&mut self, rt: &R, cache: &Cache) -> u64
        requires { BelongsTo cache.now self.old }
        ensures belongs { BelongsTo cache.now self.new }
        ensures counts { CountsItems cache.now result self.old self.new }
        ensures stores_nothing { SayNothing self.old.hands.items self.new.hands.items }
    {
        let mut count: u64 = 0;
        for shard in 0..cache.arenas.len() {
            let arena = &cache.arenas[shard];
            let hand = &mut self.hands[shard];
            let here = mc_shard::count(rt, arena, hand);
            count = count.saturating_add(here);
        }
        count
    }
}
