//! The call of a worker that deletes every key of the cache.
use crate::cache::{Cache, Worker};
use mc_memory::Refused;
use std::sync::Wait;

impl Worker {
    ghost use Rattle.std.specs.Prelude.{IfOk, OnErr, OnOk};
    ghost use Rattle.mc_cache.specs.Belonging.{BelongsTo};
    ghost use Rattle.mc_cache.specs.Walking.{ClearsCache, LosesEachHash, StopsClearingCache};
    ghost use Rattle.mc_cache.specs.Tending.{SayNothing};

    /// Deletes every key of the cache: of each shard in turn every stripe, in one hold of the stripe's lock, for which it waits. It returns how
    /// many it deleted, which stays at 2^64 - 1 once there. Other workers go on meanwhile. So each stripe had no key at some moment in the
    /// call, and what was stored before the call began is gone, but not what was stored behind that moment. It is refused only where a stripe
    /// records its calls, which those of a cache don't; what was deleted stays deleted. (memcached's `flush_all`)
    pub fn clear<R: Wait>(&mut self, rt: &R, cache: &Cache) -> Result<u64, Refused>
        requires { BelongsTo cache.now self.old }
        ensures belongs { BelongsTo cache.now self.new }
        ensures clears { IfOk result (λ count. ClearsCache cache.now count self.old self.new) }
        ensures gone { OnOk result (LosesEachHash cache.now self.old self.new) }
        ensures refused { OnErr result (StopsClearingCache cache.now self.old self.new) }
        ensures stores_nothing { SayNothing self.old.hands.items self.new.hands.items }
    {
        let mut count: u64 = 0;
        for shard in 0..cache.arenas.len() {
            let arena = &cache.arenas[shard];
            let hand = &mut self.hands[shard];
            let here = mc_shard::clear(rt, arena, hand)?;
            count = count.saturating_add(here);
        }
        Ok(count)
    }
}
