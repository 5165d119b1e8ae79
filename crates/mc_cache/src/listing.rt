//! The call of a worker that lists the keys of a part of the cache.
ghost use Rattle.std.specs.Prelude.{◌≡◌, ◌<◌};
ghost use Rattle.mc_cache.specs.Observers.{shard_count};

use crate::cache::{Cache, Worker};
use mc_memory::Refused;
use std::alloc::Global;
use std::sync::Wait;

impl Cache {
    ghost use Rattle.mc_cache.specs.Listing.{stripes_in};

    /// How many stripes a shard has. A stripe is a part of which [`Worker::keys`] lists the keys. (own)
    pub fn stripes(&self, shard: usize) -> u64
        requires { shard < shard_count self.now }
        ensures { result ≡ stripes_in self.now shard }
    {
        self.arenas[shard].config().stripes
    }
}

impl Worker {
    ghost use Rattle.std.specs.Prelude.{OnErr, OnOk};
    ghost use Rattle.mc_cache.specs.Belonging.{BelongsTo};
    ghost use Rattle.mc_cache.specs.Listing.{ActsOnPart, ListsPart, stripes_in};
    ghost use Rattle.mc_cache.specs.Shards.{StoresNoMore, TouchesNothing};
    ghost use Rattle.mc_shard.specs.Listing.{PutsSome, bytes_of_keys};

    /// Puts the key of each item of a part behind the keys that are there. A part is a stripe of a shard, and each key belongs to one part. First
    /// the hashes of the stripe are listed, in one hold of its lock, for which the worker waits. Then each is looked up as by a get that marks
    /// nothing, and its item's key is put. An item that went meanwhile is left out, and one that came meanwhile may be, too. Where memory is
    /// refused, the keys that were put stay. (own, in the place of memcached's `lru_crawler metadump`)
    pub fn keys<R: Wait>(
        &mut self,
        rt: &R,
        alloc: Global,
        cache: &Cache,
        shard: usize,
        stripe: u64,
        into: &mut Vec<Vec<u8>>,
    ) -> Result<(), Refused>
        requires belongs { BelongsTo cache.now self.old }
        requires shard { shard < shard_count cache.now }
        requires stripe { stripe < stripes_in cache.now shard }
        ensures belongs { BelongsTo cache.now self.new }
        ensures lists { OnOk result (ListsPart cache.now shard stripe
            (bytes_of_keys into.old.items) (bytes_of_keys into.new.items) self.old self.new) }
        ensures refused { OnErr result
            (PutsSome (bytes_of_keys into.old.items) (bytes_of_keys into.new.items)) }
        ensures stores_nothing { ActsOnPart cache.now shard StoresNoMore self.old self.new }
        ensures untouched { ActsOnPart cache.now shard TouchesNothing self.old self.new }
    {
        let arena = &cache.arenas[shard];
        let hand = &mut self.hands[shard];
        mc_shard::keys(rt, alloc, arena, &cache.hints, hand, stripe, into)
    }
}
