//! The call of a worker that lists the keys of a part of the cache and tries for the part's lock n times. (own)
use crate::cache::{Cache, Worker};
use crate::resting::recall;
use mc_items::WithinError;
use std::alloc::Global;

impl Worker {
    ghost use Rattle.std.specs.Prelude.{◌≡◌, ◌<◌, Err, OnErr, OnOk};
    ghost use Rattle.mc_items.specs.declared.within.error.WithinError.TheVariants as within_error;
    ghost use Rattle.mc_cache.specs.Listing.{ActsOnPartAgain, ListsPartAgain, MissesListingPart, stripes_in};
    ghost use Rattle.mc_cache.specs.Observers.{shard_count};
    ghost use Rattle.mc_cache.specs.Resting.{RestsIn};
    ghost use Rattle.mc_cache.specs.Shards.{StoresNoMore, TouchesNothing};
    ghost use Rattle.mc_shard.specs.Listing.{bytes_of_keys};

    /// The same as [`Worker::keys`], but the worker tries for the stripe's lock `tries` times at most as the hashes are listed, and as often at each
    /// look that no hint leads to an item. It doesn't wait. Where it is refused, no key is put, so that a caller may call again. (own)
    pub fn keys_within(
        &mut self,
        alloc: Global,
        cache: &Cache,
        shard: usize,
        stripe: u64,
        tries: u64,
        into: &mut Vec<Vec<u8>>,
    ) -> Result<(), WithinError>
        requires rests { RestsIn cache.now self.old }
        requires shard { shard < shard_count cache.now }
        requires stripe { stripe < stripes_in cache.now shard }
        ensures rests { RestsIn cache.now self.new }
        ensures lists { OnOk result (ListsPartAgain cache.now shard stripe
            (bytes_of_keys into.old.items) (bytes_of_keys into.new.items) self.old self.new) }
        ensures held { result ≡ Err within_error.Held →
            MissesListingPart cache.now tries shard stripe self.old self.new }
        ensures kept { OnErr result
            (bytes_of_keys into.new.items ≡ bytes_of_keys into.old.items) }
        ensures stores_nothing { ActsOnPartAgain cache.now shard StoresNoMore self.old self.new }
        ensures untouched { ActsOnPartAgain cache.now shard TouchesNothing self.old self.new }
    {
        let arena = &cache.arenas[shard];
        let hand = &mut self.hands[shard];
        recall(arena, hand);
        mc_shard::keys_within(alloc, arena, &cache.hints, hand, stripe, tries, into)
    }
}
