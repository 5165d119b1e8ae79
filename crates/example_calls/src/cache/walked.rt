//! Calls that walk over many keys: a cache that is cleared and then counted, and the keys of a shard.
ghost use Rattle.std.specs.Prelude.{◌<◌, IfOk, OnErr, OnOk};
ghost use Rattle.mc_cache.specs.Belonging.{BelongsTo};
ghost use Rattle.mc_cache.specs.Listing.{stripes_in};
ghost use Rattle.mc_cache.specs.Observers.{shard_count};
ghost use Rattle.mc_cache.specs.Walking.{StopsClearingCache};
ghost use Rattle.mc_shard.specs.Listing.{PutsSome, bytes_of_keys};
ghost use Rattle.example_calls.specs.Walked.{ClearsAndCounts, ListsFirstParts, StoresNoValue};

use mc_cache::{Cache, Worker};
use mc_memory::Refused;
use std::alloc::Global;
use std::sync::Wait;

/// Deletes every key of the cache, and counts what is there then. It returns how many keys it deleted, and how many it counted. Between the
/// two calls other workers may store. But whatever was stored before the first call began was gone at a moment in that call.
pub fn clear_and_count<R: Wait>(
    rt: &R,
    cache: &Cache,
    worker: &mut Worker,
) -> Result<(u64, u64), Refused>
    requires { BelongsTo cache.now worker.old }
    ensures belongs { BelongsTo cache.now worker.new }
    ensures clears { IfOk result (λ counts.
        ClearsAndCounts cache.now counts.0 counts.1 worker.old worker.new) }
    ensures refused { OnErr result (StopsClearingCache cache.now worker.old worker.new) }
    ensures stores_nothing { StoresNoValue worker.old worker.new }
{
    match worker.clear(rt, cache) {
        Ok(deleted) => {
            let left = worker.len(rt, cache);
            Ok((deleted, left))
        }
        Err(refused) => Err(refused),
    }
}

/// Puts the keys of a shard behind the keys that are there, part by part. Where memory is refused, the keys that were put stay.
pub fn keys_of_shard<R: Wait>(
    rt: &R,
    alloc: Global,
    cache: &Cache,
    worker: &mut Worker,
    shard: usize,
    into: &mut Vec<Vec<u8>>,
) -> Result<(), Refused>
    requires belongs { BelongsTo cache.now worker.old }
    requires shard { shard < shard_count cache.now }
    ensures belongs { BelongsTo cache.now worker.new }
    ensures lists { OnOk result (ListsFirstParts cache.now shard (stripes_in cache.now shard)
        (bytes_of_keys into.old.items) (bytes_of_keys into.new.items) worker.old worker.new) }
    ensures refused { OnErr result
        (PutsSome (bytes_of_keys into.old.items) (bytes_of_keys into.new.items)) }
{
    for stripe in 0..cache.stripes(shard) {
        worker.keys(rt, alloc, cache, shard, stripe, into)?;
    }
    Ok(())
}
