//! Walks within tries: a clear and a list of keys that are tried a second time where a lock was held.
ghost use Rattle.std.specs.Prelude.{◌≡◌, ◌<◌, IfOk, OnErr, OnOk};
ghost use Rattle.mc_cache.specs.Listing.{stripes_in};
ghost use Rattle.mc_cache.specs.Observers.{shard_count};
ghost use Rattle.mc_cache.specs.Resting.{RestsIn};
ghost use Rattle.mc_shard.specs.Listing.{bytes_of_keys};
ghost use Rattle.example_calls.specs.WalkedWithin.{ClearsAtSecondTry, ListsAtSecondTry, deleted_by_both};

use mc_cache::{Cache, ClearWithinError, Worker};
use mc_items::WithinError;
use std::alloc::Global;

/// Deletes every key of the cache, and calls again where the first call stopped. It returns how many keys the two calls deleted together, which
/// stays at 2^64 - 1 once there. A first call that was refused memory counts none: the stripes of a cache record no call, so none is.
pub fn clear_at_second_try(
    cache: &Cache,
    worker: &mut Worker,
    tries: u64,
) -> Result<u64, ClearWithinError>
    requires { RestsIn cache.now worker.old }
    ensures rests { RestsIn cache.now worker.new }
    ensures clears { IfOk result (λ count.
        ClearsAtSecondTry cache.now tries count worker.old worker.new) }
{
    match worker.clear_within(cache, tries) {
        Ok(count) => Ok(count),
        Err(first) => match worker.clear_within(cache, tries) {
            Ok(second) => Ok(deleted_by_both(first, second)),
            Err(error) => Err(error),
        },
    }
}

// How many keys two clears deleted, of which the first one stopped.
fn deleted_by_both(first: ClearWithinError, second: u64) -> u64
    ensures { result ≡ deleted_by_both first second }
{
    match first {
        ClearWithinError::NoMemory(_) => second,
        ClearWithinError::Held(deleted) => deleted.saturating_add(second),
    }
}

/// Puts the keys of a part behind the keys that are there, and calls again where a lock was held. A held call puts no key, so each key comes
/// from one call alone.
pub fn keys_at_second_try(
    alloc: Global,
    cache: &Cache,
    worker: &mut Worker,
    shard: usize,
    stripe: u64,
    tries: u64,
    into: &mut Vec<Vec<u8>>,
) -> Result<(), WithinError>
    requires rests { RestsIn cache.now worker.old }
    requires shard { shard < shard_count cache.now }
    requires stripe { stripe < stripes_in cache.now shard }
    ensures rests { RestsIn cache.now worker.new }
    ensures lists { OnOk result (ListsAtSecondTry cache.now tries shard stripe
        (bytes_of_keys into.old.items) (bytes_of_keys into.new.items) worker.old worker.new) }
    ensures kept { OnErr result (bytes_of_keys into.new.items ≡ bytes_of_keys into.old.items) }
{
    match worker.keys_within(alloc, cache, shard, stripe, tries, into) {
        Ok(()) => Ok(()),
        Err(WithinError::NoMemory(refused)) => Err(WithinError::NoMemory(refused)),
        Err(WithinError::Held) => worker.keys_within(alloc, cache, shard, stripe, tries, into),
    }
}
