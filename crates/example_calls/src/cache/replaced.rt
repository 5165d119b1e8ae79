//! A value that is stored only where the key has one.
ghost use Rattle.std.specs.Prelude.{◌≡◌, Ok, true};
ghost use Rattle.mc_cache.specs.Belonging.{ActsOnKey, BelongsTo, hash_in};
ghost use Rattle.mc_cache.specs.Shards.{IsKey};
ghost use Rattle.example_calls.specs.Cached.{StoresOverValue};

use mc_cache::{Cache, Outcome, SetError, Worker, conditions_are_met};
use std::sync::Wait;

/// Stores the value where the key has one, and returns whether it did. Where it did, the key had a value when the worker looked, and an item
/// was under its hash at the store.
pub fn replace_value<R: Wait>(
    rt: &R,
    cache: &Cache,
    worker: &mut Worker,
    key: &[u8],
    value: &[u8],
) -> Result<bool, SetError>
    requires belongs { BelongsTo cache.now worker.old }
    requires key { IsKey key.now }
    ensures belongs { BelongsTo cache.now worker.new }
    ensures replaces { result ≡ Ok true → ActsOnKey cache.now key.now
        (StoresOverValue (hash_in cache.now key.now) key.now value.now) worker.old worker.new }
{
    conditions_are_met();
    match worker.replace(rt, cache, key, value) {
        Ok(Outcome::Stored(_version)) => Ok(true),
        Ok(_other) => Ok(false),
        Err(error) => Err(error),
    }
}
