//! A value that gets bytes at both ends, of which no worker loses any.
ghost use Rattle.std.specs.Prelude.{◌≡◌, Ok, true};
ghost use Rattle.mc_cache.specs.Belonging.{BelongsTo};
ghost use Rattle.mc_cache.specs.Shards.{IsKey};
ghost use Rattle.example_calls.specs.Lengthened.{AddsAtBothEnds};

use mc_cache::{Cache, Worker, conditions_are_met};
use mc_update::{ChangeError, Updater};
use std::sync::Wait;

/// Adds bytes before the key's value, and then others behind it. False where the key has no value, at either step. Each of the two new
/// values took the place of the very value that it was made of: no bytes that another worker added are lost.
pub fn add_at_both_ends<R: Wait>(
    rt: &R,
    cache: &Cache,
    worker: &mut Worker,
    updater: &mut Updater,
    key: &[u8],
    first: &[u8],
    last: &[u8],
) -> Result<bool, ChangeError>
    requires belongs { BelongsTo cache.now worker.old }
    requires key { IsKey key.now }
    ensures belongs { BelongsTo cache.now worker.new }
    ensures adds { result ≡ Ok true →
        AddsAtBothEnds cache.now key.now first.now last.now worker.new }
{
    conditions_are_met();
    match updater.prepend(rt, cache, worker, key, first) {
        Ok(Some(_version)) => {}
        Ok(None) => return Ok(false),
        Err(error) => return Err(error),
    }
    match updater.append(rt, cache, worker, key, last) {
        Ok(Some(_version)) => Ok(true),
        Ok(None) => Ok(false),
        Err(error) => Err(error),
    }
}
