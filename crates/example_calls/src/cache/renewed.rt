//! A value that is got before its deadline, and gets a later one first.
ghost use Rattle.std.specs.Prelude.{◌≡◌, Ok, true};
ghost use Rattle.mc_cache.specs.Belonging.{BelongsTo};
ghost use Rattle.mc_cache.specs.Shards.{IsKey};
ghost use Rattle.example_calls.specs.Renewed.{RenewsAndReads};

use mc_cache::{Cache, CallError, Worker};
use mc_expiry::{Expiry, ExpiryError};
use std::sync::Wait;

/// Gives the key's value another deadline, where it isn't expired at this time, and gets it. Where it returns true, the bytes that were
/// added are a value that was stored under the key, and the deadline that it was stored with isn't reached.
pub fn renew_and_get<R: Wait>(
    rt: &R,
    cache: &Cache,
    worker: &mut Worker,
    expiry: &mut Expiry,
    key: &[u8],
    time: u32,
    deadline: u32,
    into: &mut Vec<u8>,
) -> Result<bool, ExpiryError>
    requires belongs { BelongsTo cache.now worker.old }
    requires key { IsKey key.now }
    ensures belongs { BelongsTo cache.now worker.new }
    ensures reads { result ≡ Ok true → RenewsAndReads cache.now key.now time deadline
        into.old.items into.new.items worker.old worker.new }
{
    match expiry.touch_until(rt, cache, worker, key, time, deadline) {
        Ok(Some(_version)) => {}
        Ok(None) => return Ok(false),
        Err(error) => return Err(error),
    }
    match expiry.get(rt, cache, worker, key, time, into) {
        Ok(found) => Ok(found),
        Err(CallError::KeyLength) => Err(ExpiryError::KeyLength),
        Err(CallError::NoMemory(refused)) => Err(ExpiryError::NoMemory(refused)),
    }
}
