//! A lease: a key that one owner has until a deadline, and may have for longer.
ghost use Rattle.std.specs.Prelude.{◌≡◌, Ok, Some, true};
ghost use Rattle.mc_cache.specs.Belonging.{BelongsTo};
ghost use Rattle.mc_cache.specs.Shards.{IsKey};
ghost use Rattle.example_calls.specs.Leased.{RenewsLease, TakesLease};

use mc_cache::{Cache, Worker};
use mc_expiry::{Expiry, ExpiryError};
use std::sync::Wait;

/// Takes the lease until a deadline, where nobody has it at this time, and returns whether it did. Where it did, the worker found no value of
/// the key, or an expired one, and stored the owner's in that place.
pub fn take_lease<R: Wait>(
    rt: &R,
    cache: &Cache,
    worker: &mut Worker,
    expiry: &mut Expiry,
    key: &[u8],
    owner: &[u8],
    time: u32,
    deadline: u32,
) -> Result<bool, ExpiryError>
    requires belongs { BelongsTo cache.now worker.old }
    requires key { IsKey key.now }
    ensures belongs { BelongsTo cache.now worker.new }
    ensures takes { result ≡ Ok true →
        TakesLease cache.now key.now owner.now time deadline worker.new }
{
    match expiry.add_until(rt, cache, worker, key, owner, time, deadline) {
        Ok(Some(_version)) => Ok(true),
        Ok(None) => Ok(false),
        Err(error) => Err(error),
    }
}

/// Gives the lease another deadline, and the owner that is handed in, where somebody has it at this time, and returns whether it did.
pub fn renew_lease<R: Wait>(
    rt: &R,
    cache: &Cache,
    worker: &mut Worker,
    expiry: &mut Expiry,
    key: &[u8],
    owner: &[u8],
    time: u32,
    deadline: u32,
) -> Result<bool, ExpiryError>
    requires belongs { BelongsTo cache.now worker.old }
    requires key { IsKey key.now }
    ensures belongs { BelongsTo cache.now worker.new }
    ensures renews { result ≡ Ok true →
        RenewsLease cache.now key.now owner.now time deadline worker.new }
{
    match expiry.replace_until(rt, cache, worker, key, owner, time, deadline) {
        Ok(Some(_version)) => Ok(true),
        Ok(None) => Ok(false),
        Err(error) => Err(error),
    }
}
