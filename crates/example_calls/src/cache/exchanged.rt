//! A value that is replaced where it is still the one that was got.
ghost use Rattle.std.specs.Prelude.{◌≡◌, ℕ, Ok};
ghost use Rattle.mc_cache.specs.Belonging.{BelongsTo};
ghost use Rattle.mc_cache.specs.Shards.{IsKey};
ghost use Rattle.mc_shard.specs.declared.conditions.Outcome.TheVariants as outcome;
ghost use Rattle.example_calls.specs.Cached.{Exchanges};

use crate::cache::newest::RefusedStep;
use mc_cache::{Cache, Outcome, Worker, conditions_are_met};
use std::sync::Wait;

/// Gets the key's value, and stores another one in its place, unless the key changed meanwhile. Where it returns that it stored, the bytes
/// that were added are those of the value that went: no other value came between.
pub fn exchange<R: Wait>(
    rt: &R,
    cache: &Cache,
    worker: &mut Worker,
    key: &[u8],
    value: &[u8],
    into: &mut Vec<u8>,
) -> Result<Outcome, RefusedStep>
    requires belongs { BelongsTo cache.now worker.old }
    requires key { IsKey key.now }
    ensures belongs { BelongsTo cache.now worker.new }
    ensures exchanges { (stamp : ℕ) → result ≡ Ok (outcome.Stored stamp) →
        Exchanges cache.now key.now value.now into.old.items into.new.items stamp worker.old
        worker.new }
{
    conditions_are_met();
    let found = match worker.get_with_version(rt, cache, key, into) {
        Ok(found) => found,
        Err(error) => return Err(RefusedStep::Get(error)),
    };
    let Some(version) = found else {
        return Ok(Outcome::Missing);
    };
    match worker.compare_and_set(rt, cache, key, value, version) {
        Ok(outcome) => Ok(outcome),
        Err(error) => Err(RefusedStep::Set(error)),
    }
}
