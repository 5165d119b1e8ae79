//! A key that a worker sets twice and then gets.
ghost use Rattle.std.specs.Prelude.{◌≡◌, ◌++◌, ◌⊎◌, Ok, true};
ghost use Rattle.mc_cache.specs.Belonging.{BelongsTo};
ghost use Rattle.mc_cache.specs.Newest.{GivesValueOfOther};
ghost use Rattle.mc_cache.specs.declared.cache.Worker.{Worker};

use mc_cache::{Cache, CallError, SetError, Worker, own_values_are_newest};
use std::sync::Wait;

/// Which call was refused.
#[derive(Debug, PartialEq, Eq, Drop)]
pub enum RefusedStep {
    /// One of the two sets.
    Set(SetError),
    /// The get.
    Get(CallError),
}

/// Sets the key to the first value and then to the second, and gets it: what is added behind the bytes is the second value, or a value
/// that another worker stored under the key, or nothing. So where no other worker sets the key, the first value is never got.
pub fn set_twice_and_get<R: Wait>(
    rt: &R,
    cache: &Cache,
    worker: &mut Worker,
    key: &[u8],
    first: &[u8],
    second: &[u8],
    into: &mut Vec<u8>,
) -> Result<bool, RefusedStep>
    requires { BelongsTo cache.now worker.old }
    ensures belongs { BelongsTo cache.now worker.new }
    ensures newest { result ≡ Ok true → (into.new.items ≡ into.old.items ++ second.now)
        ⊎ ((between : Worker) × GivesValueOfOther cache.now key.now into.old.items into.new.items
        between worker.new) }
    ensures kept { (result ≡ Ok true → ⊥) → into.new.items ≡ into.old.items }
{
    own_values_are_newest();
    if let Err(error) = worker.set(rt, cache, key, first) {
        return Err(RefusedStep::Set(error));
    }
    if let Err(error) = worker.set(rt, cache, key, second) {
        return Err(RefusedStep::Set(error));
    }
    match worker.get(rt, cache, key, into) {
        Ok(found) => Ok(found),
        Err(error) => Err(RefusedStep::Get(error)),
    }
}
