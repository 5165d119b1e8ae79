//! A value of up to 1 MiB that a worker sets and then gets.
ghost use Rattle.std.specs.Prelude.{◌≡◌, ◌++◌, ◌⊎◌, Ok, true};
ghost use Rattle.mc_cache.specs.Belonging.{BelongsTo};
ghost use Rattle.mc_cache.specs.declared.cache.Worker.{Worker};
ghost use Rattle.mc_large.specs.Own.{FindsRootOfOther};

use mc_cache::{Cache, Worker};
use mc_large::{Large, LargeCallError, LargeSetError, own_large_values_are_whole};
use std::sync::Wait;

/// Which call was refused.
#[derive(Debug, PartialEq, Eq, Drop)]
pub enum RefusedWhole {
    /// The set.
    Set(LargeSetError),
    /// The get.
    Get(LargeCallError),
}

/// Sets the key to the value and gets it: what is added behind the bytes is this very value, or another worker stored the key's root, or
/// there is nothing. So where no other worker sets the key, the value is got whole or not at all.
pub fn set_and_get_whole<R: Wait>(
    rt: &R,
    cache: &Cache,
    worker: &mut Worker,
    large: &mut Large,
    key: &[u8],
    value: &[u8],
    into: &mut Vec<u8>,
) -> Result<bool, RefusedWhole>
    requires { BelongsTo cache.now worker.old }
    ensures belongs { BelongsTo cache.now worker.new }
    ensures whole { result ≡ Ok true → (into.new.items ≡ into.old.items ++ value.now)
        ⊎ ((between : Worker) × FindsRootOfOther cache.now key.now between) }
    ensures kept { (result ≡ Ok true → ⊥) → into.new.items ≡ into.old.items }
{
    own_large_values_are_whole();
    if let Err(error) = large.set(rt, cache, worker, key, value) {
        return Err(RefusedWhole::Set(error));
    }
    match large.get(rt, cache, worker, key, into) {
        Ok(found) => Ok(found),
        Err(error) => Err(RefusedWhole::Get(error)),
    }
}
