//! A worker of a new cache that gets a key before it stored anything.
ghost use Rattle.std.specs.Prelude.{◌≤◌, IfOk};
ghost use Rattle.example_calls.specs.Cached.{AreStoredByOther};

use mc_cache::{Cache, CacheConfig, HashKey, NewError, own_values_are_newest};
use std::alloc::Global;
use std::sync::Wait;

/// Makes a cache, and gets the key by its first worker, which did nothing before. Only what another worker stored may be found.
pub fn get_from_new<R: Wait>(
    rt: &R,
    alloc: Global,
    config: &CacheConfig,
    hashing: HashKey,
    key: &[u8],
) -> Result<Vec<u8>, NewError>
    requires { 1 ≤ config.now.workers }
    ensures others { IfOk result (λ bytes. AreStoredByOther key.now bytes.items) }
{
    own_values_are_newest();
    let (cache, mut workers, _tender) = Cache::new(rt, alloc, config, hashing)?;
    let mut worker = workers.remove(0);
    let mut bytes = Vec::new(alloc);
    let _found = worker.get(rt, &cache, key, &mut bytes); // whether it is there
    Ok(bytes)
}
