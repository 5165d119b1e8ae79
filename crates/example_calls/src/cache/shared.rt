//! A cache of bytes, two workers and a tender. Each of these three may be in a thread of its own.
ghost use Rattle.std.specs.Prelude.{◌≡◌, IfOk};
ghost use Rattle.example_calls.specs.Cached.{AreFoundIn, city_key};

use mc_cache::{Cache, CacheConfig, HashKey, NewError};
use std::alloc::Global;
use std::sync::Wait;

/// One worker stores a value, the tender moves pages, and the other gets it: what it found, or nothing if that is gone.
pub fn share<R: Wait>(
    rt: &R,
    alloc: Global,
    config: &CacheConfig,
    hashing: HashKey,
) -> Result<Vec<u8>, NewError>
    requires { config.now.workers ≡ 2 }
    ensures found { IfOk result (λ bytes. AreFoundIn city_key bytes.items) }
{
    let (cache, mut workers, mut tender) = Cache::new(rt, alloc, config, hashing)?;
    let (mut writer, mut reader) = (workers.remove(0), workers.remove(0));
    let mut bytes = Vec::new(alloc);
    let _stored = writer.set(rt, &cache, b"city", b"Bern"); // or why it isn't stored
    let _tended = tender.tend(rt, &cache); // what was moved; to be called once a second or so
    let _found = reader.get(rt, &cache, b"city", &mut bytes); // whether it is there
    Ok(bytes)
}
