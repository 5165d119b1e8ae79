//! Calls one after another, with no test of the worker between them.
ghost use Rattle.mc_cache.specs.Belonging.{BelongsTo};

use mc_cache::{Cache, Worker};
use std::sync::Wait;

/// Makes two calls of each kind, one after the other: the worker belongs to the cache at each.
pub fn call_twice<R: Wait>(
    rt: &R,
    cache: &Cache,
    worker: &mut Worker,
    key: &[u8],
    into: &mut Vec<u8>,
)
    requires { BelongsTo cache.now worker.old }
    ensures { BelongsTo cache.now worker.new }
{
    let _ = worker.set(rt, cache, key, b"first");
    let _ = worker.set(rt, cache, key, b"second");
    let _ = worker.get(rt, cache, key, into);
    let _ = worker.get(rt, cache, key, into);
    let _ = worker.peek(rt, cache, key, into);
    let _ = worker.peek(rt, cache, key, into);
    let _ = worker.try_get(cache, key, into);
    let _ = worker.try_get(cache, key, into);
    let _ = worker.contains(rt, cache, key);
    let _ = worker.touch(rt, cache, key);
    let _ = worker.touch(rt, cache, key);
    let _ = worker.delete(rt, cache, key);
    let _ = worker.delete(rt, cache, key);
}
