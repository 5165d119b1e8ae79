//! The small proved clients of `example_calls` that open, fill and read a cache, as they run.
ghost use Rattle.mc_cache.specs.Belonging.{BelongsTo};

use super::made::{HASH_KEY, config_of, pass_if, with_one_worker};
use example_calls::cache::{
    OpenError, delete_what_was_got, get_from_new, open_within, set_twice_and_get,
};
use mc_cache::{Cache, Deletion, SizingError, Worker};
use std::sync::Wait;
use std::test::Fail;

/// A worker that stores two values under a key gets the second.
#[test]
fn the_second_value_is_got(rt: HostRuntime) -> Result<(), Fail> {
    let (cache, mut worker, _tender) = with_one_worker(&rt, rt.alloc(), 2)?;
    let mut bytes = Vec::new(rt.alloc());
    let found = set_twice_and_get(
        &rt,
        &cache,
        &mut worker,
        b"city",
        b"Bern",
        b"Basel",
        &mut bytes,
    );
    let is_second = matches!(found, Ok(true)) && bytes.as_slice() == b"Basel".as_slice();
    pass_if(is_second, "no value was found, or another one")
}

/// Takes a value off its key twice.
fn take_twice<R: Wait>(
    rt: &R,
    cache: &Cache,
    worker: &mut Worker,
    bytes: &mut Vec<u8>,
) -> Result<(), Fail>
    requires { BelongsTo cache.now worker.old }
{
    let _stored = worker.set(rt, cache, b"city", b"Bern");
    let first = delete_what_was_got(rt, cache, worker, b"city", bytes)?;
    let second = delete_what_was_got(rt, cache, worker, b"city", bytes)?;
    if first != Deletion::Deleted {
        return Err(Fail::new("it isn't deleted"));
    }
    if second != Deletion::Missing {
        return Err(Fail::new("it is there still"));
    }
    pass_if(
        bytes.as_slice() == b"Bern".as_slice(),
        "another value was found",
    )
}

/// A value is taken off its key once, and its bytes are the ones that were stored.
#[test]
fn a_value_is_taken_once(rt: HostRuntime) -> Result<(), Fail> {
    let (cache, mut worker, _tender) = with_one_worker(&rt, rt.alloc(), 2)?;
    let mut bytes = Vec::new(rt.alloc());
    take_twice(&rt, &cache, &mut worker, &mut bytes)
}

/// A worker of a new cache finds nothing.
#[test]
fn a_new_cache_is_empty(rt: HostRuntime) -> Result<(), Fail> {
    let bytes = get_from_new(&rt, rt.alloc(), &config_of(2, 1), HASH_KEY, b"city")?;
    assert!(rt; bytes.is_empty(), "a new cache has a value");
    Ok(())
}

/// A cache that is opened for some bytes takes no more, and has the workers that were asked for. Too few bytes are refused.
#[test]
fn caches_are_opened_within_their_bytes(rt: HostRuntime) -> Result<(), Fail> {
    let Ok(opened) = open_within(&rt, rt.alloc(), 1_048_576, 72, 2, HASH_KEY) else {
        return Err(Fail::new("no cache was opened"));
    };
    assert!(rt; opened.bytes <= 1_048_576, "it takes too many bytes");
    assert!(rt; opened.workers.len() == 2, "it has other workers");
    let refused = open_within(&rt, rt.alloc(), 1000, 72, 2, HASH_KEY);
    assert!(rt;
        matches!(refused, Err(OpenError::Size(SizingError::TooFewBytes))),
        "1,000 bytes are enough"
    );
    Ok(())
}
