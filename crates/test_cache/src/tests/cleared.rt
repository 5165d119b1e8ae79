//! Clears, counts and lists of keys: of known keys, also within tries.
ghost use Rattle.std.specs.Prelude.{◌<◌};
ghost use Rattle.mc_cache.specs.Belonging.{BelongsTo};
ghost use Rattle.mc_cache.specs.Observers.{shard_count};
ghost use Rattle.mc_cache.specs.Resting.{RestsIn};

use super::made::{with_one_worker, with_resting_worker};
use example_calls::cache::{
    clear_and_count, clear_at_second_try, keys_at_second_try, keys_of_shard,
};
use mc_cache::{Cache, ClearWithinError, Worker};
use mc_items::WithinError;
use mc_memory::Refused;
use std::alloc::{AllocError, Global};
use std::collections::BTreeMap;
use std::process::Abort;
use std::sync::Wait;
use std::test::Fail;

/// How many known keys are stored. Each is one byte, its number.
const KNOWN: u8 = 30;

/// The value of a known key.
const VALUE: &[u8] = b"value";

/// What a cache should have: the version of each key's value, by the key's one byte.
pub type Model = BTreeMap<u8, u64>;

/// The keys of all parts of the cache.
pub fn keys_of_all<R: Wait>(
    rt: &R,
    alloc: Global,
    cache: &Cache,
    worker: &mut Worker,
) -> Result<Vec<Vec<u8>>, Refused>
    requires { BelongsTo cache.now worker.old }
    ensures { BelongsTo cache.now worker.new }
{
    let mut keys = Vec::new(alloc);
    for shard in 0..cache.shards() {
        keys_of_shard(rt, alloc, cache, worker, shard, &mut keys)?;
    }
    Ok(keys)
}

/// The one byte of each of these keys, the smallest first. None if one has another length.
fn numbers_of(alloc: Global, keys: &[Vec<u8>]) -> Result<Option<Vec<u8>>, AllocError> {
    let mut numbers = Vec::new(alloc);
    for key in keys {
        let [number] = key.as_slice() else {
            return Ok(None);
        };
        numbers.push(*number)?;
    }
    numbers.sort_unstable();
    Ok(Some(numbers))
}

/// Whether these are the keys of the model, each once.
pub fn are_keys_of(alloc: Global, keys: &[Vec<u8>], model: &Model) -> Result<bool, AllocError> {
    let Some(numbers) = numbers_of(alloc, keys)? else {
        return Ok(false);
    };
    Ok(
        numbers.len() == model.len()
            && numbers
                .iter()
                .zip(model.keys())
                .all(|(key, own)| key == own),
    )
}

/// Stores the known keys. How many of them were refused.
pub fn store_known<R: Wait>(rt: &R, cache: &Cache, worker: &mut Worker) -> u64
    requires { BelongsTo cache.now worker.old }
    ensures { BelongsTo cache.now worker.new }
{
    let mut refused: u64 = 0;
    for number in 0..KNOWN {
        if worker.set(rt, cache, &[number], VALUE).is_err() {
            refused = refused.wrapping_add(1);
        }
    }
    refused
}

/// How many of the known keys have no value.
pub fn missing_known<R: Wait>(rt: &R, cache: &Cache, worker: &mut Worker) -> u64
    requires { BelongsTo cache.now worker.old }
    ensures { BelongsTo cache.now worker.new }
{
    let mut missing: u64 = 0;
    for number in 0..KNOWN {
        if worker.contains(rt, cache, &[number]) == Ok(false) {
            missing = missing.wrapping_add(1);
        }
    }
    missing
}

/// The known keys, as a cache should have them.
fn known(alloc: Global) -> Result<Model, Fail> {
    let mut model = BTreeMap::new(alloc);
    for number in 0..KNOWN {
        let _before = model.insert(number, 0)?;
    }
    Ok(model)
}

/// The count is that of the known keys, and the list has each of them once.
fn assert_known<R: Abort + Wait>(
    rt: &R,
    alloc: Global,
    cache: &Cache,
    worker: &mut Worker,
) -> Result<(), Fail>
    requires { BelongsTo cache.now worker.old }
    ensures { BelongsTo cache.now worker.new }
{
    let model = known(alloc)?;
    let count = worker.len(rt, cache);
    assert!(rt; count == KNOWN as u64, "another number was counted");
    let keys = keys_of_all(rt, alloc, cache, worker)?;
    let right = are_keys_of(alloc, &keys, &model)?;
    assert!(rt; right, "other keys were listed, or one twice");
    Ok(())
}

/// Nothing is counted, listed or found.
fn assert_none<R: Abort + Wait>(
    rt: &R,
    alloc: Global,
    cache: &Cache,
    worker: &mut Worker,
) -> Result<(), Fail>
    requires { BelongsTo cache.now worker.old }
{
    let keys = keys_of_all(rt, alloc, cache, worker)?;
    assert!(rt; keys.is_empty(), "a key is listed behind the clear");
    let missing = missing_known(rt, cache, worker);
    assert!(rt; missing == KNOWN as u64, "a key is there behind the clear");
    Ok(())
}

/// Counts and lists known keys, and clears the cache.
fn clear_known<R: Abort + Wait>(
    rt: &R,
    alloc: Global,
    cache: &Cache,
    worker: &mut Worker,
) -> Result<(), Fail>
    requires { BelongsTo cache.now worker.old }
{
    if store_known(rt, cache, worker) != 0 {
        return Err(Fail::new("a key wasn't stored"));
    }
    assert_known(rt, alloc, cache, worker)?;
    if clear_and_count(rt, cache, worker) != Ok((KNOWN as u64, 0)) {
        return Err(Fail::new("other keys were deleted, or some are left"));
    }
    assert_none(rt, alloc, cache, worker)
}

/// Known keys of two shards are counted and listed, and a clear deletes each.
#[test]
fn known_keys_are_counted_listed_and_cleared(rt: HostRuntime) -> Result<(), Fail> {
    let (cache, mut worker, _tender) = with_one_worker(&rt, rt.alloc(), 2)?;
    clear_known(&rt, rt.alloc(), &cache, &mut worker)
}

/// Stores the known keys within one try for each lock. How many of them were refused.
fn store_known_within(cache: &Cache, worker: &mut Worker) -> u64
    requires { RestsIn cache.now worker.old }
    ensures { RestsIn cache.now worker.new }
{
    let mut refused: u64 = 0;
    for number in 0..KNOWN {
        if worker.set_within(cache, &[number], VALUE, 1).is_err() {
            refused = refused.wrapping_add(1);
        }
    }
    refused
}

/// Counts and clears without a try and with some.
fn clear_within_tries(cache: &Cache, worker: &mut Worker) -> Result<(), Fail>
    requires { RestsIn cache.now worker.old }
{
    if store_known_within(cache, worker) != 0 {
        return Err(Fail::new("a key wasn't stored"));
    }
    if worker.len_within(cache, 0).is_ok() {
        return Err(Fail::new("a count without a lock"));
    }
    match worker.clear_within(cache, 0) {
        Err(ClearWithinError::Held(0)) => {}
        _ => return Err(Fail::new("a clear without a lock")),
    }
    match worker.len_within(cache, 1) {
        Ok(30) => {}
        _ => return Err(Fail::new("a held clear deleted a key")),
    }
    match clear_at_second_try(cache, worker, 8) {
        Ok(30) => {}
        _ => return Err(Fail::new("a clear left a key")),
    }
    match worker.len_within(cache, 8) {
        Ok(0) => Ok(()),
        _ => Err(Fail::new("a key is counted behind the clear")),
    }
}

/// Without a try a count and a clear are held, and nothing is deleted. With tries they are done.
#[test]
fn clears_and_counts_want_a_try(rt: HostRuntime) -> Result<(), Fail> {
    let (cache, mut worker) = with_resting_worker(rt.alloc(), 2)?;
    clear_within_tries(&cache, &mut worker)
}

/// Puts the keys of a shard behind those that are there, within tries for each lock.
fn keys_of_shard_within(
    alloc: Global,
    cache: &Cache,
    worker: &mut Worker,
    shard: usize,
    tries: u64,
    into: &mut Vec<Vec<u8>>,
) -> Result<(), WithinError>
    requires rests { RestsIn cache.now worker.old }
    requires shard { shard < shard_count cache.now }
    ensures { RestsIn cache.now worker.new }
{
    for stripe in 0..cache.stripes(shard) {
        keys_at_second_try(alloc, cache, worker, shard, stripe, tries, into)?;
    }
    Ok(())
}

/// The keys of all shards, within tries for each lock.
fn keys_of_all_within(
    alloc: Global,
    cache: &Cache,
    worker: &mut Worker,
    tries: u64,
) -> Result<Vec<Vec<u8>>, WithinError>
    requires { RestsIn cache.now worker.old }
    ensures { RestsIn cache.now worker.new }
{
    let mut keys = Vec::new(alloc);
    for shard in 0..cache.shards() {
        keys_of_shard_within(alloc, cache, worker, shard, tries, &mut keys)?;
    }
    Ok(keys)
}

/// Without a try a list of keys is held. With one it has each known key once.
#[test]
fn lists_want_a_try(rt: HostRuntime) -> Result<(), Fail> {
    let (cache, mut worker) = with_resting_worker(rt.alloc(), 2)?;
    let refused = store_known_within(&cache, &mut worker);
    assert!(rt; refused == 0, "a key wasn't stored");
    let unlisted = keys_of_all_within(rt.alloc(), &cache, &mut worker, 0);
    assert!(rt;
        matches!(unlisted, Err(WithinError::Held)),
        "a list without a lock"
    );
    let Ok(keys) = keys_of_all_within(rt.alloc(), &cache, &mut worker, 1) else {
        return Err(Fail::new("the keys weren't listed"));
    };
    let model = known(rt.alloc())?;
    let right = are_keys_of(rt.alloc(), &keys, &model)?;
    assert!(rt; right, "other keys were listed, or one twice");
    Ok(())
}
