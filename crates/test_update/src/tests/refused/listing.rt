//! A list of all keys that is refused memory.
ghost use Rattle.std.specs.Prelude.{◌<◌};
ghost use Rattle.mc_cache.specs.Belonging.{BelongsTo};
ghost use Rattle.mc_cache.specs.Observers.{shard_count};

use super::super::made::KEY;
use super::Answer;
use mc_cache::{Cache, Worker};
use mc_memory::Refused;
use std::alloc::Global;
use std::sync::Wait;

/// Puts the keys of a shard behind those that are there.
fn list_shard<R: Wait>(
    rt: &R,
    alloc: Global,
    cache: &Cache,
    worker: &mut Worker,
    shard: usize,
    into: &mut Vec<Vec<u8>>,
) -> Result<(), Refused>
    requires belongs { BelongsTo cache.now worker.old }
    requires shard { shard < shard_count cache.now }
    ensures { BelongsTo cache.now worker.new }
{
    for stripe in 0..cache.stripes(shard) {
        worker.keys(rt, alloc, cache, shard, stripe, into)?;
    }
    Ok(())
}

/// Puts all keys behind those that are there.
pub fn list_all<R: Wait>(
    rt: &R,
    alloc: Global,
    cache: &Cache,
    worker: &mut Worker,
    into: &mut Vec<Vec<u8>>,
) -> Result<(), Refused>
    requires { BelongsTo cache.now worker.old }
    ensures { BelongsTo cache.now worker.new }
{
    for shard in 0..cache.shards() {
        list_shard(rt, alloc, cache, worker, shard, into)?;
    }
    Ok(())
}

/// Whether each of these keys is the one that all tests change.
fn are_the_key(keys: &[Vec<u8>]) -> bool {
    keys.iter().all(|key| key.as_slice() == KEY)
}

/// What a list of all keys returns, where the cache has one key. At a refusal the key may have been put before.
pub fn answer_of_keys<R: Wait>(rt: &R, alloc: Global, cache: &Cache, worker: &mut Worker) -> Answer
    requires { BelongsTo cache.now worker.old }
    ensures { BelongsTo cache.now worker.new }
{
    let mut keys = Vec::new(alloc);
    let listed = list_all(rt, alloc, cache, worker, &mut keys);
    let is_right = are_the_key(&keys);
    match listed {
        Ok(()) if is_right && keys.len() == 1 => Answer::Done,
        Err(_refused) if is_right && keys.len() <= 1 => Answer::NoMemory,
        _other => Answer::Other,
    }
}
