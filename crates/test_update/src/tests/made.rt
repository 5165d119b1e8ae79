//! Small caches and their workers.
ghost use Rattle.std.specs.Prelude.{IfOk, All, IfSome};
ghost use Rattle.mc_cache.specs.Belonging.{BelongsTo};

use mc_cache::{Cache, CacheConfig, HashKey, NewError, Worker};
use mc_classes::Config;
use std::alloc::Global;
use std::sync::Wait;
use std::test::Fail;

/// Eight pages of 1,024 bytes, and chunks up to a page.
pub const SMALL: Config = Config {
    page: 1024,
    limit: 8192,
    first: 64,
    num: 2,
    den: 1,
    max: 1024,
    stripes: 4,
    bulk: 64,
};

/// 64 pages of 16,384 bytes, and chunks up to a page.
pub const WIDE: Config = Config {
    page: 16_384,
    limit: 1_048_576,
    first: 64,
    num: 2,
    den: 1,
    max: 16_384,
    stripes: 16,
    bulk: 64,
};

/// Numbers for the hashes.
const HASH_KEY: HashKey = HashKey {
    first: 0x0123_4567_89ab_cdef,
    second: 42,
};

/// The key that all tests change.
pub const KEY: &[u8] = b"count";

/// The worker that is left last.
pub fn next_worker(cache: &Cache, workers: &mut Vec<Worker>) -> Result<Worker, Fail>
    requires { All (BelongsTo cache.now) workers.old.items }
    ensures workers { All (BelongsTo cache.now) workers.new.items }
    ensures worker { IfOk result (λ worker. BelongsTo cache.now worker) }
{
    if workers.is_empty() {
        Err(Fail::new("there is no worker left"))
    } else {
        Ok(workers.remove(0))
    }
}

/// A cache of n shards of such an arena each, or why there is none.
pub fn opened<R: Wait>(
    rt: &R,
    alloc: Global,
    arena: Config,
    shards: u64,
    workers: u64,
) -> Result<(Cache, Vec<Worker>), NewError>
    ensures { IfOk result (λ made. All (BelongsTo made.0) made.1.items) }
{
    let config = CacheConfig {
        arena,
        shards,
        workers,
    };
    let (cache, workers, _tender) = Cache::new(rt, alloc, &config, HASH_KEY)?;
    Ok((cache, workers))
}

/// The same, for a test that fails where there is none.
pub fn with_shards<R: Wait>(
    rt: &R,
    alloc: Global,
    arena: Config,
    shards: u64,
    workers: u64,
) -> Result<(Cache, Vec<Worker>), Fail>
    ensures { IfOk result (λ made. All (BelongsTo made.0) made.1.items) }
{
    let made = opened(rt, alloc, arena, shards, workers)?;
    Ok(made)
}

/// A small cache of two shards with n workers.
pub fn with_workers<R: Wait>(
    rt: &R,
    alloc: Global,
    workers: u64,
) -> Result<(Cache, Vec<Worker>), Fail>
    ensures { IfOk result (λ made. All (BelongsTo made.0) made.1.items) }
{
    with_shards(rt, alloc, SMALL, 2, workers)
}

/// A small cache with one worker.
pub fn with_one_worker<R: Wait>(rt: &R, alloc: Global) -> Result<(Cache, Worker), Fail>
    ensures { IfOk result (λ made. BelongsTo made.0 made.1) }
{
    let (cache, mut workers) = with_workers(rt, alloc, 1)?;
    let worker = next_worker(&cache, &mut workers)?;
    Ok((cache, worker))
}

/// The first two workers.
fn first_two(cache: &Cache, workers: Vec<Worker>) -> Result<(Worker, Worker), Fail>
    requires { All (BelongsTo cache.now) workers.items }
    ensures { IfOk result (λ two. BelongsTo cache.now two.0 × BelongsTo cache.now two.1) }
{
    let mut workers = workers;
    let first = next_worker(cache, &mut workers)?;
    let second = next_worker(cache, &mut workers)?;
    Ok((first, second))
}

/// A cache of n shards of such an arena each, with two workers.
pub fn with_two_workers<R: Wait>(
    rt: &R,
    alloc: Global,
    arena: Config,
    shards: u64,
) -> Result<(Cache, Worker, Worker), Fail>
    ensures { IfOk result (λ made. BelongsTo made.0 made.1 × BelongsTo made.0 made.2) }
{
    let (cache, workers) = with_shards(rt, alloc, arena, shards, 2)?;
    match first_two(&cache, workers) {
        Ok((first, second)) => Ok((cache, first, second)),
        Err(fail) => Err(fail),
    }
}

/// A small cache with a worker, and the workers of two threads.
pub fn with_threads_workers<R: Wait>(
    rt: &R,
    alloc: Global,
) -> Result<(Cache, Worker, (Worker, Worker)), Fail>
    ensures own { IfOk result (λ made. BelongsTo made.0 made.1) }
    ensures threads { IfOk result (λ made. BelongsTo made.0 made.2.0 × BelongsTo made.0 made.2.1) }
{
    let (cache, mut workers) = with_workers(rt, alloc, 3)?;
    let own = next_worker(&cache, &mut workers)?;
    match first_two(&cache, workers) {
        Ok(two) => Ok((cache, own, two)),
        Err(fail) => Err(fail),
    }
}

/// A cache of four shards of 1 MiB each, with one worker.
pub fn with_wide_worker<R: Wait>(rt: &R, alloc: Global) -> Result<(Cache, Worker), Fail>
    ensures { IfOk result (λ made. BelongsTo made.0 made.1) }
{
    let (cache, mut workers) = with_shards(rt, alloc, WIDE, 4, 1)?;
    let worker = next_worker(&cache, &mut workers)?;
    Ok((cache, worker))
}

/// Fails for this reason, unless all was right.
pub fn pass_if(is_right: bool, wrong: &'static str) -> Result<(), Fail> {
    if is_right {
        Ok(())
    } else {
        Err(Fail::new(wrong))
    }
}
