//! Caches that are made, and their workers.
ghost use Rattle.std.specs.Prelude.{◌≡◌, All, IfOk, IfSome};
ghost use Rattle.mc_cache.specs.Belonging.{BelongsTo};
ghost use Rattle.mc_cache.specs.Resting.{RestsIn};
ghost use Rattle.mc_cache.specs.Tending.{IsTenderOf};

use example_calls::cache::share;
use mc_cache::{Cache, CacheConfig, HashKey, NewError, Tender, Worker};
use mc_classes::Config;
use std::alloc::Global;
use std::sync::Wait;
use std::test::Fail;

/// Eight pages of 1,024 bytes, and chunks up to a page.
pub const SMALL: Config = Config {
    page: 1024,
    limit: 8192,
    first: 64,
    num: 2,
    den: 1,
    max: 1024,
    stripes: 4,
    bulk: 64,
};

/// Numbers for the hashes.
pub const HASH_KEY: HashKey = HashKey {
    first: 0x0123_4567_89ab_cdef,
    second: 42,
};

/// The worker that is left last.
pub fn next_worker(cache: &Cache, workers: &mut Vec<Worker>) -> Option<Worker>
    requires { All (BelongsTo cache.now) workers.old.items }
    ensures workers { All (BelongsTo cache.now) workers.new.items }
    ensures worker { IfSome result (λ worker. BelongsTo cache.now worker) }
{
    if workers.is_empty() {
        None
    } else {
        Some(workers.remove(0))
    }
}

/// The first two workers.
fn first_two(cache: &Cache, workers: Vec<Worker>) -> Result<(Worker, Worker), Fail>
    requires { All (BelongsTo cache.now) workers.items }
    ensures { IfOk result (λ two. BelongsTo cache.now two.0 × BelongsTo cache.now two.1) }
{
    let mut workers = workers;
    let Some(first) = next_worker(cache, &mut workers) else {
        return Err(Fail::new("there is a first worker"));
    };
    match next_worker(cache, &mut workers) {
        Some(second) => Ok((first, second)),
        None => Err(Fail::new("there is a second worker")),
    }
}

/// A cache of n shards, and its workers.
fn with_workers<R: Wait>(
    rt: &R,
    alloc: Global,
    shards: u64,
    workers: u64,
) -> Result<(Cache, Vec<Worker>), NewError>
    ensures { IfOk result (λ made. All (BelongsTo made.0) made.1.items) }
{
    let (cache, workers, _tender) = Cache::new(rt, alloc, &config_of(shards, workers), HASH_KEY)?;
    Ok((cache, workers))
}

/// A cache of n shards with two workers.
pub fn with_two_workers<R: Wait>(
    rt: &R,
    alloc: Global,
    shards: u64,
) -> Result<(Cache, Worker, Worker), Fail>
    ensures { IfOk result (λ made. BelongsTo made.0 made.1 × BelongsTo made.0 made.2) }
{
    let (cache, workers) = with_workers(rt, alloc, shards, 2)?;
    match first_two(&cache, workers) {
        Ok((first, second)) => Ok((cache, first, second)),
        Err(fail) => Err(fail),
    }
}

/// A cache of n shards with a worker, and the workers of two threads.
pub fn with_threads_workers<R: Wait>(
    rt: &R,
    alloc: Global,
    shards: u64,
) -> Result<(Cache, Worker, (Worker, Worker)), Fail>
    ensures own { IfOk result (λ made. BelongsTo made.0 made.1) }
    ensures threads { IfOk result (λ made. BelongsTo made.0 made.2.0 × BelongsTo made.0 made.2.1) }
{
    let (cache, mut workers) = with_workers(rt, alloc, shards, 3)?;
    let Some(own) = next_worker(&cache, &mut workers) else {
        return Err(Fail::new("there is a worker"));
    };
    match first_two(&cache, workers) {
        Ok(two) => Ok((cache, own, two)),
        Err(fail) => Err(fail),
    }
}

/// Fails for this reason, unless all was right.
pub fn pass_if(is_right: bool, wrong: &'static str) -> Result<(), Fail> {
    if is_right {
        Ok(())
    } else {
        Err(Fail::new(wrong))
    }
}

/// A configuration of this many shards and workers.
pub fn config_of(shards: u64, workers: u64) -> CacheConfig
    ensures { result.workers ≡ workers }
{
    CacheConfig {
        arena: SMALL,
        shards,
        workers,
    }
}

/// A cache of n shards that has one worker.
pub fn with_one_worker<R: Wait>(
    rt: &R,
    alloc: Global,
    shards: u64,
) -> Result<(Cache, Worker, Tender), Fail>
    ensures worker { IfOk result (λ made. BelongsTo made.0 made.1) }
    ensures tender { IfOk result (λ made. IsTenderOf made.0 made.2) }
{
    let (cache, mut workers, tender) = Cache::new(rt, alloc, &config_of(shards, 1), HASH_KEY)?;
    match next_worker(&cache, &mut workers) {
        Some(worker) => Ok((cache, worker, tender)),
        None => Err(Fail::new("there is a worker")),
    }
}

/// A cache of n shards that has one worker, made without waiting.
pub fn with_resting_worker(alloc: Global, shards: u64) -> Result<(Cache, Worker), Fail>
    ensures { IfOk result (λ made. RestsIn made.0 made.1) }
{
    let made = Cache::new_within(alloc, &config_of(shards, 1), HASH_KEY, 1);
    let Ok((cache, mut workers, _tender)) = made else {
        return Err(Fail::new("no cache was made"));
    };
    match workers.pop() {
        Some(worker) => Ok((cache, worker)),
        None => Err(Fail::new("there is no worker")),
    }
}

/// How a cache of this many shards and workers is refused.
fn refusal_of<R: Wait + AllocGlobal>(rt: &R, config: &CacheConfig) -> Option<NewError> {
    Cache::new(rt, rt.alloc(), config, HASH_KEY).err()
}

/// The numbers of shards and workers are tested first, then the arenas' configuration.
#[test]
fn configurations_are_refused(rt: HostRuntime) -> Result<(), Fail> {
    assert!(rt;
        refusal_of(&rt, &config_of(0, 0)) == Some(NewError::Shards),
        "no shards"
    );
    assert!(rt;
        refusal_of(&rt, &config_of(4097, 1)) == Some(NewError::Shards),
        "4,097 shards"
    );
    assert!(rt;
        refusal_of(&rt, &config_of(1, 0)) == Some(NewError::Workers),
        "no workers"
    );
    assert!(rt;
        refusal_of(&rt, &config_of(1, 64)) == Some(NewError::Workers),
        "64 workers"
    );
    let mut config = config_of(1, 1);
    config.arena.page = 63;
    let wanted = Some(NewError::Config(mc_classes::ConfigError::PageSize));
    assert!(rt; refusal_of(&rt, &config) == wanted, "a page of 63 bytes");
    Ok(())
}

/// The README's cache finds what it stored.
#[test]
fn a_shared_cache_finds_its_value(rt: HostRuntime) -> Result<(), Fail> {
    let found = share(&rt, rt.alloc(), &config_of(4, 2), HASH_KEY)?;
    assert!(rt;
        found.as_slice() == b"Bern".as_slice(),
        "another value was found"
    );
    Ok(())
}
