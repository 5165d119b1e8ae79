//! Caches of several configurations, each made and dropped. Of each a line has its name and what `Cache::bytes` returns, which `ci/bytes`
//! compares with what the allocator is asked for before the next line. Those of `for_bytes` are made once more and filled.
#![tactic(auto)]

ghost use Rattle.std.specs.Prelude.{All, IfSome};
ghost use Rattle.mc_cache.specs.Belonging.{BelongsTo};

use mc_cache::{Cache, CacheConfig, HashKey, Worker};
use mc_classes::Config;
use std::io;
use std::sync::Wait;

/// Two pages of 64 bytes, and five classes.
const SMALL: Config = Config {
    page: 64,
    limit: 128,
    first: 24,
    num: 5,
    den: 4,
    max: 64,
    stripes: 1,
    bulk: 1,
};

/// One page, one class and one stripe: the lists are shorter than what a vector has room for at least.
const LEAST: Config = Config {
    page: 16_384,
    limit: 16_384,
    first: 16_384,
    num: 2,
    den: 1,
    max: 16_384,
    stripes: 1,
    bulk: 1,
};

/// The largest limit, with chunks of 64 bytes at least.
const LARGE: Config = Config {
    page: 16_384,
    limit: 1_048_576,
    first: 64,
    num: 2,
    den: 1,
    max: 4096,
    stripes: 16,
    bulk: 64,
};

/// The largest limit, with the most classes and stripes.
const MANY: Config = Config {
    page: 16_384,
    limit: 1_048_576,
    first: 64,
    num: 41,
    den: 40,
    max: 16_384,
    stripes: 64,
    bulk: 256,
};

/// Configurations of arenas by their names, and how many shards and workers the caches have.
const CACHES: [(&str, Config, u64, u64); 12] = [
    ("least", LEAST, 1, 1),
    ("small", SMALL, 1, 1),
    ("small", SMALL, 3, 2),
    ("small", SMALL, 4, 3),
    ("small", SMALL, 5, 4),
    ("small", SMALL, 17, 9),
    ("small", SMALL, 100, 63),
    ("large", LARGE, 1, 1),
    ("large", LARGE, 2, 8),
    ("large", LARGE, 7, 33),
    ("many", MANY, 1, 2),
    ("many", MANY, 3, 5),
];

/// What caches are to take at most, and the bytes of key and value of their usual items.
const SIZES: [(u64, u64); 3] = [(1_048_576, 72), (16_777_216, 264), (16_777_216, 1032)];

const HASH_KEY: HashKey = HashKey {
    first: 17,
    second: 42,
};

/// Prints the name and what `Cache::bytes` returns, then that the cache is made, and that it is dropped.
fn make<R: AllocGlobal + Print + Wait>(rt: &R, name: &str, config: &CacheConfig) -> io::Result<()> {
    let Ok(bytes) = Cache::bytes(config) else {
        return Err(io::ErrorKind::InvalidInput.into());
    };
    let (shards, workers) = (config.shards, config.workers);
    println!(rt; "{name}, {shards} shards, {workers} workers: {bytes} bytes")?;
    let Ok(made) = Cache::new(rt, rt.alloc(), config, HASH_KEY) else {
        return Err(io::ErrorKind::OutOfMemory.into());
    };
    println!(rt; "made")?;
    drop(made);
    println!(rt; "dropped")
}

/// Stores n items, whose keys are numbers.
fn store<R: Wait>(rt: &R, cache: &Cache, worker: &mut Worker, value: &[u8], count: u64)
    requires { BelongsTo cache.now worker.old }
{
    for number in 0..count {
        let _stored = worker.set(rt, cache, &number.to_le_bytes(), value);
    }
}

/// The first worker of a list, if there is one. The others are dropped.
fn first_worker(cache: &Cache, workers: Vec<Worker>) -> Option<Worker>
    requires { All (BelongsTo cache.now) workers.items }
    ensures { IfSome result (λ worker. BelongsTo cache.now worker) }
{
    let mut workers = workers;
    if workers.is_empty() {
        None
    } else {
        Some(workers.remove(0))
    }
}

/// Makes the cache, stores twice as many usual items as the bytes have room for, and prints these bytes. Then prints that it is dropped.
fn fill<R: AllocGlobal + Print + Wait>(
    rt: &R,
    bytes: u64,
    usual_item: u64,
    config: &CacheConfig,
) -> io::Result<()> {
    let Ok((cache, workers, tender)) = Cache::new(rt, rt.alloc(), config, HASH_KEY) else {
        return Err(io::ErrorKind::OutOfMemory.into());
    };
    let value = [7; 2048];
    let length = (usual_item as usize).saturating_sub(8).min(2048);
    let count = (bytes / usual_item.max(1)).saturating_mul(2);
    if let Some(mut worker) = first_worker(&cache, workers) {
        store(rt, &cache, &mut worker, &value[..length], count);
    }
    println!(rt; "filled, for {bytes} bytes")?;
    drop(tender);
    drop(cache);
    println!(rt; "dropped")
}

fn main(rt: HostRuntime) -> io::Result<()> {
    for (name, arena, shards, workers) in CACHES {
        let config = CacheConfig {
            arena,
            shards,
            workers,
        };
        make(&rt, name, &config)?;
    }
    for (bytes, usual_item) in SIZES {
        let Ok(config) = CacheConfig::for_bytes(bytes, usual_item, 2) else {
            return Err(io::ErrorKind::InvalidInput.into());
        };
        make(&rt, "sized", &config)?;
        fill(&rt, bytes, usual_item, &config)?;
    }
    Ok(())
}
