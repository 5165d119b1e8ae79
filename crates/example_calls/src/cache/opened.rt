//! Caches that were just made: one that takes at most so many bytes, and what its worker finds before it stored anything.
ghost use Rattle.std.specs.Prelude.{◌≡◌, ◌≤◌, All, IfOk, [], length};
ghost use Rattle.mc_cache.specs.Belonging.{BelongsTo};
ghost use Rattle.mc_cache.specs.Bytes.{cache_bytes};
ghost use Rattle.mc_cache.specs.Observers.{arenas_of, shard_count};
ghost use Rattle.mc_cache.specs.Opening.{IsNewShard};
ghost use Rattle.mc_cache.specs.Tending.{IsTenderOf};

use mc_cache::{Cache, CacheConfig, HashKey, NewError, SizingError, Tender, Worker};
use std::alloc::Global;
use std::sync::Wait;

/// A cache with its workers and its tender, and what it was made with.
#[derive(Drop)]
pub struct Opened {
    pub config: CacheConfig,
    pub cache: Cache,
    pub workers: Vec<Worker>,
    pub tender: Tender,
    /// The bytes that the cache took.
    pub bytes: u64,
}

/// Why no cache was opened.
#[derive(Debug, PartialEq, Eq, Drop)]
pub enum OpenError {
    /// No configuration is for that size.
    Size(SizingError),
    /// No cache was made.
    New(NewError),
}

/// Opens a cache that takes at most so many bytes, for items with this many bytes of key and value, and for so many workers.
pub fn open_within<R: Wait>(
    rt: &R,
    alloc: Global,
    bytes: u64,
    usual_item: u64,
    workers: u64,
    hashing: HashKey,
) -> Result<Opened, OpenError>
    ensures fits { IfOk result (λ opened. opened.bytes ≤ bytes) }
    ensures taken { IfOk result (λ opened. opened.bytes ≡ cache_bytes opened.config) }
    ensures made { IfOk result (λ opened. All (IsNewShard opened.config)
        (arenas_of opened.cache)) }
    ensures shards { IfOk result (λ opened. shard_count opened.cache ≡ opened.config.shards) }
    ensures workers { IfOk result (λ opened. length opened.workers.items ≡ workers) }
    ensures belongs { IfOk result (λ opened. All (BelongsTo opened.cache) opened.workers.items) }
    ensures tender { IfOk result (λ opened. IsTenderOf opened.cache opened.tender) }
{
    let config = match CacheConfig::for_bytes(bytes, usual_item, workers) {
        Ok(config) => config,
        Err(error) => return Err(OpenError::Size(error)),
    };
    let taken = match Cache::bytes(&config) {
        Ok(taken) => taken,
        Err(_) => unreachable!(), // the configuration is accepted
    };
    match Cache::new(rt, alloc, &config, hashing) {
        Ok((cache, workers, tender)) => Ok(Opened {
            config,
            cache,
            workers,
            tender,
            bytes: taken,
        }),
        Err(error) => Err(OpenError::New(error)),
    }
}
