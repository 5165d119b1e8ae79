//! The configuration of a cache that takes at most so many bytes.
ghost use Rattle.std.specs.Prelude.{◌≡◌, ◌⊎◌, ◌<◌, ◌≤◌, IfErr, IfOk, None, OnOk, Some, false, true};
ghost use Rattle.mc_classes.specs.Limits.{most_pages, most_workers};
ghost use Rattle.mc_cache.specs.Cases.{UsualSizes};
ghost use Rattle.mc_cache.specs.Opening.{cache_refusal};
ghost use Rattle.mc_cache.specs.Sizing.{FillsBytes, IsSized, doubled_factor, filled_bytes, sized_arena, sized_cache, sized_first, sizing_refusal, with_shards};

use crate::bytes::bytes_of;
use crate::opening::{CacheConfig, test};
use mc_classes::{Config, MOST_PAGE_BYTES, MOST_WORKERS};
use thiserror::Error;

// The bytes of an item beside those of its key and its value: the header, and two lengths.
const ITEM_BYTES: u64 = 40;

// How many chunks of the first class have a stripe among them. The index of a stripe keeps its size up to 540 items. So 436 leave room for
// hashes that lie unevenly. (own)
const STRIPE_CHUNKS: u64 = 436;

// The bytes of an index with room for 576 items.
const INDEX: u64 = 64 * 64 + 40 * 576;

// The bytes that an index takes beside these while a worker makes it anew, as items that went used its room up.
const RENEWAL: u64 = 64 * 128 + 40 * 576;

// The chunks that the mover looks at in a turn. (own)
const BULK: u64 = 64;

/// Why no configuration is made. The tests are made in this order.
#[derive(Debug, PartialEq, Eq, Drop, Error)]
pub enum SizingError {
    /// The workers are none, or more than 63.
    #[error("the number of workers must be from 1 to 63")]
    Workers,
    /// A cache of one shard with one page takes more than the bytes, with its indexes.
    #[error("the bytes must have room for a shard with one page")]
    TooFewBytes,
}

impl CacheConfig {
    /// The configuration of a cache that takes at most so many bytes of the allocator: those of `Cache::bytes`, those of the indexes of items,
    /// and those with which each worker makes an index anew. An index with more than 540 items may take more, which is seldom. The first class has room for
    /// items with `usual_item` bytes of key and value, and of all the chunks that a page has as many of, its chunks are the largest. Classes grow by
    /// a factor of 4, or of 1.5 where a page has four such chunks or fewer. An item may have up to 16,344 bytes of words for key and value. Pages have 16,384
    /// bytes, and a shard up to 64 of them. Of the numbers of pages a shard, it takes the one with which most pages fit in all. (own)
    pub fn for_bytes(bytes: u64, usual_item: u64, workers: u64) -> Result<CacheConfig, SizingError>
        ensures fits { IfOk result (λ config. filled_bytes config ≤ bytes) }
        ensures full { IfOk result (λ config. FillsBytes bytes config) }
        ensures accepted { IfOk result (λ config. cache_refusal config ≡ None) }
        ensures workers { IfOk result (λ config. config.workers ≡ workers) }
        ensures arena { IfOk result (λ config. config.arena
            ≡ sized_arena usual_item config.arena.limit) }
        ensures enough { OnOk result (sizing_refusal bytes usual_item workers ≡ None) }
        ensures refused { IfErr result (λ error. sizing_refusal bytes usual_item workers
            ≡ Some error) }
    {
        if workers < 1 || workers > MOST_WORKERS {
            return Err(SizingError::Workers);
        }
        let least = least_size(usual_item, workers);
        if filled_bytes(&least) > bytes {
            return Err(SizingError::TooFewBytes);
        }
        let most = with_most_shards(least, bytes);
        Ok(roomiest(bytes, usual_item, workers, most))
    }
}

// The size of the first class for usual items of n bytes of key and value.
fn sized_first(usual_item: u64) -> u64
    ensures size { result ≡ sized_first usual_item }
{
    let chunk = ITEM_BYTES + (usual_item.min(MOST_PAGE_BYTES) + 14) / 8 * 8;
    let chunks = (MOST_PAGE_BYTES / chunk).max(1);
    (MOST_PAGE_BYTES / chunks / 8 * 8).max(64)
}

// Twice the factor from class to class.
fn doubled_factor(first: u64) -> u64
    ensures factor { result ≡ doubled_factor first }
{
    if first < 4096 { 8 } else { 3 }
}

// A cache of one shard with n pages.
fn sized(usual_item: u64, workers: u64, pages: u64) -> CacheConfig
    requires { pages ≤ most_pages }
    ensures config { result ≡ sized_cache usual_item workers pages }
    ensures one { result.shards ≡ 1 }
{
    let first = sized_first(usual_item);
    let chunks = pages * (MOST_PAGE_BYTES / first);
    let arena = Config {
        page: MOST_PAGE_BYTES,
        limit: MOST_PAGE_BYTES * pages,
        first,
        num: doubled_factor(first),
        den: 2,
        max: MOST_PAGE_BYTES,
        stripes: chunks.div_ceil(STRIPE_CHUNKS),
        bulk: BULK,
    };
    CacheConfig {
        arena,
        shards: 1,
        workers,
    }
}

// The smallest cache of a size, which has one page.
fn least_size(usual_item: u64, workers: u64) -> CacheConfig
    requires some { 1 ≤ workers }
    requires workers { workers ≤ most_workers }
    ensures config { result ≡ sized_cache usual_item workers 1 }
    ensures one { result.shards ≡ 1 }
    ensures accepted { cache_refusal result ≡ None }
{
    sized(usual_item, workers, 1)
}

// The bytes of a cache with its indexes.
fn filled_bytes(config: &CacheConfig) -> u64
    requires accepted { cache_refusal config.now ≡ None }
    ensures bytes { result ≡ filled_bytes config.now }
{
    let made = bytes_of(config);
    let indexes = config.shards * config.arena.stripes * INDEX;
    made + indexes + config.workers * RENEWAL
}

// Whether the configuration is accepted, and the cache takes at most these bytes with its indexes.
fn fits(config: &CacheConfig, bytes: u64) -> bool
    ensures fits { result ≡ true → (cache_refusal config.now ≡ None)
        × (filled_bytes config.now ≤ bytes) }
    ensures within_limit { result ≡ true → config.now.shards ≤ 4096 }
    ensures over { result ≡ false → cache_refusal config.now ≡ None →
        bytes < filled_bytes config.now }
{
    match test(config) {
        Ok(()) => filled_bytes(config) <= bytes,
        Err(_) => false,
    }
}

// The same cache with n shards.
fn with_shards(shards: u64, config: CacheConfig) -> CacheConfig
    ensures shards { result ≡ with_shards shards config }
{
    CacheConfig { shards, ..config }
}

// The cache with as many shards as fit, where these do.
fn with_most_shards(config: CacheConfig, bytes: u64) -> CacheConfig
    requires accepted { cache_refusal config ≡ None }
    requires fits { filled_bytes config ≤ bytes }
    requires within_limit { config.shards ≤ 4096 }
    ensures accepted { cache_refusal result ≡ None }
    ensures fits { filled_bytes result ≤ bytes }
    ensures full { FillsBytes bytes result }
    ensures workers { result.workers ≡ config.workers }
    ensures arena { result.arena ≡ config.arena }
{
    let mut shards = config.shards;
    while fits(&with_shards(shards + 1, config), bytes) {
        shards += 1;
    }
    with_shards(shards, config)
}

// How many pages the limits of all shards have room for.
fn page_count(config: &CacheConfig) -> u64 {
    config
        .shards
        .saturating_mul(config.arena.limit / MOST_PAGE_BYTES)
}

// The one of two configurations that has more pages, and the second where both have as many.
fn roomier(first: CacheConfig, second: CacheConfig) -> CacheConfig
    ensures one { (result ≡ first) ⊎ (result ≡ second) }
{
    if page_count(&first) > page_count(&second) {
        first
    } else {
        second
    }
}

// The roomier one of this configuration and that with n pages a shard, if that fits.
fn roomier_with(
    bytes: u64,
    usual_item: u64,
    workers: u64,
    pages: u64,
    best: CacheConfig,
) -> CacheConfig
    requires pages { pages ≤ most_pages }
    requires sized { IsSized bytes usual_item workers best }
    ensures sized { IsSized bytes usual_item workers result }
{
    let config = sized(usual_item, workers, pages);
    if !fits(&config, bytes) {
        return best;
    }
    roomier(best, with_most_shards(config, bytes))
}

// The roomiest of this configuration and those with 2 to 64 pages a shard.
fn roomiest(bytes: u64, usual_item: u64, workers: u64, least: CacheConfig) -> CacheConfig
    requires sized { IsSized bytes usual_item workers least }
    ensures sized { IsSized bytes usual_item workers result }
{
    let mut best = least;
    for pages in 2..65 {
        best = roomier_with(bytes, usual_item, workers, pages, best);
    }
    best
}

/// Worked cases. Items of 72 bytes of key and value have chunks of 120 bytes in the first class, 136 a page. Those of 1,032 bytes have chunks of
/// 1,080, of which a page has 15, and 1,088 bytes have as much room. For the first items, a page wants 1 stripe, and 64 pages want 20. The
/// smallest cache for one worker and these items takes 168,320 bytes with its index, as large as it ever gets.
pub fn worked_sizes()
    ensures { UsualSizes }
{}
