//! How many bytes a new cache takes of the allocator: of each vector the room that it asks for, and of each box what is in it.
ghost use Rattle.std.specs.Prelude.{◌≡◌, ◌≤◌, ◌*◌, ◌+◌, ◌/◌, ◌^◌, IfErr, IfOk, None, OnOk, Some};
ghost use Rattle.mc_classes.specs.Limits.{most_classes, most_stripes};
ghost use Rattle.mc_classes.specs.Refusals.{first_size, config_refusal};
ghost use Rattle.mc_cache.specs.Bytes.{arena_bytes, cache_bytes, class_bytes, class_count, hint_place_count, lock_bytes, page_list_bytes, pages_in_all, room_for, row_bytes, shard_bytes, words_a_page, words_an_arena};
ghost use Rattle.mc_cache.specs.Cases.{LargeCache, SmallCaches};
ghost use Rattle.mc_cache.specs.Opening.{cache_refusal};

use crate::cache::{Cache, Worker};
use crate::opening::{CacheConfig, NewError, test};
use mc_classes::{Config, MOST_CLASSES};
use mc_pages::{BasePage, Owner, Slabs};
use mc_stripe::Stripe;
use mc_watch::Decider;
use mc_words::{Arena, Hand};

// The distance in words from one lock's word to the next.
const WORDS_APART: u64 = 16;

// The numbers of a configuration, which the table has.
const CONFIG_WORDS: u64 = 8;

// The bytes of a word.
const WORD: u64 = 8;

// The bytes of an arena, beside what it points to.
const ARENA: u64 = 656;

const _: () = prove!(size_of::<Arena>() == 656);

// The bytes of a hand.
const HAND: u64 = 56;

const _: () = prove!(size_of::<Hand>() == 56);

// The bytes of a worker, beside what it points to.
const WORKER: u64 = 48;

const _: () = prove!(size_of::<Worker>() == 48);

// The bytes of a decider, and those of a class in it.
const DECIDER: u64 = 72;

const _: () = prove!(size_of::<Decider>() == 72);

const WATCHED_CLASS: u64 = 48;

// The bytes from the value behind one lock to the next, and of the values in their boxes. Round a stripe are 64 bytes on each side.
const VALUES_APART: u64 = 128;

const SLABS: u64 = 440;

const _: () = prove!(size_of::<Slabs>() == 440);

const STRIPE: u64 = 384;

const _: () = prove!(64 + size_of::<Stripe>() + 64 == 384);

// The bytes of a class's numbers.
const CLASS: u64 = 56;

// The bytes of a page's owner, and of what the entries of the ledger leave of a page.
const OWNER: u64 = 24;

const _: () = prove!(size_of::<Owner>() == 24);

const BASE_PAGE: u64 = 40;

const _: () = prove!(size_of::<BasePage>() == 40);

// The bytes of a row: two links and a mark.
const ROW: u64 = 12;

// The words of the hints of dead chunks.
const DEAD_HINTS: u64 = 508;

// The limits have a place for hints for so many bytes. (own)
const BYTES_A_HINT: u64 = 128;

// The size of class 1.
fn first_size(config: &Config) -> u64
    requires accepted { config_refusal config.now ≡ None }
    ensures size { result ≡ first_size config.now }
    ensures some { 1 ≤ result }
{
    if config.first * config.num < config.max * config.den {
        config.first.div_ceil(8) * 8
    } else {
        config.max
    }
}

// How many classes a configuration gives.
fn class_count(config: &Config) -> u64
    requires accepted { config_refusal config.now ≡ None }
    ensures count { result ≡ class_count config.now }
    ensures within_limit { result ≤ most_classes }
{
    let mut count = 1;
    let mut raw = config.first;
    while count < MOST_CLASSES && raw * config.num < config.max * config.den {
        raw = raw.div_ceil(8) * 8 * config.num / config.den;
        count += 1;
    }
    count
}

// The words of a page: its class, its headers, its data.
fn words_a_page(config: &Config) -> u64
    requires accepted { config_refusal config.now ≡ None }
    ensures words { result ≡ words_a_page config.now }
    ensures within_limit { result ≤ 2305 }
{
    1 + config.page / first_size(config) + config.page / 8
}

// The pages of an arena.
fn pages_in_all(config: &Config) -> u64
    requires accepted { config_refusal config.now ≡ None }
    ensures pages { result ≡ pages_in_all config.now }
    ensures within_limit { result ≤ 127 }
{
    config.limit / config.page + class_count(config)
}

// The words of an arena's table.
fn words_an_arena(config: &Config) -> u64
    requires accepted { config_refusal config.now ≡ None }
    ensures words { result ≡ words_an_arena config.now }
    ensures within_limit { result ≤ 2 ^ 19 }
{
    WORDS_APART * (2 + config.stripes) + pages_in_all(config) * words_a_page(config) + CONFIG_WORDS
}

// How many elements a vector has room for that grew to n elements at once.
fn room_for(count: u64) -> u64
    ensures room { result ≡ room_for count }
    ensures within_limit { result ≤ count + 4 }
{
    count.max(4)
}

// The bytes of what is behind an arena's locks.
fn lock_bytes(stripes: u64) -> u64
    requires { stripes ≤ most_stripes }
    ensures bytes { result ≡ lock_bytes stripes }
{
    VALUES_APART * (1 + stripes) + SLABS + STRIPE * stripes
}

// The bytes of n classes.
fn class_bytes(classes: u64) -> u64
    requires { classes ≤ most_classes }
    ensures bytes { result ≡ class_bytes classes }
    ensures within_limit { result ≤ 2 ^ 14 }
{
    let lists = 2 * (ROW + WORD) * room_for(classes);
    WORD * MOST_CLASSES + (CLASS + WATCHED_CLASS) * classes + lists
}

// The bytes of n pages, beside their words.
fn page_list_bytes(pages: u64) -> u64
    requires { pages ≤ 127 }
    ensures bytes { result ≡ page_list_bytes pages }
    ensures within_limit { result ≤ 2 ^ 14 }
{
    (OWNER + BASE_PAGE) * room_for(pages)
}

// The bytes of the rows of n chunks.
fn row_bytes(chunks: u64) -> u64
    requires { chunks ≤ 2 ^ 15 }
    ensures bytes { result ≡ row_bytes chunks }
    ensures within_limit { result ≤ 2 ^ 20 }
{
    (ROW + WORD) * room_for(chunks)
}

// How many chunks the pages of an arena have, if all are of the first class.
fn chunks_in_all(config: &Config) -> u64
    requires accepted { config_refusal config.now ≡ None }
    ensures chunks { result ≡ pages_in_all config.now * (config.now.page / first_size config.now) }
    ensures within_limit { result ≤ 2 ^ 15 }
{
    pages_in_all(config) * (config.page / first_size(config))
}

// The bytes that an arena takes, beside its own and those of its decider.
fn arena_bytes(config: &Config) -> u64
    requires accepted { config_refusal config.now ≡ None }
    ensures bytes { result ≡ arena_bytes config.now }
    ensures within_limit { result ≤ 2 ^ 23 }
{
    let words = words_an_arena(config) + DEAD_HINTS;
    let locks = lock_bytes(config.stripes);
    let classes = class_bytes(class_count(config));
    let pages = page_list_bytes(pages_in_all(config));
    let rows = row_bytes(chunks_in_all(config));
    WORD * words + locks + classes + pages + rows
}

// The bytes that a shard takes.
fn shard_bytes(config: &CacheConfig) -> u64
    requires accepted { cache_refusal config.now ≡ None }
    ensures bytes { result ≡ shard_bytes config.now }
    ensures within_limit { result ≤ 2 ^ 24 }
{
    arena_bytes(&config.arena) + ARENA + DECIDER + HAND * (config.workers + 1)
}

/// How many places for hints of items a cache has: one for each 128 bytes of the limits.
pub(crate) fn hint_place_count(config: &CacheConfig) -> u64
    requires accepted { cache_refusal config.now ≡ None }
    ensures count { result ≡ hint_place_count config.now }
    ensures within_limit { result ≤ 2 ^ 40 }
{
    config.shards * (config.arena.limit / BYTES_A_HINT)
}

// The bytes that a new cache takes, by a configuration that is accepted.
pub(crate) fn bytes_of(config: &CacheConfig) -> u64
    requires accepted { cache_refusal config.now ≡ None }
    ensures bytes { result ≡ cache_bytes config.now }
    ensures within_limit { result ≤ 2 ^ 44 }
{
    let shards = config.shards * shard_bytes(config);
    let workers = WORKER * (config.workers + 1);
    shards + workers + WORD * hint_place_count(config)
}

impl Cache {
    /// How many bytes a cache with this configuration takes of the allocator, once `new` made it: the tables of all its arenas, whether their
    /// pages are granted or not, the locks, the rows of all chunks, the lists of pages and classes, the hands of all workers and of the
    /// tender, and the hints. It is exact: what `new` asked for, without what it gave back. Beside that come,
    /// as they grow, the indexes, the lists of a class's pages and of a window, and what a worker packs into; and what the allocator adds. The
    /// configuration is refused as by `new`. (own)
    pub fn bytes(config: &CacheConfig) -> Result<u64, NewError>
        ensures bytes { IfOk result (λ bytes. bytes ≡ cache_bytes config.now) }
        ensures accepted { OnOk result (cache_refusal config.now ≡ None) }
        ensures refused { IfErr result (λ error. cache_refusal config.now ≡ Some error) }
    {
        match test(config) {
            Ok(()) => Ok(bytes_of(config)),
            Err(error) => Err(error),
        }
    }
}

/// Worked cases. With two pages of 64 bytes, and one more for each of five classes from 24 bytes on, with one stripe, an arena's table has 133
/// words: 48 of locks, 11 a page, and 8. Three such shards and two workers take 27,336 bytes, of which 3,192 are those of
/// the tables. Four shards of the largest limit, with chunks of 64 bytes at least, and two workers take 6,946,832 bytes.
pub fn worked_bytes()
    ensures small { SmallCaches }
    ensures large { LargeCache }
{}
