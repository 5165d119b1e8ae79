//! A tender, which gives pages to the class that wants them.
ghost use Rattle.mc_cache.specs.Belonging.{BelongsTo};
ghost use Rattle.mc_cache.specs.Tending.{IsTenderOf};

use super::made::{config_of, with_one_worker};
use mc_cache::{Cache, CacheStats, Tended, Tender, Worker};
use mc_memory::Refused;
use std::alloc::Global;
use std::process::Abort;
use std::sync::Wait;
use std::test::Fail;

/// A value that goes to a small class.
pub const SHORT: [u8; 40] = [7; 40];

/// A value that goes to a greater class.
const LONG: [u8; 400] = [9; 400];

/// Stores the value under n keys.
pub fn set_many<R: Wait>(rt: &R, cache: &Cache, worker: &mut Worker, keys: u64, value: &[u8])
    requires { BelongsTo cache.now worker.old }
    ensures { BelongsTo cache.now worker.new }
{
    for number in 0..keys {
        let _stored = worker.set(rt, cache, &number.to_le_bytes(), value);
    }
}

/// A window in which long values are wanted, and then the tender's.
fn want_and_tend<R: Wait>(
    rt: &R,
    cache: &Cache,
    worker: &mut Worker,
    tender: &mut Tender,
) -> Result<Tended, Refused>
    requires worker { BelongsTo cache.now worker.old }
    requires tender { IsTenderOf cache.now tender.old }
    ensures worker { BelongsTo cache.now worker.new }
    ensures tender { IsTenderOf cache.now tender.new }
{
    set_many(rt, cache, worker, 64, &LONG);
    tender.tend(rt, cache)
}

/// The third window, or the fourth, has a move.
fn assert_moved(rt: &impl Abort, windows: [Tended; 4]) {
    let [first, second, third, fourth] = windows;
    assert!(rt;
        first.began == 0 && second.began == 0,
        "two windows decide nothing"
    );
    assert!(rt; third.began >= 1 || fourth.began >= 1, "a move begins");
    assert!(rt; third.ended >= 1 || fourth.ended >= 1, "and ends");
}

/// The last long value is there.
fn assert_last<R: Abort + Wait>(rt: &R, alloc: Global, cache: &Cache, worker: &mut Worker)
    requires { BelongsTo cache.now worker.old }
{
    let mut bytes = Vec::new(alloc);
    let found = worker.get(rt, cache, &63u64.to_le_bytes(), &mut bytes);
    assert!(rt; found == Ok(true), "the last long value is there");
    assert!(rt; bytes.as_slice() == &LONG[..], "and it is right");
}

/// Short values fill all pages but one, and then long ones are wanted: the third window, or the fourth, has a move.
fn assert_pages_move<R: Abort + Wait>(
    rt: &R,
    alloc: Global,
    cache: &Cache,
    worker: &mut Worker,
    tender: &mut Tender,
) -> Result<(), Fail>
    requires worker { BelongsTo cache.now worker.old }
    requires tender { IsTenderOf cache.now tender.old }
{
    set_many(rt, cache, worker, 1, &LONG);
    set_many(rt, cache, worker, 300, &SHORT);
    let first = want_and_tend(rt, cache, worker, tender)?;
    let second = want_and_tend(rt, cache, worker, tender)?;
    let third = want_and_tend(rt, cache, worker, tender)?;
    let fourth = want_and_tend(rt, cache, worker, tender)?;
    assert_moved(rt, [first, second, third, fourth]);
    assert_last(rt, alloc, cache, worker);
    Ok(())
}

/// Short values fill all pages but one, and then long ones are wanted: the third window has a move, and short items go.
#[test]
fn pages_go_where_they_are_wanted(rt: HostRuntime) -> Result<(), Fail> {
    let (cache, mut worker, mut tender) = with_one_worker(&rt, rt.alloc(), 1)?;
    assert_pages_move(&rt, rt.alloc(), &cache, &mut worker, &mut tender)
}

/// In mode 2 long values are wanted: the next window finds the move that a set asked for, and the one behind it finds none.
fn assert_found<R: Abort + Wait>(
    rt: &R,
    cache: &Cache,
    worker: &mut Worker,
    tender: &mut Tender,
) -> Result<(), Fail>
    requires worker { BelongsTo cache.now worker.old }
    requires tender { IsTenderOf cache.now tender.old }
{
    tender.set_automove(rt, cache, 2);
    set_many(rt, cache, worker, 1, &LONG);
    set_many(rt, cache, worker, 300, &SHORT);
    let first = tender.tend(rt, cache)?;
    let second = want_and_tend(rt, cache, worker, tender)?;
    let third = tender.tend(rt, cache)?;
    let found = (first.found, second.found, third.found);
    assert!(rt; found == (0, 1, 0), "one window finds a move");
    assert!(rt; second.began == 0 && second.ended == 1, "and ends it");
    Ok(())
}

/// A set asks for a page, and the tender moves it.
#[test]
fn a_move_of_a_set_is_found(rt: HostRuntime) -> Result<(), Fail> {
    let (cache, mut worker, mut tender) = with_one_worker(&rt, rt.alloc(), 1)?;
    assert_found(&rt, &cache, &mut worker, &mut tender)
}

/// A cache takes as many bytes as the configuration gives.
#[test]
fn bytes_are_told(rt: HostRuntime) -> Result<(), Fail> {
    let bytes = Cache::bytes(&config_of(3, 2)).ok();
    // of each shard: in the table 96 words of locks, 8 pages and a first one for each of 4 classes, of 1 + 16 + 128 words, and 8
    let table = 8 * (96 + 12 * 145 + 8);
    // what is behind five locks; room for 63 sizes, the classes and their lists; 12 pages of 16 chunks; hints of the dead
    let lists = (128 * 5 + 440 + 384 * 4)
        + (504 + 104 * 4 + 40 * 4)
        + 12 * (64 + 16 * 20)
        + 508 * 8;
    let shard = table + lists + 656 + 72 + 56 * 3;
    // two workers and the tender; and a place for a hint for each 128 bytes of the limits
    let wanted = 3 * shard + 3 * 48 + 192 * 8;
    assert!(rt; bytes == Some(wanted), "three arenas");
    assert!(rt;
        Cache::bytes(&config_of(3, 64)).is_err(),
        "too many workers"
    );
    Ok(())
}

/// The class of thirty short values has pages of eight chunks each, and no other class has any.
fn assert_thirty(rt: &impl Abort, stats: &CacheStats) -> Result<(), Fail> {
    let Some(class) = stats.classes.get(1) else {
        return Err(Fail::new("there is a class of 128 bytes"));
    };
    let chunks = class.pages.checked_mul(8);
    assert!(rt; class.pages >= 4, "a shard's page has eight chunks");
    assert!(rt; chunks == class.free.checked_add(30), "each value has one");
    assert!(rt; stats.granted == class.pages, "no other class has pages");
    assert!(rt; class.evictions == 0, "nothing was evicted");
    Ok(())
}

/// Thirty short values are stored.
fn assert_thirty_counted<R: Abort + Wait>(
    rt: &R,
    cache: &Cache,
    worker: &mut Worker,
    tender: &mut Tender,
) -> Result<(), Fail>
    requires worker { BelongsTo cache.now worker.old }
    requires tender { IsTenderOf cache.now tender.old }
{
    set_many(rt, cache, worker, 30, &SHORT);
    let stats = tender.stats(rt, cache)?;
    assert_thirty(rt, &stats)
}

/// Thirty short values on three shards: what all have together are their pages, of eight chunks each, and the chunks that are left.
#[test]
fn stats_are_sums_over_shards(rt: HostRuntime) -> Result<(), Fail> {
    let (cache, mut worker, mut tender) = with_one_worker(&rt, rt.alloc(), 3)?;
    assert_thirty_counted(&rt, &cache, &mut worker, &mut tender)
}
