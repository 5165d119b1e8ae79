//! A cache in a program of its own: a page that is made once, visits that are counted, a session that expires, and how many gets hit.
#![tactic(auto)]

ghost use Rattle.mc_cache.specs.Belonging.{BelongsTo};

use mc_cache::{Cache, CacheConfig, HashKey, Worker};
use mc_expiry::Expiry;
use mc_stats::{CountingWorker, Counts};
use mc_update::{Source, Updater};
use std::alloc::AllocError;
use std::sync::Wait;
use std::{io, str};

/// How many bytes the cache takes at most, and how many the key and the value of most items have.
const BYTES: u64 = 1_048_576;

const USUAL_ITEM: u64 = 100;

/// Shows a page, counts the visit, and returns whether the page was made, and the number of the visit, if there is room for it.
fn visit<R: Wait>(
    rt: &R,
    cache: &Cache,
    worker: &mut Worker,
    updater: &mut Updater,
) -> (bool, Option<u64>)
    requires { BelongsTo cache.now worker.old }
    ensures { BelongsTo cache.now worker.new }
{
    let page = |room: &mut Vec<u8>| -> Result<(), AllocError> {
        room.extend_from_slice(b"Welcome!")
    };
    let shown = updater.get_or_add(rt, cache, worker, b"page", page);
    let is_made = !matches!(shown, Ok(Source::Found));
    let _begun = worker.add(rt, cache, b"visits", b"0");
    let count = updater.increment(rt, cache, worker, b"visits", 1);
    (is_made, count.unwrap_or(None))
}

fn main(rt: HostRuntime) -> io::Result<()> {
    let alloc = rt.alloc();
    let config = match CacheConfig::for_bytes(BYTES, USUAL_ITEM, 1) {
        Ok(config) => config,
        Err(error) => return println!(rt; "no cache fits: {error}"),
    };
    let (first, second) = (17, 42); // a program for use draws both
    let made = Cache::new(&rt, alloc, &config, HashKey { first, second });
    let (cache, mut workers, _tender) = match made {
        Ok(made) => made,
        Err(error) => return println!(rt; "no cache was made: {error}"),
    };
    let mut worker = workers.remove(0);
    let mut updater = Updater::new(alloc);
    let (is_made, _count) = visit(&rt, &cache, &mut worker, &mut updater);
    let (is_made_again, count) = visit(&rt, &cache, &mut worker, &mut updater);
    let count = count.unwrap_or(0);
    println!(rt; "made: {is_made}, and again: {is_made_again}; visits: {count}")?;

    let mut expiry = Expiry::new(alloc);
    let mut name = Vec::new(alloc);
    let _stored = expiry.set_until(&rt, &cache, &mut worker, b"session", b"Ada", 100);
    let early = expiry.get(&rt, &cache, &mut worker, b"session", 99, &mut name);
    let late = expiry.get(&rt, &cache, &mut worker, b"session", 100, &mut name);
    let text = str::from_utf8(&name).unwrap_or("no text");
    let (early, late) = (early == Ok(true), late == Ok(true));
    println!(rt; "session of {text} at 99: {early}, at 100: {late}")?;

    let mut counting = CountingWorker::new(worker);
    let mut found = Vec::new(alloc);
    let _hit = counting.get(&rt, &cache, b"page", &mut found);
    let _miss = counting.get(&rt, &cache, b"no page", &mut found);
    let Counts {
        get_hits,
        get_misses,
        ..
    } = counting.counts();
    println!(rt; "gets that hit: {get_hits}, that missed: {get_misses}")
}
