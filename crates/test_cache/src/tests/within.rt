//! Calls that try for each lock n times, by a worker or a tender that lies in a struct.
ghost use Rattle.mc_cache.specs.Resting.{TenderRestsIn};

use super::made::{HASH_KEY, config_of, pass_if, with_resting_worker};
use super::rows::{Call, Reply, Row};
use super::rows_within::play_within;
use example_calls::cache::Client;
use mc_cache::{Cache, Tender};
use std::test::Fail;

/// What was stored is found, touched and deleted, and then isn't there.
const STORED: [(u64, Row<'static>); 7] = [
    (
        1,
        (
            Call::Set,
            b"city",
            b"Bern",
            Reply::Stored,
            "it isn't stored",
        ),
    ),
    (
        1,
        (Call::Get, b"city", b"Bern", Reply::Done, "it isn't found"),
    ),
    (
        1,
        (Call::Touch, b"city", b"", Reply::Done, "it isn't touched"),
    ),
    (
        1,
        (Call::Delete, b"city", b"", Reply::Done, "it isn't deleted"),
    ),
    (
        1,
        (
            Call::Delete,
            b"city",
            b"",
            Reply::Absent,
            "it is deleted again",
        ),
    ),
    (
        1,
        (
            Call::Touch,
            b"city",
            b"",
            Reply::Absent,
            "it is touched again",
        ),
    ),
    (1, (Call::Get, b"city", b"", Reply::Absent, "it is there")),
];

/// Without a try each call that wants a lock is held. A get follows its hint all the same.
const UNTRIED: [(u64, Row<'static>); 6] = [
    (
        0,
        (
            Call::Set,
            b"city",
            b"Bern",
            Reply::Held,
            "it is stored without a lock",
        ),
    ),
    (
        0,
        (
            Call::Get,
            b"city",
            b"",
            Reply::Held,
            "a get without a lock answers",
        ),
    ),
    (
        1,
        (
            Call::Set,
            b"city",
            b"Bern",
            Reply::Stored,
            "it isn't stored",
        ),
    ),
    (
        0,
        (Call::Get, b"city", b"Bern", Reply::Done, "the hint fails"),
    ),
    (
        0,
        (
            Call::Touch,
            b"city",
            b"",
            Reply::Held,
            "it is touched without a lock",
        ),
    ),
    (
        0,
        (
            Call::Delete,
            b"city",
            b"",
            Reply::Held,
            "it is deleted without a lock",
        ),
    ),
];

#[test]
fn calls_within_tries_are_done_or_held(rt: HostRuntime) -> Result<(), Fail> {
    let (cache, mut worker) = with_resting_worker(rt.alloc(), 2)?;
    play_within(rt.alloc(), &cache, &mut worker, &STORED)?;
    play_within(rt.alloc(), &cache, &mut worker, &UNTRIED)
}

/// Stores a value, finds it, and finds no other.
fn store_and_find(client: &mut Client, bytes: &mut Vec<u8>) -> Result<(), Fail> {
    if !client.store(b"river", b"Aare") {
        return Err(Fail::new("it isn't stored"));
    }
    if !client.find(b"river", bytes) {
        return Err(Fail::new("it isn't found"));
    }
    if client.find(b"lake", bytes) {
        return Err(Fail::new("a lake is found"));
    }
    pass_if(bytes.as_slice() == b"Aare".as_slice(), "the bytes changed")
}

/// A client that has cache and worker in one struct finds what it stored, and keeps the bytes where it finds nothing.
#[test]
fn a_struct_has_cache_and_worker(rt: HostRuntime) -> Result<(), Fail> {
    let (cache, worker) = with_resting_worker(rt.alloc(), 2)?;
    let mut client = Client::new(cache, worker);
    let mut bytes = Vec::new(rt.alloc());
    store_and_find(&mut client, &mut bytes)
}

/// Windows, surveys and modes without a try and with one, and a page for a class that isn't there.
fn tend_within_tries(cache: &Cache, tender: &mut Tender) -> Result<(), Fail>
    requires { TenderRestsIn cache.now tender.old }
{
    if tender.tend_within(cache, 0)?.held != 2 {
        return Err(Fail::new("a window without a lock"));
    }
    if tender.tend_within(cache, 1)?.held != 0 {
        return Err(Fail::new("a free lock was missed"));
    }
    if tender.stats_within(cache, 0).is_ok() {
        return Err(Fail::new("a survey without a lock"));
    }
    if tender.stats_within(cache, 1).is_err() {
        return Err(Fail::new("no survey with a lock"));
    }
    if tender.set_automove_within(cache, 2, 0).is_ok() {
        return Err(Fail::new("a mode without a lock"));
    }
    if tender.set_automove_within(cache, 2, 1).is_err() {
        return Err(Fail::new("no mode with a lock"));
    }
    if cache.shards() > 1 {
        let answer = tender.reassign_within(cache, 1, None, cache.classes().count() + 1, 1);
        return pass_if(matches!(answer, Ok(Err(_))), "a page for no class");
    }
    Ok(())
}

/// A tender that doesn't wait: without a try each shard's window ends early, and with one it doesn't. A class that isn't there gets no page.
#[test]
fn a_tender_without_a_try_is_held(rt: HostRuntime) -> Result<(), Fail> {
    let made = Cache::new_within(rt.alloc(), &config_of(2, 1), HASH_KEY, 1);
    let Ok((cache, _workers, mut tender)) = made else {
        return Err(Fail::new("no cache was made"));
    };
    tend_within_tries(&cache, &mut tender)
}
