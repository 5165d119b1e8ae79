//! Two threads that set one key in parts and get it: what a get returns is one whole value.
ghost use Rattle.std.specs.Thread.{IsSync};
ghost use Rattle.mc_cache.specs.Belonging.{BelongsTo};

use super::large_values::{KEY, fill, is_value};
use super::made::{WIDE, pass_if, with_two_workers};
use mc_cache::{Cache, Worker};
use mc_large::Large;
use std::alloc::Global;
use std::sync::Wait;
use std::test::Fail;
use std::thread::{Threads, join};

/// How often each thread sets a value and gets one.
const ROUNDS: u64 = 200;

/// The length of the value of this number.
fn length_of(number: u64) -> usize {
    (20_000 + number % 5 * 15_000) as usize
}

/// Whether the bytes are the whole value of some number that a thread sets.
fn is_some_value(bytes: &[u8]) -> bool {
    for number in 0..2 * ROUNDS {
        if is_value(bytes, number, length_of(number)) {
            return true;
        }
    }
    false
}

/// A set of the value of this number, and a get. True if the set was done, and the get missed or got one whole value.
fn set_and_get<R: Wait>(
    rt: &R,
    cache: &Cache,
    worker: &mut Worker,
    large: &mut Large,
    number: u64,
    room: &mut Vec<u8>,
) -> bool
    requires { BelongsTo cache.now worker.old }
    ensures { BelongsTo cache.now worker.new }
{
    if fill(room, number, length_of(number)).is_err() {
        return false;
    }
    if large.set(rt, cache, worker, KEY, room.as_slice()).is_err() {
        return false;
    }
    room.clear();
    match large.get(rt, cache, worker, KEY, room) {
        Ok(true) => is_some_value(room.as_slice()),
        Ok(false) => room.is_empty(),
        Err(_) => false,
    }
}

/// A thread's rounds, by the numbers from the first one on. How many of them went wrong.
fn act_often<R: Wait>(rt: &R, alloc: Global, cache: &Cache, worker: Worker, first: u64) -> u64
    requires { BelongsTo cache.now worker }
{
    let mut worker = worker;
    let mut large = Large::new(alloc);
    let mut room = Vec::new(alloc);
    let mut wrong: u64 = 0;
    for round in 0..ROUNDS {
        let number = first.wrapping_add(round);
        if !set_and_get(rt, cache, &mut worker, &mut large, number, &mut room) {
            wrong = wrong.wrapping_add(1);
        }
    }
    wrong
}

#[test]
fn each_get_is_one_whole_value(rt: HostRuntime) -> Result<(), Fail> {
    let (cache, first, second) = with_two_workers(&rt, rt.alloc(), WIDE, 4)?;
    let (one, other) = join(
        &rt,
        || -> u64
            requires { BelongsTo cache first }
        { act_often(&rt, rt.alloc(), &cache, first, 0) },
        || -> u64
            requires { BelongsTo cache second }
        { act_often(&rt, rt.alloc(), &cache, second, ROUNDS) },
    );
    pass_if(one == 0 && other == 0, "a get returned no whole value")
}
