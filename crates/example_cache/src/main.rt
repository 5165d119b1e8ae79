//! A cache of bytes in a program: eight clients get keys that Zipf's law draws, and store what they miss, while a tender moves pages. In
//! the first half of the rounds most wanted values have less than 500 bytes, in the second half more: so pages have to go to the classes
//! of greater chunks. `example_cache` plays few rounds, and prints what is so under every schedule. `example_cache show` plays more, and
//! prints each.
#![tactic(auto)]

mod client;
mod keys;
mod picture;
mod round;
mod rounds;
mod tally;

use client::{make_clients, sum_tallies};
use mc_cache::{Cache, CacheConfig, HashKey};
use mc_classes::Config;
use rounds::{Plan, play_rounds};
use std::sync::Wait;
use std::thread::Threads;
use std::{env, io};
use tally::Tally;

/// 64 shards of 64 pages of 16,384 bytes: 64 mebibytes. Classes are of 64, 128, 256, 512, 1,024 and 4,096 bytes.
const CACHE: CacheConfig = CacheConfig {
    arena: Config {
        page: 16_384,
        limit: 1_048_576,
        first: 64,
        num: 2,
        den: 1,
        max: 4096,
        stripes: 16,
        bulk: 64,
    },
    shards: 64,
    workers: 8,
};

/// A program for use draws these, as nobody who picks keys is to know them.
const HASH_KEY: HashKey = HashKey {
    first: 0x0123_4567_89ab_cdef,
    second: 42,
};

/// Makes the cache, plays the rounds, and gives what was found in all.
fn play<R: AllocGlobal + Print + Threads + Wait + Sync>(rt: &R, plan: Plan) -> io::Result<Tally> {
    let (cache, workers, mut tender) = match Cache::new(rt, rt.alloc(), &CACHE, HASH_KEY) {
        Ok(made) => made,
        Err(error) => {
            println!(rt; "no cache was made: {error}")?;
            return Err(io::ErrorKind::Other.into());
        }
    };
    let mut clients = make_clients(rt.alloc(), &cache, workers);
    let played = play_rounds(rt, &cache, plan, &mut tender, clients.as_mut_slice());
    let found = sum_tallies(&clients);
    drop(clients);
    drop(tender);
    drop(cache);
    played?;
    Ok(found)
}

/// What `example_cache` plays.
const FEW: Plan = Plan {
    rounds: 4,
    gets: 31_250,
    shows: false,
};

/// What `example_cache show` plays.
const MANY: Plan = Plan {
    rounds: 40,
    gets: 10_000,
    shows: true,
};

fn main(rt: HostRuntime) -> io::Result<()> {
    let shows = env::args(&rt)?.len() > 1;
    let found = play(&rt, if shows { MANY } else { FEW })?;
    println!(rt; "gets: {}", found.gets)?;
    println!(rt; "wrong bytes: {}", found.wrong)?;
    println!(rt; "refused memory: {}", found.refused)
}
