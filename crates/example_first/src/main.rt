//! Two threads share a cache of bytes: each stores a value, and then each gets what the other stored.
#![tactic(auto)]

ghost use Rattle.mc_cache.specs.Belonging.{BelongsTo};

use mc_cache::{Cache, CacheConfig, HashKey};
use mc_classes::Config;
use std::thread::join_mut;
use std::{io, str};

const CACHE: CacheConfig = CacheConfig {
    arena: Config {
        page: 16_384,
        limit: 1_048_576,
        first: 64,
        num: 2,
        den: 1,
        max: 4096,
        stripes: 16,
        bulk: 64,
    },
    shards: 4,
    workers: 2,
};

fn main(rt: HostRuntime) -> io::Result<()> {
    let (first, second) = (17, 42); // a program for use draws both
    let made = Cache::new(&rt, rt.alloc(), &CACHE, HashKey { first, second });
    let (cache, mut workers, _tender) = match made {
        Ok(made) => made,
        Err(error) => return println!(rt; "no cache was made: {error}"),
    };
    let (mut one, mut two) = (workers.remove(0), workers.remove(0));
    let mut city = || -> bool
        requires { BelongsTo cache one }
        ensures { BelongsTo cache one.exit }
    { one.set(&rt, &cache, b"city", b"Bern").is_ok() };
    let mut river = || -> bool
        requires { BelongsTo cache two }
        ensures { BelongsTo cache two.exit }
    { two.set(&rt, &cache, b"river", b"Aare").is_ok() };
    let _stored = join_mut(&rt, &mut city, &mut river);
    let mut found = Vec::new(rt.alloc());
    let _got = one.get(&rt, &cache, b"river", &mut found);
    let _got = two.get(&rt, &cache, b"city", &mut found);
    println!(rt; "{}", str::from_utf8(&found).unwrap_or("no text"))
}
