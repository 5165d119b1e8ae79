//! Drawn calls of values of up to 40,000 bytes against a model, with room for all and without.
ghost use Rattle.mc_cache.specs.Belonging.{BelongsTo};

use super::large_values::{fill, is_value};
use super::made::{with_one_worker, with_wide_worker};
use mc_cache::{Cache, Worker};
use mc_large::Large;
use rand_core::Rng;
use rand_pcg::Pcg32;
use std::alloc::Global;
use std::sync::Wait;
use std::test::Fail;

/// How many calls are drawn.
const CALLS: u64 = 400;

/// How many keys the calls use.
const KEYS: usize = 3;

/// The number and the length of each key's last value, if it wasn't deleted since.
type Model = [Option<(u64, usize)>; KEYS];

/// What gets returned.
#[derive(Clone, Copy, PartialEq, Eq)]
struct Tally {
    /// How many got the model's value.
    right: u64,
    /// How many missed it.
    missed: u64,
    /// How many got another value, or one that was deleted.
    wrong: u64,
}

/// A length below this bound: of a value in its root more often than not.
fn drawn_length(random: &mut Pcg32, bound: u64) -> usize {
    let bound = bound >> (random.next_u64() % 8);
    if bound == 0 {
        return 0;
    }
    (random.next_u64() % bound) as usize
}

/// A drawn set or delete of the key, and the model's entry behind it.
fn change<R: Wait>(
    rt: &R,
    cache: &Cache,
    worker: &mut Worker,
    large: &mut Large,
    random: &mut Pcg32,
    key: &[u8],
    bound: u64,
    room: &mut Vec<u8>,
) -> Option<(u64, usize)>
    requires { BelongsTo cache.now worker.old }
    ensures { BelongsTo cache.now worker.new }
{
    if random.next_u64() % 8 == 0 {
        let _deleted = large.delete(rt, cache, worker, key);
        return None;
    }
    let number = random.next_u64();
    let len = drawn_length(random, bound);
    if fill(room, number, len).is_err() {
        return None;
    }
    match large.set(rt, cache, worker, key, room.as_slice()) {
        Ok(()) => Some((number, len)),
        Err(_) => None,
    }
}

/// A get of the key, which the tally counts.
fn get<R: Wait>(
    rt: &R,
    cache: &Cache,
    worker: &mut Worker,
    large: &mut Large,
    key: &[u8],
    has: Option<(u64, usize)>,
    tally: &mut Tally,
    room: &mut Vec<u8>,
)
    requires { BelongsTo cache.now worker.old }
    ensures { BelongsTo cache.now worker.new }
{
    room.clear();
    let got = large.get(rt, cache, worker, key, room);
    let right = match (got, has) {
        (Ok(true), Some((number, len))) => is_value(room.as_slice(), number, len),
        (Ok(false), None) => room.is_empty(),
        (Ok(false), Some(_)) => {
            tally.missed = tally.missed.wrapping_add(1);
            return;
        }
        _ => false,
    };
    if right {
        tally.right = tally.right.wrapping_add(1);
    } else {
        tally.wrong = tally.wrong.wrapping_add(1);
    }
}

/// All calls: a change of one key, and a get of another one or the same.
fn call_often<R: Wait>(
    rt: &R,
    alloc: Global,
    cache: &Cache,
    worker: &mut Worker,
    bound: u64,
) -> Tally
    requires { BelongsTo cache.now worker.old }
{
    let mut large = Large::new(alloc);
    let mut room = Vec::new(alloc);
    let mut random = Pcg32::new(7, 0);
    let mut model: Model = [None; KEYS];
    let mut tally = Tally {
        right: 0,
        missed: 0,
        wrong: 0,
    };
    for _ in 0..CALLS {
        let changed = (random.next_u64() % KEYS as u64) as usize;
        let name = [b'a' + changed as u8];
        model[changed] = change(
            rt,
            cache,
            worker,
            &mut large,
            &mut random,
            &name,
            bound,
            &mut room,
        );
        let wanted = (random.next_u64() % KEYS as u64) as usize;
        let name = [b'a' + wanted as u8];
        get(
            rt,
            cache,
            worker,
            &mut large,
            &name,
            model[wanted],
            &mut tally,
            &mut room,
        );
    }
    tally
}

#[test]
fn with_room_each_get_is_the_models(rt: HostRuntime) -> Result<(), Fail> {
    let (cache, mut worker) = with_wide_worker(&rt, rt.alloc())?;
    let tally = call_often(&rt, rt.alloc(), &cache, &mut worker, 100_000);
    assert!(rt; tally.wrong == 0, "another value was got");
    assert!(rt; tally.missed == 0, "a value was missed");
    assert!(rt; tally.right == CALLS, "a get isn't counted");
    Ok(())
}

#[test]
fn without_room_a_get_misses_or_is_the_models(rt: HostRuntime) -> Result<(), Fail> {
    let (cache, mut worker) = with_one_worker(&rt, rt.alloc())?;
    let tally = call_often(&rt, rt.alloc(), &cache, &mut worker, 20_000);
    assert!(rt; tally.wrong == 0, "another value was got");
    assert!(rt; tally.missed > 0, "no part was evicted");
    assert!(rt; tally.right > 0, "no value was got");
    Ok(())
}
