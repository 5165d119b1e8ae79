//! Drawn calls of one worker, clears, counts and lists of keys among them, against a model that has the same keys.
ghost use Rattle.mc_cache.specs.Belonging.{BelongsTo};

use super::cleared::{Model, are_keys_of, keys_of_all};
use super::made::with_one_worker;
use mc_cache::{Cache, Worker};
use rand_core::Rng;
use rand_pcg::Pcg32;
use std::alloc::Global;
use std::collections::BTreeMap;
use std::sync::Wait;
use std::test::Fail;

/// How many calls are drawn.
const CALLS: u64 = 2000;

/// How many keys the calls use. Two shards have room for all of them.
const KEYS: u64 = 40;

/// What is drawn: one of 32 kinds, the one byte of a key, and the version of a value.
#[derive(Clone, Copy)]
struct Call {
    kind: u64,
    number: u8,
    version: u64,
}

/// The next call.
fn draw(random: &mut Pcg32) -> Call {
    Call {
        kind: random.next_u64() % 32,
        number: (random.next_u64() % KEYS) as u8,
        version: random.next_u64(),
    }
}

/// Stores the version of the key. True if it was done.
fn stores<R: Wait>(
    rt: &R,
    cache: &Cache,
    worker: &mut Worker,
    model: &mut Model,
    call: Call,
) -> Result<bool, Fail>
    requires { BelongsTo cache.now worker.old }
    ensures { BelongsTo cache.now worker.new }
{
    let stored = worker.set(rt, cache, &[call.number], &call.version.to_le_bytes());
    let _before = model.insert(call.number, call.version)?;
    Ok(stored == Ok(()))
}

/// Gets the key. True if it has the model's version, or none where the model has none.
fn finds<R: Wait>(
    rt: &R,
    alloc: Global,
    cache: &Cache,
    worker: &mut Worker,
    model: &Model,
    number: u8,
) -> bool
    requires { BelongsTo cache.now worker.old }
    ensures { BelongsTo cache.now worker.new }
{
    let mut bytes = Vec::new(alloc);
    let found = worker.get(rt, cache, &[number], &mut bytes);
    match model.get(&number) {
        Some(version) => found == Ok(true) && bytes.as_slice() == version.to_le_bytes().as_slice(),
        None => found == Ok(false),
    }
}

/// Clears the cache. True if it deleted as many keys as the model had.
fn clears<R: Wait>(rt: &R, cache: &Cache, worker: &mut Worker, model: &mut Model) -> bool
    requires { BelongsTo cache.now worker.old }
    ensures { BelongsTo cache.now worker.new }
{
    let wanted = model.len() as u64;
    model.clear();
    worker.clear(rt, cache) == Ok(wanted)
}

/// Lists all keys. True if they are the model's, each once.
fn lists<R: Wait>(
    rt: &R,
    alloc: Global,
    cache: &Cache,
    worker: &mut Worker,
    model: &Model,
) -> Result<bool, Fail>
    requires { BelongsTo cache.now worker.old }
    ensures { BelongsTo cache.now worker.new }
{
    let keys = keys_of_all(rt, alloc, cache, worker)?;
    Ok(are_keys_of(alloc, &keys, model)?)
}

/// Makes a call. True if it returned what the model has.
fn act<R: Wait>(
    rt: &R,
    alloc: Global,
    cache: &Cache,
    worker: &mut Worker,
    model: &mut Model,
    call: Call,
) -> Result<bool, Fail>
    requires { BelongsTo cache.now worker.old }
    ensures { BelongsTo cache.now worker.new }
{
    match call.kind {
        0 => Ok(clears(rt, cache, worker, model)),
        1 | 2 => Ok(worker.len(rt, cache) == model.len() as u64),
        3 | 4 => lists(rt, alloc, cache, worker, model),
        5..=10 => {
            let had = model.remove(&call.number).is_some();
            Ok(worker.delete(rt, cache, &[call.number]) == Ok(had))
        }
        11..=25 => stores(rt, cache, worker, model, call),
        _ => Ok(finds(rt, alloc, cache, worker, model, call.number)),
    }
}

/// All calls, before one that returned what the model hasn't. True if none did.
fn act_often<R: Wait>(
    rt: &R,
    alloc: Global,
    cache: &Cache,
    worker: &mut Worker,
) -> Result<bool, Fail>
    requires { BelongsTo cache.now worker.old }
{
    let mut random = Pcg32::new(13, 0);
    let mut model = BTreeMap::new(alloc);
    for _ in 0..CALLS {
        let call = draw(&mut random);
        if !act(rt, alloc, cache, worker, &mut model, call)? {
            return Ok(false);
        }
    }
    Ok(true)
}

/// Drawn calls over two shards, which have room for all keys.
#[test]
fn drawn_clears_are_the_models(rt: HostRuntime) -> Result<(), Fail> {
    let (cache, mut worker, _tender) = with_one_worker(&rt, rt.alloc(), 2)?;
    let right = act_often(&rt, rt.alloc(), &cache, &mut worker)?;
    assert!(rt; right, "a call returned what the model hasn't");
    Ok(())
}
