//! Drawn calls of all kinds on the same keys against one model, so that each call can meet what any other call left.
ghost use Rattle.std.specs.Thread.{IsSync};
ghost use Rattle.mc_cache.specs.Belonging.{BelongsTo};

mod acting;
mod call;
mod model;

use super::made::{SMALL, next_worker, pass_if, with_shards, with_two_workers};
use acting::{Tools, act};
use call::{Call, End, Kind, Reply, Scene, draw, put_key, put_value};
use mc_cache::{Cache, Worker};
use mc_classes::Config;
use model::{Model, part_of};
use rand_core::Rng;
use rand_pcg::Pcg32;
use std::alloc::{AllocError, Global};
use std::sync::Wait;
use std::test::Fail;
use std::thread::{Threads, join};

/// How many calls each worker makes.
const CALLS: u64 = 4000;

/// 64 pages of 1,024 bytes: with four shards there is room for all items of two workers.
const ROOMY: Config = Config {
    limit: 65_536,
    ..SMALL
};

/// Whether the model returns the same to the call, and the same bytes. Another worker may have items, too, where calls count all.
fn is_models(model: &mut Model, tools: &Tools, call: &Call, reply: Reply, scene: Scene) -> bool {
    let (end, number) = model.step(call, &tools.value, reply.1, &tools.got);
    if scene == Scene::Shared && matches!(call.kind, Kind::Len | Kind::ClassItems) {
        return reply.0 == end && reply.1 >= number;
    }
    reply == (end, number) && model.wanted.as_slice() == tools.got.as_slice()
}

/// Whether the call found no room, and stored nothing: behind a set, or where there was no value, the key has none.
fn found_no_room(model: &mut Model, call: &Call, reply: Reply) -> bool {
    if reply.0 != End::NoRoom {
        return false;
    }
    match call.kind {
        Kind::Set | Kind::SetUntil | Kind::SetLarge | Kind::Add | Kind::GetOrAdd => {
            model.lose(call.key);
        }
        _ => {}
    }
    true
}

/// The same as `is_models`, where items may have been evicted: that of the key, or of a large value a part or the root.
fn is_models_or_evicted(
    model: &mut Model,
    tools: &Tools,
    call: &Call,
    reply: Reply,
    scene: Scene,
) -> bool {
    let lapsed = model.lapsed;
    if found_no_room(model, call, reply) || is_models(model, tools, call, reply, scene) {
        return true;
    }
    model.lapsed = lapsed;
    if call.kind == Kind::GetLarge {
        model.lose(part_of(call.key, 0));
        if is_models(model, tools, call, reply, scene) {
            return true;
        }
    }
    model.lose(call.key);
    if call.kind == Kind::SetLarge {
        return reply.0 == End::Done && tools.got.is_empty();
    }
    is_models(model, tools, call, reply, scene)
}

/// One drawn call. True if it returned what the model does.
fn play<R: Wait>(
    rt: &R,
    cache: &Cache,
    worker: &mut Worker,
    tools: &mut Tools,
    model: &mut Model,
    call: &Call,
    scene: Scene,
) -> bool
    requires { BelongsTo cache.now worker.old }
    ensures { BelongsTo cache.now worker.new }
{
    let reply = act(
        rt,
        cache,
        worker,
        tools,
        call,
        model.version(call.key),
        scene,
    );
    if scene == Scene::Tight {
        is_models_or_evicted(model, tools, call, reply, scene)
    } else {
        is_models(model, tools, call, reply, scene)
    }
}

/// All calls of a worker whose keys have this first letter, up to the first that returned what the model doesn't. How many there were.
fn play_often<R: Wait>(
    rt: &R,
    alloc: Global,
    cache: &Cache,
    worker: &mut Worker,
    first: u8,
    scene: Scene,
) -> Result<u64, AllocError>
    requires { BelongsTo cache.now worker.old }
{
    let mut random = Pcg32::new(first as u64, 0);
    let mut tools = Tools::new(alloc, first);
    let mut model = Model::new(alloc)?;
    let mut time: u32 = 1000;
    for calls in 0..CALLS {
        let call = draw(&mut random, scene, time);
        put_value(&mut random, call.kind, &mut tools.value)?;
        put_key(first, call.key, &mut tools.key)?;
        if !play(rt, cache, worker, &mut tools, &mut model, &call, scene) {
            return Ok(calls);
        }
        time = time.saturating_add((random.next_u64() % 2) as u32);
    }
    Ok(CALLS)
}

/// Two workers with keys of their own, in a thread each. True if each call returned what the model does.
fn play_both<R: Wait + Threads + AllocGlobal + Sync>(
    rt: &R,
    arena: Config,
    shards: u64,
    scene: Scene,
) -> Result<bool, Fail> {
    let (cache, mut first, mut second) = with_two_workers(rt, rt.alloc(), arena, shards)?;
    let (one, other) = join(
        rt,
        || -> Result<u64, AllocError>
            requires { BelongsTo cache first }
        { play_often(rt, rt.alloc(), &cache, &mut first, b'A', scene) },
        || -> Result<u64, AllocError>
            requires { BelongsTo cache second }
        { play_often(rt, rt.alloc(), &cache, &mut second, b'a', scene) },
    );
    Ok(one == Ok(CALLS) && other == Ok(CALLS))
}

#[test]
fn mixed_calls_are_the_models(rt: HostRuntime) -> Result<(), Fail> {
    let (cache, mut workers) = with_shards(&rt, rt.alloc(), ROOMY, 4, 1)?;
    let mut worker = next_worker(&cache, &mut workers)?;
    let calls = play_often(&rt, rt.alloc(), &cache, &mut worker, b'A', Scene::Alone);
    pass_if(calls == Ok(CALLS), "a call returned what the model doesn't")
}

/// Each worker's model is exact, as there is room for the items of both.
#[test]
fn mixed_calls_of_two_threads(rt: HostRuntime) -> Result<(), Fail> {
    let right = play_both(&rt, ROOMY, 4, Scene::Shared)?;
    pass_if(right, "a call returned what the worker's model doesn't")
}

#[test]
fn mixed_calls_with_evictions(rt: HostRuntime) -> Result<(), Fail> {
    let right = play_both(&rt, SMALL, 2, Scene::Tight)?;
    pass_if(right, "a call returned what the worker's model doesn't")
}
