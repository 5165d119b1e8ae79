//! Calls of a counting worker, each with what it counts: in rows, drawn against a model, and of two threads.
ghost use Rattle.std.specs.Thread.{IsSync};
ghost use Rattle.mc_cache.specs.Belonging.{BelongsTo};
ghost use Rattle.mc_stats.specs.Counting.{worker_in};

use super::made::{KEY, pass_if, with_one_worker, with_threads_workers};
use mc_cache::{Cache, When, Worker};
use mc_stats::{CountingWorker, Counts, sum_of};
use rand_core::Rng;
use rand_pcg::Pcg32;
use std::alloc::Global;
use std::sync::Wait;
use std::test::Fail;
use std::thread::{Threads, join};

/// How many calls are drawn, and how many gets each thread does.
const CALLS: u64 = 1000;

/// A call of the counting worker.
#[derive(Clone, Copy)]
enum Call {
    Get,
    Peek,
    Contains,
    GetWithVersion,
    Set,
    SetOrKeep,
    Add,
    Replace,
    /// A set of a value that no class has chunks for.
    SetWide,
    Delete,
    Touch,
}

/// What a call counts.
#[derive(Clone, Copy)]
enum Event {
    GetHit,
    GetMiss,
    Stored,
    Unmet,
    TooLarge,
    DeleteHit,
    DeleteMiss,
    TouchHit,
    TouchMiss,
    Nothing,
}

/// A call, and what it counts.
type Row = (Call, Event);

/// Each call where the key has a value and where it has none.
const ROWS: [Row; 19] = [
    (Call::Get, Event::GetMiss),
    (Call::Peek, Event::GetMiss),
    (Call::GetWithVersion, Event::GetMiss),
    (Call::Replace, Event::Unmet),
    (Call::Set, Event::Stored),
    (Call::Get, Event::GetHit),
    (Call::Peek, Event::GetHit),
    (Call::Contains, Event::GetHit),
    (Call::GetWithVersion, Event::GetHit),
    (Call::Add, Event::Unmet),
    (Call::Replace, Event::Stored),
    (Call::SetOrKeep, Event::Stored),
    (Call::Touch, Event::TouchHit),
    (Call::SetWide, Event::TooLarge),
    (Call::Contains, Event::GetMiss),
    (Call::Touch, Event::TouchMiss),
    (Call::Delete, Event::DeleteMiss),
    (Call::Add, Event::Stored),
    (Call::Delete, Event::DeleteHit),
];

/// Calls on a key of no byte.
const NO_KEY: [Row; 4] = [
    (Call::Get, Event::Nothing),
    (Call::Set, Event::Nothing),
    (Call::Add, Event::Nothing),
    (Call::Delete, Event::Nothing),
];

/// The counts behind this event.
fn counts_with(counts: Counts, event: Event) -> Counts {
    let mut counts = counts;
    match event {
        Event::GetHit => counts.get_hits = counts.get_hits.wrapping_add(1),
        Event::GetMiss => counts.get_misses = counts.get_misses.wrapping_add(1),
        Event::Stored => counts.sets_stored = counts.sets_stored.wrapping_add(1),
        Event::Unmet => counts.sets_unmet = counts.sets_unmet.wrapping_add(1),
        Event::TooLarge => counts.store_too_large = counts.store_too_large.wrapping_add(1),
        Event::DeleteHit => counts.delete_hits = counts.delete_hits.wrapping_add(1),
        Event::DeleteMiss => counts.delete_misses = counts.delete_misses.wrapping_add(1),
        Event::TouchHit => counts.touch_hits = counts.touch_hits.wrapping_add(1),
        Event::TouchMiss => counts.touch_misses = counts.touch_misses.wrapping_add(1),
        Event::Nothing => {}
    }
    counts
}

/// Sets a value that no class has chunks for.
fn set_wide<R: Wait>(rt: &R, cache: &Cache, counting: &mut CountingWorker, key: &[u8])
    requires { BelongsTo cache.now (worker_in counting.old) }
    ensures { BelongsTo cache.now (worker_in counting.new) }
{
    let wide = [b'x'; 1001];
    let _refused = counting.set(rt, cache, key, &wide);
}

/// Does the call.
fn act<R: Wait>(
    rt: &R,
    cache: &Cache,
    counting: &mut CountingWorker,
    call: Call,
    key: &[u8],
    into: &mut Vec<u8>,
)
    requires { BelongsTo cache.now (worker_in counting.old) }
    ensures { BelongsTo cache.now (worker_in counting.new) }
{
    match call {
        Call::Get => _ = counting.get(rt, cache, key, into),
        Call::Peek => _ = counting.peek(rt, cache, key, into),
        Call::Contains => _ = counting.contains(rt, cache, key),
        Call::GetWithVersion => _ = counting.get_with_version(rt, cache, key, into),
        Call::Set => _ = counting.set(rt, cache, key, b"Bern"),
        Call::SetOrKeep => _ = counting.set_or_keep(rt, cache, key, b"Chur"),
        Call::Add => _ = counting.set_if(rt, cache, key, b"Biel", When::Absent),
        Call::Replace => _ = counting.set_if(rt, cache, key, b"Thun", When::Present),
        Call::SetWide => set_wide(rt, cache, counting, key),
        Call::Delete => _ = counting.delete(rt, cache, key),
        Call::Touch => _ = counting.touch(rt, cache, key),
    }
}

#[test]
fn each_call_counts_its_result(rt: HostRuntime) -> Result<(), Fail> {
    let (cache, worker) = with_one_worker(&rt, rt.alloc())?;
    let mut counting = CountingWorker::new(worker);
    play(&rt, rt.alloc(), &cache, &mut counting, KEY, &ROWS)
}

#[test]
fn no_key_counts_nothing(rt: HostRuntime) -> Result<(), Fail> {
    let (cache, worker) = with_one_worker(&rt, rt.alloc())?;
    let mut counting = CountingWorker::new(worker);
    play(&rt, rt.alloc(), &cache, &mut counting, b"", &NO_KEY)
}

/// Plays the rows, up to the first that counts something else.
fn play<R: Wait>(
    rt: &R,
    alloc: Global,
    cache: &Cache,
    counting: &mut CountingWorker,
    key: &[u8],
    rows: &[Row],
) -> Result<(), Fail>
    requires { BelongsTo cache.now (worker_in counting.old) }
{
    let mut into = Vec::new(alloc);
    let mut expected = Counts::new();
    for row in rows {
        act(rt, cache, counting, row.0, key, &mut into);
        expected = counts_with(expected, row.1);
        if counting.counts() != expected {
            return Err(Fail::new("a row counts something else"));
        }
    }
    Ok(())
}

/// What a call counts, and whether the key has a value behind it, where it had one before or none.
fn model(call: Call, has: bool) -> (Event, bool) {
    match call {
        Call::Get | Call::Peek | Call::Contains | Call::GetWithVersion => {
            (if has { Event::GetHit } else { Event::GetMiss }, has)
        }
        Call::Set | Call::SetOrKeep => (Event::Stored, true),
        Call::Add => (if has { Event::Unmet } else { Event::Stored }, true),
        Call::Replace => (if has { Event::Stored } else { Event::Unmet }, has),
        Call::SetWide => (Event::TooLarge, false),
        Call::Delete => (
            if has {
                Event::DeleteHit
            } else {
                Event::DeleteMiss
            },
            false,
        ),
        Call::Touch => (
            if has {
                Event::TouchHit
            } else {
                Event::TouchMiss
            },
            has,
        ),
    }
}

/// The call of this number.
fn call_of(number: u64) -> Call {
    match number % 11 {
        0 => Call::Get,
        1 => Call::Peek,
        2 => Call::Contains,
        3 => Call::GetWithVersion,
        4 => Call::Set,
        5 => Call::SetOrKeep,
        6 => Call::Add,
        7 => Call::Replace,
        8 => Call::SetWide,
        9 => Call::Delete,
        _ => Call::Touch,
    }
}

/// All drawn calls. True if the counts were the model's behind each.
fn act_often<R: Wait>(rt: &R, alloc: Global, cache: &Cache, counting: &mut CountingWorker) -> bool
    requires { BelongsTo cache.now (worker_in counting.old) }
{
    let mut random = Pcg32::new(12, 0);
    let mut into = Vec::new(alloc);
    let mut expected = Counts::new();
    let mut has = false;
    for _ in 0..CALLS {
        let call = call_of(random.next_u64());
        act(rt, cache, counting, call, KEY, &mut into);
        let (event, has_then) = model(call, has);
        expected = counts_with(expected, event);
        has = has_then;
        if counting.counts() != expected {
            return false;
        }
    }
    true
}

#[test]
fn drawn_calls_count_as_the_model(rt: HostRuntime) -> Result<(), Fail> {
    let (cache, worker) = with_one_worker(&rt, rt.alloc())?;
    let mut counting = CountingWorker::new(worker);
    let right = act_often(&rt, rt.alloc(), &cache, &mut counting);
    pass_if(right, "a call counted something else than the model's")
}

/// A thread's gets of a key that has a value, and their counts.
fn get_often<R: Wait>(rt: &R, alloc: Global, cache: &Cache, worker: Worker) -> Counts
    requires { BelongsTo cache.now worker }
{
    let mut counting = CountingWorker::new(worker);
    let mut into = Vec::new(alloc);
    for _ in 0..CALLS {
        into.clear();
        act(rt, cache, &mut counting, Call::Get, KEY, &mut into);
    }
    let (_worker, counts) = counting.into_parts();
    counts
}

/// Two threads at once: the sum has each get of both.
#[test]
fn threads_counts_are_summed(rt: HostRuntime) -> Result<(), Fail> {
    let (cache, mut own, (first, second)) = with_threads_workers(&rt, rt.alloc())?;
    let stored = own.set(&rt, &cache, KEY, b"Bern");
    assert!(rt; stored.is_ok(), "no value was set");
    let (one, other) = join(
        &rt,
        || -> Counts
            requires { BelongsTo cache first }
        { get_often(&rt, rt.alloc(), &cache, first) },
        || -> Counts
            requires { BelongsTo cache second }
        { get_often(&rt, rt.alloc(), &cache, second) },
    );
    let mut expected = Counts::new();
    expected.get_hits = 2 * CALLS;
    assert!(rt; sum_of(&[one, other]) == expected, "a get wasn't counted");
    expected.get_hits = u64::MAX;
    assert!(rt; expected.plus(&one) == expected, "a count fell");
    Ok(())
}
