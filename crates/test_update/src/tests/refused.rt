//! Calls that are refused memory: what each returns, and what its key has then. `ci/memory` refuses each request in turn, and reads the lines.
ghost use Rattle.std.specs.Prelude.{IfOk};
ghost use Rattle.mc_cache.specs.Belonging.{BelongsTo};

mod large;
mod listing;

use super::made::{KEY, SMALL, next_worker, opened};
use listing::answer_of_keys;
pub use listing::list_all;
use mc_cache::{Cache, CallError, Outcome, SetError, Worker};
use mc_expiry::{Expiry, ExpiryError};
use mc_stripe::Stamp;
use mc_update::{AddError, ChangeError, Source, Updater};
use std::alloc::{AllocError, Global};
use std::process::Abort;
use std::sync::Wait;
use std::test::Fail;
use testlib_values::{print_call, print_done, print_refused};

/// A value that a new cache has no room for yet, in the words of a worker.
const LONG: [u8; 60] = [b'x'; 60];

/// The same behind four digits.
const NUMBER_AND_LONG: [u8; 64] =
    *b"4999xxxxxxxxxxxxxxxxxxxxxxxxxxxxxxxxxxxxxxxxxxxxxxxxxxxxxxxxxxxx";

/// The same before them.
const LONG_AND_NUMBER: [u8; 64] =
    *b"xxxxxxxxxxxxxxxxxxxxxxxxxxxxxxxxxxxxxxxxxxxxxxxxxxxxxxxxxxxx4999";

/// The same, with a deadline of 9.
const TIMED: [u8; 64] = *b"\x09\0\0\0xxxxxxxxxxxxxxxxxxxxxxxxxxxxxxxxxxxxxxxxxxxxxxxxxxxxxxxxxxxx";

/// The same, with a deadline of 8.
const TIMED_BEFORE: [u8; 64] =
    *b"\x08\0\0\0xxxxxxxxxxxxxxxxxxxxxxxxxxxxxxxxxxxxxxxxxxxxxxxxxxxxxxxxxxxx";

/// A call on the key.
#[derive(Clone, Copy)]
enum Call {
    Set,
    SetOrKeep,
    Get,
    Add,
    Replace,
    CompareAndSet,
    Keys,
    Increment,
    Append,
    Prepend,
    GetOrAdd,
    SetUntil,
    GetUnexpired,
    AddUntil,
    ReplaceUntil,
    TouchUntil,
}

/// What a call returned.
#[derive(Clone, Copy, PartialEq, Eq)]
enum Answer {
    Done,
    NoMemory,
    Other,
}

/// A call with its name, and what the key has before it, behind it, and where memory was refused to it.
type Row<'a> = (
    Call,
    &'static str,
    Option<&'a [u8]>,
    Option<&'a [u8]>,
    Option<&'a [u8]>,
);

/// Calls of a worker.
const WORKERS: [Row<'static>; 7] = [
    (Call::Set, "set", Some(b"4999"), Some(&LONG), None),
    (
        Call::SetOrKeep,
        "set_or_keep",
        Some(b"4999"),
        Some(&LONG),
        Some(b"4999"),
    ),
    (Call::Get, "get", Some(&LONG), Some(&LONG), Some(&LONG)),
    (Call::Add, "add", None, Some(&LONG), None),
    (
        Call::Replace,
        "replace",
        Some(b"4999"),
        Some(&LONG),
        Some(b"4999"),
    ),
    (
        Call::CompareAndSet,
        "compare_and_set",
        Some(b"4999"),
        Some(&LONG),
        Some(b"4999"),
    ),
    (
        Call::Keys,
        "keys",
        Some(b"4999"),
        Some(b"4999"),
        Some(b"4999"),
    ),
];

/// Calls of an updater.
const UPDATERS: [Row<'static>; 4] = [
    (
        Call::Increment,
        "increment",
        Some(b"4999"),
        Some(b"5000"),
        Some(b"4999"),
    ),
    (
        Call::Append,
        "append",
        Some(b"4999"),
        Some(&NUMBER_AND_LONG),
        Some(b"4999"),
    ),
    (
        Call::Prepend,
        "prepend",
        Some(b"4999"),
        Some(&LONG_AND_NUMBER),
        Some(b"4999"),
    ),
    (Call::GetOrAdd, "get_or_add", None, Some(&LONG), None),
];

/// Calls of an expiry.
const EXPIRIES: [Row<'static>; 5] = [
    (
        Call::SetUntil,
        "set_until",
        Some(b"4999"),
        Some(&TIMED),
        None,
    ),
    (
        Call::GetUnexpired,
        "get_unexpired",
        Some(&TIMED),
        Some(&TIMED),
        Some(&TIMED),
    ),
    (Call::AddUntil, "add_until", None, Some(&TIMED), None),
    (
        Call::ReplaceUntil,
        "replace_until",
        Some(b"\0\0\0\0old"),
        Some(&TIMED),
        Some(b"\0\0\0\0old"),
    ),
    (
        Call::TouchUntil,
        "touch_until",
        Some(&TIMED_BEFORE),
        Some(&TIMED),
        Some(&TIMED_BEFORE),
    ),
];

fn of_set<T: Drop>(stored: Result<T, SetError>) -> Answer {
    match stored {
        Ok(_stored) => Answer::Done,
        Err(SetError::Item(mc_items::SetError::NoMemory(_refused))) => Answer::NoMemory,
        Err(_error) => Answer::Other,
    }
}

fn of_get(found: Result<bool, CallError>) -> Answer {
    match found {
        Ok(true) => Answer::Done,
        Err(CallError::NoMemory(_refused)) => Answer::NoMemory,
        _other => Answer::Other,
    }
}

fn of_change<T: Drop>(changed: Result<Option<T>, ChangeError>) -> Answer {
    match changed {
        Ok(Some(_number)) => Answer::Done,
        Err(ChangeError::NoMemory(_refused)) => Answer::NoMemory,
        Err(ChangeError::Item(mc_items::SetError::NoMemory(_refused))) => Answer::NoMemory,
        _other => Answer::Other,
    }
}

fn of_added(added: Result<Source, AddError<AllocError>>) -> Answer {
    match added {
        Ok(Source::Added(_stamp)) => Answer::Done,
        Ok(Source::Unstored(mc_items::SetError::NoMemory(_refused))) => Answer::NoMemory,
        Err(AddError::NoMemory(_refused)) => Answer::NoMemory,
        Err(AddError::Make(_refused)) => Answer::NoMemory,
        _other => Answer::Other,
    }
}

fn of_store(stored: Result<Option<Stamp>, ExpiryError>) -> Answer {
    match stored {
        Ok(Some(_stamp)) => Answer::Done,
        Err(ExpiryError::NoMemory(_refused)) => Answer::NoMemory,
        Err(ExpiryError::Item(mc_items::SetError::NoMemory(_refused))) => Answer::NoMemory,
        _other => Answer::Other,
    }
}

/// Whether the key was looked up, and has a value: what is wanted, or none. A look that is refused memory is made again.
fn has<R: Wait>(
    rt: &R,
    alloc: Global,
    cache: &Cache,
    worker: &mut Worker,
    wanted: Option<&[u8]>,
) -> bool
    requires { BelongsTo cache.now worker.old }
    ensures { BelongsTo cache.now worker.new }
{
    let mut bytes = Vec::new(alloc);
    let mut found = worker.peek(rt, cache, KEY, &mut bytes);
    if found.is_err() {
        found = worker.peek(rt, cache, KEY, &mut bytes);
    }
    match wanted {
        Some(wanted) => found == Ok(true) && bytes.as_slice() == wanted,
        None => found == Ok(false),
    }
}

/// The version of the key's value. A look that is refused memory is made again.
fn version_of<R: Wait>(rt: &R, alloc: Global, cache: &Cache, worker: &mut Worker) -> Stamp
    requires { BelongsTo cache.now worker.old }
    ensures { BelongsTo cache.now worker.new }
{
    let mut bytes = Vec::new(alloc);
    let mut found = worker.get_with_version(rt, cache, KEY, &mut bytes);
    if found.is_err() {
        found = worker.get_with_version(rt, cache, KEY, &mut bytes);
    }
    found.unwrap_or(None).unwrap_or(0)
}

/// A new cache and its one worker. Where memory is refused, they are made again.
fn made<R: Wait>(rt: &R, alloc: Global) -> Result<(Cache, Worker), Fail>
    ensures { IfOk result (λ made. BelongsTo made.0 made.1) }
{
    let made = match opened(rt, alloc, SMALL, 2, 1) {
        Ok(made) => Ok(made),
        Err(_refused) => opened(rt, alloc, SMALL, 2, 1),
    };
    let (cache, mut workers) = made?;
    let worker = next_worker(&cache, &mut workers)?;
    Ok((cache, worker))
}

/// Stores the key's first value, if it has one. A store that is refused memory is made again.
fn store_first<R: Wait>(rt: &R, cache: &Cache, worker: &mut Worker, before: Option<&[u8]>)
    requires { BelongsTo cache.now worker.old }
    ensures { BelongsTo cache.now worker.new }
{
    if let Some(value) = before {
        let stored = worker.set_or_keep(rt, cache, KEY, value);
        if stored.is_err() {
            let _again = worker.set_or_keep(rt, cache, KEY, value);
        }
    }
}

/// A cache whose key has this value.
fn prepared<R: Wait>(rt: &R, alloc: Global, before: Option<&[u8]>) -> Result<(Cache, Worker), Fail>
    ensures { IfOk result (λ made. BelongsTo made.0 made.1) }
{
    let (cache, mut worker) = made(rt, alloc)?;
    store_first(rt, &cache, &mut worker, before);
    Ok((cache, worker))
}

/// What a call of a worker returns.
fn answer_of_worker<R: Wait>(
    rt: &R,
    alloc: Global,
    cache: &Cache,
    worker: &mut Worker,
    call: Call,
    version: Stamp,
) -> Answer
    requires { BelongsTo cache.now worker.old }
    ensures { BelongsTo cache.now worker.new }
{
    match call {
        Call::Set => of_set(worker.set(rt, cache, KEY, &LONG)),
        Call::SetOrKeep => of_set(worker.set_or_keep(rt, cache, KEY, &LONG)),
        Call::Add => of_outcome(worker.add(rt, cache, KEY, &LONG)),
        Call::Replace => of_outcome(worker.replace(rt, cache, KEY, &LONG)),
        Call::CompareAndSet => {
            of_outcome(worker.compare_and_set(rt, cache, KEY, &LONG, version))
        }
        Call::Keys => answer_of_keys(rt, alloc, cache, worker),
        _get => {
            let mut bytes = Vec::new(alloc);
            of_get(worker.get(rt, cache, KEY, &mut bytes))
        }
    }
}

fn of_outcome(outcome: Result<Outcome, SetError>) -> Answer {
    match outcome {
        Ok(Outcome::Stored(_stamp)) => Answer::Done,
        Ok(_unmet) => Answer::Other,
        Err(error) => of_set::<()>(Err(error)),
    }
}

/// What a call of an updater returns.
fn answer_of_updater<R: Wait>(
    rt: &R,
    alloc: Global,
    cache: &Cache,
    worker: &mut Worker,
    call: Call,
) -> Answer
    requires { BelongsTo cache.now worker.old }
    ensures { BelongsTo cache.now worker.new }
{
    let mut updater = Updater::new(alloc);
    match call {
        Call::Increment => of_change(updater.increment(rt, cache, worker, KEY, 1)),
        Call::Append => of_change(updater.append(rt, cache, worker, KEY, &LONG)),
        Call::Prepend => of_change(updater.prepend(rt, cache, worker, KEY, &LONG)),
        _get_or_add => of_added(updater.get_or_add(
            rt,
            cache,
            worker,
            KEY,
            |room: &mut Vec<u8>| -> Result<(), AllocError> { room.extend_from_slice(&LONG) },
        )),
    }
}

/// What a call of an expiry returns, at the time 7.
fn answer_of_expiry<R: Wait>(
    rt: &R,
    alloc: Global,
    cache: &Cache,
    worker: &mut Worker,
    call: Call,
) -> Answer
    requires { BelongsTo cache.now worker.old }
    ensures { BelongsTo cache.now worker.new }
{
    let mut expiry = Expiry::new(alloc);
    match call {
        Call::SetUntil => of_set(expiry.set_until(rt, cache, worker, KEY, &LONG, 9)),
        Call::AddUntil => of_store(expiry.add_until(rt, cache, worker, KEY, &LONG, 7, 9)),
        Call::ReplaceUntil => of_store(expiry.replace_until(rt, cache, worker, KEY, &LONG, 7, 9)),
        Call::TouchUntil => of_store(expiry.touch_until(rt, cache, worker, KEY, 7, 9)),
        _get => {
            let mut bytes = Vec::new(alloc);
            of_get(expiry.get(rt, cache, worker, KEY, 7, &mut bytes))
        }
    }
}

/// Makes the call of a row.
fn answer_of<R: Wait>(
    rt: &R,
    alloc: Global,
    cache: &Cache,
    worker: &mut Worker,
    call: Call,
    version: Stamp,
) -> Answer
    requires { BelongsTo cache.now worker.old }
    ensures { BelongsTo cache.now worker.new }
{
    match call {
        Call::Increment | Call::Append | Call::Prepend | Call::GetOrAdd => {
            answer_of_updater(rt, alloc, cache, worker, call)
        }
        Call::SetUntil
        | Call::GetUnexpired
        | Call::AddUntil
        | Call::ReplaceUntil
        | Call::TouchUntil => answer_of_expiry(rt, alloc, cache, worker, call),
        _worker => answer_of_worker(rt, alloc, cache, worker, call, version),
    }
}

/// Plays one row in a cache of its own, and looks at what the key has then.
fn play<R: Abort + Print + Wait>(rt: &R, alloc: Global, row: Row) -> Result<(), Fail> {
    let (call, name, before, after, refused) = row;
    let (cache, mut worker) = prepared(rt, alloc, before)?;
    let version = version_of(rt, alloc, &cache, &mut worker);
    print_call(rt, name);
    let answer = answer_of(rt, alloc, &cache, &mut worker, call, version);
    let wanted = if answer == Answer::NoMemory {
        print_refused(rt, name);
        refused
    } else {
        print_done(rt, name);
        after
    };
    let is_right = has(rt, alloc, &cache, &mut worker, wanted);
    assert!(rt; answer != Answer::Other, "{name} returned something else");
    assert!(rt; is_right, "the key has another value behind {name}");
    Ok(())
}

/// Plays each row.
fn play_all<R: Abort + Print + Wait>(rt: &R, alloc: Global, rows: &[Row]) -> Result<(), Fail> {
    for row in rows {
        play(rt, alloc, *row)?;
    }
    Ok(())
}

#[test]
fn calls_of_a_worker(rt: HostRuntime) -> Result<(), Fail> {
    play_all(&rt, rt.alloc(), &WORKERS)
}

#[test]
fn calls_of_an_updater(rt: HostRuntime) -> Result<(), Fail> {
    play_all(&rt, rt.alloc(), &UPDATERS)
}

#[test]
fn calls_of_an_expiry(rt: HostRuntime) -> Result<(), Fail> {
    play_all(&rt, rt.alloc(), &EXPIRIES)
}
