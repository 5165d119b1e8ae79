//! Calls on values of up to 1 MiB that are refused memory: what each returns, and what its key has then.
ghost use Rattle.mc_cache.specs.Belonging.{BelongsTo};

use super::super::made::KEY;
use super::{Answer, LONG, made};
use mc_cache::{Cache, Worker};
use mc_large::{Large, LargeCallError, LargeSetError};
use std::alloc::Global;
use std::process::Abort;
use std::sync::Wait;
use std::test::Fail;
use testlib_values::{print_call, print_done, print_refused};

/// A value in three parts, where a chunk has 1,024 bytes.
const WHOLE: [u8; 2000] = [b'y'; 2000];

/// Another one, of two parts.
const OLD: [u8; 1500] = [b'z'; 1500];

/// A call on the key.
#[derive(Clone, Copy)]
enum Call {
    /// A set of a value that its root has room for.
    SetInRoot,
    SetInParts,
    Get,
    Delete,
}

/// A call with its name, and what the key has before it, behind it, and where memory was refused to it.
type Row<'a> = (
    Call,
    &'static str,
    Option<&'a [u8]>,
    Option<&'a [u8]>,
    Option<&'a [u8]>,
);

/// The calls on values in roots and in parts.
const ROWS: [Row<'static>; 6] = [
    (
        Call::SetInRoot,
        "set_in_root",
        Some(&OLD),
        Some(&LONG),
        None,
    ),
    (
        Call::SetInParts,
        "set_in_parts",
        Some(&OLD),
        Some(&WHOLE),
        None,
    ),
    (
        Call::Get,
        "get_from_root",
        Some(&LONG),
        Some(&LONG),
        Some(&LONG),
    ),
    (
        Call::Get,
        "get_from_parts",
        Some(&WHOLE),
        Some(&WHOLE),
        Some(&WHOLE),
    ),
    (Call::Delete, "delete_root", Some(&LONG), None, Some(&LONG)),
    (
        Call::Delete,
        "delete_parts",
        Some(&WHOLE),
        None,
        Some(&WHOLE),
    ),
];

fn of_set(stored: Result<(), LargeSetError>) -> Answer {
    match stored {
        Ok(()) => Answer::Done,
        Err(LargeSetError::Item(mc_items::SetError::NoMemory(_refused))) => Answer::NoMemory,
        Err(_error) => Answer::Other,
    }
}

fn of_call(found: Result<bool, LargeCallError>) -> Answer {
    match found {
        Ok(true) => Answer::Done,
        Err(LargeCallError::NoMemory(_refused)) => Answer::NoMemory,
        _other => Answer::Other,
    }
}

/// Stores the key's first value. A store that is refused memory is made again.
fn store_first<R: Wait>(
    rt: &R,
    alloc: Global,
    cache: &Cache,
    worker: &mut Worker,
    before: Option<&[u8]>,
)
    requires { BelongsTo cache.now worker.old }
    ensures { BelongsTo cache.now worker.new }
{
    let mut large = Large::new(alloc);
    if let Some(value) = before {
        let stored = large.set(rt, cache, worker, KEY, value);
        if stored.is_err() {
            let _again = large.set(rt, cache, worker, KEY, value);
        }
    }
}

/// What a call returns, by a `Large` without room.
fn answer_of<R: Wait>(
    rt: &R,
    alloc: Global,
    cache: &Cache,
    worker: &mut Worker,
    call: Call,
) -> Answer
    requires { BelongsTo cache.now worker.old }
    ensures { BelongsTo cache.now worker.new }
{
    let mut large = Large::new(alloc);
    match call {
        Call::SetInRoot => of_set(large.set(rt, cache, worker, KEY, &LONG)),
        Call::SetInParts => of_set(large.set(rt, cache, worker, KEY, &WHOLE)),
        Call::Get => {
            let mut bytes = Vec::new(alloc);
            of_call(large.get(rt, cache, worker, KEY, &mut bytes))
        }
        Call::Delete => of_call(large.delete(rt, cache, worker, KEY)),
    }
}

/// Whether the key was looked up, and has a value: what is wanted, or none. A look that is refused memory is made again.
fn has<R: Wait>(
    rt: &R,
    alloc: Global,
    cache: &Cache,
    worker: &mut Worker,
    wanted: Option<&[u8]>,
) -> bool
    requires { BelongsTo cache.now worker.old }
{
    let mut large = Large::new(alloc);
    let mut bytes = Vec::new(alloc);
    let mut found = large.get(rt, cache, worker, KEY, &mut bytes);
    if found.is_err() {
        found = large.get(rt, cache, worker, KEY, &mut bytes);
    }
    match wanted {
        Some(wanted) => found == Ok(true) && bytes.as_slice() == wanted,
        None => found == Ok(false),
    }
}

/// Plays one row in a cache of its own, and looks at what the key has then.
fn play<R: Abort + Print + Wait>(rt: &R, alloc: Global, row: Row) -> Result<(), Fail> {
    let (call, name, before, after, refused) = row;
    let (cache, mut worker) = made(rt, alloc)?;
    store_first(rt, alloc, &cache, &mut worker, before);
    print_call(rt, name);
    let answer = answer_of(rt, alloc, &cache, &mut worker, call);
    let wanted = if answer == Answer::NoMemory {
        print_refused(rt, name);
        refused
    } else {
        print_done(rt, name);
        after
    };
    let is_right = has(rt, alloc, &cache, &mut worker, wanted);
    assert!(rt; answer != Answer::Other, "{name} returned something else");
    assert!(rt; is_right, "the key has another value behind {name}");
    Ok(())
}

#[test]
fn calls_on_large_values(rt: HostRuntime) -> Result<(), Fail> {
    for row in &ROWS {
        play(&rt, rt.alloc(), *row)?;
    }
    Ok(())
}
