//! Calls of a cache, each with its reply and the bytes that came with it.
ghost use Rattle.mc_cache.specs.Belonging.{BelongsTo};

use super::super::refused::list_all;
use super::call::{Call, End, ITEM_KEYS, Kind, MOST_VALUE, Reply, Scene, put_key};
use mc_cache::{Cache, CallError, Deletion, Outcome, SetError, Worker};
use mc_expiry::{Expiry, ExpiryError, StoreKind};
use mc_large::{Large, LargeCallError, LargeSetError};
use mc_stripe::Stamp;
use mc_update::{AddError, ChangeError, Source, Updater};
use std::alloc::{AllocError, Global};
use std::sync::Wait;

/// What a worker calls by, and the bytes of the call: its key, its value, and what it got.
#[derive(Drop)]
pub struct Tools {
    pub alloc: Global,
    pub first: u8,
    pub updater: Updater,
    pub expiry: Expiry,
    pub large: Large,
    pub key: Vec<u8>,
    pub value: Vec<u8>,
    pub got: Vec<u8>,
}

impl Tools {
    /// Tools of a worker whose keys have this first letter.
    pub fn new(alloc: Global, first: u8) -> Tools {
        Tools {
            alloc,
            first,
            updater: Updater::new(alloc),
            expiry: Expiry::new(alloc),
            large: Large::new(alloc),
            key: Vec::new(alloc),
            value: Vec::new(alloc),
            got: Vec::new(alloc),
        }
    }
}

fn of_item(error: mc_items::SetError) -> Reply {
    match error {
        mc_items::SetError::TooLarge => (End::TooLarge, 0),
        mc_items::SetError::NoRoom => (End::NoRoom, 0),
        _ => (End::Wrong, 0),
    }
}

fn of_set(stored: Result<(), SetError>) -> Reply {
    match stored {
        Ok(()) => (End::Done, 0),
        Err(SetError::Item(error)) => of_item(error),
        Err(_) => (End::Wrong, 0),
    }
}

fn of_outcome(outcome: Result<Outcome, SetError>) -> Reply {
    match outcome {
        Ok(Outcome::Stored(version)) => (End::Done, version),
        Ok(Outcome::Exists) => (End::Exists, 0),
        Ok(Outcome::Missing) => (End::Absent, 0),
        Err(SetError::Item(error)) => of_item(error),
        Err(_) => (End::Wrong, 0),
    }
}

fn of_look(found: Result<bool, CallError>) -> Reply {
    match found {
        Ok(true) => (End::Done, 0),
        Ok(false) => (End::Absent, 0),
        Err(_) => (End::Wrong, 0),
    }
}

/// The number is the new count, or the version of the value with the new bytes.
fn of_change(changed: Result<Option<u64>, ChangeError>) -> Reply {
    match changed {
        Ok(Some(number)) => (End::Done, number),
        Ok(None) => (End::Absent, 0),
        Err(ChangeError::NotNumber) => (End::NotNumber, 0),
        Err(ChangeError::Item(error)) => of_item(error),
        Err(_) => (End::Wrong, 0),
    }
}

fn of_store(stored: Result<Option<Stamp>, ExpiryError>) -> Reply {
    match stored {
        Ok(Some(version)) => (End::Done, version),
        Ok(None) => (End::Absent, 0),
        Err(ExpiryError::Item(error)) => of_item(error),
        Err(_) => (End::Wrong, 0),
    }
}

/// A set of the value on a condition or on none.
fn set<R: Wait>(
    rt: &R,
    cache: &Cache,
    worker: &mut Worker,
    tools: &Tools,
    kind: Kind,
    version: u64,
) -> Reply
    requires { BelongsTo cache.now worker.old }
    ensures { BelongsTo cache.now worker.new }
{
    let (key, value) = (tools.key.as_slice(), tools.value.as_slice());
    match kind {
        Kind::Set => of_set(worker.set(rt, cache, key, value)),
        Kind::SetOrKeep => of_set(worker.set_or_keep(rt, cache, key, value)),
        Kind::Add => of_outcome(worker.add(rt, cache, key, value)),
        Kind::Replace => of_outcome(worker.replace(rt, cache, key, value)),
        _ => of_outcome(worker.compare_and_set(rt, cache, key, value, version)),
    }
}

/// A get of the key, or of the key and its version.
fn get<R: Wait>(rt: &R, cache: &Cache, worker: &mut Worker, tools: &mut Tools, kind: Kind) -> Reply
    requires { BelongsTo cache.now worker.old }
    ensures { BelongsTo cache.now worker.new }
{
    match kind {
        Kind::Get => of_look(worker.get(rt, cache, &tools.key, &mut tools.got)),
        Kind::Peek => of_look(worker.peek(rt, cache, &tools.key, &mut tools.got)),
        _ => match worker.get_with_version(rt, cache, &tools.key, &mut tools.got) {
            Ok(Some(version)) => (End::Done, version),
            Ok(None) => (End::Absent, 0),
            Err(_) => (End::Wrong, 0),
        },
    }
}

/// A look at the key that returns no bytes, or a delete.
fn look<R: Wait>(
    rt: &R,
    cache: &Cache,
    worker: &mut Worker,
    key: &[u8],
    kind: Kind,
    version: u64,
) -> Reply
    requires { BelongsTo cache.now worker.old }
    ensures { BelongsTo cache.now worker.new }
{
    match kind {
        Kind::Contains => of_look(worker.contains(rt, cache, key)),
        Kind::Touch => of_look(worker.touch(rt, cache, key)),
        Kind::Delete => of_look(worker.delete(rt, cache, key)),
        _ => match worker.delete_version(rt, cache, key, version) {
            Ok(Deletion::Deleted) => (End::Done, 0),
            Ok(Deletion::Exists) => (End::Exists, 0),
            Ok(Deletion::Missing) => (End::Absent, 0),
            Err(_) => (End::Wrong, 0),
        },
    }
}

/// A get, or else an add of the value.
fn get_or_add<R: Wait>(rt: &R, cache: &Cache, worker: &mut Worker, tools: &mut Tools) -> Reply
    requires { BelongsTo cache.now worker.old }
    ensures { BelongsTo cache.now worker.new }
{
    let value = tools.value.as_slice();
    let made = |room: &mut Vec<u8>| -> Result<(), AllocError> { room.extend_from_slice(value) };
    let added = tools
        .updater
        .get_or_add(rt, cache, worker, &tools.key, made);
    match added {
        Ok(Source::Found) => (End::Exists, 0),
        Ok(Source::Added(version)) => (End::Done, version),
        Ok(Source::Unstored(error)) => of_item(error),
        Err(_) => (End::Wrong, 0),
    }
}

/// A change of the key's value.
fn update<R: Wait>(
    rt: &R,
    cache: &Cache,
    worker: &mut Worker,
    updater: &mut Updater,
    key: &[u8],
    value: &[u8],
    call: &Call,
) -> Reply
    requires { BelongsTo cache.now worker.old }
    ensures { BelongsTo cache.now worker.new }
{
    match call.kind {
        Kind::Increment => of_change(updater.increment(rt, cache, worker, key, call.by)),
        Kind::Decrement => of_change(updater.decrement(rt, cache, worker, key, call.by)),
        Kind::Append => of_change(updater.append(rt, cache, worker, key, value)),
        _ => of_change(updater.prepend(rt, cache, worker, key, value)),
    }
}

/// The reply, where the bytes are those of the updater: what is stored, or was found.
fn with_value(tools: &mut Tools, reply: Reply, kind: Kind) -> Reply {
    if reply.0 == End::Done || kind == Kind::GetOrAdd {
        _ = tools.got.extend_from_slice(tools.updater.value());
    }
    reply
}

/// A call by an expiry.
fn expire<R: Wait>(
    rt: &R,
    cache: &Cache,
    worker: &mut Worker,
    tools: &mut Tools,
    call: &Call,
) -> Reply
    requires { BelongsTo cache.now worker.old }
    ensures { BelongsTo cache.now worker.new }
{
    let (key, value) = (tools.key.as_slice(), tools.value.as_slice());
    let expiry = &mut tools.expiry;
    let kind = match call.kind {
        Kind::SetUntil => {
            return of_set(expiry.set_until(rt, cache, worker, key, value, call.deadline));
        }
        Kind::GetUnexpired => {
            let found = expiry.get(rt, cache, worker, key, call.time, &mut tools.got);
            return (of_look(found).0, expiry.lapsed());
        }
        Kind::AddUntil => StoreKind::Add(value),
        Kind::ReplaceUntil => StoreKind::Replace(value),
        _ => StoreKind::Touch,
    };
    of_store(expiry.store_until(rt, cache, worker, key, kind, call.time, call.deadline))
}

/// A set of a large value. The bytes are those of the root, if the value is in parts.
fn set_large<R: Wait>(
    rt: &R,
    cache: &Cache,
    worker: &mut Worker,
    tools: &mut Tools,
    name: &[u8],
) -> Reply
    requires { BelongsTo cache.now worker.old }
    ensures { BelongsTo cache.now worker.new }
{
    match tools.large.set(rt, cache, worker, name, &tools.value) {
        Ok(()) => {
            if tools.value.len() >= MOST_VALUE {
                let _there = worker.peek(rt, cache, &tools.key, &mut tools.got);
            }
            (End::Done, tools.got.len() as u64)
        }
        Err(LargeSetError::Item(error)) => of_item(error),
        Err(_) => (End::Wrong, 0),
    }
}

/// A call on a large value, whose key is that of its root without the first byte.
fn act_large<R: Wait>(
    rt: &R,
    cache: &Cache,
    worker: &mut Worker,
    tools: &mut Tools,
    name: &[u8],
    kind: Kind,
) -> Reply
    requires { BelongsTo cache.now worker.old }
    ensures { BelongsTo cache.now worker.new }
{
    let found = match kind {
        Kind::SetLarge => return set_large(rt, cache, worker, tools, name),
        Kind::GetLarge => tools.large.get(rt, cache, worker, name, &mut tools.got),
        _ => tools.large.delete(rt, cache, worker, name),
    };
    match found {
        Ok(true) => (End::Done, 0),
        Ok(false) => (End::Absent, 0),
        Err(_) => (End::Wrong, 0),
    }
}

/// How often each key of an item is listed. The reply has how many of them are, or of a worker alone how many keys are.
fn list_keys<R: Wait>(
    rt: &R,
    cache: &Cache,
    worker: &mut Worker,
    tools: &mut Tools,
    scene: Scene,
) -> Reply
    requires { BelongsTo cache.now worker.old }
    ensures { BelongsTo cache.now worker.new }
{
    let mut keys = Vec::new(tools.alloc);
    let listed = list_all(rt, tools.alloc, cache, worker, &mut keys);
    let count = count_each(&keys, tools);
    match listed {
        Ok(()) if scene == Scene::Alone => (End::Done, keys.len() as u64),
        Ok(()) => (End::Done, count),
        Err(_refused) => (End::Wrong, 0),
    }
}

/// Puts how often each key of an item is among the keys, and returns the sum.
fn count_each(keys: &[Vec<u8>], tools: &mut Tools) -> u64 {
    let mut all: u64 = 0;
    for number in 0..ITEM_KEYS {
        _ = put_key(tools.first, number, &mut tools.key);
        let wanted = tools.key.as_slice();
        let count = keys.iter().filter(|key| key.as_slice() == wanted).count();
        _ = tools.got.push((count % 256) as u8);
        all = all.wrapping_add(count as u64);
    }
    all
}

/// How many items the cache has, and of a worker alone the items and the bytes of each class.
fn count_classes<R: Wait>(
    rt: &R,
    cache: &Cache,
    worker: &mut Worker,
    tools: &mut Tools,
    scene: Scene,
) -> Reply
    requires { BelongsTo cache.now worker.old }
    ensures { BelongsTo cache.now worker.new }
{
    let Ok(rows) = worker.class_items(rt, tools.alloc, cache) else {
        return (End::Wrong, 0);
    };
    let mut all: u64 = 0;
    for row in &rows {
        all = all.wrapping_add(row.items);
        if scene == Scene::Alone {
            _ = tools.got.extend_from_slice(&row.items.to_le_bytes());
            _ = tools.got.extend_from_slice(&row.bytes.to_le_bytes());
        }
    }
    (End::Done, all)
}

/// A call on all keys.
fn act_whole<R: Wait>(
    rt: &R,
    cache: &Cache,
    worker: &mut Worker,
    tools: &mut Tools,
    kind: Kind,
    scene: Scene,
) -> Reply
    requires { BelongsTo cache.now worker.old }
    ensures { BelongsTo cache.now worker.new }
{
    match kind {
        Kind::Clear => match worker.clear(rt, cache) {
            Ok(count) => (End::Done, count),
            Err(_) => (End::Wrong, 0),
        },
        Kind::Keys => list_keys(rt, cache, worker, tools, scene),
        Kind::ClassItems => count_classes(rt, cache, worker, tools, scene),
        _ => (End::Done, worker.len(rt, cache)),
    }
}

/// Makes a call. The key and the value are those of the tools, and so are the bytes that it got.
pub fn act<R: Wait>(
    rt: &R,
    cache: &Cache,
    worker: &mut Worker,
    tools: &mut Tools,
    call: &Call,
    version: u64,
    scene: Scene,
) -> Reply
    requires { BelongsTo cache.now worker.old }
    ensures { BelongsTo cache.now worker.new }
{
    tools.got.clear();
    match call.kind {
        Kind::Set | Kind::SetOrKeep | Kind::Add | Kind::Replace | Kind::CompareAndSet => {
            set(rt, cache, worker, tools, call.kind, version)
        }
        Kind::Get | Kind::Peek | Kind::GetWithVersion => get(rt, cache, worker, tools, call.kind),
        Kind::Contains | Kind::Touch | Kind::Delete | Kind::DeleteVersion => {
            look(rt, cache, worker, &tools.key, call.kind, version)
        }
        Kind::Increment | Kind::Decrement | Kind::Append | Kind::Prepend => {
            let updater = &mut tools.updater;
            let reply = update(rt, cache, worker, updater, &tools.key, &tools.value, call);
            with_value(tools, reply, call.kind)
        }
        Kind::GetOrAdd => {
            let reply = get_or_add(rt, cache, worker, tools);
            with_value(tools, reply, call.kind)
        }
        Kind::SetLarge | Kind::GetLarge | Kind::DeleteLarge => {
            let name = [tools.key.get(1).copied().unwrap_or(0)];
            act_large(rt, cache, worker, tools, &name, call.kind)
        }
        Kind::Clear | Kind::Len | Kind::Keys | Kind::ClassItems => {
            act_whole(rt, cache, worker, tools, call.kind, scene)
        }
        _ => expire(rt, cache, worker, tools, call),
    }
}
