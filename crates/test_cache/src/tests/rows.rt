//! Rows of calls of one worker, each with what it has to return.
ghost use Rattle.mc_cache.specs.Belonging.{BelongsTo};

use mc_cache::{Cache, CallError, Deletion, Outcome, SetError, When, Worker};
use std::alloc::Global;
use std::sync::Wait;
use std::test::Fail;

/// A call on a key.
#[derive(Clone, Copy)]
pub enum Call {
    Set,
    SetOrKeep,
    Add,
    Replace,
    /// A set over the last version that a call of these rows stored.
    OverLast,
    /// A set over the version before that one.
    OverOlder,
    Get,
    Touch,
    Delete,
    /// A delete of the last version that a call of these rows stored.
    DeleteLast,
    /// A delete of the version before that one.
    DeleteOlder,
}

/// What a call returns.
#[derive(Clone, Copy, PartialEq, Eq)]
pub enum Reply {
    Stored,
    Exists,
    Missing,
    /// The row's value is found, or the key was touched or deleted.
    Done,
    /// Another value is found.
    Other,
    /// The key has no value.
    Absent,
    /// Another hand had a lock at each try.
    Held,
    KeyLength,
    TooLarge,
    NoRoom,
    /// The call is refused for another reason.
    Refused,
}

/// A call, its key, the value that it stores or finds, its reply, and what is wrong at another reply.
pub type Row<'a> = (Call, &'a [u8], &'a [u8], Reply, &'a str);

/// The last two versions that calls stored.
#[derive(Clone, Copy)]
pub struct Versions {
    last: u64,
    older: u64,
}

impl Versions {
    /// None was stored yet.
    pub fn new() -> Versions {
        Versions { last: 0, older: 0 }
    }

    /// A call stored this version.
    pub fn note(&mut self, version: u64) {
        self.older = self.last;
        self.last = version;
    }

    /// The condition of a set that isn't an add or a replace.
    pub fn condition(self, call: Call) -> When {
        match call {
            Call::Add => When::Absent,
            Call::Replace => When::Present,
            Call::OverOlder => When::Version(self.older),
            _ => When::Version(self.last),
        }
    }

    /// The version that a delete of a version names.
    pub fn to_delete(self, call: Call) -> u64 {
        match call {
            Call::DeleteOlder => self.older,
            _ => self.last,
        }
    }
}

/// What is found under a key whose value has to be this one.
pub fn found(found: bool, bytes: &[u8], value: &[u8]) -> Reply {
    if !found {
        Reply::Absent
    } else if bytes == value {
        Reply::Done
    } else {
        Reply::Other
    }
}

// What a call returns that found its key, or didn't.
fn done(done: Result<bool, CallError>) -> Reply {
    match done {
        Ok(true) => Reply::Done,
        Ok(false) => Reply::Absent,
        Err(CallError::KeyLength) => Reply::KeyLength,
        Err(CallError::NoMemory(_)) => Reply::Refused,
    }
}

// What a delete of a version returns.
fn deletion(done: Result<Deletion, CallError>) -> Reply {
    match done {
        Ok(Deletion::Deleted) => Reply::Done,
        Ok(Deletion::Exists) => Reply::Exists,
        Ok(Deletion::Missing) => Reply::Missing,
        Err(CallError::KeyLength) => Reply::KeyLength,
        Err(CallError::NoMemory(_)) => Reply::Refused,
    }
}

// Why a set was refused.
fn refusal(error: SetError) -> Reply {
    match error {
        SetError::KeyLength => Reply::KeyLength,
        SetError::Item(mc_items::SetError::TooLarge) => Reply::TooLarge,
        SetError::Item(mc_items::SetError::NoRoom) => Reply::NoRoom,
        SetError::Item(_) => Reply::Refused,
    }
}

// What a set returns.
fn set_reply(done: Result<(), SetError>) -> Reply {
    match done {
        Ok(()) => Reply::Stored,
        Err(error) => refusal(error),
    }
}

// The set of a row that has a condition.
fn set_if<R: Wait>(
    rt: &R,
    cache: &Cache,
    worker: &mut Worker,
    row: Row,
    versions: Versions,
) -> Result<Outcome, SetError>
    requires { BelongsTo cache.now worker.old }
    ensures { BelongsTo cache.now worker.new }
{
    let (call, key, value, _reply, _wrong) = row;
    match call {
        Call::Add => worker.add(rt, cache, key, value),
        Call::Replace => worker.replace(rt, cache, key, value),
        Call::OverOlder => worker.compare_and_set(rt, cache, key, value, versions.older),
        _ => worker.compare_and_set(rt, cache, key, value, versions.last),
    }
}

// What a row's set returns.
fn store<R: Wait>(
    rt: &R,
    cache: &Cache,
    worker: &mut Worker,
    row: Row,
    versions: &mut Versions,
) -> Reply
    requires { BelongsTo cache.now worker.old }
    ensures { BelongsTo cache.now worker.new }
{
    match set_if(rt, cache, worker, row, *versions) {
        Ok(Outcome::Stored(version)) => {
            versions.note(version);
            Reply::Stored
        }
        Ok(Outcome::Exists) => Reply::Exists,
        Ok(Outcome::Missing) => Reply::Missing,
        Err(error) => refusal(error),
    }
}

// What a row's get returns.
fn get<R: Wait>(rt: &R, cache: &Cache, worker: &mut Worker, row: Row, bytes: &mut Vec<u8>) -> Reply
    requires { BelongsTo cache.now worker.old }
    ensures { BelongsTo cache.now worker.new }
{
    bytes.clear();
    match worker.get(rt, cache, row.1, bytes) {
        Ok(is_found) => found(is_found, bytes, row.2),
        Err(_refused) => Reply::Refused,
    }
}

// What a row's call returns.
fn act<R: Wait>(
    rt: &R,
    cache: &Cache,
    worker: &mut Worker,
    row: Row,
    versions: &mut Versions,
    bytes: &mut Vec<u8>,
) -> Reply
    requires { BelongsTo cache.now worker.old }
    ensures { BelongsTo cache.now worker.new }
{
    match row.0 {
        Call::Set => set_reply(worker.set(rt, cache, row.1, row.2)),
        Call::SetOrKeep => set_reply(worker.set_or_keep(rt, cache, row.1, row.2)),
        Call::Get => get(rt, cache, worker, row, bytes),
        Call::Touch => done(worker.touch(rt, cache, row.1)),
        Call::Delete => done(worker.delete(rt, cache, row.1)),
        Call::DeleteLast | Call::DeleteOlder => {
            deletion(worker.delete_version(rt, cache, row.1, versions.to_delete(row.0)))
        }
        _ => store(rt, cache, worker, row, versions),
    }
}

/// Plays the rows one after another, up to the first whose call returns something else.
pub fn play<R: Wait>(
    rt: &R,
    alloc: Global,
    cache: &Cache,
    worker: &mut Worker,
    rows: &[Row],
) -> Result<(), Fail>
    requires { BelongsTo cache.now worker.old }
    ensures { BelongsTo cache.now worker.new }
{
    let mut versions = Versions::new();
    let mut bytes = Vec::new(alloc);
    for place in 0..rows.len() {
        let row = rows[place];
        let reply = act(rt, cache, worker, row, &mut versions, &mut bytes);
        if reply != row.3 {
            return Err(Fail::new(row.4));
        }
    }
    Ok(())
}
