//! The rows of calls that try for each lock n times.
ghost use Rattle.mc_cache.specs.Resting.{RestsIn};

use super::rows::{Call, Reply, Row, Versions, found};
use mc_cache::{Cache, Deletion, Outcome, SetWithinError, TryGetError, WithinError, Worker};
use std::alloc::Global;
use std::test::Fail;

// What a call returns that found its key, or didn't.
fn done(done: Result<bool, WithinError>) -> Reply {
    match done {
        Ok(true) => Reply::Done,
        Ok(false) => Reply::Absent,
        Err(WithinError::Held) => Reply::Held,
        Err(WithinError::KeyLength) => Reply::KeyLength,
        Err(WithinError::NoMemory(_)) => Reply::Refused,
    }
}

// What a delete of a version returns.
fn deletion(done: Result<Deletion, WithinError>) -> Reply {
    match done {
        Ok(Deletion::Deleted) => Reply::Done,
        Ok(Deletion::Exists) => Reply::Exists,
        Ok(Deletion::Missing) => Reply::Missing,
        Err(WithinError::Held) => Reply::Held,
        Err(WithinError::KeyLength) => Reply::KeyLength,
        Err(WithinError::NoMemory(_)) => Reply::Refused,
    }
}

// Why a set was refused.
fn refusal(error: SetWithinError) -> Reply {
    match error {
        SetWithinError::KeyLength => Reply::KeyLength,
        SetWithinError::Item(mc_items::SetError::TooLarge) => Reply::TooLarge,
        SetWithinError::Held => Reply::Held,
        SetWithinError::Item(mc_items::SetError::NoRoom) => Reply::NoRoom,
        SetWithinError::Item(_) => Reply::Refused,
    }
}

// What a set returns.
fn set_reply(done: Result<(), SetWithinError>) -> Reply {
    match done {
        Ok(()) => Reply::Stored,
        Err(error) => refusal(error),
    }
}

// What a row's set on a condition returns.
fn store(cache: &Cache, worker: &mut Worker, row: Row, tries: u64, versions: &mut Versions) -> Reply
    requires { RestsIn cache.now worker.old }
    ensures { RestsIn cache.now worker.new }
{
    let when = versions.condition(row.0);
    match worker.set_if_within(cache, row.1, row.2, when, tries) {
        Ok(Outcome::Stored(version)) => {
            versions.note(version);
            Reply::Stored
        }
        Ok(Outcome::Exists) => Reply::Exists,
        Ok(Outcome::Missing) => Reply::Missing,
        Err(error) => refusal(error),
    }
}

// What a row's get returns. It gets the version, too, where the row asks for a value.
fn get(cache: &Cache, worker: &mut Worker, row: Row, tries: u64, bytes: &mut Vec<u8>) -> Reply
    requires { RestsIn cache.now worker.old }
    ensures { RestsIn cache.now worker.new }
{
    bytes.clear();
    match worker.get_within(cache, row.1, tries, bytes) {
        Ok(is_found) => found(is_found, bytes, row.2),
        Err(TryGetError::Held) => Reply::Held,
        Err(_refused) => Reply::Refused,
    }
}

// What a row's call returns.
fn act(
    cache: &Cache,
    worker: &mut Worker,
    row: Row,
    tries: u64,
    versions: &mut Versions,
    bytes: &mut Vec<u8>,
) -> Reply
    requires { RestsIn cache.now worker.old }
    ensures { RestsIn cache.now worker.new }
{
    match row.0 {
        Call::Set => set_reply(worker.set_within(cache, row.1, row.2, tries)),
        Call::SetOrKeep => set_reply(worker.set_or_keep_within(cache, row.1, row.2, tries)),
        Call::Get => get(cache, worker, row, tries, bytes),
        Call::Touch => done(worker.touch_within(cache, row.1, tries)),
        Call::Delete => done(worker.delete_within(cache, row.1, tries)),
        Call::DeleteLast | Call::DeleteOlder => {
            let version = versions.to_delete(row.0);
            deletion(worker.delete_version_within(cache, row.1, version, tries))
        }
        _ => store(cache, worker, row, tries, versions),
    }
}

/// Plays the rows one after another, each with its number of tries, up to the first whose call returns something else.
pub fn play_within(
    alloc: Global,
    cache: &Cache,
    worker: &mut Worker,
    rows: &[(u64, Row)],
) -> Result<(), Fail>
    requires { RestsIn cache.now worker.old }
    ensures { RestsIn cache.now worker.new }
{
    let mut versions = Versions::new();
    let mut bytes = Vec::new(alloc);
    for place in 0..rows.len() {
        let (tries, row) = rows[place];
        let reply = act(cache, worker, row, tries, &mut versions, &mut bytes);
        if reply != row.3 {
            return Err(Fail::new(row.4));
        }
    }
    Ok(())
}
