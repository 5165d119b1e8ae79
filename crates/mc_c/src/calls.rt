//! The calls of a worker: each result has its code.
ghost use Rattle.std.specs.Prelude.{◌≡◌, Ok, true};
ghost use Rattle.mc_c.specs.Calls.{DeletesAs, DeletesVersionAs, GetsAs, GetsVersionAs, ReturnsMostAs, SetsAs, SetsIfAs, SetsOrKeepsAs, TouchesAs, WritesValue};
ghost use Rattle.mc_c.specs.Codes.{deletion_code, outcome_code, set_code, within_code};

use crate::client::WorkerClient;
use crate::codes::{
    BAD_KEY, EXISTS, HELD, MISSING, NO_MEMORY, NO_ROOM, OK, TOO_LARGE, TOO_SMALL, WORN_OUT,
};
use mc_cache::{Deletion, Outcome, SetWithinError, TryGetError, When, WithinError};
use mc_items::SetError;

/// Copies the key's value to `out`, and writes its length. Where there is too little room, it writes the length alone.
pub(crate) fn get(
    client: &mut WorkerClient,
    key: &[u8],
    tries: u64,
    out: &mut [u8],
    len: &mut u64,
) -> u32
    ensures { GetsAs result tries key.now out.old len.old out.new len.new client.old client.new }
{
    client.value.clear();
    match client
        .worker
        .get_within(&client.cache, key, tries, &mut client.value)
    {
        Ok(true) => copy(client.value.as_slice(), out, len),
        Ok(false) => MISSING,
        Err(TryGetError::KeyLength) => BAD_KEY,
        Err(TryGetError::NoMemory(_)) => NO_MEMORY,
        Err(TryGetError::Held) => HELD,
    }
}

// Copies the value, if there is room for it, and writes its length.
pub(crate) fn copy(value: &[u8], out: &mut [u8], len: &mut u64) -> u32
    ensures { WritesValue (Ok true) value.now result out.old len.old out.new len.new }
{
    *len = value.len() as u64;
    if value.len() > out.len() {
        return TOO_SMALL;
    }
    out[..value.len()].copy_from_slice(value);
    OK
}

/// Stores the value under the key. Where that is refused, the key's old value is deleted.
pub(crate) fn set(client: &mut WorkerClient, key: &[u8], value: &[u8], tries: u64) -> u32
    ensures { SetsAs result tries key.now value.now client.old client.new }
{
    code_of_set(client.worker.set_within(&client.cache, key, value, tries))
}

/// Stores the value under the key. Where that is refused, the key has what it had.
pub(crate) fn set_or_keep(client: &mut WorkerClient, key: &[u8], value: &[u8], tries: u64) -> u32
    ensures { SetsOrKeepsAs result tries key.now value.now client.old client.new }
{
    let cache = &client.cache;
    code_of_set(client.worker.set_or_keep_within(cache, key, value, tries))
}

// The code of a set's result.
fn code_of_set(done: Result<(), SetWithinError>) -> u32
    ensures { result ≡ set_code done }
{
    match done {
        Ok(()) => OK,
        Err(SetWithinError::KeyLength) => BAD_KEY,
        Err(SetWithinError::Item(SetError::TooLarge)) => TOO_LARGE,
        Err(SetWithinError::Item(SetError::NoRoom)) => NO_ROOM,
        Err(SetWithinError::Item(SetError::WornOut)) => WORN_OUT,
        Err(SetWithinError::Item(SetError::NoMemory(_))) => NO_MEMORY,
        Err(SetWithinError::Held) => HELD,
    }
}

/// Stores the value under the key on a condition.
pub(crate) fn set_if(
    client: &mut WorkerClient,
    key: &[u8],
    value: &[u8],
    when: When,
    tries: u64,
) -> u32
    ensures { SetsIfAs result tries key.now value.now when client.old client.new }
{
    code_of_outcome(
        client
            .worker
            .set_if_within(&client.cache, key, value, when, tries),
    )
}

// The code of what a set on a condition did.
fn code_of_outcome(done: Result<Outcome, SetWithinError>) -> u32
    ensures { result ≡ outcome_code done }
{
    match done {
        Ok(Outcome::Stored(_version)) => OK,
        Ok(Outcome::Exists) => EXISTS,
        Ok(Outcome::Missing) => MISSING,
        Err(error) => code_of_set(Err(error)),
    }
}

/// Copies the key's value to `out`, and writes its length and its version. Where there is too little room, it writes these two alone.
pub(crate) fn get_with_version(
    client: &mut WorkerClient,
    key: &[u8],
    tries: u64,
    out: &mut [u8],
    len: &mut u64,
    version: &mut u64,
) -> u32
    ensures { GetsVersionAs result tries key.now out.old len.old version.old out.new len.new
        version.new client.old client.new }
{
    client.value.clear();
    let cache = &client.cache;
    let into = &mut client.value;
    match client
        .worker
        .get_with_version_within(cache, key, tries, into)
    {
        Ok(Some(found)) => {
            *version = found;
            copy(client.value.as_slice(), out, len)
        }
        Ok(None) => MISSING,
        Err(TryGetError::KeyLength) => BAD_KEY,
        Err(TryGetError::NoMemory(_)) => NO_MEMORY,
        Err(TryGetError::Held) => HELD,
    }
}

/// Deletes the key.
pub(crate) fn delete(client: &mut WorkerClient, key: &[u8], tries: u64) -> u32
    ensures { DeletesAs result tries key.now client.old client.new }
{
    code_of(client.worker.delete_within(&client.cache, key, tries))
}

/// Deletes the key's value, where it has this version.
pub(crate) fn delete_version(client: &mut WorkerClient, key: &[u8], version: u64, tries: u64) -> u32
    ensures { DeletesVersionAs result tries key.now version client.old client.new }
{
    let cache = &client.cache;
    let worker = &mut client.worker;
    code_of_deletion(worker.delete_version_within(cache, key, version, tries))
}

// The code of the result of a delete of a version.
fn code_of_deletion(done: Result<Deletion, WithinError>) -> u32
    ensures { result ≡ deletion_code done }
{
    match done {
        Ok(Deletion::Deleted) => OK,
        Ok(Deletion::Exists) => EXISTS,
        Ok(Deletion::Missing) => MISSING,
        Err(WithinError::KeyLength) => BAD_KEY,
        Err(WithinError::NoMemory(_)) => NO_MEMORY,
        Err(WithinError::Held) => HELD,
    }
}

/// Makes the key's item the newest of its class.
pub(crate) fn touch(client: &mut WorkerClient, key: &[u8], tries: u64) -> u32
    ensures { TouchesAs result tries key.now client.old client.new }
{
    code_of(client.worker.touch_within(&client.cache, key, tries))
}

// The code of a delete's or a touch's result.
fn code_of(done: Result<bool, WithinError>) -> u32
    ensures { result ≡ within_code done }
{
    match done {
        Ok(true) => OK,
        Ok(false) => MISSING,
        Err(WithinError::KeyLength) => BAD_KEY,
        Err(WithinError::NoMemory(_)) => NO_MEMORY,
        Err(WithinError::Held) => HELD,
    }
}

/// Writes the most bytes that a value may have beside a key of this length.
pub(crate) fn max_value(client: &mut WorkerClient, key_len: u64, most: &mut u64) -> u32
    ensures { ReturnsMostAs result key_len most.old most.new client.old client.new }
{
    match client.cache.max_value(key_len as usize) {
        Some(bytes) => {
            *most = bytes as u64;
            OK
        }
        None => TOO_LARGE,
    }
}
