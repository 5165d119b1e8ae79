//! The call by a worker that lists the keys of a part of the cache.
ghost use Rattle.std.specs.Prelude.{◌≡◌, ◌++◌, ◌⊎◌, Ok, OnOk, true};
ghost use Rattle.mc_c.specs.Calls.{WritesValue};
ghost use Rattle.mc_c.specs.Listing.{ListsAs, entries_of, entry_of};
ghost use Rattle.mc_shard.specs.Listing.{bytes_of_keys};

use crate::calls::copy;
use crate::client::WorkerClient;
use crate::codes::{HELD, NO_MEMORY, OUT_OF_RANGE};
use mc_items::WithinError;
use mc_memory::{Refused, extend_from_slice, push};
use std::alloc::Global;

/// How many lengths fit into a byte.
const LENGTHS: usize = 256;

/// Copies the keys of a part to `out`, each behind a byte with its length, and writes how many bytes these are. Where there is too little room,
/// it writes that number alone.
pub(crate) fn keys(
    alloc: Global,
    client: &mut WorkerClient,
    shard: u64,
    stripe: u64,
    tries: u64,
    out: &mut [u8],
    len: &mut u64,
) -> u32
    ensures { ListsAs result tries shard stripe out.old len.old out.new len.new client.old
        client.new }
{
    if shard >= client.cache.shards() as u64 {
        return OUT_OF_RANGE;
    }
    if stripe >= client.cache.stripes(shard as usize) {
        return OUT_OF_RANGE;
    }
    let mut keys = Vec::new(alloc);
    let place = shard as usize;
    match client
        .worker
        .keys_within(alloc, &client.cache, place, stripe, tries, &mut keys)
    {
        Ok(()) => write(&keys, &mut client.value, out, len),
        Err(WithinError::NoMemory(_)) => NO_MEMORY,
        Err(WithinError::Held) => HELD,
    }
}

// Writes the entries of these keys if there is room for them, and how many bytes they are; nothing where there is no memory for a copy of them.
fn write(keys: &[Vec<u8>], entries: &mut Vec<u8>, out: &mut [u8], len: &mut u64) -> u32
    ensures { WritesValue (Ok true) (entries_of (bytes_of_keys keys.now)) result out.old len.old
        out.new len.new ⊎ ((result ≡ 6) × (out.new ≡ out.old) × (len.new ≡ len.old)) }
{
    entries.clear();
    match push_entries(keys, entries) {
        Ok(()) => copy(entries.as_slice(), out, len),
        Err(_) => NO_MEMORY,
    }
}

// Puts the entries of these keys behind the bytes that are there.
fn push_entries(keys: &[Vec<u8>], into: &mut Vec<u8>) -> Result<(), Refused>
    ensures { OnOk result
        (into.new.items ≡ into.old.items ++ entries_of (bytes_of_keys keys.now)) }
{
    for key in keys {
        match push_entry(key.as_slice(), into) {
            Ok(()) => {}
            Err(refused) => return Err(refused),
        }
    }
    Ok(())
}

// Puts the entry of the key behind the bytes that are there.
fn push_entry(key: &[u8], into: &mut Vec<u8>) -> Result<(), Refused>
    ensures { OnOk result (into.new.items ≡ into.old.items ++ entry_of key.now) }
{
    match push(into, (key.len() % LENGTHS) as u8) {
        Ok(()) => extend_from_slice(into, key),
        Err(refused) => Err(refused),
    }
}
