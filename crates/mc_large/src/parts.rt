//! The parts of a value: they are stored, got and deleted one after another.
ghost use Rattle.std.specs.Prelude.{◌≡◌, ◌≤◌, ◌<◌, ◌^◌, IfErr, IfOk, IfSome, Ok, Err, OnOk, true, false, length};
ghost use Rattle.mc_cache.specs.Belonging.{BelongsTo};
ghost use Rattle.mc_cache.specs.Shards.{IsKey};
ghost use Rattle.mc_cache.specs.declared.working.SetError.TheVariants as set_error;
ghost use Rattle.mc_shard.specs.declared.conditions.Outcome.TheVariants.{Stored};
ghost use Rattle.mc_update.specs.Updates.{stored_version};
ghost use Rattle.mc_large.specs.Getting.{AddsParts, BeginsWith, OnlyGetsSomeParts};
ghost use Rattle.mc_large.specs.Keys.{IsLargeKey};
ghost use Rattle.mc_large.specs.Parts.{DropsPart, DropsParts, MissesPart, RefusesPieces, SetsPiece, StoresPieces};
ghost use Rattle.mc_large.specs.Roots.{IsLargeRoot, large_root, most_large_value};

use crate::keys::part_key;
use mc_cache::{Cache, CallError, Outcome, SetError, When, Worker};
use mc_memory::{Refused, push};
use mc_stripe::Stamp;
use std::sync::Wait;

/// Stores the pieces of the value, of at most `room` bytes each, as parts, and puts their versions in the place of those that are there.
pub(crate) fn store_parts<R: Wait>(
    rt: &R,
    cache: &Cache,
    worker: &mut Worker,
    key: &[u8],
    value: &[u8],
    room: usize,
    versions: &mut Vec<Stamp>,
) -> Result<(), mc_items::SetError>
    requires belongs { BelongsTo cache.now worker.old }
    requires key { IsLargeKey key.now }
    requires room { 1 ≤ room }
    requires len { length value.now ≤ most_large_value }
    ensures belongs { BelongsTo cache.now worker.new }
    ensures stores { OnOk result (StoresPieces cache.now key.now room value.now versions.new.items
        worker.old worker.new) }
    ensures root { OnOk result (IsLargeRoot (large_root (length value.now) versions.new.items)
        (length value.now) versions.new.items) }
    ensures refused { IfErr result (λ error. RefusesPieces cache.now key.now room value.now error
        worker.old worker.new) }
{
    versions.clear();
    let mut rest = value;
    while !rest.is_empty() {
        let (piece, more) = rest.split_at(room.min(rest.len()));
        let part = part_key(key, versions.len() as u32);
        let version = match store_part(rt, cache, worker, part.as_slice(), piece) {
            Ok(version) => version,
            Err(error) => return Err(error),
        };
        rest = more;
        match push(versions, version) {
            Ok(()) => {}
            Err(refused) => return Err(mc_items::SetError::NoMemory(refused)),
        }
    }
    Ok(())
}

// Stores the piece under the part's key, whatever the key has, and returns its version.
fn store_part<R: Wait>(
    rt: &R,
    cache: &Cache,
    worker: &mut Worker,
    part: &[u8],
    piece: &[u8],
) -> Result<Stamp, mc_items::SetError>
    requires belongs { BelongsTo cache.now worker.old }
    requires key { IsKey part.now }
    ensures belongs { BelongsTo cache.now worker.new }
    ensures stores { IfOk result (λ version. SetsPiece cache.now part.now piece.now
        (Ok (Stored version)) worker.old worker.new) }
    ensures word { IfOk result (λ version. version < 2 ^ 64) }
    ensures refused { IfErr result (λ error. SetsPiece cache.now part.now piece.now
        (Err (set_error.Item error)) worker.old worker.new) }
{
    let mut when = When::Absent;
    for _ in rt.forever() {
        let outcome = match worker.set_if(rt, cache, part, piece, when) {
            Ok(outcome) => outcome,
            Err(SetError::KeyLength) => unreachable!(),
            Err(SetError::Item(error)) => return Err(error),
        };
        if let Some(version) = version_of(outcome) {
            return Ok(version);
        }
        when = condition_behind(outcome);
    }
    unreachable!()
}

// The version of what a set on a condition stored, if it did.
fn version_of(outcome: Outcome) -> Option<Stamp>
    ensures version { result ≡ stored_version outcome }
    ensures word { IfSome result (λ version. version < 2 ^ 64) }
{
    match outcome {
        Outcome::Stored(version) => Some(version),
        Outcome::Exists | Outcome::Missing => None,
    }
}

// The condition that the key meets, as far as a set on the other one found.
fn condition_behind(outcome: Outcome) -> When {
    match outcome {
        Outcome::Stored(_) | Outcome::Exists => When::Present,
        Outcome::Missing => When::Absent,
    }
}

/// Puts the pieces of the parts of these versions behind the bytes that are there, and returns whether each part is there with its version.
pub(crate) fn add_parts<R: Wait>(
    rt: &R,
    cache: &Cache,
    worker: &mut Worker,
    key: &[u8],
    versions: &[Stamp],
    into: &mut Vec<u8>,
) -> Result<bool, Refused>
    requires belongs { BelongsTo cache.now worker.old }
    requires key { IsLargeKey key.now }
    requires few { length versions.now ≤ most_large_value }
    ensures belongs { BelongsTo cache.now worker.new }
    ensures adds { result ≡ Ok true → AddsParts cache.now key.now versions.now into.old.items
        into.new.items worker.old worker.new }
    ensures misses { result ≡ Ok false →
        MissesPart cache.now key.now versions.now worker.old worker.new }
    ensures only { OnlyGetsSomeParts cache.now key.now worker.old worker.new }
    ensures grows { BeginsWith into.old.items into.new.items }
{
    for (number, version) in versions.iter().enumerate() {
        let part = part_key(key, number as u32);
        match worker.get_with_version(rt, cache, part.as_slice(), into) {
            Ok(Some(found)) => {
                if found != *version {
                    return Ok(false);
                }
            }
            Ok(None) => return Ok(false),
            Err(CallError::KeyLength) => unreachable!(),
            Err(CallError::NoMemory(refused)) => return Err(refused),
        }
    }
    Ok(true)
}

/// Deletes each part that has its version of these. A part of another version stays.
pub(crate) fn drop_parts<R: Wait>(
    rt: &R,
    cache: &Cache,
    worker: &mut Worker,
    key: &[u8],
    versions: &[Stamp],
)
    requires belongs { BelongsTo cache.now worker.old }
    requires key { IsLargeKey key.now }
    requires few { length versions.now ≤ most_large_value }
    ensures belongs { BelongsTo cache.now worker.new }
    ensures drops { DropsParts cache.now key.now 0 versions.now worker.old worker.new }
{
    for (number, version) in versions.iter().enumerate() {
        let part = part_key(key, number as u32);
        drop_part(rt, cache, worker, part.as_slice(), *version);
    }
}

// Deletes the part, if it has this version.
fn drop_part<R: Wait>(rt: &R, cache: &Cache, worker: &mut Worker, part: &[u8], version: Stamp)
    requires belongs { BelongsTo cache.now worker.old }
    requires key { IsKey part.now }
    ensures belongs { BelongsTo cache.now worker.new }
    ensures drops { DropsPart cache.now part.now version worker.old worker.new }
{
    let _deletion = worker.delete_version(rt, cache, part, version);
}
