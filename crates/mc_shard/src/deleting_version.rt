//! The delete of a key's value where it has a given version.
ghost use Rattle.std.specs.Prelude.{◌≡◌, Err, Ok, OnErr, true};
ghost use Rattle.mc_words.specs.declared.hand.Hand.{Hand};
ghost use Rattle.mc_words.specs.hand.Arenas.{setup_of, view};
ghost use Rattle.mc_words.specs.hand.Observers.{hand_number};
ghost use Rattle.mc_items.specs.Keeping.{StoresNothing};
ghost use Rattle.mc_items.specs.declared.within.error.WithinError.TheVariants as within_error;
ghost use Rattle.mc_shard.specs.Deleting.{DeletesVersion, FindsNoVersion, FindsOtherVersion, MissesVersion, deletion_at_look, deletion_of, deletion_within};
ghost use Rattle.mc_shard.specs.Finding.{FindsFull};
ghost use Rattle.mc_shard.specs.Hands.{IsIdleHandOf};
ghost use Rattle.mc_shard.specs.Reading.{LeavesSlabs};
ghost use Rattle.mc_shard.specs.Recording.{RecordsDeleteBehind, RecordsGetAtMost};
ghost use Rattle.mc_shard.specs.declared.deleting_version.Deletion.TheVariants as deletion;

use crate::hints::HintTable;
use crate::label::Label;
use crate::looking::{Seen, look, look_within};
use crate::try_gets::TryGetError;
use mc_items::{
    CompareDeleteError, CompareDeleteWithinError, WithinError, compare_and_delete,
    compare_and_delete_within,
};
use mc_memory::Refused;
use mc_stripe::Stamp;
use mc_words::{Arena, Hand};
use std::sync::Wait;

/// What a delete of a version did. (memcached's `HD`, `EX` and `NF` of an `md` with the `C` flag)
#[derive(Debug, Clone, Copy, PartialEq, Eq)]
pub enum Deletion {
    /// The key's value had this version, and is deleted.
    Deleted,
    /// The key has a value of another version. Or the value of this version was replaced between the look and the delete, by this key or
    /// by another one with the same hash.
    Exists,
    /// The key has no value.
    Missing,
}

/// Deletes the key's value, where it has this version. A look comes first. Then the item is deleted only where the hash still has
/// that very item, at the moment of the delete. So neither a newer value goes, nor an item of another key with the same hash.
/// (memcached's `md` with the `C` flag, in `process_mdelete_command`)
pub fn delete_version<R: Wait>(
    rt: &R,
    arena: &Arena,
    hints: &HintTable,
    hand: &mut Hand,
    at: Label,
    version: Stamp,
) -> Result<Deletion, Refused>
    requires { IsIdleHandOf arena.now hand.old }
    ensures idle { IsIdleHandOf arena.now hand.new }
    ensures number { hand_number hand.new ≡ hand_number hand.old }
    ensures deletes { result ≡ Ok deletion.Deleted → DeletesVersion
        (setup_of arena.now) at.entry.hash at.entry.key.now version hand.old hand.new }
    ensures exists { result ≡ Ok deletion.Exists → FindsOtherVersion
        (setup_of arena.now) at.entry.hash at.entry.key.now version hand.old hand.new }
    ensures missing { result ≡ Ok deletion.Missing → FindsNoVersion
        (setup_of arena.now) at.entry.hash at.entry.key.now version hand.old hand.new }
    ensures full { OnErr result ((between : Hand)
        × FindsFull (setup_of arena.now) at.entry.hash between hand.new) }
    ensures calls { result ≡ Ok deletion.Deleted →
        RecordsDeleteBehind (setup_of arena.now) at.entry.hash true hand.old hand.new }
    ensures looks { (result ≡ Ok deletion.Deleted → ⊥) →
        RecordsGetAtMost (setup_of arena.now) at.entry.hash hand.old hand.new }
    ensures stores_nothing { StoresNothing (view hand.old) (view hand.new) }
    ensures slabs { LeavesSlabs (view hand.old) (view hand.new) }
{
    let seen = match look(rt, arena, hints, hand, at) {
        Ok(seen) => seen,
        Err(refused) => return Err(refused),
    };
    match deletion_at_look(seen, version) {
        Some(deletion) => Ok(deletion),
        None => {
            let deleted = compare_and_delete(rt, arena, hand, at.hash, version);
            deletion_of(deleted)
        }
    }
}

// What a delete of this version returns at once where this was seen under the hash; none where the look saw the version.
fn deletion_at_look(seen: Seen, version: Stamp) -> Option<Deletion>
    ensures { result ≡ deletion_at_look seen version }
{
    match seen {
        Seen::Key(stamp) if stamp == version => None,
        Seen::Key(_stamp) => Some(Deletion::Exists),
        Seen::Nothing | Seen::OtherKey(_) => Some(Deletion::Missing),
    }
}

// What a delete of a version returns whose delete of the item returned this.
fn deletion_of(deleted: Result<(), CompareDeleteError>) -> Result<Deletion, Refused>
    ensures { result ≡ deletion_of deleted }
{
    match deleted {
        Ok(()) => Ok(Deletion::Deleted),
        Err(CompareDeleteError::NoMemory(refused)) => Err(refused),
        Err(CompareDeleteError::Differs(Some(_stamp))) => Ok(Deletion::Exists),
        Err(CompareDeleteError::Differs(None)) => Ok(Deletion::Missing),
    }
}

/// The same as `delete_version`, but the hand tries for the lock of the hash's stripe `tries` times at most at the look, and as often at the
/// delete. It doesn't wait. (own)
pub fn delete_version_within(
    arena: &Arena,
    hints: &HintTable,
    hand: &mut Hand,
    at: Label,
    version: Stamp,
    tries: u64,
) -> Result<Deletion, WithinError>
    requires { IsIdleHandOf arena.now hand.old }
    ensures idle { IsIdleHandOf arena.now hand.new }
    ensures number { hand_number hand.new ≡ hand_number hand.old }
    ensures deletes { result ≡ Ok deletion.Deleted → DeletesVersion
        (setup_of arena.now) at.entry.hash at.entry.key.now version hand.old hand.new }
    ensures exists { result ≡ Ok deletion.Exists → FindsOtherVersion
        (setup_of arena.now) at.entry.hash at.entry.key.now version hand.old hand.new }
    ensures missing { result ≡ Ok deletion.Missing → FindsNoVersion
        (setup_of arena.now) at.entry.hash at.entry.key.now version hand.old hand.new }
    ensures held { result ≡ Err within_error.Held → MissesVersion
        (setup_of arena.now) tries at.entry.hash at.entry.key.now version hand.old hand.new }
    ensures full { result ≡ Err (within_error.NoMemory tt) → (between : Hand)
        × FindsFull (setup_of arena.now) at.entry.hash between hand.new }
    ensures calls { result ≡ Ok deletion.Deleted →
        RecordsDeleteBehind (setup_of arena.now) at.entry.hash true hand.old hand.new }
    ensures looks { (result ≡ Ok deletion.Deleted → ⊥) →
        RecordsGetAtMost (setup_of arena.now) at.entry.hash hand.old hand.new }
    ensures stores_nothing { StoresNothing (view hand.old) (view hand.new) }
    ensures slabs { LeavesSlabs (view hand.old) (view hand.new) }
{
    let seen = match look_within(arena, hints, hand, at, tries) {
        Ok(seen) => seen,
        Err(TryGetError::NoMemory(refused)) => return Err(WithinError::NoMemory(refused)),
        Err(TryGetError::Held) => return Err(WithinError::Held),
    };
    match deletion_at_look(seen, version) {
        Some(deletion) => Ok(deletion),
        None => {
            let deleted = compare_and_delete_within(arena, hand, at.hash, version, tries);
            deletion_within(deleted)
        }
    }
}

// What a delete of a version within n tries returns whose delete of the item returned this.
fn deletion_within(deleted: Result<(), CompareDeleteWithinError>) -> Result<Deletion, WithinError>
    ensures { result ≡ deletion_within deleted }
{
    match deleted {
        Ok(()) => Ok(Deletion::Deleted),
        Err(CompareDeleteWithinError::NoMemory(refused)) => Err(WithinError::NoMemory(refused)),
        Err(CompareDeleteWithinError::Differs(Some(_stamp))) => Ok(Deletion::Exists),
        Err(CompareDeleteWithinError::Differs(None)) => Ok(Deletion::Missing),
        Err(CompareDeleteWithinError::Held) => Err(WithinError::Held),
    }
}
