//! Calls on keys that try for each lock n times, and don't wait: gets, touches, deletes. (own)
ghost use Rattle.std.specs.Prelude.{◌≡◌, [], ◌∷◌, ◌⊎◌, Err, Ok, OnErr, OnOk, false, true};
ghost use Rattle.mc_packing.specs.Packing.{IsPackingOf};
ghost use Rattle.mc_words.specs.declared.hand.Hand.{Hand};
ghost use Rattle.mc_words.specs.hand.Arenas.{setup_of, view};
ghost use Rattle.mc_words.specs.hand.Observers.{hand_number};
ghost use Rattle.mc_items.specs.Calls.{RecordsNoCall};
ghost use Rattle.mc_items.specs.ItemRefs.{item_words};
ghost use Rattle.mc_items.specs.Keeping.{StoresNothing, holding_by};
ghost use Rattle.mc_items.specs.declared.within.error.WithinError.TheVariants as within_error;
ghost use Rattle.mc_shard.specs.Finding.{BumpsItem, DeletesKey, DeletesNone, FindsFull, FindsKey, FindsOtherKey, FindsSome, ReturnsValue, TouchesKey};
ghost use Rattle.mc_shard.specs.declared.try_gets.TryGetError.TheVariants as try_error;
ghost use Rattle.mc_shard.specs.Hands.{IsIdleHandOf};
ghost use Rattle.mc_shard.specs.Reading.{LeavesSlabs, RefersTo, TakesSlabsOnce};
ghost use Rattle.mc_shard.specs.Recording.{RecordsDeleteAtMost, RecordsGetAtMost};
ghost use Rattle.mc_shard.specs.Within.{MissesDelete, MissesLock, MissesKeyTouch};

use crate::hints::{HintTable, Look};
use crate::label::Label;
use crate::lookup::item_within;
use crate::reading::is_of;
use crate::try_gets::{TryGetError, give_value, tell_key};
use mc_items::{Ref, WithinError, bump_within, release};
use mc_words::{Arena, Hand, Held};

/// The same as `get`, but where no hint leads to the item, the hand tries for the lock of the hash's stripe `tries` times at most. It doesn't
/// wait. (own)
pub fn get_within(
    arena: &Arena,
    hints: &HintTable,
    hand: &mut Hand,
    at: Label,
    tries: u64,
    into: &mut Vec<u8>,
) -> Result<bool, TryGetError>
    requires { IsIdleHandOf arena.now hand.old }
    ensures value { result ≡ Ok true →
        ReturnsValue (setup_of arena.now) at.entry.hash at.entry.key.now hand.old into.old.items
        into.new.items }
    ensures other { result ≡ Ok false →
        FindsOtherKey (setup_of arena.now) at.entry.hash at.entry.key.now hand.old }
    ensures kept { (result ≡ Ok true → ⊥) → into.new.items ≡ into.old.items }
    ensures held { result ≡ Err try_error.Held →
        MissesLock (setup_of arena.now) tries at.entry.hash hand.old hand.new }
    ensures full { result ≡ Err (try_error.NoMemory tt) →
        FindsFull (setup_of arena.now) at.entry.hash hand.old hand.new
        ⊎ FindsSome (setup_of arena.now) at.entry.hash hand.old }
    ensures calls { RecordsGetAtMost (setup_of arena.now) at.entry.hash hand.old hand.new }
    ensures stores_nothing { StoresNothing (view hand.old) (view hand.new) }
    ensures slabs { LeavesSlabs (view hand.old) (view hand.new) }
    ensures number { hand_number hand.new ≡ hand_number hand.old }
    ensures idle { IsIdleHandOf arena.now hand.new }
{
    match item_within(arena, hints, hand, at.hash, tries, Look::Use) {
        Ok(Some(item)) => match give_value(arena, hand, item, at.key, into) {
            Ok(there) => Ok(there),
            Err(refused) => Err(TryGetError::NoMemory(refused)),
        },
        Ok(None) => Ok(false),
        Err(TryGetError::NoMemory(refused)) => Err(TryGetError::NoMemory(refused)),
        Err(TryGetError::Held) => Err(TryGetError::Held),
    }
}

/// The same as `contains`, but the hand tries for the lock of the hash's stripe `tries` times at most. It doesn't wait. (own)
pub fn contains_within(
    arena: &Arena,
    hints: &HintTable,
    hand: &mut Hand,
    at: Label,
    tries: u64,
) -> Result<bool, TryGetError>
    requires { IsIdleHandOf arena.now hand.old }
    ensures idle { IsIdleHandOf arena.now hand.new }
    ensures number { hand_number hand.new ≡ hand_number hand.old }
    ensures key { result ≡ Ok true →
        FindsKey (setup_of arena.now) at.entry.hash at.entry.key.now hand.old }
    ensures other { result ≡ Ok false →
        FindsOtherKey (setup_of arena.now) at.entry.hash at.entry.key.now hand.old }
    ensures held { result ≡ Err try_error.Held →
        MissesLock (setup_of arena.now) tries at.entry.hash hand.old hand.new }
    ensures full { result ≡ Err (try_error.NoMemory tt) →
        FindsFull (setup_of arena.now) at.entry.hash hand.old hand.new }
    ensures calls { RecordsGetAtMost (setup_of arena.now) at.entry.hash hand.old hand.new }
    ensures stores_nothing { StoresNothing (view hand.old) (view hand.new) }
    ensures slabs { LeavesSlabs (view hand.old) (view hand.new) }
{
    match item_within(arena, hints, hand, at.hash, tries, Look::Peek) {
        Ok(Some(item)) => Ok(tell_key(arena, hand, item, at.key)),
        Ok(None) => Ok(false),
        Err(TryGetError::NoMemory(refused)) => Err(TryGetError::NoMemory(refused)),
        Err(TryGetError::Held) => Err(TryGetError::Held),
    }
}

/// The same as `delete`, but the hand tries for the lock of the hash's stripe `tries` times at most at the look, and as often at the delete. It
/// doesn't wait. (own)
pub fn delete_within(
    arena: &Arena,
    hints: &HintTable,
    hand: &mut Hand,
    at: Label,
    tries: u64,
) -> Result<bool, WithinError>
    requires { IsIdleHandOf arena.now hand.old }
    ensures idle { IsIdleHandOf arena.now hand.new }
    ensures number { hand_number hand.new ≡ hand_number hand.old }
    ensures deletes { result ≡ Ok true →
        DeletesKey (setup_of arena.now) at.entry.hash at.entry.key.now true hand.old hand.new }
    ensures none { result ≡ Ok false →
        DeletesNone (setup_of arena.now) at.entry.hash at.entry.key.now hand.old hand.new }
    ensures held { result ≡ Err within_error.Held →
        MissesDelete (setup_of arena.now) tries at.entry.hash at.entry.key.now hand.old hand.new }
    ensures full { result ≡ Err (within_error.NoMemory tt) → (between : Hand)
        × FindsFull (setup_of arena.now) at.entry.hash between hand.new }
    ensures calls { RecordsDeleteAtMost (setup_of arena.now) at.entry.hash hand.old hand.new }
    ensures stores_nothing { StoresNothing (view hand.old) (view hand.new) }
    ensures slabs { LeavesSlabs (view hand.old) (view hand.new) }
{
    match contains_within(arena, hints, hand, at, tries) {
        Ok(true) => mc_items::delete_within(arena, hand, at.hash, tries),
        Ok(false) => Ok(false),
        Err(TryGetError::NoMemory(refused)) => Err(WithinError::NoMemory(refused)),
        Err(TryGetError::Held) => Err(WithinError::Held),
    }
}

/// The same as `touch`, but the hand tries for the lock of the hash's stripe `tries` times at most, and as often for the slabs lock. It doesn't
/// wait. Where the slabs lock is held, the key's item is as before. (own)
pub fn touch_within(
    arena: &Arena,
    hints: &HintTable,
    hand: &mut Hand,
    at: Label,
    tries: u64,
) -> Result<bool, WithinError>
    requires { IsIdleHandOf arena.now hand.old }
    ensures touches { result ≡ Ok true →
        TouchesKey (setup_of arena.now) at.entry.hash at.entry.key.now hand.old hand.new }
    ensures none { result ≡ Ok false →
        FindsOtherKey (setup_of arena.now) at.entry.hash at.entry.key.now hand.old }
    ensures held { result ≡ Err within_error.Held →
        MissesKeyTouch (setup_of arena.now) tries at.entry.hash at.entry.key.now hand.old hand.new }
    ensures full { result ≡ Err (within_error.NoMemory tt) →
        FindsFull (setup_of arena.now) at.entry.hash hand.old hand.new }
    ensures once { result ≡ Ok true → TakesSlabsOnce (view hand.old) (view hand.new) }
    ensures slabs { (result ≡ Ok true → ⊥) → LeavesSlabs (view hand.old) (view hand.new) }
    ensures calls { RecordsGetAtMost (setup_of arena.now) at.entry.hash hand.old hand.new }
    ensures stores_nothing { StoresNothing (view hand.old) (view hand.new) }
    ensures number { hand_number hand.new ≡ hand_number hand.old }
    ensures idle { IsIdleHandOf arena.now hand.new }
{
    match item_within(arena, hints, hand, at.hash, tries, Look::Peek) {
        Ok(Some(item)) => touch_own_within(arena, hand, item, at.key, tries),
        Ok(None) => Ok(false),
        Err(TryGetError::NoMemory(refused)) => Err(WithinError::NoMemory(refused)),
        Err(TryGetError::Held) => Err(WithinError::Held),
    }
}

// Whether an item that the hand holds, and nothing else, is of the key, which is touched then, if one of `tries` tries gets the slabs lock. The
// reference is given up.
fn touch_own_within(
    arena: &Arena,
    hand: &mut Hand,
    item: Ref,
    key: &[u8],
    tries: u64,
) -> Result<bool, WithinError>
    requires item { RefersTo arena.now item hand.old }
    requires alone { (view hand.old).row.holdings ≡ holding_by (view hand.old) item ∷ [] }
    ensures own { result ≡ Ok true → IsPackingOf key.now (item_words (view hand.old) item) }
    ensures held { OnErr result (IsPackingOf key.now (item_words (view hand.old) item)) }
    ensures memory { result ≡ Err (within_error.NoMemory tt) → ⊥ }
    ensures bumps { result ≡ Ok true → BumpsItem (hand_number hand.old) item hand.new }
    ensures once { result ≡ Ok true → TakesSlabsOnce (view hand.old) (view hand.new) }
    ensures slabs { (result ≡ Ok true → ⊥) → LeavesSlabs (view hand.old) (view hand.new) }
    ensures other { result ≡ Ok false → ¬ IsPackingOf key.now (item_words (view hand.old) item) }
    ensures calls { RecordsNoCall (view hand.old) (view hand.new) }
    ensures stores_nothing { StoresNothing (view hand.old) (view hand.new) }
    ensures number { hand_number hand.new ≡ hand_number hand.old }
    ensures idle { IsIdleHandOf arena.now hand.new }
{
    if !is_of(arena, hand, &item, key) {
        release(arena, hand, item);
        return Ok(false);
    }
    match let_go_within(arena, hand, item, tries) {
        Ok(()) => Ok(true),
        Err(_) => Err(WithinError::Held),
    }
}

// Makes the item of the only reference of a hand the newest of its class, if one of `tries` tries gets the slabs lock, and gives the reference
// up.
fn let_go_within(arena: &Arena, hand: &mut Hand, item: Ref, tries: u64) -> Result<(), Held>
    requires item { RefersTo arena.now item hand.old }
    requires alone { (view hand.old).row.holdings ≡ holding_by (view hand.old) item ∷ [] }
    ensures bumps { OnOk result (BumpsItem (hand_number hand.old) item hand.new) }
    ensures once { OnOk result (TakesSlabsOnce (view hand.old) (view hand.new)) }
    ensures slabs { OnErr result (LeavesSlabs (view hand.old) (view hand.new)) }
    ensures calls { RecordsNoCall (view hand.old) (view hand.new) }
    ensures stores_nothing { StoresNothing (view hand.old) (view hand.new) }
    ensures number { hand_number hand.new ≡ hand_number hand.old }
    ensures idle { IsIdleHandOf arena.now hand.new }
{
    match bump_within(arena, hand, &item, tries) {
        Ok(()) => {
            release(arena, hand, item);
            Ok(())
        }
        Err(error) => {
            release(arena, hand, item);
            Err(error)
        }
    }
}
