//! Looks at the item under a hash: `try_get`, `contains`, and whether it is of the key.
ghost use Rattle.std.specs.Prelude.{◌≡◌, [], ◌∷◌, ◌⊎◌, Err, Ok, OnErr, false, true};
ghost use Rattle.mc_packing.specs.Packing.{IsPackingOf};
ghost use Rattle.mc_words.specs.hand.Arenas.{setup_of, view};
ghost use Rattle.mc_words.specs.hand.Observers.{hand_number};
ghost use Rattle.mc_items.specs.Calls.{RecordsNoCall};
ghost use Rattle.mc_items.specs.ItemRefs.{item_words};
ghost use Rattle.mc_items.specs.Keeping.{StoresNothing, holding_by};
ghost use Rattle.mc_shard.specs.Finding.{FindsFull, FindsKey, FindsLockTaken, FindsOtherKey, FindsSome, PutsValue, ReturnsValue};
ghost use Rattle.mc_shard.specs.declared.try_gets.TryGetError.TheVariants as try_error;
ghost use Rattle.mc_shard.specs.Hands.{IsIdleHandOf};
ghost use Rattle.mc_shard.specs.Reading.{LeavesSlabs, RefersTo};
ghost use Rattle.mc_shard.specs.Recording.{RecordsGetAtMost};

use crate::hints::{HintTable, Look};
use crate::label::Label;
use crate::lookup::{get_item, try_item};
use crate::reading::{is_of, push_value};
use mc_items::{Ref, release};
use mc_memory::Refused;
use mc_words::{Arena, Hand};
use std::sync::Wait;
use thiserror::Error;

/// Why a get that doesn't wait was refused. The bytes stay.
#[derive(Debug, PartialEq, Eq, Drop, Error)]
pub enum TryGetError {
    /// Memory was refused.
    #[error("out of memory")]
    NoMemory(Refused),
    /// Another hand has the lock of the hash's stripe.
    #[error("another hand has the lock of the hash's stripe")]
    Held,
}

/// The same as `get`, but refused where no hint leads to the item, and another hand has the lock of the hash's stripe. It doesn't
/// wait. (own)
pub fn try_get(
    arena: &Arena,
    hints: &HintTable,
    hand: &mut Hand,
    at: Label,
    into: &mut Vec<u8>,
) -> Result<bool, TryGetError>
    requires { IsIdleHandOf arena.now hand.old }
    ensures value { result ≡ Ok true →
        ReturnsValue (setup_of arena.now) at.entry.hash at.entry.key.now hand.old into.old.items
        into.new.items }
    ensures other { result ≡ Ok false →
        FindsOtherKey (setup_of arena.now) at.entry.hash at.entry.key.now hand.old }
    ensures kept { (result ≡ Ok true → ⊥) → into.new.items ≡ into.old.items }
    ensures held { result ≡ Err try_error.Held →
        FindsLockTaken (setup_of arena.now) at.entry.hash hand.old hand.new }
    ensures full { result ≡ Err (try_error.NoMemory tt) →
        FindsFull (setup_of arena.now) at.entry.hash hand.old hand.new
        ⊎ FindsSome (setup_of arena.now) at.entry.hash hand.old }
    ensures calls { RecordsGetAtMost (setup_of arena.now) at.entry.hash hand.old hand.new }
    ensures stores_nothing { StoresNothing (view hand.old) (view hand.new) }
    ensures slabs { LeavesSlabs (view hand.old) (view hand.new) }
    ensures number { hand_number hand.new ≡ hand_number hand.old }
    ensures idle { IsIdleHandOf arena.now hand.new }
{
    match try_item(arena, hints, hand, at.hash, Look::Use) {
        Ok(Some(item)) => match give_value(arena, hand, item, at.key, into) {
            Ok(there) => Ok(there),
            Err(refused) => Err(TryGetError::NoMemory(refused)),
        },
        Ok(None) => Ok(false),
        Err(TryGetError::NoMemory(refused)) => Err(TryGetError::NoMemory(refused)),
        Err(TryGetError::Held) => Err(TryGetError::Held),
    }
}

/// Whether the key has an item. It waits for the lock of the hash's stripe.
pub fn contains<R: Wait>(
    rt: &R,
    arena: &Arena,
    hints: &HintTable,
    hand: &mut Hand,
    at: Label,
) -> Result<bool, Refused>
    requires { IsIdleHandOf arena.now hand.old }
    ensures idle { IsIdleHandOf arena.now hand.new }
    ensures number { hand_number hand.new ≡ hand_number hand.old }
    ensures key { result ≡ Ok true →
        FindsKey (setup_of arena.now) at.entry.hash at.entry.key.now hand.old }
    ensures other { result ≡ Ok false →
        FindsOtherKey (setup_of arena.now) at.entry.hash at.entry.key.now hand.old }
    ensures full { OnErr result (FindsFull (setup_of arena.now) at.entry.hash hand.old hand.new) }
    ensures calls { RecordsGetAtMost (setup_of arena.now) at.entry.hash hand.old hand.new }
    ensures stores_nothing { StoresNothing (view hand.old) (view hand.new) }
    ensures slabs { LeavesSlabs (view hand.old) (view hand.new) }
{
    let Some(item) = get_item(rt, arena, hints, hand, at.hash, Look::Peek)? else {
        return Ok(false);
    };
    Ok(tell_key(arena, hand, item, at.key))
}

/// The value of an item that the hand holds, and nothing else, if it is of the key. The reference is given up, also where memory is
/// refused.
pub(crate) fn give_value(
    arena: &Arena,
    hand: &mut Hand,
    item: Ref,
    key: &[u8],
    into: &mut Vec<u8>,
) -> Result<bool, Refused>
    requires item { RefersTo arena.now item hand.old }
    requires alone { (view hand.old).row.holdings ≡ holding_by (view hand.old) item ∷ [] }
    ensures idle { IsIdleHandOf arena.now hand.new }
    ensures number { hand_number hand.new ≡ hand_number hand.old }
    ensures value { result ≡ Ok true →
        PutsValue key.now (item_words (view hand.old) item) into.old.items into.new.items }
    ensures other { result ≡ Ok false → ¬ IsPackingOf key.now (item_words (view hand.old) item) }
    ensures kept { (result ≡ Ok true → ⊥) → into.new.items ≡ into.old.items }
    ensures calls { RecordsNoCall (view hand.old) (view hand.new) }
    ensures stores_nothing { StoresNothing (view hand.old) (view hand.new) }
    ensures slabs { LeavesSlabs (view hand.old) (view hand.new) }
{
    let given = push_value(arena, hand, &item, key, into);
    release(arena, hand, item);
    given
}

// Whether an item that the hand holds, and nothing else, is of the key. The reference is given up.
pub(crate) fn tell_key(arena: &Arena, hand: &mut Hand, item: Ref, key: &[u8]) -> bool
    requires item { RefersTo arena.now item hand.old }
    requires alone { (view hand.old).row.holdings ≡ holding_by (view hand.old) item ∷ [] }
    ensures idle { IsIdleHandOf arena.now hand.new }
    ensures number { hand_number hand.new ≡ hand_number hand.old }
    ensures own { result ≡ true → IsPackingOf key.now (item_words (view hand.old) item) }
    ensures other { result ≡ false → ¬ IsPackingOf key.now (item_words (view hand.old) item) }
    ensures calls { RecordsNoCall (view hand.old) (view hand.new) }
    ensures stores_nothing { StoresNothing (view hand.old) (view hand.new) }
    ensures slabs { LeavesSlabs (view hand.old) (view hand.new) }
{
    let own = is_of(arena, hand, &item, key);
    release(arena, hand, item);
    own
}
