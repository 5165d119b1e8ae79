//! The item under a hash, got by a hand that holds nothing.
ghost use Rattle.std.specs.Prelude.{◌≡◌, Err, IfOk, IfSome, None, Ok, OnErr};
ghost use Rattle.mc_words.specs.hand.Arenas.{setup_of, view};
ghost use Rattle.mc_words.specs.hand.Observers.{hand_number};
ghost use Rattle.mc_items.specs.Keeping.{StoresNothing};
ghost use Rattle.mc_shard.specs.Finding.{FindsFull, FindsItem, FindsLockTaken, FindsWords};
ghost use Rattle.mc_shard.specs.declared.try_gets.TryGetError.TheVariants as try_error;
ghost use Rattle.mc_shard.specs.Hands.{IsIdleHandOf};
ghost use Rattle.mc_shard.specs.Reading.{LeavesSlabs};
ghost use Rattle.mc_shard.specs.Recording.{RecordsGetAtMost};
ghost use Rattle.mc_shard.specs.Within.{MissesLock};

use crate::hinting::get_hinted;
use crate::hints::{HintTable, Look};
use crate::try_gets::TryGetError;
use mc_items::{GetError, Ref, hint};
use mc_memory::Refused;
use mc_words::{Arena, Hand};
use std::sync::Wait;

/// A reference to the item under the hash, if there is one. The hand holds nothing else then, so it is never refused for holding too
/// much. Where the hint of the hash leads to it, no lock is taken; else it waits for the lock of the hash's stripe, and notes the hint. The look changes
/// the mark of the item's hint.
#[inline(always)]
pub(crate) fn get_item<R: Wait>(
    rt: &R,
    arena: &Arena,
    hints: &HintTable,
    hand: &mut Hand,
    hash: u64,
    look: Look,
) -> Result<Option<Ref>, Refused>
    requires { IsIdleHandOf arena.now hand.old }
    ensures item { IfOk result (λ found. IfSome found (λ item.
        FindsItem arena.now hash item hand.old hand.new)) }
    ensures none { result ≡ Ok None → FindsWords (setup_of arena.now) hash hand.old None
        × IsIdleHandOf arena.now hand.new }
    ensures refused { OnErr result (IsIdleHandOf arena.now hand.new) }
    ensures full { OnErr result (FindsFull (setup_of arena.now) hash hand.old hand.new) }
    ensures number { hand_number hand.new ≡ hand_number hand.old }
    ensures calls { RecordsGetAtMost (setup_of arena.now) hash hand.old hand.new }
    ensures stores_nothing { StoresNothing (view hand.old) (view hand.new) }
    ensures slabs { LeavesSlabs (view hand.old) (view hand.new) }
{
    if let Some(item) = get_hinted(arena, hints, hand, hash, look) {
        return Ok(Some(item));
    }
    match mc_items::get(rt, arena, hand, hash) {
        Ok(Some(item)) => {
            hints.note_found(hash, hint(&item), look);
            Ok(Some(item))
        }
        Ok(None) => Ok(None),
        Err(GetError::NoMemory(refused)) => Err(refused),
        Err(GetError::TooManyRefs) => unreachable!(),
    }
}

/// The same as `get_item`, but refused where no hint leads to the item, and another hand has the lock of the hash's stripe. It doesn't
/// wait. (own, for memcached's `item_trylock`)
pub(crate) fn try_item(
    arena: &Arena,
    hints: &HintTable,
    hand: &mut Hand,
    hash: u64,
    look: Look,
) -> Result<Option<Ref>, TryGetError>
    requires { IsIdleHandOf arena.now hand.old }
    ensures item { IfOk result (λ found. IfSome found (λ item.
        FindsItem arena.now hash item hand.old hand.new)) }
    ensures none { result ≡ Ok None → FindsWords (setup_of arena.now) hash hand.old None
        × IsIdleHandOf arena.now hand.new }
    ensures refused { OnErr result (IsIdleHandOf arena.now hand.new) }
    ensures held { result ≡ Err try_error.Held →
        FindsLockTaken (setup_of arena.now) hash hand.old hand.new }
    ensures full { result ≡ Err (try_error.NoMemory tt) →
        FindsFull (setup_of arena.now) hash hand.old hand.new }
    ensures number { hand_number hand.new ≡ hand_number hand.old }
    ensures calls { RecordsGetAtMost (setup_of arena.now) hash hand.old hand.new }
    ensures stores_nothing { StoresNothing (view hand.old) (view hand.new) }
    ensures slabs { LeavesSlabs (view hand.old) (view hand.new) }
{
    if let Some(item) = get_hinted(arena, hints, hand, hash, look) {
        return Ok(Some(item));
    }
    match mc_items::try_get(arena, hand, hash) {
        Ok(Some(item)) => {
            hints.note_found(hash, hint(&item), look);
            Ok(Some(item))
        }
        Ok(None) => Ok(None),
        Err(mc_items::TryGetError::NoMemory(refused)) => Err(TryGetError::NoMemory(refused)),
        Err(mc_items::TryGetError::Held) => Err(TryGetError::Held),
        Err(mc_items::TryGetError::TooManyRefs) => unreachable!(),
    }
}

/// The same as `get_item`, but where no hint leads to the item, the hand tries for the lock of the hash's stripe `tries` times at most, and
/// doesn't wait. (own, for memcached's `item_trylock`)
pub(crate) fn item_within(
    arena: &Arena,
    hints: &HintTable,
    hand: &mut Hand,
    hash: u64,
    tries: u64,
    look: Look,
) -> Result<Option<Ref>, TryGetError>
    requires { IsIdleHandOf arena.now hand.old }
    ensures item { IfOk result (λ found. IfSome found (λ item.
        FindsItem arena.now hash item hand.old hand.new)) }
    ensures none { result ≡ Ok None → FindsWords (setup_of arena.now) hash hand.old None
        × IsIdleHandOf arena.now hand.new }
    ensures refused { OnErr result (IsIdleHandOf arena.now hand.new) }
    ensures held { result ≡ Err try_error.Held →
        MissesLock (setup_of arena.now) tries hash hand.old hand.new }
    ensures full { result ≡ Err (try_error.NoMemory tt) →
        FindsFull (setup_of arena.now) hash hand.old hand.new }
    ensures number { hand_number hand.new ≡ hand_number hand.old }
    ensures calls { RecordsGetAtMost (setup_of arena.now) hash hand.old hand.new }
    ensures stores_nothing { StoresNothing (view hand.old) (view hand.new) }
    ensures slabs { LeavesSlabs (view hand.old) (view hand.new) }
{
    if let Some(item) = get_hinted(arena, hints, hand, hash, look) {
        return Ok(Some(item));
    }
    match mc_items::get_within(arena, hand, hash, tries) {
        Ok(Some(item)) => {
            hints.note_found(hash, hint(&item), look);
            Ok(Some(item))
        }
        Ok(None) => Ok(None),
        Err(mc_items::TryGetError::NoMemory(refused)) => Err(TryGetError::NoMemory(refused)),
        Err(mc_items::TryGetError::Held) => Err(TryGetError::Held),
        Err(mc_items::TryGetError::TooManyRefs) => unreachable!(),
    }
}
