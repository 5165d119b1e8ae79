//! Calls on keys that try for each lock n times, by a caller that can't wait.
ghost use Rattle.std.specs.Prelude.{IfOk, OnErr};
ghost use Rattle.mc_words.specs.hand.Arenas.{setup_of, view};
ghost use Rattle.mc_words.specs.hand.Ready.{IsReadyHandOf};
ghost use Rattle.mc_words.specs.item.Refs.{KeepsHoldings, KeepsRefs};
ghost use Rattle.mc_items.specs.Calls.{RecordsNoCall};
ghost use Rattle.mc_items.specs.Keeping.{KeepsHoldingCounts, StoresNothing};
ghost use Rattle.mc_items.specs.OnKeys.{RecordsOn};
ghost use Rattle.mc_stripe.specs.declared.history.Call.TheVariants as call;

use mc_items::{
    TryGetError, WithinError, bump_within, delete_within, get_within, read, release, touch_within,
};
use mc_stripe::Key;
use mc_words::{Arena, Hand};
use std::alloc::Global;

/// The words of the key's item, if it has one. Where the slabs lock comes within n tries, the item becomes the newest of its class; else it
/// stays where it is. The reference is given up on each way out.
pub fn read_within(
    alloc: Global,
    arena: &Arena,
    hand: &mut Hand,
    key: Key,
    tries: u64,
) -> Result<Option<Vec<u64>>, TryGetError>
    requires { IsReadyHandOf arena.now hand.old }
    ensures ready { IsReadyHandOf arena.now hand.new }
    ensures keeps { KeepsRefs (view hand.old) (view hand.new) }
    ensures stores_nothing { StoresNothing (view hand.old) (view hand.new) }
{
    let item = match get_within(arena, hand, key, tries) {
        Ok(Some(item)) => item,
        Ok(None) => return Ok(None),
        Err(error) => return Err(error),
    };
    let _ = bump_within(arena, hand, &item, tries);
    let words = read(alloc, arena, hand, &item);
    release(arena, hand, item);
    match words {
        Ok(words) => Ok(Some(words)),
        Err(refused) => Err(TryGetError::NoMemory(refused)),
    }
}

/// Deletes a key with one try for its lock, and where that missed with as many as are named. The hand's history has one delete then, and at
/// a refusal none.
pub fn delete_at_second_try(
    arena: &Arena,
    hand: &mut Hand,
    key: Key,
    tries: u64,
) -> Result<bool, WithinError>
    requires { IsReadyHandOf arena.now hand.old }
    ensures ready { IsReadyHandOf arena.now hand.new }
    ensures calls { IfOk result (λ there. RecordsOn (setup_of arena.now) key (λ number.
        call.Delete number key there) hand.old hand.new) }
    ensures refused { OnErr result (RecordsNoCall (view hand.old) (view hand.new)) }
    ensures holdings { KeepsHoldings (view hand.old) (view hand.new) }
{
    match delete_within(arena, hand, key, 1) {
        Err(WithinError::Held) => delete_within(arena, hand, key, tries),
        answer => answer,
    }
}

/// Touches a key with one try for each of its locks, and where one missed with as many as are named. The hand holds what it held, also
/// where the first try got the item and didn't move it.
pub fn touch_at_second_try(
    arena: &Arena,
    hand: &mut Hand,
    key: Key,
    tries: u64,
) -> Result<bool, WithinError>
    requires { IsReadyHandOf arena.now hand.old }
    ensures ready { IsReadyHandOf arena.now hand.new }
    ensures holdings { KeepsHoldingCounts (view hand.old) (view hand.new) }
    ensures stores_nothing { StoresNothing (view hand.old) (view hand.new) }
{
    match touch_within(arena, hand, key, 1) {
        Err(WithinError::Held) => touch_within(arena, hand, key, tries),
        answer => answer,
    }
}
