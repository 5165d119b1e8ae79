//! References that a hand keeps over other calls, each of which is read now and then.
ghost use Rattle.std.specs.Prelude.{◌≡◌, IfOk, IfSome, OnErr, true};
ghost use Rattle.mc_core.specs.model.State.{has_chunk};
ghost use Rattle.mc_words.specs.hand.Arenas.{setup_of, view};
ghost use Rattle.mc_words.specs.item.Refs.{HoldsTheSame, KeepsRefs};
ghost use Rattle.mc_items.specs.ItemRefs.{IsItemRef, item_chunk};
ghost use Rattle.mc_items.specs.Keeping.{HoldsToo};
ghost use Rattle.mc_words.specs.hand.Ready.{IsReadyHandOf};
ghost use Rattle.testlib_hands.specs.Hands.{IsEmptyHandOf};
ghost use Rattle.testlib_threads.specs.Keepers.{IsKeeperOf, IsNear};

use crate::races::words::are_words_of;
use mc_items::{Ref, again, get, hint, read, release, try_get};
use mc_stripe::{Key, Stamp};
use mc_words::{Again, Arena, Hand, Hint};
use std::alloc::Global;
use std::sync::Wait;

/// A call was refused.
#[derive(Clone, Copy, Drop)]
pub struct Refused;

/// A reference to the key's item, if it has one, by the call that waits for the key's stripe, or by that which doesn't.
fn item_of<R: Wait>(
    rt: &R,
    arena: &Arena,
    hand: &mut Hand,
    key: Key,
    waits: bool,
) -> Result<Option<Ref>, Refused>
    requires arena { IsReadyHandOf arena.now hand.old }
    ensures arena { IsReadyHandOf arena.now hand.new }
    ensures item { IfOk result (λ found. IfSome found (λ item. IsItemRef (view hand.new) item)) }
    ensures in_range { IfOk result (λ found. IfSome found (λ item.
        has_chunk (setup_of arena.now).table (item_chunk item) ≡ true)) }
    ensures holdings { IfOk result (λ found. HoldsToo found (view hand.old) (view hand.new)) }
    ensures no_more { OnErr result (HoldsTheSame (view hand.old) (view hand.new)) }
    ensures keeps { KeepsRefs (view hand.old) (view hand.new) }
{
    if waits {
        return match get(rt, arena, hand, key) {
            Ok(found) => Ok(found),
            Err(_) => Err(Refused),
        };
    }
    match try_get(arena, hand, key) {
        Ok(found) => Ok(found),
        Err(_) => Err(Refused),
    }
}

/// Keeps a reference to the key's item, if it has one, and gives a hint of it with its stamp.
pub fn keep_key<R: Wait>(
    rt: &R,
    arena: &Arena,
    hand: &mut Hand,
    kept: &mut Vec<Ref>,
    key: Key,
    waits: bool,
) -> Result<Option<(Hint, Stamp)>, Refused>
    requires keeper { IsKeeperOf arena.now hand.old kept.old.items }
    ensures keeper { IsKeeperOf arena.now hand.new kept.new.items }
    ensures in_range { IfOk result (λ found. IfSome found (λ note. IsNear arena.now note.0)) }
{
    let Ok(()) = kept.reserve(1) else {
        return Err(Refused);
    };
    match item_of(rt, arena, hand, key, waits) {
        Ok(Some(item)) => {
            let note = (hint(&item), item.stamp());
            kept.push_reserved(item);
            Ok(Some(note))
        }
        Ok(None) => Ok(None),
        Err(error) => Err(error),
    }
}

/// Keeps a reference to the item of a hint, if it is there still. False where an item of another stamp is there. `Contended`, too, where
/// memory ran out.
pub fn keep_again(
    arena: &Arena,
    hand: &mut Hand,
    kept: &mut Vec<Ref>,
    note: (Hint, Stamp),
) -> Result<bool, Again>
    requires keeper { IsKeeperOf arena.now hand.old kept.old.items }
    requires in_range { IsNear arena.now note.0 }
    ensures keeper { IsKeeperOf arena.now hand.new kept.new.items }
{
    let Ok(()) = kept.reserve(1) else {
        return Err(Again::Contended);
    };
    match again(arena, hand, note.0) {
        Ok(item) => {
            let is_own = item.stamp() == note.1;
            kept.push_reserved(item);
            Ok(is_own)
        }
        Err(error) => Err(error),
    }
}

/// Whether an item that is kept has the words of its key and stamp.
pub fn is_own(
    alloc: Global,
    arena: &Arena,
    hand: &mut Hand,
    kept: &[Ref],
    place: usize,
) -> Result<bool, mc_memory::Refused>
    requires keeper { IsKeeperOf arena.now hand.old kept.now }
    ensures keeper { IsKeeperOf arena.now hand.new kept.now }
{
    if place >= kept.len() {
        return Ok(true);
    }
    let item = &kept[place];
    let words = read(alloc, arena, hand, item)?;
    Ok(are_words_of(&words, item.key(), item.stamp()))
}

/// Gives a reference that is kept back.
pub fn give_back(arena: &Arena, hand: &mut Hand, kept: &mut Vec<Ref>, place: usize)
    requires keeper { IsKeeperOf arena.now hand.old kept.old.items }
    ensures keeper { IsKeeperOf arena.now hand.new kept.new.items }
{
    if place >= kept.len() {
        return;
    }
    let item = kept.remove(place);
    release(arena, hand, item);
}

/// Gives all references that are kept back.
pub fn give_all_back(arena: &Arena, hand: Hand, kept: Vec<Ref>) -> Hand
    requires keeper { IsKeeperOf arena.now hand kept.items }
    ensures hand { IsEmptyHandOf arena.now result }
{
    let mut hand = hand;
    let mut kept = kept;
    while let Some(item) = kept.pop() {
        release(arena, &mut hand, item);
    }
    hand
}
