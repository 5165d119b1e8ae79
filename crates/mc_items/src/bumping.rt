//! Items that are made the newest of their class, by a reference.
ghost use Rattle.std.specs.Prelude.{◌≡◌, true};
ghost use Rattle.mc_words.specs.hand.Arenas.{IsHandOf, view};
ghost use Rattle.mc_words.specs.hand.Idle.{is_unlocked};
ghost use Rattle.mc_words.specs.hand.Observers.{locks_of, hand_number, ref_chunk, ref_room};
ghost use Rattle.mc_words.specs.hand.Ready.{IsReady, StaysReady};
ghost use Rattle.mc_words.specs.item.Refs.{IsRefOf, KeepsHoldings};
ghost use Rattle.mc_words.specs.lock.Doing.{HoldsSlabs};
ghost use Rattle.mc_items.specs.Calls.{Bumps, RecordsNoCall};
ghost use Rattle.mc_items.specs.ItemRefs.{IsItemRef, item_chunk, item_words};
ghost use Rattle.mc_items.specs.Keeping.{StoresNothing};

use crate::refs::Ref;
use mc_words::{Arena, Hand};
use std::sync::Wait;

/// Makes the item the one of its class that is evicted last, whether or not its key leads to it still. It waits for the slabs
/// lock and for no other, takes no memory, records no call, and the reference stays. (memcached's `do_item_bump`)
pub fn bump<R: Wait>(rt: &R, arena: &Arena, hand: &mut Hand, item: &Ref)
    requires arena { IsHandOf arena.now hand.old }
    requires ready { IsReady (view hand.old) }
    requires item { IsItemRef (view hand.old) item.now }
    ensures item { IsItemRef (view hand.new) item.now }
    ensures bumps { HoldsSlabs (Bumps (hand_number hand.old) (item_chunk item.now)) (view hand.old)
        (view hand.new) }
    ensures words { item_words (view hand.new) item.now ≡ item_words (view hand.old) item.now }
    ensures calls { RecordsNoCall (view hand.old) (view hand.new) }
    ensures stores_nothing { StoresNothing (view hand.old) (view hand.new) }
    ensures holdings { KeepsHoldings (view hand.old) (view hand.new) }
    ensures hand { StaysReady arena.now hand.old hand.new }
{
    bump_chunk(rt, arena, hand, &item.reference);
}

// Makes the chunk that is referred to the one of its class that is evicted last.
pub(crate) fn bump_chunk<R: Wait>(rt: &R, arena: &Arena, hand: &mut Hand, reference: &mc_words::Ref)
    requires arena { IsHandOf arena.now hand.old }
    requires unlocked { is_unlocked (view hand.old) ≡ true }
    requires reference { IsRefOf (view hand.old) (ref_chunk reference.now)
        (ref_room reference.now) }
    ensures arena { IsHandOf arena.now hand.new }
    ensures locks { locks_of hand.new ≡ locks_of hand.old }
    ensures bumps { HoldsSlabs (Bumps (hand_number hand.old) (ref_chunk reference.now))
        (view hand.old) (view hand.new) }
{
    let mut slabs = arena.lock_slabs(rt, hand);
    arena.touch(hand, &mut slabs, reference.chunk());
    arena.give_slabs(hand, slabs);
}
