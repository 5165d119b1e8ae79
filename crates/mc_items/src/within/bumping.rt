//! Items that are made the newest of their class, by a reference, with n tries for the lock of the slabs.
ghost use Rattle.std.specs.Prelude.{◌≡◌, OnErr, OnOk, true};
ghost use Rattle.mc_words.specs.hand.Arenas.{IsHandOf, view};
ghost use Rattle.mc_words.specs.hand.Idle.{is_unlocked};
ghost use Rattle.mc_words.specs.hand.Observers.{locks_of, hand_number, ref_chunk, ref_room};
ghost use Rattle.mc_words.specs.hand.Ready.{IsReady, StaysReady};
ghost use Rattle.mc_words.specs.item.Refs.{IsRefOf, KeepsHoldings};
ghost use Rattle.mc_words.specs.lock.Doing.{HoldsSlabs};
ghost use Rattle.mc_words.specs.lock.Wait.{MissesSlabsEachTime};
ghost use Rattle.mc_items.specs.Calls.{Bumps, RecordsNoCall};
ghost use Rattle.mc_items.specs.ItemRefs.{IsItemRef, item_chunk, item_words};
ghost use Rattle.mc_items.specs.Keeping.{StoresNothing};

use crate::refs::Ref;
use mc_words::{Arena, Hand, Held};

/// The same as `bump`, but it tries for the slabs lock `tries` times at most, and doesn't wait. `Held` where each try missed: the item isn't
/// moved then. (own)
pub fn bump_within(arena: &Arena, hand: &mut Hand, item: &Ref, tries: u64) -> Result<(), Held>
    requires arena { IsHandOf arena.now hand.old }
    requires ready { IsReady (view hand.old) }
    requires item { IsItemRef (view hand.old) item.now }
    ensures item { IsItemRef (view hand.new) item.now }
    ensures bumps { OnOk result (HoldsSlabs (Bumps (hand_number hand.old) (item_chunk item.now))
        (view hand.old) (view hand.new)) }
    ensures held { OnErr result (MissesSlabsEachTime tries (view hand.old) (view hand.new)) }
    ensures words { item_words (view hand.new) item.now ≡ item_words (view hand.old) item.now }
    ensures calls { RecordsNoCall (view hand.old) (view hand.new) }
    ensures stores_nothing { StoresNothing (view hand.old) (view hand.new) }
    ensures holdings { KeepsHoldings (view hand.old) (view hand.new) }
    ensures hand { StaysReady arena.now hand.old hand.new }
{
    bump_chunk_within(arena, hand, &item.reference, tries)
}

// Makes the chunk that is referred to the one of its class that is evicted last, where one of `tries` tries gets the slabs lock.
pub(crate) fn bump_chunk_within(
    arena: &Arena,
    hand: &mut Hand,
    reference: &mc_words::Ref,
    tries: u64,
) -> Result<(), Held>
    requires arena { IsHandOf arena.now hand.old }
    requires unlocked { is_unlocked (view hand.old) ≡ true }
    requires reference { IsRefOf (view hand.old) (ref_chunk reference.now)
        (ref_room reference.now) }
    ensures arena { IsHandOf arena.now hand.new }
    ensures locks { locks_of hand.new ≡ locks_of hand.old }
    ensures bumps { OnOk result (HoldsSlabs (Bumps (hand_number hand.old)
        (ref_chunk reference.now)) (view hand.old) (view hand.new)) }
    ensures missed { OnErr result (MissesSlabsEachTime tries (view hand.old) (view hand.new)) }
{
    let Ok(held) = arena.slabs_within(hand, tries) else {
        return Err(Held);
    };
    let mut slabs = held;
    arena.touch(hand, &mut slabs, reference.chunk());
    arena.give_slabs(hand, slabs);
    Ok(())
}
