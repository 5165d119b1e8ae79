//! The delete of a key.
ghost use Rattle.std.specs.Prelude.{◌≡◌, IfOk, OnErr, false};
ghost use Rattle.mc_core.specs.model.Holdings.{has_fresh};
ghost use Rattle.mc_words.specs.hand.Arenas.{IsHandOf, setup_of, view};
ghost use Rattle.mc_words.specs.lock.Lent.{IsLentStripe};
ghost use Rattle.mc_words.specs.hand.Observers.{locks_of, stripe_lent, stripe_number};
ghost use Rattle.mc_words.specs.lock.Out.{without_stripe};
ghost use Rattle.mc_words.specs.hand.Ready.{IsReady, StaysReady};
ghost use Rattle.mc_items.specs.Calls.{Deletes, RecordsNoCall, IsFull};
ghost use Rattle.mc_words.specs.item.Refs.{KeepsHoldings};
ghost use Rattle.mc_items.specs.Keeping.{StoresNothing};
ghost use Rattle.mc_items.specs.OnKeys.{ActsOn, DoesOn, FindsNoRoomFor, GivesBack, RecordsOn, stripe_of_key};
ghost use Rattle.mc_stripe.specs.declared.history.Call.TheVariants as call;

use mc_stripe::NoMemory;
use mc_words::{Arena, Hand, StripeHeld};
use std::sync::Wait;

/// Deletes the key, waiting for the lock of its stripe, and returns whether it had an item. Who refers to that item reads it on,
/// until it is released. At want of memory the key is as before, and no entry is written. (memcached's `item_unlink`)
pub fn delete<R: Wait>(rt: &R, arena: &Arena, hand: &mut Hand, key: u64) -> Result<bool, NoMemory>
    requires arena { IsHandOf arena.now hand.old }
    requires ready { IsReady (view hand.old) }
    ensures deletes { IfOk result (λ there. ActsOn (setup_of arena.now) key (λ number stripe.
        Deletes number stripe key there) hand.old hand.new) }
    ensures calls { IfOk result (λ there. RecordsOn (setup_of arena.now) key (λ number.
        call.Delete number key there) hand.old hand.new) }
    ensures refused { OnErr result (RecordsNoCall (view hand.old) (view hand.new)) }
    ensures no_memory { OnErr result (FindsNoRoomFor (setup_of arena.now) key hand.old hand.new) }
    ensures stores_nothing { StoresNothing (view hand.old) (view hand.new) }
    ensures holdings { KeepsHoldings (view hand.old) (view hand.new) }
    ensures hand { StaysReady arena.now hand.old hand.new }
{
    let stripe = key % arena.config().stripes;
    let held = arena.lock_stripe(rt, hand, stripe);
    delete_at(arena, hand, held, key)
}

// Deletes the key in its stripe, and gives the stripe's lock back.
pub(crate) fn delete_at(
    arena: &Arena,
    hand: &mut Hand,
    held: StripeHeld,
    key: u64,
) -> Result<bool, NoMemory>
    requires arena { IsHandOf arena.now hand.old }
    requires lent { IsLentStripe (view hand.old) (stripe_number held) (stripe_lent held) }
    requires in_range { stripe_number held ≡ stripe_of_key (setup_of arena.now) key }
    requires fresh { has_fresh (view hand.old).row.holdings ≡ false }
    ensures arena { IsHandOf arena.now hand.new }
    ensures locks { locks_of hand.new ≡ without_stripe (locks_of hand.old) }
    ensures done { IfOk result (λ there. DoesOn (λ number stripe.
        Deletes number stripe key there) hand.old held hand.new) }
    ensures given { OnErr result (GivesBack hand.old held hand.new) }
    ensures full { OnErr result (IsFull (stripe_lent held)) }
{
    let mut held = held;
    if let Err(error) = arena.reserve_call(hand, &mut held) {
        arena.give_stripe(hand, held);
        return Err(error);
    }
    let there = arena.unlink(hand, &mut held, key);
    arena.give_stripe(hand, held);
    Ok(there)
}
