//! The delete of all keys of a stripe.
ghost use Rattle.std.specs.Prelude.{◌<◌, ◌≡◌, [], IfOk, OnErr, OnOk, None, Some, false, length, slice_index_or};
ghost use Rattle.mc_core.specs.model.Holdings.{has_fresh};
ghost use Rattle.mc_words.specs.hand.Arenas.{IsHandOf, setup_of, view};
ghost use Rattle.mc_words.specs.hand.Observers.{hand_number, locks_of, stripe_lent, stripe_number};
ghost use Rattle.mc_words.specs.hand.Ready.{IsReady, StaysReady};
ghost use Rattle.mc_words.specs.item.Refs.{KeepsHoldings};
ghost use Rattle.mc_words.specs.lock.Lent.{IsLentStripe};
ghost use Rattle.mc_words.specs.lock.Out.{without_stripe};
ghost use Rattle.mc_items.specs.Calls.{IsFull};
ghost use Rattle.mc_items.specs.Clearing.{ClearsBehind, ClearsStripe, DeletesSome, GivesBackEmpty, StopsBehind, StopsClearing};
ghost use Rattle.mc_items.specs.Keeping.{StoresNothing};

use mc_stripe::NoMemory;
use mc_words::{Arena, Hand, StripeHeld};
use std::sync::Wait;

/// Deletes every key of a stripe in one hold of its lock, for which it waits, and returns how many it deleted. So at the moment at which it
/// gives the lock no key of the stripe leads anywhere. Who refers to an item reads it on, until it is released. Where the stripe records calls
/// and memory for one runs out, the keys deleted so far stay deleted. (own, in the place of memcached's `flush_all`)
pub fn clear_stripe<R: Wait>(
    rt: &R,
    arena: &Arena,
    hand: &mut Hand,
    stripe: u64,
) -> Result<u64, NoMemory>
    requires arena { IsHandOf arena.now hand.old }
    requires ready { IsReady (view hand.old) }
    requires in_range { stripe < (setup_of arena.now).config.stripes }
    ensures clears { IfOk result (λ count. ClearsStripe (hand_number hand.old) stripe count
        (view hand.old) (view hand.new)) }
    ensures empty { OnOk result (GivesBackEmpty (view hand.new) stripe) }
    ensures stops { OnErr result (StopsClearing (hand_number hand.old) stripe
        (view hand.old) (view hand.new)) }
    ensures stores_nothing { StoresNothing (view hand.old) (view hand.new) }
    ensures slabs { (view hand.new).row.knows.hold.count ≡ (view hand.old).row.knows.hold.count }
    ensures holdings { KeepsHoldings (view hand.old) (view hand.new) }
    ensures hand { StaysReady arena.now hand.old hand.new }
{
    let held = arena.lock_stripe(rt, hand, stripe);
    clear_at(arena, hand, held)
}

// Deletes every key of the stripe, and gives the stripe's lock back.
pub(crate) fn clear_at(arena: &Arena, hand: &mut Hand, held: StripeHeld) -> Result<u64, NoMemory>
    requires arena { IsHandOf arena.now hand.old }
    requires lent { IsLentStripe (view hand.old) (stripe_number held) (stripe_lent held) }
    requires in_range { stripe_number held < (setup_of arena.now).config.stripes }
    requires fresh { has_fresh (view hand.old).row.holdings ≡ false }
    ensures arena { IsHandOf arena.now hand.new }
    ensures locks { locks_of hand.new ≡ without_stripe (locks_of hand.old) }
    ensures done { IfOk result (λ count. ClearsBehind (hand_number hand.old) (stripe_number held)
        (stripe_lent held) count (view hand.old) (view hand.new)) }
    ensures stops { OnErr result (StopsBehind (hand_number hand.old) (stripe_number held)
        (stripe_lent held) (view hand.old) (view hand.new)) }
{
    let mut held = held;
    match delete_keys(arena, hand, &mut held) {
        Ok(count) => {
            arena.give_stripe(hand, held);
            Ok(count)
        }
        Err(refused) => {
            arena.give_stripe(hand, held);
            Err(refused)
        }
    }
}

// Deletes every key of the stripe, whose lock the hand has, and returns how many there were.
fn delete_keys(arena: &Arena, hand: &mut Hand, held: &mut StripeHeld) -> Result<u64, NoMemory>
    requires arena { IsHandOf arena.now hand.old }
    requires lent { IsLentStripe (view hand.old) (stripe_number held.old) (stripe_lent held.old) }
    requires fresh { has_fresh (view hand.old).row.holdings ≡ false }
    ensures arena { IsHandOf arena.now hand.new }
    ensures locks { locks_of hand.new ≡ locks_of hand.old }
    ensures number { stripe_number held.new ≡ stripe_number held.old }
    ensures mine { slice_index_or (view hand.new).stripes (stripe_number held.new) None
        ≡ Some (stripe_lent held.new) }
    ensures aside { (stripe_lent held.new).state.aside ≡ None }
    ensures deletes { DeletesSome (hand_number hand.old) (stripe_number held.old)
        (stripe_lent held.old) (view hand.old) (stripe_lent held.new) (view hand.new) }
    ensures count { IfOk result (λ count. count ≡ length (stripe_lent held.old).state.index) }
    ensures empty { OnOk result ((stripe_lent held.new).state.index ≡ []) }
    ensures full { OnErr result (IsFull (stripe_lent held.new)) }
{
    let count = held.stripe().key_count();
    while let Some(key) = held.stripe().first_key() {
        arena.reserve_call(hand, held)?;
        arena.unlink(hand, held, key);
    }
    Ok(count as u64)
}
