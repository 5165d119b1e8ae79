//! Looks at the index of a stripe: how many keys it has, and which.
ghost use Rattle.std.specs.Prelude.{◌<◌, ◌≡◌, OnErr, OnOk};
ghost use Rattle.mc_words.specs.hand.Arenas.{IsHandOf, setup_of, view};
ghost use Rattle.mc_words.specs.hand.Observers.{locks_of, stripe_lent, stripe_number};
ghost use Rattle.mc_words.specs.hand.Ready.{IsReady, StaysReady};
ghost use Rattle.mc_words.specs.item.Refs.{KeepsHoldings};
ghost use Rattle.mc_words.specs.lock.Lent.{IsLentStripe};
ghost use Rattle.mc_words.specs.lock.Out.{without_stripe};
ghost use Rattle.mc_items.specs.Calls.{FindsStripe, RecordsNoCall};
ghost use Rattle.mc_items.specs.Keeping.{StoresNothing};
ghost use Rattle.mc_items.specs.Listing.{HasKeyCount, HasKeysPut, IsAny};
ghost use Rattle.mc_items.specs.OnKeys.{GivesBack};

use mc_memory::Refused;
use mc_words::{Arena, Hand, StripeHeld};
use std::sync::Wait;

/// Returns how many keys a stripe has, in one hold of its lock, for which it waits. No call is recorded, and nothing changes. (own)
pub fn count_stripe<R: Wait>(rt: &R, arena: &Arena, hand: &mut Hand, stripe: u64) -> u64
    requires arena { IsHandOf arena.now hand.old }
    requires ready { IsReady (view hand.old) }
    requires in_range { stripe < (setup_of arena.now).config.stripes }
    ensures counts { FindsStripe (HasKeyCount result) stripe (view hand.old) (view hand.new) }
    ensures calls { RecordsNoCall (view hand.old) (view hand.new) }
    ensures stores_nothing { StoresNothing (view hand.old) (view hand.new) }
    ensures slabs { (view hand.new).row.knows.hold.count ≡ (view hand.old).row.knows.hold.count }
    ensures holdings { KeepsHoldings (view hand.old) (view hand.new) }
    ensures hand { StaysReady arena.now hand.old hand.new }
{
    let held = arena.lock_stripe(rt, hand, stripe);
    count_at(arena, hand, held)
}

/// Puts the keys that a stripe has behind what is there, each once and in no order, in one hold of the stripe's lock, for which it waits. No call
/// is recorded, and nothing changes. Where memory is refused, nothing is put. (own)
pub fn keys_of_stripe<R: Wait>(
    rt: &R,
    arena: &Arena,
    hand: &mut Hand,
    stripe: u64,
    into: &mut Vec<u64>,
) -> Result<(), Refused>
    requires arena { IsHandOf arena.now hand.old }
    requires ready { IsReady (view hand.old) }
    requires in_range { stripe < (setup_of arena.now).config.stripes }
    ensures keys { OnOk result (FindsStripe (HasKeysPut into.old.items into.new.items) stripe
        (view hand.old) (view hand.new)) }
    ensures looks { FindsStripe IsAny stripe (view hand.old) (view hand.new) }
    ensures refused { OnErr result (into.new.items ≡ into.old.items) }
    ensures calls { RecordsNoCall (view hand.old) (view hand.new) }
    ensures stores_nothing { StoresNothing (view hand.old) (view hand.new) }
    ensures slabs { (view hand.new).row.knows.hold.count ≡ (view hand.old).row.knows.hold.count }
    ensures holdings { KeepsHoldings (view hand.old) (view hand.new) }
    ensures hand { StaysReady arena.now hand.old hand.new }
{
    let held = arena.lock_stripe(rt, hand, stripe);
    keys_at(arena, hand, held, into)
}

// Counts the keys of the stripe, and gives the stripe's lock back.
pub(crate) fn count_at(arena: &Arena, hand: &mut Hand, held: StripeHeld) -> u64
    requires arena { IsHandOf arena.now hand.old }
    requires lent { IsLentStripe (view hand.old) (stripe_number held) (stripe_lent held) }
    requires in_range { stripe_number held < (setup_of arena.now).config.stripes }
    ensures arena { IsHandOf arena.now hand.new }
    ensures locks { locks_of hand.new ≡ without_stripe (locks_of hand.old) }
    ensures count { HasKeyCount result (stripe_lent held) }
    ensures given { GivesBack hand.old held hand.new }
{
    let count = held.stripe().key_count();
    arena.give_stripe(hand, held);
    count as u64
}

// Puts the keys of the stripe behind what is there, and gives the stripe's lock back.
pub(crate) fn keys_at(
    arena: &Arena,
    hand: &mut Hand,
    held: StripeHeld,
    into: &mut Vec<u64>,
) -> Result<(), Refused>
    requires arena { IsHandOf arena.now hand.old }
    requires lent { IsLentStripe (view hand.old) (stripe_number held) (stripe_lent held) }
    requires in_range { stripe_number held < (setup_of arena.now).config.stripes }
    ensures arena { IsHandOf arena.now hand.new }
    ensures locks { locks_of hand.new ≡ without_stripe (locks_of hand.old) }
    ensures keys { OnOk result (HasKeysPut into.old.items into.new.items (stripe_lent held)) }
    ensures refused { OnErr result (into.new.items ≡ into.old.items) }
    ensures given { GivesBack hand.old held hand.new }
{
    let listed = held.stripe().keys_into(into);
    arena.give_stripe(hand, held);
    listed
}
