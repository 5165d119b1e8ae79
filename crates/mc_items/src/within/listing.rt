//! Looks at the index of a stripe, for whose lock a hand tries n times.
ghost use Rattle.std.specs.Prelude.{◌<◌, ◌≡◌, Err, IfOk, OnErr, OnOk};
ghost use Rattle.mc_words.specs.hand.Arenas.{IsHandOf, setup_of, view};
ghost use Rattle.mc_words.specs.hand.Ready.{IsReady, StaysReady};
ghost use Rattle.mc_words.specs.item.Refs.{KeepsHoldings};
ghost use Rattle.mc_words.specs.lock.Wait.{MissesStripeEachTime};
ghost use Rattle.mc_items.specs.Calls.{FindsStripe, RecordsNoCall};
ghost use Rattle.mc_items.specs.Keeping.{StoresNothing};
ghost use Rattle.mc_items.specs.Listing.{HasKeyCount, HasKeysPut, IsAny};

use crate::listing::{count_at, keys_at};
use crate::within::error::WithinError;
use mc_words::{Arena, Hand, Held};

/// The same as `count_stripe`, but it tries for the stripe's lock `tries` times at most, and doesn't wait. `Held` where each try missed. (own)
pub fn count_stripe_within(
    arena: &Arena,
    hand: &mut Hand,
    stripe: u64,
    tries: u64,
) -> Result<u64, Held>
    requires arena { IsHandOf arena.now hand.old }
    requires ready { IsReady (view hand.old) }
    requires in_range { stripe < (setup_of arena.now).config.stripes }
    ensures counts { IfOk result (λ count. FindsStripe (HasKeyCount count) stripe
        (view hand.old) (view hand.new)) }
    ensures held { OnErr result (MissesStripeEachTime tries stripe (view hand.old)
        (view hand.new)) }
    ensures calls { RecordsNoCall (view hand.old) (view hand.new) }
    ensures stores_nothing { StoresNothing (view hand.old) (view hand.new) }
    ensures slabs { (view hand.new).row.knows.hold.count ≡ (view hand.old).row.knows.hold.count }
    ensures holdings { KeepsHoldings (view hand.old) (view hand.new) }
    ensures hand { StaysReady arena.now hand.old hand.new }
{
    match arena.stripe_within(hand, stripe, tries) {
        Ok(held) => Ok(count_at(arena, hand, held)),
        Err(held) => Err(held),
    }
}

/// The same as `keys_of_stripe`, but it tries for the stripe's lock `tries` times at most, and doesn't wait. `Held` where each try missed: nothing
/// is put then. (own)
pub fn keys_of_stripe_within(
    arena: &Arena,
    hand: &mut Hand,
    stripe: u64,
    tries: u64,
    into: &mut Vec<u64>,
) -> Result<(), WithinError>
    requires arena { IsHandOf arena.now hand.old }
    requires ready { IsReady (view hand.old) }
    requires in_range { stripe < (setup_of arena.now).config.stripes }
    ensures keys { OnOk result (FindsStripe (HasKeysPut into.old.items into.new.items) stripe
        (view hand.old) (view hand.new)) }
    ensures looks { result ≡ Err (WithinError.NoMemory tt) → FindsStripe IsAny stripe
        (view hand.old) (view hand.new) }
    ensures held { result ≡ Err WithinError.Held → MissesStripeEachTime tries stripe
        (view hand.old) (view hand.new) }
    ensures refused { OnErr result (into.new.items ≡ into.old.items) }
    ensures calls { RecordsNoCall (view hand.old) (view hand.new) }
    ensures stores_nothing { StoresNothing (view hand.old) (view hand.new) }
    ensures slabs { (view hand.new).row.knows.hold.count ≡ (view hand.old).row.knows.hold.count }
    ensures holdings { KeepsHoldings (view hand.old) (view hand.new) }
    ensures hand { StaysReady arena.now hand.old hand.new }
{
    let Ok(held) = arena.stripe_within(hand, stripe, tries) else {
        return Err(WithinError::Held);
    };
    match keys_at(arena, hand, held, into) {
        Ok(()) => Ok(()),
        Err(refused) => Err(WithinError::NoMemory(refused)),
    }
}
