//! The delete of all keys of a stripe, for whose lock a hand tries n times.
ghost use Rattle.std.specs.Prelude.{◌<◌, ◌≡◌, Err, IfOk, OnOk};
ghost use Rattle.mc_words.specs.hand.Arenas.{IsHandOf, setup_of, view};
ghost use Rattle.mc_words.specs.hand.Observers.{hand_number};
ghost use Rattle.mc_words.specs.hand.Ready.{IsReady, StaysReady};
ghost use Rattle.mc_words.specs.item.Refs.{KeepsHoldings};
ghost use Rattle.mc_words.specs.lock.Wait.{MissesStripeEachTime};
ghost use Rattle.mc_items.specs.Clearing.{ClearsStripe, GivesBackEmpty, StopsClearing};
ghost use Rattle.mc_items.specs.Keeping.{StoresNothing};

use crate::clearing::clear_at;
use crate::within::error::WithinError;
use mc_words::{Arena, Hand};

/// The same as `clear_stripe`, but it tries for the stripe's lock `tries` times at most, and doesn't wait. `Held` where each try missed: nothing
/// was done then. (own)
pub fn clear_stripe_within(
    arena: &Arena,
    hand: &mut Hand,
    stripe: u64,
    tries: u64,
) -> Result<u64, WithinError>
    requires arena { IsHandOf arena.now hand.old }
    requires ready { IsReady (view hand.old) }
    requires in_range { stripe < (setup_of arena.now).config.stripes }
    ensures clears { IfOk result (λ count. ClearsStripe (hand_number hand.old) stripe count
        (view hand.old) (view hand.new)) }
    ensures empty { OnOk result (GivesBackEmpty (view hand.new) stripe) }
    ensures stops { result ≡ Err (WithinError.NoMemory tt) → StopsClearing
        (hand_number hand.old) stripe (view hand.old) (view hand.new) }
    ensures held { result ≡ Err WithinError.Held → MissesStripeEachTime tries stripe
        (view hand.old) (view hand.new) }
    ensures stores_nothing { StoresNothing (view hand.old) (view hand.new) }
    ensures slabs { (view hand.new).row.knows.hold.count ≡ (view hand.old).row.knows.hold.count }
    ensures holdings { KeepsHoldings (view hand.old) (view hand.new) }
    ensures hand { StaysReady arena.now hand.old hand.new }
{
    let Ok(held) = arena.stripe_within(hand, stripe, tries) else {
        return Err(WithinError::Held);
    };
    match clear_at(arena, hand, held) {
        Ok(count) => Ok(count),
        Err(refused) => Err(WithinError::NoMemory(refused)),
    }
}
