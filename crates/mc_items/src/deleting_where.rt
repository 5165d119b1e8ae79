//! The delete of a key's item where it has a given stamp.
ghost use Rattle.std.specs.Prelude.{◌≡◌, Err, OnErr, OnOk, Option, Some, false, true, ℕ};
ghost use Rattle.mc_core.specs.model.Holdings.{has_fresh};
ghost use Rattle.mc_words.specs.hand.Arenas.{IsHandOf, setup_of, view};
ghost use Rattle.mc_words.specs.hand.Observers.{locks_of, stripe_lent, stripe_number};
ghost use Rattle.mc_words.specs.hand.Ready.{IsReady, StaysReady};
ghost use Rattle.mc_words.specs.item.Refs.{KeepsHoldings};
ghost use Rattle.mc_words.specs.lock.Lent.{IsLentStripe};
ghost use Rattle.mc_words.specs.lock.Out.{without_stripe};
ghost use Rattle.mc_items.specs.Calls.{Deletes, IsFull, RecordsNoCall};
ghost use Rattle.mc_items.specs.Deleting.{DeletesItemOf, FindsOtherItem};
ghost use Rattle.mc_items.specs.Keeping.{StoresNothing};
ghost use Rattle.mc_items.specs.OnKeys.{DoesOn, FindsNoRoomFor, GivesBack, RecordsOn, stripe_of_key};
ghost use Rattle.mc_items.specs.Storing.{HasOther};
ghost use Rattle.mc_items.specs.declared.comparing.Expected.TheVariants as expect;
ghost use Rattle.mc_items.specs.declared.deleting_where.CompareDeleteError.TheVariants as compare_delete;
ghost use Rattle.mc_stripe.specs.StripeState.{stamp_of_key};
ghost use Rattle.mc_stripe.specs.declared.history.Call.TheVariants as call;

use crate::comparing::Expected;
use crate::deleting::delete_at;
use crate::storing::other_stamp;
use mc_stripe::{NoMemory, Stamp};
use mc_words::{Arena, Hand, StripeHeld};
use std::sync::Wait;
use thiserror::Error;

/// Why a delete of an item with a given stamp was refused. The key has what it had.
#[derive(Debug, PartialEq, Eq, Drop, Error)]
pub enum CompareDeleteError {
    /// The stripe got no room for one more call.
    #[error("out of memory: the key has what it had")]
    NoMemory(NoMemory),
    /// The key has an item with this other stamp, or none.
    #[error("the key has another item than the one to delete, or none")]
    Differs(Option<Stamp>),
}

/// Deletes the key's item as [`delete`](crate::delete) does, but only where it has this stamp at the moment of the delete, under the
/// lock of the key's stripe. Where the key has another item or none, nothing is done. (own, for the `C` flag of memcached's `md`)
pub fn compare_and_delete<R: Wait>(
    rt: &R,
    arena: &Arena,
    hand: &mut Hand,
    key: u64,
    expected: Stamp,
) -> Result<(), CompareDeleteError>
    requires arena { IsHandOf arena.now hand.old }
    requires ready { IsReady (view hand.old) }
    ensures deletes { OnOk result
        (DeletesItemOf (setup_of arena.now) key expected hand.old hand.new) }
    ensures calls { OnOk result (RecordsOn (setup_of arena.now) key (λ number.
        call.Delete number key true) hand.old hand.new) }
    ensures differs { (found : Option ℕ) → result ≡ Err (compare_delete.Differs found) →
        FindsOtherItem (setup_of arena.now) key expected found hand.old hand.new }
    ensures no_memory { result ≡ Err (compare_delete.NoMemory tt) →
        FindsNoRoomFor (setup_of arena.now) key hand.old hand.new }
    ensures refused { OnErr result (RecordsNoCall (view hand.old) (view hand.new)) }
    ensures stores_nothing { StoresNothing (view hand.old) (view hand.new) }
    ensures holdings { KeepsHoldings (view hand.old) (view hand.new) }
    ensures hand { StaysReady arena.now hand.old hand.new }
{
    let stripe = key % arena.config().stripes;
    let held = arena.lock_stripe(rt, hand, stripe);
    delete_item_at(arena, hand, held, key, expected)
}

// Deletes the key's item in its stripe, where it has this stamp, and gives the stripe's lock back.
pub(crate) fn delete_item_at(
    arena: &Arena,
    hand: &mut Hand,
    held: StripeHeld,
    key: u64,
    expected: Stamp,
) -> Result<(), CompareDeleteError>
    requires arena { IsHandOf arena.now hand.old }
    requires lent { IsLentStripe (view hand.old) (stripe_number held) (stripe_lent held) }
    requires in_range { stripe_number held ≡ stripe_of_key (setup_of arena.now) key }
    requires fresh { has_fresh (view hand.old).row.holdings ≡ false }
    ensures arena { IsHandOf arena.now hand.new }
    ensures locks { locks_of hand.new ≡ without_stripe (locks_of hand.old) }
    ensures done { OnOk result (DoesOn (λ number stripe.
        Deletes number stripe key true) hand.old held hand.new) }
    ensures met { OnOk result (stamp_of_key (stripe_lent held).state key ≡ Some expected) }
    ensures given { OnErr result (GivesBack hand.old held hand.new) }
    ensures differs { (found : Option ℕ) → result ≡ Err (compare_delete.Differs found) →
        HasOther (expect.Item expected) found key (stripe_lent held) }
    ensures full { result ≡ Err (compare_delete.NoMemory tt) → IsFull (stripe_lent held) }
{
    if let Some(found) = other_stamp(&held, key, Expected::Item(expected)) {
        arena.give_stripe(hand, held);
        return Err(CompareDeleteError::Differs(found));
    }
    match delete_at(arena, hand, held, key) {
        Ok(_there) => Ok(()),
        Err(refused) => Err(CompareDeleteError::NoMemory(refused)),
    }
}
