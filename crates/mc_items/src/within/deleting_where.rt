//! The delete of a key's item where it has a given stamp, which tries for the lock of its stripe n times.
ghost use Rattle.std.specs.Prelude.{◌≡◌, Err, OnErr, OnOk, Option, true, ℕ};
ghost use Rattle.mc_words.specs.hand.Arenas.{IsHandOf, setup_of, view};
ghost use Rattle.mc_words.specs.hand.Ready.{IsReady, StaysReady};
ghost use Rattle.mc_words.specs.item.Refs.{KeepsHoldings};
ghost use Rattle.mc_items.specs.Calls.{RecordsNoCall};
ghost use Rattle.mc_items.specs.Deleting.{DeletesItemOf, FindsOtherItem};
ghost use Rattle.mc_items.specs.Keeping.{StoresNothing};
ghost use Rattle.mc_items.specs.OnKeys.{FindsNoRoomFor, RecordsOn};
ghost use Rattle.mc_items.specs.Within.{MissesKeyEachTime};
ghost use Rattle.mc_items.specs.declared.within.deleting_where.CompareDeleteWithinError.TheVariants as compare_delete;
ghost use Rattle.mc_stripe.specs.declared.history.Call.TheVariants as call;

use crate::deleting_where::{CompareDeleteError, delete_item_at};
use mc_stripe::{NoMemory, Stamp};
use mc_words::{Arena, Hand};
use thiserror::Error;

/// Why a delete of an item with a given stamp was refused, which doesn't wait. The key has what it had. (own)
#[derive(Debug, PartialEq, Eq, Drop, Error)]
pub enum CompareDeleteWithinError {
    /// The stripe got no room for one more call.
    #[error("out of memory: the key has what it had")]
    NoMemory(NoMemory),
    /// The key has an item with this other stamp, or none.
    #[error("the key has another item than the one to delete, or none")]
    Differs(Option<Stamp>),
    /// Other hands had the lock of the key's stripe at each try.
    #[error("other hands had the lock at each try: the key has what it had")]
    Held,
}

/// The same as [`compare_and_delete`](crate::compare_and_delete), but it tries for the lock of the key's stripe `tries` times at most, and
/// doesn't wait. `Held` where each try missed: nothing was done then. (own)
pub fn compare_and_delete_within(
    arena: &Arena,
    hand: &mut Hand,
    key: u64,
    expected: Stamp,
    tries: u64,
) -> Result<(), CompareDeleteWithinError>
    requires arena { IsHandOf arena.now hand.old }
    requires ready { IsReady (view hand.old) }
    ensures deletes { OnOk result
        (DeletesItemOf (setup_of arena.now) key expected hand.old hand.new) }
    ensures calls { OnOk result (RecordsOn (setup_of arena.now) key (λ number.
        call.Delete number key true) hand.old hand.new) }
    ensures differs { (found : Option ℕ) → result ≡ Err (compare_delete.Differs found) →
        FindsOtherItem (setup_of arena.now) key expected found hand.old hand.new }
    ensures no_memory { result ≡ Err (compare_delete.NoMemory tt) →
        FindsNoRoomFor (setup_of arena.now) key hand.old hand.new }
    ensures held { result ≡ Err compare_delete.Held →
        MissesKeyEachTime (setup_of arena.now) tries key hand.old hand.new }
    ensures refused { OnErr result (RecordsNoCall (view hand.old) (view hand.new)) }
    ensures stores_nothing { StoresNothing (view hand.old) (view hand.new) }
    ensures holdings { KeepsHoldings (view hand.old) (view hand.new) }
    ensures hand { StaysReady arena.now hand.old hand.new }
{
    let stripe = key % arena.config().stripes;
    let Ok(held) = arena.stripe_within(hand, stripe, tries) else {
        return Err(CompareDeleteWithinError::Held);
    };
    match delete_item_at(arena, hand, held, key, expected) {
        Ok(()) => Ok(()),
        Err(CompareDeleteError::NoMemory(refused)) => {
            Err(CompareDeleteWithinError::NoMemory(refused))
        }
        Err(CompareDeleteError::Differs(found)) => Err(CompareDeleteWithinError::Differs(found)),
    }
}
