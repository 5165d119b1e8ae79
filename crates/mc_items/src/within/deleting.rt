//! The delete of a key that tries for the lock of its stripe n times.
ghost use Rattle.std.specs.Prelude.{◌≡◌, Err, IfOk, OnErr};
ghost use Rattle.mc_words.specs.hand.Arenas.{IsHandOf, setup_of, view};
ghost use Rattle.mc_words.specs.hand.Ready.{IsReady, StaysReady};
ghost use Rattle.mc_words.specs.item.Refs.{KeepsHoldings};
ghost use Rattle.mc_items.specs.Calls.{Deletes, RecordsNoCall};
ghost use Rattle.mc_items.specs.Keeping.{StoresNothing};
ghost use Rattle.mc_items.specs.OnKeys.{ActsOn, FindsNoRoomFor, RecordsOn};
ghost use Rattle.mc_items.specs.Within.{MissesKeyEachTime};
ghost use Rattle.mc_stripe.specs.declared.history.Call.TheVariants as call;

use crate::deleting::delete_at;
use crate::within::error::WithinError;
use mc_words::{Arena, Hand};

/// The same as `delete`, but it tries for the lock of the key's stripe `tries` times at most, and doesn't wait. `Held` where each try missed:
/// nothing was done then. (own, for memcached's `item_trylock`)
pub fn delete_within(
    arena: &Arena,
    hand: &mut Hand,
    key: u64,
    tries: u64,
) -> Result<bool, WithinError>
    requires arena { IsHandOf arena.now hand.old }
    requires ready { IsReady (view hand.old) }
    ensures deletes { IfOk result (λ there. ActsOn (setup_of arena.now) key (λ number stripe.
        Deletes number stripe key there) hand.old hand.new) }
    ensures calls { IfOk result (λ there. RecordsOn (setup_of arena.now) key (λ number.
        call.Delete number key there) hand.old hand.new) }
    ensures refused { OnErr result (RecordsNoCall (view hand.old) (view hand.new)) }
    ensures no_memory { result ≡ Err (WithinError.NoMemory tt) →
        FindsNoRoomFor (setup_of arena.now) key hand.old hand.new }
    ensures held { result ≡ Err WithinError.Held →
        MissesKeyEachTime (setup_of arena.now) tries key hand.old hand.new }
    ensures stores_nothing { StoresNothing (view hand.old) (view hand.new) }
    ensures holdings { KeepsHoldings (view hand.old) (view hand.new) }
    ensures hand { StaysReady arena.now hand.old hand.new }
{
    let stripe = key % arena.config().stripes;
    let Ok(held) = arena.stripe_within(hand, stripe, tries) else {
        return Err(WithinError::Held);
    };
    match delete_at(arena, hand, held, key) {
        Ok(there) => Ok(there),
        Err(refused) => Err(WithinError::NoMemory(refused)),
    }
}
