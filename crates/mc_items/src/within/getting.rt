//! The get of a key that tries for the lock of its stripe n times.
ghost use Rattle.std.specs.Option.{option_map};
ghost use Rattle.std.specs.Prelude.{◌↔◌, ◌≡◌, ◌≤◌, Err, IfOk, IfSome, OnErr, length, true};
ghost use Rattle.mc_classes.specs.Limits.{most_refs};
ghost use Rattle.mc_core.specs.model.State.{has_chunk};
ghost use Rattle.mc_words.specs.hand.Arenas.{IsHandOf, setup_of, view};
ghost use Rattle.mc_words.specs.hand.Ready.{IsReady, StaysReady};
ghost use Rattle.mc_words.specs.item.Refs.{HoldsTheSame, KeepsRefs};
ghost use Rattle.mc_items.specs.Calls.{RecordsNoCall};
ghost use Rattle.mc_items.specs.ItemRefs.{IsItemRef, item_chunk, item_key, item_stamp};
ghost use Rattle.mc_items.specs.Keeping.{HoldsToo, HasStoredWords, StoresNothing};
ghost use Rattle.mc_items.specs.OnKeys.{FindsNoRoomFor, Gets, RecordsOn};
ghost use Rattle.mc_items.specs.Within.{MissesKeyEachTime};
ghost use Rattle.mc_stripe.specs.declared.history.Call.TheVariants as call;

use crate::getting::{TryGetError, look_up};
use crate::refs::Ref;
use mc_classes::MOST_REFS;
use mc_words::{Arena, Hand};

/// The same as `get`, but it tries for the lock of the key's stripe `tries` times at most, and doesn't wait. `Held` where each try missed.
/// With one try it is `try_get`. (own, for memcached's `item_trylock`)
pub fn get_within(
    arena: &Arena,
    hand: &mut Hand,
    key: u64,
    tries: u64,
) -> Result<Option<Ref>, TryGetError>
    requires arena { IsHandOf arena.now hand.old }
    requires ready { IsReady (view hand.old) }
    ensures gets { IfOk result (λ found. Gets (setup_of arena.now) key found hand.old hand.new) }
    ensures item { IfOk result (λ found. IfSome found (λ item. IsItemRef (view hand.new) item
        × (item_key item ≡ key))) }
    ensures in_range { IfOk result (λ found. IfSome found (λ item.
        has_chunk (setup_of arena.now).table (item_chunk item) ≡ true)) }
    ensures stores_words { IfOk result (λ found. IfSome found (HasStoredWords (view hand.new))) }
    ensures calls { IfOk result (λ found. RecordsOn (setup_of arena.now) key (λ number.
        call.Get number key (option_map item_stamp found)) hand.old hand.new) }
    ensures refused { OnErr result (RecordsNoCall (view hand.old) (view hand.new)) }
    ensures at_limit { (result ≡ Err TryGetError.TooManyRefs)
        ↔ (most_refs ≤ length (view hand.old).row.holdings) }
    ensures same { result ≡ Err TryGetError.TooManyRefs → view hand.new ≡ view hand.old }
    ensures held { result ≡ Err TryGetError.Held →
        MissesKeyEachTime (setup_of arena.now) tries key hand.old hand.new }
    ensures no_memory { result ≡ Err (TryGetError.NoMemory tt) →
        FindsNoRoomFor (setup_of arena.now) key hand.old hand.new }
    ensures holdings { IfOk result (λ found. HoldsToo found (view hand.old) (view hand.new)) }
    ensures no_more { OnErr result (HoldsTheSame (view hand.old) (view hand.new)) }
    ensures keeps { KeepsRefs (view hand.old) (view hand.new) }
    ensures stores_nothing { StoresNothing (view hand.old) (view hand.new) }
    ensures hand { StaysReady arena.now hand.old hand.new }
{
    if hand.refs() >= MOST_REFS {
        return Err(TryGetError::TooManyRefs);
    }
    let stripe = key % arena.config().stripes;
    let Ok(held) = arena.stripe_within(hand, stripe, tries) else {
        return Err(TryGetError::Held);
    };
    match look_up(arena, hand, held, key) {
        Ok(found) => Ok(found),
        Err(refused) => Err(TryGetError::NoMemory(refused)),
    }
}
