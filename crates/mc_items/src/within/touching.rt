//! The touch of a key that tries for each of its two locks n times.
ghost use Rattle.std.specs.Prelude.{◌≡◌, Err, IfOk, Ok, OnErr, false, true};
ghost use Rattle.mc_words.specs.hand.Arenas.{IsHandOf, setup_of, view};
ghost use Rattle.mc_words.specs.hand.Observers.{hand_number};
ghost use Rattle.mc_words.specs.hand.Ready.{IsReady, StaysReady};
ghost use Rattle.mc_items.specs.Calls.{FindsNone, RecordsNoCall, Touches};
ghost use Rattle.mc_items.specs.Keeping.{KeepsHoldingCounts, StoresNothing};
ghost use Rattle.mc_items.specs.OnKeys.{ActsOn, FindsNoRoomFor, RecordsGet, stripe_of_key};
ghost use Rattle.mc_items.specs.Within.{MissesTouch, RecordsGetOrNone};

use crate::getting::refer_at;
use crate::within::bumping::bump_chunk_within;
use crate::within::error::WithinError;
use mc_words::{Arena, Hand};

/// The same as `touch`, but it tries for each of its two locks `tries` times at most, and doesn't wait. `Held` where each try for one of them
/// missed. Where the second is held, the item was got: the history keeps the get, the reference is given up, and the item isn't moved. (own)
pub fn touch_within(
    arena: &Arena,
    hand: &mut Hand,
    key: u64,
    tries: u64,
) -> Result<bool, WithinError>
    requires arena { IsHandOf arena.now hand.old }
    requires ready { IsReady (view hand.old) }
    ensures touches { result ≡ Ok true →
        Touches (hand_number hand.old) (stripe_of_key (setup_of arena.now) key) key (view hand.old)
        (view hand.new) }
    ensures none { result ≡ Ok false → ActsOn (setup_of arena.now) key (λ number stripe.
        FindsNone number stripe key) hand.old hand.new }
    ensures calls { IfOk result (λ there. RecordsGet
        (setup_of arena.now) key there hand.old hand.new) }
    ensures refused { result ≡ Err (WithinError.NoMemory tt) →
        RecordsNoCall (view hand.old) (view hand.new) }
    ensures no_memory { result ≡ Err (WithinError.NoMemory tt) →
        FindsNoRoomFor (setup_of arena.now) key hand.old hand.new }
    ensures held { result ≡ Err WithinError.Held →
        MissesTouch (setup_of arena.now) tries key hand.old hand.new }
    ensures held_calls { result ≡ Err WithinError.Held →
        RecordsGetOrNone (setup_of arena.now) key hand.old hand.new }
    ensures stores_nothing { StoresNothing (view hand.old) (view hand.new) }
    ensures holdings { KeepsHoldingCounts (view hand.old) (view hand.new) }
    ensures hand { StaysReady arena.now hand.old hand.new }
{
    let stripe = key % arena.config().stripes;
    let Ok(held) = arena.stripe_within(hand, stripe, tries) else {
        return Err(WithinError::Held);
    };
    let reference = match refer_at(arena, hand, held, key) {
        Ok(Some(reference)) => reference,
        Ok(None) => return Ok(false),
        Err(refused) => return Err(WithinError::NoMemory(refused)),
    };
    let moved = bump_chunk_within(arena, hand, &reference, tries);
    arena.release(hand, reference);
    match moved {
        Ok(()) => Ok(true),
        Err(_) => Err(WithinError::Held),
    }
}
