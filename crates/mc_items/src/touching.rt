//! The touch of a key: its item becomes the newest of its class.
ghost use Rattle.std.specs.Prelude.{◌≡◌, IfOk, Ok, OnErr, false, true};
ghost use Rattle.mc_words.specs.hand.Arenas.{IsHandOf, setup_of, view};
ghost use Rattle.mc_words.specs.hand.Observers.{hand_number};
ghost use Rattle.mc_words.specs.hand.Ready.{IsReady, StaysReady};
ghost use Rattle.mc_items.specs.Calls.{FindsNone, RecordsNoCall, Touches};
ghost use Rattle.mc_items.specs.Keeping.{KeepsHoldingCounts, StoresNothing};
ghost use Rattle.mc_items.specs.OnKeys.{ActsOn, FindsNoRoomFor, RecordsGet, stripe_of_key};

use crate::bumping::bump_chunk;
use crate::getting::refer_at;
use mc_stripe::NoMemory;
use mc_words::{Arena, Hand};
use std::sync::Wait;

/// Makes the key's item the one of its class that is evicted last, and returns whether the key has one. It waits for the locks of
/// the key's stripe and of the slabs. It is a get, and the reference is given up. At want of memory all is as before.
/// (memcached's `item_touch`; the move is its `do_item_bump`)
pub fn touch<R: Wait>(rt: &R, arena: &Arena, hand: &mut Hand, key: u64) -> Result<bool, NoMemory>
    requires arena { IsHandOf arena.now hand.old }
    requires ready { IsReady (view hand.old) }
    ensures touches { result ≡ Ok true →
        Touches (hand_number hand.old) (stripe_of_key (setup_of arena.now) key) key (view hand.old)
        (view hand.new) }
    ensures none { result ≡ Ok false → ActsOn (setup_of arena.now) key (λ number stripe.
        FindsNone number stripe key) hand.old hand.new }
    ensures calls { IfOk result (λ there. RecordsGet
        (setup_of arena.now) key there hand.old hand.new) }
    ensures refused { OnErr result (RecordsNoCall (view hand.old) (view hand.new)) }
    ensures no_memory { OnErr result (FindsNoRoomFor (setup_of arena.now) key hand.old hand.new) }
    ensures stores_nothing { StoresNothing (view hand.old) (view hand.new) }
    ensures holdings { KeepsHoldingCounts (view hand.old) (view hand.new) }
    ensures hand { StaysReady arena.now hand.old hand.new }
{
    let stripe = key % arena.config().stripes;
    let held = arena.lock_stripe(rt, hand, stripe);
    let reference = match refer_at(arena, hand, held, key) {
        Ok(Some(reference)) => reference,
        Ok(None) => return Ok(false),
        Err(error) => return Err(error),
    };
    bump_chunk(rt, arena, hand, &reference);
    arena.release(hand, reference);
    Ok(true)
}
