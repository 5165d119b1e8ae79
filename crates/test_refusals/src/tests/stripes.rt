//! The numbers of a snapshot that are behind the locks of stripes.
ghost use Rattle.mc_words.specs.hand.Ready.{IsReadyHandOf};

use super::snapshot::{CALLS, KEYS, STRIPES, chunk_number, note, note_call};
use mc_stripe::Stripe;
use mc_words::{Arena, Hand};

/// Adds all stripes. False where one isn't there, or another hand has it.
pub fn see_stripes(arena: &Arena, looker: &mut Hand, seen: &mut Vec<u64>) -> bool
    requires looker { IsReadyHandOf arena.now looker.old }
    ensures looker { IsReadyHandOf arena.now looker.new }
{
    for stripe in 0..STRIPES {
        if !see_stripe(arena, looker, stripe, seen) {
            return false;
        }
    }
    true
}

#[tactic(auto, using(crate::proofs::Kept::ready_behind_stripe))]
fn see_stripe(arena: &Arena, looker: &mut Hand, stripe: u64, seen: &mut Vec<u64>) -> bool
    requires looker { IsReadyHandOf arena.now looker.old }
    ensures looker { IsReadyHandOf arena.now looker.new }
{
    if stripe >= arena.config().stripes {
        return false;
    }
    let Ok(held) = arena.try_stripe(looker, stripe) else {
        return false;
    };
    see_keys(held.stripe(), stripe, seen);
    see_history(held.stripe(), seen);
    arena.give_stripe(looker, held);
    true
}

// Where each of its keys leads: chunk and stamp, or zeros.
fn see_keys(stripe: &Stripe, number: u64, seen: &mut Vec<u64>) {
    for key in 0..KEYS {
        if key % STRIPES == number {
            let (chunk, stamp) = match stripe.find(key) {
                Some((chunk, stamp)) => (Some(chunk), stamp),
                None => (None, 0),
            };
            note(seen, chunk_number(chunk));
            note(seen, stamp);
        }
    }
}

// Adds the stripe's history, whether it has room for one more call, whether an entry is aside, and what isn't recorded.
fn see_history(stripe: &Stripe, seen: &mut Vec<u64>) {
    let history = stripe.history();
    note(seen, history.len() as u64);
    for place in 0..CALLS {
        note_call(seen, history.get(place).copied());
    }
    note(seen, u64::from(stripe.is_ready()));
    note(seen, u64::from(stripe.aside().is_some()));
    note(seen, stripe.trimmed());
    let based = match stripe.base() {
        Some(base) => base.len(),
        None => 0,
    };
    note(seen, based as u64);
}
