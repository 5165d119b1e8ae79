//! Keys that lead nowhere: they are looked up and deleted all the same, which their stripes note.
ghost use Rattle.std.specs.Prelude.{◌≡◌, ◌<◌, ◌%◌, true, None, Some, slice_index_or, IfSome};
ghost use Rattle.mc_words.specs.hand.Arenas.{IsHandOf, setup_of, view};

use crate::tests::{assert_equal, assert_same};
use mc_stripe::{Call, Key};
use mc_words::{Arena, Final, Hand, StripeHeld};
use std::test::Fail;
use testlib_values::FOUR_CLASSES;

/// The stripe of the key, with room for a call. None where it isn't to be had.
fn stripe_of(arena: &Arena, hand: &mut Hand, key: Key) -> Option<StripeHeld>
    requires arena { IsHandOf arena.now hand.old }
    ensures arena { IsHandOf arena.now hand.new }
    ensures of_key { IfSome result (λ held. key % (setup_of arena.now).config.stripes
        ≡ held.number) }
    ensures in_range { IfSome result (λ held. held.number < (setup_of arena.now).config.stripes) }
    ensures held { IfSome result (λ held. slice_index_or (view hand.new).stripes held.number None
        ≡ Some held.stripe) }
    ensures ready { IfSome result (λ held. held.stripe.ready ≡ true) }
    ensures whole { IfSome result (λ held. held.stripe.state.aside ≡ None) }
{
    let stripes = arena.config().stripes;
    if stripes == 0 || !hand.unlocked() {
        return None;
    }
    let Ok(mut held) = arena.try_stripe(hand, key % stripes) else {
        return None;
    };
    match arena.reserve(hand, &mut held) {
        Ok(()) => Some(held),
        Err(_) => None,
    }
}

/// Whether the key has an item. None where that can't be known.
#[tactic(auto, using(crate::proofs::Kept::not_aside))]
fn look_up(arena: &Arena, hand: &mut Hand, key: Key) -> Option<bool>
    requires arena { IsHandOf arena.now hand.old }
    ensures arena { IsHandOf arena.now hand.new }
{
    let Some(mut held) = stripe_of(arena, hand, key) else {
        return None;
    };
    let Ok(found) = arena.refer(hand, &mut held, key) else {
        return None;
    };
    arena.give_stripe(hand, held);
    Some(found.is_some())
}

/// Whether the key had an item, which is unlinked. None where that can't be known.
#[tactic(auto, using(crate::proofs::Kept::not_aside))]
fn delete(arena: &Arena, hand: &mut Hand, key: Key) -> Option<bool>
    requires arena { IsHandOf arena.now hand.old }
    ensures arena { IsHandOf arena.now hand.new }
{
    let Some(mut held) = stripe_of(arena, hand, key) else {
        return None;
    };
    if hand.has_fresh() {
        return None;
    }
    let was_there = arena.unlink(hand, &mut held, key);
    arena.give_stripe(hand, held);
    Some(was_there)
}

/// A call of the stripe's history. None where the history is shorter, or a hand has the stripe.
fn call(left: &Final, stripe: u64, place: usize) -> Option<Call> {
    if stripe >= left.config().stripes {
        return None;
    }
    left.stripe(stripe)?.history().get(place).copied()
}

#[test]
fn keys_that_lead_nowhere(rt: HostRuntime) -> Result<(), Fail> {
    let (arena, mut hands) = Arena::new(rt.alloc(), &FOUR_CLASSES, 1)?;
    let mut hand = hands.remove(0);
    assert_same(&rt, look_up(&arena, &mut hand, 6), Some(false), "refer");
    assert_same(&rt, delete(&arena, &mut hand, 6), Some(false), "unlink");
    assert_same(&rt, hand.refs(), 0, "its references");
    let left = arena.close(hand);
    let looked_up = Some(Call::Get(0, 6, None));
    assert_equal(&rt, call(&left, 2, 0), looked_up, "the first call");
    let deleted = Some(Call::Delete(0, 6, false));
    assert_equal(&rt, call(&left, 2, 1), deleted, "the second call");
    assert_equal(&rt, call(&left, 2, 2), None, "no third call");
    Ok(())
}
