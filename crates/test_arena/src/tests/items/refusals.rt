//! Refusals of calls on items.
ghost use Rattle.std.specs.Prelude.{◌≡◌, true};
ghost use Rattle.mc_core.specs.model.State.{has_chunk};
ghost use Rattle.mc_words.specs.hand.Arenas.{setup_of};
ghost use Rattle.mc_words.specs.hand.Observers.{hint_chunk};
ghost use Rattle.mc_words.specs.hand.Ready.{IsReadyHandOf};
ghost use Rattle.testlib_hands.specs.Pairs.{AreReady};

use super::MOST_WORDS;
use super::hints::hint_behind;
use super::steps::Step;
use crate::tests::{assert_equal, assert_same};
use mc_items::{GetError, SetError, TryGetError, get, try_get};
use mc_stripe::Key;
use mc_words::{Again, Arena, Hand, Hint};
use std::alloc::Global;
use std::process::Abort;
use std::sync::Wait;
use std::test::Fail;
use testlib_hands::{
    FOUR_CLASSES, Two, drop_arena, drop_two, follow, opened_two, play_all, play_two,
};

/// The greatest issue number.
const MOST_ISSUE: u64 = 70_368_744_177_663;

/// The refusal of a get, if there is one.
fn refusal_of_get<R: Wait>(rt: &R, arena: &Arena, hand: &mut Hand, key: Key) -> Option<GetError>
    requires arena { IsReadyHandOf arena.now hand.old }
    ensures arena { IsReadyHandOf arena.now hand.new }
{
    get(rt, arena, hand, key).err()
}

/// The refusal of a get that doesn't wait, if there is one.
fn refusal_of_try(arena: &Arena, hand: &mut Hand, key: Key) -> Option<TryGetError>
    requires arena { IsReadyHandOf arena.now hand.old }
    ensures arena { IsReadyHandOf arena.now hand.new }
{
    try_get(arena, hand, key).err()
}

/// Whether a get, one that doesn't wait, and one by a hint are refused, as the hand has all references that it may.
fn are_refused<R: Wait>(rt: &R, arena: &Arena, hand: &mut Hand, hint: Hint) -> (bool, bool, bool)
    requires arena { IsReadyHandOf arena.now hand.old }
    requires in_range { has_chunk (setup_of arena.now).table (hint_chunk hint) ≡ true }
{
    (
        refusal_of_get(rt, arena, hand, 1) == Some(GetError::TooManyRefs),
        refusal_of_try(arena, hand, 1) == Some(TryGetError::TooManyRefs),
        follow(arena, hand, hint) == Some(Again::TooManyRefs),
    )
}

/// A hand holds one item 255 times; one more is refused by each call.
fn hold_too_often<R: Abort + Wait>(rt: &R, alloc: Global, two: &mut Two) -> Result<(), Fail>
    requires { AreReady two.old }
{
    let hint = hint_behind(rt, alloc, two, Step::Sets(1, 2, 0, 3))?;
    let Two { arena, hand, .. } = two;
    let most = [Step::HoldsOften(1, 254)];
    play_all(rt, alloc, arena, hand, &most)?;
    let last = refusal_of_try(arena, hand, 1);
    assert_equal(rt, last, None, "the 255th");
    let refused = are_refused(rt, arena, hand, hint);
    assert_same(rt, refused, (true, true, true), "get, try_get and again");
    Ok(())
}

#[test]
fn a_hand_has_at_most_255_references(rt: HostRuntime) -> Result<(), Fail> {
    play_two!(rt, hold_too_often)
}

/// Whether a get that doesn't wait is refused by the stripe that the holder has, and not by another. None where it didn't get its stripe.
fn tries_beside(arena: &Arena, hand: &mut Hand, holder: &mut Hand) -> Option<(bool, bool)>
    requires arena { IsReadyHandOf arena.now hand.old }
    requires holder { IsReadyHandOf arena.now holder.old }
    ensures arena { IsReadyHandOf arena.now hand.new }
{
    if arena.config().stripes < 2 {
        return None;
    }
    let Ok(held) = arena.try_stripe(holder, 1) else {
        return None;
    };
    let refused = refusal_of_try(arena, hand, 5) == Some(TryGetError::Held);
    let found = refusal_of_try(arena, hand, 4).is_none();
    arena.give_stripe(holder, held);
    Some((refused, found))
}

/// Gets that don't wait, beside a hand that has a stripe.
fn try_beside_stripe(rt: &impl Abort, two: &mut Two)
    requires { AreReady two.old }
{
    let Two { arena, hand, other } = two;
    let beside = tries_beside(arena, hand, other);
    assert_same(rt, beside, Some((true, true)), "its stripe, and another");
    let found = refusal_of_try(arena, hand, 5);
    assert_equal(rt, found, None, "its stripe, given back");
}

#[test]
fn who_does_not_wait_is_told_of_another_hand(rt: HostRuntime) -> Result<(), Fail> {
    let mut two = opened_two(rt.alloc(), &FOUR_CLASSES)?;
    try_beside_stripe(&rt, &mut two);
    drop_two(two);
    Ok(())
}

#[test]
fn a_worn_chunk_holds_no_item(rt: HostRuntime) -> Result<(), Fail> {
    let (arena, mut hands) = Arena::from_issue(rt.alloc(), &FOUR_CLASSES, 1, MOST_ISSUE - 1)?;
    let mut hand = hands.remove(0);
    let steps = [
        Step::Sets(1, 2, 0, MOST_WORDS),
        Step::Deletes(1),
        Step::Sets(2, 3, 0, MOST_WORDS),
        Step::Deletes(2),
        Step::Refuses(3, MOST_WORDS, SetError::WornOut),
    ];
    let played = play_all(&rt, rt.alloc(), &arena, &mut hand, &steps);
    drop(hand);
    drop_arena(arena);
    played?;
    Ok(())
}
