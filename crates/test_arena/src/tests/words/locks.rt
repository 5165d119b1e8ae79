//! Locks: one hand has each, and the others are refused; what is lost with a hand stays held.
ghost use Rattle.mc_words.specs.hand.Arenas.{IsHandOf};

use super::calls::{give, has_lent_stripe, head, is_stripe_left, lose_stripe, owner};
use crate::tests::{assert_equal, assert_same};
use mc_pages::{ChunkId, Owner};
use mc_words::{Arena, Final, Hand};
use std::process::Abort;
use std::test::Fail;
use testlib_values::FOUR_CLASSES;

/// The first chunk of the first page.
const FIRST: ChunkId = ChunkId { page: 0, index: 0 };

/// One hand takes the slabs and gives them, and another tries meanwhile and behind it.
fn lend_slabs(
    rt: &impl Abort,
    arena: &Arena,
    first: &mut Hand,
    second: &mut Hand,
) -> Result<(), Fail>
    requires first { IsHandOf arena.now first.old }
    requires second { IsHandOf arena.now second.old }
{
    let Ok(held) = arena.try_slabs(first) else {
        return Err(Fail::new("the lock is free"));
    };
    assert_same(rt, first.unlocked(), false, "the first hand");
    let refused = arena.try_slabs(second).is_err();
    assert_same(rt, refused, true, "while it is held");
    assert_same(rt, second.unlocked(), true, "the second hand");
    let given = give(arena, first, held);
    assert_same(rt, given, true, "give_slabs");
    let taken = arena.try_slabs(second).is_ok();
    assert_same(rt, taken, true, "once it was given");
    Ok(())
}

#[test]
fn one_hand_has_the_slabs(rt: HostRuntime) -> Result<(), Fail> {
    let (arena, mut hands) = Arena::new(rt.alloc(), &FOUR_CLASSES, 2)?;
    let (mut first, mut second) = (hands.remove(0), hands.remove(0));
    lend_slabs(&rt, &arena, &mut first, &mut second)
}

/// Mode 2 is set by the hand. False where another one has the lock.
fn set_mode_two(rt: &impl Abort, arena: &Arena, hand: &mut Hand) -> bool
    requires hand { IsHandOf arena.now hand.old }
    ensures hand { IsHandOf arena.now hand.new }
{
    let Ok(mut held) = arena.try_slabs(hand) else {
        return false;
    };
    arena.set_automove(hand, &mut held, 2);
    assert_same(rt, give(arena, hand, held), true, "give_slabs");
    true
}

/// The mode and the first page of the closed arena.
fn assert_mode_two(rt: &impl Abort, left: &Final) -> Result<(), Fail> {
    let Some(slabs) = left.slabs() else {
        return Err(Fail::new("nobody has pages and lists"));
    };
    assert_same(rt, slabs.automove(), 2, "the mode");
    let first = owner(left, 0);
    assert_equal(rt, first, Some(Owner::Untouched), "the first page");
    assert_same(rt, head(left, FIRST), Some(0), "the first header");
    Ok(())
}

#[test]
fn a_mode_is_left(rt: HostRuntime) -> Result<(), Fail> {
    let (arena, mut hands) = Arena::new(rt.alloc(), &FOUR_CLASSES, 1)?;
    let mut hand = hands.remove(0);
    let is_set = set_mode_two(&rt, &arena, &mut hand);
    assert_same(&rt, is_set, true, "the lock is free");
    let left = arena.close(hand);
    let told = assert_mode_two(&rt, &left);
    drop(left);
    told
}

/// One hand is lost with the slabs; the other finds them out, has each stripe, and loses the last.
fn lose_both(rt: &impl Abort, arena: &Arena, first: Hand, second: &mut Hand)
    requires first { IsHandOf arena.now first }
    requires second { IsHandOf arena.now second.old }
    ensures second { IsHandOf arena.now second.new }
{
    let mut first = first;
    assert_same(rt, arena.try_slabs(&mut first).is_ok(), true, "the lock");
    drop(first);
    let refused = arena.try_slabs(second).is_err();
    assert_same(rt, refused, true, "the slabs");
    for stripe in 0..4 {
        let lent = has_lent_stripe(arena, second, stripe);
        assert_same(rt, lent, true, "a stripe");
    }
    let lost = lose_stripe(arena, second, 3);
    assert_same(rt, lost, true, "the last stripe");
}

#[test]
fn a_lost_value_stays_out(rt: HostRuntime) -> Result<(), Fail> {
    let (arena, mut hands) = Arena::new(rt.alloc(), &FOUR_CLASSES, 2)?;
    let (first, mut second) = (hands.remove(0), hands.remove(0));
    lose_both(&rt, &arena, first, &mut second);
    let left = arena.close(second);
    assert_same(&rt, left.slabs().is_none(), true, "pages and lists");
    assert_equal(&rt, owner(&left, 0), None, "the first page");
    for (stripe, is_there) in [(0, true), (1, true), (2, true), (3, false)] {
        let found = is_stripe_left(&left, stripe);
        assert_same(&rt, (stripe, found), (stripe, is_there), "a stripe");
    }
    Ok(())
}
