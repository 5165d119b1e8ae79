//! Hands that are lost with what they have: a value stays out with its lock, and a chunk stays held.
ghost use Rattle.std.specs.Prelude.{IfOk};
ghost use Rattle.mc_words.specs.hand.Ready.{IsReadyHandOf};

use super::steps::{Step, reads_held};
use super::{assert_equal, assert_head, assert_same};
use mc_items::TryGetError;
use mc_mover::{TryTurn, try_turn};
use mc_pages::{ChunkId, Reassign};
use mc_stripe::Key;
use mc_words::{Arena, Final, Hand};
use std::alloc::Global;
use std::process::Abort;
use std::sync::Wait;
use std::test::Fail;
use testlib_hands::{FOUR_CLASSES, Two, delete_key, get_key, opened_two, play_all};

/// Where the first item of 61 words is put.
const FIRST: ChunkId = ChunkId { page: 0, index: 1 };

/// What a hand is lost with.
#[derive(Clone, Copy)]
enum Lost {
    /// Pages and lists.
    Slabs,
    /// A stripe.
    Stripe(u64),
    /// A reference to the key's item.
    Item(Key),
}

/// Takes this by a hand that is lost with it. False where it isn't to be had.
fn lose<R: Wait>(rt: &R, arena: &Arena, hand: Hand, what: Lost) -> bool
    requires arena { IsReadyHandOf arena.now hand }
{
    let mut hand = hand;
    match what {
        Lost::Slabs => arena.try_slabs(&mut hand).is_ok(),
        Lost::Stripe(stripe) => {
            stripe < arena.config().stripes && arena.try_stripe(&mut hand, stripe).is_ok()
        }
        Lost::Item(key) => get_key(rt, arena, &mut hand, key).is_some(),
    }
}

/// Whether a stripe's index and history are there.
fn is_stripe_left(left: &Final, stripe: u64) -> bool {
    stripe < left.config().stripes && left.stripe(stripe).is_some()
}

/// Whether the index and history of each of the four stripes are there.
fn stripes_left(left: &Final) -> [bool; 4] {
    [
        is_stripe_left(left, 0),
        is_stripe_left(left, 1),
        is_stripe_left(left, 2),
        is_stripe_left(left, 3),
    ]
}

/// A hand reads and deletes an item while the slabs are out with the other, which is lost. No turn gets them.
fn read_without_slabs<R: Abort + Wait>(
    rt: &R,
    alloc: Global,
    arena: &Arena,
    hand: &mut Hand,
    other: Hand,
) -> Result<(), Fail>
    requires hand { IsReadyHandOf arena.now hand.old }
    requires other { IsReadyHandOf arena.now other }
    ensures hand { IfOk result (λ _. IsReadyHandOf arena.now hand.new) }
{
    play_all(rt, alloc, arena, hand, &[Step::Sets(1, 2, 61)])?;
    let Some(item) = get_key(rt, arena, hand, 1) else {
        return Err(Fail::new("the key has an item"));
    };
    let lost = lose(rt, arena, other, Lost::Slabs);
    assert_same(rt, lost, true, "the lock is free");
    let same = reads_held(alloc, arena, hand, item, (1, 61))?;
    assert_same(rt, same, true, "words 1 to 61");
    assert_head(
        rt,
        arena,
        hand,
        FIRST.index,
        458_753,
        "its header, released",
    );
    let deleted = delete_key(rt, arena, hand, 1);
    assert_same(rt, deleted, Some(true), "a delete takes a stripe alone");
    let refused = try_turn(arena, hand);
    assert_equal(rt, refused, Err(TryTurn::Held), "a turn");
    Ok(())
}

/// Nobody can take the slabs, and each stripe is there.
fn assert_slabs_are_out(rt: &impl Abort, arena: Arena, hand: Hand)
    requires hand { IsReadyHandOf arena hand }
{
    let mut hand = hand;
    assert_same(rt, arena.try_slabs(&mut hand).is_err(), true, "the slabs");
    let left = arena.close(hand);
    assert_same(rt, left.slabs().is_none(), true, "pages and lists");
    assert_same(rt, stripes_left(&left), [true; 4], "each stripe");
}

#[test]
fn lost_slabs_stay_out_and_what_is_held_is_read(rt: HostRuntime) -> Result<(), Fail> {
    let Two {
        arena,
        mut hand,
        other,
    } = opened_two(rt.alloc(), &FOUR_CLASSES)?;
    match read_without_slabs(&rt, rt.alloc(), &arena, &mut hand, other) {
        Ok(()) => {
            assert_slabs_are_out(&rt, arena, hand);
            Ok(())
        }
        Err(fail) => Err(fail),
    }
}

/// What is left where four items are stored, a hand is lost with this, and the other makes these calls.
fn close_behind_loss<R: Wait>(
    rt: &R,
    alloc: Global,
    what: Lost,
    steps: &[Step],
) -> Result<Final, Fail> {
    let Two {
        arena,
        mut hand,
        other,
    } = opened_two(alloc, &FOUR_CLASSES)?;
    let stored = play_all(rt, alloc, &arena, &mut hand, &[Step::Sets(1, 5, 61)]);
    let lost = lose(rt, &arena, other, what);
    let played = play_all(rt, alloc, &arena, &mut hand, steps);
    let left = arena.close(hand);
    stored?;
    if !lost {
        return Err(Fail::new("it is to be had"));
    }
    played?;
    Ok(left)
}

#[test]
fn a_lost_stripe_holds_up_its_items_page_for_ever(rt: HostRuntime) -> Result<(), Fail> {
    let steps = [
        Step::Reassigns(Some(4), 1, Ok(())),
        Step::Goes(1, 0, 1, 0, 1),
        Step::Goes(0, 0, 0, 0, 1),
        Step::Goes(0, 0, 0, 0, 1),
        Step::Pages(2, 0, true),
        Step::Moved(0, 0, 1, 3),
        Step::Touches(4, true),
        Step::TryGets(1, Some(TryGetError::Held)),
        Step::TryGets(4, None),
        Step::TryGets(5, Some(TryGetError::Held)),
    ];
    let left = close_behind_loss(&rt, rt.alloc(), Lost::Stripe(1), &steps)?;
    assert_same(&rt, left.slabs().is_some(), true, "pages and lists");
    let there = [true, false, true, true];
    assert_same(&rt, stripes_left(&left), there, "all but the lost one");
    Ok(())
}

#[test]
fn what_a_lost_hand_holds_is_held_for_ever(rt: HostRuntime) -> Result<(), Fail> {
    let steps = [
        Step::Reassigns(Some(4), 1, Ok(())),
        Step::Goes(1, 0, 1, 1, 0),
        Step::Goes(0, 0, 0, 1, 0),
        Step::Deletes(1),
        Step::Goes(0, 0, 0, 1, 0),
        Step::Goes(0, 0, 0, 1, 0),
        Step::Reassigns(Some(4), 1, Err(Reassign::Busy)),
        Step::Pages(2, 0, true),
        Step::Moved(0, 0, 1, 4),
        // unlinked, and held once
        Step::Head(FIRST, 393_217),
    ];
    let _left = close_behind_loss(&rt, rt.alloc(), Lost::Item(1), &steps)?;
    Ok(())
}
