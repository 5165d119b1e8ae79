//! Counts and issue numbers at their greatest.
ghost use Rattle.mc_words.specs.hand.Ready.{IsReadyHandOf};
ghost use Rattle.testlib_hands.specs.Pairs.{AreReady};

use super::steps::Step;
use super::{assert_equal, assert_head, assert_same};
use mc_items::{GetError, get};
use mc_stripe::Key;
use mc_words::{Arena, Hand};
use std::alloc::Global;
use std::process::Abort;
use std::sync::Wait;
use std::test::Fail;
use testlib_hands::{FOUR_CLASSES, Two, drop_arena, get_key, play_all, play_two, touch_key};

/// The greatest issue number.
const MOST_ISSUE: u64 = 70_368_744_177_663;

/// Where the first item of 61 words is put, in the first page.
const FIRST: u64 = 1;

/// Holds the key's item so often. False where that is refused.
fn hold_often<R: Wait>(rt: &R, arena: &Arena, hand: &mut Hand, key: Key, count: u64) -> bool
    requires arena { IsReadyHandOf arena.now hand.old }
    ensures arena { IsReadyHandOf arena.now hand.new }
{
    for _hold in 0..count {
        if get_key(rt, arena, hand, key).is_none() {
            return false;
        }
    }
    true
}

/// A get is refused, as the hand has all references that it may.
fn assert_full<R: Abort + Wait>(rt: &R, arena: &Arena, hand: &mut Hand, key: Key)
    requires arena { IsReadyHandOf arena.now hand.old }
    ensures arena { IsReadyHandOf arena.now hand.new }
{
    let refused = get(rt, arena, hand, key).err();
    assert_equal(rt, refused, Some(GetError::TooManyRefs), "one more");
}

/// Holds key 1 with 255 references of the hand, which has none before, and is refused more, whatever the key.
fn fill_up<R: Abort + Wait>(rt: &R, arena: &Arena, hand: &mut Hand)
    requires arena { IsReadyHandOf arena.now hand.old }
    ensures arena { IsReadyHandOf arena.now hand.new }
{
    assert_same(rt, hold_often(rt, arena, hand, 1, 255), true, "255 holds");
    assert_full(rt, arena, hand, 1);
    assert_full(rt, arena, hand, 2);
    assert_full(rt, arena, hand, 9);
    assert_same(rt, touch_key(rt, arena, hand, 1), Some(true), "a touch");
}

/// Two hands hold one chunk 255 times each, and its page moves.
fn hold_as_often_as_two_may<R: Abort + Wait>(
    rt: &R,
    alloc: Global,
    two: &mut Two,
) -> Result<(), Fail>
    requires { AreReady two.old }
{
    let Two { arena, hand, other } = two;
    play_all(rt, alloc, arena, hand, &[Step::Sets(1, 5, 61)])?;
    fill_up(rt, arena, hand);
    assert_head(rt, arena, hand, FIRST, 459_008, "linked, 255 references");
    fill_up(rt, arena, other);
    assert_head(rt, arena, hand, FIRST, 459_263, "linked, 510 references");
    let steps = [
        Step::Reassigns(Some(4), 1, Ok(())),
        Step::Goes(1, 0, 1, 1, 0),
        Step::Deletes(1),
        Step::Goes(0, 0, 0, 1, 0),
    ];
    play_all(rt, alloc, arena, hand, &steps)?;
    assert_head(rt, arena, hand, FIRST, 393_726, "unlinked, 510 references");
    Ok(())
}

#[test]
fn two_hands_hold_a_chunk_as_often_as_they_may(rt: HostRuntime) -> Result<(), Fail> {
    play_two!(rt, hold_as_often_as_two_may)
}

/// Four items fill two pages, and one is deleted; then a page goes to the pool, from an arena of this first issue number.
fn move_beside_dead<R: Wait>(
    rt: &R,
    alloc: Global,
    start: u64,
    finishes: Step,
    has: Step,
) -> Result<(), Fail> {
    let (arena, mut hands) = Arena::from_issue(alloc, &FOUR_CLASSES, 1, start)?;
    let mut hand = hands.remove(0);
    let steps = [
        Step::Sets(1, 5, 61),
        Step::Deletes(4),
        Step::Reassigns(Some(4), 0, Ok(())),
        finishes,
        Step::Pages(2, 1, false),
        has,
    ];
    let played = play_all(rt, alloc, &arena, &mut hand, &steps);
    drop(hand);
    drop_arena(arena);
    played?;
    Ok(())
}

#[test]
fn a_worn_chunk_rescues_nothing(rt: HostRuntime) -> Result<(), Fail> {
    let evicts = Step::Finishes(2, 0, 2, 0, 0);
    let stays = Step::Has(4, 1, 1, 1);
    move_beside_dead(&rt, rt.alloc(), MOST_ISSUE - 1, evicts, stays)?;
    for start in [MOST_ISSUE - 2, 0] {
        let rescues = Step::Finishes(2, 1, 1, 0, 0);
        let full = Step::Has(4, 1, 2, 0);
        move_beside_dead(&rt, rt.alloc(), start, rescues, full)?;
    }
    Ok(())
}
