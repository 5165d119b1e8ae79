//! Turns beside another hand's locks.
ghost use Rattle.mc_words.specs.hand.Arenas.{IsHandOf};
ghost use Rattle.mc_words.specs.hand.Ready.{IsReadyHandOf};
ghost use Rattle.testlib_hands.specs.Pairs.{AreReady};

use super::assert_equal;
use super::steps::Step;
use mc_mover::{Counts, TryTurn, Turn, try_turn};
use mc_words::{Arena, Hand};
use std::alloc::Global;
use std::process::Abort;
use std::sync::Wait;
use std::test::Fail;
use testlib_hands::{Two, play_all, play_two};

/// A turn of one hand, while another has the stripe. None where that hand didn't get it.
fn turn_beside_stripe(
    arena: &Arena,
    hand: &mut Hand,
    holder: &mut Hand,
    stripe: u64,
) -> Option<Result<Turn, TryTurn>>
    requires arena { IsReadyHandOf arena.now hand.old }
    requires holder { IsReadyHandOf arena.now holder.old }
    ensures arena { IsReadyHandOf arena.now hand.new }
    ensures holder { IsHandOf arena.now holder.new }
{
    if stripe >= arena.config().stripes {
        return None;
    }
    let Ok(held) = arena.try_stripe(holder, stripe) else {
        return None;
    };
    let found = try_turn(arena, hand);
    arena.give_stripe(holder, held);
    Some(found)
}

/// A turn of one hand, while another has the slabs. None where that hand didn't get them.
fn turn_beside_slabs(
    arena: &Arena,
    hand: &mut Hand,
    holder: &mut Hand,
) -> Option<Result<Turn, TryTurn>>
    requires arena { IsReadyHandOf arena.now hand.old }
    requires holder { IsHandOf arena.now holder.old }
    ensures arena { IsReadyHandOf arena.now hand.new }
    ensures holder { IsHandOf arena.now holder.new }
{
    let Ok(slabs) = arena.try_slabs(holder) else {
        return None;
    };
    let found = try_turn(arena, hand);
    arena.give_slabs(holder, slabs);
    Some(found)
}

/// A turn that waits for nobody does this.
fn assert_turn(rt: &impl Abort, arena: &Arena, hand: &mut Hand, wanted: Turn, what: &str)
    requires arena { IsReadyHandOf arena.now hand.old }
    ensures arena { IsReadyHandOf arena.now hand.new }
{
    let found = try_turn(arena, hand);
    assert_equal(rt, found, Ok(wanted), what);
}

/// A turn is refused, as the holder has the slabs.
fn assert_held(rt: &impl Abort, arena: &Arena, hand: &mut Hand, holder: &mut Hand, what: &str)
    requires arena { IsReadyHandOf arena.now hand.old }
    requires holder { IsHandOf arena.now holder.old }
    ensures arena { IsReadyHandOf arena.now hand.new }
    ensures holder { IsHandOf arena.now holder.new }
{
    let refused = turn_beside_slabs(arena, hand, holder);
    assert_equal(rt, refused, Some(Err(TryTurn::Held)), what);
}

/// The counts of a turn that evicted this many items, and found this many locked.
fn evicted(count: u64, locked: u64) -> Counts {
    Counts {
        cleared: count,
        rescued: 0,
        evicted: count,
        busy: 0,
        locked,
    }
}

/// A page moves while another hand has the stripe of its item.
fn move_beside_stripe<R: Abort + Wait>(rt: &R, alloc: Global, two: &mut Two) -> Result<(), Fail>
    requires { AreReady two.old }
{
    let Two { arena, hand, other } = two;
    let steps = [Step::Sets(1, 9, 61), Step::Reassigns(Some(4), 1, Ok(()))];
    play_all(rt, alloc, arena, hand, &steps)?;
    let went = turn_beside_stripe(arena, hand, other, 1);
    let wanted = Turn::Went(evicted(1, 1));
    assert_equal(rt, went, Some(Ok(wanted)), "beside its stripe");
    let wanted = Turn::Finished(evicted(1, 0));
    assert_turn(rt, arena, hand, wanted, "once it was given");
    let steps = [Step::Moved(1, 0, 2, 1)];
    play_all(rt, alloc, arena, hand, &steps)?;
    Ok(())
}

#[test]
fn a_held_stripe_holds_up_the_page(rt: HostRuntime) -> Result<(), Fail> {
    play_two!(rt, move_beside_stripe)
}

/// Turns that don't wait, beside a hand that has the slabs.
fn turn_beside_held_slabs<R: Abort + Wait>(rt: &R, alloc: Global, two: &mut Two) -> Result<(), Fail>
    requires { AreReady two.old }
{
    let Two { arena, hand, other } = two;
    assert_held(rt, arena, hand, other, "no page moves");
    let steps = [Step::Sets(1, 9, 61), Step::Reassigns(Some(4), 1, Ok(()))];
    play_all(rt, alloc, arena, hand, &steps)?;
    assert_held(rt, arena, hand, other, "a page moves");
    let wanted = Turn::Finished(evicted(2, 0));
    assert_turn(rt, arena, hand, wanted, "once they were given");
    assert_turn(rt, arena, hand, Turn::Idle, "when no page moves");
    Ok(())
}

#[test]
fn who_does_not_wait_is_told_that_the_slabs_are_held(rt: HostRuntime) -> Result<(), Fail> {
    play_two!(rt, turn_beside_held_slabs)
}
