//! Calls of the mover that try for each lock n times: beside a hand that has it each is refused, and once it is given each is done.
ghost use Rattle.mc_words.specs.hand.Arenas.{IsHandOf};
ghost use Rattle.mc_words.specs.hand.Ready.{IsReadyHandOf};
ghost use Rattle.testlib_hands.specs.Pairs.{AreReady};

use super::steps::Step;
use super::{assert_equal, assert_same};
use mc_mover::{
    Counts, SurveyWithin, TrimWithin, TryTurn, Turn, forget_within, reassign_within,
    set_mode_within, survey_within, trim_ledger_within, trim_within, turn_within,
};
use mc_words::{Arena, Hand};
use std::alloc::Global;
use std::process::Abort;
use std::sync::Wait;
use std::test::Fail;
use testlib_hands::{Two, play_all, play_two};

/// Whether each call is refused as held at this many tries: a turn, a move, a mode, a survey, and trims of the ledger
/// and of all.
fn are_held(alloc: Global, arena: &Arena, hand: &mut Hand, tries: u64) -> [bool; 6]
    requires arena { IsReadyHandOf arena.now hand.old }
    ensures arena { IsReadyHandOf arena.now hand.new }
{
    [
        turn_within(arena, hand, tries) == Err(TryTurn::Held),
        reassign_within(arena, hand, None, 0, tries).is_err(),
        set_mode_within(arena, hand, 2, tries).is_err(),
        matches!(
            survey_within(alloc, arena, hand, true, tries),
            Err(SurveyWithin::Held)
        ),
        trim_ledger_within(arena, hand, tries).is_err(),
        trim_within(arena, hand, tries) == Err(TrimWithin::Held),
    ]
}

/// Whether each call is refused so, while another hand has the slabs. None where that hand didn't get them.
fn are_held_beside(
    alloc: Global,
    arena: &Arena,
    hand: &mut Hand,
    holder: &mut Hand,
    tries: u64,
) -> Option<[bool; 6]>
    requires arena { IsReadyHandOf arena.now hand.old }
    requires holder { IsHandOf arena.now holder.old }
    ensures arena { IsReadyHandOf arena.now hand.new }
    ensures holder { IsHandOf arena.now holder.new }
{
    let Ok(slabs) = arena.try_slabs(holder) else {
        return None;
    };
    let found = are_held(alloc, arena, hand, tries);
    arena.give_slabs(holder, slabs);
    Some(found)
}

/// Whether a trim and a forget of all stripes are refused at three tries, while another hand has the stripe. None where that hand didn't get it.
fn are_held_by_stripe(
    arena: &Arena,
    hand: &mut Hand,
    holder: &mut Hand,
    stripe: u64,
) -> Option<[bool; 2]>
    requires arena { IsReadyHandOf arena.now hand.old }
    requires holder { IsReadyHandOf arena.now holder.old }
    ensures arena { IsReadyHandOf arena.now hand.new }
    ensures holder { IsHandOf arena.now holder.new }
{
    if stripe >= arena.config().stripes {
        return None;
    }
    let Ok(held) = arena.try_stripe(holder, stripe) else {
        return None;
    };
    let trimmed = trim_within(arena, hand, 3);
    let forgotten = forget_within(arena, hand, 3);
    arena.give_stripe(holder, held);
    Some([trimmed == Err(TrimWithin::Held), forgotten.is_err()])
}

/// A survey within one try has this mode, and a page moves or none does.
fn assert_survey(
    rt: &impl Abort,
    alloc: Global,
    arena: &Arena,
    hand: &mut Hand,
    wanted: (u64, bool),
    what: &str,
)
    requires arena { IsReadyHandOf arena.now hand.old }
    ensures arena { IsReadyHandOf arena.now hand.new }
{
    let found = match survey_within(alloc, arena, hand, true, 1) {
        Ok(survey) => Some((survey.mode, survey.running)),
        Err(_) => None,
    };
    assert_same(rt, found, Some(wanted), what);
}

/// The two items of a page are evicted by one turn, once it is done.
fn move_within(rt: &impl Abort, alloc: Global, arena: &Arena, hand: &mut Hand)
    requires arena { IsReadyHandOf arena.now hand.old }
    ensures arena { IsReadyHandOf arena.now hand.new }
{
    let set = set_mode_within(arena, hand, 1, 1);
    assert_same(rt, set.is_ok(), true, "the mode is set");
    let begun = reassign_within(arena, hand, Some(4), 1, 1);
    assert_equal(rt, begun, Ok(Ok(())), "a move begins");
    assert_survey(rt, alloc, arena, hand, (1, true), "a page moves");
    let counts = Counts {
        cleared: 2,
        rescued: 0,
        evicted: 2,
        busy: 0,
        locked: 0,
    };
    let turned = turn_within(arena, hand, 1);
    assert_equal(rt, turned, Ok(Turn::Finished(counts)), "a turn");
    let trimmed = trim_ledger_within(arena, hand, 1);
    assert_same(rt, trimmed.is_ok(), true, "the ledger is trimmed");
    assert_survey(rt, alloc, arena, hand, (1, false), "no page moves");
}

/// Calls at no try, beside a hand that has the slabs, and once it gave them.
fn call_beside_held_slabs<R: Abort + Wait>(rt: &R, alloc: Global, two: &mut Two) -> Result<(), Fail>
    requires { AreReady two.old }
{
    let Two { arena, hand, other } = two;
    play_all(rt, alloc, arena, hand, &[Step::Sets(1, 9, 61)])?;
    assert_same(rt, are_held(alloc, arena, hand, 0), [true; 6], "no try");
    let beside = are_held_beside(alloc, arena, hand, other, 3);
    assert_same(rt, beside, Some([true; 6]), "three tries");
    move_within(rt, alloc, arena, hand);
    Ok(())
}

#[test]
fn who_tries_n_times_is_refused_until_the_slabs_are_given(rt: HostRuntime) -> Result<(), Fail> {
    play_two!(rt, call_beside_held_slabs)
}

/// Trims and forgets beside a hand that has a stripe, at no try, and once it gave the stripe.
fn forget_beside_held_stripe<R: Abort + Wait>(
    rt: &R,
    alloc: Global,
    two: &mut Two,
) -> Result<(), Fail>
    requires { AreReady two.old }
{
    let Two { arena, hand, other } = two;
    play_all(rt, alloc, arena, hand, &[Step::Sets(1, 9, 61)])?;
    let beside = are_held_by_stripe(arena, hand, other, 1);
    assert_same(rt, beside, Some([true; 2]), "beside a stripe");
    let untried = forget_within(arena, hand, 0);
    assert_same(rt, untried.is_err(), true, "no try");
    let trimmed = trim_within(arena, hand, 1);
    assert_equal(rt, trimmed, Ok(()), "all is trimmed");
    let forgotten = forget_within(arena, hand, 1);
    assert_same(rt, forgotten.is_ok(), true, "each stripe forgets");
    play_all(rt, alloc, arena, hand, &[Step::Reads(8, 1, 61)])?;
    Ok(())
}

#[test]
fn a_held_stripe_holds_up_trims_that_try_n_times(rt: HostRuntime) -> Result<(), Fail> {
    play_two!(rt, forget_beside_held_stripe)
}
