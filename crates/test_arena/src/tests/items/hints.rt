//! References that are had again by hints.
ghost use Rattle.std.specs.Prelude.{◌≡◌, true, IfOk};
ghost use Rattle.mc_core.specs.model.State.{has_chunk};
ghost use Rattle.mc_words.specs.hand.Arenas.{setup_of};
ghost use Rattle.mc_words.specs.hand.Observers.{hint_chunk};
ghost use Rattle.testlib_hands.specs.Pairs.{AreReady};

use super::MOST_WORDS;
use super::steps::Step;
use crate::tests::{assert_equal, assert_same};
use mc_items::again;
use mc_words::{Again, Hint};
use std::alloc::Global;
use std::process::Abort;
use std::slice::from_ref;
use std::sync::Wait;
use std::test::Fail;
use testlib_hands::{Getter, Two, follow, hint_of, play_all, play_two};

/// What is stored at first; then a hint of the first key's item.
pub fn hint_behind<R: Wait>(rt: &R, alloc: Global, two: &mut Two, first: Step) -> Result<Hint, Fail>
    requires { AreReady two.old }
    ensures two { AreReady two.new }
    ensures in_range { IfOk result (λ hint. has_chunk (setup_of two.new.arena).table
        (hint_chunk hint) ≡ true) }
{
    let Two { arena, hand, .. } = two;
    play_all(rt, alloc, arena, hand, &[first])?;
    match hint_of(rt, arena, hand, 1) {
        Some(hint) => Ok(hint),
        None => Err(Fail::new("the key has an item")),
    }
}

/// A hint of the first key's item leads its own hand to it. Behind each of these calls another hand follows it, which gives this.
fn follow_behind<R: Abort + Wait>(
    rt: &R,
    alloc: Global,
    two: &mut Two,
    first: Step,
    calls: &[(Step, Option<Again>)],
) -> Result<(), Fail>
    requires { AreReady two.old }
{
    let hint = hint_behind(rt, alloc, two, first)?;
    let Two { arena, hand, other } = two;
    let found = follow(arena, hand, hint);
    assert_equal(rt, found, None, "its own hint");
    for (step, wanted) in calls {
        play_all(rt, alloc, arena, hand, from_ref(step))?;
        let found = follow(arena, other, hint);
        assert_equal(rt, found, *wanted, "another's hint");
    }
    Ok(())
}

#[test]
fn a_hint_leads_to_its_item_until_that_is_gone(rt: HostRuntime) -> Result<(), Fail> {
    let calls = [
        (Step::Touches(1), None),
        (Step::Deletes(1), Some(Again::Gone)),
        (Step::Sets(1, 2, 0, MOST_WORDS), Some(Again::Gone)),
    ];
    play_two!(rt, follow_behind, Step::Sets(1, 2, 0, MOST_WORDS), &calls)
}

#[test]
fn what_was_evicted_is_not_had_again(rt: HostRuntime) -> Result<(), Fail> {
    let calls = [(Step::Sets(9, 10, 0, MOST_WORDS), Some(Again::Gone))];
    play_two!(rt, follow_behind, Step::Sets(1, 9, 0, MOST_WORDS), &calls)
}

/// An item is had again by its hint, and then a set evicts another.
fn have_again_and_evict<R: Abort + Wait>(rt: &R, alloc: Global, two: &mut Two) -> Result<(), Fail>
    requires { AreReady two.old }
{
    let hint = hint_behind(rt, alloc, two, Step::Sets(1, 9, 0, MOST_WORDS))?;
    let Two { arena, hand, other } = two;
    let had = again(arena, other, hint).is_ok();
    assert_same(rt, had, true, "again before the eviction");
    let steps = [
        Step::Sets(9, 10, 0, MOST_WORDS),
        Step::Finds(Getter::Get, 1, 2, true),
        Step::Finds(Getter::Get, 2, 3, false),
    ];
    play_all(rt, alloc, arena, hand, &steps)?;
    Ok(())
}

#[test]
fn what_is_had_again_is_not_evicted(rt: HostRuntime) -> Result<(), Fail> {
    play_two!(rt, have_again_and_evict)
}
