//! A planted fault: a refused call that left what it may not makes its row fail.
ghost use Rattle.std.specs.Prelude.{◌≡◌, true, IfSome};
ghost use Rattle.mc_core.specs.model.State.{has_chunk};
ghost use Rattle.mc_words.specs.hand.Arenas.{setup_of};
ghost use Rattle.mc_words.specs.hand.Observers.{hint_chunk};
ghost use Rattle.mc_words.specs.hand.Ready.{IsReadyHandOf};
ghost use Rattle.test_refusals.specs.Threes.{AreReadyOf};

use super::assert_same;
use super::calls::{Answer, Call};
use super::looking::{Looker, look_after, look_before};
use super::opening::{Three, drop_three, opened};
use super::snapshot::LENGTH;
use super::steps::{Row, Step, behind_refusal, play_all};
use mc_items::again;
use mc_stripe::Key;
use mc_words::{Arena, Hand, Hint};
use std::process::Abort;
use std::sync::Wait;
use std::test::Fail;
use testlib_hands::hint_of;
use testlib_values::FOUR_CLASSES;

/// A call of each kind.
const CALLS: [Call; 10] = [
    Call::Set(9, 61),
    Call::Get(1),
    Call::TryGet(1),
    Call::Delete(1),
    Call::Touch(1),
    Call::Reassign(Some(4), 1),
    Call::Turn,
    Call::TryTurn,
    Call::Survey(true),
    Call::Trim,
];

/// A hint of the key's item, whose reference is given up: once more where the first is refused memory.
fn hint_again<R: Wait>(rt: &R, arena: &Arena, hand: &mut Hand, key: Key) -> Option<Hint>
    requires arena { IsReadyHandOf arena.now hand.old }
    ensures arena { IsReadyHandOf arena.now hand.new }
    ensures in_range { IfSome result (λ hint. has_chunk (setup_of arena.now).table (hint_chunk hint)
        ≡ true) }
{
    match hint_of(rt, arena, hand, key) {
        Some(hint) => Some(hint),
        None => hint_of(rt, arena, hand, key),
    }
}

/// A call that reports that memory was refused to it, and left a header changed: the chunk is held for good.
fn refused_but_held(arena: &Arena, reader: &mut Hand, hint: Hint) -> Answer
    requires arena { IsReadyHandOf arena.now reader.old }
    requires in_range { has_chunk (setup_of arena.now).table (hint_chunk hint) ≡ true }
{
    match again(arena, reader, hint) {
        Ok(_) => Answer::NoMemory,
        Err(_) => Answer::Refused,
    }
}

/// How many of the calls' rows don't fail, where the call was refused between these snapshots, and then gave what it is to.
fn count_right(before: &[u64], after: &[u64]) -> usize {
    CALLS
        .iter()
        .filter(|call| {
            let step = (**call, Answer::Done);
            behind_refusal(step, before, after, Answer::Done) != Row::Fails
        })
        .count()
}

/// Any one number that isn't as before is found, whatever the call.
fn assert_found(rt: &impl Abort, before: &[u64], after: &mut Vec<u64>) {
    for place in 0..LENGTH {
        if place < after.len() {
            let number = after[place];
            after[place] = number ^ 1;
            let found = (place, count_right(before, after));
            assert_same(rt, found, (place, 0), "one number is changed");
            after[place] = number;
        }
    }
}

/// Two items of class 4.
const ITEMS: [Step; 2] = [
    (Call::Set(1, 61), Answer::Done),
    (Call::Set(2, 61), Answer::Done),
];

/// `is_so` is true, and another snapshot lets `wanted` of the calls' rows go on.
fn assert_right(
    rt: &impl Abort,
    arena: &Arena,
    looker: &mut Looker,
    acting: &Hand,
    is_so: bool,
    wanted: usize,
    what: &str,
)
    requires looker { IsReadyHandOf arena.now looker.old.hand }
    ensures looker { IsReadyHandOf arena.now looker.new.hand }
{
    let again = look_after(arena, looker, acting);
    let right = count_right(&looker.before, &looker.after);
    assert_same(rt, (is_so, again, right), (true, true, wanted), what);
}

/// Snapshots before and behind nothing, and before and behind a call that changes a header and reports that it was refused.
fn look_around_a_fault<R: Abort + Wait + Print>(rt: &R, all: &mut Three) -> Result<(), Fail>
    requires ready { AreReadyOf all.old.arena all.old.hand all.old.reader all.old.looker.hand }
{
    if !play_all(rt, all, &ITEMS) {
        return Ok(());
    }
    let Some(hint) = hint_again(rt, &all.arena, &mut all.reader, 1) else {
        return Err(Fail::new("the key has an item"));
    };
    let seen = look_before(&all.arena, &mut all.looker, &all.hand);
    assert_right(
        rt,
        &all.arena,
        &mut all.looker,
        &all.hand,
        seen,
        10,
        "nothing is changed",
    );
    assert_found(rt, &all.looker.before, &mut all.looker.after);
    let refused = refused_but_held(&all.arena, &mut all.reader, hint) == Answer::NoMemory;
    assert_right(
        rt,
        &all.arena,
        &mut all.looker,
        &all.hand,
        refused,
        0,
        "a header is changed",
    );
    Ok(())
}

#[test]
fn what_may_not_be_left_is_found(rt: HostRuntime) -> Result<(), Fail> {
    let mut all = opened(&rt, rt.alloc(), &FOUR_CLASSES)?;
    let looked = look_around_a_fault(&rt, &mut all);
    drop_three(all);
    looked
}
