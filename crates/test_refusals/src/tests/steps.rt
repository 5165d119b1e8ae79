//! Calls with what each is to give. One that is refused memory is made again, once what the refusal left was looked at.
ghost use Rattle.std.specs.Prelude.{◌≡◌};
ghost use Rattle.test_refusals.specs.Threes.{AreReadyOf};

use super::assert_same;
use super::calls::{Answer, Call, Numbers, answer_of};
use super::left::{has_died, is_left, numbers_left};
use super::looking::{Looker, look_after, look_before};
use super::opening::{Three, drop_three, opened};
use super::snapshot::{MOVING, at};
use super::told::entries_told;
use mc_classes::Config;
use std::alloc::Global;
use std::process::Abort;
use std::sync::Wait;
use std::test::Fail;
use testlib_values::{print_call, print_done, print_ignored, print_refused};

/// A call, and what it is to give.
pub type Step = (Call, Answer);

/// What becomes of a row behind a call.
#[derive(Clone, Copy, Debug, PartialEq, Eq)]
pub enum Row {
    Goes,
    /// A refusal left what the row doesn't know of.
    Ends,
    /// The call didn't give what it is to, or a refusal left what it may not.
    Fails,
}

// The row goes on if this is so.
fn goes_if(is_right: bool) -> Row {
    if is_right { Row::Goes } else { Row::Fails }
}

// Makes the call, and once more where it is refused memory, if it may be.
fn play<R: Wait + Print>(rt: &R, all: &mut Three, step: Step) -> Row
    requires ready { AreReadyOf all.old.arena all.old.hand all.old.reader all.old.looker.hand }
    ensures ready { AreReadyOf all.new.arena all.new.hand all.new.reader all.new.looker.hand }
    ensures reader { all.new.reader ≡ all.old.reader }
{
    let (call, wanted) = step;
    if !look_before(&all.arena, &mut all.looker, &all.hand) {
        return Row::Fails;
    }
    print_call(rt, call.name());
    let answer = make_call(rt, all, call);
    if !look_after(&all.arena, &mut all.looker, &all.hand) {
        return Row::Fails;
    }
    if answer != Answer::NoMemory || call.takes_no_memory() {
        return behind_call(rt, call, &all.looker, answer == wanted);
    }
    print_refused(rt, call.name());
    let again = make_call(rt, all, call);
    behind_refusal(step, &all.looker.before, &all.looker.after, again)
}

// Makes the call by the hand that acts.
fn make_call<R: Wait>(rt: &R, all: &mut Three, call: Call) -> Answer
    requires ready { AreReadyOf all.old.arena all.old.hand all.old.reader all.old.looker.hand }
    ensures ready { AreReadyOf all.new.arena all.new.hand all.new.reader all.new.looker.hand }
    ensures reader { all.new.reader ≡ all.old.reader }
{
    answer_of(
        rt,
        all.alloc,
        &all.arena,
        &mut all.hand,
        &all.looker.words,
        call,
    )
}

// What becomes of the row, once the call was made.
fn behind_call<R: Print>(rt: &R, call: Call, looker: &Looker, is_right: bool) -> Row {
    let stays = at(&looker.after, MOVING) == 0;
    let is_as_told = entries_told(&looker.before, &looker.after) == Some(0);
    if let Call::SetAndMove(..) = call {
        if stays {
            print_ignored(rt, call.name());
            return if is_right && is_as_told {
                Row::Ends
            } else {
                Row::Fails
            };
        }
    }
    print_done(rt, call.name());
    goes_if(is_right)
}

/// What becomes of the row, once the call was made again.
pub fn behind_refusal(step: Step, before: &[u64], after: &[u64], again: Answer) -> Row {
    let (call, wanted) = step;
    if !is_left(call, before, after) {
        return Row::Fails;
    }
    let both = match again {
        Answer::Went(last) => Answer::Went(sum(numbers_left(before, after), last)),
        Answer::Finished(last) => Answer::Finished(sum(numbers_left(before, after), last)),
        other => other,
    };
    if both == wanted && has_died(before, after) {
        return Row::Ends;
    }
    goes_if(both == wanted)
}

// What two turns count together.
fn sum(first: Numbers, last: Numbers) -> Numbers {
    let mut both = first;
    for place in 0..both.len() {
        both[place] = first[place].wrapping_add(last[place]);
    }
    both
}

/// Each call gives what it is to, one after another. False where a refusal ends the row.
pub fn play_all<R: Abort + Wait + Print>(rt: &R, all: &mut Three, steps: &[Step]) -> bool
    requires ready { AreReadyOf all.old.arena all.old.hand all.old.reader all.old.looker.hand }
    ensures ready { AreReadyOf all.new.arena all.new.hand all.new.reader all.new.looker.hand }
    ensures reader { all.new.reader ≡ all.old.reader }
{
    for place in 0..steps.len() {
        let row = play(rt, all, steps[place]);
        if row == Row::Ends {
            return false;
        }
        assert_same(rt, (place, row), (place, Row::Goes), "a step, from 0");
    }
    true
}

/// Plays several lists of calls, up to the first that a refusal ends.
pub fn play_each<R: Abort + Wait + Print>(rt: &R, all: &mut Three, lists: &[&[Step]])
    requires ready { AreReadyOf all.old.arena all.old.hand all.old.reader all.old.looker.hand }
{
    for place in 0..lists.len() {
        if !play_all(rt, all, lists[place]) {
            return;
        }
    }
}

/// Each call gives what it is to, in a new arena of this configuration.
pub fn run<R: Abort + Wait + Print>(
    rt: &R,
    alloc: Global,
    config: &Config,
    steps: &[Step],
) -> Result<(), Fail> {
    let mut all = opened(rt, alloc, config)?;
    play_all(rt, &mut all, steps);
    drop_three(all);
    Ok(())
}
