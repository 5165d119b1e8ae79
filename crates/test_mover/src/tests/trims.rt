//! Stripes and a ledger that are trimmed between calls, and stripes that forget their calls: the answers are the same, and
//! nothing before a trim is recorded.
ghost use Rattle.mc_words.specs.hand.Ready.{IsReadyHandOf};

use super::assert_same;
use super::steps::Step;
use mc_classes::PageId;
use mc_pages::{ChunkId, Reassign};
use mc_words::{Arena, Final, Hand};
use std::alloc::Global;
use std::sync::Wait;
use std::test::Fail;
use testlib_hands::{FOUR_CLASSES, StepError, Two, count_keys, head, opened_two, play_all};

/// The arena that these calls leave.
fn close_behind<R: Wait>(rt: &R, alloc: Global, steps: &[Step]) -> Result<Final, Fail> {
    let Two {
        arena,
        mut hand,
        other: _other,
    } = opened_two(alloc, &FOUR_CLASSES)?;
    let played = play_all(rt, alloc, &arena, &mut hand, steps);
    let left = arena.close(hand);
    played?;
    Ok(left)
}

/// How many calls of all stripes are recorded, and how many aren't.
fn counts_of(left: &Final) -> (usize, u64) {
    let (mut recorded, mut trimmed) = (0usize, 0u64);
    for number in 0..left.config().stripes {
        if let Some(stripe) = left.stripe(number) {
            recorded = recorded.saturating_add(stripe.history().len());
            trimmed = trimmed.saturating_add(stripe.trimmed());
        }
    }
    (recorded, trimmed)
}

/// How many entries the ledger has, and how many it had before a trim; and whether each page has the owner that the base records.
fn entries_of(left: &Final) -> Option<(usize, u64, bool)> {
    let slabs = left.slabs()?;
    let mut same = true;
    for page in 0..left.classes().arena_pages() {
        let told = slabs.base().get(page as usize).map(|told| told.owner);
        same = same && left.owner(page) == told;
    }
    Some((slabs.ledger().len(), slabs.trimmed(), same))
}

/// For how many keys the bases have a stamp. None where a stripe has no base.
fn count_based(left: &Final) -> Option<usize> {
    let mut keys = 0usize;
    for number in 0..left.config().stripes {
        keys = keys.saturating_add(left.stripe(number)?.base()?.len());
    }
    Some(keys)
}

/// How many calls are recorded and how many aren't, the keys of the bases, and what the entries record.
type Told = ((usize, u64), Option<usize>, Option<(usize, u64, bool)>);

/// What the arena records that these calls leave.
fn told_behind<R: Wait>(rt: &R, alloc: Global, steps: &[Step]) -> Result<Told, Fail> {
    let left = close_behind(rt, alloc, steps)?;
    Ok((counts_of(&left), count_based(&left), entries_of(&left)))
}

/// Four pages that were granted, and the beginning and the end of a move.
const ENTRIES: u64 = 6;

/// Eight sets, a delete, a rescue, an eviction, and two touches, of which one finds its key.
const CALLS: u64 = 13;

#[test]
fn a_trim_after_each_call_changes_no_answer(rt: HostRuntime) -> Result<(), Fail> {
    let steps = [
        Step::Trims,
        Step::Sets(1, 5, 61),
        Step::Trims,
        Step::Sets(5, 9, 61),
        Step::Trims,
        Step::Deletes(8),
        Step::Trims,
        Step::Reassigns(Some(4), 1, Ok(())),
        Step::Trims,
        Step::Reassigns(Some(4), 1, Err(Reassign::Busy)),
        Step::Finishes(2, 1, 1, 0, 0),
        Step::Trims,
        Step::Touches(2, true),
        Step::Trims,
        Step::Touches(1, false),
        Step::Trims,
    ];
    let told = told_behind(&rt, rt.alloc(), &steps)?;
    // of eight keys one was deleted, and one evicted
    let wanted = ((0, CALLS), Some(6), Some((0, ENTRIES, true)));
    assert_same(&rt, told, wanted, "calls, keys and entries");
    Ok(())
}

#[test]
fn what_comes_behind_a_trim_is_recorded(rt: HostRuntime) -> Result<(), Fail> {
    let steps = [
        Step::Sets(1, 9, 61),
        Step::Trims,
        Step::Deletes(8),
        Step::Reassigns(Some(4), 1, Ok(())),
        Step::Finishes(2, 1, 1, 0, 0),
        Step::Touches(2, true),
        Step::Touches(1, false),
    ];
    let told = told_behind(&rt, rt.alloc(), &steps)?;
    // the move's two entries come behind the trim
    let wanted = ((5, CALLS - 5), Some(8), Some((2, ENTRIES - 2, false)));
    assert_same(&rt, told, wanted, "calls, keys and entries");
    Ok(())
}

#[test]
fn what_is_forgotten_is_not_recorded(rt: HostRuntime) -> Result<(), Fail> {
    let steps = [
        Step::Forgets,
        Step::Sets(1, 9, 61),
        Step::Deletes(8),
        Step::Reassigns(Some(4), 1, Ok(())),
        Step::Finishes(2, 1, 1, 0, 0),
        Step::Touches(2, true),
        Step::Touches(1, false),
        Step::Trims,
    ];
    let told = told_behind(&rt, rt.alloc(), &steps)?;
    let wanted = ((0, CALLS), None, Some((0, ENTRIES, true)));
    assert_same(&rt, told, wanted, "calls, keys and entries");
    Ok(())
}

/// The calls of two moves: each of two classes gives a page.
const TWO_MOVES: [Step; 18] = [
    Step::Sets(1, 2, 61),
    Step::Sets(2, 3, 61),
    Step::Sets(3, 4, 61),
    Step::Sets(4, 5, 61),
    Step::Sets(11, 12, 20),
    Step::Sets(12, 13, 20),
    Step::Sets(13, 14, 20),
    Step::Sets(14, 15, 20),
    Step::Sets(15, 16, 20),
    Step::Sets(16, 17, 20),
    Step::Reassigns(None, 1, Ok(())),
    Step::Finishes(5, 4, 1, 0, 0),
    Step::Reassigns(None, 1, Ok(())),
    Step::Finishes(2, 0, 2, 0, 0),
    Step::Moved(2, 4, 3, 0),
    Step::Touches(11, false),
    Step::Touches(12, true),
    Step::Touches(16, true),
];

/// Each call gives what it is to, and so does a trim after it.
fn play_trimmed<R: Wait>(
    rt: &R,
    alloc: Global,
    arena: &Arena,
    hand: &mut Hand,
    steps: &[Step],
) -> Result<(), StepError>
    requires arena { IsReadyHandOf arena.now hand.old }
    ensures arena { IsReadyHandOf arena.now hand.new }
{
    for place in 0..steps.len() {
        play_all(rt, alloc, arena, hand, &steps[place..place + 1])?;
        play_all(rt, alloc, arena, hand, &[Step::Trims])?;
    }
    Ok(())
}

/// The arena that these calls leave, each with a trim after it.
fn close_trimmed<R: Wait>(rt: &R, alloc: Global, steps: &[Step]) -> Result<Final, Fail> {
    let Two {
        arena,
        mut hand,
        other: _other,
    } = opened_two(alloc, &FOUR_CLASSES)?;
    let played = play_trimmed(rt, alloc, &arena, &mut hand, steps);
    let left = arena.close(hand);
    played?;
    Ok(left)
}

/// Whether the chunks of a page have the same headers in both, however it is cut.
fn has_same_heads(left: &Final, other: &Final, page: PageId) -> bool {
    let classes = left.classes();
    if classes.count() < 1 {
        return false;
    }
    let mut same = true;
    for index in 0..classes.per_page(1) {
        let chunk = ChunkId { page, index };
        same = same && head(left, chunk) == head(other, chunk);
    }
    same
}

/// Whether each page has the same owner in both, and the same headers.
fn has_same_pages(left: &Final, other: &Final) -> bool {
    let pages = left.classes().arena_pages();
    let mut same = true;
    for page in 0..pages {
        if page >= other.classes().arena_pages() {
            return false;
        }
        let owner = left.owner(page);
        same = same && owner.is_some() && owner == other.owner(page);
        same = same && has_same_heads(left, other, page);
    }
    same
}

/// What a run with trims is to record, by one of the same calls without: as many calls and entries, of which none is recorded,
/// and a stamp for each key.
fn told_without_trims(left: &Final) -> Told {
    let (calls, _) = counts_of(left);
    let entries = entries_of(left).map(|(entries, _, _)| (0, entries as u64, true));
    let keys = count_keys(left, 20).map(|keys| keys as usize);
    ((0, calls as u64), keys, entries)
}

#[test]
fn a_trim_after_each_call_of_two_moves_changes_no_page(rt: HostRuntime) -> Result<(), Fail> {
    for end in 0..=TWO_MOVES.len() {
        let steps = &TWO_MOVES[..end];
        let plain = close_behind(&rt, rt.alloc(), steps)?;
        let left = close_trimmed(&rt, rt.alloc(), steps)?;
        let told = (counts_of(&left), count_based(&left), entries_of(&left));
        assert_same(
            &rt,
            (end, told, has_same_pages(&plain, &left)),
            (end, told_without_trims(&plain), true),
            "calls, keys, entries and pages",
        );
    }
    Ok(())
}

#[test]
fn two_moves_with_a_trim_after_each_call_are_counted(rt: HostRuntime) -> Result<(), Fail> {
    let left = close_trimmed(&rt, rt.alloc(), &TWO_MOVES)?;
    let told = (counts_of(&left), count_based(&left), entries_of(&left));
    // ten sets, four rescues, three evictions and three touches; of ten keys three were evicted; four pages and two moves
    let wanted = ((0, 20), Some(7), Some((0, 8, true)));
    assert_same(&rt, told, wanted, "calls, keys and entries");
    Ok(())
}
