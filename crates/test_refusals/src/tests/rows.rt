//! Pages that move: the worked lists of calls, in which each call that takes memory is made.
ghost use Rattle.test_refusals.specs.Threes.{AreReadyOf};

use super::calls::{Answer, Call, FOUR_RESCUED, ONE_EVICTED, ONE_HELD, ONE_RESCUED, TWO_EVICTED};
use super::holding::{has_words, hold};
use super::opening::{Three, drop_three, opened};
use super::steps::{Step, play_all, play_each};
use mc_classes::Config;
use mc_items::release;
use std::alloc::Global;
use std::process::Abort;
use std::sync::Wait;
use std::test::Fail;
use testlib_values::FOUR_CLASSES;

/// Eight items of n words are stored. Of 61, or 22, they are four pages of class 4.
pub fn eight(words: usize) -> [Step; 8] {
    let set = |key| (Call::Set(key, words), Answer::Done);
    [
        set(1),
        set(2),
        set(3),
        set(4),
        set(5),
        set(6),
        set(7),
        set(8),
    ]
}

/// Mode 2 of the automover is set.
pub const MODE_TWO: [Step; 1] = [(Call::ModeTwo, Answer::Done)];

/// Plays these lists of calls, in a new arena of four classes.
pub fn run_each<R: Abort + Wait + Print>(
    rt: &R,
    alloc: Global,
    lists: &[&[Step]],
) -> Result<(), Fail> {
    run_each_in(rt, alloc, &FOUR_CLASSES, lists)
}

/// Plays these lists of calls, in a new arena of this configuration.
pub fn run_each_in<R: Abort + Wait + Print>(
    rt: &R,
    alloc: Global,
    config: &Config,
    lists: &[&[Step]],
) -> Result<(), Fail> {
    let mut all = opened(rt, alloc, config)?;
    play_each(rt, &mut all, lists);
    drop_three(all);
    Ok(())
}

/// A page of two items moves, of which one has a dead chunk to go to.
const RESCUED: [Step; 6] = [
    (Call::Delete(8), Answer::There(true)),
    (Call::Reassign(Some(4), 1), Answer::Done),
    (Call::Turn, ONE_RESCUED),
    (Call::Touch(2), Answer::There(true)),
    (Call::Touch(1), Answer::There(false)),
    (Call::Survey(true), Answer::Surveyed(false, [1, 1, 1, 0])),
];

#[test]
fn an_item_is_rescued_and_another_evicted(rt: HostRuntime) -> Result<(), Fail> {
    run_each(&rt, rt.alloc(), &[&eight(61), &RESCUED])
}

/// Gets fill the histories of two stripes up, which have the items of the first page, and another page has a dead chunk.
pub const FULL: [Step; 5] = [
    (Call::Get(1), Answer::There(true)),
    (Call::Get(1), Answer::There(true)),
    (Call::Get(2), Answer::There(true)),
    (Call::Get(2), Answer::There(true)),
    (Call::Delete(8), Answer::There(true)),
];

/// What is there behind the move of that page.
pub const BEHIND: [Step; 3] = [
    (Call::Touch(2), Answer::There(true)),
    (Call::Touch(1), Answer::There(false)),
    (Call::Survey(true), Answer::Surveyed(false, [1, 1, 1, 0])),
];

/// Eight items fill four pages, and gets fill the histories of two stripes up; a page goes to the pool by this call.
fn rescue_and_evict<R: Abort + Wait + Print>(
    rt: &R,
    alloc: Global,
    turn: Call,
) -> Result<(), Fail> {
    let moves = [
        (Call::Reassign(Some(4), 0), Answer::Done),
        (turn, ONE_RESCUED),
    ];
    run_each(rt, alloc, &[&eight(61), &FULL, &moves, &BEHIND])
}

#[test]
fn a_turn_is_refused_at_each_of_its_chunks(rt: HostRuntime) -> Result<(), Fail> {
    rescue_and_evict(&rt, rt.alloc(), Call::Turn)
}

#[test]
fn a_turn_that_waits_for_nobody_is_refused_so_too(rt: HostRuntime) -> Result<(), Fail> {
    rescue_and_evict(&rt, rt.alloc(), Call::TryTurn)
}

/// A page moves, and its item is held.
const WHILE_HELD: [Step; 4] = [
    (Call::Reassign(Some(4), 1), Answer::Done),
    (Call::Turn, ONE_HELD),
    (Call::Survey(true), Answer::Surveyed(true, [0, 0, 1, 1])),
    (Call::Reassign(Some(4), 2), Answer::Busy),
];

/// Two turns once nobody holds the page's item any more: the first evicts the item, and the second is idle.
const WHEN_RELEASED: [Step; 2] = [(Call::Turn, ONE_EVICTED), (Call::Turn, Answer::Idle)];

/// A page moves whose item the reader holds, reads and releases.
fn move_a_held_page<R: Abort + Wait + Print>(rt: &R, all: &mut Three) -> Result<(), Fail>
    requires ready { AreReadyOf all.old.arena all.old.hand all.old.reader all.old.looker.hand }
{
    if !play_all(rt, all, &eight(22)) {
        return Ok(());
    }
    let Some(item) = hold(rt, all, 1) else {
        return Err(Fail::new("the key has an item, and nothing was left behind"));
    };
    play_all(rt, all, &WHILE_HELD);
    if !has_words(rt, all, &item, 22) {
        return Err(Fail::new("words 0 to 21, and nothing was left behind"));
    }
    release(&all.arena, &mut all.reader, item);
    play_all(rt, all, &WHEN_RELEASED);
    Ok(())
}

#[test]
fn a_held_item_keeps_its_page(rt: HostRuntime) -> Result<(), Fail> {
    let mut all = opened(&rt, rt.alloc(), &FOUR_CLASSES)?;
    let played = move_a_held_page(&rt, &mut all);
    drop_three(all);
    played
}

/// Four items of class 4 and six of class 3, two pages of each.
pub const TWO_CLASSES: [Step; 10] = [
    (Call::Set(1, 61), Answer::Done),
    (Call::Set(2, 61), Answer::Done),
    (Call::Set(3, 61), Answer::Done),
    (Call::Set(4, 61), Answer::Done),
    (Call::Set(11, 20), Answer::Done),
    (Call::Set(12, 20), Answer::Done),
    (Call::Set(13, 20), Answer::Done),
    (Call::Set(14, 20), Answer::Done),
    (Call::Set(15, 20), Answer::Done),
    (Call::Set(16, 20), Answer::Done),
];

/// Two moves from any class: each class gives a page.
const IN_TURN: [Step; 7] = [
    (Call::Reassign(None, 1), Answer::Done),
    (Call::Turn, FOUR_RESCUED),
    (Call::Reassign(None, 1), Answer::Done),
    (Call::Turn, TWO_EVICTED),
    (Call::Survey(true), Answer::Surveyed(false, [2, 4, 3, 0])),
    (Call::Touch(11), Answer::There(false)),
    (Call::Touch(12), Answer::There(true)),
];

#[test]
fn two_classes_give_a_page_in_turn(rt: HostRuntime) -> Result<(), Fail> {
    run_each(&rt, rt.alloc(), &[&TWO_CLASSES, &IN_TURN])
}

/// A set that evicts begins a move.
pub const BEGINS_A_MOVE: [Step; 5] = [
    (Call::SetAndMove(5, 61), Answer::Done),
    (Call::Survey(true), Answer::Surveyed(true, [0, 0, 0, 0])),
    (Call::Turn, FOUR_RESCUED),
    (Call::Set(6, 61), Answer::Done),
    (Call::Touch(2), Answer::There(true)),
];

#[test]
fn an_eviction_begins_a_move(rt: HostRuntime) -> Result<(), Fail> {
    run_each(&rt, rt.alloc(), &[&MODE_TWO, &TWO_CLASSES, &BEGINS_A_MOVE])
}
