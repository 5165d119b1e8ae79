//! What is left of an arena that several hands used, against what they counted of their calls.
ghost use Rattle.testlib_hands.specs.Hands.{IsEmptyHandOf};

use crate::races::driver::Tally;
use crate::races::replays::{Calls, are_first_stamps, are_legal, calls_of, is_ledger_right};
use crate::races::words::KEYS;
use crate::races::workers::Told;
use mc_mover::{Survey, survey};
use mc_stripe::HandId;
use mc_words::{Arena, Final, Hand};
use std::alloc::Global;
use std::sync::Wait;
use std::test::Fail;
use testlib_hands::{NO_SUMS, Sums, Turns, all_sums, check, class_sums, count_keys, count_pages};

/// The chunks of each class are those of its pages: free, linked, or cleared on a moving page. How many are free, and linked.
fn sum_classes(left: &Final, found: &Survey) -> Option<Sums> {
    let mut sums = NO_SUMS;
    for place in 0..found.classes.len() {
        let class = class_sums(left, place as u64 + 1)?;
        if class.free != found.classes[place].free {
            return None;
        }
        sums = sums.and(class);
    }
    Some(sums)
}

/// How many items sets evicted.
fn evictions(found: &Survey) -> u64 {
    let mut sum = 0u64;
    for numbers in found.classes.iter() {
        sum = sum.saturating_add(numbers.evictions);
    }
    sum
}

/// Every chunk is free, cleared, or linked by its key and held by nobody.
fn check_chunks(left: &Final, found: &Survey) -> Result<(), Fail> {
    let Some(sums) = sum_classes(left, found) else {
        return Err(Fail::new("nobody holds a chunk of a class"));
    };
    let Some(all) = all_sums(left) else {
        return Err(Fail::new("nobody holds a chunk"));
    };
    let chunks = (all.free, all.dead, all.linked);
    check(
        chunks == (sums.free, 0, sums.linked),
        "chunks of classes are all",
    )?;
    check(
        count_keys(left, KEYS) == Some(all.linked),
        "each item has a key",
    )
}

/// Each page has one owner, and the ledger leads there.
fn check_pages(alloc: Global, left: &Final, found: &Survey) -> Result<(), Fail> {
    let Some(pages) = count_pages(left) else {
        return Err(Fail::new("nobody has pages and lists"));
    };
    let granted = pages
        .owned
        .saturating_add(pages.moving)
        .saturating_add(pages.pool);
    let totals = found.totals;
    let told = (totals.pool, found.running as u64, totals.granted);
    check(
        (pages.pool, pages.moving, granted) == told,
        "pages as surveyed",
    )?;
    check(
        is_ledger_right(alloc, left)?,
        "the ledger leads to the owners",
    )
}

/// The calls of a worker are those that it counted, with stamps from 1 on. Returns how many items its sets evicted.
fn check_worker(alloc: Global, left: &Final, hand: HandId, told: Told) -> Result<u64, Fail> {
    check(told.wrong == 0, "each item has its own words")?;
    let Some(calls) = calls_of(left, hand) else {
        return Err(Fail::new("nobody has a stripe"));
    };
    let own = Calls {
        evicts: calls.evicts,
        ..told.calls
    };
    check(calls == own, "a worker's calls are in the histories")?;
    check(
        are_first_stamps(alloc, left, hand, calls.sets)?,
        "its stamps are 1 to n",
    )?;
    Ok(calls.evicts)
}

/// The calls of a mover are those that its turns counted.
fn check_mover(left: &Final, hand: HandId, tally: Tally) -> Result<(), Fail> {
    check(tally.wrong == 0, "each survey adds up")?;
    let own = Calls {
        sets: 0,
        gets: 0,
        deletes: 0,
        evicts: tally.turns.evicted,
        rescues: tally.turns.rescued,
    };
    check(
        calls_of(left, hand) == Some(own),
        "a mover's calls are in the histories",
    )
}

/// What was counted in all is what both movers counted.
fn check_moves(found: &Survey, low: Turns, high: Turns) -> Result<(), Fail> {
    let totals = found.totals;
    let counted = (totals.moved, totals.rescues, totals.evictions_nomem);
    let told = (
        low.moved.saturating_add(high.moved),
        low.rescued.saturating_add(high.rescued),
        low.evicted.saturating_add(high.evicted),
    );
    check(counted == told, "moves as told")?;
    let held_up = low.held_up.saturating_add(high.held_up);
    check(totals.busy <= held_up, "busy at most as told")
}

/// The closed arena agrees with the survey and with what the hands counted, and each call that they counted is in a history.
fn check_final(
    alloc: Global,
    left: &Final,
    found: &Survey,
    low: (Tally, Told),
    high: (Tally, Told),
) -> Result<(), Fail> {
    check_chunks(left, found)?;
    check_pages(alloc, left, found)?;
    check_moves(found, low.0.turns, high.0.turns)?;
    check_mover(left, 0, low.0)?;
    check_mover(left, 2, high.0)?;
    let evicted = check_worker(alloc, left, 1, low.1)?;
    let more = check_worker(alloc, left, 3, high.1)?;
    check(
        evicted.saturating_add(more) == evictions(found),
        "evictions as counted",
    )?;
    check(are_legal(alloc, left)?, "each history leads to its index")
}

/// What the hands left is as it is to be, and each call that they counted is in a history.
pub fn check_left<R: Wait>(
    rt: &R,
    alloc: Global,
    arena: Arena,
    hand: Hand,
    low: (Tally, Told),
    high: (Tally, Told),
) -> Result<(), Fail>
    requires hand { IsEmptyHandOf arena hand }
{
    let mut hand = hand;
    let surveyed = survey(rt, alloc, &arena, &mut hand, true);
    let left = arena.close(hand);
    let checked = match &surveyed {
        Ok(found) => check_final(alloc, &left, found, low, high),
        Err(_) => Err(Fail::new("there is memory for a survey")),
    };
    drop(left);
    checked
}
