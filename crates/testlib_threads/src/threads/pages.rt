//! A mover's thread moves pages between four classes, while three workers store, hold, read and delete items.
ghost use Rattle.std.specs.Prelude.{IfOk};
ghost use Rattle.testlib_hands.specs.Hands.{AreEmptyHandsOf, IsEmptyHandOf};

use crate::threads::driver::{Mover, end_if};
use crate::threads::workers::{KEYS, Worker, store_each};
use mc_classes::{ClassId, Config};
use mc_words::{Arena, Final, Hand};
use std::alloc::Global;
use std::sync::Wait;
use std::test::Fail;
use std::thread::Threads;
use testlib_hands::{
    FOUR_CLASSES, NO_SUMS, Stats, Sums, Turns, Worked, all_sums, check, class_sums, count_keys,
    count_pages, next_hand, opened, pair_of, set_mode_by, stats_of, work_four,
};

/// Eight pages; the same four classes. A turn looks at three chunks.
const EIGHT_PAGES: Config = Config {
    limit: 8192,
    bulk: 3,
    ..FOUR_CLASSES
};

/// What the threads return: the mover's turns, and of each worker how many rounds showed words of other items.
type Told = ((Turns, u64), (u64, u64));

/// All threads' work in this mode, once items were stored.
fn stress<R: Threads + Wait + Sync>(
    rt: &R,
    alloc: Global,
    arena: &Arena,
    hands: &mut Vec<Hand>,
    mode: u64,
) -> Result<Worked<Told>, Fail>
    requires hands { AreEmptyHandsOf arena.now hands.old.items }
    ensures hand { IfOk result (λ worked. IsEmptyHandOf arena.now worked.hand) }
{
    let mut hand = next_hand(arena, hands)?;
    if !set_mode_by(rt, arena, &mut hand, mode) {
        return Err(Fail::new("there is such a mode"));
    }
    store_each(rt, alloc, arena, &mut hand)?;
    let first = Worker(1, pair_of(arena, hands)?);
    let second = Worker(2, pair_of(arena, hands)?);
    let third = Worker(3, pair_of(arena, hands)?);
    let low = (Mover(hand), first);
    Ok(work_four(rt, alloc, arena, low, (second, third)))
}

/// The class's chunks are those of its pages, and what is used is linked, or cleared on a moving page. How many they are.
fn check_class(left: &Final, stats: &Stats, class: ClassId) -> Result<Sums, Fail> {
    let Some(sums) = class_sums(left, class) else {
        return Err(Fail::new("nobody holds a chunk"));
    };
    let Some(chunks) = stats.class(left.classes(), class) else {
        return Err(Fail::new("the survey has the class"));
    };
    check(sums.free == chunks.free, "the survey tells the free chunks")?;
    check(sums.dead == 0, "no chunk is dead behind a sweep")?;
    let used = sums.linked.saturating_add(sums.out);
    check(used == chunks.used, "the survey tells the used chunks")?;
    Ok(sums)
}

/// The pages of all classes and of the pool and those that were never granted are all, and at most one of them moves.
fn check_pages(left: &Final, stats: &Stats) -> Result<(), Fail> {
    let Some(pages) = count_pages(left) else {
        return Err(Fail::new("nobody has pages and lists"));
    };
    let running = stats.running as u64;
    check(pages.pool == stats.totals.pool, "the pool is told")?;
    check(pages.moving == running, "the moving page is told")?;
    let here = pages.owned.saturating_add(pages.moving);
    let granted = here.saturating_add(pages.pool);
    let told = stats.totals.granted;
    check(granted == told, "the granted pages are told")?;
    let all = granted.saturating_add(pages.untouched);
    let wanted = left.classes().arena_pages();
    check(all == wanted, "each page is accounted for")
}

/// Each chunk that is free or linked is one of a class's pages, and each linked one has a key.
fn check_chunks(left: &Final, stats: &Stats) -> Result<(), Fail> {
    let mut sums = NO_SUMS;
    for class in 1..5 {
        let found = check_class(left, stats, class)?;
        sums = sums.and(found);
    }
    let Some(all) = all_sums(left) else {
        return Err(Fail::new("nobody holds a chunk"));
    };
    let found = (all.free, all.dead, all.linked);
    let wanted = (sums.free, 0, sums.linked);
    check(found == wanted, "the chunks are those of the classes")?;
    let keys = count_keys(left, KEYS);
    check(keys == Some(all.linked), "each item has its key")
}

/// The statistics of moves are what the turns counted. What held up a pass is counted at its end.
fn check_tally(stats: &Stats, tally: Turns, ends: bool) -> Result<(), Fail> {
    let totals = stats.totals;
    let found = (totals.moved, totals.rescues, totals.evictions_nomem);
    let told = (tally.moved, tally.rescued, tally.evicted);
    check(found == told, "moves are told as the turns told them")?;
    let is_most = totals.busy <= tally.held_up;
    check(is_most, "no more held up a pass than was told")?;
    let is_all = !ends || totals.busy == tally.held_up;
    check(is_all, "all that held up a pass was counted at its end")
}

/// The closed arena agrees with the survey and the turns.
fn check_final(
    left: &Final,
    surveyed: Option<Stats>,
    tally: Turns,
    ends: bool,
) -> Result<(), Fail> {
    let Some(stats) = surveyed else {
        return Err(Fail::new("there is memory for a survey"));
    };
    check_tally(&stats, tally, ends)?;
    check_pages(left, &stats)?;
    check_chunks(left, &stats)
}

/// What the threads left is as it is to be. The move that runs is ended first, where that is asked for.
fn check_left<R: Wait>(
    rt: &R,
    alloc: Global,
    arena: Arena,
    worked: Worked<Told>,
    ends: bool,
) -> Result<(), Fail>
    requires hand { IsEmptyHandOf arena worked.hand }
{
    let Worked { mut hand, told } = worked;
    let ((mut tally, first), (second, third)) = told;
    let ended = end_if(rt, &arena, &mut hand, &mut tally, ends);
    let surveyed = stats_of(rt, alloc, &arena, &mut hand, true);
    let left = arena.close(hand);
    let accounted = check_final(&left, surveyed, tally, ends);
    drop(left);
    accounted?;
    let wrong = (first, second, third);
    check(wrong == (0, 0, 0), "no read shows words of another item")?;
    check(ended, "the last move ends")
}

/// All threads' work in this mode, and then what is left.
fn account<R: Threads + Wait + Sync>(
    rt: &R,
    alloc: Global,
    mode: u64,
    ends: bool,
) -> Result<(), Fail> {
    let (arena, mut hands) = opened(alloc, &EIGHT_PAGES, 7)?;
    let worked = stress(rt, alloc, &arena, &mut hands, mode)?;
    check_left(rt, alloc, arena, worked, ends)
}

/// Readers read what they stored, while pages move between the classes; a move may be under way at the end.
pub fn readers_keep_their_words_beside_a_mover<R: Threads + Wait + Sync>(
    rt: &R,
    alloc: Global,
) -> Result<(), Fail> {
    account(rt, alloc, 0, false)
}

/// Readers read what they stored, while pages move by evictions in place of rescues; turns at the end go on until no page moves.
pub fn the_last_move_ends_once_nobody_holds_an_item<R: Threads + Wait + Sync>(
    rt: &R,
    alloc: Global,
) -> Result<(), Fail> {
    account(rt, alloc, 2, true)
}
