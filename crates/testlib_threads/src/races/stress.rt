//! Two movers move pages, while two workers store, get by hints, keep, read, touch and delete items of few keys.
ghost use Rattle.std.specs.Prelude.{IfOk};
ghost use Rattle.testlib_hands.specs.Hands.{AreEmptyHandsOf, IsEmptyHandOf};

use crate::races::driver::Driver;
use crate::races::ends::check_left;
use crate::races::workers::Worker;
use mc_classes::Config;
use mc_words::{Arena, Hand};
use std::alloc::Global;
use std::sync::Wait;
use std::test::Fail;
use std::thread::Threads;
use testlib_hands::{FOUR_CLASSES, Worked, next_hand, opened, work_four};

/// Twelve pages; classes of 48, 96, 192 and 512 bytes with 21, 10, 5 and 2 chunks a page. A turn looks at three chunks.
pub const TWELVE_PAGES: Config = Config {
    limit: 12_288,
    bulk: 3,
    ..FOUR_CLASSES
};

/// A mover, and a worker beside it.
type Pair = (Driver, Worker);

/// Two of them, with the four hands of the lowest numbers that are left, which are the threads' numbers.
fn two_pairs(arena: &Arena, hands: &mut Vec<Hand>) -> Result<(Pair, Pair), Fail>
    requires hands { AreEmptyHandsOf arena.now hands.old.items }
    ensures low { IfOk result (λ jobs. IsEmptyHandOf arena.now jobs.0.0.1
        × IsEmptyHandOf arena.now jobs.0.1.1) }
    ensures high { IfOk result (λ jobs. IsEmptyHandOf arena.now jobs.1.0.1
        × IsEmptyHandOf arena.now jobs.1.1.1) }
{
    let mover = Driver(0, next_hand(arena, hands)?);
    let low = (mover, Worker(1, next_hand(arena, hands)?));
    let mover = Driver(2, next_hand(arena, hands)?);
    let high = (mover, Worker(3, next_hand(arena, hands)?));
    Ok((low, high))
}

/// What a worker keeps reads as it was stored, beside two movers; and what is left agrees with what all of them counted.
pub fn what_is_kept_is_read_beside_two_movers<R: Threads + Wait + Sync>(
    rt: &R,
    alloc: Global,
) -> Result<(), Fail> {
    let (arena, mut hands) = opened(alloc, &TWELVE_PAGES, 4)?;
    let (low, high) = two_pairs(&arena, &mut hands)?;
    let Worked { hand, told } = work_four(rt, alloc, &arena, low, high);
    let (low, high) = told;
    check_left(rt, alloc, arena, hand, low, high)
}
