//! Hands that are lost while others go on: with references, with a stripe, and with pages and lists. Who doesn't wait goes on reading.
ghost use Rattle.std.specs.Prelude.{IfOk};
ghost use Rattle.testlib_hands.specs.Hands.{AreEmptyHandsOf, IsEmptyHandOf};
ghost use Rattle.testlib_threads.specs.Keepers.{AreNear, IsKeeperOf};

use crate::races::calls::set_key;
use crate::races::driver::Driver;
use crate::races::holding::give_all_back;
use crate::races::replays::is_stripe_legal;
use crate::races::stress::TWELVE_PAGES;
use crate::races::words::{KEYS, draw};
use crate::races::workers::{
    Keeper, NOTHING, give_one_back, keep_and_read, make_room, no_hints, place_in, read_one,
};
use mc_pages::ChunkId;
use mc_words::{Arena, Final, Hand};
use std::alloc::Global;
use std::sync::Wait;
use std::test::Fail;
use std::thread::Threads;
use testlib_hands::{Job, Worked, check, head, next_hand, opened, three_of, work_three};

/// How many rounds a reader has before its first hand is lost, and how many in all.
const ROUNDS: (u64, u64) = (16_000, 32_000);

/// How many references a reader keeps.
const MOST_KEPT: u64 = 3;

/// How often a lock is tried that is to be lost.
const TRIES: u64 = 1000;

/// One round of a reader, which waits for nobody.
fn act<R: Wait>(rt: &R, alloc: Global, arena: &Arena, keeper: &mut Keeper, drawn: u64)
    requires keeper { IsKeeperOf arena.now keeper.old.hand keeper.old.kept.items
        × AreNear arena.now keeper.old.hints.items }
    ensures keeper { IsKeeperOf arena.now keeper.new.hand keeper.new.kept.items
        × AreNear arena.now keeper.new.hints.items }
{
    make_room(arena, keeper, MOST_KEPT, drawn);
    let place = place_in(keeper.kept.len(), drawn);
    match drawn / 4096 % 8 {
        0..=3 => keep_and_read(rt, alloc, arena, keeper, drawn % KEYS, false),
        4 | 5 => read_one(alloc, arena, keeper, place),
        _ => give_one_back(arena, keeper, place),
    }
}

/// A reader's rounds from the first on, before the second.
fn act_often<R: Wait>(
    rt: &R,
    alloc: Global,
    arena: &Arena,
    keeper: &mut Keeper,
    thread: u64,
    rounds: (u64, u64),
)
    requires keeper { IsKeeperOf arena.now keeper.old.hand keeper.old.kept.items
        × AreNear arena.now keeper.old.hints.items }
    ensures keeper { IsKeeperOf arena.now keeper.new.hand keeper.new.kept.items
        × AreNear arena.now keeper.new.hints.items }
{
    for round in rounds.0..rounds.1 {
        act(rt, alloc, arena, keeper, draw(thread, round));
    }
}

/// Takes a stripe by a hand that is lost with it. False where another hand has it all the time.
fn lose_stripe(arena: &Arena, hand: Hand, stripe: u64) -> bool
    requires hand { IsEmptyHandOf arena.now hand }
{
    let mut hand = hand;
    for _try in 0..TRIES {
        if stripe >= arena.config().stripes || !hand.unlocked() {
            return false;
        }
        if arena.try_stripe(&mut hand, stripe).is_ok() {
            return true;
        }
    }
    false
}

/// Takes pages and lists by a hand that is lost with them.
fn lose_slabs(arena: &Arena, hand: Hand) -> bool
    requires hand { IsEmptyHandOf arena.now hand }
{
    let mut hand = hand;
    arena.try_slabs(&mut hand).is_ok()
}

/// What was lost with a thread's hands, and how often something was wrong.
#[derive(Clone, Copy)]
struct Lost {
    /// How many references were lost with the first one.
    refs: u64,
    /// Whether another was lost with the lock that it is to take.
    lock: bool,
    wrong: u64,
}

/// The mover's thread, with two hands: one moves pages, and one is lost with pages and lists behind that, if nobody has them.
#[derive(Drop)]
struct Mover(Hand, Hand);

impl Job for Mover {
    type Told = Lost;

    ghost is_ready = { λ arena job. IsEmptyHandOf arena job.0 × IsEmptyHandOf arena job.1 };

    fn work<R: Wait>(self, rt: &R, alloc: Global, arena: &Arena) -> Worked<Lost> {
        let Mover(hand, other) = self;
        let Worked { hand, told } = Driver(0, hand).work(rt, alloc, arena);
        let told = Lost {
            refs: 0,
            lock: lose_slabs(arena, other),
            wrong: told.wrong,
        };
        Worked { hand, told }
    }
}

/// A reader's thread: its number, and its hands. The first is lost with the references that it keeps, the second with the stripe of the
/// thread's number, and the third is left.
#[derive(Drop)]
struct Reader(u64, (Hand, Hand, Hand));

impl Job for Reader {
    type Told = Lost;

    ghost is_ready = { λ arena job. IsEmptyHandOf arena job.1.0 × IsEmptyHandOf arena job.1.1 × IsEmptyHandOf arena job.1.2 };

    fn work<R: Wait>(self, rt: &R, alloc: Global, arena: &Arena) -> Worked<Lost> {
        let Reader(thread, (first, second, hand)) = self;
        let Ok(hints) = no_hints(alloc, arena) else {
            let told = Lost {
                refs: 0,
                lock: false,
                wrong: 1,
            };
            return Worked { hand, told };
        };
        let mut keeper = Keeper {
            hand: first,
            kept: Vec::new(alloc),
            hints,
            told: NOTHING,
        };
        act_often(rt, alloc, arena, &mut keeper, thread, (0, ROUNDS.0));
        let Keeper {
            hand: _lost,
            kept,
            hints,
            told,
        } = keeper;
        let refs = kept.len() as u64;
        let lock = lose_stripe(arena, second, thread);
        let mut keeper = Keeper {
            hand,
            kept: Vec::new(alloc),
            hints,
            told,
        };
        act_often(rt, alloc, arena, &mut keeper, thread, ROUNDS);
        let hand = give_all_back(arena, keeper.hand, keeper.kept);
        let wrong = keeper.told.wrong;
        Worked {
            hand,
            told: Lost { refs, lock, wrong },
        }
    }
}

/// Stores an item for each key, while there is room.
fn store_each<R: Wait>(rt: &R, alloc: Global, arena: &Arena, hand: &mut Hand)
    requires arena { IsEmptyHandOf arena.now hand.old }
    ensures arena { IsEmptyHandOf arena.now hand.new }
{
    for key in 0..KEYS {
        let _stored = set_key(rt, alloc, arena, hand, key);
    }
}

/// A mover, and two readers.
type Jobs = (Mover, (Reader, Reader));

/// The jobs of a mover and two readers, with the eight hands of the lowest numbers that are left, once items were stored.
fn jobs_of<R: Wait>(
    rt: &R,
    alloc: Global,
    arena: &Arena,
    hands: &mut Vec<Hand>,
) -> Result<Jobs, Fail>
    requires hands { AreEmptyHandsOf arena.now hands.old.items }
    ensures mover { IfOk result (λ jobs. IsEmptyHandOf arena.now jobs.0.0
        × IsEmptyHandOf arena.now jobs.0.1) }
    ensures first { IfOk result (λ jobs. IsEmptyHandOf arena.now jobs.1.0.1.0
        × IsEmptyHandOf arena.now jobs.1.0.1.1 × IsEmptyHandOf arena.now jobs.1.0.1.2) }
    ensures second { IfOk result (λ jobs. IsEmptyHandOf arena.now jobs.1.1.1.0
        × IsEmptyHandOf arena.now jobs.1.1.1.1 × IsEmptyHandOf arena.now jobs.1.1.1.2) }
{
    let mut hand = next_hand(arena, hands)?;
    store_each(rt, alloc, arena, &mut hand);
    let mover = Mover(hand, next_hand(arena, hands)?);
    let first = Reader(1, three_of(arena, hands)?);
    let second = Reader(2, three_of(arena, hands)?);
    Ok((mover, (first, second)))
}

/// How many hold a chunk with this header beside the link. None where it is neither linked nor unlinked, but counts.
fn holders(header: u64) -> Option<u64> {
    let count = header % 65_536;
    match header / 65_536 % 4 {
        0 | 1 if count > 0 => None,
        3 => count.checked_sub(1),
        _ => Some(count),
    }
}

/// How many hold the first chunks of a page, each counted as often as it holds one.
fn holders_on(left: &Final, page: u64, count: u64) -> Option<u64> {
    let mut sum = 0u64;
    for index in 0..count {
        let chunk = ChunkId { page, index };
        sum = sum.checked_add(holders(head(left, chunk)?)?)?;
    }
    Some(sum)
}

/// How many hold the first chunks of all pages, each counted as often as it holds one.
fn all_holders(left: &Final) -> Option<u64> {
    let mut sum = 0u64;
    for page in 0..left.classes().arena_pages() {
        sum = sum.checked_add(holders_on(left, page, left.classes().per_page(1))?)?;
    }
    Some(sum)
}

/// Whether a stripe is out where it was lost, and else there and legal.
fn is_stripe_left(alloc: Global, left: &Final, number: u64, lost: bool) -> Result<bool, Fail> {
    if number >= left.config().stripes {
        return Ok(false);
    }
    match left.stripe(number) {
        Some(stripe) => Ok(!lost && is_stripe_legal(alloc, stripe)?),
        None => Ok(lost),
    }
}

/// What is left shows which values are out, and counts the references that were lost.
fn check_left(
    alloc: Global,
    left: &Final,
    mover: Lost,
    first: Lost,
    second: Lost,
) -> Result<(), Fail> {
    let wrong = (mover.wrong, first.wrong, second.wrong);
    check(wrong == (0, 0, 0), "each item has its own words")?;
    check(mover.lock, "nobody else had pages and lists")?;
    check(left.slabs().is_none(), "pages and lists are out")?;
    let refs = first.refs.saturating_add(second.refs);
    check(all_holders(left) == Some(refs), "lost references count")?;
    for (number, lost) in [(0, false), (1, first.lock), (2, second.lock), (3, false)] {
        let is_right = is_stripe_left(alloc, left, number, lost)?;
        check(is_right, "a stripe is there, unless it was lost")?;
    }
    Ok(())
}

/// Hands are lost with references, with a stripe, and with pages and lists: what is left misses these values and counts these references.
pub fn lost_hands_cost_what_they_had<R: Threads + Wait + Sync>(
    rt: &R,
    alloc: Global,
) -> Result<(), Fail> {
    let (arena, mut hands) = opened(alloc, &TWELVE_PAGES, 8)?;
    let (mover, readers) = jobs_of(rt, alloc, &arena, &mut hands)?;
    let Worked { hand, told } = work_three(rt, alloc, &arena, mover, readers);
    let (mover, (first, second)) = told;
    let left = arena.close(hand);
    let checked = check_left(alloc, &left, mover, first, second);
    drop(left);
    checked
}
