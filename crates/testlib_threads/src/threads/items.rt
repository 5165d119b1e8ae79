//! Four threads set, get, read, give up and delete items over forty keys of one class of two pages. Each word of an item shows
//! its key and stamp, so a word of another item would be seen.
ghost use Rattle.std.specs.Prelude.{IfOk};
ghost use Rattle.testlib_hands.specs.Hands.{AreEmptyHandsOf};
ghost use Rattle.testlib_hands.specs.Pairs.{AreIdle};

use mc_classes::Config;
use mc_pages::Owner;
use mc_stripe::Key;
use mc_words::{Arena, Final, Hand};
use std::alloc::Global;
use std::sync::Wait;
use std::test::Fail;
use std::thread::Threads;
use testlib_hands::{
    FOUR_CLASSES, Getter, Job, Pair, Worked, check, class_sums, count_keys, delete_key, get_by,
    is_own, one_of, opened, pair_of, release_own, store_own, work_four,
};
use testlib_values::draw;

/// Two pages; the lowest class has 96 bytes and 10 chunks a page.
const TWO_PAGES: Config = Config {
    limit: 2048,
    first: 96,
    ..FOUR_CLASSES
};

/// How many chunks a page of that class has.
const CHUNKS: u64 = 10;

/// How many words each item has: the most that the class has room for.
const LEN: u64 = 9;

/// How many keys the threads use.
const KEYS: u64 = 40;

/// How often each thread acts.
const ROUNDS: u64 = 2000;

/// Gets the key's item, reads it before and behind a set of the next key, and gives it up. True if all words were its own.
#[tactic(auto, using(testlib_hands::proofs::Kept::nothing_left_later))]
fn read_twice<R: Wait>(
    rt: &R,
    alloc: Global,
    arena: &Arena,
    pair: &mut Pair,
    key: Key,
    getter: Getter,
) -> bool
    requires pair { AreIdle arena.now pair.old }
    ensures pair { AreIdle arena.now pair.new }
{
    let Some(item) = get_by(rt, arena, &mut pair.reader, key, getter) else {
        return true;
    };
    let next = key.wrapping_add(1) % KEYS;
    let before = is_own(alloc, arena, &mut pair.reader, &item, key, LEN);
    let between = store_own(rt, alloc, arena, &mut pair.writer, next, LEN).is_ok();
    let behind = release_own(alloc, arena, &mut pair.reader, item, key, LEN);
    before && between && behind
}

/// One drawn round of a thread. True if all words that were read were their items' own. False, too, where memory ran out.
fn act<R: Wait>(rt: &R, alloc: Global, arena: &Arena, pair: &mut Pair, drawn: u64) -> bool
    requires pair { AreIdle arena.now pair.old }
    ensures pair { AreIdle arena.now pair.new }
{
    let key = (drawn >> 8) % KEYS;
    match drawn % 8 {
        0 | 1 | 2 => store_own(rt, alloc, arena, &mut pair.writer, key, LEN).is_ok(),
        3 => {
            let _deleted = delete_key(rt, arena, &mut pair.writer, key);
            true
        }
        4 => read_twice(rt, alloc, arena, pair, key, Getter::TryGet),
        _ => read_twice(rt, alloc, arena, pair, key, Getter::Get),
    }
}

/// A thread that acts on items: its number, and its hands.
#[derive(Drop)]
struct Actor(u64, Pair);

impl Job for Actor {
    type Told = u64;

    ghost is_ready = { λ arena job. AreIdle arena job.1 };

    /// The actor's rounds: how many were wrong. Each thread draws others.
    fn work<R: Wait>(self, rt: &R, alloc: Global, arena: &Arena) -> Worked<u64> {
        let Actor(thread, mut pair) = self;
        let mut wrong = 0;
        for round in 0..ROUNDS {
            if !act(rt, alloc, arena, &mut pair, draw(thread, round)) {
                wrong += 1;
            }
        }
        Worked {
            hand: one_of(arena, pair.reader, pair.writer),
            told: wrong,
        }
    }
}

/// Two such threads.
type Actors = (Actor, Actor);

/// Four, with the eight hands of the lowest numbers that are left.
fn four_actors(arena: &Arena, hands: &mut Vec<Hand>) -> Result<(Actors, Actors), Fail>
    requires hands { AreEmptyHandsOf arena.now hands.old.items }
    ensures low { IfOk result (λ jobs. AreIdle arena.now jobs.0.0.1
        × AreIdle arena.now jobs.0.1.1) }
    ensures high { IfOk result (λ jobs. AreIdle arena.now jobs.1.0.1
        × AreIdle arena.now jobs.1.1.1) }
{
    let first = Actor(1, pair_of(arena, hands)?);
    let second = Actor(2, pair_of(arena, hands)?);
    let third = Actor(3, pair_of(arena, hands)?);
    let fourth = Actor(4, pair_of(arena, hands)?);
    Ok(((first, second), (third, fourth)))
}

/// How many chunks of the class are free by its list, and whether both pages within the limit are the class's.
fn listed(left: &Final) -> Option<(u64, bool)> {
    let mut are_owned = left.classes().pages() == 2;
    for page in 0..left.classes().pages() {
        if left.owner(page) != Some(Owner::Class(1)) {
            are_owned = false;
        }
    }
    Some((left.slabs()?.numbers(1).free, are_owned))
}

/// Each chunk of the closed arena is free, dead or an item's, and its lists and stripes agree.
fn check_left(left: &Final) -> Result<(), Fail> {
    let Some(sums) = class_sums(left, 1) else {
        return Err(Fail::new("nobody holds a chunk"));
    };
    let Some((free, are_owned)) = listed(left) else {
        return Err(Fail::new("pages and lists are there"));
    };
    check(are_owned, "both pages are the class's")?;
    check(free == sums.free, "the list has the free chunks")?;
    let keys = count_keys(left, KEYS);
    check(keys == Some(sums.linked), "each item has its key")?;
    let chunks = sums.free.saturating_add(sums.dead);
    let all = chunks.saturating_add(sums.linked);
    check(all == 2 * CHUNKS, "each chunk is accounted for")
}

/// No read of four threads shows a word of another item, and each chunk is accounted for behind them.
pub fn no_read_shows_another_item<R: Threads + Wait + Sync>(
    rt: &R,
    alloc: Global,
) -> Result<(), Fail> {
    let (arena, mut hands) = opened(alloc, &TWO_PAGES, 8)?;
    let (low, high) = four_actors(&arena, &mut hands)?;
    let Worked { hand, told } = work_four(rt, alloc, &arena, low, high);
    let left = arena.close(hand);
    let accounted = check_left(&left);
    drop(left);
    accounted?;
    let none = ((0, 0), (0, 0));
    check(told == none, "no read shows words of another item")
}
