//! Workers of the stress: each holds items with one hand, while it stores, reads and deletes others with a second. Each word of
//! an item shows its key and stamp, so a word of another item would be seen.
ghost use Rattle.std.specs.Prelude.{◌≡◌, true};
ghost use Rattle.mc_core.specs.model.State.{has_chunk};
ghost use Rattle.mc_words.specs.hand.Arenas.{setup_of};
ghost use Rattle.mc_words.specs.hand.Observers.{hint_chunk};
ghost use Rattle.testlib_hands.specs.Hands.{IsEmptyHandOf};
ghost use Rattle.testlib_hands.specs.Pairs.{AreIdle};

use mc_items::{again, hint};
use mc_memory::Refused;
use mc_stripe::Key;
use mc_words::{Arena, Hand, Hint};
use std::alloc::Global;
use std::sync::Wait;
use testlib_hands::{
    Job, Pair, Worked, delete_key, get_key, is_own, one_of, release_own, store_own,
};
use testlib_values::draw;

/// How many keys the workers use.
pub const KEYS: u64 = 64;

/// How many items a worker holds, one after another.
const ROUNDS: u64 = 250;

/// How many lines a worker does while it holds an item.
const LINES: u64 = 20;

/// A round of a thread.
#[derive(Clone, Copy)]
struct Round {
    thread: u64,
    number: u64,
}

/// How many words the key's item has: the most that its class has room for. A fourth of the keys goes to each class.
fn len_of(key: Key) -> u64 {
    match key / 4 % 4 {
        0 => 3,
        1 => 9,
        2 => 21,
        _ => 61,
    }
}

/// The key that was drawn.
fn key_of(drawn: u64) -> Key {
    (drawn >> 8) % KEYS
}

/// The key whose item is held in a round.
fn held_key(round: Round) -> Key {
    key_of(draw(round.thread.wrapping_add(16), round.number))
}

/// Stores an item for each key, while there is room.
pub fn store_each<R: Wait>(
    rt: &R,
    alloc: Global,
    arena: &Arena,
    hand: &mut Hand,
) -> Result<(), Refused>
    requires arena { IsEmptyHandOf arena.now hand.old }
    ensures arena { IsEmptyHandOf arena.now hand.new }
{
    for key in 0..KEYS {
        let _stored = store_own(rt, alloc, arena, hand, key, len_of(key))?;
    }
    Ok(())
}

/// Reads the key's item, if it has one, and gives it up. True if all words were its own.
#[tactic(auto, using(testlib_hands::proofs::Kept::nothing_left))]
fn read_once<R: Wait>(rt: &R, alloc: Global, arena: &Arena, hand: &mut Hand, key: Key) -> bool
    requires arena { IsEmptyHandOf arena.now hand.old }
    ensures arena { IsEmptyHandOf arena.now hand.new }
{
    let Some(item) = get_key(rt, arena, hand, key) else {
        return true;
    };
    release_own(alloc, arena, hand, item, key, len_of(key))
}

/// One line: a set, a get or a delete. True if all words that were read were their item's own. False, too, where memory ran out.
fn do_line<R: Wait>(rt: &R, alloc: Global, arena: &Arena, hand: &mut Hand, drawn: u64) -> bool
    requires arena { IsEmptyHandOf arena.now hand.old }
    ensures arena { IsEmptyHandOf arena.now hand.new }
{
    let key = key_of(drawn);
    match drawn % 8 {
        0 | 1 | 2 | 3 => store_own(rt, alloc, arena, hand, key, len_of(key)).is_ok(),
        4 => {
            let _deleted = delete_key(rt, arena, hand, key);
            true
        }
        _ => read_once(rt, alloc, arena, hand, key),
    }
}

/// The lines of a round. True if each was right.
fn do_lines<R: Wait>(rt: &R, alloc: Global, arena: &Arena, hand: &mut Hand, round: Round) -> bool
    requires arena { IsEmptyHandOf arena.now hand.old }
    ensures arena { IsEmptyHandOf arena.now hand.new }
{
    let mut are_right = true;
    for line in 0..LINES {
        let place = round.number.wrapping_mul(LINES).wrapping_add(line);
        are_right &= do_line(rt, alloc, arena, hand, draw(round.thread, place));
    }
    are_right
}

/// Reads the key's item once more by its hint, if it is there still, and gives it up. True if all words were its own.
#[tactic(auto, using(testlib_hands::proofs::Kept::nothing_left))]
fn read_again(alloc: Global, arena: &Arena, hand: &mut Hand, hint: Hint, key: Key) -> bool
    requires arena { IsEmptyHandOf arena.now hand.old }
    requires in_range { has_chunk (setup_of arena.now).table (hint_chunk hint) ≡ true }
    ensures arena { IsEmptyHandOf arena.now hand.new }
{
    let Ok(item) = again(arena, hand, hint) else {
        return true;
    };
    release_own(alloc, arena, hand, item, key, len_of(key))
}

/// One round: an item is held over lines, read before and behind them, and once more when it was released. True if all words that were
/// read were their items' own. False, too, where memory ran out.
#[tactic(auto, using(testlib_hands::proofs::Kept::nothing_left_later))]
fn act<R: Wait>(rt: &R, alloc: Global, arena: &Arena, pair: &mut Pair, round: Round) -> bool
    requires pair { AreIdle arena.now pair.old }
    ensures pair { AreIdle arena.now pair.new }
{
    let key = held_key(round);
    let Some(item) = get_key(rt, arena, &mut pair.reader, key) else {
        return do_lines(rt, alloc, arena, &mut pair.writer, round);
    };
    let hint = hint(&item);
    let before = is_own(alloc, arena, &mut pair.reader, &item, key, len_of(key));
    let between = do_lines(rt, alloc, arena, &mut pair.writer, round);
    let behind = release_own(alloc, arena, &mut pair.reader, item, key, len_of(key));
    let once_more = read_again(alloc, arena, &mut pair.reader, hint, key);
    before && between && behind && once_more
}

/// A worker's thread: its number, and its hands.
#[derive(Drop)]
pub struct Worker(pub u64, pub Pair);

impl Job for Worker {
    type Told = u64;

    ghost is_ready = { λ arena job. AreIdle arena job.1 };

    /// The worker's rounds: how many were wrong.
    fn work<R: Wait>(self, rt: &R, alloc: Global, arena: &Arena) -> Worked<u64> {
        let Worker(thread, mut pair) = self;
        let mut wrong = 0u64;
        for number in 0..ROUNDS {
            let round = Round { thread, number };
            if !act(rt, alloc, arena, &mut pair, round) {
                wrong = wrong.saturating_add(1);
            }
        }
        Worked {
            hand: one_of(arena, pair.reader, pair.writer),
            told: wrong,
        }
    }
}
