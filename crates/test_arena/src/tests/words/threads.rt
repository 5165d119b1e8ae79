//! Several threads at one arena: chunks of one class go out, are filled and given up, and come back.
ghost use Rattle.std.specs.Prelude.{◌≡◌, All, IfOk, IfSome};
ghost use Rattle.test_arena.specs.Hands.{AreHandsOf};
ghost use Rattle.std.specs.Thread.{IsSync};
ghost use Rattle.mc_words.specs.hand.Arenas.{IsHandOf, setup_of, view};
ghost use Rattle.mc_words.specs.item.Fresh.{IsFreshOf};
ghost use Rattle.mc_core.specs.model.State.{is_class};

use super::calls::{give, grow_page, has_chunk, head, is_class, listed_free};
use crate::tests::{assert_equal, assert_same};
use mc_classes::ClassId;
use mc_pages::ChunkId;
use mc_words::{Arena, Final, Fresh, Hand, NewError};
use std::alloc::{AllocError, Global};
use std::process::Abort;
use std::sync::Wait;
use std::test::Fail;
use std::thread::{Threads, map_vec};
use testlib_values::FOUR_CLASSES;

/// How often each thread goes round.
const ROUNDS: u64 = 1000;

/// The class whose chunks they are.
const CLASS: ClassId = 1;

/// An arena of four classes, and its five hands.
#[tactic(auto, using(crate::proofs::Kept::all_hands))]
fn opened(alloc: Global) -> Result<(Arena, Vec<Hand>), NewError>
    ensures hands { IfOk result (λ made. AreHandsOf made.0 made.1.items) }
{
    Arena::new(alloc, &FOUR_CLASSES, 5)
}

/// Writes this word in each place of the chunk.
fn fill_all(arena: &Arena, hand: &mut Hand, fresh: &mut Fresh, word: u64)
    requires arena { IsHandOf arena.now hand.old }
    requires fresh { IsFreshOf (view hand.old) fresh.old.chunk fresh.old.room }
    ensures arena { IsHandOf arena.now hand.new }
    ensures fresh { IsFreshOf (view hand.new) fresh.new.chunk fresh.new.room }
{
    for place in 0..fresh.room() {
        arena.fill(hand, fresh, place, word);
    }
}

/// The next chunk of the class goes out and is filled, with no lock, and given up. None where that can't be.
fn take_out<R: Wait>(rt: &R, arena: &Arena, hand: &mut Hand, word: u64) -> Option<ChunkId>
    requires arena { IsHandOf arena.now hand.old }
    ensures arena { IsHandOf arena.now hand.new }
{
    if !is_class(arena, CLASS) || !hand.idle() {
        return None;
    }
    let mut held = arena.lock_slabs(rt, hand);
    if hand.refs() > 255 {
        return None;
    }
    let popped = arena.pop(hand, &mut held, CLASS);
    arena.give_slabs(hand, held);
    let Ok(Some(mut fresh)) = popped else {
        return None;
    };
    fill_all(arena, hand, &mut fresh, word);
    let chunk = fresh.chunk();
    arena.discard(hand, fresh);
    Some(chunk)
}

/// The dead chunk comes back. False where it isn't dead.
fn bring_back<R: Wait>(rt: &R, arena: &Arena, hand: &mut Hand, chunk: ChunkId) -> bool
    requires arena { IsHandOf arena.now hand.old }
    ensures arena { IsHandOf arena.now hand.new }
{
    if !has_chunk(arena, chunk) || !hand.unlocked() {
        return false;
    }
    let mut held = arena.lock_slabs(rt, hand);
    let came_back = arena.put_back(hand, &mut held, chunk).is_ok();
    give(arena, hand, held) && came_back
}

/// A hand that went n rounds.
#[derive(Drop)]
struct Worked {
    hand: Hand,
    rounds: u64,
}

/// One thread's rounds.
fn work<R: Wait>(rt: &R, arena: &Arena, hand: Hand) -> Worked
    requires arena { IsHandOf arena.now hand }
    ensures arena { IsHandOf arena.now result.hand }
{
    let mut hand = hand;
    let mut rounds = 0;
    for round in 0..ROUNDS {
        let Some(chunk) = take_out(rt, arena, &mut hand, round) else {
            continue;
        };
        if bring_back(rt, arena, &mut hand, chunk) {
            rounds += 1;
        }
    }
    Worked { hand, rounds }
}

/// The rounds of all hands at once, each by a thread of its own.
fn work_beside<R: Threads + Wait + Sync>(
    rt: &R,
    arena: &Arena,
    hands: Vec<Hand>,
) -> Result<Vec<Worked>, AllocError>
    requires hands { AreHandsOf arena.now hands.items }
    ensures hands { IfOk result (λ all. All (λ worked. IsHandOf arena.now worked.hand) all.items) }
{
    map_vec(
        rt,
        hands,
        &|hand: Hand| -> Worked
            requires { IsSync R.row × IsHandOf arena.now hand }
            ensures { IsHandOf arena.entry.now result.hand }
        { work(rt, arena, hand) },
    )
}

/// One hand of two that worked, and the rounds of that which went fewer. None where one isn't idle.
fn both(arena: &Arena, first: Worked, second: Worked) -> Option<Worked>
    requires first { IsHandOf arena.now first.hand }
    requires second { IsHandOf arena.now second.hand }
    ensures hand { IfSome result (λ worked. IsHandOf arena.now worked.hand) }
{
    let Worked { hand, rounds } = first;
    let Worked {
        hand: other,
        rounds: more,
    } = second;
    if !hand.idle() || !other.idle() {
        return None;
    }
    Some(Worked {
        hand: arena.join_hands(hand, other),
        rounds: rounds.min(more),
    })
}

/// One hand of all that worked, and the rounds of that which went fewest. None where one isn't idle, or there is none.
fn join_all(arena: &Arena, all: Vec<Worked>) -> Option<Worked>
    requires hands { All (λ worked. IsHandOf arena.now worked.hand) all.items }
    ensures hand { IfSome result (λ worked. IsHandOf arena.now worked.hand) }
{
    let mut all = all;
    let mut joined = all.pop()?;
    while let Some(worked) = all.pop() {
        joined = both(arena, joined, worked)?;
    }
    Some(joined)
}

/// What is left of the 21 chunks of page 0: how many are free, by header and free list, and how often they went out in all.
fn count_free(left: &Final) -> Option<(u64, u64)> {
    let listed = listed_free(left)?;
    let mut rounds = 0u64;
    for index in 0..21 {
        let word = head(left, ChunkId { page: 0, index })?;
        if word % 262_144 != 65_536 {
            return None;
        }
        rounds = rounds.saturating_add(word / 262_144);
    }
    Some((listed, rounds))
}

/// The first of five hands gives the class a page, and the others work at once. None where one isn't idle, the lock isn't free, or
/// memory ran out.
fn grow_and_work<R: Abort + Threads + Wait + Sync>(
    rt: &R,
    arena: &Arena,
    hands: Vec<Hand>,
) -> Option<Worked>
    requires hands { AreHandsOf arena.now hands.items }
    ensures hand { IfSome result (λ worked. IsHandOf arena.now worked.hand) }
{
    let mut hands = hands;
    if hands.is_empty() {
        return None;
    }
    let mut owner = hands.remove(0);
    let mut held = arena.try_slabs(&mut owner).ok()?;
    let grown = grow_page(arena, &mut owner, &mut held, CLASS);
    assert_equal(rt, grown, Some(Ok(0)), "grow");
    assert_same(rt, give(arena, &mut owner, held), true, "give_slabs");
    match work_beside(rt, arena, hands) {
        Ok(all) => join_all(arena, all),
        Err(_) => None,
    }
}

#[test]
fn four_threads_share_a_class(rt: HostRuntime) -> Result<(), Fail> {
    let (arena, hands) = opened(rt.alloc())?;
    let Some(worked) = grow_and_work(&rt, &arena, hands) else {
        return Err(Fail::new("five hands are idle"));
    };
    assert_same(&rt, worked.rounds, ROUNDS, "rounds");
    let left = arena.close(worked.hand);
    assert_same(
        &rt,
        count_free(&left),
        Some((21, 4 * ROUNDS)),
        "what is left",
    );
    Ok(())
}
