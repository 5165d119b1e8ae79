//! The owner's pass: pages that are granted and cut, and chunks that go out and come back.
ghost use Rattle.std.specs.Prelude.{◌≡◌, IfOk, Some};
ghost use Rattle.mc_words.specs.hand.Arenas.{IsHandOf, view};

use super::calls::{first_free, give, go_round, grow_page, is_worn, sweep_around};
use crate::tests::{assert_equal, assert_same};
use mc_classes::Config;
use mc_memory::with_capacity;
use mc_pages::{ChunkId, Grow, Numbers};
use mc_words::{Arena, Hand, NewError, SlabsHeld};
use std::alloc::Global;
use std::process::Abort;
use std::test::Fail;
use testlib_values::FOUR_CLASSES;

/// The greatest issue number.
const MOST_ISSUE: u64 = 70_368_744_177_663;

/// The chunk that is handed out first of page 0, where its class has 21 a page.
const LAST: ChunkId = ChunkId { page: 0, index: 20 };

/// An arena of one hand, which has pages and lists. How it is dropped is proved at each place where it goes out of scope, so a test
/// drops it by one call, behind all that may fail.
#[derive(Drop)]
struct Owned {
    arena: Arena,
    hand: Hand,
    held: SlabsHeld,
}

/// A new arena of four classes, whose chunks begin with this issue number.
fn open_owned(alloc: Global, start: u64) -> Result<Owned, Fail>
    ensures hand { IfOk result (λ owned. IsHandOf owned.arena owned.hand) }
    ensures held { IfOk result (λ owned. (view owned.hand).slabs ≡ Some owned.held.shared) }
{
    let (arena, mut hands) = Arena::from_issue(alloc, &FOUR_CLASSES, 1, start)?;
    let mut hand = hands.remove(0);
    match arena.try_slabs(&mut hand) {
        Ok(held) => Ok(Owned { arena, hand, held }),
        Err(_) => Err(Fail::new("the lock is free")),
    }
}

/// Gives pages and lists back. False where a page is half cut.
fn give_all(owned: Owned) -> bool
    requires hand { IsHandOf owned.arena owned.hand }
    requires held { (view owned.hand).slabs ≡ Some owned.held.shared }
{
    let Owned {
        arena,
        mut hand,
        held,
    } = owned;
    let given = give(&arena, &mut hand, held);
    drop(hand);
    drop(arena);
    given
}

/// The chunk that is handed out first goes out and comes back twice, with these headers.
fn play_rounds(
    rt: &impl Abort,
    arena: &Arena,
    hand: &mut Hand,
    held: &mut SlabsHeld,
) -> Result<(), Fail>
    requires hand { IsHandOf arena.now hand.old }
    requires held { (view hand.old).slabs ≡ Some held.old.shared }
    ensures hand { IsHandOf arena.now hand.new }
    ensures held { (view hand.new).slabs ≡ Some held.new.shared }
{
    let grown = grow_page(arena, hand, held, 1);
    assert_equal(rt, grown, Some(Ok(0)), "grow");
    for (popped, discarded, back) in [(393_217, 393_216, 327_680), (655_361, 655_360, 589_824)] {
        let Some(round) = go_round(arena, hand, held, 1) else {
            return Err(Fail::new("a chunk is free"));
        };
        assert_equal(rt, round.chunk, LAST, "the chunk");
        assert_same(rt, round.popped, Some(popped), "pop");
        assert_same(rt, round.discarded, Some(discarded), "discard");
        assert_same(rt, round.back, Some(back), "put_back");
    }
    Ok(())
}

#[test]
fn headers_tell_issue_tag_and_count(rt: HostRuntime) -> Result<(), Fail> {
    let mut owned = open_owned(rt.alloc(), 0)?;
    let played = play_rounds(&rt, &owned.arena, &mut owned.hand, &mut owned.held);
    assert_same(&rt, give_all(owned), true, "give_slabs");
    played
}

/// A class of one page, with n free chunks and one eviction.
fn one_page(free: u64) -> Numbers {
    Numbers {
        pages: 1,
        free,
        evictions: 1,
    }
}

/// Two chunks die, and a sweep puts back what is dead.
fn sweep_beside_dead(rt: &impl Abort, arena: &Arena, hand: &mut Hand, held: &mut SlabsHeld)
    requires hand { IsHandOf arena.now hand.old }
    requires held { (view hand.old).slabs ≡ Some held.old.shared }
    ensures hand { IsHandOf arena.now hand.new }
    ensures held { (view hand.new).slabs ≡ Some held.new.shared }
{
    let grown = grow_page(arena, hand, held, 1);
    assert_equal(rt, grown, Some(Ok(0)), "grow");
    let first = is_worn(arena, hand, held, 1);
    let second = is_worn(arena, hand, held, 1);
    assert_equal(rt, (first, second), (Some(false), Some(false)), "pop");
    let found = sweep_around(arena, hand, held, 1);
    assert_equal(rt, found, Some((one_page(20), one_page(21))), "sweep");
}

#[test]
fn a_sweep_puts_back_what_is_dead(rt: HostRuntime) -> Result<(), Fail> {
    let mut owned = open_owned(rt.alloc(), 0)?;
    sweep_beside_dead(&rt, &owned.arena, &mut owned.hand, &mut owned.held);
    assert_same(&rt, give_all(owned), true, "give_slabs");
    Ok(())
}

/// Classes grow until no page is left but the first one of a class that has none, and a class grows that isn't there.
fn grow_all(rt: &impl Abort, arena: &Arena, hand: &mut Hand, held: &mut SlabsHeld)
    requires hand { IsHandOf arena.now hand.old }
    requires held { (view hand.old).slabs ≡ Some held.old.shared }
{
    for (class, grown) in [
        (1, Some(Ok(0))),
        (4, Some(Ok(1))),
        (2, Some(Ok(2))),
        (1, Some(Ok(3))),
        (2, Some(Err(Grow::NoRoom))),
        (3, Some(Ok(4))),
        (3, Some(Err(Grow::NoRoom))),
        (5, None),
    ] {
        let found = grow_page(arena, hand, held, class);
        assert_equal(rt, found, grown, "grow");
    }
}

#[test]
fn a_class_without_a_page_gets_one_beyond_the_limit(rt: HostRuntime) -> Result<(), Fail> {
    let mut owned = open_owned(rt.alloc(), 0)?;
    grow_all(&rt, &owned.arena, &mut owned.hand, &mut owned.held);
    drop(owned);
    Ok(())
}

/// The header of the first chunk that goes out. None where none goes.
fn pop_first(arena: &Arena, hand: &mut Hand, held: &mut SlabsHeld) -> Option<u64>
    requires hand { IsHandOf arena.now hand.old }
    requires held { (view hand.old).slabs ≡ Some held.old.shared }
{
    match grow_page(arena, hand, held, 1) {
        Some(Ok(0)) => go_round(arena, hand, held, 1)?.popped,
        _ => None,
    }
}

#[test]
fn issue_numbers_begin_where_they_are_told(rt: HostRuntime) -> Result<(), Fail> {
    for (start, popped) in [
        (0, 393_217),
        (6, 1_966_081),
        (MOST_ISSUE - 1, 18_446_744_073_709_420_545),
    ] {
        let mut owned = open_owned(rt.alloc(), start)?;
        let found = pop_first(&owned.arena, &mut owned.hand, &mut owned.held);
        drop(owned);
        assert_same(&rt, found, Some(popped), "pop");
    }
    Ok(())
}

/// No chunk goes out whose issue number is used up.
fn pop_worn(rt: &impl Abort, arena: &Arena, hand: &mut Hand, held: &mut SlabsHeld)
    requires hand { IsHandOf arena.now hand.old }
    requires held { (view hand.old).slabs ≡ Some held.old.shared }
{
    let grown = grow_page(arena, hand, held, 1);
    assert_equal(rt, grown, Some(Ok(0)), "grow");
    let worn = is_worn(arena, hand, held, 1);
    assert_same(rt, worn, Some(true), "pop");
    let first = first_free(arena, hand, held, 1);
    assert_equal(rt, first, Some(LAST), "the head");
}

#[test]
fn a_worn_chunk_stays_at_the_head(rt: HostRuntime) -> Result<(), Fail> {
    let mut owned = open_owned(rt.alloc(), MOST_ISSUE)?;
    pop_worn(&rt, &owned.arena, &mut owned.hand, &mut owned.held);
    drop(owned);
    Ok(())
}

/// The number of the refusal, 0 where there is an arena.
fn refusal_of(alloc: Global, config: &Config, hands: u64, start: u64) -> u64 {
    match Arena::from_issue(alloc, config, hands, start) {
        Ok(_made) => 0,
        Err(error) => error.number(),
    }
}

#[test]
fn arenas_are_refused_in_order(rt: HostRuntime) -> Result<(), Fail> {
    let no_bulk = Config {
        bulk: 0,
        ..FOUR_CLASSES
    };
    for (config, hands, start, number) in [
        (no_bulk, 0, MOST_ISSUE + 1, 8),
        (FOUR_CLASSES, 0, MOST_ISSUE + 1, 10),
        (FOUR_CLASSES, 65, 0, 10),
        (FOUR_CLASSES, 64, MOST_ISSUE + 1, 11),
        (FOUR_CLASSES, 64, MOST_ISSUE, 0),
        (FOUR_CLASSES, 1, 0, 0),
    ] {
        let found = refusal_of(rt.alloc(), &config, hands, start);
        assert_same(&rt, found, number, "the refusal's number");
    }
    let refused = match with_capacity::<u64>(rt.alloc(), usize::MAX) {
        Ok(_room) => return Err(Fail::new("there is no room for so much")),
        Err(refused) => refused,
    };
    let number = NewError::NoMemory(refused).number();
    assert_same(&rt, number, 9, "want of memory");
    Ok(())
}
