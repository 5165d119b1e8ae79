//! The two orders in which a hand has an item again while another one takes it away, and what the next turns find then.
ghost use Rattle.std.specs.Prelude.{◌≡◌, IfSome, true};
ghost use Rattle.mc_words.specs.hand.Arenas.{IsHandOf, view};
ghost use Rattle.mc_words.specs.hand.Observers.{HasSlabs};
ghost use Rattle.mc_words.specs.hand.Ready.{IsReady, IsReadyHandOf};
ghost use Rattle.mc_items.specs.ItemRefs.{IsItemRef};
ghost use Rattle.testlib_hands.specs.Pairs.{AreReady};
ghost use Rattle.testlib_threads.specs.Keepers.{IsNear};

use super::races::{Fate, look_and_lock, take_away};
use mc_classes::Config;
use mc_items::{Ref, again, get};
use mc_mover::{Counts, Turn, reassign, turn};
use mc_pages::ChunkId;
use mc_stripe::Key;
use mc_words::{Arena, Hand, Hint, SlabsHeld};
use std::alloc::Global;
use std::process::Abort;
use std::sync::Wait;
use std::test::Fail;
use testlib_hands::{
    FOUR_CLASSES, Two, check, drop_two, has_chunk, hint_of, opened_two, release_own,
};
use testlib_threads::{len_of, set_key};

/// Two pages; classes of 48, 96, 192 and 512 bytes. A page has two chunks of the greatest.
const TWO_PAGES: Config = Config {
    limit: 2048,
    ..FOUR_CLASSES
};

/// The key whose item goes into the first chunk, and that chunk. Each fourth key has an item of the greatest class.
const FIRST: (Key, ChunkId) = (3, ChunkId { page: 0, index: 1 });

/// Whether the hand may make any call.
fn is_ready(hand: &Hand) -> bool
    ensures ready { result ≡ true → IsReady (view hand.now) }
{
    hand.unlocked() && !hand.has_fresh() && hand.refs() <= 255
}

/// Gives pages and lists back. False where a page is half cut, or the hand isn't ready then.
fn give_back(arena: &Arena, hand: &mut Hand, slabs: SlabsHeld) -> bool
    requires arena { IsHandOf arena.now hand.old }
    requires slabs { HasSlabs hand.old slabs }
    ensures hand { result ≡ true → IsReadyHandOf arena.now hand.new }
{
    if slabs.slabs().next_uncut().is_some() {
        return false;
    }
    arena.give_slabs(hand, slabs);
    is_ready(hand)
}

/// Has the item of a hint again, if there is a hint.
fn had_again(arena: &Arena, hand: &mut Hand, hint: Option<Hint>) -> Option<Ref>
    requires hand { IsReadyHandOf arena.now hand.old }
    requires in_range { IfSome hint (IsNear arena.now) }
    ensures hand { IsReadyHandOf arena.now hand.new }
    ensures item { IfSome result (λ item. IsItemRef (view hand.new) item) }
{
    match hint {
        Some(hint) => again(arena, hand, hint).ok(),
        None => None,
    }
}

/// One hand looks at the chunk of a moving page, under the locks. Then the other has its item again, if there is a hint. Then the first one
/// takes it away.
fn race<R: Abort>(
    rt: &R,
    arena: &Arena,
    hand: &mut Hand,
    other: &mut Hand,
    chunk: ChunkId,
    hint: Option<Hint>,
) -> Option<(Fate, Option<Ref>)>
    requires hand { IsReadyHandOf arena.now hand.old }
    requires other { IsReadyHandOf arena.now other.old }
    requires in_range { IfSome hint (IsNear arena.now) }
    ensures hand { IfSome result (λ raced. IsReadyHandOf arena.now hand.new) }
    ensures other { IsReadyHandOf arena.now other.new }
    ensures item { IfSome result (λ raced. IfSome raced.1 (λ item.
        IsItemRef (view other.new) item)) }
{
    if !has_chunk(arena, chunk) {
        return None;
    }
    let Ok(mut slabs) = arena.try_slabs(hand) else {
        return None;
    };
    let item = look_and_lock(arena, hand, &slabs, chunk)?;
    let had = had_again(arena, other, hint);
    let fate = take_away(rt, arena, hand, &mut slabs, item)?;
    if !give_back(arena, hand, slabs) {
        return None;
    }
    Some((fate, had))
}

/// Whether the key leads to an item, which has its own words.
fn has_own<R: Wait>(rt: &R, alloc: Global, arena: &Arena, hand: &mut Hand, key: Key) -> bool
    requires hand { IsReadyHandOf arena.now hand.old }
    ensures hand { IsReadyHandOf arena.now hand.new }
{
    match get(rt, arena, hand, key) {
        Ok(Some(item)) => release_own(alloc, arena, hand, item, key, len_of(key)),
        _ => false,
    }
}

/// Items of the greatest class for its first n keys. False where one isn't stored.
fn store<R: Wait>(rt: &R, alloc: Global, arena: &Arena, hand: &mut Hand, count: u64) -> bool
    requires hand { IsReadyHandOf arena.now hand.old }
    ensures hand { IsReadyHandOf arena.now hand.new }
{
    for place in 0..count {
        let key = FIRST.0.wrapping_add(place.wrapping_mul(4));
        if !set_key(rt, alloc, arena, hand, key) {
            return false;
        }
    }
    true
}

/// The counts of a turn: this many cleared, rescued, evicted and busy chunks.
fn counts(cleared: u64, rescued: u64, evicted: u64, busy: u64) -> Counts {
    Counts {
        cleared,
        rescued,
        evicted,
        busy,
        locked: 0,
    }
}

/// Whether the next turn does this.
fn turns<R: Wait>(rt: &R, arena: &Arena, hand: &mut Hand, wanted: Turn) -> bool
    requires hand { IsReadyHandOf arena.now hand.old }
    ensures hand { IsReadyHandOf arena.now hand.new }
{
    match turn(rt, arena, hand) {
        Ok(found) => found == wanted,
        Err(_) => false,
    }
}

/// Stores n items, and the first page begins to move.
fn begin_move<R: Wait>(
    rt: &R,
    alloc: Global,
    arena: &Arena,
    hand: &mut Hand,
    count: u64,
) -> Result<(), Fail>
    requires hand { IsReadyHandOf arena.now hand.old }
    ensures hand { IsReadyHandOf arena.now hand.new }
{
    check(store(rt, alloc, arena, hand, count), "each item is stored")?;
    let begins = reassign(rt, arena, hand, Some(4), 1).is_ok();
    check(begins, "the page begins to move")
}

/// The first of n items is had again before it is taken away: it stays, and the next turn finds it busy.
fn race_again_first<R: Abort + Wait>(
    rt: &R,
    alloc: Global,
    two: &mut Two,
    count: u64,
    went: Counts,
) -> Result<(), Fail>
    requires { AreReady two.old }
{
    let Two { arena, hand, other } = two;
    begin_move(rt, alloc, arena, hand, count)?;
    let hint = hint_of(rt, arena, other, FIRST.0);
    let Some((fate, item)) = race(rt, arena, hand, other, FIRST.1, hint) else {
        return Err(Fail::new("the copy is put back, and the entry is as before"));
    };
    let Some(item) = item else {
        return Err(Fail::new("the item is had again"));
    };
    check(fate == Fate::Stays, "it is told that it is held")?;
    check(
        has_own(rt, alloc, arena, hand, FIRST.0),
        "its key leads to it",
    )?;
    check(
        turns(rt, arena, hand, Turn::Went(went)),
        "it holds up its page",
    )?;
    let own = release_own(alloc, arena, other, item, FIRST.0, len_of(FIRST.0));
    check(own, "its words are its own")?;
    let ended = Turn::Finished(counts(1, 0, 1, 0));
    check(
        turns(rt, arena, hand, ended),
        "the page goes once it is released",
    )
}

/// The first of n items is had again before it is taken away, in a new arena.
fn again_first<R: Abort + Wait>(
    rt: &R,
    alloc: Global,
    count: u64,
    went: Counts,
) -> Result<(), Fail> {
    let mut two = opened_two(alloc, &TWO_PAGES)?;
    let raced = race_again_first(rt, alloc, &mut two, count, went);
    drop_two(two);
    raced
}

#[test]
fn what_is_had_again_is_not_rescued(rt: HostRuntime) -> Result<(), Fail> {
    again_first(&rt, rt.alloc(), 3, counts(1, 1, 0, 1))
}

#[test]
fn what_is_had_again_is_not_evicted(rt: HostRuntime) -> Result<(), Fail> {
    again_first(&rt, rt.alloc(), 4, counts(1, 0, 1, 1))
}

/// The first of four items is evicted before its hint is followed.
fn race_eviction_first<R: Abort + Wait>(rt: &R, alloc: Global, two: &mut Two) -> Result<(), Fail>
    requires { AreReady two.old }
{
    let Two { arena, hand, other } = two;
    begin_move(rt, alloc, arena, hand, 4)?;
    let hint = hint_of(rt, arena, other, FIRST.0);
    let Some((fate, _)) = race(rt, arena, hand, other, FIRST.1, None) else {
        return Err(Fail::new("the item is taken away"));
    };
    check(fate == Fate::Evicted, "nobody holds it")?;
    check(hint.is_some(), "there is a hint")?;
    let found = had_again(arena, other, hint);
    check(found.is_none(), "its hint is gone")?;
    let has_own = has_own(rt, alloc, arena, other, FIRST.0);
    check(!has_own, "its key leads nowhere")?;
    let ended = Turn::Finished(counts(2, 0, 1, 0));
    check(turns(rt, arena, hand, ended), "the page goes at once")
}

#[test]
fn what_was_evicted_is_not_had_again(rt: HostRuntime) -> Result<(), Fail> {
    let mut two = opened_two(rt.alloc(), &TWO_PAGES)?;
    let raced = race_eviction_first(&rt, rt.alloc(), &mut two);
    drop_two(two);
    raced
}
