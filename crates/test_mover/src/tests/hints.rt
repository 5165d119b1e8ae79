//! Hints of items whose page has moved.
ghost use Rattle.std.specs.Prelude.{◌≡◌, true, IfOk};
ghost use Rattle.mc_words.specs.hand.Ready.{IsReadyHandOf};
ghost use Rattle.testlib_hands.specs.Pairs.{AreReady};
ghost use Rattle.mc_core.specs.model.State.{has_chunk};
ghost use Rattle.mc_words.specs.hand.Arenas.{setup_of};
ghost use Rattle.mc_words.specs.hand.Observers.{hint_chunk};

use super::steps::Step;
use super::{assert_equal, assert_head, assert_same};
use mc_stripe::Key;
use mc_words::{Again, Arena, Hand, Hint};
use std::alloc::Global;
use std::process::Abort;
use std::sync::Wait;
use std::test::Fail;
use testlib_hands::{Two, follow, hint_of, play_all, play_two, store_all};

/// An item of 20 words takes this chunk of the first page, which has the first of these headers before, and the second one behind it.
fn store_at<R: Abort + Wait>(
    rt: &R,
    alloc: Global,
    arena: &Arena,
    hand: &mut Hand,
    index: u64,
    keys: (Key, Key),
    heads: (u64, u64),
) -> Result<(), Fail>
    requires arena { IsReadyHandOf arena.now hand.old }
    ensures arena { IsReadyHandOf arena.now hand.new }
{
    let (free, linked) = heads;
    assert_head(rt, arena, hand, index, free, "before the set");
    let stored = store_all(rt, alloc, arena, hand, keys, 0, 20)?;
    assert_same(rt, stored, true, "set");
    assert_head(rt, arena, hand, index, linked, "behind the set");
    Ok(())
}

/// Four items of 20 words, each of which takes the next lower chunk of the first page. The last one's chunk went out before.
fn store_four<R: Abort + Wait>(
    rt: &R,
    alloc: Global,
    arena: &Arena,
    hand: &mut Hand,
) -> Result<(), Fail>
    requires arena { IsReadyHandOf arena.now hand.old }
    ensures arena { IsReadyHandOf arena.now hand.new }
{
    for (index, keys, heads) in [
        (4, (24, 25), (65_536, 458_753)),
        (3, (23, 24), (65_536, 458_753)),
        (2, (22, 23), (65_536, 458_753)),
        (1, (21, 22), (327_680, 720_897)),
    ] {
        store_at(rt, alloc, arena, hand, index, keys, heads)?;
    }
    Ok(())
}

/// The hint of the first of four items, which is followed.
fn hint_of_first<R: Abort + Wait>(
    rt: &R,
    alloc: Global,
    arena: &Arena,
    hand: &mut Hand,
) -> Result<Hint, Fail>
    requires arena { IsReadyHandOf arena.now hand.old }
    ensures arena { IsReadyHandOf arena.now hand.new }
    ensures in_range { IfOk result (λ hint. has_chunk (setup_of arena.now).table (hint_chunk hint)
        ≡ true) }
{
    play_all(rt, alloc, arena, hand, &[Step::Sets(1, 5, 61)])?;
    let Some(hint) = hint_of(rt, arena, hand, 1) else {
        return Err(Fail::new("the key has an item"));
    };
    assert_head(rt, arena, hand, 1, 458_753, "its chunk");
    assert_equal(rt, follow(arena, hand, hint), None, "its own hint");
    Ok(hint)
}

/// A hint is followed before and behind the move of its item's page.
fn follow_over_a_move<R: Abort + Wait>(rt: &R, alloc: Global, two: &mut Two) -> Result<(), Fail>
    requires { AreReady two.old }
{
    let Two { arena, hand, .. } = two;
    let hint = hint_of_first(rt, alloc, arena, hand)?;
    let steps = [
        Step::Deletes(1),
        Step::Reassigns(Some(4), 3, Ok(())),
        Step::Finishes(2, 0, 1, 0, 0),
    ];
    play_all(rt, alloc, arena, hand, &steps)?;
    store_four(rt, alloc, arena, hand)?;
    let gone = follow(arena, hand, hint);
    assert_equal(rt, gone, Some(Again::Gone), "its hint, in the end");
    Ok(())
}

#[test]
fn a_hint_is_gone_once_its_page_has_moved(rt: HostRuntime) -> Result<(), Fail> {
    play_two!(rt, follow_over_a_move)
}
