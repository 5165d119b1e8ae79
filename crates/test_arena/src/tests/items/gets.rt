//! Items that are set, looked up and given up, and what their headers are meanwhile.
ghost use Rattle.mc_words.specs.hand.Arenas.{IsHandOf, view};
ghost use Rattle.mc_items.specs.ItemRefs.{IsItemRef};
ghost use Rattle.mc_words.specs.hand.Ready.{IsReadyHandOf};
ghost use Rattle.testlib_hands.specs.Pairs.{AreReady};

use super::MOST_WORDS;
use super::steps::Step;
use crate::tests::assert_same;
use mc_items::{Ref, SetError, release};
use mc_pages::ChunkId;
use mc_words::{Arena, Hand};
use std::alloc::Global;
use std::process::Abort;
use std::sync::Wait;
use std::test::Fail;
use testlib_hands::{FOUR_CLASSES, GETTERS, Getter, Two, get_by, header, play_all, play_two, run};

/// The first chunk of a class of two chunks a page that goes out.
const FIRST: ChunkId = ChunkId { page: 0, index: 1 };

/// The header of an item's chunk behind its release by one hand, while another has the stripe and the slabs. None where that hand
/// didn't get them.
fn release_beside(
    arena: &Arena,
    hand: &mut Hand,
    item: Ref,
    holder: &mut Hand,
    stripe: u64,
) -> Option<u64>
    requires arena { IsReadyHandOf arena.now hand.old }
    requires item { IsItemRef (view hand.old) item }
    requires holder { IsReadyHandOf arena.now holder.old }
    ensures arena { IsReadyHandOf arena.now hand.new }
    ensures holder { IsHandOf arena.now holder.new }
{
    if stripe >= arena.config().stripes {
        return None;
    }
    let Ok(held) = arena.try_stripe(holder, stripe) else {
        return None;
    };
    let Ok(slabs) = arena.try_slabs(holder) else {
        return None;
    };
    release(arena, hand, item);
    let found = header(arena, hand, FIRST);
    arena.give_slabs(holder, slabs);
    arena.give_stripe(holder, held);
    found
}

/// An item of the greatest length, in that chunk.
const STORED: [Step; 2] = [Step::Sets(1, 2, 7, MOST_WORDS), Step::Head(FIRST, 458_753)];

/// An item is set, referred to, given up beside another hand's locks, and deleted; its header at each step.
fn play_header_states<R: Abort + Wait>(rt: &R, alloc: Global, two: &mut Two) -> Result<(), Fail>
    requires { AreReady two.old }
{
    let Two { arena, hand, other } = two;
    play_all(rt, alloc, arena, hand, &STORED)?;
    let Some(item) = get_by(rt, arena, hand, 1, Getter::Get) else {
        return Err(Fail::new("the key has an item"));
    };
    let counted = header(arena, other, FIRST);
    assert_same(rt, counted, Some(458_754), "get");
    let released = release_beside(arena, hand, item, other, 1);
    assert_same(rt, released, Some(458_753), "release");
    let steps = [Step::Deletes(1), Step::Head(FIRST, 393_216)];
    play_all(rt, alloc, arena, hand, &steps)?;
    Ok(())
}

#[test]
fn headers_count_link_and_references(rt: HostRuntime) -> Result<(), Fail> {
    play_two!(rt, play_header_states)
}

/// A reader gives an item up that was deleted meanwhile.
fn release_behind_delete<R: Abort + Wait>(rt: &R, alloc: Global, two: &mut Two) -> Result<(), Fail>
    requires { AreReady two.old }
{
    let Two {
        arena,
        hand,
        other: reader,
    } = two;
    play_all(rt, alloc, arena, hand, &STORED)?;
    let Some(item) = get_by(rt, arena, reader, 1, Getter::Get) else {
        return Err(Fail::new("the key has an item"));
    };
    let steps = [Step::Deletes(1), Step::Head(FIRST, 393_217)];
    play_all(rt, alloc, arena, hand, &steps)?;
    let released = release_beside(arena, reader, item, hand, 1);
    assert_same(rt, released, Some(393_216), "release");
    Ok(())
}

#[test]
fn the_last_release_behind_a_delete_leaves_a_dead_chunk(rt: HostRuntime) -> Result<(), Fail> {
    play_two!(rt, release_behind_delete)
}

#[test]
fn items_have_at_most_61_words(rt: HostRuntime) -> Result<(), Fail> {
    let steps = [
        Step::Sets(1, 2, 0, 61),
        Step::Refuses(2, 62, SetError::TooLarge),
    ];
    run(&rt, rt.alloc(), &FOUR_CLASSES, &steps)
}

#[test]
fn a_ninth_item_evicts_the_oldest(rt: HostRuntime) -> Result<(), Fail> {
    for getter in GETTERS {
        let steps = [
            Step::Sets(1, 10, 0, MOST_WORDS),
            Step::Finds(getter, 1, 2, false),
            Step::Touches(2),
            Step::Sets(10, 1, 0, 3),
        ];
        run(&rt, rt.alloc(), &FOUR_CLASSES, &steps)?;
    }
    Ok(())
}
