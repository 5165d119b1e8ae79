//! A reference keeps the words of its item, whatever is stored meanwhile.
ghost use Rattle.mc_words.specs.hand.Arenas.{view};
ghost use Rattle.mc_items.specs.ItemRefs.{IsItemRef};
ghost use Rattle.mc_words.specs.hand.Ready.{IsReadyHandOf};
ghost use Rattle.testlib_hands.specs.Pairs.{AreReady};

use super::steps::Step;
use crate::tests::assert_same;
use mc_items::{Ref, read, release};
use mc_memory::Refused;
use mc_pages::ChunkId;
use mc_stripe::{Key, Stamp};
use mc_words::{Arena, Hand};
use std::alloc::Global;
use std::process::Abort;
use std::sync::Wait;
use std::test::Fail;
use testlib_hands::{GETTERS, Getter, Two, are_from, get_by, play_all, play_two};

/// The first chunk of a class of 21 chunks a page that goes out.
const FIRST: ChunkId = ChunkId { page: 0, index: 20 };

/// Whether the item is of that key and stamp, and has three words from this one on.
fn is_item(
    alloc: Global,
    arena: &Arena,
    hand: &mut Hand,
    item: &Ref,
    key: Key,
    stamp: Stamp,
    first: u64,
) -> Result<bool, Refused>
    requires arena { IsReadyHandOf arena.now hand.old }
    requires item { IsItemRef (view hand.old) item.now }
    ensures arena { IsReadyHandOf arena.now hand.new }
    ensures item { IsItemRef (view hand.new) item.now }
{
    let is_named = item.key() == key && item.stamp() == stamp && item.len() == 3;
    let words = read(alloc, arena, hand, item)?;
    Ok(is_named && are_from(&words, first, 3))
}

/// A key is stored over, while its first item is held: each reader has the words of its own.
fn store_over<R: Abort + Wait>(
    rt: &R,
    alloc: Global,
    two: &mut Two,
    getter: Getter,
) -> Result<(), Fail>
    requires { AreReady two.old }
{
    let Two {
        arena,
        hand,
        other: reader,
    } = two;
    play_all(rt, alloc, arena, hand, &[Step::Sets(1, 2, 7, 3)])?;
    let Some(old) = get_by(rt, arena, reader, 1, getter) else {
        return Err(Fail::new("the key has an item"));
    };
    play_all(rt, alloc, arena, hand, &[Step::Sets(1, 2, 50, 3)])?;
    let Some(new) = get_by(rt, arena, hand, 1, getter) else {
        return Err(Fail::new("the key has an item"));
    };
    let own = is_item(alloc, arena, hand, &new, 1, 2, 50)?;
    assert_same(rt, own, true, "the new item");
    let own = is_item(alloc, arena, reader, &old, 1, 1, 7)?;
    assert_same(rt, own, true, "the old item");
    play_all(rt, alloc, arena, hand, &[Step::Head(FIRST, 393_217)])?;
    release(arena, reader, old);
    play_all(rt, alloc, arena, hand, &[Step::Head(FIRST, 393_216)])?;
    Ok(())
}

#[test]
fn a_held_item_keeps_its_words(rt: HostRuntime) -> Result<(), Fail> {
    for getter in GETTERS {
        play_two!(rt, store_over, getter)?;
    }
    Ok(())
}
