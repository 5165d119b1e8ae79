//! A reference that is held over other calls.
ghost use Rattle.std.specs.Prelude.{◌≡◌, IfOk};
ghost use Rattle.mc_words.specs.hand.Arenas.{view};
ghost use Rattle.mc_words.specs.item.Refs.{KeepsRefs};
ghost use Rattle.mc_items.specs.ItemRefs.{item_words};
ghost use Rattle.mc_words.specs.hand.Ready.{IsReadyHandOf};
ghost use Rattle.example_calls.specs.Hands.{IsReadyWithRef};

use mc_items::{Ref, delete, get, read, release, set, touch};
use mc_memory::Refused;
use mc_mover::{forget, trim, turn};
use mc_words::{Arena, Hand};
use std::alloc::Global;
use std::sync::Wait;

/// Sets, gets, touches and deletes a key, whatever it is, and makes a turn of the mover, while an item is held; and then reads that item:
/// its words are those that it had before.
pub fn read_after_all<R: Wait>(
    rt: &R,
    alloc: Global,
    arena: &Arena,
    hand: &mut Hand,
    item: &Ref,
    key: u64,
    words: &[u64],
) -> Result<Vec<u64>, Refused>
    requires { IsReadyWithRef arena.now item.now hand.old }
    ensures refers { IsReadyWithRef arena.now item.now hand.new }
    ensures words { IfOk result (λ read. read.items ≡ item_words (view hand.old) item.now) }
{
    let _ = set(rt, arena, hand, key, words);
    get_and_release(rt, arena, hand, key);
    let _ = touch(rt, arena, hand, key);
    let _ = delete(rt, arena, hand, key);
    let _ = turn(rt, arena, hand);
    read(alloc, arena, hand, item)
}

/// Trims each stripe, and then has it forget its calls, while an item is held; and then reads that item: its words are those that it had
/// before.
pub fn read_after_trims<R: Wait>(
    rt: &R,
    alloc: Global,
    arena: &Arena,
    hand: &mut Hand,
    item: &Ref,
) -> Result<Vec<u64>, Refused>
    requires { IsReadyWithRef arena.now item.now hand.old }
    ensures refers { IsReadyWithRef arena.now item.now hand.new }
    ensures words { IfOk result (λ read. read.items ≡ item_words (view hand.old) item.now) }
{
    let _ = trim(rt, arena, hand);
    forget(rt, arena, hand);
    read(alloc, arena, hand, item)
}

// Gets the key's item, if it has one, and releases it.
fn get_and_release<R: Wait>(rt: &R, arena: &Arena, hand: &mut Hand, key: u64)
    requires { IsReadyHandOf arena.now hand.old }
    ensures ready { IsReadyHandOf arena.now hand.new }
    ensures keeps { KeepsRefs (view hand.old) (view hand.new) }
{
    if let Ok(Some(other)) = get(rt, arena, hand, key) {
        release(arena, hand, other);
    }
}
