//! Calls on items, of hands that may make any.
ghost use Rattle.std.specs.Prelude.{◌≡◌, true, IfSome};
ghost use Rattle.mc_core.specs.model.State.{has_chunk};
ghost use Rattle.mc_words.specs.hand.Arenas.{setup_of, view};
ghost use Rattle.mc_items.specs.ItemRefs.{IsItemRef, item_chunk};
ghost use Rattle.mc_words.specs.item.Refs.{HoldsTheSame};
ghost use Rattle.mc_items.specs.Keeping.{HoldsToo};
ghost use Rattle.mc_words.specs.hand.Ready.{IsReadyHandOf};

use crate::words::words_from;
use mc_items::{Ref, delete, get, set, touch};
use mc_memory::Refused;
use mc_pages::ChunkId;
use mc_stripe::Key;
use mc_words::{Arena, Hand};
use std::alloc::Global;
use std::sync::Wait;

/// Stores items of n words, from the first on, for the keys from the first on, before the second. True if each was stored.
pub fn store_all<R: Wait>(
    rt: &R,
    alloc: Global,
    arena: &Arena,
    hand: &mut Hand,
    keys: (Key, Key),
    first: u64,
    len: u64,
) -> Result<bool, Refused>
    requires arena { IsReadyHandOf arena.now hand.old }
    ensures arena { IsReadyHandOf arena.now hand.new }
{
    let words = words_from(alloc, first, len)?;
    for key in keys.0..keys.1 {
        if set(rt, arena, hand, key, &words).is_err() {
            return Ok(false);
        }
    }
    Ok(true)
}

/// A reference to the key's item, if it has one. None, too, where it was refused.
pub fn get_key<R: Wait>(rt: &R, arena: &Arena, hand: &mut Hand, key: Key) -> Option<Ref>
    requires arena { IsReadyHandOf arena.now hand.old }
    ensures arena { IsReadyHandOf arena.now hand.new }
    ensures item { IfSome result (λ item. IsItemRef (view hand.new) item) }
    ensures in_range { IfSome result (λ item. has_chunk (setup_of arena.now).table (item_chunk item)
        ≡ true) }
    ensures holdings { HoldsToo result (view hand.old) (view hand.new) }
{
    match get(rt, arena, hand, key) {
        Ok(found) => found,
        Err(_) => None,
    }
}

/// Whether the key had an item, which is deleted. None at want of memory.
pub fn delete_key<R: Wait>(rt: &R, arena: &Arena, hand: &mut Hand, key: Key) -> Option<bool>
    requires arena { IsReadyHandOf arena.now hand.old }
    ensures arena { IsReadyHandOf arena.now hand.new }
    ensures holdings { HoldsTheSame (view hand.old) (view hand.new) }
{
    delete(rt, arena, hand, key).ok()
}

/// Whether the key has an item, which is touched. None at want of memory.
pub fn touch_key<R: Wait>(rt: &R, arena: &Arena, hand: &mut Hand, key: Key) -> Option<bool>
    requires arena { IsReadyHandOf arena.now hand.old }
    ensures arena { IsReadyHandOf arena.now hand.new }
{
    touch(rt, arena, hand, key).ok()
}

/// Whether the arena has such a chunk.
pub fn has_chunk(arena: &Arena, chunk: ChunkId) -> bool
    ensures { result ≡ has_chunk (setup_of arena.now).table chunk }
{
    let classes = arena.classes();
    chunk.page < classes.arena_pages() && chunk.index < classes.per_page(1)
}

/// The header of the chunk. None where there is no such chunk.
#[tactic(auto, using(crate::proofs::Kept::ready_behind_head))]
pub fn header(arena: &Arena, hand: &mut Hand, chunk: ChunkId) -> Option<u64>
    requires arena { IsReadyHandOf arena.now hand.old }
    ensures arena { IsReadyHandOf arena.now hand.new }
{
    if !has_chunk(arena, chunk) {
        return None;
    }
    Some(arena.head(hand, chunk))
}
