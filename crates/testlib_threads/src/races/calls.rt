//! Calls of hands that may make any, and which refs they keep.
ghost use Rattle.mc_words.specs.hand.Arenas.{view};
ghost use Rattle.mc_words.specs.item.Refs.{KeepsHoldings};
ghost use Rattle.mc_items.specs.Keeping.{KeepsHoldingCounts};
ghost use Rattle.mc_words.specs.hand.Ready.{IsReadyHandOf};

use crate::races::words::words_of;
use mc_items::{delete, set, touch};
use mc_stripe::Key;
use mc_words::{Arena, Hand};
use std::alloc::Global;
use std::sync::Wait;

/// Stores an item whose words show its key and stamp. False where that is refused.
pub fn set_key<R: Wait>(rt: &R, alloc: Global, arena: &Arena, hand: &mut Hand, key: Key) -> bool
    requires arena { IsReadyHandOf arena.now hand.old }
    ensures arena { IsReadyHandOf arena.now hand.new }
    ensures holdings { KeepsHoldings (view hand.old) (view hand.new) }
{
    let stamp = hand.next_stamp().unwrap_or(0);
    match words_of(alloc, key, stamp) {
        Ok(words) => set(rt, arena, hand, key, &words).is_ok(),
        Err(_) => false,
    }
}

/// Deletes the key. False where that is refused.
pub fn delete_key<R: Wait>(rt: &R, arena: &Arena, hand: &mut Hand, key: Key) -> bool
    requires arena { IsReadyHandOf arena.now hand.old }
    ensures arena { IsReadyHandOf arena.now hand.new }
    ensures holdings { KeepsHoldings (view hand.old) (view hand.new) }
{
    delete(rt, arena, hand, key).is_ok()
}

/// Touches the key. False where that is refused.
pub fn touch_key<R: Wait>(rt: &R, arena: &Arena, hand: &mut Hand, key: Key) -> bool
    requires arena { IsReadyHandOf arena.now hand.old }
    ensures arena { IsReadyHandOf arena.now hand.new }
    ensures holdings { KeepsHoldingCounts (view hand.old) (view hand.new) }
{
    touch(rt, arena, hand, key).is_ok()
}
