//! Keys that are got, and keys that are touched.
ghost use Rattle.std.specs.Prelude.{◌≡◌, [], ◌∷◌, ◌⊎◌, Ok, OnErr, false, true};
ghost use Rattle.mc_packing.specs.Packing.{IsPackingOf};
ghost use Rattle.mc_words.specs.hand.Arenas.{setup_of, view};
ghost use Rattle.mc_words.specs.hand.Observers.{hand_number};
ghost use Rattle.mc_items.specs.Calls.{RecordsNoCall};
ghost use Rattle.mc_items.specs.ItemRefs.{item_words};
ghost use Rattle.mc_items.specs.Keeping.{StoresNothing, holding_by};
ghost use Rattle.mc_shard.specs.Finding.{BumpsItem, FindsFull, FindsOtherKey, FindsSome, ReturnsValue, TouchesKey};
ghost use Rattle.mc_shard.specs.Hands.{IsIdleHandOf};
ghost use Rattle.mc_shard.specs.Reading.{LeavesSlabs, RefersTo, TakesSlabsOnce};
ghost use Rattle.mc_shard.specs.Recording.{RecordsGetAtMost};

use crate::hints::{HintTable, Look};
use crate::label::Label;
use crate::lookup::get_item;
use crate::reading::is_of;
use crate::try_gets::give_value;
use mc_items::{Ref, bump, release};
use mc_memory::Refused;
use mc_words::{Arena, Hand};
use std::sync::Wait;

/// The same as [`peek`]; and the item that it finds is marked as got, so that the next eviction which looks at it lets it stay.
/// (memcached's `process_get_command`, which sets `ITEM_ACTIVE`)
pub fn get<R: Wait>(
    rt: &R,
    arena: &Arena,
    hints: &HintTable,
    hand: &mut Hand,
    at: Label,
    into: &mut Vec<u8>,
) -> Result<bool, Refused>
    requires { IsIdleHandOf arena.now hand.old }
    ensures value { result ≡ Ok true →
        ReturnsValue (setup_of arena.now) at.entry.hash at.entry.key.now hand.old into.old.items
        into.new.items }
    ensures other { result ≡ Ok false →
        FindsOtherKey (setup_of arena.now) at.entry.hash at.entry.key.now hand.old }
    ensures kept { (result ≡ Ok true → ⊥) → into.new.items ≡ into.old.items }
    ensures full { OnErr result (FindsFull (setup_of arena.now) at.entry.hash hand.old hand.new
        ⊎ FindsSome (setup_of arena.now) at.entry.hash hand.old) }
    ensures calls { RecordsGetAtMost (setup_of arena.now) at.entry.hash hand.old hand.new }
    ensures stores_nothing { StoresNothing (view hand.old) (view hand.new) }
    ensures slabs { LeavesSlabs (view hand.old) (view hand.new) }
    ensures number { hand_number hand.new ≡ hand_number hand.old }
    ensures idle { IsIdleHandOf arena.now hand.new }
{
    value_of(rt, arena, hints, hand, at, Look::Use, into)
}

/// Puts the key's value behind the bytes that are there, and returns whether the key has one. It waits for the lock of the hash's
/// stripe, unless a hint leads to the item. An item of another key under the hash is none. Beside an entry in the stripe's history it
/// takes memory for these bytes alone; where that is refused, they stay. (own)
pub fn peek<R: Wait>(
    rt: &R,
    arena: &Arena,
    hints: &HintTable,
    hand: &mut Hand,
    at: Label,
    into: &mut Vec<u8>,
) -> Result<bool, Refused>
    requires { IsIdleHandOf arena.now hand.old }
    ensures value { result ≡ Ok true →
        ReturnsValue (setup_of arena.now) at.entry.hash at.entry.key.now hand.old into.old.items
        into.new.items }
    ensures other { result ≡ Ok false →
        FindsOtherKey (setup_of arena.now) at.entry.hash at.entry.key.now hand.old }
    ensures kept { (result ≡ Ok true → ⊥) → into.new.items ≡ into.old.items }
    ensures full { OnErr result (FindsFull (setup_of arena.now) at.entry.hash hand.old hand.new
        ⊎ FindsSome (setup_of arena.now) at.entry.hash hand.old) }
    ensures calls { RecordsGetAtMost (setup_of arena.now) at.entry.hash hand.old hand.new }
    ensures stores_nothing { StoresNothing (view hand.old) (view hand.new) }
    ensures slabs { LeavesSlabs (view hand.old) (view hand.new) }
    ensures number { hand_number hand.new ≡ hand_number hand.old }
    ensures idle { IsIdleHandOf arena.now hand.new }
{
    value_of(rt, arena, hints, hand, at, Look::Peek, into)
}

// The same, by a look that changes the mark of the item's hint.
#[inline(always)]
fn value_of<R: Wait>(
    rt: &R,
    arena: &Arena,
    hints: &HintTable,
    hand: &mut Hand,
    at: Label,
    look: Look,
    into: &mut Vec<u8>,
) -> Result<bool, Refused>
    requires { IsIdleHandOf arena.now hand.old }
    ensures value { result ≡ Ok true →
        ReturnsValue (setup_of arena.now) at.entry.hash at.entry.key.now hand.old into.old.items
        into.new.items }
    ensures other { result ≡ Ok false →
        FindsOtherKey (setup_of arena.now) at.entry.hash at.entry.key.now hand.old }
    ensures kept { (result ≡ Ok true → ⊥) → into.new.items ≡ into.old.items }
    ensures full { OnErr result (FindsFull (setup_of arena.now) at.entry.hash hand.old hand.new
        ⊎ FindsSome (setup_of arena.now) at.entry.hash hand.old) }
    ensures calls { RecordsGetAtMost (setup_of arena.now) at.entry.hash hand.old hand.new }
    ensures stores_nothing { StoresNothing (view hand.old) (view hand.new) }
    ensures slabs { LeavesSlabs (view hand.old) (view hand.new) }
    ensures number { hand_number hand.new ≡ hand_number hand.old }
    ensures idle { IsIdleHandOf arena.now hand.new }
{
    let Some(item) = get_item(rt, arena, hints, hand, at.hash, look)? else {
        return Ok(false);
    };
    give_value(arena, hand, item, at.key, into)
}

/// Makes the key's item the one of its class that is evicted last, and returns whether it has one. An item of another key under
/// the hash stays as it is. It is a get, whose reference is given up. (memcached's `process_touch_command`)
pub fn touch<R: Wait>(
    rt: &R,
    arena: &Arena,
    hints: &HintTable,
    hand: &mut Hand,
    at: Label,
) -> Result<bool, Refused>
    requires { IsIdleHandOf arena.now hand.old }
    ensures touches { result ≡ Ok true →
        TouchesKey (setup_of arena.now) at.entry.hash at.entry.key.now hand.old hand.new }
    ensures none { result ≡ Ok false →
        FindsOtherKey (setup_of arena.now) at.entry.hash at.entry.key.now hand.old }
    ensures full { OnErr result (FindsFull (setup_of arena.now) at.entry.hash hand.old hand.new) }
    ensures once { result ≡ Ok true → TakesSlabsOnce (view hand.old) (view hand.new) }
    ensures slabs { (result ≡ Ok true → ⊥) → LeavesSlabs (view hand.old) (view hand.new) }
    ensures calls { RecordsGetAtMost (setup_of arena.now) at.entry.hash hand.old hand.new }
    ensures stores_nothing { StoresNothing (view hand.old) (view hand.new) }
    ensures number { hand_number hand.new ≡ hand_number hand.old }
    ensures idle { IsIdleHandOf arena.now hand.new }
{
    let Some(item) = get_item(rt, arena, hints, hand, at.hash, Look::Peek)? else {
        return Ok(false);
    };
    Ok(touch_own(rt, arena, hand, item, at.key))
}

// Whether an item that the hand holds, and nothing else, is of the key, which is touched then. The reference is given up.
fn touch_own<R: Wait>(rt: &R, arena: &Arena, hand: &mut Hand, item: Ref, key: &[u8]) -> bool
    requires item { RefersTo arena.now item hand.old }
    requires alone { (view hand.old).row.holdings ≡ holding_by (view hand.old) item ∷ [] }
    ensures own { result ≡ true → IsPackingOf key.now (item_words (view hand.old) item) }
    ensures bumps { result ≡ true → BumpsItem (hand_number hand.old) item hand.new }
    ensures once { result ≡ true → TakesSlabsOnce (view hand.old) (view hand.new) }
    ensures slabs { result ≡ false → LeavesSlabs (view hand.old) (view hand.new) }
    ensures other { result ≡ false → ¬ IsPackingOf key.now (item_words (view hand.old) item) }
    ensures calls { RecordsNoCall (view hand.old) (view hand.new) }
    ensures stores_nothing { StoresNothing (view hand.old) (view hand.new) }
    ensures number { hand_number hand.new ≡ hand_number hand.old }
    ensures idle { IsIdleHandOf arena.now hand.new }
{
    let own = is_of(arena, hand, &item, key);
    let_go(rt, arena, hand, item, own);
    own
}

// Gives the only reference of a hand up, and makes its item the newest of its class before, where that is asked.
fn let_go<R: Wait>(rt: &R, arena: &Arena, hand: &mut Hand, item: Ref, touches: bool)
    requires item { RefersTo arena.now item hand.old }
    requires alone { (view hand.old).row.holdings ≡ holding_by (view hand.old) item ∷ [] }
    ensures bumps { touches ≡ true → BumpsItem (hand_number hand.old) item hand.new }
    ensures once { touches ≡ true → TakesSlabsOnce (view hand.old) (view hand.new) }
    ensures slabs { touches ≡ false → LeavesSlabs (view hand.old) (view hand.new) }
    ensures calls { RecordsNoCall (view hand.old) (view hand.new) }
    ensures stores_nothing { StoresNothing (view hand.old) (view hand.new) }
    ensures number { hand_number hand.new ≡ hand_number hand.old }
    ensures idle { IsIdleHandOf arena.now hand.new }
{
    if touches {
        bump(rt, arena, hand, &item);
        release(arena, hand, item);
    } else {
        release(arena, hand, item);
    }
}
