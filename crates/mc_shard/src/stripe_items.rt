//! The items of a stripe and of a shard, counted by class.
ghost use Rattle.std.specs.Prelude.{◌<◌, ◌≡◌, ◌∷◌, [], IfOk, IfSome, None, OnErr, OnOk, length};
ghost use Rattle.std.specs.Option.{option_to_list};
ghost use Rattle.mc_words.specs.hand.Arenas.{setup_of, view};
ghost use Rattle.mc_words.specs.hand.Observers.{hand_number};
ghost use Rattle.mc_items.specs.Calls.{RecordsNoCall};
ghost use Rattle.mc_items.specs.ItemRefs.{item_words};
ghost use Rattle.mc_items.specs.Keeping.{StoresNothing, holding_by};
ghost use Rattle.mc_shard.specs.ClassItems.{AddsSomeItems, CountsHashesByClass, CountsShardByClass, CountsStripeByClass, IsSizeIn, LooksForSize, rows_with_items};
ghost use Rattle.mc_shard.specs.Hands.{IsIdleHandOf};
ghost use Rattle.mc_shard.specs.Reading.{LeavesSlabs, OnlyReads, RefersTo};

use crate::class_items::{ClassItems, ItemSize, add_item};
use crate::hints::{HintTable, Look};
use crate::lookup::get_item;
use crate::reading::read_word;
use mc_items::{Ref, first_place, keys_of_stripe, release};
use mc_memory::Refused;
use mc_words::{Arena, Hand};
use std::alloc::Global;
use std::sync::Wait;

/// Counts the items of a shard in the rows of their classes, stripe by stripe as [`items_of_stripe`] does. Where memory is refused, the
/// rows have what was counted so far. (own, for memcached's `stats items`)
pub fn items_of_shard<R: Wait>(
    rt: &R,
    alloc: Global,
    arena: &Arena,
    hints: &HintTable,
    hand: &mut Hand,
    rows: &mut [ClassItems],
) -> Result<(), Refused>
    requires { IsIdleHandOf arena.now hand.old }
    ensures idle { IsIdleHandOf arena.now hand.new }
    ensures number { hand_number hand.new ≡ hand_number hand.old }
    ensures counts { OnOk result (CountsShardByClass (setup_of arena.now)
        rows.old rows.new hand.old hand.new) }
    ensures refused { OnErr result (AddsSomeItems (setup_of arena.now).table rows.old rows.new) }
    ensures stores_nothing { StoresNothing (view hand.old) (view hand.new) }
    ensures slabs { LeavesSlabs (view hand.old) (view hand.new) }
{
    for stripe in 0..arena.config().stripes {
        items_of_stripe(rt, alloc, arena, hints, hand, stripe, rows)?;
    }
    Ok(())
}

/// Counts the items of a stripe in the rows of their classes, that of class 1 first. First the hashes of the stripe are listed, in one hold
/// of its lock, for which it waits. Then each is looked up as by a get that marks nothing, and the lengths of its item's key and value are
/// read. An item that went meanwhile isn't counted, nor is one whose class has no row. Where memory is refused, the rows have what was counted
/// so far. (own, for memcached's `stats items`)
pub fn items_of_stripe<R: Wait>(
    rt: &R,
    alloc: Global,
    arena: &Arena,
    hints: &HintTable,
    hand: &mut Hand,
    stripe: u64,
    rows: &mut [ClassItems],
) -> Result<(), Refused>
    requires idle { IsIdleHandOf arena.now hand.old }
    requires in_range { stripe < (setup_of arena.now).config.stripes }
    ensures idle { IsIdleHandOf arena.now hand.new }
    ensures number { hand_number hand.new ≡ hand_number hand.old }
    ensures counts { OnOk result (CountsStripeByClass (setup_of arena.now) stripe
        rows.old rows.new hand.old hand.new) }
    ensures refused { OnErr result (AddsSomeItems (setup_of arena.now).table rows.old rows.new) }
    ensures stores_nothing { StoresNothing (view hand.old) (view hand.new) }
    ensures slabs { LeavesSlabs (view hand.old) (view hand.new) }
{
    let mut hashes = Vec::new(alloc);
    keys_of_stripe(rt, arena, hand, stripe, &mut hashes)?;
    count_under(rt, arena, hints, hand, &hashes, rows)
}

// Counts the item under each of these hashes in the row of its class.
fn count_under<R: Wait>(
    rt: &R,
    arena: &Arena,
    hints: &HintTable,
    hand: &mut Hand,
    hashes: &[u64],
    rows: &mut [ClassItems],
) -> Result<(), Refused>
    requires { IsIdleHandOf arena.now hand.old }
    ensures idle { IsIdleHandOf arena.now hand.new }
    ensures number { hand_number hand.new ≡ hand_number hand.old }
    ensures counts { OnOk result (CountsHashesByClass (setup_of arena.now) hashes.now
        rows.old rows.new hand.old hand.new) }
    ensures refused { OnErr result (AddsSomeItems (setup_of arena.now).table rows.old rows.new) }
    ensures stores_nothing { StoresNothing (view hand.old) (view hand.new) }
    ensures slabs { LeavesSlabs (view hand.old) (view hand.new) }
{
    for hash in hashes {
        match size_under(rt, arena, hints, hand, *hash) {
            Ok(found) => add_found(arena, rows, found),
            Err(refused) => return Err(refused),
        }
    }
    Ok(())
}

// Counts an item of this size, if there is one, in the row of its class.
fn add_found(arena: &Arena, rows: &mut [ClassItems], found: Option<ItemSize>)
    ensures added { rows.new ≡ rows_with_items (setup_of arena.now).table rows.old
        (option_to_list found) }
{
    if let Some(size) = found {
        add_item(arena.classes(), rows, size);
    }
}

// The size of the item under the hash, if there is one.
fn size_under<R: Wait>(
    rt: &R,
    arena: &Arena,
    hints: &HintTable,
    hand: &mut Hand,
    hash: u64,
) -> Result<Option<ItemSize>, Refused>
    requires { IsIdleHandOf arena.now hand.old }
    ensures idle { IsIdleHandOf arena.now hand.new }
    ensures number { hand_number hand.new ≡ hand_number hand.old }
    ensures looks { IfOk result (λ found.
        LooksForSize (setup_of arena.now) hash found hand.old hand.new) }
    ensures stores_nothing { StoresNothing (view hand.old) (view hand.new) }
    ensures slabs { LeavesSlabs (view hand.old) (view hand.new) }
{
    match get_item(rt, arena, hints, hand, hash, Look::Peek) {
        Ok(Some(item)) => Ok(take_size(arena, hand, item)),
        Ok(None) => Ok(None),
        Err(refused) => Err(refused),
    }
}

// The size of an item that the hand holds, and nothing else. The reference is given up.
fn take_size(arena: &Arena, hand: &mut Hand, item: Ref) -> Option<ItemSize>
    requires item { RefersTo arena.now item hand.old }
    requires alone { (view hand.old).row.holdings ≡ holding_by (view hand.old) item ∷ [] }
    ensures idle { IsIdleHandOf arena.now hand.new }
    ensures number { hand_number hand.new ≡ hand_number hand.old }
    ensures own { IfSome result (IsSizeIn (item_words (view hand.old) item)) }
    ensures none { result ≡ None → length (item_words (view hand.old) item) < 2 }
    ensures calls { RecordsNoCall (view hand.old) (view hand.new) }
    ensures stores_nothing { StoresNothing (view hand.old) (view hand.new) }
    ensures slabs { LeavesSlabs (view hand.old) (view hand.new) }
{
    let size = read_size(arena, hand, &item);
    release(arena, hand, item);
    size
}

// The size of an item that the hand holds: its first two words. None of an item of fewer words.
fn read_size(arena: &Arena, hand: &mut Hand, item: &Ref) -> Option<ItemSize>
    requires { RefersTo arena.now item.now hand.old }
    ensures reads { OnlyReads arena.now item.now hand.old hand.new }
    ensures own { IfSome result (IsSizeIn (item_words (view hand.old) item.now)) }
    ensures none { result ≡ None → length (item_words (view hand.old) item.now) < 2 }
{
    if item.len() < 2 {
        return None;
    }
    let first = first_place(arena, hand, item);
    let key = read_word(arena, hand, item, first, 0);
    let value = read_word(arena, hand, item, first, 1);
    Some(ItemSize { key, value })
}
