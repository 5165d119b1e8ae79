//! The keys of the items of a stripe.
ghost use Rattle.std.specs.Prelude.{◌<◌, ◌≡◌, ◌++◌, ◌∷◌, [], IfOk, IfSome, None, Ok, OnErr, OnOk, ℕ, List, length};
ghost use Rattle.mc_packing.specs.Packing.{AreBytes, IsPackingOf};
ghost use Rattle.mc_words.specs.hand.Arenas.{setup_of, view};
ghost use Rattle.mc_words.specs.hand.Observers.{hand_number};
ghost use Rattle.mc_items.specs.Calls.{RecordsNoCall};
ghost use Rattle.mc_items.specs.ItemRefs.{item_words};
ghost use Rattle.mc_items.specs.Keeping.{StoresNothing, holding_by};
ghost use Rattle.mc_shard.specs.Finding.{FindsKey};
ghost use Rattle.mc_shard.specs.Hands.{IsIdleHandOf};
ghost use Rattle.mc_shard.specs.Listing.{FindsNoKey, ListsStripe, LooksUpFirst, PutsKey, PutsSome, bytes_of_keys};
ghost use Rattle.mc_shard.specs.Reading.{LeavesSlabs, OnlyReads, RefersTo};
ghost use Rattle.mc_shard.specs.Recording.{RecordsGetAtMost};

use crate::hints::{HintTable, Look};
use crate::lookup::get_item;
use mc_items::{Ref, keys_of_stripe, read, release};
use mc_memory::{Refused, push};
use mc_packing::unpack_key;
use mc_words::{Arena, Hand};
use std::alloc::Global;
use std::sync::Wait;

/// Puts the key of each item of a stripe behind the keys that are there. First the hashes of the stripe are listed, in one hold of its lock, for
/// which it waits. Then each is looked up as by a get, and its item's key is put. An item that went meanwhile is left out. Where memory is
/// refused, the keys that were put stay. (own, in the place of memcached's `lru_crawler metadump`)
pub fn keys<R: Wait>(
    rt: &R,
    alloc: Global,
    arena: &Arena,
    hints: &HintTable,
    hand: &mut Hand,
    stripe: u64,
    into: &mut Vec<Vec<u8>>,
) -> Result<(), Refused>
    requires idle { IsIdleHandOf arena.now hand.old }
    requires in_range { stripe < (setup_of arena.now).config.stripes }
    ensures idle { IsIdleHandOf arena.now hand.new }
    ensures number { hand_number hand.new ≡ hand_number hand.old }
    ensures lists { OnOk result (ListsStripe (setup_of arena.now) stripe
        (bytes_of_keys into.old.items) (bytes_of_keys into.new.items) hand.old hand.new) }
    ensures refused { OnErr result
        (PutsSome (bytes_of_keys into.old.items) (bytes_of_keys into.new.items)) }
    ensures stores_nothing { StoresNothing (view hand.old) (view hand.new) }
    ensures slabs { LeavesSlabs (view hand.old) (view hand.new) }
{
    let mut hashes = Vec::new(alloc);
    keys_of_stripe(rt, arena, hand, stripe, &mut hashes)?;
    keys_under(rt, alloc, arena, hints, hand, &hashes, into)
}

// Puts the key of the item under each of these hashes behind the keys that are there.
fn keys_under<R: Wait>(
    rt: &R,
    alloc: Global,
    arena: &Arena,
    hints: &HintTable,
    hand: &mut Hand,
    hashes: &[u64],
    into: &mut Vec<Vec<u8>>,
) -> Result<(), Refused>
    requires { IsIdleHandOf arena.now hand.old }
    ensures idle { IsIdleHandOf arena.now hand.new }
    ensures number { hand_number hand.new ≡ hand_number hand.old }
    ensures looks { OnOk result ((keys : List (List ℕ))
        × LooksUpFirst (setup_of arena.now) hashes.now (length hashes.now) keys hand.old hand.new
        × (bytes_of_keys into.new.items ≡ bytes_of_keys into.old.items ++ keys)) }
    ensures refused { OnErr result
        (PutsSome (bytes_of_keys into.old.items) (bytes_of_keys into.new.items)) }
    ensures stores_nothing { StoresNothing (view hand.old) (view hand.new) }
    ensures slabs { LeavesSlabs (view hand.old) (view hand.new) }
{
    for hash in hashes {
        put_key(rt, alloc, arena, hints, hand, *hash, into)?;
    }
    Ok(())
}

// Puts the key of the item under the hash behind the keys that are there, if there is one. Where memory is refused, the keys stay.
fn put_key<R: Wait>(
    rt: &R,
    alloc: Global,
    arena: &Arena,
    hints: &HintTable,
    hand: &mut Hand,
    hash: u64,
    into: &mut Vec<Vec<u8>>,
) -> Result<(), Refused>
    requires { IsIdleHandOf arena.now hand.old }
    ensures idle { IsIdleHandOf arena.now hand.new }
    ensures number { hand_number hand.new ≡ hand_number hand.old }
    ensures puts { OnOk result (PutsKey (setup_of arena.now) hash (bytes_of_keys into.old.items)
        (bytes_of_keys into.new.items) hand.old hand.new) }
    ensures refused { OnErr result (into.new.items ≡ into.old.items) }
    ensures stores_nothing { StoresNothing (view hand.old) (view hand.new) }
    ensures slabs { LeavesSlabs (view hand.old) (view hand.new) }
{
    match key_under(rt, alloc, arena, hints, hand, hash) {
        Ok(Some(key)) => push(into, key),
        Ok(None) => Ok(()),
        Err(refused) => Err(refused),
    }
}

// The key of the item under the hash, if there is one.
fn key_under<R: Wait>(
    rt: &R,
    alloc: Global,
    arena: &Arena,
    hints: &HintTable,
    hand: &mut Hand,
    hash: u64,
) -> Result<Option<Vec<u8>>, Refused>
    requires { IsIdleHandOf arena.now hand.old }
    ensures idle { IsIdleHandOf arena.now hand.new }
    ensures number { hand_number hand.new ≡ hand_number hand.old }
    ensures key { IfOk result (λ found. IfSome found (λ key.
        FindsKey (setup_of arena.now) hash key.items hand.old)) }
    ensures none { result ≡ Ok None → FindsNoKey (setup_of arena.now) hash hand.old }
    ensures calls { RecordsGetAtMost (setup_of arena.now) hash hand.old hand.new }
    ensures stores_nothing { StoresNothing (view hand.old) (view hand.new) }
    ensures slabs { LeavesSlabs (view hand.old) (view hand.new) }
{
    match get_item(rt, arena, hints, hand, hash, Look::Peek) {
        Ok(Some(item)) => take_key(alloc, arena, hand, item),
        Ok(None) => Ok(None),
        Err(refused) => Err(refused),
    }
}

// The key of an item that the hand holds, and nothing else. The reference is given up.
pub(crate) fn take_key(
    alloc: Global,
    arena: &Arena,
    hand: &mut Hand,
    item: Ref,
) -> Result<Option<Vec<u8>>, Refused>
    requires item { RefersTo arena.now item hand.old }
    requires alone { (view hand.old).row.holdings ≡ holding_by (view hand.old) item ∷ [] }
    ensures idle { IsIdleHandOf arena.now hand.new }
    ensures number { hand_number hand.new ≡ hand_number hand.old }
    ensures own { IfOk result (λ found. IfSome found (λ key.
        IsPackingOf key.items (item_words (view hand.old) item))) }
    ensures none { result ≡ Ok None → (key : List ℕ) → AreBytes key →
        ¬ IsPackingOf key (item_words (view hand.old) item) }
    ensures calls { RecordsNoCall (view hand.old) (view hand.new) }
    ensures stores_nothing { StoresNothing (view hand.old) (view hand.new) }
    ensures slabs { LeavesSlabs (view hand.old) (view hand.new) }
{
    let words = read_words(alloc, arena, hand, &item);
    release(arena, hand, item);
    match words {
        Ok(words) => unpack_key(alloc, &words),
        Err(refused) => Err(refused),
    }
}

// The words of an item that the hand holds.
fn read_words(
    alloc: Global,
    arena: &Arena,
    hand: &mut Hand,
    item: &Ref,
) -> Result<Vec<u64>, Refused>
    requires { RefersTo arena.now item.now hand.old }
    ensures reads { OnlyReads arena.now item.now hand.old hand.new }
    ensures words { IfOk result (λ words. words.items ≡ item_words (view hand.old) item.now) }
{
    read(alloc, arena, hand, item)
}
