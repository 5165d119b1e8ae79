//! The table from keys to chunks and stamps. Contracts see its entries by rising key. Walks pass one key over, where one is aside.
ghost use Rattle.std.specs.Prelude.{◌≡◌, ◌+◌, ◌∷◌, ◌++◌, ◌<◌, ◌≤◌, ◌^◌, ◌↔◌, [], length, None, OnErr, OnOk, IfSome, IsOk, IsSome, vec_capacity, vec_len};
ghost use Rattle.std.specs.HashMap.{spare};
ghost use Rattle.std.specs.Map.{keys_of};
ghost use Rattle.std.specs.Option.{option_map};
ghost use Rattle.mc_stripe.specs.Entries.{HasEachKeyOnce, by_key, entries_but, entry_at, with_entry, without_entry};
ghost use Rattle.mc_stripe.specs.Keys.{AddsKeys, keys_but};
ghost use Rattle.mc_stripe.specs.StripeState.{index_stamps};

use crate::history::{Key, Stamp};
use mc_memory::{Refused, reserve, reserve_entries};
use mc_pages::ChunkId;
use std::collections::HashMap;

/// Where the items of some keys are, and under which stamps they were stored.
pub(crate) type Index = HashMap<Key, (ChunkId, Stamp)>;

/// The key's chunk and stamp.
pub(crate) fn place_in(index: &Index, key: Key) -> Option<(ChunkId, Stamp)>
    ensures { result ≡ entry_at (by_key index.now.entries) key }
{
    index.get(&key).copied()
}

/// The number of keys.
pub(crate) fn key_count(index: &Index) -> usize
    ensures count { result ≡ length (by_key index.now.entries) }
    ensures small { result < 2 ^ 63 }
{
    index.len()
}

/// A key but the one aside, if there is any. It looks at the first two keys of the table at most.
pub(crate) fn first_key(index: &Index, aside: Option<Key>) -> Option<Key>
    ensures there { IfSome result (λ key.
        IsSome (entry_at (entries_but aside (by_key index.now.entries)) key)) }
    ensures none { (result ≡ None) ↔ (entries_but aside (by_key index.now.entries) ≡ []) }
{
    let mut keys = index.keys();
    let first = keys.next().copied();
    if first == aside {
        return keys.next().copied();
    }
    first
}

/// Puts each key but the one aside behind what is there, once. Where memory is refused, nothing is put.
pub(crate) fn keys_into(
    index: &Index,
    aside: Option<Key>,
    into: &mut Vec<Key>,
) -> Result<(), Refused>
    ensures keys { OnOk result (AddsKeys (entries_but aside (by_key index.now.entries))
        into.old.items into.new.items) }
    ensures refused { OnErr result (into.new.items ≡ into.old.items) }
{
    reserve(into, index.len())?;
    push_keys(into, index, aside);
    Ok(())
}

// The keys come behind what is there, but for the one aside. There is room for them.
fn push_keys(into: &mut Vec<Key>, index: &Index, aside: Option<Key>)
    requires { vec_len into.old + length index.now.entries ≤ vec_capacity into.old }
    ensures { into.new.items ≡ into.old.items ++ keys_but aside (keys_of index.now.entries) }
{
    for key in index.keys() {
        push_key(into, *key, aside);
    }
}

// The key comes behind what is there, if it isn't the one aside. There is room for it.
fn push_key(into: &mut Vec<Key>, key: Key, aside: Option<Key>)
    requires { vec_len into.old < vec_capacity into.old }
    ensures items { into.new.items ≡ into.old.items ++ keys_but aside (key ∷ []) }
    ensures len { vec_len into.new ≤ vec_len into.old + 1 }
    ensures capacity { vec_capacity into.old ≤ vec_capacity into.new }
{
    if aside != Some(key) {
        into.push(key).unwrap();
    }
}

/// The stamp of what a look-up found.
pub(crate) fn stamp_of(found: Option<(ChunkId, Stamp)>) -> Option<Stamp>
    ensures { result ≡ option_map (λ place. place.1) found }
{
    found.map(|place| place.1)
}

/// Makes room for one more key. Where keys that went used the room up, the map ends as large as it was. (own)
pub(crate) fn reserve_one(index: &mut Index) -> Result<(), Refused>
    ensures entries { by_key index.new.entries ≡ by_key index.old.entries }
    ensures room { OnOk result (0 < spare index.new) }
    ensures kept { spare index.old ≤ spare index.new }
    ensures succeeds { 0 < spare index.old → IsOk result }
{
    if index.len() < index.capacity() {
        return Ok(());
    }
    if let Err(refused) = reserve_entries(index, 1) {
        return Err(refused);
    }
    give_half_back(index);
    Ok(())
}

/// The room of the smallest map that is kept at its size. Smaller ones may double. (own)
const LEAST_KEPT: usize = 576;

// Gives half of the map's room back, where its keys leave a sixteenth of the other half free. The kit's map loses places as keys go, and
// doubles where it has none left. Where memory for the smaller map is refused, the larger one stays. (own)
fn give_half_back(index: &mut Index)
    ensures entries { by_key index.new.entries ≡ by_key index.old.entries }
    ensures room { 0 < spare index.old → 0 < spare index.new }
{
    let half = index.capacity() / 2;
    if half < LEAST_KEPT {
        return;
    }
    if index.len() < half - half / 16 {
        index.shrink_to(half);
    }
}

/// The key leads to this place now. There is room for it.
pub(crate) fn put(index: &mut Index, key: Key, place: (ChunkId, Stamp))
    requires { 0 < spare index.old }
    ensures { by_key index.new.entries ≡ with_entry (by_key index.old.entries) key place }
{
    // The index has room.
    let put: Result<_, _> = index.insert(key, place);
    put.unwrap();
}

/// The key, which is there, leads to this place now, in the same place of the table. No room is used up.
pub(crate) fn put_over(index: &mut Index, key: Key, place: (ChunkId, Stamp))
    requires there { IsSome (entry_at (by_key index.old.entries) key) }
    ensures entries { by_key index.new.entries
        ≡ with_entry (by_key index.old.entries) key place }
    ensures room { spare index.new ≡ spare index.old }
{
    *index.get_mut(&key).unwrap() = place;
}

/// The key leads nowhere any more: where it led, if it was there.
pub(crate) fn take(index: &mut Index, key: Key) -> Option<(ChunkId, Stamp)>
    ensures place { result ≡ entry_at (by_key index.old.entries) key }
    ensures entries { by_key index.new.entries ≡ without_entry (by_key index.old.entries) key }
    ensures kept { spare index.old ≤ spare index.new }
{
    index.remove(&key)
}

/// Makes these the stamps of the table, each key's once. Where memory runs out they stay as they are.
pub(crate) fn copy_stamps(index: &Index, base: &mut Vec<(Key, Stamp)>) -> Result<(), Refused>
    ensures copied { OnOk result (by_key base.new.items
        ≡ index_stamps (by_key index.now.entries)) }
    ensures each_once { OnOk result (HasEachKeyOnce base.new.items) }
    ensures refused { OnErr result (base.new.items ≡ base.old.items) }
{
    let wanted = index.len();
    reserve(base, wanted.saturating_sub(base.len()))?;
    base.clear();
    push_stamps(base, index);
    Ok(())
}

// The stamps of the table come behind what is there. There is room for them.
fn push_stamps(base: &mut Vec<(Key, Stamp)>, index: &Index)
    requires { vec_len base.old + length index.now.entries ≤ vec_capacity base.old }
    ensures { base.new.items ≡ base.old.items ++ index_stamps index.now.entries }
{
    for (key, place) in index.iter() {
        base.push((*key, place.1)).unwrap();
    }
}
