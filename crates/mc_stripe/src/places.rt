//! The places of a stripe's items: a table from keys, of which one entry may be aside.
ghost use Rattle.std.specs.Prelude.{◌≡◌, ◌≢◌, ◌<◌, ◌≤◌, ◌^◌, ◌↔◌, [], true, length, None, Some, OnErr, OnOk, IfSome, IsOk, IsSome};
ghost use Rattle.mc_stripe.specs.Entries.{HasEachKeyOnce, by_key, entry_at, with_entry, without_entry};
ghost use Rattle.mc_stripe.specs.Keys.{AddsKeys};
ghost use Rattle.mc_stripe.specs.Places.{aside_key};
ghost use Rattle.mc_stripe.specs.StripeState.{index_stamps, with_aside};

use crate::history::{Key, Stamp};
use crate::index;
use crate::index::Index;
use mc_memory::Refused;
use mc_pages::ChunkId;
use std::alloc::Global;
use std::collections::HashMap;
use std::marker::Model;

/// What the index has for a key.
type Place = (ChunkId, Stamp);

/// The table from keys to places, and the entry that is aside, if one is.
///
/// The entry aside stays in the table, so that its key comes back by one look-up and one write. Contracts see an index that lacks it.
#[derive(Drop)]
pub(crate) struct Places {
    table: Index,
    /// An entry that was lifted out of the index, until its key comes back. The table leads its key to its place still.
    aside: Option<(Key, Place)>,
}

impl Model for Places {
    ghost use Rattle.mc_stripe.specs.Places.{PlaceTable};

    ghost Value = { PlaceTable };

    ghost use Rattle.mc_stripe.specs.InOrder.{places_of, IsAsideInTable};

    ghost view = { places_of };

    ghost invariant = { IsAsideInTable };
}

impl Places {
    /// No key leads anywhere, and none is aside.
    pub(crate) fn new(alloc: Global) -> Places
        ensures index { result.index ≡ [] }
        ensures aside { result.aside ≡ None }
    {
        Places {
            table: HashMap::new(alloc),
            aside: None,
        }
    }

    /// Where the key leads, if the index has it.
    #[inline(always)]
    pub(crate) fn find(&self, key: Key) -> Option<Place>
        ensures { result ≡ entry_at self.now.index key }
    {
        let table = &self.table;
        if self.key_aside() == Some(key) {
            return None;
        }
        index::place_in(table, key)
    }

    /// The number of keys.
    pub(crate) fn key_count(&self) -> usize
        ensures count { result ≡ length self.now.index }
        ensures small { result < 2 ^ 63 }
    {
        let all = index::key_count(&self.table);
        match self.aside {
            Some(_) => all.saturating_sub(1),
            None => all,
        }
    }

    /// One of the keys, if there is any.
    pub(crate) fn first_key(&self) -> Option<Key>
        ensures there { IfSome result (λ key. IsSome (entry_at self.now.index key)) }
        ensures none { (result ≡ None) ↔ (self.now.index ≡ []) }
    {
        index::first_key(&self.table, self.key_aside())
    }

    /// Puts each key behind what is there, once. Where memory is refused, nothing is put.
    pub(crate) fn keys_into(&self, into: &mut Vec<Key>) -> Result<(), Refused>
        ensures keys { OnOk result (AddsKeys self.now.index into.old.items into.new.items) }
        ensures refused { OnErr result (into.new.items ≡ into.old.items) }
    {
        index::keys_into(&self.table, self.key_aside(), into)
    }

    /// The key whose entry is aside, if one is.
    #[inline(always)]
    pub(crate) fn key_aside(&self) -> Option<Key>
        ensures { result ≡ aside_key self.now }
    {
        self.aside.map(|entry| entry.0)
    }

    /// The entry that is aside, if one is.
    #[inline(always)]
    pub(crate) fn entry_aside(&self) -> Option<(Key, Place)>
        ensures { result ≡ self.now.aside }
    {
        self.aside
    }

    /// Makes room for one more key. Where keys that went used the room up, the table ends as large as it was. (own)
    pub(crate) fn reserve_one(&mut self) -> Result<(), Refused>
        ensures index { self.new.index ≡ self.old.index }
        ensures aside { self.new.aside ≡ self.old.aside }
        ensures room { OnOk result (0 < self.new.room) }
        ensures kept { self.old.room ≤ self.new.room }
        ensures succeeds { 0 < self.old.room → IsOk result }
    {
        index::reserve_one(&mut self.table)
    }

    /// The key, which is new or aside, leads to this place now. True where it was aside: no room is used up then. No entry is aside any more.
    #[inline(always)]
    pub(crate) fn put(&mut self, key: Key, place: Place) -> bool
        requires room { 0 < self.old.room }
        requires aside { IfSome (aside_key self.old) (λ other. other ≡ key) }
        ensures index { self.new.index ≡ with_entry self.old.index key place }
        ensures aside { self.new.aside ≡ None }
        ensures room { result ≡ true → self.new.room ≡ self.old.room }
    {
        if self.aside.is_some() {
            self.put_back(key, place);
            return true;
        }
        index::put(&mut self.table, key, place);
        false
    }

    /// The key aside leads to this place now, which is written over the one that it had. No entry is aside then.
    #[inline(always)]
    pub(crate) fn put_back(&mut self, key: Key, place: Place)
        requires aside { aside_key self.old ≡ Some key }
        ensures index { self.new.index ≡ with_entry self.old.index key place }
        ensures aside { self.new.aside ≡ None }
        ensures room { self.new.room ≡ self.old.room }
    {
        index::put_over(&mut self.table, key, place);
        self.aside = None;
    }

    /// The key, which isn't aside, leads nowhere any more: where it led, if it was there.
    pub(crate) fn take(&mut self, key: Key) -> Option<Place>
        requires apart { IfSome (aside_key self.old) (λ other. other ≢ key) }
        ensures place { result ≡ entry_at self.old.index key }
        ensures index { self.new.index ≡ without_entry self.old.index key }
        ensures aside { self.new.aside ≡ self.old.aside }
        ensures kept { self.old.room ≤ self.new.room }
    {
        index::take(&mut self.table, key)
    }

    /// The key's entry is put aside, which a look-up found. It isn't looked up again.
    #[inline(always)]
    pub(crate) fn lift(&mut self, key: Key, place: Place)
        requires there { entry_at self.old.index key ≡ Some place }
        requires none { self.old.aside ≡ None }
        ensures { self.new ≡ record self.old {
          index = without_entry self.old.index key;
          aside = Some (key, place);
        } }
    {
        self.aside = Some((key, place));
    }

    /// Makes these the stamps of all keys, the one aside counted in. Where memory runs out they stay as they are.
    pub(crate) fn copy_stamps(&self, base: &mut Vec<(Key, Stamp)>) -> Result<(), Refused>
        ensures copied { OnOk result (by_key base.new.items
            ≡ index_stamps (with_aside self.now.index self.now.aside)) }
        ensures each_once { OnOk result (HasEachKeyOnce base.new.items) }
        ensures refused { OnErr result (base.new.items ≡ base.old.items) }
    {
        index::copy_stamps(&self.table, base)
    }
}
