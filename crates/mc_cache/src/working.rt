//! The calls of a worker.
use crate::cache::{Cache, Worker};
use mc_memory::Refused;
use mc_shard::Label;
use std::sync::Wait;
use thiserror::Error;

/// Why a set was refused.
#[derive(Debug, PartialEq, Eq, Drop, Error)]
pub enum SetError {
    /// The key has no byte, or more than 250. Nothing was done.
    #[error("a key must have from 1 to 250 bytes; nothing was done")]
    KeyLength,
    /// The item isn't stored. Where it is too large, [`Cache::max_value`] returns the most bytes that a value may have.
    #[error("the value isn't stored: {0}")]
    Item(mc_items::SetError),
}

/// Why another call was refused. The key has what it had.
#[derive(Debug, PartialEq, Eq, Drop, Error)]
pub enum CallError {
    /// The key has no byte, or more than 250. Nothing was done.
    #[error("a key must have from 1 to 250 bytes; nothing was done")]
    KeyLength,
    /// Memory was refused.
    #[error("out of memory; the key has what it had")]
    NoMemory(Refused),
}

/// Why a get that doesn't wait was refused. The key has what it had.
#[derive(Debug, PartialEq, Eq, Drop, Error)]
pub enum TryGetError {
    /// The key has no byte, or more than 250. Nothing was done.
    #[error("a key must have from 1 to 250 bytes; nothing was done")]
    KeyLength,
    /// Memory was refused.
    #[error("out of memory; the key has what it had")]
    NoMemory(Refused),
    /// Another hand has the lock.
    #[error("another worker has the lock of the key's stripe; the key has what it had")]
    Held,
}

impl Worker {
    ghost use Rattle.std.specs.Prelude.{◌≡◌, ◌↔◌, Err, Ok, OnErr, OnOk, false, length, true};
    ghost use Rattle.mc_items.specs.declared.setting.SetError as items;
    ghost use Rattle.mc_items.specs.declared.setting.SetError.TheVariants as item_error;
    ghost use Rattle.mc_cache.specs.Belonging.{ActsOnKey, BelongsTo, DeletesNoneOf, GivesValueOf, KeepsHands, RefusesAndDeletes, RefusesValueOf, hash_in};
    ghost use Rattle.mc_cache.specs.Sizes.{LacksClassIn};
    ghost use Rattle.mc_cache.specs.Shards.{DeletesAtMost, DeletesThere, FindsStripeLocked, FindsKeyInShard, GetsAtMost, IsKey, LooksInVain, ReadsOther, StoresNoMore, StoresValue, TouchesNothing, TouchesOnce, TouchesThere};
    ghost use Rattle.mc_cache.specs.declared.working.CallError.TheVariants as call_error;
    ghost use Rattle.mc_cache.specs.declared.working.SetError.TheVariants as set_error;
    ghost use Rattle.mc_cache.specs.declared.working.TryGetError.TheVariants as try_error;

    /// Stores the value under the key, in the place of what the key had. An item of another key with the same hash goes, as by an
    /// eviction. Where its class is full, some of the oldest items are evicted first. Where the store is refused, the key's old value is
    /// deleted, since it was to be replaced. It waits for locks of the key's shard. (memcached's `set`)
    pub fn set<R: Wait>(
        &mut self,
        rt: &R,
        cache: &Cache,
        key: &[u8],
        value: &[u8],
    ) -> Result<(), SetError>
        requires { BelongsTo cache.now self.old }
        ensures belongs { BelongsTo cache.now self.new }
        ensures key { (result ≡ Err set_error.KeyLength) ↔ ¬ IsKey key.now }
        ensures too_large { (result ≡ Err (set_error.Item item_error.TooLarge)) ↔ IsKey key.now
            × LacksClassIn cache.now (length key.now) (length value.now) }
        ensures same { ¬ IsKey key.now → KeepsHands self.old self.new }
        ensures stores { OnOk result (ActsOnKey cache.now key.now
            (StoresValue (hash_in cache.now key.now) key.now value.now) self.old self.new) }
        ensures refused { (error : items.SetError) → result ≡ Err (set_error.Item error) →
            RefusesAndDeletes cache.now key.now value.now error self.old self.new }
    {
        let stored = self.set_or_keep(rt, cache, key, value);
        if stored.is_err() {
            let _deleted = self.delete(rt, cache, key);
        }
        stored
    }

    /// The same as `set`, but where the store is refused, the key has what it had, unless its item was among those that were evicted. (own)
    pub fn set_or_keep<R: Wait>(
        &mut self,
        rt: &R,
        cache: &Cache,
        key: &[u8],
        value: &[u8],
    ) -> Result<(), SetError>
        requires { BelongsTo cache.now self.old }
        ensures belongs { BelongsTo cache.now self.new }
        ensures key { (result ≡ Err set_error.KeyLength) ↔ ¬ IsKey key.now }
        ensures too_large { (result ≡ Err (set_error.Item item_error.TooLarge)) ↔ IsKey key.now
            × LacksClassIn cache.now (length key.now) (length value.now) }
        ensures same { ¬ IsKey key.now → KeepsHands self.old self.new }
        ensures stores { OnOk result (ActsOnKey cache.now key.now
            (StoresValue (hash_in cache.now key.now) key.now value.now) self.old self.new) }
        ensures refused { (error : items.SetError) → result ≡ Err (set_error.Item error) →
            RefusesValueOf cache.now key.now value.now error self.old self.new }
    {
        let Some(at) = cache.place_of(key) else {
            return Err(SetError::KeyLength);
        };
        let arena = &cache.arenas[at.shard];
        let hand = &mut self.hands[at.shard];
        let label = Label { hash: at.hash, key };
        match mc_shard::set(rt, arena, &cache.hints, hand, label, value, &mut self.words) {
            Ok(_stamp) => Ok(()),
            Err(error) => Err(SetError::Item(error)),
        }
    }

    /// The same as `peek`; and the key's item is marked as used once more, up to three times. An eviction that looks at a marked item takes
    /// one use off, and lets the item stay. (memcached's `get`, which sets `ITEM_ACTIVE`)
    pub fn get<R: Wait>(
        &mut self,
        rt: &R,
        cache: &Cache,
        key: &[u8],
        into: &mut Vec<u8>,
    ) -> Result<bool, CallError>
        requires { BelongsTo cache.now self.old }
        ensures belongs { BelongsTo cache.now self.new }
        ensures key { (result ≡ Err call_error.KeyLength) ↔ ¬ IsKey key.now }
        ensures same { result ≡ Err call_error.KeyLength → KeepsHands self.old self.new }
        ensures value { result ≡ Ok true →
            GivesValueOf cache.now key.now into.old.items into.new.items self.old self.new }
        ensures none { result ≡ Ok false →
            ActsOnKey cache.now key.now (ReadsOther (hash_in cache.now key.now) key.now) self.old
            self.new }
        ensures kept { (result ≡ Ok true → ⊥) → into.new.items ≡ into.old.items }
        ensures refused { OnErr result (IsKey key.now →
            ActsOnKey cache.now key.now StoresNoMore self.old self.new) }
        ensures untouched { IsKey key.now →
            ActsOnKey cache.now key.now TouchesNothing self.old self.new }
        ensures calls { IsKey key.now →
            ActsOnKey cache.now key.now (GetsAtMost (hash_in cache.now key.now)) self.old self.new }
    {
        let Some(at) = cache.place_of(key) else {
            return Err(CallError::KeyLength);
        };
        let arena = &cache.arenas[at.shard];
        let hand = &mut self.hands[at.shard];
        let label = Label { hash: at.hash, key };
        mc_shard::get(rt, arena, &cache.hints, hand, label, into).map_err(CallError::NoMemory)
    }

    /// Puts the key's value behind the bytes that are there, and returns whether the key has one. Where it has none, or the call
    /// is refused, the bytes stay. It takes memory for these bytes alone, where the vector has too little room. It waits for a
    /// lock of the key's shard, unless a hint leads it to the key's item with no lock. (own)
    pub fn peek<R: Wait>(
        &mut self,
        rt: &R,
        cache: &Cache,
        key: &[u8],
        into: &mut Vec<u8>,
    ) -> Result<bool, CallError>
        requires { BelongsTo cache.now self.old }
        ensures belongs { BelongsTo cache.now self.new }
        ensures key { (result ≡ Err call_error.KeyLength) ↔ ¬ IsKey key.now }
        ensures same { result ≡ Err call_error.KeyLength → KeepsHands self.old self.new }
        ensures value { result ≡ Ok true →
            GivesValueOf cache.now key.now into.old.items into.new.items self.old self.new }
        ensures none { result ≡ Ok false →
            ActsOnKey cache.now key.now (ReadsOther (hash_in cache.now key.now) key.now) self.old
            self.new }
        ensures kept { (result ≡ Ok true → ⊥) → into.new.items ≡ into.old.items }
        ensures refused { OnErr result (IsKey key.now →
            ActsOnKey cache.now key.now StoresNoMore self.old self.new) }
        ensures untouched { IsKey key.now →
            ActsOnKey cache.now key.now TouchesNothing self.old self.new }
        ensures calls { IsKey key.now →
            ActsOnKey cache.now key.now (GetsAtMost (hash_in cache.now key.now)) self.old self.new }
    {
        let Some(at) = cache.place_of(key) else {
            return Err(CallError::KeyLength);
        };
        let arena = &cache.arenas[at.shard];
        let hand = &mut self.hands[at.shard];
        let label = Label { hash: at.hash, key };
        mc_shard::peek(rt, arena, &cache.hints, hand, label, into).map_err(CallError::NoMemory)
    }

    /// The same as `get`, but refused where another hand has the lock that it wants. It doesn't wait. (own)
    pub fn try_get(
        &mut self,
        cache: &Cache,
        key: &[u8],
        into: &mut Vec<u8>,
    ) -> Result<bool, TryGetError>
        requires { BelongsTo cache.now self.old }
        ensures belongs { BelongsTo cache.now self.new }
        ensures key { (result ≡ Err try_error.KeyLength) ↔ ¬ IsKey key.now }
        ensures same { result ≡ Err try_error.KeyLength → KeepsHands self.old self.new }
        ensures value { result ≡ Ok true →
            GivesValueOf cache.now key.now into.old.items into.new.items self.old self.new }
        ensures none { result ≡ Ok false →
            ActsOnKey cache.now key.now (ReadsOther (hash_in cache.now key.now) key.now) self.old
            self.new }
        ensures kept { (result ≡ Ok true → ⊥) → into.new.items ≡ into.old.items }
        ensures held { result ≡ Err try_error.Held →
            ActsOnKey cache.now key.now (FindsStripeLocked (hash_in cache.now key.now)) self.old
            self.new }
        ensures refused { OnErr result (IsKey key.now →
            ActsOnKey cache.now key.now StoresNoMore self.old self.new) }
        ensures untouched { IsKey key.now →
            ActsOnKey cache.now key.now TouchesNothing self.old self.new }
        ensures calls { IsKey key.now →
            ActsOnKey cache.now key.now (GetsAtMost (hash_in cache.now key.now)) self.old self.new }
    {
        let Some(at) = cache.place_of(key) else {
            return Err(TryGetError::KeyLength);
        };
        let arena = &cache.arenas[at.shard];
        let hand = &mut self.hands[at.shard];
        let label = Label { hash: at.hash, key };
        match mc_shard::try_get(arena, &cache.hints, hand, label, into) {
            Ok(found) => Ok(found),
            Err(mc_shard::TryGetError::NoMemory(refused)) => { Err(TryGetError::NoMemory(refused)) }
            Err(mc_shard::TryGetError::Held) => Err(TryGetError::Held),
        }
    }

    /// Whether the key has a value. It waits for a lock of the key's shard.
    pub fn contains<R: Wait>(
        &mut self,
        rt: &R,
        cache: &Cache,
        key: &[u8],
    ) -> Result<bool, CallError>
        requires { BelongsTo cache.now self.old }
        ensures belongs { BelongsTo cache.now self.new }
        ensures key { (result ≡ Err call_error.KeyLength) ↔ ¬ IsKey key.now }
        ensures same { result ≡ Err call_error.KeyLength → KeepsHands self.old self.new }
        ensures there { result ≡ Ok true →
            ActsOnKey cache.now key.now (FindsKeyInShard (hash_in cache.now key.now) key.now)
            self.old self.new }
        ensures none { result ≡ Ok false →
            ActsOnKey cache.now key.now (ReadsOther (hash_in cache.now key.now) key.now) self.old
            self.new }
        ensures refused { OnErr result (IsKey key.now →
            ActsOnKey cache.now key.now (LooksInVain (hash_in cache.now key.now)) self.old
            self.new) }
        ensures untouched { IsKey key.now →
            ActsOnKey cache.now key.now TouchesNothing self.old self.new }
        ensures calls { IsKey key.now →
            ActsOnKey cache.now key.now (GetsAtMost (hash_in cache.now key.now)) self.old self.new }
    {
        let Some(at) = cache.place_of(key) else {
            return Err(CallError::KeyLength);
        };
        let arena = &cache.arenas[at.shard];
        let hand = &mut self.hands[at.shard];
        let label = Label { hash: at.hash, key };
        mc_shard::contains(rt, arena, &cache.hints, hand, label).map_err(CallError::NoMemory)
    }

    /// Deletes the key, and returns whether it had a value. An item of another key with the same hash stays; where one is stored
    /// between the look and the delete it goes, as by an eviction. It waits for a lock of the key's shard. (memcached's `delete`)
    pub fn delete<R: Wait>(&mut self, rt: &R, cache: &Cache, key: &[u8]) -> Result<bool, CallError>
        requires { BelongsTo cache.now self.old }
        ensures belongs { BelongsTo cache.now self.new }
        ensures key { (result ≡ Err call_error.KeyLength) ↔ ¬ IsKey key.now }
        ensures same { result ≡ Err call_error.KeyLength → KeepsHands self.old self.new }
        ensures deletes { result ≡ Ok true →
            ActsOnKey cache.now key.now (DeletesThere (hash_in cache.now key.now) key.now true)
            self.old self.new }
        ensures none { result ≡ Ok false → DeletesNoneOf cache.now key.now self.old self.new }
        ensures refused { OnErr result (IsKey key.now →
            ActsOnKey cache.now key.now (LooksInVain (hash_in cache.now key.now)) self.old
            self.new) }
        ensures calls { IsKey key.now →
            ActsOnKey cache.now key.now (DeletesAtMost (hash_in cache.now key.now)) self.old
            self.new }
        ensures untouched { IsKey key.now →
            ActsOnKey cache.now key.now TouchesNothing self.old self.new }
    {
        let Some(at) = cache.place_of(key) else {
            return Err(CallError::KeyLength);
        };
        let arena = &cache.arenas[at.shard];
        let hand = &mut self.hands[at.shard];
        let label = Label { hash: at.hash, key };
        mc_shard::delete(rt, arena, &cache.hints, hand, label).map_err(CallError::NoMemory)
    }

    /// Makes the key's item the one of its class that is evicted last, and returns whether the key has a value. It waits for
    /// locks of the key's shard. (memcached's `touch`, of which it has the bump and no time)
    pub fn touch<R: Wait>(&mut self, rt: &R, cache: &Cache, key: &[u8]) -> Result<bool, CallError>
        requires { BelongsTo cache.now self.old }
        ensures belongs { BelongsTo cache.now self.new }
        ensures key { (result ≡ Err call_error.KeyLength) ↔ ¬ IsKey key.now }
        ensures same { result ≡ Err call_error.KeyLength → KeepsHands self.old self.new }
        ensures touches { result ≡ Ok true →
            ActsOnKey cache.now key.now (TouchesThere (hash_in cache.now key.now) key.now) self.old
            self.new }
        ensures none { result ≡ Ok false →
            ActsOnKey cache.now key.now (ReadsOther (hash_in cache.now key.now) key.now) self.old
            self.new }
        ensures refused { OnErr result (IsKey key.now →
            ActsOnKey cache.now key.now (LooksInVain (hash_in cache.now key.now)) self.old
            self.new) }
        ensures once { result ≡ Ok true →
            ActsOnKey cache.now key.now TouchesOnce self.old self.new }
        ensures untouched { (result ≡ Ok true → ⊥) → IsKey key.now →
            ActsOnKey cache.now key.now TouchesNothing self.old self.new }
        ensures calls { IsKey key.now →
            ActsOnKey cache.now key.now (GetsAtMost (hash_in cache.now key.now)) self.old self.new }
    {
        let Some(at) = cache.place_of(key) else {
            return Err(CallError::KeyLength);
        };
        let arena = &cache.arenas[at.shard];
        let hand = &mut self.hands[at.shard];
        let label = Label { hash: at.hash, key };
        mc_shard::touch(rt, arena, &cache.hints, hand, label).map_err(CallError::NoMemory)
    }
}
