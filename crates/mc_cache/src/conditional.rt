//! The calls of a worker that store only on a condition.
use crate::cache::{Cache, Worker};
use crate::working::SetError;
use mc_shard::{Label, Outcome, When};
use mc_stripe::Stamp;
use std::sync::Wait;

impl Worker {
    ghost use Rattle.std.specs.Prelude.{◌≡◌, ◌↔◌, Err, length};
    ghost use Rattle.mc_items.specs.declared.setting.SetError.TheVariants as item_error;
    ghost use Rattle.mc_cache.specs.Belonging.{ActsOnKey, BelongsTo, KeepsHands, hash_in};
    ghost use Rattle.mc_cache.specs.Conditional.{SetsValueIf};
    ghost use Rattle.mc_cache.specs.Shards.{IsKey};
    ghost use Rattle.mc_cache.specs.Sizes.{LacksClassIn};
    ghost use Rattle.mc_shard.specs.declared.conditions.When.TheVariants as when;
    ghost use Rattle.mc_cache.specs.declared.working.SetError.TheVariants as set_error;

    /// Stores the value under the key as [`Worker::set`] does, where the key has none, and returns `Exists` where it has one. (memcached's
    /// `add`)
    pub fn add<R: Wait>(
        &mut self,
        rt: &R,
        cache: &Cache,
        key: &[u8],
        value: &[u8],
    ) -> Result<Outcome, SetError>
        requires { BelongsTo cache.now self.old }
        ensures belongs { BelongsTo cache.now self.new }
        ensures key { (result ≡ Err set_error.KeyLength) ↔ ¬ IsKey key.now }
        ensures too_large { result ≡ Err (set_error.Item item_error.TooLarge) →
            LacksClassIn cache.now (length key.now) (length value.now) }
        ensures same { ¬ IsKey key.now → KeepsHands self.old self.new }
        ensures acts { IsKey key.now →
            ActsOnKey cache.now key.now (SetsValueIf (hash_in cache.now key.now) key.now value.now
            when.Absent result) self.old self.new }
    {
        self.set_if(rt, cache, key, value, When::Absent)
    }

    /// Stores the value under the key as [`Worker::set`] does, where the key has one, and returns `Missing` where it has none. (memcached's
    /// `replace`)
    pub fn replace<R: Wait>(
        &mut self,
        rt: &R,
        cache: &Cache,
        key: &[u8],
        value: &[u8],
    ) -> Result<Outcome, SetError>
        requires { BelongsTo cache.now self.old }
        ensures belongs { BelongsTo cache.now self.new }
        ensures key { (result ≡ Err set_error.KeyLength) ↔ ¬ IsKey key.now }
        ensures too_large { result ≡ Err (set_error.Item item_error.TooLarge) →
            LacksClassIn cache.now (length key.now) (length value.now) }
        ensures same { ¬ IsKey key.now → KeepsHands self.old self.new }
        ensures acts { IsKey key.now →
            ActsOnKey cache.now key.now (SetsValueIf (hash_in cache.now key.now) key.now value.now
            when.Present result) self.old self.new }
    {
        self.set_if(rt, cache, key, value, When::Present)
    }

    /// Stores the value under the key as [`Worker::set`] does, where the key's value has this version. It returns `Exists` where the key's
    /// value has another, and `Missing` where the key has none. (memcached's `cas`)
    pub fn compare_and_set<R: Wait>(
        &mut self,
        rt: &R,
        cache: &Cache,
        key: &[u8],
        value: &[u8],
        version: Stamp,
    ) -> Result<Outcome, SetError>
        requires { BelongsTo cache.now self.old }
        ensures belongs { BelongsTo cache.now self.new }
        ensures key { (result ≡ Err set_error.KeyLength) ↔ ¬ IsKey key.now }
        ensures too_large { result ≡ Err (set_error.Item item_error.TooLarge) →
            LacksClassIn cache.now (length key.now) (length value.now) }
        ensures same { ¬ IsKey key.now → KeepsHands self.old self.new }
        ensures acts { IsKey key.now →
            ActsOnKey cache.now key.now (SetsValueIf (hash_in cache.now key.now) key.now value.now
            (when.Version version) result) self.old self.new }
    {
        self.set_if(rt, cache, key, value, When::Version(version))
    }

    /// Stores the value under the key as [`Worker::set`] does, where the key's value meets the condition. A look at the key comes first, so
    /// a set that isn't met evicts nothing. (own)
    pub fn set_if<R: Wait>(
        &mut self,
        rt: &R,
        cache: &Cache,
        key: &[u8],
        value: &[u8],
        when: When,
    ) -> Result<Outcome, SetError>
        requires { BelongsTo cache.now self.old }
        ensures belongs { BelongsTo cache.now self.new }
        ensures key { (result ≡ Err set_error.KeyLength) ↔ ¬ IsKey key.now }
        ensures too_large { result ≡ Err (set_error.Item item_error.TooLarge) →
            LacksClassIn cache.now (length key.now) (length value.now) }
        ensures same { ¬ IsKey key.now → KeepsHands self.old self.new }
        ensures acts { IsKey key.now →
            ActsOnKey cache.now key.now (SetsValueIf (hash_in cache.now key.now) key.now value.now
            when result) self.old self.new }
    {
        let Some(at) = cache.place_of(key) else {
            return Err(SetError::KeyLength);
        };
        let arena = &cache.arenas[at.shard];
        let hand = &mut self.hands[at.shard];
        let label = Label { hash: at.hash, key };
        let words = &mut self.words;
        match mc_shard::set_if(rt, arena, &cache.hints, hand, label, value, words, when) {
            Ok(outcome) => Ok(outcome),
            Err(error) => Err(SetError::Item(error)),
        }
    }
}
