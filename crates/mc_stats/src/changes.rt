//! The counting worker's calls that change a key: sets, deletes and touches.
ghost use Rattle.std.specs.Prelude.{◌≡◌, ◌↔◌, Err, Ok, OnErr, OnOk, false, length, true};
ghost use Rattle.mc_items.specs.declared.setting.SetError as items;
ghost use Rattle.mc_items.specs.declared.setting.SetError.TheVariants as item_error;
ghost use Rattle.mc_cache.specs.Belonging.{ActsOnKey, BelongsTo, DeletesNoneOf, KeepsHands, RefusesAndDeletes, RefusesValueOf, hash_in};
ghost use Rattle.mc_cache.specs.Conditional.{SetsValueIf};
ghost use Rattle.mc_cache.specs.Shards.{DeletesAtMost, DeletesThere, GetsAtMost, IsKey, LooksInVain, ReadsOther, StoresValue, TouchesNothing, TouchesOnce, TouchesThere};
ghost use Rattle.mc_cache.specs.Sizes.{LacksClassIn};
ghost use Rattle.mc_cache.specs.declared.working.CallError.TheVariants as call_error;
ghost use Rattle.mc_cache.specs.declared.working.SetError.TheVariants as set_error;
ghost use Rattle.mc_stats.specs.Counting.{counts_in_worker, worker_in};
ghost use Rattle.mc_stats.specs.Counts.{counts_after_delete, counts_after_set, counts_after_set_if, counts_after_touch};

use crate::worker::CountingWorker;
use mc_cache::{Cache, CallError, Outcome, SetError, When};
use std::sync::Wait;

impl CountingWorker {
    /// Stores the value under the key as [`Worker::set`] does, and counts whether it did. (memcached's `set`)
    pub fn set<R: Wait>(
        &mut self,
        rt: &R,
        cache: &Cache,
        key: &[u8],
        value: &[u8],
    ) -> Result<(), SetError>
        requires { BelongsTo cache.now (worker_in self.old) }
        ensures belongs { BelongsTo cache.now (worker_in self.new) }
        ensures key { (result ≡ Err set_error.KeyLength) ↔ ¬ IsKey key.now }
        ensures too_large { (result ≡ Err (set_error.Item item_error.TooLarge)) ↔ IsKey key.now
            × LacksClassIn cache.now (length key.now) (length value.now) }
        ensures same { ¬ IsKey key.now → KeepsHands (worker_in self.old) (worker_in self.new) }
        ensures stores { OnOk result (ActsOnKey cache.now key.now
            (StoresValue (hash_in cache.now key.now) key.now value.now) (worker_in self.old) (worker_in self.new)) }
        ensures refused { (error : items.SetError) → result ≡ Err (set_error.Item error) →
            RefusesAndDeletes cache.now key.now value.now error (worker_in self.old) (worker_in self.new) }
        ensures counts { counts_in_worker self.new ≡
            counts_after_set result (counts_in_worker self.old) }
    {
        let stored = self.worker.set(rt, cache, key, value);
        self.counts.count_set(&stored);
        stored
    }

    /// The same as [`Worker::set_or_keep`], counted as a set. (own)
    pub fn set_or_keep<R: Wait>(
        &mut self,
        rt: &R,
        cache: &Cache,
        key: &[u8],
        value: &[u8],
    ) -> Result<(), SetError>
        requires { BelongsTo cache.now (worker_in self.old) }
        ensures belongs { BelongsTo cache.now (worker_in self.new) }
        ensures key { (result ≡ Err set_error.KeyLength) ↔ ¬ IsKey key.now }
        ensures too_large { (result ≡ Err (set_error.Item item_error.TooLarge)) ↔ IsKey key.now
            × LacksClassIn cache.now (length key.now) (length value.now) }
        ensures same { ¬ IsKey key.now → KeepsHands (worker_in self.old) (worker_in self.new) }
        ensures stores { OnOk result (ActsOnKey cache.now key.now
            (StoresValue (hash_in cache.now key.now) key.now value.now) (worker_in self.old) (worker_in self.new)) }
        ensures refused { (error : items.SetError) → result ≡ Err (set_error.Item error) →
            RefusesValueOf cache.now key.now value.now error (worker_in self.old) (worker_in self.new) }
        ensures counts { counts_in_worker self.new ≡
            counts_after_set result (counts_in_worker self.old) }
    {
        let stored = self.worker.set_or_keep(rt, cache, key, value);
        self.counts.count_set(&stored);
        stored
    }

    /// Stores the value under the key as [`Worker::set_if`] does, where the key's value meets the condition, and counts whether it did.
    /// (memcached's `add`, `replace` and `cas`, by the condition)
    pub fn set_if<R: Wait>(
        &mut self,
        rt: &R,
        cache: &Cache,
        key: &[u8],
        value: &[u8],
        when: When,
    ) -> Result<Outcome, SetError>
        requires { BelongsTo cache.now (worker_in self.old) }
        ensures belongs { BelongsTo cache.now (worker_in self.new) }
        ensures key { (result ≡ Err set_error.KeyLength) ↔ ¬ IsKey key.now }
        ensures too_large { result ≡ Err (set_error.Item item_error.TooLarge) →
            LacksClassIn cache.now (length key.now) (length value.now) }
        ensures same { ¬ IsKey key.now → KeepsHands (worker_in self.old) (worker_in self.new) }
        ensures acts { IsKey key.now →
            ActsOnKey cache.now key.now (SetsValueIf (hash_in cache.now key.now) key.now value.now
            when result) (worker_in self.old) (worker_in self.new) }
        ensures counts { counts_in_worker self.new ≡
            counts_after_set_if result (counts_in_worker self.old) }
    {
        let outcome = self.worker.set_if(rt, cache, key, value, when);
        self.counts.count_set_if(&outcome);
        outcome
    }

    /// Deletes the key as [`Worker::delete`] does, and counts whether it had a value. (memcached's `delete`)
    pub fn delete<R: Wait>(&mut self, rt: &R, cache: &Cache, key: &[u8]) -> Result<bool, CallError>
        requires { BelongsTo cache.now (worker_in self.old) }
        ensures belongs { BelongsTo cache.now (worker_in self.new) }
        ensures key { (result ≡ Err call_error.KeyLength) ↔ ¬ IsKey key.now }
        ensures same { result ≡ Err call_error.KeyLength → KeepsHands (worker_in self.old) (worker_in self.new) }
        ensures deletes { result ≡ Ok true →
            ActsOnKey cache.now key.now (DeletesThere (hash_in cache.now key.now) key.now true)
            (worker_in self.old) (worker_in self.new) }
        ensures none { result ≡ Ok false → DeletesNoneOf cache.now key.now (worker_in self.old) (worker_in self.new) }
        ensures refused { OnErr result (IsKey key.now →
            ActsOnKey cache.now key.now (LooksInVain (hash_in cache.now key.now)) (worker_in self.old)
            (worker_in self.new)) }
        ensures calls { IsKey key.now →
            ActsOnKey cache.now key.now (DeletesAtMost (hash_in cache.now key.now)) (worker_in self.old)
            (worker_in self.new) }
        ensures untouched { IsKey key.now →
            ActsOnKey cache.now key.now TouchesNothing (worker_in self.old) (worker_in self.new) }
        ensures counts { counts_in_worker self.new ≡
            counts_after_delete result (counts_in_worker self.old) }
    {
        let deleted = self.worker.delete(rt, cache, key);
        self.counts.count_delete(&deleted);
        deleted
    }

    /// Makes the key's item the one of its class that is evicted last, as [`Worker::touch`] does, and counts whether the key had a value.
    /// (memcached's `touch`)
    pub fn touch<R: Wait>(&mut self, rt: &R, cache: &Cache, key: &[u8]) -> Result<bool, CallError>
        requires { BelongsTo cache.now (worker_in self.old) }
        ensures belongs { BelongsTo cache.now (worker_in self.new) }
        ensures key { (result ≡ Err call_error.KeyLength) ↔ ¬ IsKey key.now }
        ensures same { result ≡ Err call_error.KeyLength → KeepsHands (worker_in self.old) (worker_in self.new) }
        ensures touches { result ≡ Ok true →
            ActsOnKey cache.now key.now (TouchesThere (hash_in cache.now key.now) key.now) (worker_in self.old)
            (worker_in self.new) }
        ensures none { result ≡ Ok false →
            ActsOnKey cache.now key.now (ReadsOther (hash_in cache.now key.now) key.now) (worker_in self.old)
            (worker_in self.new) }
        ensures refused { OnErr result (IsKey key.now →
            ActsOnKey cache.now key.now (LooksInVain (hash_in cache.now key.now)) (worker_in self.old)
            (worker_in self.new)) }
        ensures once { result ≡ Ok true →
            ActsOnKey cache.now key.now TouchesOnce (worker_in self.old) (worker_in self.new) }
        ensures untouched { (result ≡ Ok true → ⊥) → IsKey key.now →
            ActsOnKey cache.now key.now TouchesNothing (worker_in self.old) (worker_in self.new) }
        ensures calls { IsKey key.now →
            ActsOnKey cache.now key.now (GetsAtMost (hash_in cache.now key.now)) (worker_in self.old) (worker_in self.new) }
        ensures counts { counts_in_worker self.new ≡
            counts_after_touch result (counts_in_worker self.old) }
    {
        let found = self.worker.touch(rt, cache, key);
        self.counts.count_touch(&found);
        found
    }
}
