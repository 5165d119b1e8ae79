//! The counting worker's calls that look at a key.
ghost use Rattle.std.specs.Prelude.{◌≡◌, ◌↔◌, Err, IfOk, IfSome, None, Ok, OnErr, false, true};
ghost use Rattle.mc_cache.specs.Belonging.{ActsOnKey, BelongsTo, GivesValueOf, KeepsHands, hash_in};
ghost use Rattle.mc_cache.specs.Shards.{FindsKeyInShard, GetsAtMost, IsKey, LooksInVain, ReadsOther, StoresNoMore, TouchesNothing};
ghost use Rattle.mc_cache.specs.Versions.{GivesVersionOf};
ghost use Rattle.mc_cache.specs.declared.working.CallError.TheVariants as call_error;
ghost use Rattle.mc_stats.specs.Counting.{counts_in_worker, worker_in};
ghost use Rattle.mc_stats.specs.Counts.{counts_after_get, counts_after_versioned_get};

use crate::worker::CountingWorker;
use mc_cache::{Cache, CallError};
use mc_stripe::Stamp;
use std::sync::Wait;

impl CountingWorker {
    /// Puts the key's value behind the bytes that are there, as [`Worker::get`] does, and counts whether the key had one. (memcached's `get`)
    pub fn get<R: Wait>(
        &mut self,
        rt: &R,
        cache: &Cache,
        key: &[u8],
        into: &mut Vec<u8>,
    ) -> Result<bool, CallError>
        requires { BelongsTo cache.now (worker_in self.old) }
        ensures belongs { BelongsTo cache.now (worker_in self.new) }
        ensures key { (result ≡ Err call_error.KeyLength) ↔ ¬ IsKey key.now }
        ensures same { result ≡ Err call_error.KeyLength → KeepsHands (worker_in self.old) (worker_in self.new) }
        ensures value { result ≡ Ok true →
            GivesValueOf cache.now key.now into.old.items into.new.items (worker_in self.old) (worker_in self.new) }
        ensures none { result ≡ Ok false →
            ActsOnKey cache.now key.now (ReadsOther (hash_in cache.now key.now) key.now) (worker_in self.old)
            (worker_in self.new) }
        ensures kept { (result ≡ Ok true → ⊥) → into.new.items ≡ into.old.items }
        ensures refused { OnErr result (IsKey key.now →
            ActsOnKey cache.now key.now StoresNoMore (worker_in self.old) (worker_in self.new)) }
        ensures untouched { IsKey key.now →
            ActsOnKey cache.now key.now TouchesNothing (worker_in self.old) (worker_in self.new) }
        ensures calls { IsKey key.now →
            ActsOnKey cache.now key.now (GetsAtMost (hash_in cache.now key.now)) (worker_in self.old) (worker_in self.new) }
        ensures counts { counts_in_worker self.new ≡
            counts_after_get result (counts_in_worker self.old) }
    {
        let found = self.worker.get(rt, cache, key, into);
        self.counts.count_get(&found);
        found
    }

    /// The same as [`Worker::peek`], counted as a get. (own)
    pub fn peek<R: Wait>(
        &mut self,
        rt: &R,
        cache: &Cache,
        key: &[u8],
        into: &mut Vec<u8>,
    ) -> Result<bool, CallError>
        requires { BelongsTo cache.now (worker_in self.old) }
        ensures belongs { BelongsTo cache.now (worker_in self.new) }
        ensures key { (result ≡ Err call_error.KeyLength) ↔ ¬ IsKey key.now }
        ensures same { result ≡ Err call_error.KeyLength → KeepsHands (worker_in self.old) (worker_in self.new) }
        ensures value { result ≡ Ok true →
            GivesValueOf cache.now key.now into.old.items into.new.items (worker_in self.old) (worker_in self.new) }
        ensures none { result ≡ Ok false →
            ActsOnKey cache.now key.now (ReadsOther (hash_in cache.now key.now) key.now) (worker_in self.old)
            (worker_in self.new) }
        ensures kept { (result ≡ Ok true → ⊥) → into.new.items ≡ into.old.items }
        ensures refused { OnErr result (IsKey key.now →
            ActsOnKey cache.now key.now StoresNoMore (worker_in self.old) (worker_in self.new)) }
        ensures untouched { IsKey key.now →
            ActsOnKey cache.now key.now TouchesNothing (worker_in self.old) (worker_in self.new) }
        ensures calls { IsKey key.now →
            ActsOnKey cache.now key.now (GetsAtMost (hash_in cache.now key.now)) (worker_in self.old) (worker_in self.new) }
        ensures counts { counts_in_worker self.new ≡
            counts_after_get result (counts_in_worker self.old) }
    {
        let found = self.worker.peek(rt, cache, key, into);
        self.counts.count_get(&found);
        found
    }

    /// Whether the key has a value, as [`Worker::contains`] returns it, counted as a get. (own)
    pub fn contains<R: Wait>(
        &mut self,
        rt: &R,
        cache: &Cache,
        key: &[u8],
    ) -> Result<bool, CallError>
        requires { BelongsTo cache.now (worker_in self.old) }
        ensures belongs { BelongsTo cache.now (worker_in self.new) }
        ensures key { (result ≡ Err call_error.KeyLength) ↔ ¬ IsKey key.now }
        ensures same { result ≡ Err call_error.KeyLength → KeepsHands (worker_in self.old) (worker_in self.new) }
        ensures there { result ≡ Ok true →
            ActsOnKey cache.now key.now (FindsKeyInShard (hash_in cache.now key.now) key.now)
            (worker_in self.old) (worker_in self.new) }
        ensures none { result ≡ Ok false →
            ActsOnKey cache.now key.now (ReadsOther (hash_in cache.now key.now) key.now) (worker_in self.old)
            (worker_in self.new) }
        ensures refused { OnErr result (IsKey key.now →
            ActsOnKey cache.now key.now (LooksInVain (hash_in cache.now key.now)) (worker_in self.old)
            (worker_in self.new)) }
        ensures untouched { IsKey key.now →
            ActsOnKey cache.now key.now TouchesNothing (worker_in self.old) (worker_in self.new) }
        ensures calls { IsKey key.now →
            ActsOnKey cache.now key.now (GetsAtMost (hash_in cache.now key.now)) (worker_in self.old) (worker_in self.new) }
        ensures counts { counts_in_worker self.new ≡
            counts_after_get result (counts_in_worker self.old) }
    {
        let found = self.worker.contains(rt, cache, key);
        self.counts.count_get(&found);
        found
    }

    /// The same as [`Worker::get_with_version`], counted as a get. (memcached's `gets`)
    pub fn get_with_version<R: Wait>(
        &mut self,
        rt: &R,
        cache: &Cache,
        key: &[u8],
        into: &mut Vec<u8>,
    ) -> Result<Option<Stamp>, CallError>
        requires { BelongsTo cache.now (worker_in self.old) }
        ensures belongs { BelongsTo cache.now (worker_in self.new) }
        ensures key { (result ≡ Err call_error.KeyLength) ↔ ¬ IsKey key.now }
        ensures same { result ≡ Err call_error.KeyLength → KeepsHands (worker_in self.old) (worker_in self.new) }
        ensures value { IfOk result (λ found. IfSome found (λ version.
            GivesVersionOf cache.now key.now version into.old.items into.new.items (worker_in self.old)
            (worker_in self.new))) }
        ensures none { result ≡ Ok None →
            ActsOnKey cache.now key.now (ReadsOther (hash_in cache.now key.now) key.now) (worker_in self.old)
            (worker_in self.new) }
        ensures kept { result ≡ Ok None → into.new.items ≡ into.old.items }
        ensures refused_kept { OnErr result (into.new.items ≡ into.old.items) }
        ensures refused { OnErr result (IsKey key.now →
            ActsOnKey cache.now key.now StoresNoMore (worker_in self.old) (worker_in self.new)) }
        ensures untouched { IsKey key.now →
            ActsOnKey cache.now key.now TouchesNothing (worker_in self.old) (worker_in self.new) }
        ensures calls { IsKey key.now →
            ActsOnKey cache.now key.now (GetsAtMost (hash_in cache.now key.now)) (worker_in self.old) (worker_in self.new) }
        ensures counts { counts_in_worker self.new ≡
            counts_after_versioned_get result (counts_in_worker self.old) }
    {
        let found = self.worker.get_with_version(rt, cache, key, into);
        self.counts.count_versioned_get(&found);
        found
    }
}
