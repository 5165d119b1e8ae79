//! The gets of a worker that return the version of the value, by which a later set can tell whether it changed.
use crate::cache::{Cache, Worker};
use crate::resting::recall;
use crate::working::{CallError, TryGetError};
use mc_shard::Label;
use mc_stripe::Stamp;
use std::sync::Wait;

impl Worker {
    ghost use Rattle.std.specs.Prelude.{◌≡◌, ◌↔◌, Err, IfOk, IfSome, None, Ok, OnErr};
    ghost use Rattle.mc_cache.specs.Belonging.{ActsOnKey, BelongsTo, KeepsHands, hash_in};
    ghost use Rattle.mc_cache.specs.Resting.{ActsAgain, RestsIn};
    ghost use Rattle.mc_cache.specs.Shards.{GetsAtMost, IsKey, ReadsOther, StoresNoMore, TouchesNothing};
    ghost use Rattle.mc_cache.specs.Versions.{GivesVersionOf, GetsVersionWithin};
    ghost use Rattle.mc_cache.specs.declared.working.CallError.TheVariants as call_error;
    ghost use Rattle.mc_cache.specs.declared.working.TryGetError.TheVariants as try_error;

    /// The same as [`Worker::get`], and it returns the version of the value, where the key has one. A value that is stored later has
    /// another version. (memcached's `gets`)
    pub fn get_with_version<R: Wait>(
        &mut self,
        rt: &R,
        cache: &Cache,
        key: &[u8],
        into: &mut Vec<u8>,
    ) -> Result<Option<Stamp>, CallError>
        requires { BelongsTo cache.now self.old }
        ensures belongs { BelongsTo cache.now self.new }
        ensures key { (result ≡ Err call_error.KeyLength) ↔ ¬ IsKey key.now }
        ensures same { result ≡ Err call_error.KeyLength → KeepsHands self.old self.new }
        ensures value { IfOk result (λ found. IfSome found (λ version.
            GivesVersionOf cache.now key.now version into.old.items into.new.items self.old
            self.new)) }
        ensures none { result ≡ Ok None →
            ActsOnKey cache.now key.now (ReadsOther (hash_in cache.now key.now) key.now) self.old
            self.new }
        ensures kept { result ≡ Ok None → into.new.items ≡ into.old.items }
        ensures refused_kept { OnErr result (into.new.items ≡ into.old.items) }
        ensures refused { OnErr result (IsKey key.now →
            ActsOnKey cache.now key.now StoresNoMore self.old self.new) }
        ensures untouched { IsKey key.now →
            ActsOnKey cache.now key.now TouchesNothing self.old self.new }
        ensures calls { IsKey key.now →
            ActsOnKey cache.now key.now (GetsAtMost (hash_in cache.now key.now)) self.old self.new }
    {
        let Some(at) = cache.place_of(key) else {
            return Err(CallError::KeyLength);
        };
        let arena = &cache.arenas[at.shard];
        let hand = &mut self.hands[at.shard];
        let label = Label { hash: at.hash, key };
        match mc_shard::get_with_version(rt, arena, &cache.hints, hand, label, into) {
            Ok(found) => Ok(found),
            Err(refused) => Err(CallError::NoMemory(refused)),
        }
    }

    /// The same as [`Worker::get_with_version`], but the worker tries for the lock of the key's stripe `tries` times at most, and doesn't
    /// wait. (own)
    pub fn get_with_version_within(
        &mut self,
        cache: &Cache,
        key: &[u8],
        tries: u64,
        into: &mut Vec<u8>,
    ) -> Result<Option<Stamp>, TryGetError>
        requires { RestsIn cache.now self.old }
        ensures rests { RestsIn cache.now self.new }
        ensures key { (result ≡ Err try_error.KeyLength) ↔ ¬ IsKey key.now }
        ensures same { result ≡ Err try_error.KeyLength → KeepsHands self.old self.new }
        ensures acts { IsKey key.now → ActsAgain cache.now key.now (λ hash.
            GetsVersionWithin tries hash key.now into.old.items into.new.items result) self.old
            self.new }
        ensures kept { result ≡ Ok None → into.new.items ≡ into.old.items }
        ensures refused_kept { OnErr result (into.new.items ≡ into.old.items) }
    {
        let Some(at) = cache.place_of(key) else {
            return Err(TryGetError::KeyLength);
        };
        let arena = &cache.arenas[at.shard];
        let hand = &mut self.hands[at.shard];
        recall(arena, hand);
        let label = Label { hash: at.hash, key };
        match mc_shard::get_with_version_within(arena, &cache.hints, hand, label, tries, into) {
            Ok(found) => Ok(found),
            Err(mc_shard::TryGetError::NoMemory(refused)) => { Err(TryGetError::NoMemory(refused)) }
            Err(mc_shard::TryGetError::Held) => Err(TryGetError::Held),
        }
    }
}
