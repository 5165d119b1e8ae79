//! The calls of a worker that delete a key's value only where it has a given version.
use crate::cache::{Cache, Worker};
use crate::resting::recall;
use crate::working::CallError;
use crate::working_within::WithinError;
use mc_shard::{Deletion, Label};
use mc_stripe::Stamp;
use std::sync::Wait;

impl Worker {
    ghost use Rattle.std.specs.Prelude.{◌≡◌, ◌↔◌, Err, Ok, OnErr};
    ghost use Rattle.mc_cache.specs.Belonging.{ActsOnKey, BelongsTo, KeepsHands, hash_in};
    ghost use Rattle.mc_cache.specs.Deleting.{DeletesOnce, DeletesVersionThere, DeletesVersionWithin, KeepsOtherVersion, LacksVersion};
    ghost use Rattle.mc_cache.specs.Resting.{ActsAgain, RestsIn};
    ghost use Rattle.mc_cache.specs.Shards.{GetsAtMost, IsKey, LooksInVain, TouchesNothing};
    ghost use Rattle.mc_cache.specs.declared.working.CallError.TheVariants as call_error;
    ghost use Rattle.mc_cache.specs.declared.working_within.WithinError.TheVariants as within_error;
    ghost use Rattle.mc_shard.specs.declared.deleting_version.Deletion.TheVariants as deletion;

    /// Deletes the key's value, where it has this version, as [`Worker::get_with_version`] returned it. So a value that was stored later
    /// stays, and a caller deletes the very value that it got. It returns `Exists` where the key's value has another version, and
    /// `Missing` where the key has none. An item of another key with the same hash is never deleted. It waits for a lock of the key's
    /// shard. (memcached's `md` with the `C` flag)
    pub fn delete_version<R: Wait>(
        &mut self,
        rt: &R,
        cache: &Cache,
        key: &[u8],
        version: Stamp,
    ) -> Result<Deletion, CallError>
        requires { BelongsTo cache.now self.old }
        ensures belongs { BelongsTo cache.now self.new }
        ensures key { (result ≡ Err call_error.KeyLength) ↔ ¬ IsKey key.now }
        ensures same { result ≡ Err call_error.KeyLength → KeepsHands self.old self.new }
        ensures deletes { result ≡ Ok deletion.Deleted → ActsOnKey cache.now key.now
            (DeletesVersionThere (hash_in cache.now key.now) key.now version) self.old self.new }
        ensures exists { result ≡ Ok deletion.Exists → ActsOnKey cache.now key.now
            (KeepsOtherVersion (hash_in cache.now key.now) key.now version) self.old self.new }
        ensures missing { result ≡ Ok deletion.Missing → ActsOnKey cache.now key.now
            (LacksVersion (hash_in cache.now key.now) key.now version) self.old self.new }
        ensures refused { OnErr result (IsKey key.now →
            ActsOnKey cache.now key.now (LooksInVain (hash_in cache.now key.now)) self.old
            self.new) }
        ensures calls { result ≡ Ok deletion.Deleted →
            ActsOnKey cache.now key.now (DeletesOnce (hash_in cache.now key.now)) self.old
            self.new }
        ensures looks { (result ≡ Ok deletion.Deleted → ⊥) → IsKey key.now →
            ActsOnKey cache.now key.now (GetsAtMost (hash_in cache.now key.now)) self.old self.new }
        ensures untouched { IsKey key.now →
            ActsOnKey cache.now key.now TouchesNothing self.old self.new }
    {
        let Some(at) = cache.place_of(key) else {
            return Err(CallError::KeyLength);
        };
        let arena = &cache.arenas[at.shard];
        let hand = &mut self.hands[at.shard];
        let label = Label { hash: at.hash, key };
        match mc_shard::delete_version(rt, arena, &cache.hints, hand, label, version) {
            Ok(deletion) => Ok(deletion),
            Err(refused) => Err(CallError::NoMemory(refused)),
        }
    }

    /// The same as [`Worker::delete_version`], but the worker tries for the lock of the key's stripe `tries` times at most at the look, and
    /// as often at the delete. It doesn't wait. (own)
    pub fn delete_version_within(
        &mut self,
        cache: &Cache,
        key: &[u8],
        version: Stamp,
        tries: u64,
    ) -> Result<Deletion, WithinError>
        requires { RestsIn cache.now self.old }
        ensures rests { RestsIn cache.now self.new }
        ensures key { (result ≡ Err within_error.KeyLength) ↔ ¬ IsKey key.now }
        ensures same { result ≡ Err within_error.KeyLength → KeepsHands self.old self.new }
        ensures acts { IsKey key.now → ActsAgain cache.now key.now (λ hash.
            DeletesVersionWithin tries hash key.now version result) self.old self.new }
    {
        let Some(at) = cache.place_of(key) else {
            return Err(WithinError::KeyLength);
        };
        let arena = &cache.arenas[at.shard];
        let hand = &mut self.hands[at.shard];
        recall(arena, hand);
        let label = Label { hash: at.hash, key };
        match mc_shard::delete_version_within(arena, &cache.hints, hand, label, version, tries) {
            Ok(deletion) => Ok(deletion),
            Err(mc_items::WithinError::NoMemory(refused)) => { Err(WithinError::NoMemory(refused)) }
            Err(mc_items::WithinError::Held) => Err(WithinError::Held),
        }
    }
}
