//! The calls of a worker that try for each lock n times, and don't wait. A worker may lie in a struct between them. A caller that can't wait uses
//! these calls: a static library can't. (own)
ghost use Rattle.std.specs.Prelude.{◌≡◌, ◌↔◌, Err, Ok, length, true};
ghost use Rattle.mc_items.specs.declared.setting.SetError.TheVariants as item_error;
ghost use Rattle.mc_cache.specs.Belonging.{KeepsHands};
ghost use Rattle.mc_cache.specs.Resting.{ActsAgain, RestsIn};
ghost use Rattle.mc_cache.specs.Shards.{IsKey};
ghost use Rattle.mc_cache.specs.Sizes.{LacksClassIn};
ghost use Rattle.mc_cache.specs.WorkingWithin.{DeletesWithin, GetsWithin, SetsOrDeletesWithin, SetsWithin, TouchesWithin, refusal_behind};
ghost use Rattle.mc_cache.specs.declared.working.TryGetError.TheVariants as try_error;
ghost use Rattle.mc_cache.specs.declared.working_within.SetWithinError.TheVariants as set_error;
ghost use Rattle.mc_cache.specs.declared.working_within.WithinError.TheVariants as within_error;

use crate::cache::{Cache, Worker};
use crate::resting::recall;
use crate::working::TryGetError;
use mc_memory::Refused;
use mc_shard::Label;
use thiserror::Error;

/// Why a delete or a touch that doesn't wait was refused. The key has what it had.
#[derive(Debug, PartialEq, Eq, Drop, Error)]
pub enum WithinError {
    /// The key has no byte, or more than 250. Nothing was done.
    #[error("a key must have from 1 to 250 bytes; nothing was done")]
    KeyLength,
    /// Memory was refused.
    #[error("out of memory; the key has what it had")]
    NoMemory(Refused),
    /// Other workers had a lock of the key's shard at each try.
    #[error("other workers had a lock of the key's shard at each try; the key has what it had")]
    Held,
}

/// Why a set that doesn't wait was refused.
#[derive(Debug, PartialEq, Eq, Drop, Error)]
pub enum SetWithinError {
    /// The key has no byte, or more than 250. Nothing was done.
    #[error("a key must have from 1 to 250 bytes; nothing was done")]
    KeyLength,
    /// The item isn't stored. Where it is too large, [`Cache::max_value`] returns the most bytes that a value may have.
    #[error("the value isn't stored: {0}")]
    Item(mc_items::SetError),
    /// Other workers had a lock of the key's shard at each try. The key has what it had, unless its item was among those that were evicted.
    #[error("other workers had a lock of the key's shard at each try; the value isn't stored")]
    Held,
}

// What a set returns that was refused, and whose delete returned this.
fn refusal_behind(
    deleted: Result<bool, WithinError>,
    error: mc_items::SetError,
) -> Result<(), SetWithinError>
    ensures { result ≡ refusal_behind deleted error }
{
    match deleted {
        Err(WithinError::Held) => Err(SetWithinError::Held),
        Ok(_) | Err(WithinError::KeyLength) | Err(WithinError::NoMemory(_)) => {
            Err(SetWithinError::Item(error))
        }
    }
}

impl Worker {
    /// The same as `set`, but the worker tries for each lock `tries` times at most, and doesn't wait. `Held` also where the store was refused
    /// and then each try of the delete missed: the key has what it had then. (own)
    pub fn set_within(
        &mut self,
        cache: &Cache,
        key: &[u8],
        value: &[u8],
        tries: u64,
    ) -> Result<(), SetWithinError>
        requires { RestsIn cache.now self.old }
        ensures rests { RestsIn cache.now self.new }
        ensures key { (result ≡ Err set_error.KeyLength) ↔ ¬ IsKey key.now }
        ensures too_large { result ≡ Err (set_error.Item item_error.TooLarge) →
            LacksClassIn cache.now (length key.now) (length value.now) }
        ensures same { ¬ IsKey key.now → KeepsHands self.old self.new }
        ensures acts { IsKey key.now →
            SetsOrDeletesWithin cache.now tries key.now value.now result self.old self.new }
    {
        match self.set_or_keep_within(cache, key, value, tries) {
            Ok(()) => Ok(()),
            Err(SetWithinError::KeyLength) => Err(SetWithinError::KeyLength),
            Err(SetWithinError::Held) => Err(SetWithinError::Held),
            Err(SetWithinError::Item(error)) => {
                let deleted = self.delete_within(cache, key, tries);
                refusal_behind(deleted, error)
            }
        }
    }

    /// The same as `set_or_keep`, but the worker tries for each lock `tries` times at most, and doesn't wait. (own)
    pub fn set_or_keep_within(
        &mut self,
        cache: &Cache,
        key: &[u8],
        value: &[u8],
        tries: u64,
    ) -> Result<(), SetWithinError>
        requires { RestsIn cache.now self.old }
        ensures rests { RestsIn cache.now self.new }
        ensures key { (result ≡ Err set_error.KeyLength) ↔ ¬ IsKey key.now }
        ensures too_large { (result ≡ Err (set_error.Item item_error.TooLarge)) ↔ IsKey key.now
            × LacksClassIn cache.now (length key.now) (length value.now) }
        ensures same { ¬ IsKey key.now → KeepsHands self.old self.new }
        ensures acts { IsKey key.now → ActsAgain
            cache.now key.now (λ hash. SetsWithin tries hash key.now value.now result) self.old
            self.new }
    {
        let Some(at) = cache.place_of(key) else {
            return Err(SetWithinError::KeyLength);
        };
        let arena = &cache.arenas[at.shard];
        let hand = &mut self.hands[at.shard];
        recall(arena, hand);
        let label = Label { hash: at.hash, key };
        match mc_shard::set_within(
            arena,
            &cache.hints,
            hand,
            label,
            value,
            &mut self.words,
            tries,
        ) {
            Ok(_stamp) => Ok(()),
            Err(mc_items::SetWithinError::Refused(error)) => Err(SetWithinError::Item(error)),
            Err(mc_items::SetWithinError::Held) => Err(SetWithinError::Held),
        }
    }

    /// The same as `get`, but the worker tries for the lock of the key's stripe `tries` times at most, and doesn't wait. `Held` where no hint
    /// leads to the item and each try missed. (own)
    pub fn get_within(
        &mut self,
        cache: &Cache,
        key: &[u8],
        tries: u64,
        into: &mut Vec<u8>,
    ) -> Result<bool, TryGetError>
        requires { RestsIn cache.now self.old }
        ensures rests { RestsIn cache.now self.new }
        ensures key { (result ≡ Err try_error.KeyLength) ↔ ¬ IsKey key.now }
        ensures same { result ≡ Err try_error.KeyLength → KeepsHands self.old self.new }
        ensures acts { IsKey key.now → ActsAgain cache.now key.now (λ hash.
            GetsWithin tries hash key.now into.old.items into.new.items result) self.old self.new }
        ensures kept { (result ≡ Ok true → ⊥) → into.new.items ≡ into.old.items }
    {
        let Some(at) = cache.place_of(key) else {
            return Err(TryGetError::KeyLength);
        };
        let arena = &cache.arenas[at.shard];
        let hand = &mut self.hands[at.shard];
        recall(arena, hand);
        let label = Label { hash: at.hash, key };
        match mc_shard::get_within(arena, &cache.hints, hand, label, tries, into) {
            Ok(found) => Ok(found),
            Err(mc_shard::TryGetError::NoMemory(refused)) => { Err(TryGetError::NoMemory(refused)) }
            Err(mc_shard::TryGetError::Held) => Err(TryGetError::Held),
        }
    }

    /// The same as `delete`, but the worker tries for the lock of the key's stripe `tries` times at most at the look, and as often at the
    /// delete. It doesn't wait. (own)
    pub fn delete_within(
        &mut self,
        cache: &Cache,
        key: &[u8],
        tries: u64,
    ) -> Result<bool, WithinError>
        requires { RestsIn cache.now self.old }
        ensures rests { RestsIn cache.now self.new }
        ensures key { (result ≡ Err within_error.KeyLength) ↔ ¬ IsKey key.now }
        ensures same { result ≡ Err within_error.KeyLength → KeepsHands self.old self.new }
        ensures acts { IsKey key.now → ActsAgain cache.now key.now (λ hash.
            DeletesWithin tries hash key.now result) self.old self.new }
    {
        let Some(at) = cache.place_of(key) else {
            return Err(WithinError::KeyLength);
        };
        let arena = &cache.arenas[at.shard];
        let hand = &mut self.hands[at.shard];
        recall(arena, hand);
        let label = Label { hash: at.hash, key };
        match mc_shard::delete_within(arena, &cache.hints, hand, label, tries) {
            Ok(there) => Ok(there),
            Err(mc_items::WithinError::NoMemory(refused)) => { Err(WithinError::NoMemory(refused)) }
            Err(mc_items::WithinError::Held) => Err(WithinError::Held),
        }
    }

    /// The same as `touch`, but the worker tries for the lock of the key's stripe `tries` times at most, and as often for that of the slabs. It
    /// doesn't wait. `Held` where each try for one of them missed: the item isn't moved then. (own)
    pub fn touch_within(
        &mut self,
        cache: &Cache,
        key: &[u8],
        tries: u64,
    ) -> Result<bool, WithinError>
        requires { RestsIn cache.now self.old }
        ensures rests { RestsIn cache.now self.new }
        ensures key { (result ≡ Err within_error.KeyLength) ↔ ¬ IsKey key.now }
        ensures same { result ≡ Err within_error.KeyLength → KeepsHands self.old self.new }
        ensures acts { IsKey key.now → ActsAgain cache.now key.now (λ hash.
            TouchesWithin tries hash key.now result) self.old self.new }
    {
        let Some(at) = cache.place_of(key) else {
            return Err(WithinError::KeyLength);
        };
        let arena = &cache.arenas[at.shard];
        let hand = &mut self.hands[at.shard];
        recall(arena, hand);
        let label = Label { hash: at.hash, key };
        match mc_shard::touch_within(arena, &cache.hints, hand, label, tries) {
            Ok(there) => Ok(there),
            Err(mc_items::WithinError::NoMemory(refused)) => { Err(WithinError::NoMemory(refused)) }
            Err(mc_items::WithinError::Held) => Err(WithinError::Held),
        }
    }
}
