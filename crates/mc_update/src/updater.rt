//! Changes of values that look at the old one, by gets and sets on a condition.
ghost use Rattle.std.specs.Prelude.{◌≡◌, ◌↔◌, [], Err, IfSome, None};
ghost use Rattle.mc_cache.specs.Belonging.{BelongsTo, KeepsHands};
ghost use Rattle.mc_cache.specs.Shards.{IsKey};
ghost use Rattle.mc_update.specs.Updates.{ChangesValue, EndsWith, SetsInVain, stored_by, stored_version};
ghost use Rattle.mc_update.specs.declared.updater.ChangeError.TheVariants as change_error;

use crate::change::Change;
use mc_cache::{Cache, CallError, Outcome, SetError, When, Worker};
use mc_memory::Refused;
use mc_stripe::Stamp;
use std::alloc::Global;
use std::sync::Wait;
use thiserror::Error;

/// Why a change was refused. The key has what it had, unless its item was among those that a refused store evicted.
#[derive(Debug, PartialEq, Eq, Drop, Error)]
pub enum ChangeError {
    /// The key has no byte, or more than 250. Nothing was done.
    #[error("a key must have from 1 to 250 bytes; nothing was done")]
    KeyLength,
    /// The value that is to be counted isn't a number.
    #[error("the value isn't a number of 1 to 20 digits below 2^64; the key has what it had")]
    NotNumber,
    /// Memory was refused.
    #[error("out of memory; the key has what it had")]
    NoMemory(Refused),
    /// The item isn't stored.
    #[error("the changed value isn't stored: {0}")]
    Item(mc_items::SetError),
}

/// Room for a value and for what it becomes, which is used again by each change.
#[derive(Drop)]
pub struct Updater {
    pub(crate) old_value: Vec<u8>,
    pub(crate) new_value: Vec<u8>,
}

impl Updater {
    /// An updater without room, which takes no memory.
    pub fn new(alloc: Global) -> Updater
        ensures { stored_by result ≡ [] }
    {
        Updater {
            old_value: Vec::new(alloc),
            new_value: Vec::new(alloc),
        }
    }

    /// The bytes that the last call stored, got or made, where it returned that it did.
    pub fn value(&self) -> &[u8]
        ensures { result.now ≡ stored_by self.now }
    {
        &self.new_value
    }

    /// Changes the key's value, and returns the version of the new one, or none where the key has no value. The new value takes the place of
    /// the very value that it was made of: where another worker changes the key meanwhile, the call begins anew. It waits for
    /// locks of the key's shard. (own, for memcached's `incr`, `decr`, `append` and `prepend`)
    pub fn change_value<R: Wait>(
        &mut self,
        rt: &R,
        cache: &Cache,
        worker: &mut Worker,
        key: &[u8],
        change: Change,
    ) -> Result<Option<Stamp>, ChangeError>
        requires { BelongsTo cache.now worker.old }
        ensures belongs { BelongsTo cache.now worker.new }
        ensures key { (result ≡ Err change_error.KeyLength) ↔ ¬ IsKey key.now }
        ensures same { ¬ IsKey key.now → KeepsHands worker.old worker.new }
        ensures changes { IsKey key.now → ChangesValue cache.now key.now change.entry
            (stored_by self.new) result worker.old worker.new }
    {
        for _ in rt.forever() {
            if let Some(result) = self.change_once(rt, cache, worker, key, change) {
                return result;
            }
        }
        unreachable!()
    }

    // One get and one set of what the value becomes. None where another worker changed the key meanwhile.
    fn change_once<R: Wait>(
        &mut self,
        rt: &R,
        cache: &Cache,
        worker: &mut Worker,
        key: &[u8],
        change: Change,
    ) -> Option<Result<Option<Stamp>, ChangeError>>
        requires { BelongsTo cache.now worker.old }
        ensures belongs { BelongsTo cache.now worker.new }
        ensures key { IfSome result (λ ended. (ended ≡ Err change_error.KeyLength) ↔ ¬ IsKey key.now) }
        ensures same { ¬ IsKey key.now → KeepsHands worker.old worker.new }
        ensures ends { IfSome result (λ ended. IsKey key.now → EndsWith cache.now key.now
            change.entry (stored_by self.new) ended worker.old worker.new) }
        ensures again { result ≡ None → IsKey key.now
            × SetsInVain cache.now key.now change.entry worker.old worker.new }
    {
        self.old_value.clear();
        let version = match worker.get_with_version(rt, cache, key, &mut self.old_value) {
            Ok(Some(version)) => version,
            Ok(None) => return Some(Ok(None)),
            Err(CallError::KeyLength) => return Some(Err(ChangeError::KeyLength)),
            Err(CallError::NoMemory(refused)) => return Some(Err(ChangeError::NoMemory(refused))),
        };
        match change.put(&self.old_value, &mut self.new_value) {
            Ok(true) => {}
            Ok(false) => return Some(Err(ChangeError::NotNumber)),
            Err(refused) => return Some(Err(ChangeError::NoMemory(refused))),
        }
        let when = When::Version(version);
        let outcome = match worker.set_if(rt, cache, key, &self.new_value, when) {
            Ok(outcome) => outcome,
            Err(SetError::KeyLength) => return Some(Err(ChangeError::KeyLength)),
            Err(SetError::Item(error)) => return Some(Err(ChangeError::Item(error))),
        };
        match stored_version(outcome) {
            Some(stamp) => Some(Ok(Some(stamp))),
            None => None,
        }
    }
}

/// The version of what a set on a condition stored, if it did.
pub(crate) fn stored_version(outcome: Outcome) -> Option<Stamp>
    ensures { result ≡ stored_version outcome }
{
    match outcome {
        Outcome::Stored(stamp) => Some(stamp),
        Outcome::Exists | Outcome::Missing => None,
    }
}
