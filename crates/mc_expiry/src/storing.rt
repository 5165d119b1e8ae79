//! Stores that look at the deadline of what the key has, by gets and sets on a condition.
ghost use Rattle.std.specs.Prelude.{◌≡◌, ◌↔◌, Err, IfSome, None};
ghost use Rattle.mc_cache.specs.Belonging.{BelongsTo, KeepsHands};
ghost use Rattle.mc_cache.specs.Shards.{IsKey};
ghost use Rattle.mc_expiry.specs.Getting.{lapsed_count};
ghost use Rattle.mc_expiry.specs.Storing.{EndsStore, MissesStore, StoresUntil};
ghost use Rattle.mc_expiry.specs.declared.kinds.StoreKind.TheVariants.{Add, Replace, Touch};
ghost use Rattle.mc_expiry.specs.declared.storing.ExpiryError.TheVariants as expiry_error;

use crate::expiry::Expiry;
use crate::kinds::StoreKind;
use crate::looking::condition_of;
use mc_cache::{Cache, CallError, Outcome, SetError, Worker};
use mc_memory::Refused;
use mc_stripe::Stamp;
use std::sync::Wait;
use thiserror::Error;

/// Why a store was refused. The key has what it had, unless its item was among those that a refused store evicted.
#[derive(Debug, PartialEq, Eq, Drop, Error)]
pub enum ExpiryError {
    /// The key has no byte, or more than 250. Nothing was done.
    #[error("a key must have from 1 to 250 bytes; nothing was done")]
    KeyLength,
    /// Memory was refused.
    #[error("out of memory; the key has what it had")]
    NoMemory(Refused),
    /// The item isn't stored.
    #[error("the value isn't stored: {0}")]
    Item(mc_items::SetError),
}

impl Expiry {
    /// Stores the value with this deadline where the key has no unexpired value at this time, and returns its version, or none where the
    /// key has one. (memcached's `add`)
    pub fn add_until<R: Wait>(
        &mut self,
        rt: &R,
        cache: &Cache,
        worker: &mut Worker,
        key: &[u8],
        value: &[u8],
        time: u32,
        deadline: u32,
    ) -> Result<Option<Stamp>, ExpiryError>
        requires { BelongsTo cache.now worker.old }
        ensures belongs { BelongsTo cache.now worker.new }
        ensures key { (result ≡ Err expiry_error.KeyLength) ↔ ¬ IsKey key.now }
        ensures same { ¬ IsKey key.now → KeepsHands worker.old worker.new }
        ensures stores { IsKey key.now → StoresUntil cache.now key.now (Add value.entry) time
            deadline result worker.old worker.new }
        ensures count { lapsed_count self.new ≡ lapsed_count self.old }
    {
        self.store_until(
            rt,
            cache,
            worker,
            key,
            StoreKind::Add(value),
            time,
            deadline,
        )
    }

    /// Stores the value with this deadline where the key has an unexpired value at this time, in the place of that very value, and returns its
    /// version, or none where the key has no such value. (memcached's `replace`)
    pub fn replace_until<R: Wait>(
        &mut self,
        rt: &R,
        cache: &Cache,
        worker: &mut Worker,
        key: &[u8],
        value: &[u8],
        time: u32,
        deadline: u32,
    ) -> Result<Option<Stamp>, ExpiryError>
        requires { BelongsTo cache.now worker.old }
        ensures belongs { BelongsTo cache.now worker.new }
        ensures key { (result ≡ Err expiry_error.KeyLength) ↔ ¬ IsKey key.now }
        ensures same { ¬ IsKey key.now → KeepsHands worker.old worker.new }
        ensures stores { IsKey key.now → StoresUntil cache.now key.now (Replace value.entry) time
            deadline result worker.old worker.new }
        ensures count { lapsed_count self.new ≡ lapsed_count self.old }
    {
        self.store_until(
            rt,
            cache,
            worker,
            key,
            StoreKind::Replace(value),
            time,
            deadline,
        )
    }

    /// Stores the unexpired value that the key has at this time with another deadline, and returns the version that it has by then, or none
    /// where the key has no such value. (memcached's `touch`)
    pub fn touch_until<R: Wait>(
        &mut self,
        rt: &R,
        cache: &Cache,
        worker: &mut Worker,
        key: &[u8],
        time: u32,
        deadline: u32,
    ) -> Result<Option<Stamp>, ExpiryError>
        requires { BelongsTo cache.now worker.old }
        ensures belongs { BelongsTo cache.now worker.new }
        ensures key { (result ≡ Err expiry_error.KeyLength) ↔ ¬ IsKey key.now }
        ensures same { ¬ IsKey key.now → KeepsHands worker.old worker.new }
        ensures stores { IsKey key.now → StoresUntil cache.now key.now Touch time deadline result
            worker.old worker.new }
        ensures count { lapsed_count self.new ≡ lapsed_count self.old }
    {
        self.store_until(rt, cache, worker, key, StoreKind::Touch, time, deadline)
    }

    /// Does a store of this kind, and returns the version of what it stored, or none where it stored nothing. What is stored takes the place
    /// of what the look found: where another worker changes the key meanwhile, the call begins anew. It waits for locks of the key's
    /// shard. (own)
    pub fn store_until<R: Wait>(
        &mut self,
        rt: &R,
        cache: &Cache,
        worker: &mut Worker,
        key: &[u8],
        kind: StoreKind,
        time: u32,
        deadline: u32,
    ) -> Result<Option<Stamp>, ExpiryError>
        requires { BelongsTo cache.now worker.old }
        ensures belongs { BelongsTo cache.now worker.new }
        ensures key { (result ≡ Err expiry_error.KeyLength) ↔ ¬ IsKey key.now }
        ensures same { ¬ IsKey key.now → KeepsHands worker.old worker.new }
        ensures stores { IsKey key.now → StoresUntil cache.now key.now kind.entry time deadline
            result worker.old worker.new }
        ensures count { lapsed_count self.new ≡ lapsed_count self.old }
    {
        for _ in rt.forever() {
            if let Some(result) = self.store_once(rt, cache, worker, key, kind, time, deadline) {
                return result;
            }
        }
        unreachable!()
    }

    // One get and one set of what the kind chooses. None where another worker changed the key meanwhile.
    fn store_once<R: Wait>(
        &mut self,
        rt: &R,
        cache: &Cache,
        worker: &mut Worker,
        key: &[u8],
        kind: StoreKind,
        time: u32,
        deadline: u32,
    ) -> Option<Result<Option<Stamp>, ExpiryError>>
        requires { BelongsTo cache.now worker.old }
        ensures belongs { BelongsTo cache.now worker.new }
        ensures key { IfSome result (λ ended. (ended ≡ Err expiry_error.KeyLength) ↔ ¬ IsKey key.now) }
        ensures same { ¬ IsKey key.now → KeepsHands worker.old worker.new }
        ensures ends { IfSome result (λ ended. IsKey key.now → EndsStore cache.now key.now
            kind.entry time deadline ended worker.old worker.new) }
        ensures again { result ≡ None → IsKey key.now × MissesStore cache.now key.now kind.entry
            time deadline worker.old worker.new }
        ensures count { lapsed_count self.new ≡ lapsed_count self.old }
    {
        self.stored.clear();
        let found = match worker.get_with_version(rt, cache, key, &mut self.stored) {
            Ok(found) => found,
            Err(CallError::KeyLength) => return Some(Err(ExpiryError::KeyLength)),
            Err(CallError::NoMemory(refused)) => return Some(Err(ExpiryError::NoMemory(refused))),
        };
        match kind.put(&self.stored, found, time, deadline, &mut self.timed) {
            Ok(true) => {}
            Ok(false) => return Some(Ok(None)),
            Err(refused) => return Some(Err(ExpiryError::NoMemory(refused))),
        }
        match worker.set_if(rt, cache, key, &self.timed, condition_of(found)) {
            Ok(Outcome::Stored(stamp)) => Some(Ok(Some(stamp))),
            Ok(Outcome::Exists) => None,
            Ok(Outcome::Missing) => None,
            Err(SetError::KeyLength) => Some(Err(ExpiryError::KeyLength)),
            Err(SetError::Item(error)) => Some(Err(ExpiryError::Item(error))),
        }
    }
}
