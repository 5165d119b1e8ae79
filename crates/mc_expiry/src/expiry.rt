//! Sets and gets of values with a deadline.
ghost use Rattle.std.specs.Prelude.{◌≡◌, ◌↔◌, [], Err, Ok, OnErr, OnOk, false, true};
ghost use Rattle.mc_items.specs.declared.setting.SetError as items;
ghost use Rattle.mc_cache.specs.Belonging.{ActsOnKey, BelongsTo, KeepsHands, hash_in};
ghost use Rattle.mc_cache.specs.Shards.{IsKey, StoresValue};
ghost use Rattle.mc_cache.specs.declared.working.CallError.TheVariants as call_error;
ghost use Rattle.mc_cache.specs.declared.working.SetError.TheVariants as set_error;
ghost use Rattle.mc_update.specs.Updates.{EndsWithoutMemory};
ghost use Rattle.mc_expiry.specs.Deadlines.{timed_bytes};
ghost use Rattle.mc_expiry.specs.Getting.{DeletesLapsed, GetsUnexpired, MissesUnexpired, count_with_get, is_deleted, kept_bytes, lapsed_count};
ghost use Rattle.mc_expiry.specs.Setting.{RefusesUntil};

use crate::deadlines::put_timed;
use crate::looking::seen_value;
use mc_cache::{Cache, CallError, Deletion, SetError, Worker};
use mc_memory::extend_from_slice;
use mc_stripe::Stamp;
use std::alloc::Global;
use std::sync::Wait;

/// Room for a value with its deadline, and for what is stored in its place, which is used again by each call; and a count of expired values.
#[derive(Drop)]
pub struct Expiry {
    pub(crate) stored: Vec<u8>,
    pub(crate) timed: Vec<u8>,
    pub(crate) lapsed: u64,
}

impl Expiry {
    /// An expiry that has no bytes of a value, counted none, and takes no memory.
    pub fn new(alloc: Global) -> Expiry
        ensures bytes { kept_bytes result ≡ [] }
        ensures count { lapsed_count result ≡ 0 }
    {
        Expiry {
            stored: Vec::new(alloc),
            timed: Vec::new(alloc),
            lapsed: 0,
        }
    }

    /// How many values this expiry's gets found without an unexpired deadline and deleted, up to 2^64 - 1. (own)
    pub fn lapsed(&self) -> u64
        ensures { result ≡ lapsed_count self.now }
    {
        self.lapsed
    }

    /// Stores the value with this deadline, as [`Worker::set`] does. Where it is refused, the key's old value is deleted. (memcached's `set`)
    pub fn set_until<R: Wait>(
        &mut self,
        rt: &R,
        cache: &Cache,
        worker: &mut Worker,
        key: &[u8],
        value: &[u8],
        deadline: u32,
    ) -> Result<(), SetError>
        requires { BelongsTo cache.now worker.old }
        ensures belongs { BelongsTo cache.now worker.new }
        ensures key { (result ≡ Err set_error.KeyLength) ↔ ¬ IsKey key.now }
        ensures same { ¬ IsKey key.now → KeepsHands worker.old worker.new }
        ensures stores { OnOk result (ActsOnKey cache.now key.now
            (StoresValue (hash_in cache.now key.now) key.now (timed_bytes deadline value.now))
            worker.old worker.new) }
        ensures refused { (error : items.SetError) → result ≡ Err (set_error.Item error) →
            RefusesUntil cache.now key.now value.now deadline error worker.old worker.new }
        ensures count { lapsed_count self.new ≡ lapsed_count self.old }
    {
        if let Err(refused) = put_timed(&mut self.timed, deadline, value) {
            return match worker.delete(rt, cache, key) {
                Err(CallError::KeyLength) => Err(SetError::KeyLength),
                Err(CallError::NoMemory(again)) => {
                    Err(SetError::Item(mc_items::SetError::NoMemory(again)))
                }
                Ok(_deleted) => Err(SetError::Item(mc_items::SetError::NoMemory(refused))),
            };
        }
        worker.set(rt, cache, key, &self.timed)
    }

    /// Puts the key's value behind the bytes that are there, and returns whether the key has one whose deadline isn't reached at this
    /// time. Where it has none, or the call is refused, the bytes stay. Fewer than 4 stored bytes have no value. The call deletes stored
    /// bytes that have no unexpired value, unless another worker changed the key meanwhile, and counts what it deleted. It waits for locks
    /// of the key's shard. (memcached's `get`)
    pub fn get<R: Wait>(
        &mut self,
        rt: &R,
        cache: &Cache,
        worker: &mut Worker,
        key: &[u8],
        time: u32,
        into: &mut Vec<u8>,
    ) -> Result<bool, CallError>
        requires { BelongsTo cache.now worker.old }
        ensures belongs { BelongsTo cache.now worker.new }
        ensures key { (result ≡ Err call_error.KeyLength) ↔ ¬ IsKey key.now }
        ensures same { ¬ IsKey key.now → KeepsHands worker.old worker.new }
        ensures value { result ≡ Ok true → GetsUnexpired cache.now key.now time into.old.items
            into.new.items worker.old worker.new }
        ensures none { result ≡ Ok false →
            MissesUnexpired cache.now key.now time (lapsed_count self.old)
            (lapsed_count self.new) worker.old worker.new }
        ensures count { (result ≡ Ok false → ⊥) → lapsed_count self.new ≡ lapsed_count self.old }
        ensures kept { (result ≡ Ok true → ⊥) → into.new.items ≡ into.old.items }
        ensures refused { OnErr result (IsKey key.now →
            EndsWithoutMemory cache.now key.now worker.old worker.new) }
    {
        self.stored.clear();
        let found = match worker.get_with_version(rt, cache, key, &mut self.stored) {
            Ok(found) => found,
            Err(error) => return Err(error),
        };
        let Some(value) = seen_value(&self.stored, found, time) else {
            let deleted = delete_found(rt, cache, worker, key, found);
            self.lapsed = count_with(self.lapsed, deleted);
            return Ok(false);
        };
        match extend_from_slice(into, value) {
            Ok(()) => Ok(true),
            Err(refused) => Err(CallError::NoMemory(refused)),
        }
    }
}

// A count behind one more get, which deleted a value or none.
fn count_with(count: u64, deleted: bool) -> u64
    ensures { result ≡ count_with_get deleted count }
{
    count.saturating_add(deleted as u64)
}

// Deletes what a look found, if it found stored bytes of a version, and the key still has them. Whether something was deleted.
fn delete_found<R: Wait>(
    rt: &R,
    cache: &Cache,
    worker: &mut Worker,
    key: &[u8],
    found: Option<Stamp>,
) -> bool
    requires { BelongsTo cache.now worker.old }
    ensures belongs { BelongsTo cache.now worker.new }
    ensures deletes { IsKey key.now →
        DeletesLapsed cache.now key.now found result worker.old worker.new }
{
    match found {
        Some(version) => {
            let deletion = worker.delete_version(rt, cache, key, version);
            is_deleted(&deletion)
        }
        None => false,
    }
}

// Whether a delete of a version deleted something.
fn is_deleted(deletion: &Result<Deletion, CallError>) -> bool
    ensures { result ≡ is_deleted deletion.now }
{
    match deletion {
        Ok(Deletion::Deleted) => true,
        Ok(Deletion::Exists) => false,
        Ok(Deletion::Missing) => false,
        Err(_) => false,
    }
}
