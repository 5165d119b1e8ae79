//! Bytes that are added at an end of a value.
ghost use Rattle.std.specs.Prelude.{◌≡◌, ◌↔◌, Err};
ghost use Rattle.mc_cache.specs.Belonging.{BelongsTo, KeepsHands};
ghost use Rattle.mc_cache.specs.Shards.{IsKey};
ghost use Rattle.mc_update.specs.Updates.{ChangesValue, stored_by};
ghost use Rattle.mc_update.specs.declared.change.Change.TheVariants.{Append, Prepend};
ghost use Rattle.mc_update.specs.declared.updater.ChangeError.TheVariants as change_error;

use crate::change::Change;
use crate::updater::{ChangeError, Updater};
use mc_cache::{Cache, Worker};
use mc_stripe::Stamp;
use std::sync::Wait;

impl Updater {
    /// Stores the key's value with these bytes behind it, and returns the version of that, or none where the key has no value.
    /// (memcached's `append`)
    pub fn append<R: Wait>(
        &mut self,
        rt: &R,
        cache: &Cache,
        worker: &mut Worker,
        key: &[u8],
        more: &[u8],
    ) -> Result<Option<Stamp>, ChangeError>
        requires { BelongsTo cache.now worker.old }
        ensures belongs { BelongsTo cache.now worker.new }
        ensures key { (result ≡ Err change_error.KeyLength) ↔ ¬ IsKey key.now }
        ensures same { ¬ IsKey key.now → KeepsHands worker.old worker.new }
        ensures changes { IsKey key.now → ChangesValue cache.now key.now (Append more.entry)
            (stored_by self.new) result worker.old worker.new }
    {
        self.change_value(rt, cache, worker, key, Change::Append(more))
    }

    /// Stores the key's value with these bytes before it, and returns the version of that, or none where the key has no value.
    /// (memcached's `prepend`)
    pub fn prepend<R: Wait>(
        &mut self,
        rt: &R,
        cache: &Cache,
        worker: &mut Worker,
        key: &[u8],
        more: &[u8],
    ) -> Result<Option<Stamp>, ChangeError>
        requires { BelongsTo cache.now worker.old }
        ensures belongs { BelongsTo cache.now worker.new }
        ensures key { (result ≡ Err change_error.KeyLength) ↔ ¬ IsKey key.now }
        ensures same { ¬ IsKey key.now → KeepsHands worker.old worker.new }
        ensures changes { IsKey key.now → ChangesValue cache.now key.now (Prepend more.entry)
            (stored_by self.new) result worker.old worker.new }
    {
        self.change_value(rt, cache, worker, key, Change::Prepend(more))
    }
}
