//! Deletes of values of up to 1 MiB.
ghost use Rattle.std.specs.Prelude.{◌≡◌, ◌↔◌, ◌⊎◌, Err, Ok, OnErr, true, false};
ghost use Rattle.mc_cache.specs.Belonging.{BelongsTo};
ghost use Rattle.mc_large.specs.Dropping.{DeletesLarge, FailsToDelete};
ghost use Rattle.mc_large.specs.Keys.{IsLargeKey, root_key};
ghost use Rattle.mc_update.specs.Updates.{FindsNoValue};
ghost use Rattle.mc_large.specs.declared.errors.LargeCallError.TheVariants as large_error;

use crate::errors::LargeCallError;
use crate::keys::root_key;
use crate::large::Large;
use crate::parts::drop_parts;
use crate::roots::read_root;
use mc_cache::{Cache, CallError, Worker};
use std::sync::Wait;

impl Large {
    /// Deletes the key's root, and returns whether it had one. Then the parts are deleted that the root has versions of: a part that another
    /// worker stored later stays. It waits for locks of the shards. (memcached's `delete`)
    pub fn delete<R: Wait>(
        &mut self,
        rt: &R,
        cache: &Cache,
        worker: &mut Worker,
        key: &[u8],
    ) -> Result<bool, LargeCallError>
        requires { BelongsTo cache.now worker.old }
        ensures belongs { BelongsTo cache.now worker.new }
        ensures key { (result ≡ Err large_error.KeyLength) ↔ ¬ IsLargeKey key.now }
        ensures same { ¬ IsLargeKey key.now → worker.new ≡ worker.old }
        ensures deletes { result ≡ Ok true →
            DeletesLarge cache.now key.now true worker.old worker.new }
        ensures none { result ≡ Ok false →
            FindsNoValue cache.now (root_key key.now) worker.old worker.new
            ⊎ DeletesLarge cache.now key.now false worker.old worker.new }
        ensures refused { OnErr result (IsLargeKey key.now →
            FailsToDelete cache.now key.now worker.old worker.new) }
    {
        let Some(place) = root_key(key) else {
            return Err(LargeCallError::KeyLength);
        };
        match self.look(rt, cache, worker, place.as_slice()) {
            Ok(true) => {}
            Ok(false) => return Ok(false),
            Err(refused) => return Err(LargeCallError::NoMemory(refused)),
        }
        match read_root(&self.root, &mut self.versions) {
            Ok(_content) => {}
            Err(refused) => return Err(LargeCallError::NoMemory(refused)),
        }
        match worker.delete(rt, cache, place.as_slice()) {
            Ok(there) => {
                drop_parts(rt, cache, worker, key, &self.versions);
                Ok(there)
            }
            Err(CallError::KeyLength) => unreachable!(),
            Err(CallError::NoMemory(refused)) => Err(LargeCallError::NoMemory(refused)),
        }
    }
}
