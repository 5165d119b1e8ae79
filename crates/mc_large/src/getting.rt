//! Gets of values of up to 1 MiB.
ghost use Rattle.std.specs.Prelude.{◌≡◌, ◌↔◌, ◌≤◌, Err, Ok, true, false, length};
ghost use Rattle.mc_cache.specs.Belonging.{BelongsTo};
ghost use Rattle.mc_cache.specs.Shards.{IsKey};
ghost use Rattle.mc_update.specs.Updates.{EndsWithoutMemory, FindsNoValue};
ghost use Rattle.mc_large.specs.Getting.{AddsWhole, GetsLarge, GetsRootAt, MissesLarge, MissesParts, OnlyGetsLarge, OnlyGetsSomeParts};
ghost use Rattle.mc_large.specs.Keys.{IsLargeKey};
ghost use Rattle.mc_large.specs.Kept.{root_in};
ghost use Rattle.mc_large.specs.Roots.{most_large_value};
ghost use Rattle.mc_large.specs.declared.errors.LargeCallError.TheVariants as large_error;

use crate::errors::LargeCallError;
use crate::keys::root_key;
use crate::large::Large;
use crate::parts::add_parts;
use crate::roots::{Content, read_root};
use mc_cache::{Cache, CallError, Worker};
use mc_memory::{Refused, extend_from_slice};
use mc_stripe::Stamp;
use std::sync::Wait;

impl Large {
    /// Puts the key's value behind the bytes that are there, and returns whether the key has one. Where it has none, or the call is refused,
    /// the bytes stay. A value in parts is had only where each part is there that was stored before its root. It waits for locks of the
    /// shards. (memcached's `get`)
    pub fn get<R: Wait>(
        &mut self,
        rt: &R,
        cache: &Cache,
        worker: &mut Worker,
        key: &[u8],
        into: &mut Vec<u8>,
    ) -> Result<bool, LargeCallError>
        requires { BelongsTo cache.now worker.old }
        ensures belongs { BelongsTo cache.now worker.new }
        ensures key { (result ≡ Err large_error.KeyLength) ↔ ¬ IsLargeKey key.now }
        ensures same { ¬ IsLargeKey key.now → worker.new ≡ worker.old }
        ensures value { result ≡ Ok true → GetsLarge cache.now key.now into.old.items
            into.new.items worker.old worker.new }
        ensures none { result ≡ Ok false → MissesLarge cache.now key.now worker.old worker.new }
        ensures kept { (result ≡ Ok true → ⊥) → into.new.items ≡ into.old.items }
        ensures only { IsLargeKey key.now →
            OnlyGetsLarge cache.now key.now worker.old worker.new }
    {
        let Some(place) = root_key(key) else {
            return Err(LargeCallError::KeyLength);
        };
        match self.look(rt, cache, worker, place.as_slice()) {
            Ok(true) => {}
            Ok(false) => return Ok(false),
            Err(refused) => return Err(LargeCallError::NoMemory(refused)),
        }
        match read_root(&self.root, &mut self.versions) {
            Ok(Content::Small(value)) => match extend_from_slice(into, value) {
                Ok(()) => Ok(true),
                Err(refused) => Err(LargeCallError::NoMemory(refused)),
            },
            Ok(Content::Large(len)) => {
                match get_parts(rt, cache, worker, key, &self.versions, len, into) {
                    Ok(found) => Ok(found),
                    Err(refused) => Err(LargeCallError::NoMemory(refused)),
                }
            }
            Ok(Content::Nothing) => Ok(false),
            Err(refused) => Err(LargeCallError::NoMemory(refused)),
        }
    }

    /// Gets the bytes under the root's key, and returns whether there are any.
    pub(crate) fn look<R: Wait>(
        &mut self,
        rt: &R,
        cache: &Cache,
        worker: &mut Worker,
        place: &[u8],
    ) -> Result<bool, Refused>
        requires belongs { BelongsTo cache.now worker.old }
        requires place { IsKey place.now }
        ensures belongs { BelongsTo cache.now worker.new }
        ensures found { result ≡ Ok true → GetsRootAt cache.now place.now (root_in self.new)
            worker.old worker.new }
        ensures none { result ≡ Ok false →
            FindsNoValue cache.now place.now worker.old worker.new }
        ensures only { EndsWithoutMemory cache.now place.now worker.old worker.new }
    {
        self.root.clear();
        match worker.get_with_version(rt, cache, place, &mut self.root) {
            Ok(Some(_version)) => Ok(true),
            Ok(None) => Ok(false),
            Err(CallError::KeyLength) => unreachable!(),
            Err(CallError::NoMemory(refused)) => Err(refused),
        }
    }
}

// Puts the pieces of the parts of these versions behind the bytes that are there, if each is there and they have this length together.
fn get_parts<R: Wait>(
    rt: &R,
    cache: &Cache,
    worker: &mut Worker,
    key: &[u8],
    versions: &[Stamp],
    len: usize,
    into: &mut Vec<u8>,
) -> Result<bool, Refused>
    requires belongs { BelongsTo cache.now worker.old }
    requires key { IsLargeKey key.now }
    requires few { length versions.now ≤ most_large_value }
    ensures belongs { BelongsTo cache.now worker.new }
    ensures value { result ≡ Ok true → AddsWhole cache.now key.now versions.now len
        into.old.items into.new.items worker.old worker.new }
    ensures none { result ≡ Ok false →
        MissesParts cache.now key.now versions.now len worker.old worker.new }
    ensures kept { (result ≡ Ok true → ⊥) → into.new.items ≡ into.old.items }
    ensures only { OnlyGetsSomeParts cache.now key.now worker.old worker.new }
{
    let start = into.len();
    match add_parts(rt, cache, worker, key, versions, into) {
        Ok(true) => {
            if into.len() - start == len {
                return Ok(true);
            }
            into.truncate(start);
            Ok(false)
        }
        Ok(false) => {
            into.truncate(start);
            Ok(false)
        }
        Err(refused) => {
            into.truncate(start);
            Err(refused)
        }
    }
}
