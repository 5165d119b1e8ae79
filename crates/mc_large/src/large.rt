//! Sets of values of up to 1 MiB.
ghost use Rattle.std.specs.Prelude.{◌≡◌, ◌↔◌, ◌≤◌, [], Err, IfErr, OnOk, length};
ghost use Rattle.mc_items.specs.declared.setting.SetError as items;
ghost use Rattle.mc_cache.specs.Belonging.{BelongsTo, RefusesAndDeletes};
ghost use Rattle.mc_cache.specs.Shards.{IsKey};
ghost use Rattle.mc_large.specs.Keys.{IsLargeKey};
ghost use Rattle.mc_large.specs.Kept.{kept_numbers};
ghost use Rattle.mc_large.specs.Rooms.{LacksRoomIn};
ghost use Rattle.mc_large.specs.Roots.{most_large_value, small_root};
ghost use Rattle.mc_large.specs.Setting.{DropsRoot, RefusesLarge, RefusesRoot, RefusesWhole, SetsLarge, StoresRoot, StoresWhole};
ghost use Rattle.mc_large.specs.declared.errors.LargeSetError.TheVariants as large_error;

use crate::errors::LargeSetError;
use crate::keys::root_key;
use crate::parts::store_parts;
use crate::roots::{put_large_root, put_small_root};
use crate::storage::{Storage, storage_of};
use mc_cache::{Cache, SetError, Worker};
use mc_stripe::Stamp;
use std::alloc::Global;
use std::sync::Wait;

/// Room for a root and for the versions of parts, which is used again by each call.
#[derive(Drop)]
pub struct Large {
    pub(crate) root: Vec<u8>,
    pub(crate) versions: Vec<Stamp>,
}

impl Large {
    /// Has no bytes of a root and no versions, and takes no memory.
    pub fn new(alloc: Global) -> Large
        ensures { kept_numbers result ≡ [] }
    {
        Large {
            root: Vec::new(alloc),
            versions: Vec::new(alloc),
        }
    }

    /// Stores the value under the key, in the place of what the key had: in its root, where it fits there, and else in parts, and then their
    /// root. Where a part or the root is refused, the key's old value is deleted, since it was to be replaced. It waits for locks of the
    /// shards. (memcached's `set`)
    pub fn set<R: Wait>(
        &mut self,
        rt: &R,
        cache: &Cache,
        worker: &mut Worker,
        key: &[u8],
        value: &[u8],
    ) -> Result<(), LargeSetError>
        requires { BelongsTo cache.now worker.old }
        ensures belongs { BelongsTo cache.now worker.new }
        ensures key { (result ≡ Err large_error.KeyLength) ↔ ¬ IsLargeKey key.now }
        ensures too_large { (result ≡ Err large_error.TooLarge) ↔ IsLargeKey key.now
            × LacksRoomIn cache.now (length key.now) (length value.now) }
        ensures no_key { ¬ IsLargeKey key.now → worker.new ≡ worker.old }
        ensures no_room { result ≡ Err large_error.TooLarge → worker.new ≡ worker.old }
        ensures stores { OnOk result (SetsLarge cache.now key.now value.now worker.old worker.new) }
        ensures refused { (error : items.SetError) → result ≡ Err (large_error.Item error) →
            RefusesLarge cache.now key.now value.now error worker.old worker.new }
    {
        let Some(place) = root_key(key) else {
            return Err(LargeSetError::KeyLength);
        };
        let Some(storage) = storage_of(cache, key.len(), value.len()) else {
            return Err(LargeSetError::TooLarge);
        };
        match storage {
            Storage::InRoot => match self.set_in_root(rt, cache, worker, place.as_slice(), value) {
                Ok(()) => Ok(()),
                Err(error) => Err(LargeSetError::Item(error)),
            },
            Storage::InParts(room) => {
                match self.set_in_parts(rt, cache, worker, key, place.as_slice(), value, room) {
                    Ok(()) => Ok(()),
                    Err(error) => Err(LargeSetError::Item(error)),
                }
            }
        }
    }

    // Stores the value in its root.
    fn set_in_root<R: Wait>(
        &mut self,
        rt: &R,
        cache: &Cache,
        worker: &mut Worker,
        place: &[u8],
        value: &[u8],
    ) -> Result<(), mc_items::SetError>
        requires belongs { BelongsTo cache.now worker.old }
        requires place { IsKey place.now }
        ensures belongs { BelongsTo cache.now worker.new }
        ensures stores { OnOk result (StoresRoot cache.now place.now (small_root value.now)
            worker.old worker.new) }
        ensures refused { IfErr result (λ error. RefusesRoot cache.now place.now
            (small_root value.now) error worker.old worker.new) }
    {
        if let Err(refused) = put_small_root(&mut self.root, value) {
            drop_root(rt, cache, worker, place);
            return Err(mc_items::SetError::NoMemory(refused));
        }
        store_root(rt, cache, worker, place, &self.root)
    }

    // Stores the value in parts of at most so many bytes, and then their root.
    fn set_in_parts<R: Wait>(
        &mut self,
        rt: &R,
        cache: &Cache,
        worker: &mut Worker,
        key: &[u8],
        place: &[u8],
        value: &[u8],
        room: usize,
    ) -> Result<(), mc_items::SetError>
        requires belongs { BelongsTo cache.now worker.old }
        requires key { IsLargeKey key.now }
        requires place { IsKey place.now }
        requires room { 1 ≤ room }
        requires len { length value.now ≤ most_large_value }
        ensures belongs { BelongsTo cache.now worker.new }
        ensures stores { OnOk result (StoresWhole cache.now key.now place.now room value.now
            worker.old worker.new) }
        ensures refused { IfErr result (λ error. RefusesWhole cache.now key.now place.now room
            value.now error worker.old worker.new) }
    {
        if let Err(error) = store_parts(rt, cache, worker, key, value, room, &mut self.versions) {
            drop_root(rt, cache, worker, place);
            return Err(error);
        }
        if let Err(refused) = put_large_root(&mut self.root, value.len(), &self.versions) {
            drop_root(rt, cache, worker, place);
            return Err(mc_items::SetError::NoMemory(refused));
        }
        store_root(rt, cache, worker, place, &self.root)
    }
}

// Stores these bytes as the root under this key. Where they are refused, the old root is deleted.
fn store_root<R: Wait>(
    rt: &R,
    cache: &Cache,
    worker: &mut Worker,
    place: &[u8],
    root: &[u8],
) -> Result<(), mc_items::SetError>
    requires belongs { BelongsTo cache.now worker.old }
    requires place { IsKey place.now }
    ensures belongs { BelongsTo cache.now worker.new }
    ensures stores { OnOk result (StoresRoot cache.now place.now root.now worker.old worker.new) }
    ensures refused { IfErr result (λ error. RefusesAndDeletes cache.now place.now root.now error
        worker.old worker.new) }
{
    match worker.set(rt, cache, place, root) {
        Ok(()) => Ok(()),
        Err(SetError::KeyLength) => unreachable!(),
        Err(SetError::Item(error)) => Err(error),
    }
}

// Deletes the root under this key.
fn drop_root<R: Wait>(rt: &R, cache: &Cache, worker: &mut Worker, place: &[u8])
    requires belongs { BelongsTo cache.now worker.old }
    requires place { IsKey place.now }
    ensures belongs { BelongsTo cache.now worker.new }
    ensures drops { DropsRoot cache.now place.now worker.old worker.new }
{
    let _deleted = worker.delete(rt, cache, place);
}
