//! The place of a key: its hash and its shard.
ghost use Rattle.std.specs.Prelude.{◌≡◌, ◌<◌, ◌↔◌, IfSome, None, length};
ghost use Rattle.mc_cache.specs.Belonging.{hash_in, shard_in};
ghost use Rattle.mc_cache.specs.Shards.{IsKey};

use crate::cache::Cache;
use crate::hashing::choose_shard;

/// The most bytes of a key. (memcached's `KEY_MAX_LENGTH`)
const MOST_KEY_BYTES: usize = 250;

/// Where the calls on a key go.
#[derive(Clone, Copy)]
pub(crate) struct Place {
    /// The key's hash, which is the key of its item.
    pub(crate) hash: u64,
    /// The shard that has the item.
    pub(crate) shard: usize,
}

impl Cache {
    /// Where the calls on the key go, if it may be one: it has 1 to 250 bytes.
    #[inline(always)]
    pub(crate) fn place_of(&self, key: &[u8]) -> Option<Place>
        ensures key { (result ≡ None) ↔ ¬ IsKey key.now }
        ensures hash { IfSome result (λ place. place.hash ≡ hash_in self.now key.now) }
        ensures shard { IfSome result (λ place. place.shard ≡ shard_in self.now key.now) }
        ensures in_range { IfSome result (λ place. place.shard < length self.now.arenas.items) }
    {
        if key.is_empty() || key.len() > MOST_KEY_BYTES {
            return None;
        }
        let hash = self.hashing.hash(key);
        let shard = choose_shard(self.arenas.len(), hash);
        Some(Place { hash, shard })
    }
}
