//! The cache, which has the arenas of all shards, and its workers, which have the hands.
ghost use Rattle.std.specs.Prelude.{◌≡◌, ◌≤◌, length};
ghost use Rattle.mc_cache.specs.Shards.{HaveOneTable};

use crate::hashing::KeyedHasher;
use mc_classes::ClassTable;
use mc_shard::{HintTable, max_value};
use mc_words::{Arena, Hand};

/// The memory of a cache that threads share: 1 to 4,096 arenas side by side, of which each has the keys of some hashes.
#[derive(Drop)]
pub struct Cache {
    pub(crate) arenas: Vec<Arena>,
    pub(crate) hashing: KeyedHasher,
    /// Where items were found last, and which were got since an eviction looked at them.
    pub(crate) hints: HintTable,
    ghost some: { 1 ≤ length arenas.items },
    ghost within_limit: { length arenas.items ≤ 4096 },
    ghost alike: { HaveOneTable arenas.items },
}

impl Cache {
    ghost use Rattle.std.specs.Prelude.{◌≡◌, IfSome, None, Some};
    ghost use Rattle.mc_cache.specs.Observers.{classes_of, shard_count};
    ghost use Rattle.mc_cache.specs.Sizes.{IsMostBesideIn, LacksClassBesideIn};

    /// How many shards the cache has.
    pub fn shards(&self) -> usize
        ensures shards { result ≡ shard_count self.now }
    {
        self.arenas.len()
    }

    /// The size classes of a shard. Those of the other shards are the same, as all are made with one configuration.
    pub fn classes(&self) -> &ClassTable
        ensures classes { classes_of self.now ≡ Some result.now }
    {
        self.arenas[0].classes()
    }

    /// The most bytes that a value may have beside a key of n bytes. None where no class has chunks for that key with any value. (own)
    pub fn max_value(&self, key_len: usize) -> Option<usize>
        ensures most { IfSome result (λ most. IsMostBesideIn self.now key_len most) }
        ensures none { result ≡ None → LacksClassBesideIn self.now key_len }
    {
        max_value(self.classes(), key_len)
    }
}

/// What one thread acts with: a hand of each shard, and room for the words of the item that it sets.
#[derive(Drop)]
pub struct Worker {
    pub(crate) hands: Vec<Hand>,
    pub(crate) words: Vec<u64>,
}
