//! The hash of a key, and its shard.
ghost use Rattle.std.specs.Prelude.{◌≡◌, ◌<◌, ◌≤◌, ◌^◌};
ghost use Rattle.mc_cache.specs.Hashing.{shard_of};

use crate::sip::{Lanes, tail_of, word_at};
use std::marker::Model;

/// How many bytes a hasher has taken in with the two numbers.
const STARTED: u64 = 16;

/// What keys are hashed with: two numbers, which whoever picks the keys is not to know. Else they could be picked so that they all go to
/// one shard, or to one hash.
#[derive(Debug, Clone, Copy)]
pub struct HashKey {
    pub first: u64,
    pub second: u64,
}

/// A hasher that has taken the two numbers in already, so that hashing a key doesn't begin with them. Contracts see the numbers.
#[derive(Drop)]
pub(crate) struct KeyedHasher {
    key: HashKey,
    start: Lanes,
}

impl Model for KeyedHasher {
    ghost use Rattle.mc_cache.specs.declared.hashing.HashKey.{HashKey};

    ghost Value = { HashKey };

    ghost use Rattle.mc_cache.specs.HasherInside.{hash_key_of, IsStarted};

    ghost view = { hash_key_of };

    ghost invariant = { IsStarted };
}

impl KeyedHasher {
    ghost use Rattle.std.specs.Prelude.{◌≡◌};
    ghost use Rattle.mc_cache.specs.Hashing.{hash_of};

    /// A hasher with these two numbers.
    pub(crate) fn new(key: HashKey) -> KeyedHasher
        ensures { result ≡ key }
    {
        let first = word_at(&key.first.to_le_bytes(), 0);
        let second = word_at(&key.second.to_le_bytes(), 0);
        let start = Lanes::new().with_word(first).with_word(second);
        KeyedHasher { key, start }
    }

    /// The key's hash: SipHash-1-3 of the two numbers and then of the key.
    #[inline(always)]
    pub(crate) fn hash(&self, key: &[u8]) -> u64
        ensures { result ≡ hash_of self.now key.now }
    {
        let mut lanes = self.start;
        let mut at = 0;
        while key.len() - at >= 8 {
            lanes = lanes.with_word(word_at(key, at));
            at += 8;
        }
        lanes.finish(tail_of(key, at), STARTED.wrapping_add(key.len() as u64))
    }
}

/// The shard, of n, that has the keys of this hash. The hash's upper half chooses it, as the remainder chooses a stripe.
pub(crate) fn choose_shard(shards: usize, hash: u64) -> usize
    requires some { 1 ≤ shards }
    requires within_limit { shards ≤ 4096 }
    ensures shard { result ≡ shard_of shards hash }
    ensures in_range { result < shards }
{
    ((hash >> 32) * shards as u64 >> 32) as usize
}
