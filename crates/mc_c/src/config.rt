//! The configuration, as C has it.

use mc_cache::{CacheConfig, HashKey};
use mc_classes::Config;

/// What a cache is made with. Sizes are in bytes.
#[repr(C)]
#[derive(Clone, Copy)]
pub struct McConfig {
    pub page: u64,
    pub limit: u64,
    pub first: u64,
    pub num: u64,
    pub den: u64,
    pub max: u64,
    pub stripes: u64,
    pub bulk: u64,
    pub shards: u64,
    pub hash_first: u64,
    pub hash_second: u64,
}

impl McConfig {
    ghost use Rattle.std.specs.Prelude.{◌≡◌};
    ghost use Rattle.mc_c.specs.Configs.{config_for, config_with, hash_key_in};

    /// The configuration of a cache for so many workers.
    pub(crate) fn for_workers(&self, workers: u64) -> CacheConfig
        ensures { result ≡ config_for self.now workers }
    {
        CacheConfig {
            arena: Config {
                page: self.page,
                limit: self.limit,
                first: self.first,
                num: self.num,
                den: self.den,
                max: self.max,
                stripes: self.stripes,
                bulk: self.bulk,
            },
            shards: self.shards,
            workers,
        }
    }

    /// The two numbers with which keys are hashed.
    pub(crate) fn hash_key(&self) -> HashKey
        ensures { result ≡ hash_key_in self.now }
    {
        HashKey {
            first: self.hash_first,
            second: self.hash_second,
        }
    }

    /// Takes the numbers of a configuration over, but those for hashes.
    pub(crate) fn set(&mut self, config: &CacheConfig)
        ensures { self.new ≡ config_with self.old config.now }
    {
        self.page = config.arena.page;
        self.limit = config.arena.limit;
        self.first = config.arena.first;
        self.num = config.arena.num;
        self.den = config.arena.den;
        self.max = config.arena.max;
        self.stripes = config.arena.stripes;
        self.bulk = config.arena.bulk;
        self.shards = config.shards;
    }
}
