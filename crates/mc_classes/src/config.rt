//! What a slab memory is configured with, and why a configuration is refused.
ghost use Rattle.std.specs.Prelude.{◌≡◌, ◌^◌, ◌≤◌, IfErr, OnOk};
ghost use Rattle.mc_classes.specs.Refusals.{config_refusal, config_error_number, rounded_up, is_below_max, first_size};

use crate::limits::{
    LEAST_PAGE_BYTES, MOST_BULK, MOST_PAGE_BYTES, MOST_PAGE_CHUNKS, MOST_PAGES, MOST_STRIPES,
};
use mc_memory::Refused;
use thiserror::Error;

/// Eight numbers that decide the size classes and the limits. Sizes are in bytes.
#[derive(Clone, Copy, PartialEq, Eq)]
pub struct Config {
    /// The size of a page.
    pub page: u64,
    /// How many bytes of pages may be granted. A class without a page gets its first one beyond them, too.
    pub limit: u64,
    /// The raw size that the first class begins with.
    pub first: u64,
    /// The growth factor from class to class is `num / den`.
    pub num: u64,
    /// The growth factor's denominator.
    pub den: u64,
    /// The size of the last class.
    pub max: u64,
    /// How many item locks there are.
    pub stripes: u64,
    /// How many chunks the mover looks at in one turn.
    pub bulk: u64,
}

/// Why no class table is made of a configuration. The tests are made in this order (own).
#[derive(Debug, PartialEq, Eq, Drop, Error)]
pub enum ConfigError {
    /// The page size isn't a multiple of 8, or is outside 64 to 16,384.
    #[error("the page size must be a multiple of 8 from 64 to 16384 bytes")]
    PageSize,
    /// The first raw size is outside 24 to the page size.
    #[error("the first size must be from 24 bytes to the page size")]
    FirstSize,
    /// The denominator is 0, or the numerator isn't above it or is above 65,535.
    #[error("the growth factor must be above 1, with a numerator of at most 65535")]
    Factor,
    /// The last class's size isn't a multiple of 8, is below the first raw size or above the page size.
    #[error("the greatest size must be a multiple of 8 from the first size to the page size")]
    ChunkMax,
    /// The limit has no page, or more than 64.
    #[error("the limit must have room for 1 to 64 pages")]
    Limit,
    /// The stripes are none, or more than 64.
    #[error("the number of stripes must be from 1 to 64")]
    Stripes,
    /// A page of the first class has more than 256 chunks.
    #[error("a page of the first class would have more than 256 chunks: raise the first size or lower the page size")]
    TooManyChunks,
    /// The mover's turn has no chunk, or more than 256.
    #[error("the number of chunks a turn must be from 1 to 256")]
    Bulk,
    /// Memory ran out.
    #[error("out of memory")]
    NoMemory(Refused),
}

impl ConfigError {
    /// The refusal's number, 1 to 9, in the order of the tests.
    pub fn number(self) -> u64
        ensures { result ≡ config_error_number self }
    {
        match self {
            ConfigError::PageSize => 1,
            ConfigError::FirstSize => 2,
            ConfigError::Factor => 3,
            ConfigError::ChunkMax => 4,
            ConfigError::Limit => 5,
            ConfigError::Stripes => 6,
            ConfigError::TooManyChunks => 7,
            ConfigError::Bulk => 8,
            ConfigError::NoMemory(_) => 9,
        }
    }
}

impl From<Refused> for ConfigError {
    ghost use Rattle.std.specs.Prelude.{◌≡◌};
    ghost use Rattle.mc_classes.specs.declared.config.ConfigError.TheVariants.{NoMemory};

    ghost from_gives = { λ refused error. error ≡ NoMemory refused };

    fn from(refused: Refused) -> ConfigError {
        ConfigError::NoMemory(refused)
    }
}

/// The least multiple of 8 that is at least `n`.
pub(crate) fn rounded_up(n: u64) -> u64
    requires { n ≤ MOST_PAGE_BYTES }
    ensures { result ≡ rounded_up n }
{
    n.div_ceil(8) * 8
}

impl Config {
    /// Whether a class of this raw size comes before the last one.
    pub(crate) fn is_below_max(&self, raw: u64) -> bool
        requires raw { raw ≤ 2 ^ 30 }
        requires num { self.now.num ≤ 65535 }
        requires max { self.now.max ≤ MOST_PAGE_BYTES }
        requires den { self.now.den ≤ 65535 }
        ensures { result ≡ is_below_max self.now raw }
    {
        raw * self.num < self.max * self.den
    }

    /// The size of class 1.
    fn first_size(&self) -> u64
        requires first { self.now.first ≤ MOST_PAGE_BYTES }
        requires num { self.now.num ≤ 65535 }
        requires max { self.now.max ≤ MOST_PAGE_BYTES }
        requires den { self.now.den ≤ 65535 }
        ensures { result ≡ first_size self.now }
    {
        if self.is_below_max(self.first) {
            rounded_up(self.first)
        } else {
            self.max
        }
    }

    /// Makes the tests, in their order, and allocates nothing.
    pub fn test(&self) -> Result<(), ConfigError>
        ensures accepted { OnOk result (config_refusal self.now ≡ None) }
        ensures refused { IfErr result (λ error. config_refusal self.now ≡ Some error) }
    {
        if self.page % 8 != 0 || self.page < LEAST_PAGE_BYTES || self.page > MOST_PAGE_BYTES {
            return Err(ConfigError::PageSize);
        }
        if self.first < 24 || self.first > self.page {
            return Err(ConfigError::FirstSize);
        }
        if self.den == 0 || self.num <= self.den || self.num > 65_535 {
            return Err(ConfigError::Factor);
        }
        if self.max % 8 != 0 || self.max < self.first || self.max > self.page {
            return Err(ConfigError::ChunkMax);
        }
        let pages = self.limit / self.page;
        if pages < 1 || pages > MOST_PAGES {
            return Err(ConfigError::Limit);
        }
        if self.stripes < 1 || self.stripes > MOST_STRIPES {
            return Err(ConfigError::Stripes);
        }
        if self.page / self.first_size() > MOST_PAGE_CHUNKS {
            return Err(ConfigError::TooManyChunks);
        }
        if self.bulk < 1 || self.bulk > MOST_BULK {
            return Err(ConfigError::Bulk);
        }
        Ok(())
    }
}
