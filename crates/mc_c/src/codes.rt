//! The codes that calls return. `include/noddrefil.h` has them for C.
ghost use Rattle.std.specs.Prelude.{◌≡◌};
ghost use Rattle.mc_c.specs.Codes.{new_code};

use mc_cache::NewError;
use mc_classes::ConfigError;

pub(crate) const OK: u32 = 0;

pub(crate) const MISSING: u32 = 1;

pub(crate) const HELD: u32 = 2;

pub(crate) const TOO_LARGE: u32 = 3;

pub(crate) const NO_ROOM: u32 = 4;

pub(crate) const WORN_OUT: u32 = 5;

pub(crate) const NO_MEMORY: u32 = 6;

pub(crate) const TOO_SMALL: u32 = 7;

pub(crate) const NO_WORKERS: u32 = 8;

pub(crate) const CLOSED: u32 = 9;

pub(crate) const BAD_KEY: u32 = 10;

pub(crate) const BUSY: u32 = 11;

pub(crate) const BAD_CLASS: u32 = 12;

pub(crate) const NO_SPARE: u32 = 13;

pub(crate) const SAME_CLASS: u32 = 14;

pub(crate) const OUT_OF_RANGE: u32 = 15;

pub(crate) const BAD_SHARDS: u32 = 16;

pub(crate) const BAD_WORKERS: u32 = 17;

pub(crate) const BAD_PAGE: u32 = 18;

pub(crate) const BAD_FIRST: u32 = 19;

pub(crate) const BAD_FACTOR: u32 = 20;

pub(crate) const BAD_MAX: u32 = 21;

pub(crate) const BAD_LIMIT: u32 = 22;

pub(crate) const BAD_STRIPES: u32 = 23;

pub(crate) const BAD_CHUNKS: u32 = 24;

pub(crate) const BAD_BULK: u32 = 25;

pub(crate) const TOO_FEW_BYTES: u32 = 26;

pub(crate) const EXISTS: u32 = 27;

/// The code of a refused configuration.
pub(crate) fn code_of_new(error: NewError) -> u32
    ensures { result ≡ new_code error }
{
    match error {
        NewError::Shards => BAD_SHARDS,
        NewError::Workers => BAD_WORKERS,
        NewError::Config(ConfigError::PageSize) => BAD_PAGE,
        NewError::Config(ConfigError::FirstSize) => BAD_FIRST,
        NewError::Config(ConfigError::Factor) => BAD_FACTOR,
        NewError::Config(ConfigError::ChunkMax) => BAD_MAX,
        NewError::Config(ConfigError::Limit) => BAD_LIMIT,
        NewError::Config(ConfigError::Stripes) => BAD_STRIPES,
        NewError::Config(ConfigError::TooManyChunks) => BAD_CHUNKS,
        NewError::Config(ConfigError::Bulk) => BAD_BULK,
        NewError::Config(ConfigError::NoMemory(_)) | NewError::NoMemory(_) => NO_MEMORY,
    }
}
