//! A cache of squares for one thread, over the typed calls of a keeper.
ghost use Rattle.std.specs.Prelude.{◌<◌, ◌^◌};

use mc_classes::{ClassTable, Config, ConfigError};
use mc_keeper::{Keeper, Refused, Stop};
use std::alloc::Global;

/// Four pages of 1024 bytes, classes of 48, 96, 192 and 512 bytes, and 64 chunks a turn of the mover.
pub const SMALL: Config = Config {
    page: 1024,
    limit: 4096,
    first: 48,
    num: 2,
    den: 1,
    max: 512,
    stripes: 1,
    bulk: 64,
};

/// A cache in which nothing is stored. Its automover acts on windows, which is mode 1.
pub fn small_cache(alloc: Global) -> Result<Keeper, ConfigError> {
    let table = ClassTable::build(alloc, &SMALL)?;
    let keeper = Keeper::new(alloc, table, SMALL.bulk, 1)?;
    Ok(keeper)
}

/// The key's square: from the cache, or else reckoned and kept there, if there is room.
pub fn square(cache: &mut Keeper, key: u64) -> Result<u64, Refused>
    requires { key < 2 ^ 32 }
{
    if let Ok(Some(words)) = cache.get(0, key) {
        if let Some(square) = words.first() {
            return Ok(*square);
        }
    }
    let square = key * key;
    let _stored = cache.set(0, key, &[square])?; // Yes, TooLarge or NoRoom
    Ok(square)
}

/// To be called once a second or so: a window ends, and the mover does a turn.
pub fn tick(cache: &mut Keeper) -> Result<(), Stop> {
    let _acted = cache.window()?; // what the automover decided, and what became of it
    let _turned = cache.turn()?; // how the turn ended, and what it did
    Ok(())
}
