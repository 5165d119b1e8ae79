//! A stock from which workers take one by one.
ghost use Rattle.std.specs.Prelude.{◌≡◌, ℕ, Ok, Some};
ghost use Rattle.mc_cache.specs.Belonging.{BelongsTo};
ghost use Rattle.mc_cache.specs.Shards.{IsKey};
ghost use Rattle.example_calls.specs.Stocked.{TakesOne};

use mc_cache::{Cache, Worker, conditions_are_met};
use mc_update::{ChangeError, Updater};
use std::sync::Wait;

/// Takes one from the number that the key's value writes, and returns what is left, 0 also where nothing was left before. The value that it
/// counted down is the one that the new value took the place of: no two workers take the same one.
pub fn take_one<R: Wait>(
    rt: &R,
    cache: &Cache,
    worker: &mut Worker,
    updater: &mut Updater,
    key: &[u8],
) -> Result<Option<u64>, ChangeError>
    requires belongs { BelongsTo cache.now worker.old }
    requires key { IsKey key.now }
    ensures belongs { BelongsTo cache.now worker.new }
    ensures takes { (n : ℕ) → result ≡ Ok (Some n) → TakesOne cache.now key.now n worker.new }
{
    conditions_are_met();
    updater.decrement(rt, cache, worker, key, 1)
}
