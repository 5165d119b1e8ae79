//! A counter of visits that no worker loses one of.
ghost use Rattle.std.specs.Prelude.{◌≡◌, ℕ, Ok};
ghost use Rattle.mc_cache.specs.Belonging.{BelongsTo};
ghost use Rattle.mc_cache.specs.Shards.{IsKey};
ghost use Rattle.example_calls.specs.Visits.{CountsVisit};

use mc_cache::{Cache, Worker, conditions_are_met};
use mc_update::{ChangeError, Updater};
use std::sync::Wait;

/// Adds one to the number that the key's value writes, and returns the sum. The value that it counted up is the one that the new value
/// took the place of: no visit that another worker counted is lost.
pub fn count_visit<R: Wait>(
    rt: &R,
    cache: &Cache,
    worker: &mut Worker,
    updater: &mut Updater,
    key: &[u8],
) -> Result<Option<u64>, ChangeError>
    requires belongs { BelongsTo cache.now worker.old }
    requires key { IsKey key.now }
    ensures belongs { BelongsTo cache.now worker.new }
    ensures counts { (n : ℕ) → result ≡ Ok (Some n) → CountsVisit cache.now key.now n worker.new }
{
    conditions_are_met();
    updater.increment(rt, cache, worker, key, 1)
}
