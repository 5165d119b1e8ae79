//! Two keys that a worker gets, and how many of the two gets hit.
ghost use Rattle.std.specs.Prelude.{◌≡◌, ◌≤◌};
ghost use Rattle.mc_cache.specs.Belonging.{BelongsTo};
ghost use Rattle.example_calls.specs.Counted.{GetsBothValues};

use mc_cache::{Cache, Worker};
use mc_stats::CountingWorker;
use std::sync::Wait;

/// Gets two keys, and returns the worker and how many of the two gets hit. Where both did, the bytes got the first key's value, and then the
/// second one's.
pub fn get_both<R: Wait>(
    rt: &R,
    cache: &Cache,
    worker: Worker,
    first: &[u8],
    second: &[u8],
    into: &mut Vec<u8>,
) -> (Worker, u64)
    requires { BelongsTo cache.now worker }
    ensures belongs { BelongsTo cache.now result.0 }
    ensures most { result.1 ≤ 2 }
    ensures both { result.1 ≡ 2 → GetsBothValues cache.now first.now second.now into.old.items
        into.new.items worker result.0 }
{
    let mut counting = CountingWorker::new(worker);
    let _first = counting.get(rt, cache, first, into);
    let _second = counting.get(rt, cache, second, into);
    let (worker, counts) = counting.into_parts();
    (worker, counts.get_hits)
}
