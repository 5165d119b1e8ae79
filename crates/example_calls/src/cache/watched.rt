//! A tender that returns what the classes have.
ghost use Rattle.std.specs.Prelude.{IfOk};
ghost use Rattle.mc_cache.specs.Tending.{IsTenderOf};
ghost use Rattle.example_calls.specs.Cached.{TendsAndTells};

use mc_cache::{Cache, CacheStats, Tender};
use mc_memory::Refused;
use std::sync::Wait;

/// Has sets that evict ask for pages, too, does a window, and returns what all classes have then.
pub fn tend_and_tell<R: Wait>(
    rt: &R,
    cache: &Cache,
    tender: &mut Tender,
) -> Result<CacheStats, Refused>
    requires { IsTenderOf cache.now tender.old }
    ensures belongs { IsTenderOf cache.now tender.new }
    ensures tells { IfOk result (TendsAndTells cache.now tender.old tender.new) }
{
    tender.set_automove(rt, cache, 2);
    let _done = tender.tend(rt, cache)?;
    tender.stats(rt, cache)
}
