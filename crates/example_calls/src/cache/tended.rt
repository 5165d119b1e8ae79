//! A tender that doesn't wait: where it missed no lock, it did what a tender does that waits.
ghost use Rattle.std.specs.Prelude.{IfSome};
ghost use Rattle.mc_cache.specs.Resting.{TenderRestsIn};
ghost use Rattle.mc_cache.specs.Tending.{TendsCache};

use mc_cache::{Cache, Tended, Tender};

/// A window of each shard within n tries for each lock. What was done, where no shard's window ended early.
pub fn tend_whole(cache: &Cache, tender: &mut Tender, tries: u64) -> Option<Tended>
    requires { TenderRestsIn cache.now tender.old }
    ensures rests { TenderRestsIn cache.now tender.new }
    ensures whole { IfSome result (λ done. TendsCache cache.now done tender.old tender.new) }
{
    match tender.tend_within(cache, tries) {
        Ok(done) => {
            if done.held == 0 {
                Some(done.tended)
            } else {
                None
            }
        }
        Err(_) => None,
    }
}
