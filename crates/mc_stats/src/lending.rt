//! The worker in a counting worker, lent for calls that count nothing.
ghost use Rattle.std.specs.Prelude.{◌≡◌};
ghost use Rattle.std.specs.Borrow.{sem};
ghost use Rattle.mc_stats.specs.Counting.{worker_in};
ghost use Rattle.mc_stats.specs.Lending.{LendsWorker};

use crate::worker::CountingWorker;
use mc_cache::Worker;

impl CountingWorker {
    /// The worker, for calls that aren't counted, as those of `mc_update` and those within n tries. (own)
    pub fn worker_mut(&mut self) -> &mut Worker
        ensures* writes_back { sem 𝓛 (LendsWorker self.entry result) }
        ensures worker { result.now ≡ worker_in self.old }
    {
        &mut self.worker
    }
}
