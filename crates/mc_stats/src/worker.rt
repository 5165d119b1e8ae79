//! A worker beside the counts of its calls.
ghost use Rattle.std.specs.Prelude.{◌≡◌};
ghost use Rattle.mc_stats.specs.Counting.{counts_in_worker, worker_in};
ghost use Rattle.mc_stats.specs.Counts.{no_calls};

use crate::counts::Counts;
use mc_cache::Worker;

/// A worker that counts its calls. It belongs to one thread, as the worker does, so no count needs a lock or an atomic step.
#[derive(Drop)]
pub struct CountingWorker {
    pub(crate) worker: Worker,
    pub(crate) counts: Counts,
}

impl CountingWorker {
    /// Counts the calls of this worker from now on.
    pub fn new(worker: Worker) -> CountingWorker
        ensures worker { worker_in result ≡ worker }
        ensures none { counts_in_worker result ≡ no_calls }
    {
        CountingWorker {
            worker,
            counts: Counts::new(),
        }
    }

    /// The counts so far.
    pub fn counts(&self) -> Counts
        ensures { result ≡ counts_in_worker self.now }
    {
        self.counts
    }

    /// The worker, and the counts of its calls.
    pub fn into_parts(self) -> (Worker, Counts)
        ensures worker { result.0 ≡ worker_in self }
        ensures counts { result.1 ≡ counts_in_worker self }
    {
        let CountingWorker { worker, counts } = self;
        (worker, counts)
    }
}
