//! A worker that lies in a struct between calls, and calls that don't wait.
ghost use Rattle.std.specs.Prelude.{◌≡◌, false};
ghost use Rattle.mc_cache.specs.Resting.{RestsIn};

use mc_cache::{Cache, Worker};

/// A worker with its cache. A fact of the struct says that the worker rests in the cache, so each call may begin anew.
#[derive(Drop)]
pub struct Client {
    cache: Cache,
    worker: Worker,
    ghost rests: { RestsIn cache worker },
}

impl Client {
    /// A client of these two.
    pub fn new(cache: Cache, worker: Worker) -> Client
        requires rests { RestsIn cache worker }
    {
        Client { cache, worker }
    }

    /// Stores the value under the key within eight tries for each lock, and returns whether it did.
    pub fn store(&mut self, key: &[u8], value: &[u8]) -> bool {
        self.worker.set_within(&self.cache, key, value, 8).is_ok()
    }

    /// Puts the key's value behind the bytes that are there, within eight tries for the lock, and returns whether it did. Where it didn't, the
    /// bytes stay.
    pub fn find(&mut self, key: &[u8], into: &mut Vec<u8>) -> bool
        ensures kept { result ≡ false → into.new.items ≡ into.old.items }
    {
        matches!(self.worker.get_within(&self.cache, key, 8, into), Ok(true))
    }
}
