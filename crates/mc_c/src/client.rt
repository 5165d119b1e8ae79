//! What a handle leads to: a cache that threads share, and one thread's worker, or the tender.
ghost use Rattle.std.specs.Arc.{arc_value};
ghost use Rattle.std.specs.List.{All};
ghost use Rattle.mc_cache.specs.Resting.{RestsIn, TenderRestsIn};

use mc_cache::{Cache, Tender, Worker};
use std::alloc::Global;
use std::sync::Arc;

/// A worker, with the cache that it belongs to.
#[derive(Drop)]
pub(crate) struct WorkerClient {
    pub(crate) cache: Arc<Cache>,
    pub(crate) worker: Worker,
    /// Workers that no thread has yet. The first worker has them.
    pub(crate) spare: Vec<Worker>,
    /// Room for a value, which is used again.
    pub(crate) value: Vec<u8>,
    ghost rests: { RestsIn (arc_value cache) worker },
    ghost spares: { All (RestsIn (arc_value cache)) spare.items },
}

/// The tender, with the cache that it tends.
#[derive(Drop)]
pub(crate) struct TenderClient {
    pub(crate) cache: Arc<Cache>,
    pub(crate) tender: Tender,
    ghost rests: { TenderRestsIn (arc_value cache) tender },
}

/// What a handle owns.
#[derive(Drop)]
pub(crate) enum Client {
    Worker(WorkerClient),
    Tender(TenderClient),
}

impl WorkerClient {
    ghost use Rattle.std.specs.Prelude.{◌≡◌, ◌<◌, ◌++◌, ◌∷◌, [], Err, IfOk, OnErr, vec_capacity, vec_len};
    ghost use Rattle.mc_cache.specs.Resting.{RestsIn};
    ghost use Rattle.mc_c.specs.Calls.{cache_of};
    ghost use Rattle.mc_c.specs.Joining.{Joins, KeepsWorker};
    ghost use Rattle.mc_c.specs.declared.client.Client.TheVariants as clients;
    ghost use Rattle.mc_c.specs.declared.client.WorkerClient.{WorkerClient};
    ghost use Rattle.mc_c.specs.declared.client.JoinError.TheVariants as join_error;

    /// Another worker of the same cache, in a box, if one is left and there is memory for it. Else all spare workers stay.
    pub(crate) fn join(&mut self, alloc: Global) -> Result<Box<Client>, JoinError>
        ensures joins { IfOk result (λ boxed. (joined : WorkerClient) × (boxed.value ≡ clients.Worker joined)
            × Joins joined self.old self.new) }
        ensures none { result ≡ Err join_error.NoWorkers → self.old.spare.items ≡ [] }
        ensures kept { OnErr result (self.new.spare.items ≡ self.old.spare.items) }
        ensures keeps { KeepsWorker self.old self.new }
    {
        let Ok(cache) = Arc::try_clone(&self.cache) else {
            return Err(JoinError::NoMemory);
        };
        let Some(worker) = self.spare.pop() else {
            return Err(JoinError::NoWorkers);
        };
        let joined = WorkerClient {
            cache,
            worker,
            spare: Vec::new(alloc),
            value: Vec::new(alloc),
        };
        match Box::new(alloc, Client::Worker(joined)) {
            Ok(boxed) => Ok(boxed),
            Err(refused) => {
                self.take_back(refused.value);
                Err(JoinError::NoMemory)
            }
        }
    }

    // Takes the worker back of a client that has no box. The vector has room for it.
    fn take_back(&mut self, client: Client)
        requires cache { (joined : WorkerClient) → client ≡ clients.Worker joined →
            cache_of joined ≡ cache_of self.old }
        requires room { vec_len self.old.spare < vec_capacity self.old.spare }
        ensures spare { (joined : WorkerClient) → client ≡ clients.Worker joined →
            self.new.spare.items ≡ self.old.spare.items ++ joined.worker ∷ [] }
        ensures keeps { KeepsWorker self.old self.new }
    {
        match client {
            Client::Worker(joined) => {
                let WorkerClient {
                    cache: _cache,
                    worker,
                    spare: _spare,
                    value: _value,
                } = joined;
                self.spare.push_reserved(worker);
            }
            Client::Tender(_tender) => {}
        }
    }
}

/// Why no worker joined.
#[derive(Drop)]
pub(crate) enum JoinError {
    /// Memory was refused, and the worker stays with the first one.
    NoMemory,
    /// All workers were given out.
    NoWorkers,
}
