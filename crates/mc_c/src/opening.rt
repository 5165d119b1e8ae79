//! The making of a cache, of its first worker, and of its tender.
ghost use Rattle.std.specs.Prelude.{IfErr, IfOk};
ghost use Rattle.mc_cache.specs.Opening.{cache_refusal};
ghost use Rattle.mc_c.specs.Configs.{config_for};
ghost use Rattle.mc_c.specs.Opening.{IsOpeningCode, OpensCache};

use crate::client::{TenderClient, WorkerClient};
use crate::codes::{HELD, NO_MEMORY, code_of_new};
use crate::config::McConfig;
use mc_cache::{Cache, NewWithinError};
use std::alloc::Global;
use std::sync::Arc;

/// How often a lock of a new arena is tried for. Nobody else has it.
const OPENING_TRIES: u64 = 1;

/// Makes a cache, its first worker, who has the others until they join, and its tender.
pub(crate) fn open(
    alloc: Global,
    config: &McConfig,
    workers: u64,
) -> Result<(WorkerClient, TenderClient), u32>
    ensures opens { IfOk result (λ made. OpensCache config.now workers made.0 made.1) }
    ensures refused { IfErr result (λ code. IsOpeningCode
        (cache_refusal (config_for config.now workers)) code) }
{
    let own = config.for_workers(workers);
    let (cache, workers, tender) = match Cache::new_within(
        alloc,
        &own,
        config.hash_key(),
        OPENING_TRIES,
    ) {
        Ok(made) => made,
        Err(NewWithinError::Refused(error)) => return Err(code_of_new(error)),
        Err(NewWithinError::Held) => return Err(HELD),
    };
    let Ok(cache) = Arc::new(alloc, cache) else {
        return Err(NO_MEMORY);
    };
    let Ok(shared) = Arc::try_clone(&cache) else {
        return Err(NO_MEMORY);
    };
    let mut spare = workers;
    let Some(worker) = spare.pop() else {
        unreachable!();
    };
    let first = WorkerClient {
        cache,
        worker,
        spare,
        value: Vec::new(alloc),
    };
    let tender = TenderClient {
        cache: shared,
        tender,
    };
    Ok((first, tender))
}
