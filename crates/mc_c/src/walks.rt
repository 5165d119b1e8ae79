//! Calls by a worker that walk over the whole cache.
ghost use Rattle.mc_c.specs.Walks.{ClearsAs, CountsItemsAs, WritesStop};

use crate::client::WorkerClient;
use crate::codes::{HELD, NO_MEMORY, OK};
use mc_cache::ClearWithinError;

/// Deletes every key of the cache, and writes how many it deleted, also where it stopped at a lock.
pub(crate) fn clear(client: &mut WorkerClient, tries: u64, count: &mut u64) -> u32
    ensures { ClearsAs result tries count.old count.new client.old client.new }
{
    match client.worker.clear_within(&client.cache, tries) {
        Ok(cleared) => {
            *count = cleared;
            OK
        }
        Err(error) => stop(error, count),
    }
}

// The code of a clear that stopped. Where it stopped at a lock, it writes how many keys were deleted before.
fn stop(error: ClearWithinError, count: &mut u64) -> u32
    ensures { WritesStop error result count.old count.new }
{
    match error {
        ClearWithinError::NoMemory(_) => NO_MEMORY,
        ClearWithinError::Held(deleted) => {
            *count = deleted;
            HELD
        }
    }
}

/// Writes how many items the cache has.
pub(crate) fn len(client: &mut WorkerClient, tries: u64, count: &mut u64) -> u32
    ensures { CountsItemsAs result tries count.old count.new client.old client.new }
{
    match client.worker.len_within(&client.cache, tries) {
        Ok(items) => {
            *count = items;
            OK
        }
        Err(_) => HELD,
    }
}
