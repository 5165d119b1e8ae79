//! The cache of bytes for C and Rust: a static library. `include/noddrefil.h` documents each call.
//!
//! A thread has a handle of a worker, and one thread that of the tender. No call waits: where other threads had a lock at each of the tries that
//! the caller gave, the call returns `HELD`, and the caller tries again. No call asks anything of its arguments but that a handle is one that
//! this library filled or zeros, and is given to one call at a time.
#![tactic(auto)]

ghost use Rattle.std.specs.Prelude.{◌≡◌, ◌≢◌, IfSome, None};
ghost use Rattle.mc_cache.specs.Bytes.{cache_bytes};
ghost use Rattle.mc_cache.specs.Opening.{cache_refusal};
ghost use Rattle.mc_cache.specs.Sizing.{sizing_refusal};
ghost use Rattle.mc_c.specs.Calls.{DeletesAs, DeletesVersionAs, GetsAs, GetsVersionAs, ReturnsMostAs, SetsAs, SetsIfAs, SetsOrKeepsAs, TouchesAs};
ghost use Rattle.mc_shard.specs.declared.conditions.When.TheVariants as when;
ghost use Rattle.mc_c.specs.Codes.{refusal_code, sizing_code};
ghost use Rattle.mc_c.specs.Configs.{WritesSized, config_for};
ghost use Rattle.mc_c.specs.Handles.{ActsOn, client_of, tender_of, worker_of};
ghost use Rattle.mc_c.specs.Joining.{JoinsAs};
ghost use Rattle.mc_c.specs.Listing.{ListsAs};
ghost use Rattle.mc_c.specs.Opening.{IsOpeningCode, OpensHandles};
ghost use Rattle.mc_c.specs.TenderCalls.{CountsAs, ReassignsAs, SetsModeAs, TendsAs};
ghost use Rattle.mc_c.specs.Walks.{ClearsAs, CountsItemsAs};

mod calls;
mod client;
mod codes;
mod config;
mod handle;
mod listing;
mod opening;
mod owner;
mod parts;
mod tending;
mod walks;

use client::{Client, JoinError, WorkerClient};
use codes::{BAD_WORKERS, CLOSED, NO_MEMORY, NO_WORKERS, OK, TOO_FEW_BYTES, code_of_new};
pub use config::McConfig;
pub use handle::Handle;
use mc_cache::{Cache, CacheConfig, SizingError, When};
use std::alloc::Global;
pub use tending::{McClassStats, McTended, McTotals};

/// Writes a configuration that takes at most so many bytes, but for the two numbers of the hash.
#[unsafe(no_mangle)]
pub extern "C" fn mc_config_for_bytes(
    config: &mut McConfig,
    bytes: u64,
    usual_item: u64,
    workers: u64,
) -> u32
    ensures code { result ≡ sizing_code (sizing_refusal bytes usual_item workers) }
    ensures sized { sizing_refusal bytes usual_item workers ≡ None →
        WritesSized bytes workers config.old config.new }
    ensures kept { IfSome (sizing_refusal bytes usual_item workers) (λ error.
        config.new ≡ config.old) }
{
    match CacheConfig::for_bytes(bytes, usual_item, workers) {
        Ok(sized) => {
            config.set(&sized);
            OK
        }
        Err(SizingError::Workers) => BAD_WORKERS,
        Err(SizingError::TooFewBytes) => TOO_FEW_BYTES,
    }
}

/// Writes how many bytes `mc_open` asks for and keeps.
#[unsafe(no_mangle)]
pub extern "C" fn mc_bytes(config: &McConfig, workers: u64, bytes: &mut u64) -> u32
    ensures code { result ≡ refusal_code (cache_refusal (config_for config.now workers)) }
    ensures bytes { cache_refusal (config_for config.now workers) ≡ None →
        bytes.new ≡ cache_bytes (config_for config.now workers) }
    ensures kept { IfSome (cache_refusal (config_for config.now workers)) (λ error.
        bytes.new ≡ bytes.old) }
{
    match Cache::bytes(&config.for_workers(workers)) {
        Ok(count) => {
            *bytes = count;
            OK
        }
        Err(error) => code_of_new(error),
    }
}

/// Makes a cache for so many workers, its first worker, and its tender. Where none is made, both handles are as before.
#[unsafe(no_mangle)]
pub extern "C" fn mc_open(
    alloc: Global,
    config: &McConfig,
    workers: u64,
    first: &mut Handle,
    tender: &mut Handle,
) -> u32
    ensures opens { result ≡ 0 → OpensHandles config.now workers first.new tender.new }
    ensures refused { result ≢ 0 →
        IsOpeningCode (cache_refusal (config_for config.now workers)) result }
    ensures kept { result ≢ 0 → (first.new ≡ first.old) × (tender.new ≡ tender.old) }
{
    let (worker, tends) = match opening::open(alloc, config, workers) {
        Ok(made) => made,
        Err(code) => return code,
    };
    let Ok(worker) = Box::new(alloc, Client::Worker(worker)) else {
        return NO_MEMORY;
    };
    let Ok(tends) = Box::new(alloc, Client::Tender(tends)) else {
        return NO_MEMORY;
    };
    *first = Handle::of(worker);
    *tender = Handle::of(tends);
    OK
}

/// Writes the most bytes that a value may have beside a key of this length.
#[unsafe(no_mangle)]
pub extern "C" fn mc_max_value(worker: &mut Handle, key_len: u64, most: &mut u64) -> u32
    ensures acts { ActsOn worker_of (ReturnsMostAs result key_len most.old most.new) result
        worker.old worker.new }
    ensures kept { worker_of worker.old ≡ None → most.new ≡ most.old }
{
    if !worker.is_open() {
        return CLOSED;
    }
    match worker.owner.as_mut() {
        Client::Worker(client) => calls::max_value(client, key_len, most),
        Client::Tender(_) => CLOSED,
    }
}

/// Gives another worker of the cache out.
#[unsafe(no_mangle)]
pub extern "C" fn mc_join(alloc: Global, first: &mut Handle, out: &mut Handle) -> u32
    ensures acts { ActsOn worker_of (JoinsAs result out.old out.new) result first.old first.new }
    ensures kept { worker_of first.old ≡ None → out.new ≡ out.old }
{
    if !first.is_open() {
        return CLOSED;
    }
    match first.owner.as_mut() {
        Client::Worker(client) => join(alloc, client, out),
        Client::Tender(_) => CLOSED,
    }
}

// Puts another worker of the client's cache there.
fn join(alloc: Global, client: &mut WorkerClient, out: &mut Handle) -> u32
    ensures { JoinsAs result out.old out.new client.old client.new }
{
    match client.join(alloc) {
        Ok(boxed) => {
            *out = Handle::of(boxed);
            OK
        }
        Err(JoinError::NoMemory) => NO_MEMORY,
        Err(JoinError::NoWorkers) => NO_WORKERS,
    }
}

/// Copies the key's value.
#[unsafe(no_mangle)]
pub extern "C" fn mc_get(
    worker: &mut Handle,
    key: &[u8],
    tries: u64,
    out: &mut [u8],
    len: &mut u64,
) -> u32
    ensures acts { ActsOn worker_of (GetsAs result tries key.now out.old len.old out.new len.new)
        result worker.old worker.new }
    ensures kept { worker_of worker.old ≡ None → (out.new ≡ out.old) × (len.new ≡ len.old) }
{
    if !worker.is_open() {
        return CLOSED;
    }
    match worker.owner.as_mut() {
        Client::Worker(client) => calls::get(client, key, tries, out, len),
        Client::Tender(_) => CLOSED,
    }
}

/// Stores the value under the key.
#[unsafe(no_mangle)]
pub extern "C" fn mc_set(worker: &mut Handle, key: &[u8], value: &[u8], tries: u64) -> u32
    ensures acts { ActsOn worker_of (SetsAs result tries key.now value.now) result worker.old
        worker.new }
{
    if !worker.is_open() {
        return CLOSED;
    }
    match worker.owner.as_mut() {
        Client::Worker(client) => calls::set(client, key, value, tries),
        Client::Tender(_) => CLOSED,
    }
}

/// Stores the value under the key, and keeps the old one where that is refused.
#[unsafe(no_mangle)]
pub extern "C" fn mc_set_or_keep(worker: &mut Handle, key: &[u8], value: &[u8], tries: u64) -> u32
    ensures acts { ActsOn worker_of (SetsOrKeepsAs result tries key.now value.now) result
        worker.old worker.new }
{
    if !worker.is_open() {
        return CLOSED;
    }
    match worker.owner.as_mut() {
        Client::Worker(client) => calls::set_or_keep(client, key, value, tries),
        Client::Tender(_) => CLOSED,
    }
}

/// Stores the value under the key, where the key has none.
#[unsafe(no_mangle)]
pub extern "C" fn mc_add(worker: &mut Handle, key: &[u8], value: &[u8], tries: u64) -> u32
    ensures acts { ActsOn worker_of (SetsIfAs result tries key.now value.now when.Absent) result
        worker.old worker.new }
{
    set_if(worker, key, value, When::Absent, tries)
}

/// Stores the value under the key, where the key has one.
#[unsafe(no_mangle)]
pub extern "C" fn mc_replace(worker: &mut Handle, key: &[u8], value: &[u8], tries: u64) -> u32
    ensures acts { ActsOn worker_of (SetsIfAs result tries key.now value.now when.Present) result
        worker.old worker.new }
{
    set_if(worker, key, value, When::Present, tries)
}

/// Stores the value under the key, where the key's value has this version.
#[unsafe(no_mangle)]
pub extern "C" fn mc_compare_and_set(
    worker: &mut Handle,
    key: &[u8],
    value: &[u8],
    version: u64,
    tries: u64,
) -> u32
    ensures acts { ActsOn worker_of (SetsIfAs result tries key.now value.now
        (when.Version version)) result worker.old worker.new }
{
    set_if(worker, key, value, When::Version(version), tries)
}

// Stores the value under the key on a condition.
fn set_if(worker: &mut Handle, key: &[u8], value: &[u8], when: When, tries: u64) -> u32
    ensures { ActsOn worker_of (SetsIfAs result tries key.now value.now when) result worker.old
        worker.new }
{
    if !worker.is_open() {
        return CLOSED;
    }
    match worker.owner.as_mut() {
        Client::Worker(client) => calls::set_if(client, key, value, when, tries),
        Client::Tender(_) => CLOSED,
    }
}

/// Copies the key's value, and writes its version.
#[unsafe(no_mangle)]
pub extern "C" fn mc_get_with_version(
    worker: &mut Handle,
    key: &[u8],
    tries: u64,
    out: &mut [u8],
    len: &mut u64,
    version: &mut u64,
) -> u32
    ensures acts { ActsOn worker_of (GetsVersionAs result tries key.now out.old len.old version.old
        out.new len.new version.new) result worker.old worker.new }
    ensures kept { worker_of worker.old ≡ None → (out.new ≡ out.old) × (len.new ≡ len.old)
        × (version.new ≡ version.old) }
{
    if !worker.is_open() {
        return CLOSED;
    }
    match worker.owner.as_mut() {
        Client::Worker(client) => { calls::get_with_version(client, key, tries, out, len, version) }
        Client::Tender(_) => CLOSED,
    }
}

/// Deletes the key.
#[unsafe(no_mangle)]
pub extern "C" fn mc_delete(worker: &mut Handle, key: &[u8], tries: u64) -> u32
    ensures acts { ActsOn worker_of (DeletesAs result tries key.now) result worker.old worker.new }
{
    if !worker.is_open() {
        return CLOSED;
    }
    match worker.owner.as_mut() {
        Client::Worker(client) => calls::delete(client, key, tries),
        Client::Tender(_) => CLOSED,
    }
}

/// Deletes the key's value, where it has this version.
#[unsafe(no_mangle)]
pub extern "C" fn mc_compare_and_delete(
    worker: &mut Handle,
    key: &[u8],
    version: u64,
    tries: u64,
) -> u32
    ensures acts { ActsOn worker_of (DeletesVersionAs result tries key.now version) result
        worker.old worker.new }
{
    if !worker.is_open() {
        return CLOSED;
    }
    match worker.owner.as_mut() {
        Client::Worker(client) => calls::delete_version(client, key, version, tries),
        Client::Tender(_) => CLOSED,
    }
}

/// Makes the key's item the newest of its class.
#[unsafe(no_mangle)]
pub extern "C" fn mc_touch(worker: &mut Handle, key: &[u8], tries: u64) -> u32
    ensures acts { ActsOn worker_of (TouchesAs result tries key.now) result worker.old worker.new }
{
    if !worker.is_open() {
        return CLOSED;
    }
    match worker.owner.as_mut() {
        Client::Worker(client) => calls::touch(client, key, tries),
        Client::Tender(_) => CLOSED,
    }
}

/// Deletes every key of the cache.
#[unsafe(no_mangle)]
pub extern "C" fn mc_clear(worker: &mut Handle, tries: u64, count: &mut u64) -> u32
    ensures acts { ActsOn worker_of (ClearsAs result tries count.old count.new) result worker.old
        worker.new }
    ensures kept { worker_of worker.old ≡ None → count.new ≡ count.old }
{
    if !worker.is_open() {
        return CLOSED;
    }
    match worker.owner.as_mut() {
        Client::Worker(client) => walks::clear(client, tries, count),
        Client::Tender(_) => CLOSED,
    }
}

/// Counts the items of the cache.
#[unsafe(no_mangle)]
pub extern "C" fn mc_len(worker: &mut Handle, tries: u64, count: &mut u64) -> u32
    ensures acts { ActsOn worker_of (CountsItemsAs result tries count.old count.new) result
        worker.old worker.new }
    ensures kept { worker_of worker.old ≡ None → count.new ≡ count.old }
{
    if !worker.is_open() {
        return CLOSED;
    }
    match worker.owner.as_mut() {
        Client::Worker(client) => walks::len(client, tries, count),
        Client::Tender(_) => CLOSED,
    }
}

/// Copies the keys of a part of the cache, each behind a byte with its length.
#[unsafe(no_mangle)]
pub extern "C" fn mc_keys(
    alloc: Global,
    worker: &mut Handle,
    shard: u64,
    stripe: u64,
    tries: u64,
    out: &mut [u8],
    len: &mut u64,
) -> u32
    ensures acts { ActsOn worker_of (ListsAs result tries shard stripe out.old len.old out.new
        len.new) result worker.old worker.new }
    ensures kept { worker_of worker.old ≡ None → (out.new ≡ out.old) × (len.new ≡ len.old) }
{
    if !worker.is_open() {
        return CLOSED;
    }
    match worker.owner.as_mut() {
        Client::Worker(client) => listing::keys(alloc, client, shard, stripe, tries, out, len),
        Client::Tender(_) => CLOSED,
    }
}

/// Tends each shard.
#[unsafe(no_mangle)]
pub extern "C" fn mc_tend(tender: &mut Handle, tries: u64, done: &mut McTended) -> u32
    ensures acts { ActsOn tender_of (TendsAs result tries done.old done.new) result tender.old
        tender.new }
    ensures kept { tender_of tender.old ≡ None → done.new ≡ done.old }
{
    if !tender.is_open() {
        return CLOSED;
    }
    match tender.owner.as_mut() {
        Client::Tender(client) => tending::tend(client, tries, done),
        Client::Worker(_) => CLOSED,
    }
}

/// Writes what the classes of all shards have together.
#[unsafe(no_mangle)]
pub extern "C" fn mc_stats(
    tender: &mut Handle,
    tries: u64,
    totals: &mut McTotals,
    classes: &mut [McClassStats],
    count: &mut u64,
) -> u32
    ensures acts { ActsOn tender_of (CountsAs result tries totals.old classes.old count.old
        totals.new classes.new count.new) result tender.old tender.new }
    ensures kept { tender_of tender.old ≡ None → (totals.new ≡ totals.old)
        × (classes.new ≡ classes.old) × (count.new ≡ count.old) }
{
    if !tender.is_open() {
        return CLOSED;
    }
    match tender.owner.as_mut() {
        Client::Tender(client) => tending::stats(client, tries, totals, classes, count),
        Client::Worker(_) => CLOSED,
    }
}

/// Sets the mode of all shards' automovers.
#[unsafe(no_mangle)]
pub extern "C" fn mc_automove(tender: &mut Handle, mode: u64, tries: u64) -> u32
    ensures acts { ActsOn tender_of (SetsModeAs result tries mode) result tender.old tender.new }
{
    if !tender.is_open() {
        return CLOSED;
    }
    match tender.owner.as_mut() {
        Client::Tender(client) => tending::set_automove(client, mode, tries),
        Client::Worker(_) => CLOSED,
    }
}

/// Begins a move of a page of one shard.
#[unsafe(no_mangle)]
pub extern "C" fn mc_reassign(
    tender: &mut Handle,
    shard: u64,
    src: u64,
    dst: u64,
    tries: u64,
) -> u32
    ensures acts { ActsOn tender_of (ReassignsAs result tries shard src dst) result tender.old
        tender.new }
{
    if !tender.is_open() {
        return CLOSED;
    }
    match tender.owner.as_mut() {
        Client::Tender(client) => tending::reassign(client, shard, src, dst, tries),
        Client::Worker(_) => CLOSED,
    }
}

/// Closes a handle of a worker or of the tender. The last one frees the cache.
#[unsafe(no_mangle)]
pub extern "C" fn mc_close(alloc: Global, handle: &mut Handle) -> u32
    ensures closed { client_of handle.new ≡ None }
    ensures open { handle.old.state ≡ 1 → result ≡ 0 }
    ensures other { handle.old.state ≢ 1 → result ≡ 9 }
{
    if handle.close(alloc) { OK } else { CLOSED }
}
