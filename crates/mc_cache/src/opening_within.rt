//! The making of a cache by a caller that can't wait. (own)
ghost use Rattle.std.specs.Prelude.{◌≡◌, ◌+◌, [], All, IfOk, IfSome, Ok, length, true};
ghost use Rattle.mc_words.specs.hand.Arenas.{setup_of};
ghost use Rattle.mc_words.specs.hand.Hands.{IsMadeWith};
ghost use Rattle.mc_cache.specs.Belonging.{HaveUnusedHands};
ghost use Rattle.mc_cache.specs.Bytes.{config_table_bytes, table_bytes};
ghost use Rattle.mc_cache.specs.Observers.{arenas_of, hash_key, shard_count};
ghost use Rattle.mc_cache.specs.Opening.{AreNewShards, IsNewShard, KeepsNoHistory, cache_refusal};
ghost use Rattle.mc_cache.specs.OpeningWithin.{RefusesOpening};
ghost use Rattle.mc_cache.specs.Pairs.{ArePaired};
ghost use Rattle.mc_cache.specs.Resting.{RestsIn, TenderRestsIn};
ghost use Rattle.mc_cache.specs.Shards.{AreUnusedHands, AreUnusedHandsOf};
ghost use Rattle.mc_cache.specs.Tending.{IsFreshDecider, deciders_of, tender_hands};

use crate::bytes::hint_place_count;
use crate::cache::{Cache, Worker};
use crate::hashing::{HashKey, KeyedHasher};
use crate::opening::{CacheConfig, NewError, add_workers, deal, make_deciders, test};
use crate::tending::Tender;
use mc_memory::{Refused, push, with_capacity};
use mc_mover::forget_within;
use mc_shard::HintTable;
use mc_words::{Arena, Hand};
use std::alloc::Global;
use thiserror::Error;

/// Why no cache was made by a caller that doesn't wait.
#[derive(Debug, PartialEq, Eq, Drop, Error)]
pub enum NewWithinError {
    /// For a reason that a caller that waits has, too.
    #[error("{0}")]
    Refused(NewError),
    /// Each try for a lock of a new arena missed. Nobody has such a lock yet, so this doesn't come where one try at least is made; no clause
    /// states it.
    #[error("each try for a lock of a new arena missed")]
    Held,
}

impl Cache {
    /// The same as `new`, but it tries for each lock of a new arena `tries` times at most, and doesn't wait. The workers and the tender may
    /// lie in structs. (own)
    pub fn new_within(
        alloc: Global,
        config: &CacheConfig,
        hashing: HashKey,
        tries: u64,
    ) -> Result<(Cache, Vec<Worker>, Tender), NewWithinError>
        ensures shards { IfOk result (λ made. shard_count made.0 ≡ config.now.shards) }
        ensures workers { IfOk result (λ made. length made.1.items ≡ config.now.workers) }
        ensures hashing { IfOk result (λ made. hash_key made.0 ≡ hashing) }
        ensures rests { IfOk result (λ made. All (RestsIn made.0) made.1.items) }
        ensures tender { IfOk result (λ made. TenderRestsIn made.0 made.2) }
        ensures deciders { IfOk result (λ made. ArePaired IsFreshDecider (arenas_of made.0)
            (deciders_of made.2)) }
        ensures arenas { IfOk result (λ made. All (IsNewShard config.now) (arenas_of made.0)) }
        ensures empty { IfOk result (λ made. HaveUnusedHands (arenas_of made.0) made.1.items
            × AreUnusedHands (arenas_of made.0) (tender_hands made.2)) }
        ensures bytes { IfOk result (λ made. table_bytes made.0 ≡ config_table_bytes config.now) }
        ensures refused { RefusesOpening config.now result }
    {
        if let Err(error) = test(config) {
            return Err(NewWithinError::Refused(error));
        }
        let places = hint_place_count(config);
        let hints = match HintTable::new(alloc, places) {
            Ok(hints) => hints,
            Err(refused) => return Err(NewWithinError::Refused(NewError::NoMemory(refused))),
        };
        match open_within(alloc, config, tries) {
            Ok(Some((arenas, workers, tender))) => {
                let hashing = KeyedHasher::new(hashing);
                let cache = Cache {
                    arenas,
                    hashing,
                    hints,
                };
                Ok((cache, workers, tender))
            }
            Ok(None) => Err(NewWithinError::Held),
            Err(refused) => Err(NewWithinError::Refused(NewError::NoMemory(refused))),
        }
    }
}

// The arenas, the workers, and the tender, who has the hands of one worker more. None where each try for a lock missed.
fn open_within(
    alloc: Global,
    config: &CacheConfig,
    tries: u64,
) -> Result<Option<(Vec<Arena>, Vec<Worker>, Tender)>, Refused>
    requires accepted { cache_refusal config.now ≡ None }
    ensures shards { IfOk result (λ opened. IfSome opened (λ made.
        length made.0.items ≡ config.now.shards)) }
    ensures count { IfOk result (λ opened. IfSome opened (λ made.
        length made.1.items ≡ config.now.workers)) }
    ensures hands { IfOk result (λ opened. IfSome opened (λ made.
        HaveUnusedHands made.0.items made.1.items)) }
    ensures tender { IfOk result (λ opened. IfSome opened (λ made.
        AreUnusedHands made.0.items (tender_hands made.2))) }
    ensures deciders { IfOk result (λ opened. IfSome opened (λ made.
        ArePaired IsFreshDecider made.0.items (deciders_of made.2))) }
    ensures new { IfOk result (λ opened. IfSome opened (λ made.
        All (IsNewShard config.now) made.0.items)) }
{
    let mut arenas = with_capacity(alloc, config.shards as usize)?;
    let mut workers = with_capacity(alloc, config.workers as usize + 1)?;
    if !fill_within(alloc, config, &mut arenas, &mut workers, tries)? {
        return Ok(None);
    }
    let deciders = make_deciders(alloc, &arenas)?;
    let Some(worker) = workers.pop() else {
        unreachable!();
    };
    let tender = Tender {
        worker,
        deciders,
        alloc,
    };
    Ok(Some((arenas, workers, tender)))
}

// Makes the workers, and then a shard after the other, up to the first for whose locks each try missed.
#[tactic(auto, using(crate::proofs::Opened::no_arenas))]
fn fill_within(
    alloc: Global,
    config: &CacheConfig,
    arenas: &mut Vec<Arena>,
    workers: &mut Vec<Worker>,
    tries: u64,
) -> Result<bool, Refused>
    requires accepted { cache_refusal config.now ≡ None }
    requires no_arenas { arenas.old.items ≡ [] }
    requires no_workers { workers.old.items ≡ [] }
    ensures shards { result ≡ Ok true → length arenas.new.items ≡ config.now.shards }
    ensures count { result ≡ Ok true → length workers.new.items ≡ config.now.workers + 1 }
    ensures hands { result ≡ Ok true → HaveUnusedHands arenas.new.items workers.new.items }
    ensures new { result ≡ Ok true → All (IsNewShard config.now) arenas.new.items }
{
    add_workers(alloc, config.workers + 1, config.shards, workers)?;
    for _ in 0..config.shards {
        if !add_shard_within(alloc, config, arenas, workers, tries)? {
            return Ok(false);
        }
    }
    Ok(true)
}

// One arena more, which keeps no history, and one hand of it more for each worker. None where each try for one of its locks missed.
fn add_shard_within(
    alloc: Global,
    config: &CacheConfig,
    arenas: &mut Vec<Arena>,
    workers: &mut Vec<Worker>,
    tries: u64,
) -> Result<bool, Refused>
    requires count { length workers.old.items ≡ config.now.workers + 1 }
    requires hands { HaveUnusedHands arenas.old.items workers.old.items }
    requires shards { AreNewShards config.now arenas.old.items }
    ensures arenas { result ≡ Ok true → length arenas.new.items ≡ length arenas.old.items + 1 }
    ensures count { result ≡ Ok true → length workers.new.items ≡ config.now.workers + 1 }
    ensures hands { result ≡ Ok true → HaveUnusedHands arenas.new.items workers.new.items }
    ensures new { result ≡ Ok true → All (IsNewShard config.now) arenas.new.items }
{
    let Some((arena, mut hands)) = open_arena_within(alloc, config, tries)? else {
        return Ok(false);
    };
    push(arenas, arena)?;
    deal(arenas.as_slice(), workers.as_mut_slice(), &mut hands)?;
    Ok(true)
}

// An arena that keeps no history, and its hands. None where each try for one of its locks missed.
fn open_arena_within(
    alloc: Global,
    config: &CacheConfig,
    tries: u64,
) -> Result<Option<(Arena, Vec<Hand>)>, Refused>
    requires { cache_refusal config.now ≡ None }
    ensures count { IfOk result (λ opened. IfSome opened (λ made.
        length made.1.items ≡ config.now.workers + 1)) }
    ensures hands { IfOk result (λ opened. IfSome opened (λ made.
        AreUnusedHandsOf made.0 made.1.items)) }
    ensures made { IfOk result (λ opened. IfSome opened (λ made.
        IsMadeWith config.now.arena (config.now.workers + 1) 0 (setup_of made.0))) }
    ensures history { IfOk result (λ opened. IfSome opened (λ made. KeepsNoHistory made.0)) }
{
    let (arena, mut hands) = match Arena::new(alloc, &config.arena, config.workers + 1) {
        Ok(made) => made,
        Err(mc_words::NewError::NoMemory(refused)) => return Err(refused),
        Err(_) => unreachable!(),
    };
    match forget_within(&arena, &mut hands[0], tries) {
        Ok(()) => Ok(Some((arena, hands))),
        Err(_) => Ok(None),
    }
}
