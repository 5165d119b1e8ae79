//! The making of a cache with its workers and its tender, and why none is made.
ghost use Rattle.std.specs.Prelude.{◌≡◌, ◌≤◌, ◌+◌, ◌-◌, ◌++◌, ◌∷◌, [], All, IfErr, IfOk, List, None, OnOk, Some, length, slice_index_or, take, unwrap_or};
ghost use Rattle.mc_words.specs.declared.arena.Arena.{Arena};
ghost use Rattle.mc_words.specs.hand.Arenas.{setup_of};
ghost use Rattle.mc_words.specs.hand.Hands.{IsMadeWith};
ghost use Rattle.mc_cache.specs.Belonging.{BelongsTo, HaveUnusedHands};
ghost use Rattle.mc_cache.specs.Observers.{arenas_of, hash_key, shard_count};
ghost use Rattle.mc_cache.specs.Bytes.{config_table_bytes, table_bytes};
ghost use Rattle.mc_cache.specs.Opening.{AreNewShards, IsNewShard, KeepsNoHistory, cache_refusal};
ghost use Rattle.mc_cache.specs.Pairs.{ArePaired};
ghost use Rattle.mc_cache.specs.Tending.{IsFreshDecider, IsTenderOf, deciders_of, tender_hands};
ghost use Rattle.mc_cache.specs.Shards.{AreUnusedHands, AreUnusedHandsOf};
ghost use Rattle.mc_cache.specs.declared.opening.NewError.TheVariants as refused;

use crate::bytes::hint_place_count;
use crate::cache::{Cache, Worker};
use crate::hashing::{HashKey, KeyedHasher};
use crate::tending::Tender;
use mc_classes::{Config, ConfigError, MOST_WORKERS};
use mc_memory::{Refused, push, with_capacity};
use mc_mover::forget;
use mc_shard::HintTable;
use mc_watch::Decider;
use mc_words::{Arena, Hand};
use std::alloc::Global;
use std::sync::Wait;
use thiserror::Error;

/// What a cache is made with.
#[derive(Clone, Copy)]
pub struct CacheConfig {
    /// What each shard's arena is made with.
    pub arena: Config,
    /// How many arenas the cache has, 1 to 4,096.
    pub shards: u64,
    /// How many workers, 1 to 63.
    pub workers: u64,
}

/// Why no cache was made.
#[derive(Debug, PartialEq, Eq, Drop, Error)]
pub enum NewError {
    /// The shards are none, or more than 4,096.
    #[error("the number of shards must be from 1 to 4096")]
    Shards,
    /// The workers are none, or more than 63.
    #[error("the number of workers must be from 1 to 63")]
    Workers,
    /// The arenas' configuration is refused.
    #[error("{0}")]
    Config(ConfigError),
    /// Memory was refused.
    #[error("out of memory")]
    NoMemory(Refused),
}

/// The tests of the configuration, in their order. Nothing is allocated.
pub(crate) fn test(config: &CacheConfig) -> Result<(), NewError>
    ensures accepted { OnOk result (cache_refusal config.now ≡ None) }
    ensures refused { IfErr result (λ error. cache_refusal config.now ≡ Some error) }
{
    if config.shards < 1 || config.shards > 4096 {
        return Err(NewError::Shards);
    }
    if config.workers < 1 || config.workers > MOST_WORKERS {
        return Err(NewError::Workers);
    }
    match config.arena.test() {
        Ok(()) => Ok(()),
        Err(error) => Err(NewError::Config(error)),
    }
}

impl Cache {
    /// A cache in which nothing is stored, its workers, and its tender. Its arenas keep no history. The configuration is refused by the first of its
    /// tests that it fails, before anything is allocated. It waits for locks that nobody has yet.
    pub fn new<R: Wait>(
        rt: &R,
        alloc: Global,
        config: &CacheConfig,
        hashing: HashKey,
    ) -> Result<(Cache, Vec<Worker>, Tender), NewError>
        ensures shards { IfOk result (λ made. shard_count made.0 ≡ config.now.shards) }
        ensures workers { IfOk result (λ made. length made.1.items ≡ config.now.workers) }
        ensures hashing { IfOk result (λ made. hash_key made.0 ≡ hashing) }
        ensures belongs { IfOk result (λ made. All (BelongsTo made.0) made.1.items) }
        ensures tender { IfOk result (λ made. IsTenderOf made.0 made.2) }
        ensures deciders { IfOk result (λ made. ArePaired IsFreshDecider (arenas_of made.0)
            (deciders_of made.2)) }
        ensures arenas { IfOk result (λ made. All (IsNewShard config.now) (arenas_of made.0)) }
        ensures empty { IfOk result (λ made. HaveUnusedHands (arenas_of made.0) made.1.items
            × AreUnusedHands (arenas_of made.0) (tender_hands made.2)) }
        ensures bytes { IfOk result (λ made. table_bytes made.0 ≡ config_table_bytes config.now) }
        ensures refused { IfErr result (λ error. error
            ≡ unwrap_or (cache_refusal config.now) (refused.NoMemory tt)) }
    {
        if let Err(error) = test(config) {
            return Err(error);
        }
        let places = hint_place_count(config);
        let hints = HintTable::new(alloc, places).map_err(NewError::NoMemory)?;
        match open(rt, alloc, config) {
            Ok((arenas, workers, tender)) => {
                let hashing = KeyedHasher::new(hashing);
                let cache = Cache {
                    arenas,
                    hashing,
                    hints,
                };
                Ok((cache, workers, tender))
            }
            Err(refused) => Err(NewError::NoMemory(refused)),
        }
    }
}

// The arenas, the workers, and the tender, who has the hands of one worker more.
fn open<R: Wait>(
    rt: &R,
    alloc: Global,
    config: &CacheConfig,
) -> Result<(Vec<Arena>, Vec<Worker>, Tender), Refused>
    requires accepted { cache_refusal config.now ≡ None }
    ensures shards { IfOk result (λ made. length made.0.items ≡ config.now.shards) }
    ensures count { IfOk result (λ made. length made.1.items ≡ config.now.workers) }
    ensures hands { IfOk result (λ made. HaveUnusedHands made.0.items made.1.items) }
    ensures tender { IfOk result (λ made. AreUnusedHands made.0.items (tender_hands made.2)) }
    ensures deciders { IfOk result (λ made. ArePaired IsFreshDecider made.0.items
        (deciders_of made.2)) }
    ensures new { IfOk result (λ made. All (IsNewShard config.now) made.0.items) }
{
    let mut arenas = with_capacity(alloc, config.shards as usize)?;
    let mut workers = with_capacity(alloc, config.workers as usize + 1)?;
    fill(rt, alloc, config, &mut arenas, &mut workers)?;
    let deciders = make_deciders(alloc, &arenas)?;
    let Some(worker) = workers.pop() else {
        unreachable!();
    };
    let tender = Tender {
        worker,
        deciders,
        alloc,
    };
    Ok((arenas, workers, tender))
}

// A decider for each arena, which was fed no window yet.
pub(crate) fn make_deciders(alloc: Global, arenas: &[Arena]) -> Result<Vec<Decider>, Refused>
    ensures { IfOk result (λ deciders. ArePaired IsFreshDecider arenas.now deciders.items) }
{
    let mut deciders = with_capacity(alloc, arenas.len())?;
    for arena in arenas {
        push(&mut deciders, Decider::new(alloc, arena.classes())?)?;
    }
    Ok(deciders)
}

// Makes the workers, and then a shard after the other.
#[tactic(auto, using(crate::proofs::Opened::no_arenas))]
fn fill<R: Wait>(
    rt: &R,
    alloc: Global,
    config: &CacheConfig,
    arenas: &mut Vec<Arena>,
    workers: &mut Vec<Worker>,
) -> Result<(), Refused>
    requires accepted { cache_refusal config.now ≡ None }
    requires no_arenas { arenas.old.items ≡ [] }
    requires no_workers { workers.old.items ≡ [] }
    ensures shards { OnOk result (length arenas.new.items ≡ config.now.shards) }
    ensures count { OnOk result (length workers.new.items ≡ config.now.workers + 1) }
    ensures hands { OnOk result (HaveUnusedHands arenas.new.items workers.new.items) }
    ensures new { OnOk result (All (IsNewShard config.now) arenas.new.items) }
{
    add_workers(alloc, config.workers + 1, config.shards, workers)?;
    for _ in 0..config.shards {
        add_shard(rt, alloc, config, arenas, workers)?;
    }
    Ok(())
}

// Adds the workers, who have no hands yet, and room for one of each shard.
#[tactic(auto, using(crate::proofs::Opened::one_worker_more))]
pub(crate) fn add_workers(
    alloc: Global,
    count: u64,
    shards: u64,
    workers: &mut Vec<Worker>,
) -> Result<(), Refused>
    requires { workers.old.items ≡ [] }
    ensures count { OnOk result (length workers.new.items ≡ count) }
    ensures hands { OnOk result (HaveUnusedHands [] workers.new.items) }
{
    for _ in 0..count {
        let worker = Worker {
            hands: with_capacity(alloc, shards as usize)?,
            words: Vec::new(alloc),
        };
        push(workers, worker)?;
    }
    Ok(())
}

// One arena more, which keeps no history, and one hand of it more for each worker.
fn add_shard<R: Wait>(
    rt: &R,
    alloc: Global,
    config: &CacheConfig,
    arenas: &mut Vec<Arena>,
    workers: &mut Vec<Worker>,
) -> Result<(), Refused>
    requires count { length workers.old.items ≡ config.now.workers + 1 }
    requires hands { HaveUnusedHands arenas.old.items workers.old.items }
    requires shards { AreNewShards config.now arenas.old.items }
    ensures arenas { OnOk result (length arenas.new.items ≡ length arenas.old.items + 1) }
    ensures count { OnOk result (length workers.new.items ≡ config.now.workers + 1) }
    ensures hands { OnOk result (HaveUnusedHands arenas.new.items workers.new.items) }
    ensures new { OnOk result (All (IsNewShard config.now) arenas.new.items) }
{
    let (arena, mut hands) = open_arena(rt, alloc, config)?;
    match push(arenas, arena) {
        Ok(()) => deal(arenas.as_slice(), workers.as_mut_slice(), &mut hands),
        Err(refused) => Err(refused),
    }
}

// An arena that keeps no history, and its hands.
fn open_arena<R: Wait>(
    rt: &R,
    alloc: Global,
    config: &CacheConfig,
) -> Result<(Arena, Vec<Hand>), Refused>
    requires { cache_refusal config.now ≡ None }
    ensures count { IfOk result (λ made. length made.1.items ≡ config.now.workers + 1) }
    ensures hands { IfOk result (λ made. AreUnusedHandsOf made.0 made.1.items) }
    ensures made { IfOk result (λ made. IsMadeWith config.now.arena (config.now.workers + 1) 0
        (setup_of made.0)) }
    ensures history { IfOk result (λ made. KeepsNoHistory made.0) }
{
    match Arena::new(alloc, &config.arena, config.workers + 1) {
        Ok((arena, mut hands)) => {
            forget(rt, &arena, &mut hands[0]);
            Ok((arena, hands))
        }
        Err(mc_words::NewError::NoMemory(refused)) => Err(refused),
        Err(_) => unreachable!(),
    }
}

// A hand of the last arena for each worker, behind those of the arenas before.
pub(crate) fn deal(
    arenas: &[Arena],
    workers: &mut [Worker],
    hands: &mut Vec<Hand>,
) -> Result<(), Refused>
    requires some { 1 ≤ length arenas.now }
    requires enough { length workers.old ≤ length hands.old.items }
    requires own { (last : Arena) →
        AreUnusedHandsOf (slice_index_or arenas.now (length arenas.now - 1) last) hands.old.items }
    requires workers { HaveUnusedHands (take (length arenas.now - 1) arenas.now) workers.old }
    ensures { OnOk result (HaveUnusedHands arenas.now workers.new) }
{
    for worker in workers.iter_mut() {
        let Some(hand) = hands.pop() else {
            unreachable!();
        };
        push(&mut worker.hands, hand)?;
    }
    Ok(())
}
