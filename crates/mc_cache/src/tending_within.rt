//! The calls of a tender that tries for each lock n times, and doesn't wait. A tender may lie in a struct between them. A caller that can't wait
//! uses these calls: a static library can't. (own)
ghost use Rattle.std.specs.Prelude.{◌≡◌};
ghost use Rattle.mc_cache.specs.TendingWithin.{nothing_within, with_shard_window};

use crate::cache::Cache;
use crate::resting::recall;
use crate::stats::{CacheStats, count_shard_within};
use crate::tended::Tended;
use crate::tending::Tender;
use crate::window_within::{Window, tend_shard_within};
use mc_memory::Refused;
use mc_mover::{SurveyWithin, reassign_within, set_mode_within};
use mc_pages::Reassign;
use mc_words::Held;

/// What a tender did on all shards that doesn't wait. Each number stays at 2^64 - 1 once there.
#[derive(Debug, Clone, Copy, PartialEq, Eq)]
pub struct TendedWithin {
    pub tended: Tended,
    /// How many shards' windows ended early, as other hands had the lock of the slabs at each try.
    pub held: u64,
}

impl TendedWithin {
    // Nothing was done.
    fn new() -> TendedWithin
        ensures none { result ≡ nothing_within }
    {
        TendedWithin {
            tended: Tended::new(),
            held: 0,
        }
    }

    // Counts a window of one shard more, too.
    fn add(&mut self, window: Window)
        ensures added { self.new ≡ with_shard_window self.old window }
    {
        self.tended.add(window.done);
        let more = if window.stopped { 1 } else { 0 };
        self.held = self.held.saturating_add(more);
    }
}

impl Tender {
    ghost use Rattle.std.specs.Prelude.{◌≡◌, ◌<◌, ◌≤◌, Err, IfOk, OnErr, OnOk};
    ghost use Rattle.mc_mover.specs.declared.within.SurveyWithin.TheVariants as survey_error;
    ghost use Rattle.mc_cache.specs.Observers.{shard_count};
    ghost use Rattle.mc_cache.specs.Resting.{TenderRestsIn};
    ghost use Rattle.mc_cache.specs.Stats.{CountsCache, CountsUpToRefusal, SetsModes};
    ghost use Rattle.mc_cache.specs.Tending.{SayNothing, deciders_of, tender_hands};
    ghost use Rattle.mc_cache.specs.TendingWithin.{CountsUpToMiss, MissesOnlyOn, ReassignsOn, SetsModesUpToMiss, TendsCacheWithin, TendsUpToRefusalWithin};

    /// A window of each shard as `tend` does it, but the tender tries for each lock `tries` times at most, and doesn't wait. A shard's window
    /// ends where each try missed, and those of the other shards go on; `held` counts such shards. (own)
    pub fn tend_within(&mut self, cache: &Cache, tries: u64) -> Result<TendedWithin, Refused>
        requires { TenderRestsIn cache.now self.old }
        ensures rests { TenderRestsIn cache.now self.new }
        ensures stores_nothing { SayNothing (tender_hands self.old) (tender_hands self.new) }
        ensures tends { IfOk result (λ done.
            TendsCacheWithin tries cache.now done self.old self.new) }
        ensures refused { OnErr result (TendsUpToRefusalWithin tries cache.now self.old self.new) }
    {
        let alloc = self.alloc;
        let mut done = TendedWithin::new();
        for shard in 0..cache.arenas.len() {
            let arena = &cache.arenas[shard];
            let hand = &mut self.worker.hands[shard];
            let decider = &mut self.deciders[shard];
            let window = tend_shard_within(alloc, arena, hand, decider, tries)?;
            done.add(window);
        }
        Ok(done)
    }

    /// What the classes of all shards have together, as `stats` returns it, but the tender tries for each lock `tries` times at most, and
    /// doesn't wait. `Held` where each try missed on some shard: nothing is returned. (own)
    pub fn stats_within(&mut self, cache: &Cache, tries: u64) -> Result<CacheStats, SurveyWithin>
        requires { TenderRestsIn cache.now self.old }
        ensures rests { TenderRestsIn cache.now self.new }
        ensures stores_nothing { SayNothing (tender_hands self.old) (tender_hands self.new) }
        ensures deciders { deciders_of self.new ≡ deciders_of self.old }
        ensures counts { IfOk result (λ stats. CountsCache cache.now stats self.old self.new) }
        ensures refused { result ≡ Err (survey_error.NoMemory tt) →
            CountsUpToRefusal cache.now self.old self.new }
        ensures held { result ≡ Err survey_error.Held →
            CountsUpToMiss tries cache.now self.old self.new }
    {
        let alloc = self.alloc;
        let mut stats = CacheStats::new(alloc);
        for shard in 0..cache.arenas.len() {
            let arena = &cache.arenas[shard];
            let hand = &mut self.worker.hands[shard];
            if let Err(error) = count_shard_within(alloc, arena, hand, tries, &mut stats) {
                return Err(error);
            }
        }
        Ok(stats)
    }

    /// Sets the mode of all shards' automovers as `set_automove` does, but the tender tries for each lock `tries` times at most, and doesn't
    /// wait. `Held` where each try missed on some shard: the shards before it have the mode. (own)
    pub fn set_automove_within(&mut self, cache: &Cache, mode: u64, tries: u64) -> Result<(), Held>
        requires tender { TenderRestsIn cache.now self.old }
        requires mode { mode ≤ 2 }
        ensures rests { TenderRestsIn cache.now self.new }
        ensures stores_nothing { SayNothing (tender_hands self.old) (tender_hands self.new) }
        ensures deciders { deciders_of self.new ≡ deciders_of self.old }
        ensures sets { OnOk result (SetsModes mode self.old self.new) }
        ensures held { OnErr result (SetsModesUpToMiss tries mode cache.now self.old self.new) }
    {
        for shard in 0..cache.arenas.len() {
            let arena = &cache.arenas[shard];
            let hand = &mut self.worker.hands[shard];
            recall(arena, hand);
            if let Err(held) = set_mode_within(arena, hand, mode, tries) {
                return Err(held);
            }
        }
        Ok(())
    }

    /// Begins a move of a page of one shard, from class `src`, or from one that is picked, to class `dst`, or to the shard's pool where that is 0.
    /// The tender tries for the lock `tries` times at most, and doesn't wait. `Held` where each try missed; else the answer is within.
    /// `tend_within` does the move's turns. (memcached's `slabs reassign`)
    pub fn reassign_within(
        &mut self,
        cache: &Cache,
        shard: usize,
        src: Option<u64>,
        dst: u64,
        tries: u64,
    ) -> Result<Result<(), Reassign>, Held>
        requires tender { TenderRestsIn cache.now self.old }
        requires in_range { shard < shard_count cache.now }
        ensures rests { TenderRestsIn cache.now self.new }
        ensures stores_nothing { SayNothing (tender_hands self.old) (tender_hands self.new) }
        ensures deciders { deciders_of self.new ≡ deciders_of self.old }
        ensures reassigns { IfOk result (λ answer.
            ReassignsOn cache.now shard src dst answer self.old self.new) }
        ensures held { OnErr result (MissesOnlyOn tries cache.now shard self.old self.new) }
    {
        let arena = &cache.arenas[shard];
        let hand = &mut self.worker.hands[shard];
        recall(arena, hand);
        reassign_within(arena, hand, src, dst, tries)
    }
}
