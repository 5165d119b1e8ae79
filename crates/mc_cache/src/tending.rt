//! The tender: pages move between classes, shard by shard.
ghost use Rattle.std.specs.Prelude.{◌≡◌, IfOk};

use crate::cache::{Cache, Worker};
use crate::stats::{CacheStats, count_shard};
use crate::tended::Tended;
use crate::window::tend_shard;
use mc_memory::Refused;
use mc_mover::set_mode;
use mc_watch::Decider;
use std::alloc::Global;
use std::sync::Wait;

/// What a thread of one's own tends the cache with: a hand of each shard, and a decider for it, which remembers the shard's last windows.
#[derive(Drop)]
pub struct Tender {
    pub(crate) worker: Worker,
    pub(crate) deciders: Vec<Decider>,
    pub(crate) alloc: Global,
}

impl Tender {
    ghost use Rattle.std.specs.Prelude.{◌≡◌, ◌≤◌, IfOk, OnErr};
    ghost use Rattle.mc_cache.specs.Stats.{CountsCache, CountsUpToRefusal, SetsModes};
    ghost use Rattle.mc_cache.specs.Tending.{IsTenderOf, SayNothing, TendsCache, TendsUpToRefusal, deciders_of, tender_hands};

    /// A window of each shard, to be called about once a second. The dead of all classes are put back, the shard's decider is fed
    /// what its classes have then, and the move that it decides on begins. Up to 16 turns of the shard's mover are done, until
    /// one finds no move or ends one. Then the arena keeps of the moves so far what became of each page alone. It waits for the
    /// locks of the slabs. Where memory is refused it stops: what was done before stays. (slabs.c's automover; the number of
    /// turns is own)
    pub fn tend<R: Wait>(&mut self, rt: &R, cache: &Cache) -> Result<Tended, Refused>
        requires { IsTenderOf cache.now self.old }
        ensures belongs { IsTenderOf cache.now self.new }
        ensures stores_nothing { SayNothing (tender_hands self.old) (tender_hands self.new) }
        ensures tends { IfOk result (λ done. TendsCache cache.now done self.old self.new) }
        ensures refused { OnErr result (TendsUpToRefusal cache.now self.old self.new) }
    {
        let alloc = self.alloc;
        let mut done = Tended::new();
        for shard in 0..cache.arenas.len() {
            let arena = &cache.arenas[shard];
            let hand = &mut self.worker.hands[shard];
            let decider = &mut self.deciders[shard];
            let share = tend_shard(rt, alloc, arena, hand, decider)?;
            done.add(share);
        }
        Ok(done)
    }

    /// What the classes of all shards have together: a survey of each, one shard after another, and so not all at one moment. The
    /// dead are looked for nowhere, and nothing changes. It waits for the locks of the slabs. Where memory is refused nothing is
    /// returned. (slabs.c's `slabs_stats`; the sum is own)
    pub fn stats<R: Wait>(&mut self, rt: &R, cache: &Cache) -> Result<CacheStats, Refused>
        requires { IsTenderOf cache.now self.old }
        ensures belongs { IsTenderOf cache.now self.new }
        ensures stores_nothing { SayNothing (tender_hands self.old) (tender_hands self.new) }
        ensures deciders { deciders_of self.new ≡ deciders_of self.old }
        ensures counts { IfOk result (λ stats. CountsCache cache.now stats self.old self.new) }
        ensures refused { OnErr result (CountsUpToRefusal cache.now self.old self.new) }
    {
        let alloc = self.alloc;
        let mut stats = CacheStats::new(alloc);
        for shard in 0..cache.arenas.len() {
            let arena = &cache.arenas[shard];
            let hand = &mut self.worker.hands[shard];
            count_shard(rt, alloc, arena, hand, &mut stats)?;
        }
        Ok(stats)
    }

    /// Sets the mode of all shards' automovers, which `new` leaves at 0. In mode 2 a set that evicts asks for a page of any class at once,
    /// for the turns that come; modes 0 and 1 are alike, since `tend` acts on its windows in every mode. It takes no memory, and waits for
    /// the locks of the slabs. (memcached's `slabs automove`)
    pub fn set_automove<R: Wait>(&mut self, rt: &R, cache: &Cache, mode: u64)
        requires tender { IsTenderOf cache.now self.old }
        requires mode { mode ≤ 2 }
        ensures belongs { IsTenderOf cache.now self.new }
        ensures stores_nothing { SayNothing (tender_hands self.old) (tender_hands self.new) }
        ensures deciders { deciders_of self.new ≡ deciders_of self.old }
        ensures sets { SetsModes mode self.old self.new }
    {
        for shard in 0..cache.arenas.len() {
            let arena = &cache.arenas[shard];
            let hand = &mut self.worker.hands[shard];
            set_mode(rt, arena, hand, mode);
        }
    }
}
