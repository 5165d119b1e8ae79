//! The statistics of a cache: sums over the classes of all shards.
ghost use Rattle.std.specs.Prelude.{◌≡◌, ◌≤◌, ◌-◌, ◌^◌, ◌∷◌, [], Err, OnOk, length, max, slice_index_or, ℕ};
ghost use Rattle.mc_words.specs.hand.Arenas.{view};
ghost use Rattle.mc_items.specs.Keeping.{StoresNothing};
ghost use Rattle.mc_mover.specs.declared.within.SurveyWithin.TheVariants as survey_error;
ghost use Rattle.mc_cache.specs.Resting.{IsRestingHandOf};
ghost use Rattle.mc_cache.specs.WindowsWithin.{MissesEachTime};
ghost use Rattle.mc_shard.specs.Hands.{IsIdleHandOf};
ghost use Rattle.mc_cache.specs.Stats.{AddsNumbers, AddsSurvey, CountsShard, SumsSurveys, class_in_all, class_with, most_classes_of_shards, no_statistics, sum_in_all};

use crate::resting::recall;
use mc_memory::{Refused, push};
use mc_mover::{Survey, SurveyWithin, survey, survey_within};
use mc_pages::Numbers;
use mc_words::{Arena, Hand};
use std::alloc::Global;
use std::sync::Wait;

/// What one class has on all shards together. Each number stays at 2^64 - 1 once there.
#[derive(Debug, Clone, Copy, PartialEq, Eq)]
pub struct ClassStats {
    /// How many pages the class has, those that move included.
    pub pages: u64,
    /// How many chunks the class's free lists have. Dead ones aren't among them until they are put back.
    pub free: u64,
    /// How many of its items were ever evicted to make room.
    pub evictions: u64,
}

/// What all shards have together. Each number stays at 2^64 - 1 once there.
#[derive(Drop)]
pub struct CacheStats {
    /// What each class has, class 1 first.
    pub classes: Vec<ClassStats>,
    /// How many pages were ever granted.
    pub granted: u64,
    /// How many pages are in the pools.
    pub pool: u64,
    /// How many shards have a page on the move.
    pub moving: u64,
    /// How many moves ended.
    pub ended: u64,
    /// How many items a move took to another chunk of their class.
    pub rescued: u64,
    /// How many items a move evicted, as their class had no other chunk.
    pub evicted: u64,
    /// How many chunks held up a move.
    pub busy: u64,
}

impl ClassStats {
    // The numbers of a class before any shard is counted.
    fn new() -> ClassStats
        ensures none { result ≡ no_statistics }
    {
        ClassStats {
            pages: 0,
            free: 0,
            evictions: 0,
        }
    }

    // Counts what one shard more has, too.
    fn add(&mut self, more: Numbers)
        ensures added { self.new ≡ class_with self.old more }
    {
        self.pages = self.pages.saturating_add(more.pages);
        self.free = self.free.saturating_add(more.free);
        self.evictions = self.evictions.saturating_add(more.evictions);
    }
}

impl CacheStats {
    // The numbers of the cache before any shard is counted.
    pub(crate) fn new(alloc: Global) -> CacheStats
        ensures none { SumsSurveys [] result }
    {
        CacheStats {
            classes: Vec::new(alloc),
            granted: 0,
            pool: 0,
            moving: 0,
            ended: 0,
            rescued: 0,
            evicted: 0,
            busy: 0,
        }
    }

    // Counts what one shard more has, too.
    fn add(&mut self, survey: &Survey) -> Result<(), Refused>
        ensures added { OnOk result (AddsSurvey survey.now self.old self.new) }
    {
        add_classes(&mut self.classes, &survey.classes)?;
        let totals = survey.totals;
        self.granted = self.granted.saturating_add(totals.granted);
        self.pool = self.pool.saturating_add(totals.pool);
        self.moving = self.moving.saturating_add(survey.running as u64);
        self.ended = self.ended.saturating_add(totals.moved);
        self.rescued = self.rescued.saturating_add(totals.rescues);
        self.evicted = self.evicted.saturating_add(totals.evictions_nomem);
        self.busy = self.busy.saturating_add(totals.busy);
        Ok(())
    }
}

// Counts what the hand's shard has, too. The dead are looked for nowhere, and nothing changes.
pub(crate) fn count_shard<R: Wait>(
    rt: &R,
    alloc: Global,
    arena: &Arena,
    hand: &mut Hand,
    stats: &mut CacheStats,
) -> Result<(), Refused>
    requires { IsIdleHandOf arena.now hand.old }
    ensures idle { IsIdleHandOf arena.now hand.new }
    ensures stores_nothing { StoresNothing (view hand.old) (view hand.new) }
    ensures counts { OnOk result (CountsShard stats.old hand.old stats.new hand.new) }
{
    let survey = survey(rt, alloc, arena, hand, false)?;
    stats.add(&survey)
}

// Counts what the shard of a hand that rests has, too; the hand tries for the lock n times.
pub(crate) fn count_shard_within(
    alloc: Global,
    arena: &Arena,
    hand: &mut Hand,
    tries: u64,
    stats: &mut CacheStats,
) -> Result<(), SurveyWithin>
    requires { IsRestingHandOf arena.now hand.old }
    ensures idle { IsIdleHandOf arena.now hand.new }
    ensures stores_nothing { StoresNothing (view hand.old) (view hand.new) }
    ensures counts { OnOk result (CountsShard stats.old hand.old stats.new hand.new) }
    ensures held { result ≡ Err survey_error.Held → MissesEachTime tries hand.old hand.new }
{
    recall(arena, hand);
    let survey = match survey_within(alloc, arena, hand, false, tries) {
        Ok(survey) => survey,
        Err(error) => return Err(error),
    };
    match stats.add(&survey) {
        Ok(()) => Ok(()),
        Err(refused) => Err(SurveyWithin::NoMemory(refused)),
    }
}

// Counts what each class of one shard has, too.
fn add_classes(rows: &mut Vec<ClassStats>, classes: &[Numbers]) -> Result<(), Refused>
    ensures { OnOk result (AddsNumbers classes.now rows.old.items rows.new.items) }
{
    lengthen(rows, classes.len())?;
    add_each(rows.as_mut_slice(), classes);
    Ok(())
}

// Adds rows of nothing behind the others, until there are n.
fn lengthen(rows: &mut Vec<ClassStats>, count: usize) -> Result<(), Refused>
    ensures count { OnOk result (length rows.new.items ≡ max (length rows.old.items) count) }
    ensures same { OnOk result ((place : ℕ) → slice_index_or rows.new.items place no_statistics
        ≡ slice_index_or rows.old.items place no_statistics) }
{
    let more = count.saturating_sub(rows.len());
    for _ in 0..more {
        push(rows, ClassStats::new())?;
    }
    Ok(())
}

// Counts each class's numbers in its row.
fn add_each(rows: &mut [ClassStats], classes: &[Numbers])
    requires { length classes.now ≤ length rows.old }
    ensures { AddsNumbers classes.now rows.old rows.new }
{
    for place in 0..classes.len() {
        let row = &mut rows[place];
        row.add(classes[place]);
    }
}

/// Worked cases. Class 2 of two shards has the sum of what it has on each, and not of what all classes of one shard have; a shard that has
/// no such class adds nothing, and there are as many rows as the shard with the most has classes; and a sum that would pass 2^64 - 1 stays there.
pub fn worked_stats()
    ensures sums { class_in_all 1
        ((record { pages = 1; free = 2; evictions = 3 } ∷
        record { pages = 4; free = 5; evictions = 6 } ∷ []) ∷
        (record { pages = 7; free = 8; evictions = 9 } ∷
        record { pages = 10; free = 20; evictions = 30 } ∷ []) ∷ [])
        ≡ record { pages = 14; free = 25; evictions = 36 } }
    ensures lacks { class_in_all 1 ((record { pages = 1; free = 2; evictions = 3 } ∷ []) ∷
        (record { pages = 7; free = 8; evictions = 9 } ∷
        record { pages = 10; free = 20; evictions = 30 } ∷ []) ∷ [])
        ≡ record { pages = 10; free = 20; evictions = 30 } }
    ensures most { most_classes_of_shards
        ((record { pages = 1; free = 2; evictions = 3 } ∷
        record { pages = 4; free = 5; evictions = 6 } ∷ []) ∷
        (record { pages = 7; free = 8; evictions = 9 } ∷ []) ∷ []) ≡ 2 }
    ensures stays { sum_in_all (λ number. number) ((2 ^ 64 - 2) ∷ 3 ∷ []) ≡ 2 ^ 64 - 1 }
{}
