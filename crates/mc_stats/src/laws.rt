//! Laws of counts, and worked texts, computed by the prover: each the contract of a function with nothing to do.
ghost use Rattle.std.specs.Prelude.{Bool, List, Option, Result, ℕ};
ghost use Rattle.mc_shard.specs.declared.conditions.Outcome.{Outcome};
ghost use Rattle.mc_cache.specs.declared.working.CallError.{CallError};
ghost use Rattle.mc_cache.specs.declared.working.SetError.{SetError};
ghost use Rattle.mc_stats.specs.Counts.{HasEachSum, NoCountIsLess, counts_after_delete, counts_after_get, counts_after_set, counts_after_set_if, counts_after_touch, counts_after_versioned_get, sum_of_counts};
ghost use Rattle.mc_stats.specs.Rows.{MetricsOfSomeCalls, StatsOfSomeCalls};
ghost use Rattle.mc_stats.specs.declared.counts.Counts.{Counts};

/// No number of the counts falls by a call, whatever the call returned.
pub fn counts_never_fall()
    ensures gets { (found : Result Bool CallError) → (counts : Counts) →
        NoCountIsLess counts (counts_after_get found counts) }
    ensures versioned_gets { (found : Result (Option ℕ) CallError) → (counts : Counts) →
        NoCountIsLess counts (counts_after_versioned_get found counts) }
    ensures sets { (stored : Result (Unit {0}) SetError) → (counts : Counts) →
        NoCountIsLess counts (counts_after_set stored counts) }
    ensures sets_if { (outcome : Result Outcome SetError) → (counts : Counts) →
        NoCountIsLess counts (counts_after_set_if outcome counts) }
    ensures deletes { (deleted : Result Bool CallError) → (counts : Counts) →
        NoCountIsLess counts (counts_after_delete deleted counts) }
    ensures touches { (found : Result Bool CallError) → (counts : Counts) →
        NoCountIsLess counts (counts_after_touch found counts) }
{}

/// Each number of a sum of counts is the sum of that number, or 2^64 - 1. So the order doesn't matter in which threads hand their counts.
pub fn sums_add_each_number()
    ensures { (all : List Counts) → HasEachSum all (sum_of_counts all) }
{}

/// The texts of worked counts.
pub fn worked_texts()
    ensures stats { StatsOfSomeCalls }
    ensures metrics { MetricsOfSomeCalls }
{}
