//! Laws of every class table, each the contract of a function with nothing to do.
ghost use Rattle.std.specs.Prelude.{◌≡◌, ◌≤◌, ◌<◌, ◌+◌, ◌-◌, ◌*◌, ℕ, length, None};
ghost use Rattle.mc_classes.specs.Limits.{most_classes};
ghost use Rattle.mc_classes.specs.declared.config.Config.{Config};
ghost use Rattle.mc_classes.specs.Classes.{Classes, IsTableOf, size_of};
ghost use Rattle.mc_classes.specs.Refusals.{first_size, config_refusal};
ghost use Rattle.mc_waste.specs.Cases.{DefaultSizes, DefaultWastes, FinerSizes, FinerWastes, LargeSizes, LargeWastes, LastIsMet, LastIsMore, RoundingCounts, SizesStandStill};
ghost use Rattle.mc_waste.specs.Tables.{table_of};
ghost use Rattle.mc_waste.specs.Waste.{GoesTo, WastesLessThan, item_bytes, most_chunk};

/// An item's chunk has no more bytes than the factor and the rounding allow, by the item's own bytes; and between the
/// first class and the last the smallest item of a class has just that many.
pub fn chunks_are_bounded()
    ensures most { (config : Config) (table : Classes) (words class : ℕ) →
        GoesTo config table words class → size_of table class
        ≤ most_chunk config table class (item_bytes words) }
    ensures met { (config : Config) (table : Classes) (class : ℕ) → config_refusal config ≡ None →
        IsTableOf config table → 1 < class → class < length table.sizes →
        size_of table class ≡ most_chunk config table class (size_of table (class - 1) + 8) }
{}

/// The waste as a share, with no rounding to reckon with. Between the first class and the last an item has more than `den / num`
/// of its chunk. In any class above the first but a 63rd it has more than the square of that. A chunk of the first class has the
/// first size.
pub fn waste_is_a_share()
    ensures first { (config : Config) (table : Classes) (words : ℕ) → GoesTo config table words 1 →
        size_of table 1 ≡ first_size config }
    ensures between { (config : Config) (table : Classes) (words class : ℕ) →
        GoesTo config table words class → 1 < class → class < length table.sizes →
        size_of table class * config.den < item_bytes words * config.num }
    ensures last { (config : Config) (table : Classes) (words class : ℕ) →
        GoesTo config table words class → 1 < class → class < most_classes →
        size_of table class * config.den * config.den < item_bytes words * config.num * config.num }
{}

/// With a factor of 5/4 there are never 63 classes. An item in the first class leaves at most what the first size has over
/// 24 bytes; a larger one less than 20 of each 100 bytes of its chunk unused, or, in the last class, less than 36.
pub fn five_quarters()
    ensures first { (config : Config) (table : Classes) (words : ℕ) → GoesTo config table words 1 →
        size_of table 1 - item_bytes words ≤ first_size config - 24 }
    ensures within_limit { (config : Config) (table : Classes) → config_refusal config ≡ None →
        IsTableOf config table → config.num * 4 ≡ config.den * 5 → length table.sizes < most_classes }
    ensures between { (config : Config) (table : Classes) (words class : ℕ) →
        GoesTo config table words class → config.num * 4 ≡ config.den * 5 → 1 < class →
        class < length table.sizes → WastesLessThan 20 (item_bytes words) (size_of table class) }
    ensures last { (config : Config) (table : Classes) (words class : ℕ) →
        GoesTo config table words class → config.num * 4 ≡ config.den * 5 → 1 < class →
        WastesLessThan 36 (item_bytes words) (size_of table class) }
{}

/// A configuration's table is the one that is computed.
pub fn tables_are_computed()
    ensures { (config : Config) (table : Classes) → IsTableOf config table →
        table ≡ table_of config }
{}

/// Worked tables, which the prover computes: with a factor of 2 and of 5/4, and what each part of the bound is for.
pub fn worked_tables()
    ensures default_sizes { DefaultSizes }
    ensures default_wastes { DefaultWastes }
    ensures finer_sizes { FinerSizes }
    ensures finer_wastes { FinerWastes }
    ensures large_sizes { LargeSizes }
    ensures large_wastes { LargeWastes }
    ensures rounding_counts { RoundingCounts }
    ensures last_is_more { LastIsMore }
    ensures last_is_met { LastIsMet }
    ensures sizes_stand_still { SizesStandStill }
{}
