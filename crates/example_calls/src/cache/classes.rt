//! The pages, chunks and items of a cache's classes, as an operator reads them.
ghost use Rattle.std.specs.Prelude.{◌≡◌, ◌++◌, ◌<◌, ◌/◌, OnErr, OnOk, codes, nat_lt};
ghost use Rattle.std.specs.Io.KnownBytes.{Appends};
ghost use Rattle.mc_classes.specs.Classes.{IsClass};
ghost use Rattle.mc_io.specs.Device.{Extends};
ghost use Rattle.mc_cache.specs.Chunks.{chunks_of};
ghost use Rattle.mc_stats.specs.ClassMetrics.{class_metrics_text, exposition_text};
ghost use Rattle.mc_stats.specs.Counts.{sum_of_counts};
ghost use Rattle.mc_stats.specs.Items.{items_text, usage_text};
ghost use Rattle.mc_stats.specs.Slabs.{slab_stats_text};

use mc_cache::{CacheStats, ClassItems, ClassStats};
use mc_classes::{ClassId, ClassTable};
use mc_io::{Fault, Sink};
use mc_stats::{Counts, sum_of, write_class_metrics, write_items, write_slabs, write_usage};

/// Writes the texts of a cache's items and of its pages, one after another. `classes`, `stats` and `items` are those of one cache. Where a write fails, no other is made.
pub fn write_class_texts<W: Sink>(
    classes: &ClassTable,
    stats: &CacheStats,
    items: &[ClassItems],
    writer: &mut W,
) -> Result<(), Fault>
    ensures bytes { OnOk result (Appends (W.contents writer.old) (W.contents writer.new)
        (usage_text items.now stats.now.classes.items ++ items_text items.now stats.now.classes.items
        ++ slab_stats_text classes.now stats.now.classes.items stats.now.granted)) }
    ensures err { OnErr result (W.failures writer.old < W.failures writer.new) }
    ensures kept { OnErr result (Extends (W.contents writer.old) (W.contents writer.new)) }
{
    write_usage(items, stats, writer)?;
    write_items(items, stats, writer)?;
    write_slabs(classes, stats, writer)
}

/// Writes the metrics of a cache's classes alone, and ends the exposition. `classes`, `stats` and `items` are those of one cache.
pub fn write_class_exposition<W: Sink>(
    classes: &ClassTable,
    stats: &CacheStats,
    items: &[ClassItems],
    writer: &mut W,
) -> Result<(), Fault>
    ensures bytes { OnOk result (Appends (W.contents writer.old) (W.contents writer.new)
        (class_metrics_text classes.now stats.now.classes.items items.now ++ codes "# EOF\n")) }
    ensures err { OnErr result (W.failures writer.old < W.failures writer.new) }
    ensures kept { OnErr result (Extends (W.contents writer.old) (W.contents writer.new)) }
{
    write_class_metrics(classes, stats, items, writer)?;
    writer.write_all(b"# EOF\n")
}

/// Writes a whole exposition of a cache's classes and of the sum of what its threads counted.
pub fn write_summed_exposition<W: Sink>(
    all: &[Counts],
    classes: &ClassTable,
    stats: &CacheStats,
    items: &[ClassItems],
    writer: &mut W,
) -> Result<(), Fault>
    ensures bytes { OnOk result (Appends (W.contents writer.old) (W.contents writer.new)
        (exposition_text (sum_of_counts all.now) classes.now stats.now.classes.items items.now)) }
    ensures err { OnErr result (W.failures writer.old < W.failures writer.new) }
    ensures kept { OnErr result (Extends (W.contents writer.old) (W.contents writer.new)) }
{
    sum_of(all).write_exposition(classes, stats, items, writer)
}

/// Whether more than half of the class's chunks are used.
pub fn is_half_used(classes: &ClassTable, class: ClassId, row: &ClassStats) -> bool
    requires { IsClass classes.now class }
    ensures half { result ≡ nat_lt ((chunks_of classes.now class row.now).chunks / 2)
        (chunks_of classes.now class row.now).used }
{
    let chunks = row.chunks(classes, class);
    chunks.used > chunks.chunks / 2
}
