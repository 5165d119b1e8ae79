//! The text of a cache's classes in the format OpenMetrics, which Prometheus reads. It takes no memory.
ghost use Rattle.std.specs.Prelude.{◌≡◌, ◌<◌, OnErr, OnOk, length};
ghost use Rattle.std.specs.List.{flat_map};
ghost use Rattle.std.specs.Io.KnownBytes.{Appends};
ghost use Rattle.mc_classes.specs.Classes.{IsClass};
ghost use Rattle.mc_io.specs.Device.{Extends};
ghost use Rattle.mc_stats.specs.ClassMetrics.{MetricsOfThreeClasses, class_metrics_text, class_sample, exposition_text, family_text, number_of_metric, sample_of_class, samples_of_first_classes};

use crate::counts::Counts;
use crate::items::items_at;
use crate::pieces::write_pieces;
use crate::slabs::row_of;
use itoa::Buffer;
use mc_cache::{CacheStats, ClassChunks, ClassItems, ClassStats};
use mc_classes::{ClassId, ClassTable};
use mc_io::{Fault, Sink};

// What a metric has of a class.
#[derive(Clone, Copy)]
enum ClassMetric {
    ChunkBytes,
    ChunksPerPage,
    Pages,
    Chunks,
    UsedChunks,
    FreeChunks,
    Items,
    ItemBytes,
    Evictions,
}

impl ClassMetric {
    // The number that the metric has of a class.
    fn number(self, chunks: ClassChunks, row: ClassStats, items: ClassItems) -> u64
        ensures { result ≡ number_of_metric self chunks row items }
    {
        match self {
            ClassMetric::ChunkBytes => chunks.chunk_bytes,
            ClassMetric::ChunksPerPage => chunks.per_page,
            ClassMetric::Pages => row.pages,
            ClassMetric::Chunks => chunks.chunks,
            ClassMetric::UsedChunks => chunks.used,
            ClassMetric::FreeChunks => row.free,
            ClassMetric::Items => items.items,
            ClassMetric::ItemBytes => items.bytes,
            ClassMetric::Evictions => row.evictions,
        }
    }
}

// A metric with the lines of its type and its unit, and the name of its samples.
#[derive(Clone, Copy)]
struct ClassFamily<'a> {
    head: &'a str,
    name: &'a str,
    metric: ClassMetric,
}

const FAMILIES: [ClassFamily<'static>; 9] = [
    ClassFamily {
        head: "# TYPE mc_class_chunk_bytes gauge\n# UNIT mc_class_chunk_bytes bytes\n",
        name: "mc_class_chunk_bytes",
        metric: ClassMetric::ChunkBytes,
    },
    ClassFamily {
        head: "# TYPE mc_class_chunks_per_page gauge\n",
        name: "mc_class_chunks_per_page",
        metric: ClassMetric::ChunksPerPage,
    },
    ClassFamily {
        head: "# TYPE mc_class_pages gauge\n",
        name: "mc_class_pages",
        metric: ClassMetric::Pages,
    },
    ClassFamily {
        head: "# TYPE mc_class_chunks gauge\n",
        name: "mc_class_chunks",
        metric: ClassMetric::Chunks,
    },
    ClassFamily {
        head: "# TYPE mc_class_used_chunks gauge\n",
        name: "mc_class_used_chunks",
        metric: ClassMetric::UsedChunks,
    },
    ClassFamily {
        head: "# TYPE mc_class_free_chunks gauge\n",
        name: "mc_class_free_chunks",
        metric: ClassMetric::FreeChunks,
    },
    ClassFamily {
        head: "# TYPE mc_class_items gauge\n",
        name: "mc_class_items",
        metric: ClassMetric::Items,
    },
    ClassFamily {
        head: "# TYPE mc_class_item_bytes gauge\n# UNIT mc_class_item_bytes bytes\n",
        name: "mc_class_item_bytes",
        metric: ClassMetric::ItemBytes,
    },
    ClassFamily {
        head: "# TYPE mc_class_evictions counter\n",
        name: "mc_class_evictions_total",
        metric: ClassMetric::Evictions,
    },
];

impl Counts {
    /// Writes a whole exposition: what [`write_class_metrics`] writes, and then what [`Counts::write_openmetrics`] writes, which ends with `# EOF`.
    /// Where a write fails, no other is made. (own)
    pub fn write_exposition<W: Sink>(
        &self,
        classes: &ClassTable,
        stats: &CacheStats,
        items: &[ClassItems],
        writer: &mut W,
    ) -> Result<(), Fault>
        ensures bytes { OnOk result (Appends (W.contents writer.old) (W.contents writer.new)
            (exposition_text self.now classes.now stats.now.classes.items items.now)) }
        ensures ok { OnOk result (W.failures writer.new ≡ W.failures writer.old) }
        ensures err { OnErr result (W.failures writer.old < W.failures writer.new) }
        ensures kept { OnErr result (Extends (W.contents writer.old) (W.contents writer.new)) }
    {
        write_class_metrics(classes, stats, items, writer)?;
        self.write_openmetrics(writer)
    }
}

/// Writes nine metrics, each with a sample for each class that has pages, whose label is the class's number: the bytes of a chunk, the chunks of a
/// page, the pages, the chunks in all, used and free, the items, the bytes of their keys and values, and how many items were ever evicted to make
/// room. `classes`, `stats` and `items` are those of one cache. The text has no `# EOF`, so that other metrics can follow. Where a write fails, no
/// other is made. (own)
pub fn write_class_metrics<W: Sink>(
    classes: &ClassTable,
    stats: &CacheStats,
    items: &[ClassItems],
    writer: &mut W,
) -> Result<(), Fault>
    ensures bytes { OnOk result (Appends (W.contents writer.old) (W.contents writer.new)
        (class_metrics_text classes.now stats.now.classes.items items.now)) }
    ensures ok { OnOk result (W.failures writer.new ≡ W.failures writer.old) }
    ensures err { OnErr result (W.failures writer.old < W.failures writer.new) }
    ensures kept { OnErr result (Extends (W.contents writer.old) (W.contents writer.new)) }
{
    write_families(&FAMILIES, classes, &stats.classes, items, writer)
}

// Writes some metrics, one after another.
fn write_families<W: Sink>(
    families: &[ClassFamily],
    classes: &ClassTable,
    rows: &[ClassStats],
    items: &[ClassItems],
    writer: &mut W,
) -> Result<(), Fault>
    ensures bytes { OnOk result (Appends (W.contents writer.old) (W.contents writer.new)
        (flat_map (λ family. family_text classes.now rows.now items.now
        family.head.now family.name.now family.metric) families.now)) }
    ensures ok { OnOk result (W.failures writer.new ≡ W.failures writer.old) }
    ensures err { OnErr result (W.failures writer.old < W.failures writer.new) }
    ensures kept { OnErr result (Extends (W.contents writer.old) (W.contents writer.new)) }
{
    for family in families {
        write_family(family, classes, rows, items, writer)?;
    }
    Ok(())
}

// Writes the head of a metric, and then its samples.
fn write_family<W: Sink>(
    family: &ClassFamily,
    classes: &ClassTable,
    rows: &[ClassStats],
    items: &[ClassItems],
    writer: &mut W,
) -> Result<(), Fault>
    ensures bytes { OnOk result (Appends (W.contents writer.old) (W.contents writer.new)
        (family_text classes.now rows.now items.now
        family.now.head.now family.now.name.now family.now.metric)) }
    ensures ok { OnOk result (W.failures writer.new ≡ W.failures writer.old) }
    ensures err { OnErr result (W.failures writer.old < W.failures writer.new) }
    ensures kept { OnErr result (Extends (W.contents writer.old) (W.contents writer.new)) }
{
    writer.write_all(family.head.as_bytes())?;
    write_samples(family.name, family.metric, classes, rows, items, writer)
}

// Writes the samples that a metric has of the classes that have pages.
fn write_samples<W: Sink>(
    name: &str,
    metric: ClassMetric,
    classes: &ClassTable,
    rows: &[ClassStats],
    items: &[ClassItems],
    writer: &mut W,
) -> Result<(), Fault>
    ensures bytes { OnOk result (Appends (W.contents writer.old) (W.contents writer.new)
        (samples_of_first_classes name.now metric classes.now rows.now items.now
        (length classes.now.sizes))) }
    ensures ok { OnOk result (W.failures writer.new ≡ W.failures writer.old) }
    ensures err { OnErr result (W.failures writer.old < W.failures writer.new) }
    ensures kept { OnErr result (Extends (W.contents writer.old) (W.contents writer.new)) }
{
    for place in 0..classes.count() {
        let row = row_of(rows, place);
        let own = items_at(items, place as usize);
        write_sample(name, metric, classes, place + 1, row, own, writer)?;
    }
    Ok(())
}

// Writes the sample that a metric has of a class, if the class has pages.
fn write_sample<W: Sink>(
    name: &str,
    metric: ClassMetric,
    classes: &ClassTable,
    class: ClassId,
    row: ClassStats,
    items: ClassItems,
    writer: &mut W,
) -> Result<(), Fault>
    requires { IsClass classes.now class }
    ensures bytes { OnOk result (Appends (W.contents writer.old) (W.contents writer.new)
        (sample_of_class name.now metric classes.now class row items)) }
    ensures ok { OnOk result (W.failures writer.new ≡ W.failures writer.old) }
    ensures err { OnErr result (W.failures writer.old < W.failures writer.new) }
    ensures kept { OnErr result (Extends (W.contents writer.old) (W.contents writer.new)) }
{
    if row.pages == 0 {
        return Ok(());
    }
    let chunks = row.chunks(classes, class);
    write_labelled(name, class, metric.number(chunks, row, items), writer)
}

// Writes a number of a class, whose number is the label.
fn write_labelled<W: Sink>(
    name: &str,
    class: ClassId,
    number: u64,
    writer: &mut W,
) -> Result<(), Fault>
    ensures bytes { OnOk result (Appends (W.contents writer.old) (W.contents writer.new)
        (class_sample name.now class number)) }
    ensures ok { OnOk result (W.failures writer.new ≡ W.failures writer.old) }
    ensures err { OnErr result (W.failures writer.old < W.failures writer.new) }
    ensures kept { OnErr result (Extends (W.contents writer.old) (W.contents writer.new)) }
{
    let mut label = Buffer::new();
    let mut digits = Buffer::new();
    write_pieces(
        &[
            name.as_bytes(),
            b"{class=\"",
            label.format(class).as_bytes(),
            b"\"} ",
            digits.format(number).as_bytes(),
            b"\n",
        ],
        writer,
    )
}

/// Worked texts: of three classes, class 2 has no page.
pub fn worked_class_metrics()
    ensures { MetricsOfThreeClasses }
{}
