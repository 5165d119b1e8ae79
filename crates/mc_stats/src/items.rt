//! The texts of a cache's items as memcached's `stats items` and `stats` write them. They take no memory.
ghost use Rattle.std.specs.Prelude.{◌≡◌, ◌<◌, OnErr, OnOk, length, slice_index_or};
ghost use Rattle.mc_shard.specs.ClassItems.{no_items};
ghost use Rattle.std.specs.Io.KnownBytes.{Appends};
ghost use Rattle.mc_io.specs.Device.{Extends};
ghost use Rattle.mc_stats.specs.Items.{ItemsOfTwoClasses, evictions_in_all, items_in_all, items_text, lines_of_first_items, lines_of_items, usage_text};

use crate::slabs::{row_of, write_class_lines};
use crate::stats::write_lines;
use mc_cache::{CacheStats, ClassItems, ClassStats};
use mc_classes::ClassId;
use mc_io::{Fault, Sink};

/// Writes three lines for each class that has items, class 1 first: how many items, the bytes of their keys and values, and how many items of the
/// class were ever evicted to make room. Then it writes `END`. `items` and `stats` are those of one cache. Where a write fails, no other is made.
/// (memcached's `stats items`)
pub fn write_items<W: Sink>(
    items: &[ClassItems],
    stats: &CacheStats,
    writer: &mut W,
) -> Result<(), Fault>
    ensures bytes { OnOk result (Appends (W.contents writer.old) (W.contents writer.new)
        (items_text items.now stats.now.classes.items)) }
    ensures ok { OnOk result (W.failures writer.new ≡ W.failures writer.old) }
    ensures err { OnErr result (W.failures writer.old < W.failures writer.new) }
    ensures kept { OnErr result (Extends (W.contents writer.old) (W.contents writer.new)) }
{
    write_each(items, &stats.classes, writer)?;
    writer.write_all(b"END\r\n")
}

/// Writes how many items the cache has, the bytes of their keys and values, how many items were ever evicted to make room, and `END`. Where a write
/// fails, no other is made. (the lines of memcached's `stats` with these names)
pub fn write_usage<W: Sink>(
    items: &[ClassItems],
    stats: &CacheStats,
    writer: &mut W,
) -> Result<(), Fault>
    ensures bytes { OnOk result (Appends (W.contents writer.old) (W.contents writer.new)
        (usage_text items.now stats.now.classes.items)) }
    ensures ok { OnOk result (W.failures writer.new ≡ W.failures writer.old) }
    ensures err { OnErr result (W.failures writer.old < W.failures writer.new) }
    ensures kept { OnErr result (Extends (W.contents writer.old) (W.contents writer.new)) }
{
    let all = sum_of_items(items);
    let numbers = [
        ("curr_items", all.items),
        ("bytes", all.bytes),
        ("evictions", sum_of_evictions(&stats.classes)),
    ];
    write_lines(&numbers, writer)?;
    writer.write_all(b"END\r\n")
}

// Writes the lines of the classes that have items.
fn write_each<W: Sink>(
    items: &[ClassItems],
    rows: &[ClassStats],
    writer: &mut W,
) -> Result<(), Fault>
    ensures bytes { OnOk result (Appends (W.contents writer.old) (W.contents writer.new)
        (lines_of_first_items items.now rows.now (length items.now))) }
    ensures ok { OnOk result (W.failures writer.new ≡ W.failures writer.old) }
    ensures err { OnErr result (W.failures writer.old < W.failures writer.new) }
    ensures kept { OnErr result (Extends (W.contents writer.old) (W.contents writer.new)) }
{
    for place in 0..items.len() {
        let row = row_of(rows, place as u64);
        write_class_items(place as u64 + 1, items_at(items, place), row, writer)?;
    }
    Ok(())
}

// The items of the class at the place, or none.
pub(crate) fn items_at(items: &[ClassItems], place: usize) -> ClassItems
    ensures { result ≡ slice_index_or items.now place no_items }
{
    match items.get(place) {
        Some(row) => *row,
        None => ClassItems { items: 0, bytes: 0 },
    }
}

// Writes the three lines of a class, if it has items.
fn write_class_items<W: Sink>(
    class: ClassId,
    items: ClassItems,
    row: ClassStats,
    writer: &mut W,
) -> Result<(), Fault>
    ensures bytes { OnOk result (Appends (W.contents writer.old) (W.contents writer.new)
        (lines_of_items class items row)) }
    ensures ok { OnOk result (W.failures writer.new ≡ W.failures writer.old) }
    ensures err { OnErr result (W.failures writer.old < W.failures writer.new) }
    ensures kept { OnErr result (Extends (W.contents writer.old) (W.contents writer.new)) }
{
    if items.items == 0 {
        return Ok(());
    }
    let numbers = [
        ("number", items.items),
        ("mem_requested", items.bytes),
        ("evicted", row.evictions),
    ];
    write_class_lines(b"STAT items:", class, &numbers, writer)
}

// The items of all classes, and their bytes.
fn sum_of_items(rows: &[ClassItems]) -> ClassItems
    ensures { result ≡ items_in_all rows.now }
{
    let mut all = ClassItems { items: 0, bytes: 0 };
    for row in rows {
        all.items = all.items.saturating_add(row.items);
        all.bytes = all.bytes.saturating_add(row.bytes);
    }
    all
}

// How many items of all classes were ever evicted to make room.
fn sum_of_evictions(rows: &[ClassStats]) -> u64
    ensures { result ≡ evictions_in_all rows.now }
{
    let mut all: u64 = 0;
    for row in rows {
        all = all.saturating_add(row.evictions);
    }
    all
}

/// Worked texts: of two classes, class 1 has no item.
pub fn worked_items()
    ensures { ItemsOfTwoClasses }
{}
