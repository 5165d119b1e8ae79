//! The text of a cache's classes as memcached's `stats slabs` writes it. It takes no memory.
ghost use Rattle.std.specs.Prelude.{◌≡◌, ◌<◌, OnErr, OnOk, count_by, length, nat_lt, slice_index_or};
ghost use Rattle.std.specs.List.{flat_map};
ghost use Rattle.std.specs.Io.KnownBytes.{Appends};
ghost use Rattle.mc_classes.specs.Classes.{IsClass};
ghost use Rattle.mc_io.specs.Device.{Extends};
ghost use Rattle.mc_cache.specs.Stats.{no_statistics};
ghost use Rattle.mc_stats.specs.Slabs.{SlabsOfTwoClasses, class_label, labelled_line, lines_of_class, lines_of_first_classes, named_number, slab_stats_text};

use crate::pieces::write_pieces;
use crate::stats::write_lines;
use itoa::Buffer;
use mc_cache::{CacheStats, ClassStats};
use mc_classes::{ClassId, ClassTable};
use mc_io::{Fault, Sink};

/// Writes six lines for each class that has pages, class 1 first: the bytes of a chunk, the chunks of a page, the pages, and the chunks in all,
/// used and free. Then it writes how many classes have pages, the bytes of all pages that were granted, and `END`. `classes` and `stats` are those
/// of one cache. Where a write fails, no other is made. (memcached's `stats slabs`)
pub fn write_slabs<W: Sink>(
    classes: &ClassTable,
    stats: &CacheStats,
    writer: &mut W,
) -> Result<(), Fault>
    ensures bytes { OnOk result (Appends (W.contents writer.old) (W.contents writer.new)
        (slab_stats_text classes.now stats.now.classes.items stats.now.granted)) }
    ensures ok { OnOk result (W.failures writer.new ≡ W.failures writer.old) }
    ensures err { OnErr result (W.failures writer.old < W.failures writer.new) }
    ensures kept { OnErr result (Extends (W.contents writer.old) (W.contents writer.new)) }
{
    write_classes(classes, &stats.classes, writer)?;
    let totals = [
        ("active_slabs", count_paged(&stats.classes) as u64),
        (
            "total_malloced",
            stats.granted.saturating_mul(classes.page()),
        ),
    ];
    write_lines(&totals, writer)?;
    writer.write_all(b"END\r\n")
}

// Writes the lines of the classes that have pages.
fn write_classes<W: Sink>(
    classes: &ClassTable,
    rows: &[ClassStats],
    writer: &mut W,
) -> Result<(), Fault>
    ensures bytes { OnOk result (Appends (W.contents writer.old) (W.contents writer.new)
        (lines_of_first_classes classes.now rows.now (length classes.now.sizes))) }
    ensures ok { OnOk result (W.failures writer.new ≡ W.failures writer.old) }
    ensures err { OnErr result (W.failures writer.old < W.failures writer.new) }
    ensures kept { OnErr result (Extends (W.contents writer.old) (W.contents writer.new)) }
{
    for place in 0..classes.count() {
        write_class(classes, place + 1, row_of(rows, place), writer)?;
    }
    Ok(())
}

// The statistics of the class at the place, or none of anything.
pub(crate) fn row_of(rows: &[ClassStats], place: u64) -> ClassStats
    ensures { result ≡ slice_index_or rows.now place no_statistics }
{
    match rows.get(place as usize) {
        Some(row) => *row,
        None => ClassStats {
            pages: 0,
            free: 0,
            evictions: 0,
        },
    }
}

// Writes the six lines of a class, if it has pages.
fn write_class<W: Sink>(
    classes: &ClassTable,
    class: ClassId,
    row: ClassStats,
    writer: &mut W,
) -> Result<(), Fault>
    requires { IsClass classes.now class }
    ensures bytes { OnOk result (Appends (W.contents writer.old) (W.contents writer.new)
        (lines_of_class classes.now class row)) }
    ensures ok { OnOk result (W.failures writer.new ≡ W.failures writer.old) }
    ensures err { OnErr result (W.failures writer.old < W.failures writer.new) }
    ensures kept { OnErr result (Extends (W.contents writer.old) (W.contents writer.new)) }
{
    if row.pages == 0 {
        return Ok(());
    }
    let chunks = row.chunks(classes, class);
    let numbers = [
        ("chunk_size", chunks.chunk_bytes),
        ("chunks_per_page", chunks.per_page),
        ("total_pages", row.pages),
        ("total_chunks", chunks.chunks),
        ("used_chunks", chunks.used),
        ("free_chunks", row.free),
    ];
    write_class_lines(b"STAT ", class, &numbers, writer)
}

// Writes the lines of some numbers of a class, each with this head before the class's number.
pub(crate) fn write_class_lines<W: Sink>(
    head: &[u8],
    class: ClassId,
    numbers: &[(&str, u64)],
    writer: &mut W,
) -> Result<(), Fault>
    ensures bytes { OnOk result (Appends (W.contents writer.old) (W.contents writer.new)
        (flat_map (λ number. labelled_line head.now class number.0.now number.1) numbers.now)) }
    ensures ok { OnOk result (W.failures writer.new ≡ W.failures writer.old) }
    ensures err { OnErr result (W.failures writer.old < W.failures writer.new) }
    ensures kept { OnErr result (Extends (W.contents writer.old) (W.contents writer.new)) }
{
    for (name, number) in numbers {
        write_class_line(head, class, name, *number, writer)?;
    }
    Ok(())
}

// Writes the line of a number of a class.
fn write_class_line<W: Sink>(
    head: &[u8],
    class: ClassId,
    name: &str,
    number: u64,
    writer: &mut W,
) -> Result<(), Fault>
    ensures bytes { OnOk result (Appends (W.contents writer.old) (W.contents writer.new)
        (labelled_line head.now class name.now number)) }
    ensures ok { OnOk result (W.failures writer.new ≡ W.failures writer.old) }
    ensures err { OnErr result (W.failures writer.old < W.failures writer.new) }
    ensures kept { OnErr result (Extends (W.contents writer.old) (W.contents writer.new)) }
{
    write_label(head, class, writer)?;
    write_number(name, number, writer)
}

// Writes the begin of a line of a class.
fn write_label<W: Sink>(head: &[u8], class: ClassId, writer: &mut W) -> Result<(), Fault>
    ensures bytes { OnOk result (Appends (W.contents writer.old) (W.contents writer.new)
        (class_label head.now class)) }
    ensures ok { OnOk result (W.failures writer.new ≡ W.failures writer.old) }
    ensures err { OnErr result (W.failures writer.old < W.failures writer.new) }
    ensures kept { OnErr result (Extends (W.contents writer.old) (W.contents writer.new)) }
{
    let mut digits = Buffer::new();
    write_pieces(&[head, digits.format(class).as_bytes(), b":"], writer)
}

// Writes a number behind its name, and ends the line.
fn write_number<W: Sink>(name: &str, number: u64, writer: &mut W) -> Result<(), Fault>
    ensures bytes { OnOk result (Appends (W.contents writer.old) (W.contents writer.new)
        (named_number name.now number)) }
    ensures ok { OnOk result (W.failures writer.new ≡ W.failures writer.old) }
    ensures err { OnErr result (W.failures writer.old < W.failures writer.new) }
    ensures kept { OnErr result (Extends (W.contents writer.old) (W.contents writer.new)) }
{
    let mut digits = Buffer::new();
    write_pieces(
        &[
            name.as_bytes(),
            b" ",
            digits.format(number).as_bytes(),
            b"\r\n",
        ],
        writer,
    )
}

// How many classes have pages.
fn count_paged(rows: &[ClassStats]) -> usize
    ensures { result ≡ count_by (λ row. nat_lt 0 row.pages) rows.now }
{
    rows.iter().filter(|row| row.pages > 0).count()
}

/// A worked text: of two classes, class 1 has no page.
pub fn worked_slabs()
    ensures { SlabsOfTwoClasses }
{}
