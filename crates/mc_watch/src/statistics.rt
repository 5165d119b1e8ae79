//! The texts of the statistics, written piece by piece. They take no memory, and no write is made after one that failed.
ghost use Rattle.std.specs.Prelude.{◌≡◌, ◌+◌, ◌*◌, ◌<◌, ◌≤◌, ◌^◌, if◌then◌else◌, codes, count_by, nat_lt, OnErr, OnOk};
ghost use Rattle.std.specs.List.{flat_map};
ghost use Rattle.std.specs.Io.KnownBytes.{Appends};
ghost use Rattle.mc_io.specs.Device.{Extends};
ghost use Rattle.mc_watch.specs.Texts.{stat_line, class_line, class_lines, classes_lines, totals_lines, slabs_text, general_text, AreCounts};

use itoa::Buffer;
use mc_classes::{ClassId, ClassTable, Fault, Sink};

/// Writes the text of `stats slabs`: of each class that has pages its chunk size, its pages and its chunks, then how many
/// classes have pages and the bytes granted.
///
/// `pages` and `free` have one number for each class: its pages and the chunks of its free list. `malloced` is in bytes.
/// used_chunks is total_chunks less the free list's length (own). Where a write fails, no other is made.
pub fn stats_slabs<W: Sink>(
    table: &ClassTable,
    pages: &[u64],
    free: &[u64],
    malloced: u64,
    writer: &mut W,
) -> Result<(), Fault>
    requires { AreCounts table.now pages.now free.now }
    ensures bytes { OnOk result (Appends (W.contents writer.old) (W.contents writer.new)
        (slabs_text table.now pages.now free.now malloced)) }
    ensures ok { OnOk result (W.failures writer.new ≡ W.failures writer.old) }
    ensures err { OnErr result (W.failures writer.old < W.failures writer.new) }
    ensures kept { OnErr result (Extends (W.contents writer.old) (W.contents writer.new)) }
{
    write_classes(table, pages, free, writer)?;
    write_totals(active_count(pages) as u64, malloced, writer)
}

/// Writes the text of `stats`: the pages of the pool, whether a page is moving, and the mover's counters.
pub fn stats_general<W: Sink>(
    pool: u64,
    running: bool,
    moved: u64,
    rescues: u64,
    evictions_nomem: u64,
    busy: u64,
    writer: &mut W,
) -> Result<(), Fault>
    ensures bytes { OnOk result (Appends (W.contents writer.old) (W.contents writer.new)
        (general_text pool (if running then 1 else 0) moved rescues evictions_nomem busy)) }
    ensures ok { OnOk result (W.failures writer.new ≡ W.failures writer.old) }
    ensures err { OnErr result (W.failures writer.old < W.failures writer.new) }
    ensures kept { OnErr result (Extends (W.contents writer.old) (W.contents writer.new)) }
{
    let stats = [
        ("slab_global_page_pool", pool),
        ("slab_reassign_running", u64::from(running)),
        ("slabs_moved", moved),
        ("slab_reassign_rescues", rescues),
        ("slab_reassign_evictions_nomem", evictions_nomem),
        ("slab_reassign_busy_items", busy),
    ];
    write_stats(&stats, writer)?;
    writer.write_all(b"END\r\n")
}

/// Writes the lines of the classes that have pages.
fn write_classes<W: Sink>(
    table: &ClassTable,
    pages: &[u64],
    free: &[u64],
    writer: &mut W,
) -> Result<(), Fault>
    requires { AreCounts table.now pages.now free.now }
    ensures bytes { OnOk result (Appends (W.contents writer.old) (W.contents writer.new)
        (classes_lines table.now 1 pages.now free.now)) }
    ensures ok { OnOk result (W.failures writer.new ≡ W.failures writer.old) }
    ensures err { OnErr result (W.failures writer.old < W.failures writer.new) }
    ensures kept { OnErr result (Extends (W.contents writer.old) (W.contents writer.new)) }
{
    for place in 0..pages.len() {
        let class = place as u64 + 1;
        if pages[place] != 0 {
            write_class(
                class,
                table.size(class),
                table.per_page(class),
                pages[place],
                free[place],
                writer,
            )?;
        }
    }
    Ok(())
}

/// Writes the six lines of a class.
fn write_class<W: Sink>(
    class: ClassId,
    size: u64,
    per_page: u64,
    pages: u64,
    free: u64,
    writer: &mut W,
) -> Result<(), Fault>
    requires chunks { free ≤ pages * per_page }
    requires small { pages * per_page < 2 ^ 64 }
    ensures bytes { OnOk result (Appends (W.contents writer.old) (W.contents writer.new)
        (class_lines class size per_page pages free)) }
    ensures ok { OnOk result (W.failures writer.new ≡ W.failures writer.old) }
    ensures err { OnErr result (W.failures writer.old < W.failures writer.new) }
    ensures kept { OnErr result (Extends (W.contents writer.old) (W.contents writer.new)) }
{
    let chunks = pages * per_page;
    let stats = [
        ("chunk_size", size),
        ("chunks_per_page", per_page),
        ("total_pages", pages),
        ("total_chunks", chunks),
        ("used_chunks", chunks - free),
        ("free_chunks", free),
    ];
    write_class_stats(class, &stats, writer)
}

/// Writes the lines below those of the classes.
fn write_totals<W: Sink>(active: u64, malloced: u64, writer: &mut W) -> Result<(), Fault>
    ensures bytes { OnOk result (Appends (W.contents writer.old) (W.contents writer.new)
        (totals_lines active malloced)) }
    ensures ok { OnOk result (W.failures writer.new ≡ W.failures writer.old) }
    ensures err { OnErr result (W.failures writer.old < W.failures writer.new) }
    ensures kept { OnErr result (Extends (W.contents writer.old) (W.contents writer.new)) }
{
    let stats = [("active_slabs", active), ("total_malloced", malloced)];
    write_stats(&stats, writer)?;
    writer.write_all(b"END\r\n")
}

/// How many classes have pages.
fn active_count(pages: &[u64]) -> usize
    ensures { result ≡ count_by (λ n. nat_lt 0 n) pages.now }
{
    pages.iter().filter(|n| **n > 0).count()
}

/// Writes the lines of some numbers of a class.
fn write_class_stats<W: Sink>(
    class: ClassId,
    stats: &[(&str, u64)],
    writer: &mut W,
) -> Result<(), Fault>
    ensures bytes { OnOk result (Appends (W.contents writer.old) (W.contents writer.new)
        (flat_map (λ stat. class_line class stat.0.now stat.1) stats.now)) }
    ensures ok { OnOk result (W.failures writer.new ≡ W.failures writer.old) }
    ensures err { OnErr result (W.failures writer.old < W.failures writer.new) }
    ensures kept { OnErr result (Extends (W.contents writer.old) (W.contents writer.new)) }
{
    for (name, value) in stats {
        let mut class_digits = Buffer::new();
        let mut digits = Buffer::new();
        write_pieces(
            &[
                b"STAT ",
                class_digits.format(class).as_bytes(),
                b":",
                name.as_bytes(),
                b" ",
                digits.format(*value).as_bytes(),
                b"\r\n",
            ],
            writer,
        )?;
    }
    Ok(())
}

/// Writes the lines of some numbers.
fn write_stats<W: Sink>(stats: &[(&str, u64)], writer: &mut W) -> Result<(), Fault>
    ensures bytes { OnOk result (Appends (W.contents writer.old) (W.contents writer.new)
        (flat_map (λ stat. stat_line stat.0.now stat.1) stats.now)) }
    ensures ok { OnOk result (W.failures writer.new ≡ W.failures writer.old) }
    ensures err { OnErr result (W.failures writer.old < W.failures writer.new) }
    ensures kept { OnErr result (Extends (W.contents writer.old) (W.contents writer.new)) }
{
    for (name, value) in stats {
        let mut digits = Buffer::new();
        write_pieces(
            &[
                b"STAT ",
                name.as_bytes(),
                b" ",
                digits.format(*value).as_bytes(),
                b"\r\n",
            ],
            writer,
        )?;
    }
    Ok(())
}

/// Writes some pieces, one after another.
fn write_pieces<W: Sink>(pieces: &[&[u8]], writer: &mut W) -> Result<(), Fault>
    ensures bytes { OnOk result (Appends (W.contents writer.old) (W.contents writer.new)
        (flat_map (λ piece. piece.now) pieces.now)) }
    ensures ok { OnOk result (W.failures writer.new ≡ W.failures writer.old) }
    ensures err { OnErr result (W.failures writer.old < W.failures writer.new) }
    ensures kept { OnErr result (Extends (W.contents writer.old) (W.contents writer.new)) }
{
    for piece in pieces {
        writer.write_all(piece)?;
    }
    Ok(())
}
