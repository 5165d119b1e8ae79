//! The lines of the classes of a map, as text.
ghost use Rattle.std.specs.Prelude.{◌≡◌, ◌++◌, OnOk, flat_map, string_bytes};
ghost use Rattle.mc_picture.specs.Maps.{
  added_line,
  bytes_legend,
  bytes_text,
  chunk_counts_text,
  chunk_legend,
  counts_text,
  kind_legend,
  line_columns,
  line_legend,
  line_text,
  no_line,
  share_text,
  share_used,
  sizes_text,
  sum_heading_text,
  sum_text,
  sum_with,
};

use mc_map::ClassLine;
use std::alloc::AllocError;
use std::fmt::Write;

/// Adds what the columns of the classes are.
#[tactic(auto, unfolding(crate::specs::Maps::line_columns))]
pub(crate) fn write_line_columns(text: &mut String) -> Result<(), AllocError>
    ensures columns { OnOk result (string_bytes text.new ≡ string_bytes text.old ++ line_columns) }
{
    text.push_str(
        "\nclass   size per page pages chunks  used linked unlinked  dead  free cleared  held    asked    bytes    waste evicted\n",
    )
}

/// Adds the line of each of these classes.
pub(crate) fn write_each_line(lines: &[ClassLine], text: &mut String) -> Result<(), AllocError>
    ensures lines { OnOk result (string_bytes text.new ≡ string_bytes text.old
        ++ flat_map line_text lines.now) }
{
    for line in lines {
        write_line(line, text)?;
    }
    Ok(())
}

/// Adds the line of a class.
#[tactic(auto, unfolding(crate::specs::Maps::line_text))]
fn write_line(line: &ClassLine, text: &mut String) -> Result<(), AllocError>
    ensures line { OnOk result (string_bytes text.new ≡ string_bytes text.old
        ++ line_text line.now) }
{
    write_sizes(line, text)?;
    write_counts(line, text)
}

/// Adds a class, the bytes of its chunks, how many a page has, and how many pages the class has.
#[tactic(auto, unfolding(crate::specs::Maps::sizes_text))]
fn write_sizes(line: &ClassLine, text: &mut String) -> Result<(), AllocError>
    ensures sizes { OnOk result (string_bytes text.new ≡ string_bytes text.old
        ++ sizes_text line.now) }
{
    write!(text, "{:>5}{:>7}", line.class, line.size)?;
    write!(text, "{:>9}{:>6}", line.per_page, line.pages)
}

/// Adds the counts of a class.
#[tactic(auto, unfolding(crate::specs::Maps::counts_text))]
fn write_counts(line: &ClassLine, text: &mut String) -> Result<(), AllocError>
    ensures counts { OnOk result (string_bytes text.new ≡ string_bytes text.old
        ++ counts_text line.now) }
{
    write_share(line.chunks, line.linked, line.unlinked, text)?;
    write_chunks(line, text)?;
    write_bytes(line, text)
}

/// The share of the chunks with items in use, in whole parts of a hundred.
fn share_used(linked: u64, unlinked: u64, chunks: u64) -> u128
    ensures { result ≡ share_used linked unlinked chunks }
{
    if chunks == 0 {
        return 0;
    }
    (linked as u128 + unlinked as u128) * 100 / chunks as u128
}

/// Adds how many chunks there are, and which share is in use.
#[tactic(auto, unfolding(crate::specs::Maps::share_text))]
fn write_share(chunks: u64, linked: u64, unlinked: u64, text: &mut String) -> Result<(), AllocError>
    ensures share { OnOk result (string_bytes text.new ≡ string_bytes text.old
        ++ share_text chunks linked unlinked) }
{
    let share = share_used(linked, unlinked, chunks);
    write!(text, "{chunks:>7}{share:>5}%")
}

/// Adds how many of a class's chunks are linked, unlinked, dead, free and cleared, and how many items are held.
#[tactic(auto, unfolding(crate::specs::Maps::chunk_counts_text))]
fn write_chunks(line: &ClassLine, text: &mut String) -> Result<(), AllocError>
    ensures chunks { OnOk result (string_bytes text.new ≡ string_bytes text.old
        ++ chunk_counts_text line.now) }
{
    write!(
        text,
        "{:>7}{:>9}{:>6}",
        line.linked, line.unlinked, line.dead
    )?;
    write!(text, "{:>6}{:>8}{:>6}", line.free, line.cleared, line.held)
}

/// Adds the bytes that a class's items ask for, those of their chunks and what is wasted of these, and how many were evicted.
#[tactic(auto, unfolding(crate::specs::Maps::bytes_text))]
fn write_bytes(line: &ClassLine, text: &mut String) -> Result<(), AllocError>
    ensures bytes { OnOk result (string_bytes text.new ≡ string_bytes text.old
        ++ bytes_text line.now) }
{
    write!(text, "{:>9}{:>9}", line.asked, line.bytes)?;
    writeln!(text, "{:>9}{:>8}", line.waste(), line.evictions)
}

/// A line without counts.
fn no_line() -> ClassLine
    ensures { result ≡ no_line }
{
    ClassLine {
        class: 0,
        size: 0,
        per_page: 0,
        pages: 0,
        chunks: 0,
        linked: 0,
        held: 0,
        unlinked: 0,
        dead: 0,
        free: 0,
        cleared: 0,
        asked: 0,
        bytes: 0,
        evictions: 0,
    }
}

/// The counts of two lines as one, none beyond the greatest number.
fn added_line(sum: ClassLine, line: ClassLine) -> ClassLine
    ensures sum { result ≡ added_line sum line }
{
    ClassLine {
        pages: sum.pages.saturating_add(line.pages),
        chunks: sum.chunks.saturating_add(line.chunks),
        linked: sum.linked.saturating_add(line.linked),
        held: sum.held.saturating_add(line.held),
        unlinked: sum.unlinked.saturating_add(line.unlinked),
        dead: sum.dead.saturating_add(line.dead),
        free: sum.free.saturating_add(line.free),
        cleared: sum.cleared.saturating_add(line.cleared),
        asked: sum.asked.saturating_add(line.asked),
        bytes: sum.bytes.saturating_add(line.bytes),
        evictions: sum.evictions.saturating_add(line.evictions),
        ..sum
    }
}

/// The counts of these lines as one.
pub(crate) fn sum_of(lines: &[ClassLine]) -> ClassLine
    ensures sum { result ≡ sum_with no_line lines.now }
{
    let mut sum = no_line();
    for line in lines {
        sum = added_line(sum, *line);
    }
    sum
}

/// Adds the line of totals.
#[tactic(auto, unfolding(crate::specs::Maps::sum_text))]
pub(crate) fn write_sum(sum: &ClassLine, text: &mut String) -> Result<(), AllocError>
    ensures sum { OnOk result (string_bytes text.new ≡ string_bytes text.old ++ sum_text sum.now) }
{
    write_sum_heading(sum.pages, text)?;
    write_counts(sum, text)
}

/// Adds how many pages all classes have.
#[tactic(auto, unfolding(crate::specs::Maps::sum_heading_text))]
fn write_sum_heading(pages: u64, text: &mut String) -> Result<(), AllocError>
    ensures heading { OnOk result (string_bytes text.new ≡ string_bytes text.old
        ++ sum_heading_text pages) }
{
    write!(text, "total{pages:>22}")
}

/// Adds how the lines of the classes are to be read.
#[tactic(auto, unfolding(crate::specs::Maps::line_legend))]
pub(crate) fn write_line_legend(text: &mut String) -> Result<(), AllocError>
    ensures legend { OnOk result (string_bytes text.new ≡ string_bytes text.old ++ line_legend) }
{
    write_chunk_legend(text)?;
    write_kind_legend(text)?;
    write_bytes_legend(text)
}

/// Adds how the counts of chunks are to be read.
#[tactic(auto, unfolding(crate::specs::Maps::chunk_legend))]
fn write_chunk_legend(text: &mut String) -> Result<(), AllocError>
    ensures legend { OnOk result (string_bytes text.new ≡ string_bytes text.old ++ chunk_legend) }
{
    text.push_str(
        "  chunks = linked + unlinked + dead + free + cleared; used is the share of the linked and the unlinked\n",
    )
}

/// Adds what the kinds of chunks are.
#[tactic(auto, unfolding(crate::specs::Maps::kind_legend))]
fn write_kind_legend(text: &mut String) -> Result<(), AllocError>
    ensures legend { OnOk result (string_bytes text.new ≡ string_bytes text.old ++ kind_legend) }
{
    text.push_str(
        "  linked: its key leads to the item; unlinked: deleted or replaced, and somebody holds it; dead: nobody does\n",
    )
}

/// Adds how the other counts are to be read.
#[tactic(auto, unfolding(crate::specs::Maps::bytes_legend))]
fn write_bytes_legend(text: &mut String) -> Result<(), AllocError>
    ensures legend { OnOk result (string_bytes text.new ≡ string_bytes text.old ++ bytes_legend) }
{
    text.push_str(
        "  held: items that somebody holds; cleared: emptied for a move; of the linked items: asked, their bytes; bytes, those of their chunks\n",
    )
}
