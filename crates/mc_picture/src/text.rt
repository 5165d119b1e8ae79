//! A map as text.
ghost use Rattle.std.specs.Prelude.{◌≡◌, ◌++◌, ◌<◌, ◌^◌, OnOk, count_by, length, string_bytes};
ghost use Rattle.mc_picture.specs.Maps.{
  beyond_heading,
  end_text,
  front_text,
  granted_beyond_text,
  granted_within_text,
  heading_text,
  is_granted,
  lines_text,
  map_page_text,
  map_text,
  moved_text,
  owner_text,
  page_bytes_text,
  page_columns,
  page_legend,
  page_map_text,
  page_totals_text,
  pages_text,
  parts_text,
  start_text,
};

use crate::hang::write_move;
use crate::ledger::write_ledger;
use crate::lines::{sum_of, write_each_line, write_line_columns, write_line_legend, write_sum};
use mc_map::{ClassLine, Map, Owner, Totals};
use std::alloc::AllocError;
use std::fmt::Write;

/// How many pages a line of the page map has.
const PAGES_A_LINE: usize = 8;

/// Adds the text of a map under this heading: who owns each page, what each class has, the ledger, and where the move hangs.
#[tactic(auto, unfolding(crate::specs::Maps::map_text))]
pub fn write_map(map: &Map, heading: &str, text: &mut String) -> Result<(), AllocError>
    ensures map { OnOk result (string_bytes text.new ≡ string_bytes text.old
        ++ map_text heading.now map.now) }
{
    write_front(map, heading, text)?;
    write_ledger(&map.ledger, text)?;
    write_move(map.moving, map.chunks, &map.hang, text)?;
    text.push_str("\n")
}

/// Adds the heading, who owns each page, and what each class has.
#[tactic(auto, unfolding(crate::specs::Maps::front_text))]
fn write_front(map: &Map, heading: &str, text: &mut String) -> Result<(), AllocError>
    ensures front { OnOk result (string_bytes text.new ≡ string_bytes text.old
        ++ front_text heading.now map.now) }
{
    let owners = map.owners.as_slice();
    let (within, beyond) = owners.split_at((map.within as usize).min(owners.len()));
    write_parts(map, heading, within, beyond, text)
}

/// Adds the heading, who owns each page within the limit and beyond it, and what each class has.
#[tactic(auto, unfolding(crate::specs::Maps::parts_text))]
fn write_parts(
    map: &Map,
    heading: &str,
    within: &[Owner],
    beyond: &[Owner],
    text: &mut String,
) -> Result<(), AllocError>
    ensures parts { OnOk result (string_bytes text.new ≡ string_bytes text.old
        ++ parts_text heading.now map.now within.now beyond.now) }
{
    write_heading(heading, map.done, text)?;
    write_totals(map.page, within, beyond, map.totals, text)?;
    write_owners(within, beyond, text)?;
    write_lines(&map.classes, text)
}

/// Adds where in the script, and how many commands are done.
#[tactic(auto, unfolding(crate::specs::Maps::heading_text))]
fn write_heading(heading: &str, done: u64, text: &mut String) -> Result<(), AllocError>
    ensures heading { OnOk result (string_bytes text.new ≡ string_bytes text.old
        ++ heading_text heading.now done) }
{
    writeln!(text, "map {heading}, {done} commands done\n")
}

/// Adds how many pages there are, of how many bytes, and where they are.
#[tactic(auto, unfolding(crate::specs::Maps::page_totals_text))]
fn write_totals(
    page: u64,
    within: &[Owner],
    beyond: &[Owner],
    totals: Totals,
    text: &mut String,
) -> Result<(), AllocError>
    ensures totals { OnOk result (string_bytes text.new ≡ string_bytes text.old
        ++ page_totals_text page within.now beyond.now totals) }
{
    write_page_bytes(page, text)?;
    write_granted_within(within, text)?;
    write_granted_beyond(beyond, text)?;
    write_moved(totals, text)
}

/// Adds the bytes of a page.
#[tactic(auto, unfolding(crate::specs::Maps::page_bytes_text))]
fn write_page_bytes(page: u64, text: &mut String) -> Result<(), AllocError>
    ensures page { OnOk result (string_bytes text.new ≡ string_bytes text.old
        ++ page_bytes_text page) }
{
    write!(text, "pages of {page} bytes: ")
}

/// Whether somebody was given the page.
fn is_granted(owner: Owner) -> bool
    ensures { result ≡ is_granted owner }
{
    match owner {
        Owner::Untouched => false,
        Owner::Pool | Owner::Class(_) | Owner::Moving { .. } => true,
    }
}

/// How many of these pages were granted.
fn granted_count(owners: &[Owner]) -> usize
    ensures { result ≡ count_by is_granted owners.now }
{
    owners.iter().filter(|owner| is_granted(**owner)).count()
}

/// Adds how many of these pages within the limit were granted.
#[tactic(auto, unfolding(crate::specs::Maps::granted_within_text))]
fn write_granted_within(owners: &[Owner], text: &mut String) -> Result<(), AllocError>
    ensures granted { OnOk result (string_bytes text.new ≡ string_bytes text.old
        ++ granted_within_text owners.now) }
{
    let (granted, pages) = (granted_count(owners), owners.len());
    write!(text, "{granted} of {pages} within the limit granted, ")
}

/// Adds how many of these pages beyond the limit were granted.
#[tactic(auto, unfolding(crate::specs::Maps::granted_beyond_text))]
fn write_granted_beyond(owners: &[Owner], text: &mut String) -> Result<(), AllocError>
    ensures granted { OnOk result (string_bytes text.new ≡ string_bytes text.old
        ++ granted_beyond_text owners.now) }
{
    let (granted, pages) = (granted_count(owners), owners.len());
    write!(text, "{granted} of {pages} first pages beyond it; ")
}

/// Adds how many pages are in the pool, and how many moved.
#[tactic(auto, unfolding(crate::specs::Maps::moved_text))]
fn write_moved(totals: Totals, text: &mut String) -> Result<(), AllocError>
    ensures moved { OnOk result (string_bytes text.new ≡ string_bytes text.old
        ++ moved_text totals) }
{
    let Totals { pool, moved, .. } = totals;
    writeln!(text, "{pool} in the pool, {moved} moved")
}

/// Adds the page map: who owns each page within the limit, and each beyond it.
#[tactic(auto, unfolding(crate::specs::Maps::page_map_text))]
fn write_owners(within: &[Owner], beyond: &[Owner], text: &mut String) -> Result<(), AllocError>
    ensures owners { OnOk result (string_bytes text.new ≡ string_bytes text.old
        ++ page_map_text within.now beyond.now) }
{
    write_page_columns(text)?;
    write_pages(0, within, text)?;
    write_beyond(text)?;
    write_pages(within.len(), beyond, text)?;
    write_page_legend(text)
}

/// Adds what is before the pages beyond the limit.
#[tactic(auto, unfolding(crate::specs::Maps::beyond_heading))]
fn write_beyond(text: &mut String) -> Result<(), AllocError>
    ensures heading { OnOk result (string_bytes text.new ≡ string_bytes text.old ++ beyond_heading) }
{
    text.push_str("  beyond the limit, for the first page of a class:\n")
}

/// Adds what the columns of the page map are.
#[tactic(auto, unfolding(crate::specs::Maps::page_columns))]
fn write_page_columns(text: &mut String) -> Result<(), AllocError>
    ensures columns { OnOk result (string_bytes text.new ≡ string_bytes text.old ++ page_columns) }
{
    text.push_str("         +0     +1     +2     +3     +4     +5     +6     +7\n")
}

/// Adds how the page map is to be read.
#[tactic(auto, unfolding(crate::specs::Maps::page_legend))]
fn write_page_legend(text: &mut String) -> Result<(), AllocError>
    ensures legend { OnOk result (string_bytes text.new ≡ string_bytes text.old ++ page_legend) }
{
    text.push_str(
        "  a number is a class, 4>1 moves from class 4 to 1, p is the pool, . was never granted\n",
    )
}

/// Adds each page of a part that begins with page `first`, eight in a line.
fn write_pages(first: usize, owners: &[Owner], text: &mut String) -> Result<(), AllocError>
    requires { first < 2 ^ 60 }
    ensures pages { OnOk result (string_bytes text.new ≡ string_bytes text.old
        ++ pages_text first owners.now (length owners.now)) }
{
    for place in 0..owners.len() {
        write_page(first, owners, place, text)?;
    }
    Ok(())
}

/// Adds a page of a part.
#[tactic(auto, unfolding(crate::specs::Maps::map_page_text))]
fn write_page(
    first: usize,
    owners: &[Owner],
    place: usize,
    text: &mut String,
) -> Result<(), AllocError>
    requires first { first < 2 ^ 60 }
    requires place { place < length owners.now }
    ensures page { OnOk result (string_bytes text.new ≡ string_bytes text.old
        ++ map_page_text first owners.now place) }
{
    write_line_start(first, place, text)?;
    write_owner(owners[place], text)?;
    write_line_end(place, owners.len(), text)
}

/// Adds a page's number where a line of the page map starts.
#[tactic(auto, unfolding(crate::specs::Maps::start_text))]
fn write_line_start(first: usize, place: usize, text: &mut String) -> Result<(), AllocError>
    requires first { first < 2 ^ 60 }
    requires place { place < 2 ^ 60 }
    ensures start { OnOk result (string_bytes text.new ≡ string_bytes text.old
        ++ start_text first place) }
{
    if place % PAGES_A_LINE != 0 {
        return Ok(());
    }
    write!(text, "{:>4}", first + place)
}

/// Ends a line of the page map behind eight pages, and behind the last.
#[tactic(auto, unfolding(crate::specs::Maps::end_text))]
fn write_line_end(place: usize, pages: usize, text: &mut String) -> Result<(), AllocError>
    ensures end { OnOk result (string_bytes text.new ≡ string_bytes text.old
        ++ end_text place pages) }
{
    let last = pages.saturating_sub(1);
    if place % PAGES_A_LINE == PAGES_A_LINE - 1 || place == last {
        return text.push_str("\n");
    }
    Ok(())
}

/// Adds an owner in seven places.
#[tactic(auto, unfolding(crate::specs::Maps::owner_text))]
fn write_owner(owner: Owner, text: &mut String) -> Result<(), AllocError>
    ensures owner { OnOk result (string_bytes text.new ≡ string_bytes text.old
        ++ owner_text owner) }
{
    match owner {
        Owner::Untouched => text.push_str("      ."),
        Owner::Pool => text.push_str("      p"),
        Owner::Class(class) => write!(text, "{class:>7}"),
        Owner::Moving { src, dst: 0 } => write!(text, "{src:>5}>p"),
        Owner::Moving { src, dst } => write!(text, "{src:>4}>{dst:<2}"),
    }
}

/// Adds the lines of the classes, and their totals.
#[tactic(auto, unfolding(crate::specs::Maps::lines_text))]
fn write_lines(lines: &[ClassLine], text: &mut String) -> Result<(), AllocError>
    ensures lines { OnOk result (string_bytes text.new ≡ string_bytes text.old
        ++ lines_text lines.now) }
{
    if lines.is_empty() {
        return text.push_str("\nno class has a page\n");
    }
    write_line_columns(text)?;
    write_each_line(lines, text)?;
    write_sum(&sum_of(lines), text)?;
    write_line_legend(text)
}
