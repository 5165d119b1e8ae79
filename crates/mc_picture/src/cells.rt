//! The cells of a chart: how the owner of a page is drawn, in one box for all columns in a row that have the same.
ghost use Rattle.std.specs.Prelude.{◌≡◌, ◌++◌, ◌<◌, ◌≤◌, ◌^◌, ◌+◌, ◌*◌, IfOk, OnOk, length, map, string_bytes};
ghost use Rattle.mc_pages.specs.Ledger.{owner_at};
ghost use Rattle.mc_picture.specs.Cells.{
  box_corner_text,
  box_place_text,
  box_text,
  cell_text,
  cells_text,
  class_box_text,
  colour_code,
  colour_text,
  is_run_start,
  is_same_owner,
  page_owners,
  run_length,
  run_text,
  runs_text,
  same_count,
  shade_of,
};

use mc_classes::ClassId;
use mc_pages::Owner;
use std::alloc::{AllocError, Global};
use std::fmt::Write;

/// The sides of a cell, and the place of the first one.
const WIDTH: usize = 24;

const HEIGHT: usize = 20;

pub(crate) const LEFT: usize = 76;

const TOP: usize = 64;

/// A number below 64, which differs from class to class. The colours of classes with numbers close to each other differ most.
fn colour_code(class: ClassId) -> u64
    ensures code { result ≡ colour_code class }
    ensures low { result < 64 }
{
    (class % 64 * 39 + 63) % 64
}

/// One of four shades of red, green or blue.
fn shade_of(code: u64) -> u64
    ensures shade { result ≡ shade_of code }
{
    96 + code % 4 * 50
}

/// Adds the colour of a class.
fn write_colour(class: ClassId, text: &mut String) -> Result<(), AllocError>
    ensures colour { OnOk result (string_bytes text.new ≡ string_bytes text.old
        ++ colour_text class) }
{
    let code = colour_code(class);
    let (red, green, blue) = (shade_of(code), shade_of(code / 4), shade_of(code / 16));
    write!(text, "rgb({red},{green},{blue})")
}

/// Where a column begins, from the left.
pub(crate) fn column_at(place: usize) -> usize
    requires { place < 2 ^ 59 }
    ensures { result ≡ 76 + place * 24 }
{
    LEFT + place * WIDTH
}

/// Where the row of a page begins, from the top.
pub(crate) fn row_at(page: usize) -> usize
    requires { page < 2 ^ 59 }
    ensures { result ≡ 64 + page * 20 }
{
    TOP + page * HEIGHT
}

/// Adds where a box begins.
#[tactic(auto, unfolding(crate::specs::Cells::box_corner_text))]
fn write_corner(x: usize, y: usize, text: &mut String) -> Result<(), AllocError>
    ensures corner { OnOk result (string_bytes text.new ≡ string_bytes text.old
        ++ box_corner_text x y) }
{
    write!(text, "<rect x=\"{x}\" y=\"{y}\"")
}

/// Adds where a box begins and how wide it is, up to its fill.
fn write_box_place(x: usize, y: usize, wide: usize, text: &mut String) -> Result<(), AllocError>
    ensures place { OnOk result (string_bytes text.new ≡ string_bytes text.old
        ++ box_place_text x y wide) }
{
    write_corner(x, y, text)?;
    write!(text, " width=\"{wide}\" height=\"17\" fill=\"")
}

/// Adds a box that is filled so.
pub(crate) fn write_box(
    x: usize,
    y: usize,
    wide: usize,
    fill: &str,
    text: &mut String,
) -> Result<(), AllocError>
    ensures { OnOk result (string_bytes text.new ≡ string_bytes text.old
        ++ box_text x y wide fill.now) }
{
    write_box_place(x, y, wide, text)?;
    writeln!(text, "{fill}\"/>")
}

/// Adds a box in the colour of a class.
pub(crate) fn write_class_box(
    x: usize,
    y: usize,
    wide: usize,
    class: ClassId,
    text: &mut String,
) -> Result<(), AllocError>
    ensures { OnOk result (string_bytes text.new ≡ string_bytes text.old
        ++ class_box_text x y wide class) }
{
    write_box_place(x, y, wide, text)?;
    write_colour(class, text)?;
    text.push_str("\"/>\n")
}

/// Adds the box of a page with this owner.
fn write_cell(
    x: usize,
    y: usize,
    wide: usize,
    owner: Owner,
    text: &mut String,
) -> Result<(), AllocError>
    ensures cell { OnOk result (string_bytes text.new ≡ string_bytes text.old
        ++ cell_text x y wide owner) }
{
    match owner {
        Owner::Untouched => write_box(x, y, wide, "none\" stroke=\"#ddd", text),
        Owner::Pool => write_box(x, y, wide, "url(#pool)", text),
        Owner::Class(class) => write_class_box(x, y, wide, class, text),
        Owner::Moving { src, dst: _ } => {
            write_class_box(x, y, wide, src, text)?;
            write_box(x, y, wide, "url(#moving)", text)
        }
    }
}

/// Whether the two owners are the same.
fn is_same(owner: Owner, other: Owner) -> bool
    ensures { result ≡ is_same_owner owner other }
{
    match (owner, other) {
        (Owner::Untouched, Owner::Untouched) | (Owner::Pool, Owner::Pool) => true,
        (Owner::Class(class), Owner::Class(to)) => class == to,
        (Owner::Moving { src, dst }, Owner::Moving { src: from, dst: to }) => {
            src == from && dst == to
        }
        _ => false,
    }
}

/// Whether a run begins in this column: the column before has another owner, or there is none.
fn is_run_start(owners: &[Owner], place: usize) -> bool
    requires { place < length owners.now }
    ensures { result ≡ is_run_start owners.now place }
{
    if place == 0 {
        return true;
    }
    !is_same(owners[place - 1], owners[place])
}

/// How many of the first owners are this one.
fn same_count(owner: Owner, owners: &[Owner]) -> usize
    ensures count { result ≡ same_count owner owners.now }
    ensures within_limit { result ≤ length owners.now }
{
    let mut count = 0;
    for other in owners {
        if !is_same(owner, *other) {
            return count;
        }
        count += 1;
    }
    count
}

/// How many columns from this one on have the owner of this one.
fn run_length(owners: &[Owner], place: usize) -> usize
    requires { place < length owners.now }
    ensures run { result ≡ run_length owners.now place }
    ensures within_limit { result ≤ length owners.now }
{
    same_count(owners[place], &owners[place..])
}

/// Adds the box of the run that begins in this column, if one does.
#[tactic(auto, unfolding(crate::specs::Cells::run_text))]
fn write_run(owners: &[Owner], place: usize, y: usize, text: &mut String) -> Result<(), AllocError>
    requires { place < length owners.now }
    ensures run { OnOk result (string_bytes text.new ≡ string_bytes text.old
        ++ run_text owners.now y place) }
{
    if !is_run_start(owners, place) {
        return Ok(());
    }
    let wide = run_length(owners, place) * WIDTH;
    write_cell(column_at(place), y, wide, owners[place], text)
}

/// Adds the boxes of a page that has these owners, column after column.
fn write_runs(owners: &[Owner], y: usize, text: &mut String) -> Result<(), AllocError>
    ensures runs { OnOk result (string_bytes text.new ≡ string_bytes text.old
        ++ runs_text owners.now y (length owners.now)) }
{
    for place in 0..owners.len() {
        write_run(owners, place, y, text)?;
    }
    Ok(())
}

/// The owner of a page in a column.
fn owner_in(owners: &[Owner], page: usize) -> Owner
    ensures { result ≡ owner_at owners.now page }
{
    if page < owners.len() {
        return owners[page];
    }
    Owner::Untouched
}

/// The owners of a page, column after column.
fn page_owners(alloc: Global, columns: &[Vec<Owner>], page: usize) -> Result<Vec<Owner>, AllocError>
    ensures owners { IfOk result (λ owners. owners.items
        ≡ page_owners (map (λ column. column.items) columns.now) page) }
{
    let mut owners = Vec::new(alloc);
    for column in columns {
        owners.push(owner_in(column.as_slice(), page))?;
    }
    Ok(owners)
}

/// Adds the boxes of the first n pages in all columns.
pub(crate) fn write_cells(
    alloc: Global,
    columns: &[Vec<Owner>],
    pages: usize,
    text: &mut String,
) -> Result<(), AllocError>
    requires { pages ≤ 4096 }
    ensures cells { OnOk result (string_bytes text.new ≡ string_bytes text.old
        ++ cells_text (map (λ column. column.items) columns.now) pages) }
{
    for page in 0..pages {
        let owners = page_owners(alloc, columns, page)?;
        write_runs(owners.as_slice(), row_at(page), text)?;
    }
    Ok(())
}
