//! Pages over time, as an SVG: a row for each page, and a column before the first entry of the ledger and after each.
ghost use Rattle.std.specs.Prelude.{◌≡◌, ◌≤◌, ◌<◌, ◌^◌, ◌⊎◌, Err, OnOk, length, map, string_bytes};
ghost use Rattle.mc_classes.specs.Limits.{most_classes};
ghost use Rattle.mc_picture.specs.Charts.{IsChart};
ghost use Rattle.mc_picture.specs.Drawn.{TextExtends, IsDrawn};

use crate::cells::{LEFT, column_at, row_at, write_cells};
use crate::classes::ClassRow;
use crate::legend::{legend_end, write_legend};
use crate::sheet::Sheet;
use mc_map::{Misfit, columns};
use mc_pages::{Entry, Owner};
use std::alloc::{AllocError, Global};
use std::fmt::Write;

/// The most entries that a chart has columns for, beside the one before the first.
pub const MOST_ENTRIES: usize = 4095;

/// The most pages of a chart.
const MOST_PAGES: usize = 4096;

/// The least width, with room for the legend.
const LEAST: usize = 736;

/// The room behind the last column for the names of owners.
const NAMES: usize = 150;

/// Why no chart is drawn.
#[derive(Debug, PartialEq, Eq, Drop)]
pub enum ChartError {
    /// The entries are more than a chart has columns for, or the pages more than it has rows.
    Large,
    /// An entry finds its page otherwise.
    Misfit,
    /// Memory ran out, as std's strings report by an error that is no evidence.
    Memory,
}

impl From<Misfit> for ChartError {
    ghost use Rattle.std.specs.Prelude.{◌≡◌};
    ghost use Rattle.mc_picture.specs.Charts.{chart_error_of};

    ghost from_gives = { λ misfit error. error ≡ chart_error_of misfit };

    fn from(misfit: Misfit) -> ChartError {
        match misfit {
            Misfit::Entry => ChartError::Misfit,
            Misfit::NoMemory(_) => ChartError::Memory,
        }
    }
}

impl From<AllocError> for ChartError {
    ghost use Rattle.std.specs.Prelude.{◌≡◌};
    ghost use Rattle.mc_picture.specs.declared.chart.ChartError.TheVariants.{Memory};

    ghost from_gives = { λ full error. error ≡ Memory };

    fn from(_full: AllocError) -> ChartError {
        ChartError::Memory
    }
}

/// Adds a chart of n pages, each of `page` bytes: column k shows what the first k entries of the ledger make of them.
pub fn write_chart(
    alloc: Global,
    pages: usize,
    ledger: &[Entry],
    classes: &[ClassRow],
    page: u64,
    text: &mut String,
) -> Result<(), ChartError>
    requires { length classes.now ≤ most_classes }
    ensures chart { OnOk result (IsChart pages ledger.now (string_bytes text.old)
        (string_bytes text.new)) }
    ensures large { result ≡ Err ChartError.Large → (4095 < length ledger.now) ⊎ (4096 < pages) }
{
    if ledger.len() > MOST_ENTRIES {
        return Err(ChartError::Large);
    }
    if pages > MOST_PAGES {
        return Err(ChartError::Large);
    }
    let shown = columns(alloc, pages, ledger)?;
    let sheet = Sheet {
        pages,
        page,
        ledger,
        classes,
    };
    draw(alloc, &shown, &sheet, text)?;
    Ok(())
}

/// Adds the chart of these columns, each with the owners of all pages. Column k comes behind entry k of the ledger.
fn draw(
    alloc: Global,
    columns: &[Vec<Owner>],
    sheet: &Sheet,
    text: &mut String,
) -> Result<(), AllocError>
    ensures drawn { OnOk result (IsDrawn (map (λ column. column.items) columns.now) sheet.now.pages
        (string_bytes text.old) (string_bytes text.new)) }
{
    write_front(sheet, text)?;
    write_cells(alloc, columns, sheet.pages, text)?;
    write_back(columns, sheet, text)?;
    Ok(())
}

/// Where the legend begins, from the top.
fn legend_at(pages: usize) -> usize
    requires { pages ≤ 4096 }
    ensures { result ≤ 100000 }
{
    row_at(pages) + 52
}

/// Adds what is before the cells: the head, the title and the names of the rows.
fn write_front(sheet: &Sheet, text: &mut String) -> Result<(), AllocError>
    ensures { OnOk result (TextExtends (string_bytes text.old) (string_bytes text.new)) }
{
    let entries = sheet.ledger.len();
    let wide = (column_at(entries + 1) + NAMES).max(LEAST);
    write_head(wide, legend_end(sheet, legend_at(sheet.pages)), text)?;
    write_title(sheet.pages, sheet.page, entries, text)?;
    write_names(sheet.pages, text)
}

/// Adds what is behind the cells: the numbers of classes in them, who owns each page at the end, the axis and the legend.
fn write_back(columns: &[Vec<Owner>], sheet: &Sheet, text: &mut String) -> Result<(), AllocError>
    ensures { OnOk result (TextExtends (string_bytes text.old) (string_bytes text.new)) }
{
    write_labels(columns, text)?;
    write_ends(columns, column_at(sheet.ledger.len() + 1) + 8, text)?;
    write_axis(sheet.ledger, row_at(sheet.pages), text)?;
    write_legend(sheet, legend_at(sheet.pages), text)?;
    text.push_str("</svg>\n")
}

/// Adds the size, the style of letters, the patterns of moving pages and of the pool, and the ground.
fn write_head(wide: usize, high: usize, text: &mut String) -> Result<(), AllocError>
    ensures { OnOk result (TextExtends (string_bytes text.old) (string_bytes text.new)) }
{
    writeln!(
        text,
        "<svg xmlns=\"http://www.w3.org/2000/svg\" width=\"{wide}\" height=\"{high}\" viewBox=\"0 0 {wide} {high}\">"
    )?;
    text.push_str(HEAD)
}

/// The style and the patterns.
const HEAD: &str =
    "<style>text { font-family: Helvetica, Arial, sans-serif; font-size: 12px; fill: #222 } .t { font-size: 16px; font-weight: bold } .s { fill: #666; font-size: 11px } .c { font-weight: bold; font-size: 11px; paint-order: stroke; stroke: #fff; stroke-width: 2px; stroke-opacity: 0.7 } .m { text-anchor: middle } .r { text-anchor: end }</style>
<defs>
<pattern id=\"moving\" width=\"6\" height=\"6\" patternUnits=\"userSpaceOnUse\" patternTransform=\"rotate(45)\"><rect width=\"2.4\" height=\"6\" fill=\"#222\"/></pattern>
<pattern id=\"pool\" width=\"6\" height=\"6\" patternUnits=\"userSpaceOnUse\"><rect width=\"6\" height=\"6\" fill=\"#fff\"/><circle cx=\"3\" cy=\"3\" r=\"1\" fill=\"#555\"/></pattern>
</defs>
<rect width=\"100%\" height=\"100%\" fill=\"#fff\"/>
";

/// Adds the title.
fn write_title(pages: usize, page: u64, entries: usize, text: &mut String) -> Result<(), AllocError>
    ensures { OnOk result (TextExtends (string_bytes text.old) (string_bytes text.new)) }
{
    text.push_str("<text class=\"t\" x=\"16\" y=\"28\">Who owns each page</text>\n")?;
    writeln!(
        text,
        "<text class=\"s\" x=\"16\" y=\"48\">{pages} pages of {page} bytes, a column for each of the {entries} entries of the ledger</text>"
    )
}

/// Adds the names of the rows.
#[tactic(auto, using(crate::proofs::Extends::extends, crate::proofs::Extends::extends_on))]
fn write_names(pages: usize, text: &mut String) -> Result<(), AllocError>
    requires { pages ≤ 4096 }
    ensures { OnOk result (TextExtends (string_bytes text.old) (string_bytes text.new)) }
{
    for page in 0..pages {
        let (right, y) = (LEFT - 8, row_at(page) + 14);
        writeln!(
            text,
            "<text class=\"r\" x=\"{right}\" y=\"{y}\">page {page}</text>"
        )?;
    }
    Ok(())
}

/// Adds the texts in the cells of all columns.
#[tactic(auto, using(crate::proofs::Extends::extends_on))]
fn write_labels(columns: &[Vec<Owner>], text: &mut String) -> Result<(), AllocError>
    ensures { OnOk result (TextExtends (string_bytes text.old) (string_bytes text.new)) }
{
    let mut before: &[Owner] = &[];
    for place in 0..columns.len() {
        let owners = columns[place].as_slice();
        write_column_labels(place, owners, before, text)?;
        before = owners;
    }
    Ok(())
}

/// Adds the texts in the cells of a column. `before` has the owners of the column before.
#[tactic(auto, using(crate::proofs::Extends::extends_on))]
fn write_column_labels(
    place: usize,
    owners: &[Owner],
    before: &[Owner],
    text: &mut String,
) -> Result<(), AllocError>
    requires { place < 2 ^ 59 }
    ensures { OnOk result (TextExtends (string_bytes text.old) (string_bytes text.new)) }
{
    for page in 0..owners.len() {
        write_label(
            column_at(place) + 12,
            row_at(page) + 13,
            owners[page],
            before.get(page).copied(),
            text,
        )?;
    }
    Ok(())
}

/// Adds the number of the class to which a page comes, as the colour alone doesn't show it, or p where the page comes to the
/// pool.
#[tactic(auto, using(crate::proofs::Extends::extends, crate::proofs::Extends::extends_same))]
fn write_label(
    x: usize,
    y: usize,
    owner: Owner,
    before: Option<Owner>,
    text: &mut String,
) -> Result<(), AllocError>
    ensures { OnOk result (TextExtends (string_bytes text.old) (string_bytes text.new)) }
{
    if before == Some(owner) {
        return Ok(());
    }
    match owner {
        Owner::Untouched | Owner::Moving { .. } => Ok(()),
        Owner::Pool => writeln!(text, "<text class=\"c m\" x=\"{x}\" y=\"{y}\">p</text>"),
        Owner::Class(class) => writeln!(
            text,
            "<text class=\"c m\" x=\"{x}\" y=\"{y}\">{class}</text>"
        ),
    }
}

/// Adds who owns each page behind the last column, so far from the left.
#[tactic(auto, using(crate::proofs::Extends::extends_on, crate::proofs::Extends::extends_same))]
fn write_ends(columns: &[Vec<Owner>], x: usize, text: &mut String) -> Result<(), AllocError>
    ensures { OnOk result (TextExtends (string_bytes text.old) (string_bytes text.new)) }
{
    let owners: &[Owner] = match columns.last() {
        Some(column) => column.as_slice(),
        None => &[],
    };
    for page in 0..owners.len() {
        write_end(x, row_at(page) + 13, owners[page], text)?;
    }
    Ok(())
}

/// Adds who owns a page at the end of its row.
#[tactic(auto, using(crate::proofs::Extends::extends, crate::proofs::Extends::extends_same))]
fn write_end(x: usize, y: usize, owner: Owner, text: &mut String) -> Result<(), AllocError>
    ensures { OnOk result (TextExtends (string_bytes text.old) (string_bytes text.new)) }
{
    match owner {
        Owner::Untouched => Ok(()),
        Owner::Pool => writeln!(text, "<text class=\"s\" x=\"{x}\" y=\"{y}\">pool</text>"),
        Owner::Class(class) => writeln!(
            text,
            "<text class=\"s\" x=\"{x}\" y=\"{y}\">class {class}</text>"
        ),
        Owner::Moving { src, dst: 0 } => writeln!(
            text,
            "<text class=\"s\" x=\"{x}\" y=\"{y}\">class {src} to the pool</text>"
        ),
        Owner::Moving { src, dst } => writeln!(
            text,
            "<text class=\"s\" x=\"{x}\" y=\"{y}\">class {src} to class {dst}</text>"
        ),
    }
}

/// The most entries whose numbers all stand below their columns.
const MOST_TICKS: usize = 99;

/// Adds the axis: what each entry did, and the numbers of all entries, or of each tenth of many.
#[tactic(auto, using(crate::proofs::Extends::extends, crate::proofs::Extends::extends_on))]
fn write_axis(ledger: &[Entry], below: usize, text: &mut String) -> Result<(), AllocError>
    requires ledger { length ledger.now ≤ 4096 }
    requires below { below ≤ 100000 }
    ensures { OnOk result (TextExtends (string_bytes text.old) (string_bytes text.new)) }
{
    for place in 0..ledger.len() {
        write_tick(
            column_at(place + 1) + 12,
            below,
            number_below(place + 1, ledger.len()),
            ledger[place],
            text,
        )?;
    }
    let (right, y) = (LEFT - 8, below + 14);
    writeln!(
        text,
        "<text class=\"s r\" x=\"{right}\" y=\"{y}\">entry</text>"
    )
}

/// Adds what an entry did, and its number if that is given.
fn write_tick(
    x: usize,
    below: usize,
    number: Option<usize>,
    entry: Entry,
    text: &mut String,
) -> Result<(), AllocError>
    requires below { below ≤ 100000 }
    ensures { OnOk result (TextExtends (string_bytes text.old) (string_bytes text.new)) }
{
    let (lower, letter) = (below + 28, letter_of(entry));
    write_number(x, below + 14, number, text)?;
    writeln!(
        text,
        "<text class=\"c m\" x=\"{x}\" y=\"{lower}\">{letter}</text>"
    )
}

/// Adds the number of an entry, if it is given.
#[tactic(auto, using(crate::proofs::Extends::extends, crate::proofs::Extends::extends_same))]
fn write_number(
    x: usize,
    y: usize,
    number: Option<usize>,
    text: &mut String,
) -> Result<(), AllocError>
    ensures { OnOk result (TextExtends (string_bytes text.old) (string_bytes text.new)) }
{
    match number {
        Some(number) => writeln!(
            text,
            "<text class=\"s m\" x=\"{x}\" y=\"{y}\">{number}</text>"
        ),
        None => Ok(()),
    }
}

/// The number below an entry: each entry has one, or of many entries each tenth, as four digits are wider than a column.
fn number_below(entry: usize, entries: usize) -> Option<usize> {
    if entries <= MOST_TICKS || entry % 10 == 0 {
        Some(entry)
    } else {
        None
    }
}

/// What an entry did: a page was granted, taken from the pool, began to move, or came to its end.
fn letter_of(entry: Entry) -> &'static str {
    match entry {
        Entry::Granted(_, _, _) => "G",
        Entry::Taken(_, _) => "T",
        Entry::Began(_, _, _) => "B",
        Entry::Ended(_, _) => "E",
    }
}
