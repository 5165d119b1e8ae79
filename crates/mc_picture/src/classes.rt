//! The class table, before anything runs.
ghost use Rattle.std.specs.Prelude.{◌≡◌, ◌≤◌, ◌++◌, IfOk, OnOk, flat_map, length, string_bytes};
ghost use Rattle.mc_classes.specs.Limits.{most_classes};
ghost use Rattle.mc_classes.specs.Classes.{IsClass, page_limit};
ghost use Rattle.mc_picture.specs.Rows.{row_of, class_table_rows};
ghost use Rattle.mc_picture.specs.Tables.{class_table_text, memory_text, row_columns, row_text, table_note, waste_text};

use mc_classes::{ClassId, ClassTable};
use mc_memory::{Refused, push};
use mc_waste::worst_waste;
use std::alloc::{AllocError, Global};
use std::fmt::Write;

/// What is known of a class before anything runs.
#[derive(Clone, Copy, Debug, PartialEq, Eq)]
pub struct ClassRow {
    pub class: ClassId,
    /// The bytes of a chunk.
    pub size: u64,
    /// How many chunks a page has.
    pub per_page: u64,
    /// The most bytes that an item of the class leaves of its chunk unused, if there is an item that goes there.
    pub waste: Option<u64>,
    /// The bytes of a page behind its last chunk.
    pub rest: u64,
}

/// What is known of the class.
fn class_row(table: &ClassTable, class: ClassId) -> ClassRow
    requires { IsClass table.now class }
    ensures row { result ≡ row_of table.now class }
{
    let size = table.size(class);
    ClassRow {
        class,
        size,
        per_page: table.per_page(class),
        waste: worst_waste(table, class),
        rest: table.page() % size,
    }
}

/// What is known of all classes, class 1 first.
pub fn class_rows(alloc: Global, table: &ClassTable) -> Result<Vec<ClassRow>, Refused>
    ensures rows { IfOk result (λ rows. rows.items
        ≡ class_table_rows table.now (length table.now.sizes)) }
    ensures within_limit { IfOk result (λ rows. length rows.items ≤ most_classes) }
{
    let mut rows = Vec::new(alloc);
    for place in 0..table.count() {
        push(&mut rows, class_row(table, place + 1))?;
    }
    Ok(rows)
}

/// Adds the class table: how many pages there are, and a line for each of these rows.
#[tactic(auto, unfolding(crate::specs::Tables::class_table_text))]
pub fn write_classes(
    table: &ClassTable,
    rows: &[ClassRow],
    text: &mut String,
) -> Result<(), AllocError>
    ensures table { OnOk result (string_bytes text.new ≡ string_bytes text.old
        ++ class_table_text (page_limit table.now) table.now.page rows.now) }
{
    write_memory(table.pages(), table.page(), text)?;
    write_columns(text)?;
    write_rows(rows, text)
}

/// Adds how many pages there are, and of how many bytes.
#[tactic(auto, unfolding(crate::specs::Tables::memory_text))]
fn write_memory(pages: u64, page: u64, text: &mut String) -> Result<(), AllocError>
    ensures memory { OnOk result (string_bytes text.new ≡ string_bytes text.old
        ++ memory_text pages page) }
{
    write!(text, "{pages} pages of {page}")?;
    write_note(text)
}

/// Adds what the numbers are about.
#[tactic(auto, unfolding(crate::specs::Tables::table_note))]
fn write_note(text: &mut String) -> Result<(), AllocError>
    ensures note { OnOk result (string_bytes text.new ≡ string_bytes text.old ++ table_note) }
{
    text.push_str(
        " bytes, and beyond them a first one for each class; an item of n words asks for 24 + 8 n bytes\n\n",
    )
}

/// Adds what the columns are.
#[tactic(auto, unfolding(crate::specs::Tables::row_columns))]
fn write_columns(text: &mut String) -> Result<(), AllocError>
    ensures columns { OnOk result (string_bytes text.new ≡ string_bytes text.old ++ row_columns) }
{
    text.push_str("class   size  chunks a page  items of bytes  worst waste  left of a page\n")
}

/// Adds a line for each of these rows.
fn write_rows(rows: &[ClassRow], text: &mut String) -> Result<(), AllocError>
    ensures rows { OnOk result (string_bytes text.new ≡ string_bytes text.old
        ++ flat_map row_text rows.now) }
{
    for row in rows {
        write_row(*row, text)?;
    }
    Ok(())
}

/// Adds the line of a class.
#[tactic(auto, unfolding(crate::specs::Tables::row_text))]
fn write_row(row: ClassRow, text: &mut String) -> Result<(), AllocError>
    ensures row { OnOk result (string_bytes text.new ≡ string_bytes text.old ++ row_text row) }
{
    write!(text, "{:>5}{:>7}{:>15}", row.class, row.size, row.per_page)?;
    write_waste(row.size, row.waste, text)?;
    writeln!(text, "{:>16}", row.rest)
}

/// Adds the bytes of the items that go to chunks of this size, and the most that one of them leaves unused.
#[tactic(auto, unfolding(crate::specs::Tables::waste_text))]
fn write_waste(size: u64, waste: Option<u64>, text: &mut String) -> Result<(), AllocError>
    ensures waste { OnOk result (string_bytes text.new ≡ string_bytes text.old
        ++ waste_text size waste) }
{
    match waste {
        Some(waste) => write!(
            text,
            "{:>9} to{:>6}{waste:>13}",
            size.saturating_sub(waste),
            size
        ),
        None => text.push_str("            none            -"),
    }
}
