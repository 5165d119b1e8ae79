//! The ledger as lines of text.
ghost use Rattle.std.specs.Prelude.{◌≡◌, ◌++◌, OnOk, codes, length, string_bytes};
ghost use Rattle.mc_picture.specs.Lines.{began_text, entry_line, entry_lines, entry_text, goal_text, grace_text, ledger_text};

use mc_classes::{ClassId, PageId};
use mc_pages::Entry;
use std::alloc::AllocError;
use std::fmt::Write;

/// Adds the ledger: how pages changed hands.
pub(crate) fn write_ledger(ledger: &[Entry], text: &mut String) -> Result<(), AllocError>
    ensures ledger { OnOk result (string_bytes text.new ≡ string_bytes text.old
        ++ ledger_text ledger.now) }
{
    if ledger.is_empty() {
        return text.push_str("\nledger\n  no page changed hands\n");
    }
    text.push_str("\nledger\n")?;
    write_entries(ledger, text)
}

/// Adds a line for each entry.
fn write_entries(ledger: &[Entry], text: &mut String) -> Result<(), AllocError>
    ensures entries { OnOk result (string_bytes text.new ≡ string_bytes text.old
        ++ entry_lines ledger.now (length ledger.now)) }
{
    for place in 0..ledger.len() {
        write_entry(place + 1, ledger[place], text)?;
    }
    Ok(())
}

/// Adds the line of an entry.
fn write_entry(number: usize, entry: Entry, text: &mut String) -> Result<(), AllocError>
    ensures line { OnOk result (string_bytes text.new ≡ string_bytes text.old
        ++ entry_line number entry) }
{
    write!(text, "  {number}: ")?;
    write_change(entry, text)?;
    text.push_str("\n")
}

/// Adds that a page was granted beyond the limit, where it was.
fn write_grace(grace: bool, text: &mut String) -> Result<(), AllocError>
    ensures grace { OnOk result (string_bytes text.new ≡ string_bytes text.old
        ++ grace_text grace) }
{
    if grace {
        return text.push_str(", its first, beyond the limit");
    }
    Ok(())
}

/// Adds how a page changed hands.
fn write_change(entry: Entry, text: &mut String) -> Result<(), AllocError>
    ensures entry { OnOk result (string_bytes text.new ≡ string_bytes text.old
        ++ entry_text entry) }
{
    match entry {
        Entry::Granted(page, class, grace) => {
            write!(text, "page {page} was granted to class {class}")?;
            write_grace(grace, text)
        }
        Entry::Taken(page, class) => write!(
            text,
            "page {page} came from the pool to class {class}"
        ),
        Entry::Began(page, src, dst) => {
            write_began(page, src, text)?;
            write_goal(dst, text)
        }
        Entry::Ended(page, dst) => {
            write!(text, "page {page} has come")?;
            write_goal(dst, text)
        }
    }
}

/// Adds that a page began to move.
fn write_began(page: PageId, src: ClassId, text: &mut String) -> Result<(), AllocError>
    ensures began { OnOk result (string_bytes text.new ≡ string_bytes text.old
        ++ began_text page src) }
{
    write!(text, "page {page} began to move from class {src}")
}

/// Adds where a page goes: to a class, or to the pool, which is 0.
pub(crate) fn write_goal(class: ClassId, text: &mut String) -> Result<(), AllocError>
    ensures goal { OnOk result (string_bytes text.new ≡ string_bytes text.old ++ goal_text class) }
{
    if class == 0 {
        text.push_str(" to the pool")
    } else {
        write!(text, " to class {class}")
    }
}
