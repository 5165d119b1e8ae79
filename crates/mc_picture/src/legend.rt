//! What the letters, the colours and the patterns of a chart mean.
ghost use Rattle.std.specs.Prelude.{◌≤◌, OnOk, string_bytes};
ghost use Rattle.mc_picture.specs.Drawn.{TextExtends};

use crate::cells::{write_box, write_class_box};
use crate::sheet::Sheet;
use mc_classes::ClassId;
use mc_pages::Entry;
use std::alloc::AllocError;
use std::fmt::Write;

/// Adds the legend, so far from the top.
pub(crate) fn write_legend(sheet: &Sheet, top: usize, text: &mut String) -> Result<(), AllocError>
    requires { top ≤ 100000 }
    ensures { OnOk result (TextExtends (string_bytes text.old) (string_bytes text.new)) }
{
    let y = top + 8;
    writeln!(
        text,
        "<text class=\"s\" x=\"16\" y=\"{y}\">G granted, T taken from the pool, B began to move, E came to its end; a number is a class</text>"
    )?;
    write_patterns(top + 20, text)?;
    write_class_keys(sheet, top + 44, text)
}

/// Adds what the patterns mean.
fn write_patterns(y: usize, text: &mut String) -> Result<(), AllocError>
    requires { y ≤ 200000 }
    ensures { OnOk result (TextExtends (string_bytes text.old) (string_bytes text.new)) }
{
    write_key(16, y, "none\" stroke=\"#ddd", "never granted", text)?;
    write_key(192, y, "url(#pool)", "in the pool", text)?;
    write_key(368, y, "url(#moving)", "on the move", text)
}

/// Adds the classes that the ledger names, four in a line.
#[tactic(auto, using(crate::proofs::Extends::extends_on))]
fn write_class_keys(sheet: &Sheet, top: usize, text: &mut String) -> Result<(), AllocError>
    requires { top ≤ 200000 }
    ensures { OnOk result (TextExtends (string_bytes text.old) (string_bytes text.new)) }
{
    let mut shown = 0;
    for row in sheet.classes {
        if !is_named(sheet.ledger, row.class) {
            continue;
        }
        let (x, y) = (16 + shown % 4 * 176, top + shown / 4 * 24);
        write_class_key(x, y, row.class, row.size, text)?;
        shown += 1;
    }
    Ok(())
}

/// Where the legend ends that begins so far from the top.
pub(crate) fn legend_end(sheet: &Sheet, top: usize) -> usize
    requires { top ≤ 100000 }
{
    let ledger = sheet.ledger;
    let shown = sheet
        .classes
        .iter()
        .filter(|row| is_named(ledger, row.class))
        .count();
    top + 60 + (shown + 3) / 4 * 24
}

/// Adds a pattern and its name.
fn write_key(
    x: usize,
    y: usize,
    fill: &str,
    name: &str,
    text: &mut String,
) -> Result<(), AllocError>
    requires x { x ≤ 100000 }
    requires y { y ≤ 300000 }
    ensures { OnOk result (TextExtends (string_bytes text.old) (string_bytes text.new)) }
{
    write_box(x, y, 24, fill, text)?;
    let (right, below) = (x + 32, y + 13);
    writeln!(text, "<text x=\"{right}\" y=\"{below}\">{name}</text>")
}

/// Adds a class and the bytes of its chunks.
fn write_class_key(
    x: usize,
    y: usize,
    class: ClassId,
    size: u64,
    text: &mut String,
) -> Result<(), AllocError>
    requires x { x ≤ 100000 }
    requires y { y ≤ 300000 }
    ensures { OnOk result (TextExtends (string_bytes text.old) (string_bytes text.new)) }
{
    write_class_box(x, y, 24, class, text)?;
    let (middle, right, below) = (x + 12, x + 32, y + 13);
    writeln!(
        text,
        "<text class=\"c m\" x=\"{middle}\" y=\"{below}\">{class}</text>"
    )?;
    writeln!(
        text,
        "<text x=\"{right}\" y=\"{below}\">class {class}: {size} bytes</text>"
    )
}

/// Whether an entry names the class.
fn is_named(ledger: &[Entry], class: ClassId) -> bool {
    ledger.iter().any(|entry| match *entry {
        Entry::Granted(_, to, _) | Entry::Taken(_, to) => to == class,
        Entry::Began(_, src, dst) => src == class || dst == class,
        Entry::Ended(_, dst) => dst == class,
    })
}
