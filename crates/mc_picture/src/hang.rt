//! Where a move hangs, as lines of text.
ghost use Rattle.std.specs.Prelude.{◌≡◌, ◌++◌, OnOk, string_bytes};
ghost use Rattle.mc_picture.specs.Moves.{blocker_line, blockers_text, chunk_and_key_text, hang_text, held_text, move_text, moving_page_text, position_text, workers_text};

use crate::ledger::write_goal;
use mc_map::{Blocker, Hang, Moving};
use std::alloc::AllocError;
use std::fmt::Write;

/// Adds where a move hangs: the page, the mover's place among the page's chunks, and what holds it up.
pub(crate) fn write_move(
    moving: Option<Moving>,
    chunks: u64,
    hang: &Hang,
    text: &mut String,
) -> Result<(), AllocError>
    ensures hangs { OnOk result (string_bytes text.new ≡ string_bytes text.old
        ++ move_text moving chunks hang.now) }
{
    let Some(moving) = moving else {
        return text.push_str("\nmove\n  no page moves\n");
    };
    text.push_str("\nmove\n")?;
    write_page(moving, text)?;
    write_goal(moving.dst, text)?;
    write_position(moving, chunks, text)?;
    write_hang(hang, text)
}

/// Adds which page moves, and from where.
fn write_page(moving: Moving, text: &mut String) -> Result<(), AllocError>
    ensures page { OnOk result (string_bytes text.new ≡ string_bytes text.old
        ++ moving_page_text moving) }
{
    let Moving { page, src, .. } = moving;
    write!(text, "  page {page} moves from class {src}")
}

/// Adds the mover's place among the page's chunks.
fn write_position(moving: Moving, chunks: u64, text: &mut String) -> Result<(), AllocError>
    ensures position { OnOk result (string_bytes text.new ≡ string_bytes text.old
        ++ position_text moving chunks) }
{
    let Moving { at, busy, .. } = moving;
    writeln!(
        text,
        ": the mover is at chunk {at} of {chunks}, {busy} held it up in this pass"
    )
}

/// Adds what holds a move up.
fn write_hang(hang: &Hang, text: &mut String) -> Result<(), AllocError>
    ensures hang { OnOk result (string_bytes text.new ≡ string_bytes text.old
        ++ hang_text hang.now) }
{
    match hang {
        Hang::Idle => Ok(()),
        Hang::Unknown => text.push_str("  what holds it up takes too many looks to find\n"),
        Hang::Found(blockers) => write_blockers(blockers, text),
    }
}

/// Adds the chunks that hold a move up.
fn write_blockers(blockers: &[Blocker], text: &mut String) -> Result<(), AllocError>
    ensures blockers { OnOk result (string_bytes text.new ≡ string_bytes text.old
        ++ blockers_text blockers.now) }
{
    if blockers.is_empty() {
        return text.push_str("  nothing holds it up\n");
    }
    for blocker in blockers {
        write_blocker(blocker, text)?;
    }
    Ok(())
}

/// Adds the line of a chunk that holds a move up.
#[tactic(auto, unfolding(crate::specs::Moves::blocker_line))]
fn write_blocker(blocker: &Blocker, text: &mut String) -> Result<(), AllocError>
    ensures line { OnOk result (string_bytes text.new ≡ string_bytes text.old
        ++ blocker_line blocker.now) }
{
    write_chunk(blocker.chunk, blocker.key, text)?;
    write_held(blocker.linked, text)?;
    write_workers(&blocker.workers, text)?;
    text.push_str("\n")
}

/// Adds the chunk, and the key of its item.
fn write_chunk(chunk: u64, key: u64, text: &mut String) -> Result<(), AllocError>
    ensures chunk { OnOk result (string_bytes text.new ≡ string_bytes text.old
        ++ chunk_and_key_text chunk key) }
{
    write!(text, "  chunk {chunk} hangs: key {key}")
}

/// Adds that an item is held, and whether its key leads to it.
fn write_held(linked: bool, text: &mut String) -> Result<(), AllocError>
    ensures held { OnOk result (string_bytes text.new ≡ string_bytes text.old ++ held_text linked) }
{
    if linked {
        text.push_str(" is held by worker")
    } else {
        text.push_str(", which leads to it no more, is held by worker")
    }
}

/// Adds who holds an item, once for each hold.
fn write_workers(workers: &[u64], text: &mut String) -> Result<(), AllocError>
    ensures workers { OnOk result (string_bytes text.new ≡ string_bytes text.old
        ++ workers_text workers.now) }
{
    for worker in workers {
        write!(text, " {worker}")?;
    }
    Ok(())
}
