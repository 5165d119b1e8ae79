//! A run: lists of events in, their answers out.
ghost use Rattle.std.specs.Prelude.{◌≡◌, ◌++◌, IfErr, IfOk, OnOk, codes};
ghost use Rattle.std.specs.Io.KnownBytes.{Appends};
ghost use Rattle.mc_replay.specs.Written.{IsWritten, WritesList};

use crate::fault::{NoMemory, RunFault};
use crate::list::List;
use crate::read::{Stage, read_all};
use crate::write::answer;
use mc_classes::Sink;
use mc_memory::{Refused, extend_from_slice, from_slice};
use mc_script::line::is_skipped;
use mc_script::lines::Lines;
use mc_streams::Source;
use std::alloc::Global;

/// Reads all lists and plays them, one after another. What a list answers is written before the next is played.
pub fn run<R: Source, W: Sink>(
    alloc: Global,
    reader: &mut R,
    writer: &mut W,
) -> Result<(), RunFault> {
    let bytes = read_all(alloc, reader)?;
    play_all(alloc, &bytes, writer)
}

/// Plays the lists of these bytes, up to the first line that can't be read.
fn play_all<W: Sink>(alloc: Global, bytes: &[u8], writer: &mut W) -> Result<(), RunFault> {
    let mut stage = Stage::Outside;
    let mut number = 1;
    for line in Lines::new(bytes) {
        if !is_skipped(line) {
            stage = after_line(alloc, stage, line, number, writer)?;
        }
        number += 1;
    }
    match stage {
        Stage::Outside => Ok(()),
        _ => Err(RunFault::Line(number)),
    }
}

/// How far the reading is after the line of this number. A list that ends there is played.
fn after_line<'a, W: Sink>(
    alloc: Global,
    stage: Stage<'a>,
    line: &'a [u8],
    number: u64,
    writer: &mut W,
) -> Result<Stage<'a>, RunFault> {
    match stage.after(alloc, line) {
        Ok(Stage::Ended(list)) => {
            play_list(alloc, &list, writer)?;
            Ok(Stage::Outside)
        }
        Ok(stage) => Ok(stage),
        Err(refusal) => Err(refusal.at(number)),
    }
}

/// Plays a list and writes its first line and what it answers.
fn play_list<W: Sink>(alloc: Global, list: &List, writer: &mut W) -> Result<(), RunFault>
    ensures { OnOk result (WritesList list.now.name.now list.now.config list.now.hands
        list.now.events.items (W.contents writer.old) (W.contents writer.new)) }
{
    let bytes = played(alloc, list)?;
    write(writer, &bytes)
}

/// The first line of a list and what it answers.
fn played(alloc: Global, list: &List) -> Result<Vec<u8>, NoMemory>
    ensures { IfOk result (λ bytes.
        IsWritten list.now.name.now list.now.config list.now.hands list.now.events.items
        bytes.items) }
{
    let text = answer(alloc, list)?;
    Ok(in_lines(alloc, list.name, text.as_bytes())?)
}

/// A line, and the lines behind it.
fn in_lines(alloc: Global, first: &[u8], others: &[u8]) -> Result<Vec<u8>, Refused>
    ensures { IfOk result (λ bytes. bytes.items ≡ (first.now ++ codes "\n") ++ others.now) }
{
    let mut bytes = from_slice(alloc, first)?;
    extend_from_slice(&mut bytes, b"\n")?;
    extend_from_slice(&mut bytes, others)?;
    Ok(bytes)
}

/// Writes these bytes.
fn write<W: Sink>(writer: &mut W, bytes: &[u8]) -> Result<(), RunFault>
    ensures bytes { OnOk result (Appends (W.contents writer.old)
        (W.contents writer.new) bytes.now) }
    ensures fault { IfErr result (λ fault. fault ≡ RunFault.Write) }
{
    match writer.write_all(bytes) {
        Ok(()) => Ok(()),
        Err(_) => Err(RunFault::Write),
    }
}
