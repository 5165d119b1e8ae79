//! Worked examples, by name: a script, the replies and how the run ends; and lists of events for the model.
mod automove;
mod drawn;
mod events;
mod guards;
mod holds;
mod hostile;
mod moves;
mod on_hands;
mod rows;
mod seats;
mod streams;

ghost use Rattle.std.specs.Prelude.{◌≡◌, ◌<◌, ◌≤◌};

use crate::devices::{MemorySink, MemorySource};
use mc_classes::{Config, Failures};
use mc_driver::{Run, RunFault, run_serial};
use on_hands::assert_alike;
use std::alloc::{AllocError, Global};
use std::fmt::Debug;
use std::marker::Brand;
use std::process::Abort;
use std::sync::Wait;
use std::sync::ledger::{Blank, Ledger};
use std::test::Fail;
use testlib_values::FOUR_CLASSES;

/// A name, a script, what is written, and how the run ends.
type Row<'a> = (&'a str, &'a str, &'a str, Result<(), RunFault>);

/// A run with these classes that begins in mode 0 of the automover.
const FROM_MODE_0: Run = Run {
    config: FOUR_CLASSES,
    automove: 0,
};

/// How a run is disturbed: the bytes of a read, the bytes before a read fails, the writes before one fails.
#[derive(Clone, Copy)]
struct StreamLimits {
    piece: usize,
    good_bytes: usize,
    good_writes: u64,
}

/// Streams that never fail.
const WHOLE: StreamLimits = StreamLimits {
    piece: usize::MAX,
    good_bytes: usize::MAX,
    good_writes: u64::MAX,
};

/// What a run wrote, how it ended, and whether it wrote again after a write had failed.
#[derive(Drop)]
struct Played {
    text: Vec<u8>,
    end: Result<(), RunFault>,
    wrote_again: bool,
}

/// What was found is what was wanted.
fn assert_same<T: Copy + PartialEq + Debug>(rt: &impl Abort, found: T, wanted: T, what: &str) {
    assert_eq!(rt; found, wanted, "{what}");
}

/// The run ended so, and this is all that it wrote.
fn assert_played(
    rt: &impl Abort,
    played: &Played,
    end: &Result<(), RunFault>,
    text: &[u8],
    name: &str,
) {
    assert_same(rt, &played.end, end, name);
    assert_same(rt, played.text.as_slice(), text, name);
}

/// Runs a script in mode 0 of the automover.
fn play(
    alloc: Global,
    config: Config,
    script: &[u8],
    limits: StreamLimits,
) -> Result<Played, AllocError> {
    let run = Run {
        config,
        automove: 0,
    };
    play_run(alloc, run, script, limits)
}

/// Runs a script.
fn play_run(
    alloc: Global,
    run: Run,
    script: &[u8],
    limits: StreamLimits,
) -> Result<Played, AllocError>
    requires { run.automove ≤ 2 }
{
    play_counting::<Brand, Brand>(alloc, run, script, limits, Blank::new(1), Blank::new(1))
}

/// Runs a script, where these count the failures of reader and writer.
fn play_counting<I: Ledger, O: Ledger>(
    alloc: Global,
    run: Run,
    script: &[u8],
    limits: StreamLimits,
    reads: Blank,
    writes: Blank,
) -> Result<Played, AllocError>
    requires automove { run.automove ≤ 2 }
    requires reads_name { reads.name ≡ I.name }
    requires reads_parts { reads.parts ≡ I.parts }
    requires reads_some { 0 < reads.parts }
    requires writes_name { writes.name ≡ O.name }
    requires writes_parts { writes.parts ≡ O.parts }
    requires writes_some { 0 < writes.parts }
{
    let (piece, good) = (limits.piece, limits.good_bytes);
    let mut reader = MemorySource::<I>::new(script, piece, good, Failures::new(reads));
    let mut writer = MemorySink::<O>::new(alloc, limits.good_writes, Failures::new(writes));
    let end = run_serial(alloc, &run, &mut reader, &mut writer);
    Ok(Played {
        text: writer.bytes,
        end,
        wrote_again: writer.was_tried_again,
    })
}

/// The serial run of the script writes this and ends so, and hands of the arena do the same.
fn plays<R: Abort + Wait>(
    rt: &R,
    alloc: Global,
    run: Run,
    script: &[u8],
    text: &[u8],
    end: &Result<(), RunFault>,
    name: &str,
) -> Result<(), Fail>
    requires { run.automove ≤ 2 }
{
    let played = play_run(alloc, run, script, WHOLE)?;
    assert_played(rt, &played, end, text, name);
    assert_alike(rt, alloc, run, script, &played, name)
}

/// Each row's script has the replies and the end of the row, in a serial run and on hands. Each table has a function of its own: a proof takes
/// as long as the square of the texts that its function names.
fn plays_rows<R: Abort + Wait>(rt: &R, alloc: Global, rows: &[Row]) -> Result<(), Fail> {
    for (name, script, replies, end) in rows {
        plays(
            rt,
            alloc,
            FROM_MODE_0,
            script.as_bytes(),
            replies.as_bytes(),
            end,
            name,
        )?;
    }
    Ok(())
}
