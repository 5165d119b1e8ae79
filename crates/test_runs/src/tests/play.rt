//! How a script is run by threads, from bytes in memory to bytes in memory.
ghost use Rattle.std.specs.Prelude.{◌≡◌, ◌<◌};

use mc_classes::{Config, Failures};
use mc_driver::{Gate, Run, RunFault, run_threads};
use std::alloc::Global;
use std::marker::Brand;
use std::sync::Wait;
use std::sync::ledger::{Blank, Ledger};
use std::thread::Threads;
use testlib_scripts::{MemorySink, MemorySource};
use testlib_values::FOUR_CLASSES;

/// How a run is disturbed: the bytes before a read fails, the writes before one fails.
#[derive(Clone, Copy)]
pub struct StreamLimits {
    pub good_bytes: usize,
    pub good_writes: u64,
}

/// Streams that never fail.
pub const WHOLE: StreamLimits = StreamLimits {
    good_bytes: usize::MAX,
    good_writes: u64::MAX,
};

/// What a run wrote, how it ended, and how many bytes it read.
#[derive(Drop)]
pub struct Played {
    pub text: Vec<u8>,
    pub end: Result<(), RunFault>,
    pub bytes_read: usize,
}

impl Played {
    /// The run ended so, and this is all that it wrote.
    pub fn is(&self, end: &Result<(), RunFault>, text: &[u8]) -> bool {
        self.end == *end && self.text.as_slice() == text
    }
}

/// Runs a script on four pages, in mode 0 of the automover.
pub fn play<R: Threads + Wait + Sync, G: Gate + Sync>(
    rt: &R,
    alloc: Global,
    gate: &G,
    script: &[u8],
) -> Played {
    play_disturbed(rt, alloc, FOUR_CLASSES, gate, script, WHOLE)
}

/// Runs a script with streams that may fail.
pub fn play_disturbed<R: Threads + Wait + Sync, G: Gate + Sync>(
    rt: &R,
    alloc: Global,
    config: Config,
    gate: &G,
    script: &[u8],
    limits: StreamLimits,
) -> Played {
    play_counting::<R, G, Brand, Brand>(
        rt,
        alloc,
        config,
        gate,
        script,
        limits,
        Blank::new(1),
        Blank::new(1),
    )
}

// Runs a script, where these count the failures of reader and writer.
fn play_counting<R: Threads + Wait + Sync, G: Gate + Sync, I: Ledger, O: Ledger>(
    rt: &R,
    alloc: Global,
    config: Config,
    gate: &G,
    script: &[u8],
    limits: StreamLimits,
    reads: Blank,
    writes: Blank,
) -> Played
    requires reads_name { reads.name ≡ I.name }
    requires reads_parts { reads.parts ≡ I.parts }
    requires reads_some { 0 < reads.parts }
    requires writes_name { writes.name ≡ O.name }
    requires writes_parts { writes.parts ≡ O.parts }
    requires writes_some { 0 < writes.parts }
{
    let mut reader = MemorySource::<I>::new(
        script,
        usize::MAX,
        limits.good_bytes,
        Failures::new(reads),
    );
    let mut writer = MemorySink::<O>::new(alloc, limits.good_writes, Failures::new(writes));
    let run = Run {
        config,
        automove: 0,
    };
    let end = run_threads(rt, alloc, &run, gate, &mut reader, &mut writer);
    Played {
        text: writer.bytes,
        end,
        bytes_read: reader.at,
    }
}
