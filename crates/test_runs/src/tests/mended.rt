//! A sink that fails at one write and then works: nothing is written behind the failed write, and what was written begins the text.
ghost use Rattle.std.specs.Prelude.{◌≡◌, ◌<◌, ◌≤◌};

use mc_classes::{Failures, Fault, Sink};
use mc_driver::{Free, Run, RunFault, run_serial, run_threads};
use std::alloc::Global;
use std::marker::Brand;
use std::sync::Wait;
use std::sync::ledger::{Blank, Ledger};
use std::test::Fail;
use std::thread::Threads;
use testlib_scripts::MemorySource;
use testlib_values::FOUR_CLASSES;

/// Keeps what is written. Of one write it takes the first half, and fails; before and behind that each write is made.
#[derive(Drop)]
struct MendedSink<L: Ledger> {
    bytes: Vec<u8>,
    /// How many writes are made before the one that fails.
    good: u64,
    /// How many writes were tried.
    tried: u64,
    failures: Failures<L>,
}

/// The whole of n bytes, or half of them.
fn part_of(count: usize, whole: bool) -> usize
    ensures { result ≤ count }
{
    if whole { count } else { count / 2 }
}

impl<L: Ledger> Sink for MendedSink<L> {
    ghost use Rattle.std.specs.Prelude.{Some};

    ghost contents = { λ s. Some s.bytes.items };

    ghost failures = { λ s. s.failures };

    fn write_all(&mut self, bytes: &[u8]) -> Result<(), Fault> {
        let count = part_of(bytes.len(), self.tried != self.good);
        self.tried = self.tried.wrapping_add(1);
        if self.bytes.extend_from_slice(&bytes[..count]).is_err() || count < bytes.len() {
            self.failures.add();
            return Err(Fault);
        }
        Ok(())
    }
}

/// What a run wrote, how often it tried to write, and how it ended.
#[derive(Drop)]
struct Written {
    text: Vec<u8>,
    tried: u64,
    end: Result<(), RunFault>,
}

/// Two workers and a mover.
const SCRIPT: &[u8] = b"1 set 1 3 7\n2 set 2 3 9\nreassign 1 2\n2 get 2\n";

/// Runs the script, by threads or on one, where the write behind n others fails.
fn run<R: Threads + Wait + Sync>(rt: &R, alloc: Global, threads: bool, good: u64) -> Written {
    run_counting::<R, Brand, Brand>(rt, alloc, threads, good, Blank::new(1), Blank::new(1))
}

// Runs the script, where these count the failures of reader and writer.
fn run_counting<R: Threads + Wait + Sync, I: Ledger, O: Ledger>(
    rt: &R,
    alloc: Global,
    threads: bool,
    good: u64,
    reads: Blank,
    writes: Blank,
) -> Written
    requires reads_name { reads.name ≡ I.name }
    requires reads_parts { reads.parts ≡ I.parts }
    requires reads_some { 0 < reads.parts }
    requires writes_name { writes.name ≡ O.name }
    requires writes_parts { writes.parts ≡ O.parts }
    requires writes_some { 0 < writes.parts }
{
    let mut reader = MemorySource::<I>::new(SCRIPT, usize::MAX, usize::MAX, Failures::new(reads));
    let mut writer = MendedSink::<O> {
        bytes: Vec::new(alloc),
        good,
        tried: 0,
        failures: Failures::new(writes),
    };
    let run = Run {
        config: FOUR_CLASSES,
        automove: 0,
    };
    let end = if threads {
        run_threads(rt, alloc, &run, &Free, &mut reader, &mut writer)
    } else {
        run_serial(alloc, &run, &mut reader, &mut writer)
    };
    Written {
        text: writer.bytes,
        tried: writer.tried,
        end,
    }
}

/// How often the serial run writes: once a line.
const LINES: u64 = 4;

/// The serial run tries no write behind the one that failed, and what it wrote begins what it writes.
#[test]
fn a_serial_run_writes_nothing_behind_a_failed_write(rt: HostRuntime) -> Result<(), Fail> {
    let whole = run(&rt, rt.alloc(), false, u64::MAX);
    assert!(rt; whole.end.is_ok() && whole.tried == LINES, "the whole run");
    for good in 0..LINES {
        let broken = run(&rt, rt.alloc(), false, good);
        assert!(rt;
            broken.end == Err(RunFault::Write),
            "the end where {good} writes are made"
        );
        assert!(rt;
            broken.tried == good.wrapping_add(1),
            "the writes where {good} are made"
        );
        assert!(rt;
            whole.text.starts_with(&broken.text),
            "the text where {good} writes are made"
        );
    }
    Ok(())
}

/// The run by threads has one write, and behind that no other.
#[test]
fn a_run_by_threads_writes_nothing_behind_a_failed_write(rt: HostRuntime) -> Result<(), Fail> {
    let whole = run(&rt, rt.alloc(), true, u64::MAX);
    assert!(rt; whole.end.is_ok() && whole.tried == 1, "the whole run");
    let broken = run(&rt, rt.alloc(), true, 0);
    assert!(rt;
        broken.end == Err(RunFault::Write),
        "the end of the broken run"
    );
    assert!(rt; broken.tried == 1, "the writes of the broken run");
    assert!(rt;
        whole.text.starts_with(&broken.text) && broken.text.len() == whole.text.len() / 2,
        "the text of the broken run"
    );
    Ok(())
}
