//! The texts of the statistics, and writes that fail in the middle of them.
ghost use Rattle.std.specs.Prelude.{◌≡◌, ◌<◌};
ghost use Rattle.mc_watch.specs.Texts.{AreCounts};

use super::assert_same;
use mc_classes::{ClassTable, Failures, Fault, Sink};
use mc_watch::{stats_general, stats_slabs};
use std::alloc::Global;
use std::marker::Brand;
use std::process::Abort;
use std::sync::ledger::{Blank, Ledger};
use std::test::Fail;
use testlib_values::FOUR_CLASSES;

/// Room for each text.
const ROOM: usize = 1024;

/// Keeps what is written. One write fails, and half of its bytes are kept all the same; those behind it would go well.
#[derive(Drop)]
struct FailingSink<L: Ledger> {
    bytes: Vec<u8>,
    /// How many writes were tried.
    writes: u64,
    /// The write that fails, from 1.
    fails_at: u64,
    failures: Failures<L>,
}

impl<L: Ledger> Sink for FailingSink<L> {
    ghost use Rattle.std.specs.Prelude.{Some};

    ghost contents = { λ s. Some s.bytes.items };

    ghost failures = { λ s. s.failures };

    fn write_all(&mut self, bytes: &[u8]) -> Result<(), Fault> {
        self.writes = self.writes.saturating_add(1);
        let fails = self.writes == self.fails_at;
        let count = if fails { bytes.len() / 2 } else { bytes.len() };
        if self.bytes.extend_from_slice(&bytes[..count]).is_err() || fails {
            self.failures.add();
            return Err(Fault);
        }
        Ok(())
    }
}

/// How a text was written: whether it went well, how many writes were tried, and what was written.
#[derive(Drop)]
struct Attempt {
    went_well: bool,
    writes: u64,
    bytes: Vec<u8>,
}

/// The pages of each class, its free chunks, and the bytes granted.
type Counts = ([u64; 4], [u64; 4], u64);

/// The pages in the pool and those moved, the items rescued, evicted and busy, and whether a page moves.
type Numbers = (u64, u64, u64, u64, u64, bool);

fn sink<L: Ledger>(alloc: Global, blank: Blank, fails_at: u64) -> Result<FailingSink<L>, Fail>
    requires name { blank.name ≡ L.name }
    requires parts { blank.parts ≡ L.parts }
    requires some { 0 < blank.parts }
{
    Ok(FailingSink {
        bytes: Vec::with_capacity(alloc, ROOM)?,
        writes: 0,
        fails_at,
        failures: Failures::new(blank),
    })
}

fn attempt_of<L: Ledger>(outcome: Result<(), Fault>, sink: FailingSink<L>) -> Attempt {
    let FailingSink {
        bytes,
        writes,
        fails_at: _,
        failures: _,
    } = sink;
    Attempt {
        went_well: outcome.is_ok(),
        writes,
        bytes,
    }
}

/// Asserts the condition of `stats_slabs`.
fn assert_counts(rt: &impl Abort, table: &ClassTable, pages: &[u64], free: &[u64])
    ensures { AreCounts table.now pages.now free.now }
{
    let count = table.count();
    assert!(rt; pages.len() as u64 == count && free.len() as u64 == count);
    for place in 0..pages.len() {
        let per_page = table.per_page(place as u64 + 1);
        assert!(rt; pages[place] <= 127 && free[place] <= pages[place] * per_page);
    }
}

fn slabs_written<L: Ledger>(
    rt: &impl Abort,
    alloc: Global,
    blank: Blank,
    fails_at: u64,
    table: &ClassTable,
    counts: &Counts,
) -> Result<Attempt, Fail>
    requires name { blank.name ≡ L.name }
    requires parts { blank.parts ≡ L.parts }
    requires some { 0 < blank.parts }
{
    let (pages, free, malloced) = counts;
    assert_counts(rt, table, pages, free);
    let mut sink: FailingSink<L> = sink(alloc, blank, fails_at)?;
    let outcome = stats_slabs(table, pages, free, *malloced, &mut sink);
    Ok(attempt_of(outcome, sink))
}

fn general_written<L: Ledger>(
    alloc: Global,
    blank: Blank,
    fails_at: u64,
    numbers: &Numbers,
) -> Result<Attempt, Fail>
    requires name { blank.name ≡ L.name }
    requires parts { blank.parts ≡ L.parts }
    requires some { 0 < blank.parts }
{
    let (pool, moved, rescues, evictions_nomem, busy, running) = *numbers;
    let mut sink: FailingSink<L> = sink(alloc, blank, fails_at)?;
    let outcome = stats_general(
        pool,
        running,
        moved,
        rescues,
        evictions_nomem,
        busy,
        &mut sink,
    );
    Ok(attempt_of(outcome, sink))
}

const SLABS: [(Counts, &str); 3] = [
    (
        ([0; 4], [0; 4], 0),
        "STAT active_slabs 0\r\nSTAT total_malloced 0\r\nEND\r\n",
    ),
    (
        ([1, 0, 0, 0], [20, 0, 0, 0], 1024),
        "STAT 1:chunk_size 48\r\nSTAT 1:chunks_per_page 21\r\nSTAT 1:total_pages 1\r\nSTAT 1:total_chunks 21\r\nSTAT 1:used_chunks 1\r\nSTAT 1:free_chunks 20\r\nSTAT active_slabs 1\r\nSTAT total_malloced 1024\r\nEND\r\n",
    ),
    (
        ([1, 0, 0, 3], [21, 0, 0, 0], 4096),
        "STAT 1:chunk_size 48\r\nSTAT 1:chunks_per_page 21\r\nSTAT 1:total_pages 1\r\nSTAT 1:total_chunks 21\r\nSTAT 1:used_chunks 0\r\nSTAT 1:free_chunks 21\r\nSTAT 4:chunk_size 512\r\nSTAT 4:chunks_per_page 2\r\nSTAT 4:total_pages 3\r\nSTAT 4:total_chunks 6\r\nSTAT 4:used_chunks 6\r\nSTAT 4:free_chunks 0\r\nSTAT active_slabs 2\r\nSTAT total_malloced 4096\r\nEND\r\n",
    ),
];

const GENERAL: [(Numbers, &str); 3] = [
    (
        (0, 0, 0, 0, 0, false),
        "STAT slab_global_page_pool 0\r\nSTAT slab_reassign_running 0\r\nSTAT slabs_moved 0\r\nSTAT slab_reassign_rescues 0\r\nSTAT slab_reassign_evictions_nomem 0\r\nSTAT slab_reassign_busy_items 0\r\nEND\r\n",
    ),
    (
        (1, 2, 3, 4, 5, true),
        "STAT slab_global_page_pool 1\r\nSTAT slab_reassign_running 1\r\nSTAT slabs_moved 2\r\nSTAT slab_reassign_rescues 3\r\nSTAT slab_reassign_evictions_nomem 4\r\nSTAT slab_reassign_busy_items 5\r\nEND\r\n",
    ),
    (
        (u64::MAX, u64::MAX, u64::MAX, u64::MAX, u64::MAX, true),
        "STAT slab_global_page_pool 18446744073709551615\r\nSTAT slab_reassign_running 1\r\nSTAT slabs_moved 18446744073709551615\r\nSTAT slab_reassign_rescues 18446744073709551615\r\nSTAT slab_reassign_evictions_nomem 18446744073709551615\r\nSTAT slab_reassign_busy_items 18446744073709551615\r\nEND\r\n",
    ),
];

/// Where a write failed, none followed, and what was written begins the text. Returns whether all went well.
fn assert_attempt(rt: &impl Abort, attempt: &Attempt, fails_at: u64, text: &str) -> bool {
    let written = attempt.bytes.as_slice();
    if attempt.went_well {
        let found = (written, attempt.writes.saturating_add(1));
        assert_same(rt, found, (text.as_bytes(), fails_at), text);
    } else {
        let found = (text.as_bytes().starts_with(written), attempt.writes);
        assert_same(rt, found, (true, fails_at), text);
    }
    attempt.went_well
}

/// At each of its writes the text of the slabs may fail.
fn assert_slabs(
    rt: &impl Abort,
    alloc: Global,
    table: &ClassTable,
    (counts, text): &(Counts, &str),
) -> Result<(), Fail> {
    for fails_at in 1..200 {
        let blank = Blank::new(1);
        let got = slabs_written::<Brand>(rt, alloc, blank, fails_at, table, counts)?;
        if assert_attempt(rt, &got, fails_at, text) {
            return Ok(());
        }
    }
    Err(Fail::new("the text has more writes"))
}

#[test]
fn slabs_until_a_failure(rt: HostRuntime) -> Result<(), Fail> {
    let table = ClassTable::build(rt.alloc(), &FOUR_CLASSES)?;
    for row in &SLABS {
        assert_slabs(&rt, rt.alloc(), &table, row)?;
    }
    Ok(())
}

/// The general text may fail at each of its writes.
fn assert_general(
    rt: &impl Abort,
    alloc: Global,
    (numbers, text): &(Numbers, &str),
) -> Result<(), Fail> {
    for fails_at in 1..200 {
        let got = general_written::<Brand>(alloc, Blank::new(1), fails_at, numbers)?;
        if assert_attempt(rt, &got, fails_at, text) {
            return Ok(());
        }
    }
    Err(Fail::new("the text has more writes"))
}

#[test]
fn general_until_a_failure(rt: HostRuntime) -> Result<(), Fail> {
    for row in &GENERAL {
        assert_general(&rt, rt.alloc(), row)?;
    }
    Ok(())
}
