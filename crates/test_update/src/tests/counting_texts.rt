//! The texts of counts and of classes, and writes that fail in the middle of them.
ghost use Rattle.std.specs.Prelude.{◌≡◌, ◌<◌};

use mc_cache::{CacheStats, ClassItems, ClassStats};
use mc_classes::{ClassTable, Config};
use mc_io::{Failures, Fault, Sink};
use mc_stats::{Counts, write_class_metrics, write_items, write_slabs, write_usage};
use std::alloc::Global;
use std::marker::Brand;
use std::sync::ledger::{Blank, Ledger};
use std::test::Fail;

/// Keeps what is written. One write fails, and half of its bytes are kept all the same; those behind it would go well.
#[derive(Drop)]
struct FailingSink<L: Ledger> {
    bytes: Vec<u8>,
    /// How many writes were tried.
    writes: u64,
    /// The write that fails, from 1.
    fails_at: u64,
    failures: Failures<L>,
}

impl<L: Ledger> Sink for FailingSink<L> {
    ghost use Rattle.std.specs.Prelude.{Some};

    ghost contents = { λ s. Some s.bytes.items };

    ghost failures = { λ s. s.failures };

    fn write_all(&mut self, bytes: &[u8]) -> Result<(), Fault> {
        self.writes = self.writes.saturating_add(1);
        let fails = self.writes == self.fails_at;
        let count = if fails { bytes.len() / 2 } else { bytes.len() };
        if self.bytes.extend_from_slice(&bytes[..count]).is_err() || fails {
            self.failures.add();
            return Err(Fault);
        }
        Ok(())
    }
}

/// Which text is written.
#[derive(Clone, Copy)]
enum Form {
    Stats,
    OpenMetrics,
    Slabs,
    Items,
    Usage,
    ClassMetrics,
    Exposition,
}

/// What the texts are written of.
#[derive(Drop)]
struct Numbers {
    counts: Counts,
    classes: ClassTable,
    stats: CacheStats,
    items: Vec<ClassItems>,
}

/// What was written, how many writes were tried, and whether all went well.
#[derive(Drop)]
struct Attempt {
    bytes: Vec<u8>,
    writes: u64,
    went_well: bool,
}

const STATS: &[u8] =
    b"STAT get_hits 12\r\nSTAT get_misses 3\r\nSTAT sets_stored 7\r\nSTAT sets_unmet 0\r\nSTAT store_too_large 1\r\nSTAT store_no_memory 0\r\nSTAT delete_hits 1\r\nSTAT delete_misses 0\r\nSTAT touch_hits 18446744073709551615\r\nSTAT touch_misses 0\r\nEND\r\n";

const OPEN_METRICS: &[u8] =
    b"# TYPE mc_gets counter\nmc_gets_total{result=\"hit\"} 12\nmc_gets_total{result=\"miss\"} 3\n# TYPE mc_sets counter\nmc_sets_total{result=\"stored\"} 7\nmc_sets_total{result=\"unmet\"} 0\nmc_sets_total{result=\"too_large\"} 1\nmc_sets_total{result=\"no_memory\"} 0\n# TYPE mc_deletes counter\nmc_deletes_total{result=\"hit\"} 1\nmc_deletes_total{result=\"miss\"} 0\n# TYPE mc_touches counter\nmc_touches_total{result=\"hit\"} 18446744073709551615\nmc_touches_total{result=\"miss\"} 0\n# EOF\n";

// Class 1 has no page and no item. Class 3 has the greatest numbers of items and bytes.
const SLABS: &[u8] =
    b"STAT 2:chunk_size 192\r\nSTAT 2:chunks_per_page 5\r\nSTAT 2:total_pages 3\r\nSTAT 2:total_chunks 15\r\nSTAT 2:used_chunks 11\r\nSTAT 2:free_chunks 4\r\nSTAT 3:chunk_size 392\r\nSTAT 3:chunks_per_page 2\r\nSTAT 3:total_pages 1\r\nSTAT 3:total_chunks 2\r\nSTAT 3:used_chunks 0\r\nSTAT 3:free_chunks 2\r\nSTAT active_slabs 2\r\nSTAT total_malloced 4096\r\nEND\r\n";

const ITEMS: &[u8] =
    b"STAT items:2:number 3\r\nSTAT items:2:mem_requested 500\r\nSTAT items:2:evicted 7\r\nSTAT items:3:number 18446744073709551615\r\nSTAT items:3:mem_requested 18446744073709551615\r\nSTAT items:3:evicted 0\r\nEND\r\n";

const USAGE: &[u8] =
    b"STAT curr_items 18446744073709551615\r\nSTAT bytes 18446744073709551615\r\nSTAT evictions 9\r\nEND\r\n";

const CLASS_METRICS: &[u8] =
    b"# TYPE mc_class_chunk_bytes gauge\n# UNIT mc_class_chunk_bytes bytes\nmc_class_chunk_bytes{class=\"2\"} 192\nmc_class_chunk_bytes{class=\"3\"} 392\n# TYPE mc_class_chunks_per_page gauge\nmc_class_chunks_per_page{class=\"2\"} 5\nmc_class_chunks_per_page{class=\"3\"} 2\n# TYPE mc_class_pages gauge\nmc_class_pages{class=\"2\"} 3\nmc_class_pages{class=\"3\"} 1\n# TYPE mc_class_chunks gauge\nmc_class_chunks{class=\"2\"} 15\nmc_class_chunks{class=\"3\"} 2\n# TYPE mc_class_used_chunks gauge\nmc_class_used_chunks{class=\"2\"} 11\nmc_class_used_chunks{class=\"3\"} 0\n# TYPE mc_class_free_chunks gauge\nmc_class_free_chunks{class=\"2\"} 4\nmc_class_free_chunks{class=\"3\"} 2\n# TYPE mc_class_items gauge\nmc_class_items{class=\"2\"} 3\nmc_class_items{class=\"3\"} 18446744073709551615\n# TYPE mc_class_item_bytes gauge\n# UNIT mc_class_item_bytes bytes\nmc_class_item_bytes{class=\"2\"} 500\nmc_class_item_bytes{class=\"3\"} 18446744073709551615\n# TYPE mc_class_evictions counter\nmc_class_evictions_total{class=\"2\"} 7\nmc_class_evictions_total{class=\"3\"} 0\n";

// The classes come first, so that the one end of the text is that of the counts.
const EXPOSITION: &[u8] =
    b"# TYPE mc_class_chunk_bytes gauge\n# UNIT mc_class_chunk_bytes bytes\nmc_class_chunk_bytes{class=\"2\"} 192\nmc_class_chunk_bytes{class=\"3\"} 392\n# TYPE mc_class_chunks_per_page gauge\nmc_class_chunks_per_page{class=\"2\"} 5\nmc_class_chunks_per_page{class=\"3\"} 2\n# TYPE mc_class_pages gauge\nmc_class_pages{class=\"2\"} 3\nmc_class_pages{class=\"3\"} 1\n# TYPE mc_class_chunks gauge\nmc_class_chunks{class=\"2\"} 15\nmc_class_chunks{class=\"3\"} 2\n# TYPE mc_class_used_chunks gauge\nmc_class_used_chunks{class=\"2\"} 11\nmc_class_used_chunks{class=\"3\"} 0\n# TYPE mc_class_free_chunks gauge\nmc_class_free_chunks{class=\"2\"} 4\nmc_class_free_chunks{class=\"3\"} 2\n# TYPE mc_class_items gauge\nmc_class_items{class=\"2\"} 3\nmc_class_items{class=\"3\"} 18446744073709551615\n# TYPE mc_class_item_bytes gauge\n# UNIT mc_class_item_bytes bytes\nmc_class_item_bytes{class=\"2\"} 500\nmc_class_item_bytes{class=\"3\"} 18446744073709551615\n# TYPE mc_class_evictions counter\nmc_class_evictions_total{class=\"2\"} 7\nmc_class_evictions_total{class=\"3\"} 0\n# TYPE mc_gets counter\nmc_gets_total{result=\"hit\"} 12\nmc_gets_total{result=\"miss\"} 3\n# TYPE mc_sets counter\nmc_sets_total{result=\"stored\"} 7\nmc_sets_total{result=\"unmet\"} 0\nmc_sets_total{result=\"too_large\"} 1\nmc_sets_total{result=\"no_memory\"} 0\n# TYPE mc_deletes counter\nmc_deletes_total{result=\"hit\"} 1\nmc_deletes_total{result=\"miss\"} 0\n# TYPE mc_touches counter\nmc_touches_total{result=\"hit\"} 18446744073709551615\nmc_touches_total{result=\"miss\"} 0\n# EOF\n";

const CONFIG: Config = Config {
    page: 1024,
    limit: 4096,
    first: 96,
    num: 2,
    den: 1,
    max: 392,
    stripes: 4,
    bulk: 4,
};

/// Counts of which some are 0, and one can't grow any more.
fn some_counts() -> Counts {
    let mut counts = Counts::new();
    counts.get_hits = 12;
    counts.get_misses = 3;
    counts.sets_stored = 7;
    counts.store_too_large = 1;
    counts.delete_hits = 1;
    counts.touch_hits = u64::MAX;
    counts
}

/// The statistics of three classes.
fn some_stats(alloc: Global) -> Result<CacheStats, Fail> {
    let mut classes = Vec::new(alloc);
    for (pages, free, evictions) in [(0, 0, 2), (3, 4, 7), (1, 2, 0)] {
        classes.push(ClassStats {
            pages,
            free,
            evictions,
        })?;
    }
    Ok(CacheStats {
        classes,
        granted: 4,
        pool: 0,
        moving: 0,
        ended: 0,
        rescued: 0,
        evicted: 0,
        busy: 0,
    })
}

/// The numbers of which the texts are written.
fn some_numbers(alloc: Global) -> Result<Numbers, Fail> {
    let mut items = Vec::new(alloc);
    for (count, bytes) in [(0, 0), (3, 500), (u64::MAX, u64::MAX)] {
        items.push(ClassItems {
            items: count,
            bytes,
        })?;
    }
    Ok(Numbers {
        counts: some_counts(),
        classes: ClassTable::build(alloc, &CONFIG)?,
        stats: some_stats(alloc)?,
        items,
    })
}

/// Writes the text, where the write of this number fails.
fn written<L: Ledger>(
    alloc: Global,
    blank: Blank,
    fails_at: u64,
    form: Form,
    numbers: &Numbers,
) -> Attempt
    requires name { blank.name ≡ L.name }
    requires parts { blank.parts ≡ L.parts }
    requires some { 0 < blank.parts }
{
    let failures: Failures<L> = Failures::new(blank);
    let mut sink = FailingSink {
        bytes: Vec::new(alloc),
        writes: 0,
        fails_at,
        failures,
    };
    let outcome = match form {
        Form::Stats => numbers.counts.write_stats(&mut sink),
        Form::OpenMetrics => numbers.counts.write_openmetrics(&mut sink),
        Form::Slabs => write_slabs(&numbers.classes, &numbers.stats, &mut sink),
        Form::Items => write_items(&numbers.items, &numbers.stats, &mut sink),
        Form::Usage => write_usage(&numbers.items, &numbers.stats, &mut sink),
        Form::ClassMetrics => {
            write_class_metrics(&numbers.classes, &numbers.stats, &numbers.items, &mut sink)
        }
        Form::Exposition => numbers.counts.write_exposition(
            &numbers.classes,
            &numbers.stats,
            &numbers.items,
            &mut sink,
        ),
    };
    let FailingSink {
        bytes,
        writes,
        fails_at: _,
        failures: _,
    } = sink;
    Attempt {
        bytes,
        writes,
        went_well: outcome.is_ok(),
    }
}

/// Whether the bytes are the text, where all writes went well; and else begin it, with no write behind the one that failed.
fn is_right(attempt: &Attempt, fails_at: u64, text: &[u8]) -> bool {
    let bytes = attempt.bytes.as_slice();
    if attempt.went_well {
        bytes == text && attempt.writes < fails_at
    } else {
        text.starts_with(bytes) && attempt.writes == fails_at
    }
}

/// The text may fail at each of its writes.
fn try_each_write(alloc: Global, form: Form, text: &[u8]) -> Result<(), Fail> {
    let numbers = some_numbers(alloc)?;
    for fails_at in 1..200 {
        let attempt = written::<Brand>(alloc, Blank::new(1), fails_at, form, &numbers);
        if !is_right(&attempt, fails_at, text) {
            return Err(Fail::new("other bytes were written"));
        }
        if attempt.went_well {
            return Ok(());
        }
    }
    Err(Fail::new("the text has more writes"))
}

#[test]
fn stats_until_a_failure(rt: HostRuntime) -> Result<(), Fail> {
    try_each_write(rt.alloc(), Form::Stats, STATS)
}

#[test]
fn open_metrics_until_a_failure(rt: HostRuntime) -> Result<(), Fail> {
    try_each_write(rt.alloc(), Form::OpenMetrics, OPEN_METRICS)
}

#[test]
fn slabs_until_a_failure(rt: HostRuntime) -> Result<(), Fail> {
    try_each_write(rt.alloc(), Form::Slabs, SLABS)
}

#[test]
fn items_until_a_failure(rt: HostRuntime) -> Result<(), Fail> {
    try_each_write(rt.alloc(), Form::Items, ITEMS)
}

#[test]
fn usage_until_a_failure(rt: HostRuntime) -> Result<(), Fail> {
    try_each_write(rt.alloc(), Form::Usage, USAGE)
}

#[test]
fn class_metrics_until_a_failure(rt: HostRuntime) -> Result<(), Fail> {
    try_each_write(rt.alloc(), Form::ClassMetrics, CLASS_METRICS)
}

#[test]
fn exposition_until_a_failure(rt: HostRuntime) -> Result<(), Fail> {
    try_each_write(rt.alloc(), Form::Exposition, EXPOSITION)
}
