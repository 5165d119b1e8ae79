//! Runs whose streams don't fail.
use super::{Row, WHOLE, assert_played, assert_same, play, plays_rows};
use mc_classes::Config;
use mc_driver::RunFault;
use std::alloc::Global;
use std::process::Abort;
use std::sync::Wait;
use std::test::Fail;
use testlib_values::{FOUR_CLASSES, too_much};

/// Scripts of few items.
const ROWS: [Row<'static>; 6] = [
    (
        "first path",
        "1 set 1 3 7\n1 set 2 3 9\n1 del 2\nstats slabs\n",
        "STORED 1\r\nSTORED 2\r\nDELETED 2\r\nSTAT 1:chunk_size 48\r\nSTAT 1:chunks_per_page 21\r\nSTAT 1:total_pages 1\r\nSTAT 1:total_chunks 21\r\nSTAT 1:used_chunks 1\r\nSTAT 1:free_chunks 20\r\nSTAT active_slabs 1\r\nSTAT total_malloced 1024\r\nEND\r\n",
        Ok(()),
    ),
    (
        "nothing yet",
        "stats slabs",
        "STAT active_slabs 0\r\nSTAT total_malloced 0\r\nEND\r\n",
        Ok(()),
    ),
    ("empty script", "", "", Ok(())),
    (
        "largest item",
        "1 set 1 61 0\r\n1 set 2 62 0\r\n1 set 3 4096 0",
        "STORED 1\r\nTOO_LARGE 2\r\nTOO_LARGE 3\r\n",
        Ok(()),
    ),
    (
        "a refused set leaves the old item",
        "1 set 7 3 0\n1 set 7 62 0\n1 del 7\n1 del 7\n",
        "STORED 7\r\nTOO_LARGE 7\r\nDELETED 7\r\nNOT_FOUND 7\r\n",
        Ok(()),
    ),
    (
        "two classes",
        "1 set 1 3 0\n63 set 18446744073709551615 20 18446744073709551615\nstats slabs\n",
        "STORED 1\r\nSTORED 18446744073709551615\r\nSTAT 1:chunk_size 48\r\nSTAT 1:chunks_per_page 21\r\nSTAT 1:total_pages 1\r\nSTAT 1:total_chunks 21\r\nSTAT 1:used_chunks 1\r\nSTAT 1:free_chunks 20\r\nSTAT 3:chunk_size 192\r\nSTAT 3:chunks_per_page 5\r\nSTAT 3:total_pages 1\r\nSTAT 3:total_chunks 5\r\nSTAT 3:used_chunks 1\r\nSTAT 3:free_chunks 4\r\nSTAT active_slabs 2\r\nSTAT total_malloced 2048\r\nEND\r\n",
        Ok(()),
    ),
];

/// Scripts by which a class is full, or a page is.
const FULL: [Row<'static>; 6] = [
    (
        "a full class evicts its oldest item, and a class without a page gets its first beyond the limit",
        "1 set 1 61 0\n1 set 2 61 0\n1 set 3 61 0\n1 set 4 61 0\n1 set 5 61 0\n1 set 6 61 0\n1 set 7 61 0\n1 set 8 61 0\n1 set 9 61 0\n1 get 1\n1 touch 2\n1 set 10 3 0\nstats slabs\n1 set 11 9 0\n1 set 12 20 0\nstats slabs\n",
        "STORED 1\r\nSTORED 2\r\nSTORED 3\r\nSTORED 4\r\nSTORED 5\r\nSTORED 6\r\nSTORED 7\r\nSTORED 8\r\nSTORED 9\r\nNOT_FOUND 1\r\nTOUCHED 2\r\nSTORED 10\r\nSTAT 1:chunk_size 48\r\nSTAT 1:chunks_per_page 21\r\nSTAT 1:total_pages 1\r\nSTAT 1:total_chunks 21\r\nSTAT 1:used_chunks 1\r\nSTAT 1:free_chunks 20\r\nSTAT 4:chunk_size 512\r\nSTAT 4:chunks_per_page 2\r\nSTAT 4:total_pages 4\r\nSTAT 4:total_chunks 8\r\nSTAT 4:used_chunks 8\r\nSTAT 4:free_chunks 0\r\nSTAT active_slabs 2\r\nSTAT total_malloced 5120\r\nEND\r\nSTORED 11\r\nSTORED 12\r\nSTAT 1:chunk_size 48\r\nSTAT 1:chunks_per_page 21\r\nSTAT 1:total_pages 1\r\nSTAT 1:total_chunks 21\r\nSTAT 1:used_chunks 1\r\nSTAT 1:free_chunks 20\r\nSTAT 2:chunk_size 96\r\nSTAT 2:chunks_per_page 10\r\nSTAT 2:total_pages 1\r\nSTAT 2:total_chunks 10\r\nSTAT 2:used_chunks 1\r\nSTAT 2:free_chunks 9\r\nSTAT 3:chunk_size 192\r\nSTAT 3:chunks_per_page 5\r\nSTAT 3:total_pages 1\r\nSTAT 3:total_chunks 5\r\nSTAT 3:used_chunks 1\r\nSTAT 3:free_chunks 4\r\nSTAT 4:chunk_size 512\r\nSTAT 4:chunks_per_page 2\r\nSTAT 4:total_pages 4\r\nSTAT 4:total_chunks 8\r\nSTAT 4:used_chunks 8\r\nSTAT 4:free_chunks 0\r\nSTAT active_slabs 4\r\nSTAT total_malloced 7168\r\nEND\r\n",
        Ok(()),
    ),
    (
        "a class that got its first page beyond the limit evicts where it is full",
        "1 set 1 61 0\n1 set 2 61 0\n1 set 3 61 0\n1 set 4 61 0\n1 set 5 61 0\n1 set 6 61 0\n1 set 7 61 0\n1 set 8 61 0\n1 set 9 61 0\n1 set 10 3 0\n1 set 21 3 0\n1 set 22 3 0\n1 set 23 3 0\n1 set 24 3 0\n1 set 25 3 0\n1 set 26 3 0\n1 set 27 3 0\n1 set 28 3 0\n1 set 29 3 0\n1 set 30 3 0\n1 set 31 3 0\n1 set 32 3 0\n1 set 33 3 0\n1 set 34 3 0\n1 set 35 3 0\n1 set 36 3 0\n1 set 37 3 0\n1 set 38 3 0\n1 set 39 3 0\n1 set 40 3 0\n1 set 41 3 0\n1 get 10\n1 touch 21\n",
        "STORED 1\r\nSTORED 2\r\nSTORED 3\r\nSTORED 4\r\nSTORED 5\r\nSTORED 6\r\nSTORED 7\r\nSTORED 8\r\nSTORED 9\r\nSTORED 10\r\nSTORED 21\r\nSTORED 22\r\nSTORED 23\r\nSTORED 24\r\nSTORED 25\r\nSTORED 26\r\nSTORED 27\r\nSTORED 28\r\nSTORED 29\r\nSTORED 30\r\nSTORED 31\r\nSTORED 32\r\nSTORED 33\r\nSTORED 34\r\nSTORED 35\r\nSTORED 36\r\nSTORED 37\r\nSTORED 38\r\nSTORED 39\r\nSTORED 40\r\nSTORED 41\r\nNOT_FOUND 10\r\nTOUCHED 21\r\n",
        Ok(()),
    ),
    (
        "a dead item makes room",
        "1 set 1 61 0\n1 set 2 61 0\n1 set 3 61 0\n1 set 4 61 0\n1 set 5 61 0\n1 set 6 61 0\n1 set 7 61 0\n1 set 8 61 0\n1 del 3\n1 set 9 61 0\n1 del 3\n",
        "STORED 1\r\nSTORED 2\r\nSTORED 3\r\nSTORED 4\r\nSTORED 5\r\nSTORED 6\r\nSTORED 7\r\nSTORED 8\r\nDELETED 3\r\nSTORED 9\r\nNOT_FOUND 3\r\n",
        Ok(()),
    ),
    (
        "dead items go before a page is granted",
        "1 set 1 61 0\n1 set 2 61 0\n1 del 1\n1 set 3 61 0\nstats slabs\n",
        "STORED 1\r\nSTORED 2\r\nDELETED 1\r\nSTORED 3\r\nSTAT 4:chunk_size 512\r\nSTAT 4:chunks_per_page 2\r\nSTAT 4:total_pages 1\r\nSTAT 4:total_chunks 2\r\nSTAT 4:used_chunks 2\r\nSTAT 4:free_chunks 0\r\nSTAT active_slabs 1\r\nSTAT total_malloced 1024\r\nEND\r\n",
        Ok(()),
    ),
    (
        "an overwrite takes a second chunk",
        "1 set 1 61 0\n1 set 1 61 5\n1 set 2 61 0\nstats slabs\n",
        "STORED 1\r\nSTORED 1\r\nSTORED 2\r\nSTAT 4:chunk_size 512\r\nSTAT 4:chunks_per_page 2\r\nSTAT 4:total_pages 1\r\nSTAT 4:total_chunks 2\r\nSTAT 4:used_chunks 2\r\nSTAT 4:free_chunks 0\r\nSTAT active_slabs 1\r\nSTAT total_malloced 1024\r\nEND\r\n",
        Ok(()),
    ),
    (
        "a class without a page gets one where all within the limit are granted",
        "1 set 1 61 0\n1 set 2 61 0\n1 set 3 61 0\n1 set 4 61 0\n1 set 5 61 0\n1 set 6 61 0\n1 set 7 61 0\n1 set 10 3 0\n",
        "STORED 1\r\nSTORED 2\r\nSTORED 3\r\nSTORED 4\r\nSTORED 5\r\nSTORED 6\r\nSTORED 7\r\nSTORED 10\r\n",
        Ok(()),
    ),
];

/// Scripts that are refused.
const BAD: [Row<'static>; 5] = [
    (
        "bad second line",
        "1 set 1 3 7\n1 frob 3\n",
        "",
        Err(RunFault::Script(2)),
    ),
    (
        "cut second line",
        "1 set 1 3 7\n1 se",
        "",
        Err(RunFault::Script(2)),
    ),
    (
        "the first of two bad lines",
        "\n# a comment\nfrob\n1 del 1\nfrob\n",
        "",
        Err(RunFault::Script(3)),
    ),
    ("a tab", "1\tdel 1\n", "", Err(RunFault::Script(1))),
    (
        "a number of 2^64",
        "1 del 18446744073709551616\n",
        "",
        Err(RunFault::Script(1)),
    ),
];

/// Classes and pages that are full.
fn full_are_played<R: Abort + Wait>(rt: &R, alloc: Global) -> Result<(), Fail> {
    plays_rows(rt, alloc, &FULL)
}

/// Scripts of which nothing is done.
fn bad_are_played<R: Abort + Wait>(rt: &R, alloc: Global) -> Result<(), Fail> {
    plays_rows(rt, alloc, &BAD)
}

#[test]
fn rows_are_played(rt: HostRuntime) -> Result<(), Fail> {
    plays_rows(&rt, rt.alloc(), &ROWS)?;
    full_are_played(&rt, rt.alloc())?;
    bad_are_played(&rt, rt.alloc())
}

/// Configurations that are refused, each with the number of the test that refuses it.
const REFUSED: [(u64, Config); 8] = [
    (
        1,
        Config {
            page: 7,
            ..FOUR_CLASSES
        },
    ),
    (
        2,
        Config {
            first: 23,
            ..FOUR_CLASSES
        },
    ),
    (
        3,
        Config {
            den: 0,
            ..FOUR_CLASSES
        },
    ),
    (
        4,
        Config {
            max: 520 - 1,
            ..FOUR_CLASSES
        },
    ),
    (
        5,
        Config {
            limit: 1023,
            ..FOUR_CLASSES
        },
    ),
    (
        6,
        Config {
            stripes: 65,
            ..FOUR_CLASSES
        },
    ),
    (
        7,
        Config {
            page: 16384,
            limit: 65536,
            ..FOUR_CLASSES
        },
    ),
    (
        8,
        Config {
            bulk: 0,
            ..FOUR_CLASSES
        },
    ),
];

#[test]
fn a_refused_configuration_comes_first(rt: HostRuntime) -> Result<(), Fail> {
    for (number, config) in &REFUSED {
        let played = play(rt.alloc(), *config, b"frob\n", WHOLE)?;
        let end = Err(RunFault::Config(*number));
        assert_played(&rt, &played, &end, b"", "a refused configuration");
    }
    Ok(())
}

#[test]
fn scripts_of_the_greatest_length(rt: HostRuntime) -> Result<(), Fail> {
    for (length, end) in [(1_048_576, Ok(())), (1_048_577, Err(RunFault::TooLong))] {
        let comment = vec![in rt.alloc(); b'#'; length]?;
        let played = play(rt.alloc(), FOUR_CLASSES, &comment, WHOLE)?;
        assert_played(&rt, &played, &end, b"", "a long script");
    }
    Ok(())
}

/// The fault's status is this.
fn assert_status(rt: &impl Abort, fault: RunFault, status: u8) {
    assert_same(rt, fault.status(), status, "the status");
}

#[test]
fn statuses(rt: HostRuntime) -> Result<(), Fail> {
    let refused = too_much(rt.alloc())?;
    assert_status(&rt, RunFault::Memory(refused), 4);
    assert_status(&rt, RunFault::Config(7), 1);
    assert_status(&rt, RunFault::Script(2), 2);
    assert_status(&rt, RunFault::TooLong, 2);
    assert_status(&rt, RunFault::Read, 3);
    assert_status(&rt, RunFault::Write, 3);
    assert_status(&rt, RunFault::Turns, 5);
    Ok(())
}
