//! Runs whose streams come in pieces or fail.
use super::{StreamLimits, WHOLE, assert_played, assert_same, moves, play};
use mc_driver::RunFault;
use std::test::Fail;
use testlib_values::FOUR_CLASSES;

const SCRIPT: &[u8] = b"1 set 1 3 7\n1 set 2 3 9\n1 del 2\nstats slabs\n";

/// What the script's commands answer, one after another.
const REPLIES: [&[u8]; 4] = [
    b"STORED 1\r\n",
    b"STORED 2\r\n",
    b"DELETED 2\r\n",
    b"STAT 1:chunk_size 48\r\nSTAT 1:chunks_per_page 21\r\nSTAT 1:total_pages 1\r\nSTAT 1:total_chunks 21\r\nSTAT 1:used_chunks 1\r\nSTAT 1:free_chunks 20\r\nSTAT active_slabs 1\r\nSTAT total_malloced 1024\r\nEND\r\n",
];

#[test]
fn a_reader_in_pieces_gives_the_same_run(rt: HostRuntime) -> Result<(), Fail> {
    let whole = play(rt.alloc(), FOUR_CLASSES, SCRIPT, WHOLE)?;
    assert!(rt; whole.end.is_ok());
    for piece in [1, 2, 7] {
        let limits = StreamLimits { piece, ..WHOLE };
        let played = play(rt.alloc(), FOUR_CLASSES, SCRIPT, limits)?;
        assert_played(&rt, &played, &Ok(()), &whole.text, "read in pieces");
    }
    Ok(())
}

#[test]
fn a_reader_that_fails_ends_the_run(rt: HostRuntime) -> Result<(), Fail> {
    for good_bytes in 0..=SCRIPT.len() {
        let limits = StreamLimits {
            good_bytes,
            ..WHOLE
        };
        let played = play(rt.alloc(), FOUR_CLASSES, SCRIPT, limits)?;
        assert_played(&rt, &played, &Err(RunFault::Read), b"", "a failed read");
    }
    Ok(())
}

#[test]
fn a_writer_that_fails_ends_the_run(rt: HostRuntime) -> Result<(), Fail> {
    let mut so_far = Vec::new(rt.alloc());
    for (count, reply) in REPLIES.iter().enumerate() {
        let limits = StreamLimits {
            good_writes: count as u64,
            ..WHOLE
        };
        let played = play(rt.alloc(), FOUR_CLASSES, SCRIPT, limits)?;
        assert_played(
            &rt,
            &played,
            &Err(RunFault::Write),
            &so_far,
            "a failed write",
        );
        so_far.extend_from_slice(reply)?;
    }
    Ok(())
}

/// A held item holds up a move: no read and no write of that run may fail and be overlooked.
#[test]
fn a_reader_that_fails_in_a_long_script(rt: HostRuntime) -> Result<(), Fail> {
    let (_, script, _, _) = &moves::HELD_UP;
    for good_bytes in 0..=script.len() {
        let limits = StreamLimits {
            good_bytes,
            ..WHOLE
        };
        let played = play(rt.alloc(), FOUR_CLASSES, script.as_bytes(), limits)?;
        assert_played(&rt, &played, &Err(RunFault::Read), b"", "a failed read");
    }
    Ok(())
}

/// What was written begins the whole text, and nothing is written after a fault.
#[test]
fn a_writer_that_fails_in_a_long_script(rt: HostRuntime) -> Result<(), Fail> {
    let (_, script, replies, _) = &moves::HELD_UP;
    let mut whole = None;
    for good_writes in 0..32 {
        let limits = StreamLimits {
            good_writes,
            ..WHOLE
        };
        let played = play(rt.alloc(), FOUR_CLASSES, script.as_bytes(), limits)?;
        assert!(rt; !played.wrote_again, "after {good_writes} writes");
        if played.end.is_ok() {
            assert_played(&rt, &played, &Ok(()), replies.as_bytes(), "no failed write");
            whole = Some(good_writes);
            break;
        }
        assert_same(&rt, &played.end, &Err(RunFault::Write), "a failed write");
        assert!(rt;
            replies.as_bytes().starts_with(&played.text),
            "after {good_writes} writes"
        );
    }
    assert_same(&rt, whole, Some(16), "the writes of the whole run");
    Ok(())
}
