//! Runs that end before a thread is started, or at the one write behind them: the rest is left as it was.
use super::play::{Played, StreamLimits, WHOLE, play, play_disturbed};
use mc_classes::Config;
use mc_driver::{Free, RunFault};
use std::process::Abort;
use std::test::Fail;
use testlib_values::FOUR_CLASSES;

/// Two workers and a mover.
const SCRIPT: &[u8] = b"1 set 1 3 7\n2 set 2 3 9\nreassign 1 2\n";

/// Lines that are no command: each is refused as line 1, and nothing is written.
const REFUSED: [&[u8]; 14] = [
    // A number above the greatest of 64 bits, and one of 21 digits.
    b"1 get 18446744073709551616\n",
    b"1 get 000000000000000000001\n",
    // Workers are 1 to 63.
    b"0 get 1\n",
    b"64 get 1\n",
    // An item has 4,096 words at most, a line 1 to 1,000,000 turns, the automover modes 0 to 2, and a source is -1 or a class.
    b"1 set 1 4097 0\n",
    b"turn 0\n",
    b"turn 1000001\n",
    b"automove 3\n",
    b"reassign -2 1\n",
    // Words have one space between them, a CR is before an LF alone, and not at the script's end.
    b"1\tget 1\n",
    b"1 get\r 1\n",
    b"stats\r",
    // A window is of no class, and no worker's.
    b"window 1\n",
    b"1 window\n",
];

/// The most bytes of a script.
const MOST: usize = 1_048_576;

/// The run ended by this fault, and nothing was written.
fn assert_fault(rt: &impl Abort, played: &Played, fault: RunFault, name: &str) {
    assert!(rt; played.is(&Err(fault), b""), "{name}");
}

#[test]
fn refused_lines_start_no_thread(rt: HostRuntime) -> Result<(), Fail> {
    for script in REFUSED {
        let played = play(&rt, rt.alloc(), &Free, script);
        assert_fault(
            &rt,
            &played,
            RunFault::Script(1),
            "a line that is no command",
        );
    }
    Ok(())
}

#[test]
fn a_refused_configuration_reads_nothing(rt: HostRuntime) -> Result<(), Fail> {
    let config = Config {
        first: 8,
        ..FOUR_CLASSES
    };
    let played = play_disturbed(&rt, rt.alloc(), config, &Free, SCRIPT, WHOLE);
    assert_fault(
        &rt,
        &played,
        RunFault::Config(2),
        "the first class is too small",
    );
    assert!(rt; played.bytes_read == 0, "nothing was read");
    Ok(())
}

#[test]
fn a_reader_that_fails_ends_the_run(rt: HostRuntime) -> Result<(), Fail> {
    for good_bytes in 0..=SCRIPT.len() {
        let limits = StreamLimits {
            good_bytes,
            ..WHOLE
        };
        let played = play_disturbed(&rt, rt.alloc(), FOUR_CLASSES, &Free, SCRIPT, limits);
        let name = format!(in rt.alloc(); "after {good_bytes} bytes")?;
        assert_fault(&rt, &played, RunFault::Read, &name);
    }
    Ok(())
}

#[test]
fn a_writer_that_fails_ends_the_run(rt: HostRuntime) -> Result<(), Fail> {
    let limits = StreamLimits {
        good_writes: 0,
        ..WHOLE
    };
    let played = play_disturbed(&rt, rt.alloc(), FOUR_CLASSES, &Free, SCRIPT, limits);
    assert_fault(&rt, &played, RunFault::Write, "the one write failed");
    Ok(())
}

#[test]
fn a_script_of_the_greatest_length(rt: HostRuntime) -> Result<(), Fail> {
    let mut script = vec![in rt.alloc(); b'\n'; MOST]?;
    let whole = play(&rt, rt.alloc(), &Free, &script);
    assert!(rt; whole.end.is_ok(), "a million blank lines");
    script.push(b'\n')?;
    let longer = play(&rt, rt.alloc(), &Free, &script);
    assert_fault(&rt, &longer, RunFault::TooLong, "one byte more");
    Ok(())
}
