//! Scripts that are refused, and scripts at the edge of what is taken.
use super::{FROM_MODE_0, Row, WHOLE, assert_played, assert_same, moves, play, plays, plays_rows};
use mc_driver::RunFault;
use std::alloc::Global;
use std::process::Abort;
use std::test::Fail;
use testlib_values::FOUR_CLASSES;

/// Lines that are none. Nothing of their scripts is done.
const REFUSED: [&str; 14] = [
    "1 get 18446744073709551616\n",
    "1 get 000000000000000000001\n",
    "0 get 1\n",
    "64 get 1\n",
    "1 set 1 4097 0\n",
    "turn 0\n",
    "turn 1000001\n",
    "automove 3\n",
    "reassign -2 1\n",
    "1\tget 1\n",
    "1 get\r 1\n",
    "stats\r",
    "window 1\n",
    "1 window\n",
];

const TAKEN: [Row<'static>; 3] = [
    (
        "the most words",
        "1 set 1 4096 0\n",
        "TOO_LARGE 1\r\n",
        Ok(()),
    ),
    (
        "words that pass the greatest number",
        "1 set 1 3 18446744073709551615\n1 get 1\n",
        "STORED 1\r\nVALUE 1 3 18446744073709551615 0 1\r\n",
        Ok(()),
    ),
    (
        "no words",
        "1 set 1 0 5\n1 get 1\n1 hold 1\n1 drop 1\n",
        "STORED 1\r\nVALUE 1 0\r\nHELD 1\r\nDROPPED 1 0\r\n",
        Ok(()),
    ),
];

const SPENT: Row<'static> = (
    "a held item holds up a move until the turns of the run are spent",
    "1 set 1 22 100\n1 set 2 22 100\n1 set 3 22 100\n1 set 4 22 100\n1 set 5 22 100\n1 set 6 22 100\n1 set 7 22 100\n1 set 8 22 100\n1 hold 1\nreassign 4 1\nturn 1000000\nturn 1\n",
    "STORED 1\r\nSTORED 2\r\nSTORED 3\r\nSTORED 4\r\nSTORED 5\r\nSTORED 6\r\nSTORED 7\r\nSTORED 8\r\nHELD 1\r\nOK\r\nTURN WENT 1 0 1 1000000 0\r\n",
    Err(RunFault::Turns),
);

#[test]
fn refused_lines(rt: HostRuntime) -> Result<(), Fail> {
    for script in &REFUSED {
        let played = play(rt.alloc(), FOUR_CLASSES, script.as_bytes(), WHOLE)?;
        assert_played(&rt, &played, &Err(RunFault::Script(1)), b"", script);
    }
    Ok(())
}

/// All turns of a run are done, and one more isn't: the replies before it were written, and the status is 5.
#[test]
fn spent_turns(rt: HostRuntime) -> Result<(), Fail> {
    let (name, script, replies, end) = SPENT;
    plays(
        &rt,
        rt.alloc(),
        FROM_MODE_0,
        script.as_bytes(),
        replies.as_bytes(),
        &end,
        name,
    )?;
    assert_same(&rt, end.map_err(|fault| fault.status()), Err(5), name);
    Ok(())
}

/// A script that was cut off here is refused by its last line, or its replies are these at first.
fn assert_cut(rt: &impl Abort, alloc: Global, cut: &[u8], before: &[u8]) -> Result<(), Fail> {
    let played = play(alloc, FOUR_CLASSES, cut, WHOLE)?;
    let length = cut.len();
    if played.end.is_ok() {
        assert!(rt; played.text.starts_with(before), "{length} bytes");
    } else {
        let end = Err(RunFault::Script(last_line(cut)));
        assert_played(rt, &played, &end, b"", "a script that is cut off");
    }
    Ok(())
}

/// The replies to whole lines.
fn replies_to(rt: &impl Abort, alloc: Global, lines: &[u8]) -> Result<Vec<u8>, Fail> {
    let whole = play(alloc, FOUR_CLASSES, lines, WHOLE)?;
    let length = lines.len();
    assert!(rt; whole.end.is_ok(), "{length} bytes");
    Ok(whole.text)
}

/// A script that is cut off somewhere is refused by its last line, or runs as the shorter script: the lines before the
/// last one answer what they answer alone.
#[test]
fn truncated_scripts(rt: HostRuntime) -> Result<(), Fail> {
    let (_, script, _, _) = &moves::TWO_MOVES;
    let script = script.as_bytes();
    let mut before = Vec::new(rt.alloc());
    for (length, byte) in script.iter().enumerate() {
        assert_cut(&rt, rt.alloc(), &script[..length], &before)?;
        if *byte == b'\n' {
            before = replies_to(&rt, rt.alloc(), &script[..=length])?;
        }
    }
    assert!(rt; last_line(script) == 16);
    Ok(())
}

/// The number of the line with which a script ends.
fn last_line(script: &[u8]) -> u64 {
    let ends = script.iter().filter(|byte| **byte == b'\n').count();
    (ends as u64).saturating_add(1)
}

#[test]
fn rows_are_played(rt: HostRuntime) -> Result<(), Fail> {
    plays_rows(&rt, rt.alloc(), &TAKEN)
}
