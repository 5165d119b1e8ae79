//! Scripts that are read, and such as are refused.
use super::{assert_equal, assert_same};
use mc_script::{Command, MAX_SCRIPT, ScriptError, read};
use std::alloc::Global;
use std::process::Abort;
use std::test::Fail;
use testlib_values::too_much;

/// The line at which a script is refused.
fn refused_line(alloc: Global, script: &[u8]) -> Result<Option<u64>, ScriptError> {
    match read(alloc, script) {
        Ok(_commands) => Ok(None),
        Err(error) => match error {
            ScriptError::Line(number) => Ok(Some(number)),
            ScriptError::NoMemory(refused) => Err(ScriptError::NoMemory(refused)),
        },
    }
}

/// A script, and the line at which it is refused.
const REFUSED: [(&str, u64); 21] = [
    // numbers
    ("1 del 18446744073709551616", 1),
    ("1 del 000000000000000000001", 1),
    ("-1 del 1", 1),
    ("1 del +1", 1),
    // ranges
    ("0 del 1", 1),
    ("64 del 1", 1),
    ("1 set 1 4097 0", 1),
    // bytes between words and line ends
    ("1\tdel 1", 1),
    ("\t# x", 1),
    ("1 del 1\r2 del 2", 1),
    ("stats slabs\r", 1),
    ("stats slabs\r\r\n", 1),
    // forms
    ("1 set 1 3", 1),
    ("1 set 1 3 7 8", 1),
    ("STATS slabs", 1),
    ("stats now", 1),
    ("1 del 1 # no comment", 1),
    // numbering
    ("1 set 1 3 7\n1 frob 3", 2),
    ("1 set 1 3 7\n1 se", 2),
    ("\n\r\n# x\n1 frob 3\n", 4),
    ("1 del 1\n\nfirst\n1 del 2\nsecond\n", 3),
];

#[test]
fn refuses_the_lowest_line(rt: HostRuntime) -> Result<(), Fail> {
    for (script, line) in &REFUSED {
        let found = refused_line(rt.alloc(), script.as_bytes())?;
        assert_same(&rt, found, Some(*line), script);
    }
    Ok(())
}

/// The script is this command alone.
fn assert_command(
    rt: &(impl Abort + AllocGlobal),
    script: &str,
    command: &Command,
) -> Result<(), Fail> {
    let commands = read(rt.alloc(), script.as_bytes())?;
    assert_equal(rt, commands.as_slice(), [*command].as_slice(), script);
    Ok(())
}

/// Each of these scripts is refused at its first line.
fn assert_refused(rt: &(impl Abort + AllocGlobal), scripts: &[&str]) -> Result<(), Fail> {
    for script in scripts {
        let line = refused_line(rt.alloc(), script.as_bytes())?;
        assert_same(rt, line, Some(1), script);
    }
    Ok(())
}

/// Each row's script is the row's command alone.
fn assert_commands(rt: &(impl Abort + AllocGlobal), rows: &[(&str, Command)]) -> Result<(), Fail> {
    for (script, command) in rows {
        assert_command(rt, script, command)?;
    }
    Ok(())
}

/// A script has n commands.
fn assert_count(rt: &(impl Abort + AllocGlobal), script: &[u8], count: usize) -> Result<(), Fail> {
    let commands = read(rt.alloc(), script)?;
    assert_same(rt, commands.len(), count, "commands");
    Ok(())
}

/// A script, and its command.
const COMMANDS: [(&str, Command); 6] = [
    (
        "1 set 1 4096 0",
        Command::Set {
            worker: 1,
            key: 1,
            words: 4096,
            base: 0,
        },
    ),
    (
        "1 del 18446744073709551615\n",
        Command::Delete {
            worker: 1,
            key: u64::MAX,
        },
    ),
    ("  01   del   007  ", Command::Delete { worker: 1, key: 7 }),
    ("stats slabs", Command::StatsSlabs),
    ("stats slabs\r\n", Command::StatsSlabs),
    (
        "\n \n# 1 frob 3\r\n  # x\nstats slabs\n\n",
        Command::StatsSlabs,
    ),
];

#[test]
fn gives_the_commands(rt: HostRuntime) -> Result<(), Fail> {
    assert_commands(&rt, &COMMANDS)?;
    assert_count(&rt, b"", 0)
}

#[test]
fn keeps_the_order(rt: HostRuntime) -> Result<(), Fail> {
    let commands = read(rt.alloc(), b"63 del 2\r\n# between\n1 del 1")?;
    let wanted = [
        Command::Delete { worker: 63, key: 2 },
        Command::Delete { worker: 1, key: 1 },
    ];
    assert_equal(&rt, commands.as_slice(), wanted.as_slice(), "two commands");
    Ok(())
}

#[test]
fn skips_any_comment(rt: HostRuntime) -> Result<(), Fail> {
    let line = refused_line(rt.alloc(), b"#\0\xff\t\r x\nno")?;
    assert_same(&rt, line, Some(2), "after a comment");
    let comment = vec![in rt.alloc(); b'#'; MAX_SCRIPT]?;
    assert_count(&rt, &comment, 0)
}

#[test]
fn reads_a_largest_script(rt: HostRuntime) -> Result<(), Fail> {
    let mut script = Vec::new(rt.alloc());
    for _ in 0..MAX_SCRIPT / 8 {
        script.extend_from_slice(b"1 del 1\n")?;
    }
    assert_count(&rt, &script, MAX_SCRIPT / 8)
}

/// The error has this text.
fn assert_text(
    rt: &impl Abort,
    alloc: Global,
    error: ScriptError,
    wanted: &str,
) -> Result<(), Fail> {
    let text = error.to_string(alloc)?;
    assert_same(rt, text.as_str(), wanted, "the text");
    Ok(())
}

#[test]
fn tells_the_error(rt: HostRuntime) -> Result<(), Fail> {
    let line = ScriptError::Line(12);
    assert_text(&rt, rt.alloc(), line, "line 12 is no command")?;
    let memory = ScriptError::NoMemory(too_much(rt.alloc())?);
    assert_text(&rt, rt.alloc(), memory, "out of memory")
}

/// Lines that are no worker's.
const REFUSED_OF_WORKERS: [&str; 28] = [
    // numbers and ranges
    "0 get 1",
    "64 get 1",
    "0 hold 1",
    "64 drop 1",
    "64 touch 1",
    "-1 get 1",
    "1 get -1",
    "1 get 18446744073709551616",
    "1 hold 18446744073709551616",
    "1 drop 18446744073709551616",
    "1 touch 18446744073709551616",
    "1 get 000000000000000000001",
    // forms
    "1 get",
    "1 get ",
    "1 get 1 2",
    "1 hold",
    "1 drop 1 1",
    "1 touch",
    "get 1",
    "get 1 1",
    "1 1 get",
    "1 GET 1",
    "1 gets 1",
    "1 ge 1",
    "1 release 1",
    // bytes between words
    "1\tget\t1",
    "1 get\t1",
    "1 get 1\r",
];

/// Lines that are no mover's.
const REFUSED_WITHOUT_A_WORKER: [&str; 45] = [
    // numbers and ranges
    "turn 0",
    "turn 00",
    "turn 1000001",
    "turn 18446744073709551616",
    "turn -1",
    "turn +1",
    "automove 3",
    "automove 18446744073709551616",
    "automove -1",
    "automove",
    "automove 1 1",
    "Automove 1",
    "window 1",
    "windows",
    "1 window",
    "1 automove 1",
    "reassign 18446744073709551616 1",
    "reassign 1 18446744073709551616",
    // no source and no destination
    "reassign -2 1",
    "reassign -01 1",
    "reassign -0 1",
    "reassign - 1",
    "reassign -1- 1",
    "reassign - 1 1",
    "reassign 1 -1",
    "reassign -1 -1",
    // forms
    "reassign -1",
    "reassign 1",
    "reassign 1 2 3",
    "reassign",
    "1 reassign 2",
    "turn",
    "turn 1 2",
    "1 turn",
    "1 turn 1",
    "stats now",
    "stats slabs now",
    "1 stats",
    "Stats",
    "stat",
    // bytes between words
    "turn\t1",
    "reassign 1\t2",
    "reassign\t-1 2",
    "\tstats",
    "stats\r",
];

#[test]
fn refuses_other_lines_of_workers(rt: HostRuntime) -> Result<(), Fail> {
    assert_refused(&rt, &REFUSED_OF_WORKERS)
}

#[test]
fn refuses_other_lines_without_a_worker(rt: HostRuntime) -> Result<(), Fail> {
    assert_refused(&rt, &REFUSED_WITHOUT_A_WORKER)
}

/// Lines of workers, and their commands.
const OF_WORKERS: [(&str, Command); 5] = [
    ("1 get 2", Command::Get { worker: 1, key: 2 }),
    (
        "63 get 18446744073709551615\n",
        Command::Get {
            worker: 63,
            key: u64::MAX,
        },
    ),
    ("3 hold 4\r\n", Command::Hold { worker: 3, key: 4 }),
    ("5 drop 6", Command::Drop { worker: 5, key: 6 }),
    (" 07  touch  008 ", Command::Touch { worker: 7, key: 8 }),
];

#[test]
fn gives_the_commands_of_workers(rt: HostRuntime) -> Result<(), Fail> {
    assert_commands(&rt, &OF_WORKERS)
}

/// Lines of the mover, and their commands.
const WITHOUT_A_WORKER: [(&str, Command); 15] = [
    (
        "reassign 1 2",
        Command::Reassign {
            src: Some(1),
            dst: 2,
        },
    ),
    ("reassign -1 2\n", Command::Reassign { src: None, dst: 2 }),
    ("reassign  -1  02 ", Command::Reassign { src: None, dst: 2 }),
    (
        "reassign 0 0",
        Command::Reassign {
            src: Some(0),
            dst: 0,
        },
    ),
    (
        "reassign 18446744073709551615 18446744073709551615",
        Command::Reassign {
            src: Some(u64::MAX),
            dst: u64::MAX,
        },
    ),
    ("turn 1", Command::Turn { turns: 1 }),
    ("turn 1000000\r\n", Command::Turn { turns: 1_000_000 }),
    (
        "turn 00000000000001000000",
        Command::Turn { turns: 1_000_000 },
    ),
    ("automove 0", Command::Automove { mode: 0 }),
    ("automove 2\r\n", Command::Automove { mode: 2 }),
    (" automove  01 ", Command::Automove { mode: 1 }),
    ("window", Command::Window),
    (" window \n", Command::Window),
    ("stats", Command::Stats),
    (" stats \r\n", Command::Stats),
];

#[test]
fn gives_the_commands_without_a_worker(rt: HostRuntime) -> Result<(), Fail> {
    assert_commands(&rt, &WITHOUT_A_WORKER)
}
