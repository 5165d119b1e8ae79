//! Scripts that are drawn, the same in each run: hands of the arena write what the serial run writes.
ghost use Rattle.std.specs.Prelude.{◌≤◌};

use super::on_hands::assert_alike;
use super::{WHOLE, assert_same, play_run};
use mc_classes::Config;
use mc_driver::Run;
use rand_core::Rng;
use rand_pcg::Pcg32;
use std::alloc::{AllocError, Global};
use std::process::Abort;
use std::sync::Wait;
use std::test::Fail;
use testlib_values::FOUR_CLASSES;

/// How many scripts there are, how many phases each has, in which sets are mostly of one size, and how many lines a phase.
const SCRIPTS: u64 = 300;

const PHASES: u64 = 4;

const LINES: u64 = 50;

/// Three configurations, each in another mode at first.
const RUNS: [Run; 3] = [
    Run {
        config: FOUR_CLASSES,
        automove: 0,
    },
    Run {
        config: Config {
            limit: 6144,
            stripes: 1,
            bulk: 2,
            ..FOUR_CLASSES
        },
        automove: 1,
    },
    Run {
        config: Config {
            page: 512,
            limit: 4096,
            first: 64,
            num: 3,
            den: 2,
            max: 512,
            stripes: 64,
            bulk: 1,
        },
        automove: 2,
    },
];

/// What a worker asks for one of forty keys, and for one of four, so that it drops what it holds.
const ASKS: [&str; 3] = ["get", "del", "touch"];

const KEEPS: [&str; 3] = ["hold", "drop", "drop"];

/// How many words are set. 62 are too many.
const WORDS: [&str; 6] = ["3", "9", "20", "61", "61", "62"];

/// Lines of the mover, each with its share of the chances that all have together.
const OF_MOVER: [(&str, u64); 8] = [
    ("turn 1", 1),
    ("turn 2", 1),
    ("turn 100", 1),
    ("window", 4),
    ("stats", 1),
    ("stats slabs", 1),
    ("automove 1", 1),
    ("automove 2", 1),
];

/// How many chances these lines have together.
const CHANCES: u64 = 11;

/// From which class a page is to go to which.
const SOURCES: [&str; 6] = ["-1", "1", "2", "3", "4", "9"];

const DESTINATIONS: [&str; 6] = ["0", "1", "2", "3", "4", "9"];

/// How lines begin of which each comes up.
const SEEN: [&str; 20] = [
    "TOO_LARGE ",
    "NO_ROOM ",
    "VALUE ",
    "NOT_FOUND ",
    "HELD ",
    "DROPPED ",
    "NOT_HELD ",
    "DELETED ",
    "TOUCHED ",
    "BUSY",
    "SAME",
    "BADCLASS",
    "NOSPARE",
    "WINDOW 3 4 OK",
    "WINDOW 4 0 OK",
    "TURN IDLE ",
    "TURN WENT ",
    "TURN FINISHED ",
    "STAT slab_reassign_rescues 9",
    "STAT slab_reassign_evictions_nomem 5",
];

/// A number below the count, or 0.
fn draw(random: &mut Pcg32, count: u64) -> u64 {
    u64::from(random.next_u32()).checked_rem(count).unwrap_or(0)
}

/// One of these words.
fn pick<'a>(random: &mut Pcg32, words: &[&'a str]) -> &'a str {
    let place = draw(random, words.len() as u64) as usize;
    match words.get(place) {
        Some(word) => word,
        None => "",
    }
}

/// A line of a set, mostly of this many words.
fn set_line(alloc: Global, random: &mut Pcg32, often: &str) -> Result<String, AllocError> {
    let key = draw(random, 40);
    let words = if draw(random, 8) == 0 {
        pick(random, &WORDS)
    } else {
        often
    };
    let base = draw(random, 1000);
    format!(in alloc; "set {key} {words} {base}")
}

/// A line that asks for one of n keys.
fn key_line(
    alloc: Global,
    random: &mut Pcg32,
    asks: &[&str],
    keys: u64,
) -> Result<String, AllocError> {
    let asks = pick(random, asks);
    let key = draw(random, keys);
    format!(in alloc; "{asks} {key}")
}

/// A line of one of n workers.
fn worker_line(
    alloc: Global,
    random: &mut Pcg32,
    workers: u64,
    often: &str,
) -> Result<String, AllocError> {
    let worker = draw(random, workers).saturating_add(1);
    let kind = draw(random, 8);
    let rest = if kind < 5 {
        set_line(alloc, random, often)?
    } else if kind < 7 {
        key_line(alloc, random, &ASKS, 40)?
    } else {
        key_line(alloc, random, &KEEPS, 4)?
    };
    format!(in alloc; "{worker} {rest}\n")
}

/// One of the lines of the mover that need no classes.
fn pick_of_mover(random: &mut Pcg32) -> &'static str {
    let mut behind = draw(random, CHANCES);
    for (line, chances) in &OF_MOVER {
        if behind < *chances {
            return *line;
        }
        behind = behind.saturating_sub(*chances);
    }
    ""
}

/// A line of the mover.
fn mover_line(alloc: Global, random: &mut Pcg32) -> Result<String, AllocError> {
    if draw(random, 4) > 0 {
        let line = pick_of_mover(random);
        return format!(in alloc; "{line}\n");
    }
    let src = pick(random, &SOURCES);
    let dst = pick(random, &DESTINATIONS);
    format!(in alloc; "reassign {src} {dst}\n")
}

/// Adds the lines of a phase, a quarter of them lines of the mover.
fn push_phase(
    alloc: Global,
    random: &mut Pcg32,
    workers: u64,
    script: &mut Vec<u8>,
) -> Result<(), AllocError> {
    let often = pick(random, &WORDS);
    for _line in 0..LINES {
        let line = if draw(random, 4) == 0 {
            mover_line(alloc, random)?
        } else {
            worker_line(alloc, random, workers, often)?
        };
        script.extend_from_slice(line.as_bytes())?;
    }
    Ok(())
}

/// The script of this number, of two to four workers.
fn drawn(alloc: Global, number: u64) -> Result<Vec<u8>, AllocError> {
    let mut random = Pcg32::new(number, 0);
    let workers = draw(&mut random, 3).saturating_add(2);
    let mut script = Vec::new(alloc);
    for _phase in 0..PHASES {
        push_phase(alloc, &mut random, workers, &mut script)?;
    }
    Ok(script)
}

/// Plays the script of this number both ways, and adds what was written.
fn play_drawn<R: Abort + Wait>(
    rt: &R,
    alloc: Global,
    run: Run,
    number: u64,
    texts: &mut Vec<u8>,
) -> Result<(), Fail>
    requires { run.automove ≤ 2 }
{
    let script = drawn(alloc, number)?;
    let name = format!(in alloc; "drawn script {number}")?;
    let played = play_run(alloc, run, &script, WHOLE)?;
    assert_same(rt, &played.end, &Ok(()), &name);
    assert_alike(rt, alloc, run, &script, &played, &name)?;
    texts.extend_from_slice(&played.text)?;
    Ok(())
}

/// Whether a line begins so.
fn is_told(text: &[u8], words: &str) -> bool {
    text.split(|byte| *byte == b'\n')
        .any(|line| line.starts_with(words.as_bytes()))
}

#[test]
fn drawn_scripts_are_the_same_on_hands(rt: HostRuntime) -> Result<(), Fail> {
    let mut texts = Vec::new(rt.alloc());
    for number in 0..SCRIPTS {
        let run = RUNS[(number % 3) as usize];
        assert!(rt; run.automove <= 2, "the mode of a drawn script");
        play_drawn(&rt, rt.alloc(), run, number, &mut texts)?;
    }
    for words in &SEEN {
        assert!(rt; is_told(&texts, words), "{words} comes up");
    }
    Ok(())
}
