//! A gate that counts: each thread asks it before and behind each of its lines, and once a thread is stopped it asks no more.
ghost use Rattle.std.specs.Prelude.{◌≡◌};

use super::play::play;
use mc_driver::{Gate, Pass, Point, RunFault};
use mc_words::Arena;
use mc_workers::{Ended, Shared, first_hand, serve_lines};
use std::alloc::Global;
use std::sync::Wait;
use std::sync::atomic::{AtomicU64, Ordering};
use std::test::Fail;
use testlib_values::FOUR_CLASSES;

/// How often each thread asked, and how often one asked out of turn. Worker 1 is stopped as it asks for the time of this number.
#[derive(Drop)]
struct Counting {
    mover: AtomicU64,
    first: AtomicU64,
    second: AtomicU64,
    wrong: AtomicU64,
    stops_at: u64,
}

impl Counting {
    fn new(stops_at: u64) -> Counting {
        Counting {
            mover: AtomicU64::new(0),
            first: AtomicU64::new(0),
            second: AtomicU64::new(0),
            wrong: AtomicU64::new(0),
            stops_at,
        }
    }

    /// How often the mover, worker 1 and worker 2 asked, and how often one asked out of turn.
    fn counts(&self) -> (u64, u64, u64, u64) {
        (
            self.mover.load(Ordering::SeqCst),
            self.first.load(Ordering::SeqCst),
            self.second.load(Ordering::SeqCst),
            self.wrong.load(Ordering::SeqCst),
        )
    }
}

/// Counts one more, and returns how many they are.
fn count(passes: &AtomicU64) -> u64 {
    let before = passes.load(Ordering::SeqCst);
    let now = before.wrapping_add(1);
    passes.store(now, Ordering::SeqCst);
    now
}

/// The point at which a thread asks for the time of this number: before and behind each line, from the first on.
fn is_in_turn(asked: u64, nth: u64, point: Point) -> bool {
    let line = asked.wrapping_add(1) / 2;
    let wanted = if asked % 2 == 1 {
        Point::Before
    } else {
        Point::After
    };
    nth == line && point == wanted
}

impl Gate for Counting {
    fn pass(&self, worker: u64, nth: u64, point: Point) -> Pass {
        let asked = match worker {
            0 => count(&self.mover),
            1 => count(&self.first),
            2 => count(&self.second),
            _ => 0,
        };
        if !is_in_turn(asked, nth, point) {
            count(&self.wrong);
        }
        if worker == 1 && asked == self.stops_at {
            Pass::Stop
        } else {
            Pass::Go
        }
    }
}

/// Worker 1 has three lines, which are the first, the third and the last; worker 2 has two, and the mover has two.
const SCRIPT: &[u8] = b"1 set 1 3 7\nturn 1\n1 get 1\n2 set 2 3 50\n2 get 2\nautomove 0\n1 del 1\n";

/// How often worker 1 asks for its three lines.
const ASKED: u64 = 6;

/// The replies to worker 1 by the time that it asks for the first to the sixth time, and behind the last line.
const REPLIES: [&[u8]; 7] = [
    b"",
    b"STORED 1\r\n",
    b"STORED 1\r\n",
    b"STORED 1\r\nVALUE 1 3 7 8 9\r\n",
    b"STORED 1\r\nVALUE 1 3 7 8 9\r\n",
    b"STORED 1\r\nVALUE 1 3 7 8 9\r\nDELETED 1\r\n",
    b"STORED 1\r\nVALUE 1 3 7 8 9\r\nDELETED 1\r\n",
];

/// Worker 1 alone does its lines on an arena of its own.
fn serve_alone<R: Wait>(
    rt: &R,
    alloc: Global,
    gate: &Counting,
) -> Result<(Result<(), Ended>, Vec<u8>), Fail> {
    let Ok(commands) = mc_script::read(alloc, SCRIPT) else {
        return Err(Fail::new("each line is a command"));
    };
    let (arena, mut hands) = Arena::new(alloc, &FOUR_CLASSES, 2)?;
    let Some(mut hand) = first_hand(&arena, 0, &mut hands) else {
        return Err(Fail::new("there is a hand"));
    };
    let shared = Shared {
        rt,
        alloc,
        arena: &arena,
        gate,
        commands: &commands,
    };
    let mut text = Vec::new(alloc);
    let ended = serve_lines(&shared, 1, &mut hand, &mut text);
    Ok((ended, text))
}

/// Alone, the worker asks as often as until it is stopped, and each line that it asks behind is answered by then.
#[test]
fn a_worker_alone_is_asked_twice_a_line(rt: HostRuntime) -> Result<(), Fail> {
    for place in 0..REPLIES.len() {
        let Some(replies) = REPLIES.get(place) else {
            return Err(Fail::new("there is a text"));
        };
        let stops_at = place as u64 + 1;
        let stopped = stops_at <= ASKED;
        let gate = Counting::new(stops_at);
        let (ended, text) = serve_alone(&rt, rt.alloc(), &gate)?;
        let end = if stopped { Err(Ended::Turns) } else { Ok(()) };
        assert!(rt;
            ended == end,
            "how it ends where it is stopped at {stops_at}"
        );
        assert!(rt;
            text.as_slice() == *replies,
            "what it was answered until {stops_at}"
        );
        let asked = stops_at.min(ASKED);
        assert!(rt;
            gate.counts() == (0, asked, 0, 0),
            "who asked until {stops_at}"
        );
    }
    Ok(())
}

/// Beside others, too; these go on to their ends. The run ends by status 5, and nothing was written.
#[test]
fn a_run_is_asked_twice_a_line(rt: HostRuntime) -> Result<(), Fail> {
    for stops_at in 1..=ASKED {
        let gate = Counting::new(stops_at);
        let played = play(&rt, rt.alloc(), &gate, SCRIPT);
        assert!(rt;
            played.is(&Err(RunFault::Turns), b""),
            "the end of a run that is stopped at {stops_at}"
        );
        assert!(rt;
            gate.counts() == (4, stops_at, 4, 0),
            "who asked in the run that is stopped at {stops_at}"
        );
    }
    let gate = Counting::new(0);
    let played = play(&rt, rt.alloc(), &gate, SCRIPT);
    assert!(rt; played.end.is_ok(), "nobody is stopped");
    assert!(rt;
        gate.counts() == (4, ASKED, 4, 0),
        "who asked in a run that is done"
    );
    Ok(())
}
