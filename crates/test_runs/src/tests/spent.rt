//! A run that has no turns of the mover left.
use super::meeting::{comes, note};
use super::play::play;
use mc_driver::{Gate, Pass, Point, RunFault};
use std::sync::atomic::{AtomicU64, Ordering};
use std::test::Fail;

/// Worker 1 holds an item on the page that moves, so the mover's 1,000,000 turns go by, and there is none for its last line.
const SCRIPT: &[u8] = b"1 set 1 22 100\n1 set 2 22 100\n1 set 3 22 100\n1 hold 1\n1 get 1\n\
reassign 4 1\nturn 1000000\nturn 1\n";

/// How often a thread looks before it gives up, some seconds: where the other one was refused memory, what it waits for never comes.
const LOOKS: u64 = 3_000_000_000;

/// Keeps the mover before its first line until worker 1's hold was answered, and worker 1 before its last line, after which it gives
/// back what it holds, until the 1,000,000 turns were answered.
#[derive(Drop)]
struct Spending {
    worker: AtomicU64,
    mover: AtomicU64,
}

impl Gate for Spending {
    fn pass(&self, worker: u64, nth: u64, point: Point) -> Pass {
        match (worker, point) {
            (1, Point::After) => note(&self.worker, nth),
            (0, Point::After) => note(&self.mover, nth),
            (0, Point::Before) if nth == 1 => comes(&self.worker, 4, LOOKS),
            (1, Point::Before) if nth == 5 => comes(&self.mover, 2, LOOKS),
            _ => Pass::Go,
        }
    }
}

/// The 1,000,000 turns are done, and one more isn't: the run ends by status 5, and nothing was written.
#[test]
fn spent_turns(rt: HostRuntime) -> Result<(), Fail> {
    let gate = Spending {
        worker: AtomicU64::new(0),
        mover: AtomicU64::new(0),
    };
    let played = play(&rt, rt.alloc(), &gate, SCRIPT);
    assert!(rt; played.is(&Err(RunFault::Turns), b""), "how the run ends");
    assert!(rt;
        gate.mover.load(Ordering::SeqCst) == 2,
        "the mover's first two lines were answered, and its last wasn't"
    );
    assert!(rt;
        gate.worker.load(Ordering::SeqCst) == 5,
        "all lines of the worker were answered"
    );
    Ok(())
}
