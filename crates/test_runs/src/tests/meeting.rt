//! Two workers that wait for each other at their gate.
ghost use Rattle.std.specs.Prelude.{◌≡◌};

use super::play::play;
use mc_driver::{Gate, Pass, Point, RunFault};
use mc_words::Arena;
use mc_workers::{Ended, Shared, first_hand, serve_lines};
use std::sync::atomic::{AtomicU64, Ordering};
use std::test::Fail;
use testlib_values::FOUR_CLASSES;

/// Worker 1 sets, holds and drops; worker 2 sets the same key.
pub const SCRIPT: &[u8] = b"1 set 1 3 7\n1 hold 1\n1 drop 1\n2 set 1 3 50\n";

/// The replies, and the statistics: the second item alone is there.
const TEXT: &[u8] = b"STORED 1\r\nHELD 1\r\nDROPPED 1 3 7 8 9\r\nSTORED 1\r\n\
STAT 1:chunk_size 48\r\nSTAT 1:chunks_per_page 21\r\nSTAT 1:total_pages 1\r\n\
STAT 1:total_chunks 21\r\nSTAT 1:used_chunks 1\r\nSTAT 1:free_chunks 20\r\n\
STAT active_slabs 1\r\nSTAT total_malloced 1024\r\nEND\r\n\
STAT slab_global_page_pool 0\r\nSTAT slab_reassign_running 0\r\nSTAT slabs_moved 0\r\n\
STAT slab_reassign_rescues 0\r\nSTAT slab_reassign_evictions_nomem 0\r\nSTAT slab_reassign_busy_items 0\r\nEND\r\n";

/// Keeps worker 2 before its line until worker 1's hold was answered, and worker 1 before its drop until worker 2's set was
/// answered. Each waits for at most n bare looks, and then the run is stopped.
#[derive(Drop)]
pub struct Meeting {
    first: AtomicU64,
    second: AtomicU64,
    looks: u64,
}

impl Meeting {
    pub fn new(looks: u64) -> Meeting {
        Meeting {
            first: AtomicU64::new(0),
            second: AtomicU64::new(0),
            looks,
        }
    }
}

/// Notes that n lines were answered.
pub fn note(answered: &AtomicU64, nth: u64) -> Pass {
    answered.store(nth, Ordering::SeqCst);
    Pass::Go
}

/// Looks at most so often until the number is there.
pub fn comes(seen: &AtomicU64, wanted: u64, looks: u64) -> Pass {
    for _look in 0..looks {
        if seen.load(Ordering::SeqCst) >= wanted {
            return Pass::Go;
        }
    }
    Pass::Stop
}

impl Gate for Meeting {
    fn pass(&self, worker: u64, nth: u64, point: Point) -> Pass {
        match (worker, point) {
            (1, Point::After) => note(&self.first, nth),
            (2, Point::After) => note(&self.second, nth),
            (2, Point::Before) => comes(&self.first, 2, self.looks),
            (1, Point::Before) if nth == 3 => comes(&self.second, 1, self.looks),
            _ => Pass::Go,
        }
    }
}

#[test]
fn workers_meet(rt: HostRuntime) -> Result<(), Fail> {
    let gate = Meeting::new(1_000_000_000);
    let played = play(&rt, rt.alloc(), &gate, SCRIPT);
    assert!(rt; played.is(&Ok(()), TEXT), "each reply in its order");
    Ok(())
}

#[test]
fn one_after_the_other_they_never_meet(rt: HostRuntime) -> Result<(), Fail> {
    let alloc = rt.alloc();
    let Ok(commands) = mc_script::read(alloc, SCRIPT) else {
        return Err(Fail::new("each line is a command"));
    };
    let (arena, mut hands) = Arena::new(alloc, &FOUR_CLASSES, 2)?;
    let Some(mut hand) = first_hand(&arena, 0, &mut hands) else {
        return Err(Fail::new("there is a hand"));
    };
    let gate = Meeting::new(1_000_000);
    let shared = Shared {
        rt: &rt,
        alloc,
        arena: &arena,
        gate: &gate,
        commands: &commands,
    };
    let mut text = Vec::new(alloc);
    let ended = serve_lines(&shared, 1, &mut hand, &mut text);
    assert!(rt;
        ended == Err(Ended::Turns),
        "the first worker is stopped before its drop"
    );
    assert!(rt;
        RunFault::from(Ended::Turns).status() == 5,
        "so a run of both would end"
    );
    assert!(rt;
        text.as_slice() == b"STORED 1\r\nHELD 1\r\n".as_slice(),
        "what it was answered until then"
    );
    Ok(())
}
