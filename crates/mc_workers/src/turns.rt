//! Turns of the mover, one after another.
ghost use Rattle.std.specs.Prelude.{◌≡◌, ◌≢◌, ◌≤◌, ◌^◌, IfOk, Err};
ghost use Rattle.mc_serial_spec.specs.Mover.{AreAtMost};
ghost use Rattle.mc_mover.specs.Telling.{counts_in};
ghost use Rattle.mc_mover.specs.Turning.{AreBelow};
ghost use Rattle.mc_words.specs.hand.Ready.{IsReadyHandOf};
ghost use Rattle.mc_workers.specs.Hands.{StaysHolding};
ghost use Rattle.mc_workers.specs.Moving.{DoesTurnsInRun, RunsOutOfTurns, counts_with, ending_of};

use crate::ended::Ended;
use crate::mover::Mover;
use mc_mover::{Turn, turn};
use mc_serial_spec::{Counts, Ending};
use mc_words::{Arena, Hand};
use std::sync::Wait;

// The most turns of a run (own).
const MAX_TURNS: u64 = 1_000_000;

// Does n turns, or fewer where one finds no move or ends one. Returns how the last one ended, and what they did in all. A turn
// that the run hasn't left isn't begun, and ends the line.
pub(crate) fn do_turns<R: Wait>(
    rt: &R,
    arena: &Arena,
    hand: &mut Hand,
    mover: &mut Mover,
    asked: u64,
) -> Result<(Ending, Counts), Ended>
    requires ready { IsReadyHandOf arena.now hand.old }
    requires asked { (1 ≤ asked) × (asked ≤ 1000000) }
    ensures stays { StaysHolding arena.now hand.old hand.new }
    ensures does { IfOk result (λ done.
        DoesTurnsInRun asked done.0 done.1 mover.old hand.old mover.new hand.new) }
    ensures stopped { result ≡ Err Ended.Turns →
        RunsOutOfTurns asked mover.old hand.old mover.new hand.new }
{
    let mut ending = Ending::Idle;
    let mut counts = Counts::new();
    for _ in 0..asked {
        if mover.turns >= MAX_TURNS {
            return Err(Ended::Turns);
        }
        mover.turns += 1;
        let turn = match turn(rt, arena, hand) {
            Ok(turn) => turn,
            Err(refused) => return Err(Ended::Memory(refused)),
        };
        add_counts(&mut counts, turn);
        ending = ending_of(turn);
        if ending != Ending::Went {
            return Ok((ending, counts));
        }
    }
    Ok((ending, counts))
}

// How the turn ended.
fn ending_of(turn: Turn) -> Ending
    ensures ending { result ≡ ending_of turn }
{
    match turn {
        Turn::Idle => Ending::Idle,
        Turn::Went(_) => Ending::Went,
        Turn::Finished(_) => Ending::Finished,
    }
}

// Counts what the turn did, too.
fn add_counts(counts: &mut Counts, turn: Turn)
    requires room { AreAtMost (2 ^ 63) counts.old }
    requires within_limit { AreBelow 257 (counts_in turn) }
    ensures added { counts.new ≡ counts_with turn counts.old }
{
    let done = match turn {
        Turn::Idle => return,
        Turn::Went(done) | Turn::Finished(done) => done,
    };
    counts.cleared += done.cleared;
    counts.rescued += done.rescued;
    counts.evicted += done.evicted;
    counts.busy += done.busy;
    counts.locked += done.locked;
}
