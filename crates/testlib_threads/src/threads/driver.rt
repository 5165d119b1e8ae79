//! The mover's thread of the stress: it begins moves between all classes and the pool, and turns without a pause.
ghost use Rattle.mc_words.specs.hand.Ready.{IsReadyHandOf};
ghost use Rattle.testlib_hands.specs.Hands.{IsEmptyHandOf};

use mc_mover::reassign;
use mc_words::{Arena, Hand};
use std::alloc::Global;
use std::sync::Wait;
use testlib_hands::{Job, NO_TURNS, Turns, Worked, turn_by};
use testlib_values::draw;

/// How many turns the mover makes.
const TURNS: u64 = 6000;

/// The most turns that a page needs which nobody holds up.
const LAST_TURNS: u64 = 32;

/// Asks for the next move: to the pool or a class, from any class or a named one. It may be refused.
fn begin_next<R: Wait>(rt: &R, arena: &Arena, hand: &mut Hand, round: u64)
    requires arena { IsEmptyHandOf arena.now hand.old }
    ensures arena { IsEmptyHandOf arena.now hand.new }
{
    let drawn = draw(0, round);
    let src = if drawn % 2 == 0 {
        None
    } else {
        Some(1 + (drawn >> 8) % 4)
    };
    let dst = (drawn >> 16) % 5;
    let _answer = reassign(rt, arena, hand, src, dst);
}

/// One turn, and where no page moves behind it, the next move.
fn turn_on<R: Wait>(rt: &R, arena: &Arena, hand: &mut Hand, tally: &mut Turns, round: u64)
    requires arena { IsEmptyHandOf arena.now hand.old }
    ensures arena { IsEmptyHandOf arena.now hand.new }
{
    let Some(turn) = turn_by(rt, arena, hand) else {
        return;
    };
    if tally.note(turn) {
        begin_next(rt, arena, hand, round);
    }
}

/// The mover's thread, with its hand.
#[derive(Drop)]
pub struct Mover(pub Hand);

impl Job for Mover {
    type Told = Turns;

    ghost is_ready = { λ arena job. IsEmptyHandOf arena job.0 };

    /// The mover's turns: what they counted.
    fn work<R: Wait>(self, rt: &R, _alloc: Global, arena: &Arena) -> Worked<Turns> {
        let Mover(mut hand) = self;
        let mut tally = NO_TURNS;
        for round in 0..TURNS {
            turn_on(rt, arena, &mut hand, &mut tally, round);
        }
        Worked { hand, told: tally }
    }
}

/// Turns until no page moves, if that is asked for. False where that takes too long.
pub fn end_if<R: Wait>(
    rt: &R,
    arena: &Arena,
    hand: &mut Hand,
    tally: &mut Turns,
    ends: bool,
) -> bool
    requires arena { IsReadyHandOf arena.now hand.old }
    ensures arena { IsReadyHandOf arena.now hand.new }
{
    if !ends {
        return true;
    }
    end_move(rt, arena, hand, tally)
}

/// Turns until no page moves. False where that takes too long.
fn end_move<R: Wait>(rt: &R, arena: &Arena, hand: &mut Hand, tally: &mut Turns) -> bool
    requires arena { IsReadyHandOf arena.now hand.old }
    ensures arena { IsReadyHandOf arena.now hand.new }
{
    for _turn in 0..LAST_TURNS {
        let Some(turn) = turn_by(rt, arena, hand) else {
            return false;
        };
        if tally.note(turn) {
            return true;
        }
    }
    false
}
