//! Movers: each begins moves between all classes and the pool, turns, and changes the mode and surveys now and then.
ghost use Rattle.testlib_hands.specs.Hands.{IsEmptyHandOf};

use crate::races::words::draw;
use mc_mover::{Survey, TryTurn, reassign, set_mode, survey, try_turn, turn};
use mc_words::{Arena, Hand};
use std::alloc::Global;
use std::sync::Wait;
use testlib_hands::{Job, NO_TURNS, Turns, Worked};

/// How many rounds a mover makes.
const ROUNDS: u64 = 60_000;

/// What a mover's rounds counted.
#[derive(Clone, Copy)]
pub struct Tally {
    /// What the mover's turns counted.
    pub turns: Turns,
    /// How often a survey didn't add up, or there was no memory.
    pub wrong: u64,
}

/// The counts before the first round.
const NOTHING: Tally = Tally {
    turns: NO_TURNS,
    wrong: 0,
};

impl Tally {
    /// Counts what is wrong.
    fn check(&mut self, is_right: bool) {
        if !is_right {
            self.wrong = self.wrong.saturating_add(1);
        }
    }
}

/// A mover's hand, and what its rounds counted.
#[derive(Drop)]
struct Mover {
    hand: Hand,
    tally: Tally,
}

/// Asks for the next move: to the pool or a class, from any class or a named one. It may be refused.
fn begin_next<R: Wait>(rt: &R, arena: &Arena, hand: &mut Hand, drawn: u64)
    requires arena { IsEmptyHandOf arena.now hand.old }
    ensures arena { IsEmptyHandOf arena.now hand.new }
{
    let src = if drawn % 2 == 0 {
        None
    } else {
        Some(1 + drawn / 256 % 4)
    };
    let _answer = reassign(rt, arena, hand, src, drawn / 65_536 % 5);
}

/// A turn that waits. True where no page moves behind it.
fn turn_by<R: Wait>(rt: &R, arena: &Arena, mover: &mut Mover) -> bool
    requires arena { IsEmptyHandOf arena.now mover.old.hand }
    ensures arena { IsEmptyHandOf arena.now mover.new.hand }
{
    match turn(rt, arena, &mut mover.hand) {
        Ok(done) => mover.tally.turns.note(done),
        Err(_) => {
            mover.tally.check(false);
            false
        }
    }
}

/// A turn that waits for nobody.
fn try_turn_by(arena: &Arena, mover: &mut Mover) -> bool
    requires arena { IsEmptyHandOf arena.now mover.old.hand }
    ensures arena { IsEmptyHandOf arena.now mover.new.hand }
{
    match try_turn(arena, &mut mover.hand) {
        Ok(done) => mover.tally.turns.note(done),
        Err(TryTurn::Held) => false,
        Err(TryTurn::NoMemory(_)) => {
            mover.tally.check(false);
            false
        }
    }
}

/// Whether the pages of all classes and of the pool are those that were granted.
fn adds_up(found: &Survey) -> bool {
    let mut pages = found.totals.pool;
    for numbers in found.classes.iter() {
        pages = pages.saturating_add(numbers.pages);
    }
    pages == found.totals.granted
}

/// A survey, which adds up.
fn survey_by<R: Wait>(rt: &R, alloc: Global, arena: &Arena, mover: &mut Mover, sweep: bool)
    requires arena { IsEmptyHandOf arena.now mover.old.hand }
    ensures arena { IsEmptyHandOf arena.now mover.new.hand }
{
    match survey(rt, alloc, arena, &mut mover.hand, sweep) {
        Ok(found) => mover.tally.check(adds_up(&found)),
        Err(_) => mover.tally.check(false),
    }
}

/// A turn that waits, or one that doesn't. True where no page moves behind it.
fn one_turn<R: Wait>(rt: &R, arena: &Arena, mover: &mut Mover, waits: bool) -> bool
    requires arena { IsEmptyHandOf arena.now mover.old.hand }
    ensures arena { IsEmptyHandOf arena.now mover.new.hand }
{
    if waits {
        return turn_by(rt, arena, mover);
    }
    try_turn_by(arena, mover)
}

/// One turn, and where no page moves behind it, the next move.
fn turn_on<R: Wait>(rt: &R, arena: &Arena, mover: &mut Mover, drawn: u64)
    requires arena { IsEmptyHandOf arena.now mover.old.hand }
    ensures arena { IsEmptyHandOf arena.now mover.new.hand }
{
    if one_turn(rt, arena, mover, drawn % 2 == 0) {
        begin_next(rt, arena, &mut mover.hand, drawn / 256);
    }
}

/// One round.
fn act<R: Wait>(rt: &R, alloc: Global, arena: &Arena, mover: &mut Mover, drawn: u64)
    requires arena { IsEmptyHandOf arena.now mover.old.hand }
    ensures arena { IsEmptyHandOf arena.now mover.new.hand }
{
    match drawn % 64 {
        0 => set_mode(rt, arena, &mut mover.hand, drawn / 64 % 3),
        1 => survey_by(rt, alloc, arena, mover, drawn / 64 % 2 == 0),
        _ => turn_on(rt, arena, mover, drawn / 64),
    }
}

/// A mover's thread: its number, and its hand.
#[derive(Drop)]
pub struct Driver(pub u64, pub Hand);

impl Job for Driver {
    type Told = Tally;

    ghost is_ready = { λ arena job. IsEmptyHandOf arena job.1 };

    /// The mover's rounds: what they counted.
    fn work<R: Wait>(self, rt: &R, alloc: Global, arena: &Arena) -> Worked<Tally> {
        let Driver(thread, hand) = self;
        let mut mover = Mover {
            hand,
            tally: NOTHING,
        };
        for round in 0..ROUNDS {
            act(rt, alloc, arena, &mut mover, draw(thread, round));
        }
        let Mover { hand, tally } = mover;
        Worked { hand, told: tally }
    }
}
