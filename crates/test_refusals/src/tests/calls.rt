//! Calls that may be refused memory, as data, and what they give.
ghost use Rattle.mc_words.specs.hand.Ready.{IsReadyHandOf};

use mc_classes::ClassId;
use mc_items::{GetError, SetError, TryGetError, delete, get, release, set, touch, try_get};
use mc_mover::{Counts, Survey, TryTurn, Turn, reassign, set_mode, survey, trim, try_turn, turn};
use mc_pages::Reassign;
use mc_stripe::{Key, Trim};
use mc_words::{Arena, Hand};
use std::alloc::Global;
use std::sync::Wait;

/// A call of a hand.
#[derive(Clone, Copy)]
pub enum Call {
    /// An item of n words.
    Set(Key, usize),
    /// A set of n words that evicts and begins a move, in mode 2. Where memory for the move is refused, the item is stored, and
    /// no page moves.
    SetAndMove(Key, usize),
    /// The reference is given up at once.
    Get(Key),
    /// A get that waits for nobody. The reference is given up at once.
    TryGet(Key),
    Delete(Key),
    Touch(Key),
    /// A move from a class or any to a class or the pool.
    Reassign(Option<ClassId>, ClassId),
    Turn,
    /// A turn of the mover that takes no memory: it isn't made again where it is refused.
    TurnWithoutMemory,
    /// A turn that waits for nobody.
    TryTurn,
    /// A survey, with a sweep or without.
    Survey(bool),
    /// The history of each stripe is trimmed.
    Trim,
    /// The automover's mode 2. It takes no memory.
    ModeTwo,
}

/// What a turn counts: chunks that it cleared, items that it rescued and evicted, chunks that were held, and those whose stripe was.
pub type Numbers = [u64; 5];

/// What a call gives.
#[derive(Clone, Copy, PartialEq, Eq)]
pub enum Answer {
    NoMemory,
    /// What was asked for is done.
    Done,
    /// Whether the key has an item.
    There(bool),
    /// A turn that found that no page moves.
    Idle,
    /// A turn behind which the page moves still, and what it counts.
    Went(Numbers),
    /// A turn that ended the move.
    Finished(Numbers),
    /// Whether a page moves; and the moves that ended, the items that moves rescued and evicted, and the chunks that held one up.
    Surveyed(bool, [u64; 4]),
    /// A page moves already.
    Busy,
    /// The move was refused otherwise.
    Refused,
}

/// A turn that goes on: of two items one is evicted, and one is held.
pub const ONE_HELD: Answer = Answer::Went([1, 0, 1, 1, 0]);

/// A turn that ends the move: one item was left, which is evicted.
pub const ONE_EVICTED: Answer = Answer::Finished([1, 0, 1, 0, 0]);

/// Two are evicted.
pub const TWO_EVICTED: Answer = Answer::Finished([2, 0, 2, 0, 0]);

/// A turn that rescued one item and evicted one.
pub const ONE_RESCUED: Answer = Answer::Finished([2, 1, 1, 0, 0]);

/// Four are rescued, and one is evicted.
pub const FOUR_RESCUED: Answer = Answer::Finished([5, 4, 1, 0, 0]);

impl Call {
    /// The name of the call.
    pub fn name(self) -> &'static str {
        match self {
            Call::Set(..) | Call::SetAndMove(..) => "set",
            Call::Get(_) => "get",
            Call::TryGet(_) => "try_get",
            Call::Delete(_) => "delete",
            Call::Touch(_) => "touch",
            Call::Reassign(..) => "reassign",
            Call::Turn | Call::TurnWithoutMemory => "turn",
            Call::TryTurn => "try_turn",
            Call::Survey(_) => "survey",
            Call::Trim => "trim",
            Call::ModeTwo => "set_mode",
        }
    }

    /// Whether the call is to go through whatever is refused.
    pub fn takes_no_memory(self) -> bool {
        match self {
            Call::TurnWithoutMemory => true,
            _ => false,
        }
    }
}

/// Makes the call.
pub fn answer_of<R: Wait>(
    rt: &R,
    alloc: Global,
    arena: &Arena,
    hand: &mut Hand,
    words: &[u64],
    call: Call,
) -> Answer
    requires arena { IsReadyHandOf arena.now hand.old }
    ensures arena { IsReadyHandOf arena.now hand.new }
{
    match call {
        Call::Set(key, len) | Call::SetAndMove(key, len) => match words.get(..len) {
            Some(words) => set_words(rt, arena, hand, key, words),
            None => Answer::Refused,
        },
        Call::Get(key) => get_key(rt, arena, hand, key),
        Call::TryGet(key) => try_get_key(arena, hand, key),
        Call::Delete(key) => there(delete(rt, arena, hand, key).ok()),
        Call::Touch(key) => there(touch(rt, arena, hand, key).ok()),
        Call::Survey(sweep) => surveyed(survey(rt, alloc, arena, hand, sweep).ok()),
        _ => answer_of_mover(rt, arena, hand, call),
    }
}

fn answer_of_mover<R: Wait>(rt: &R, arena: &Arena, hand: &mut Hand, call: Call) -> Answer
    requires arena { IsReadyHandOf arena.now hand.old }
    ensures arena { IsReadyHandOf arena.now hand.new }
{
    match call {
        Call::Reassign(src, dst) => reassigned(reassign(rt, arena, hand, src, dst)),
        Call::Turn | Call::TurnWithoutMemory => answer_of_turn(turn(rt, arena, hand).ok()),
        Call::TryTurn => answer_of_try(try_turn(arena, hand)),
        Call::Trim => trimmed(trim(rt, arena, hand)),
        _ => {
            set_mode(rt, arena, hand, 2);
            Answer::Done
        }
    }
}

/// Whether the key had an item, if memory didn't run out.
fn there(found: Option<bool>) -> Answer {
    match found {
        Some(found) => Answer::There(found),
        None => Answer::NoMemory,
    }
}

fn answer_of_turn(turn: Option<Turn>) -> Answer {
    match turn {
        Some(Turn::Idle) => Answer::Idle,
        Some(Turn::Went(counts)) => Answer::Went(numbers_of(counts)),
        Some(Turn::Finished(counts)) => Answer::Finished(numbers_of(counts)),
        None => Answer::NoMemory,
    }
}

fn numbers_of(counts: Counts) -> Numbers {
    let Counts {
        cleared,
        rescued,
        evicted,
        busy,
        locked,
    } = counts;
    [cleared, rescued, evicted, busy, locked]
}

fn answer_of_try(turn: Result<Turn, TryTurn>) -> Answer {
    match turn {
        Ok(turn) => answer_of_turn(Some(turn)),
        Err(TryTurn::NoMemory(_)) => Answer::NoMemory,
        Err(TryTurn::Held) => Answer::Refused,
    }
}

fn trimmed(answer: Result<(), Trim>) -> Answer {
    match answer {
        Ok(()) => Answer::Done,
        Err(Trim::NoMemory(_)) => Answer::NoMemory,
        Err(Trim::Full) => Answer::Refused,
    }
}

fn reassigned(answer: Result<(), Reassign>) -> Answer {
    match answer {
        Ok(()) => Answer::Done,
        Err(Reassign::NoMemory(_)) => Answer::NoMemory,
        Err(Reassign::Busy) => Answer::Busy,
        Err(_) => Answer::Refused,
    }
}

fn surveyed(survey: Option<Survey>) -> Answer {
    let Some(survey) = survey else {
        return Answer::NoMemory;
    };
    let totals = survey.totals;
    let counts = [
        totals.moved,
        totals.rescues,
        totals.evictions_nomem,
        totals.busy,
    ];
    Answer::Surveyed(survey.running, counts)
}

fn set_words<R: Wait>(rt: &R, arena: &Arena, hand: &mut Hand, key: Key, words: &[u64]) -> Answer
    requires arena { IsReadyHandOf arena.now hand.old }
    ensures arena { IsReadyHandOf arena.now hand.new }
{
    match set(rt, arena, hand, key, words) {
        Ok(_) => Answer::Done,
        Err(SetError::NoMemory(_)) => Answer::NoMemory,
        Err(_) => Answer::Refused,
    }
}

fn get_key<R: Wait>(rt: &R, arena: &Arena, hand: &mut Hand, key: Key) -> Answer
    requires arena { IsReadyHandOf arena.now hand.old }
    ensures arena { IsReadyHandOf arena.now hand.new }
{
    match get(rt, arena, hand, key) {
        Ok(Some(item)) => {
            release(arena, hand, item);
            Answer::There(true)
        }
        Ok(None) => Answer::There(false),
        Err(GetError::NoMemory(_)) => Answer::NoMemory,
        Err(_) => Answer::Refused,
    }
}

fn try_get_key(arena: &Arena, hand: &mut Hand, key: Key) -> Answer
    requires arena { IsReadyHandOf arena.now hand.old }
    ensures arena { IsReadyHandOf arena.now hand.new }
{
    match try_get(arena, hand, key) {
        Ok(Some(item)) => {
            release(arena, hand, item);
            Answer::There(true)
        }
        Ok(None) => Answer::There(false),
        Err(TryGetError::NoMemory(_)) => Answer::NoMemory,
        Err(_) => Answer::Refused,
    }
}
