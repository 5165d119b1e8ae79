//! Calls of the mover that try for the slabs lock n times and then give up.
ghost use Rattle.std.specs.Prelude.{◌≡◌, ◌≤◌, Err, IfOk, IsErr};
ghost use Rattle.mc_words.specs.hand.Arenas.{view};
ghost use Rattle.mc_words.specs.hand.Ready.{IsReadyHandOf};
ghost use Rattle.example_calls.specs.Bounded.{Makes};

use mc_mover::{
    SurveyWithin, TryTurn, Turn, reassign_within, set_mode_within, survey_within, turn_within,
};
use mc_words::{Arena, Hand, Held};
use std::alloc::Global;

/// A turn within n tries. Each try that missed is one event of the hand, and where all missed it made no other.
pub fn turn_and_count(arena: &Arena, hand: &mut Hand, tries: u64) -> Result<Turn, TryTurn>
    requires { IsReadyHandOf arena.now hand.old }
    ensures ready { IsReadyHandOf arena.now hand.new }
    ensures missed { result ≡ Err TryTurn.Held → Makes tries hand.old hand.new }
{
    turn_within(arena, hand, tries)
}

/// Begins a move and makes a turn, each within n tries. None where either wasn't done to its end. The hand stores nothing.
pub fn begin_and_turn(
    arena: &Arena,
    hand: &mut Hand,
    src: Option<u64>,
    dst: u64,
    tries: u64,
) -> Option<Turn>
    requires { IsReadyHandOf arena.now hand.old }
    ensures ready { IsReadyHandOf arena.now hand.new }
    ensures stores_nothing { (view hand.new).row.knows.stored ≡ (view hand.old).row.knows.stored }
{
    let Ok(Ok(())) = reassign_within(arena, hand, src, dst, tries) else {
        return None;
    };
    turn_within(arena, hand, tries).ok()
}

/// With no try the mode isn't set: the call says so, and the hand is as before.
pub fn set_mode_untried(arena: &Arena, hand: &mut Hand, mode: u64) -> Result<(), Held>
    requires ready { IsReadyHandOf arena.now hand.old }
    requires mode { mode ≤ 2 }
    ensures ready { IsReadyHandOf arena.now hand.new }
    ensures held { IsErr result }
    ensures untouched { view hand.new ≡ view hand.old }
{
    set_mode_within(arena, hand, mode, 0)
}

/// The automover's mode, from a survey within n tries: it is that of the lists that the hand gave back.
pub fn mode_within(
    alloc: Global,
    arena: &Arena,
    hand: &mut Hand,
    tries: u64,
) -> Result<u64, SurveyWithin>
    requires { IsReadyHandOf arena.now hand.old }
    ensures ready { IsReadyHandOf arena.now hand.new }
    ensures mode { IfOk result (λ mode. mode ≡ (view hand.new).row.knows.hold.left.automove) }
    ensures missed { result ≡ Err SurveyWithin.Held → Makes tries hand.old hand.new }
{
    match survey_within(alloc, arena, hand, false, tries) {
        Ok(survey) => Ok(survey.mode),
        Err(error) => Err(error),
    }
}
