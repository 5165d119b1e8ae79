//! Calls of the mover, of hands that may make any.
ghost use Rattle.mc_words.specs.hand.Arenas.{view};
ghost use Rattle.mc_words.specs.item.Refs.{HoldsTheSame};
ghost use Rattle.mc_words.specs.hand.Ready.{IsReadyHandOf};

use mc_mover::{Turn, set_mode, turn};
use mc_words::{Arena, Hand};
use std::sync::Wait;

/// What a turn does. None where memory ran out.
pub fn turn_by<R: Wait>(rt: &R, arena: &Arena, hand: &mut Hand) -> Option<Turn>
    requires arena { IsReadyHandOf arena.now hand.old }
    ensures arena { IsReadyHandOf arena.now hand.new }
    ensures holdings { HoldsTheSame (view hand.old) (view hand.new) }
{
    turn(rt, arena, hand).ok()
}

/// Sets the automover's mode. False where there is no such mode.
pub fn set_mode_by<R: Wait>(rt: &R, arena: &Arena, hand: &mut Hand, mode: u64) -> bool
    requires arena { IsReadyHandOf arena.now hand.old }
    ensures arena { IsReadyHandOf arena.now hand.new }
    ensures holdings { HoldsTheSame (view hand.old) (view hand.new) }
{
    if mode > 2 {
        return false;
    }
    set_mode(rt, arena, hand, mode);
    true
}
