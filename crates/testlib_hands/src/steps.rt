//! Lists of calls, each with what it is to give. A list is one call of a test, so that it is checked fast.
ghost use Rattle.mc_words.specs.hand.Ready.{IsReadyHandOf};

use crate::drops::drop_two;
use crate::hands::opened_two;
use mc_classes::Config;
use mc_memory::Refused;
use mc_words::{Arena, Hand};
use std::alloc::Global;
use std::sync::Wait;
use std::test::Fail;

/// Whether a call gave what it is to, if memory wasn't refused.
pub type Played = Result<bool, Refused>;

/// A call, and what it is to give.
pub trait Step {
    /// Whether the call gives what it is to.
    fn plays<R: Wait>(&self, rt: &R, alloc: Global, arena: &Arena, hand: &mut Hand) -> Played
        requires arena { IsReadyHandOf arena.now hand.old }
        ensures arena { IsReadyHandOf arena.now hand.new };
}

/// Why a list of calls wasn't played to its end.
#[derive(Debug, Drop)]
pub enum StepError {
    /// Memory was refused.
    NoMemory(Refused),
    /// The call at this place, from 0, gave something else.
    WrongStep { place: usize },
}

/// Each call gives what it is to, one after another.
pub fn play_all<R: Wait, S: Step>(
    rt: &R,
    alloc: Global,
    arena: &Arena,
    hand: &mut Hand,
    steps: &[S],
) -> Result<(), StepError>
    requires arena { IsReadyHandOf arena.now hand.old }
    ensures arena { IsReadyHandOf arena.now hand.new }
{
    for place in 0..steps.len() {
        match steps[place].plays(rt, alloc, arena, hand) {
            Ok(true) => {}
            Ok(false) => return Err(StepError::WrongStep { place }),
            Err(refused) => return Err(StepError::NoMemory(refused)),
        }
    }
    Ok(())
}

/// Whether each call gives what it is to give, one after another, in a new arena of this configuration.
pub fn run<R: Wait, S: Step>(
    rt: &R,
    alloc: Global,
    config: &Config,
    steps: &[S],
) -> Result<(), Fail> {
    let mut two = opened_two(alloc, config)?;
    let played = play_all(rt, alloc, &two.arena, &mut two.hand, steps);
    drop_two(two);
    played?;
    Ok(())
}

/// Plays with the two hands of a new arena of four classes, and with what else is given. They and the arena are dropped by one call,
/// behind all that may fail.
#[macro_export]
macro_rules! play_two {
    ($rt:expr, $play:ident $(, $argument:expr)*) => {{
        let mut two = $crate::opened_two($rt.alloc(), &$crate::FOUR_CLASSES)?;
        let played = $play(&$rt, $rt.alloc(), &mut two $(, $argument)*);
        $crate::drop_two(two);
        played
    }};
}
