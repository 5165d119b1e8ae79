//! Why a thread of a run ends early.

use crate::starting::Unstarted;
use mc_memory::Refused;

/// Why a thread ended before its lines were done.
#[derive(PartialEq, Eq, Drop)]
pub enum Ended {
    /// Memory ran out.
    Memory(Refused),
    /// A thread couldn't be started.
    Thread(Unstarted),
    /// The run has no turns of the mover left, or the gate stopped it.
    Turns,
}

impl From<Refused> for Ended {
    ghost use Rattle.std.specs.Prelude.{◌≡◌};
    ghost use Rattle.mc_workers.specs.declared.ended.Ended.TheVariants.{Memory};

    ghost from_gives = { λ refused ended. ended ≡ Memory refused };

    fn from(refused: Refused) -> Ended {
        Ended::Memory(refused)
    }
}
