//! Why a list of events isn't played to its end.
ghost use Rattle.std.specs.Prelude.{◌≡◌};
ghost use Rattle.mc_core.specs.declared.stop.Stop.TheVariants.{NoMemory};

use mc_memory::Refused;
use thiserror::Error;

#[derive(Debug, PartialEq, Eq, Drop, Error)]
pub enum Stop {
    /// The event at this place, from 0, is the first that isn't allowed.
    #[error("event {0} is not allowed")]
    NotAllowed(u64),
    /// Memory ran out.
    #[error("out of memory")]
    NoMemory(Refused),
}

impl From<Refused> for Stop {
    ghost from_gives = { λ refused error. error ≡ NoMemory refused };

    fn from(refused: Refused) -> Stop {
        Stop::NoMemory(refused)
    }
}
