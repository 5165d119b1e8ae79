//! Why a run ends early, and the status that it ends with.
ghost use Rattle.std.specs.Prelude.{◌≡◌};
ghost use Rattle.mc_driver.specs.Run.{stop_fault};
ghost use Rattle.mc_driver.specs.Status.{status_of};
ghost use Rattle.mc_driver.specs.Threads.{ended_fault};
ghost use Rattle.mc_driver.specs.declared.fault.RunFault.TheVariants.{Memory};

use mc_keeper::Stop;
use mc_memory::Refused;
use mc_workers::{Ended, Unstarted};
use thiserror::Error;

/// Why a run was not done.
#[derive(Debug, PartialEq, Eq, Drop, Error)]
pub enum RunFault {
    /// The configuration is refused, by the test of this number.
    #[error("config: {0}")]
    Config(u64),
    /// The script is refused; this is the first line that is no command.
    #[error("script: line {0}")]
    Script(u64),
    /// The script has more than 1,048,576 bytes.
    #[error("script: too long")]
    TooLong,
    /// A read failed.
    #[error("read")]
    Read,
    /// A write failed.
    #[error("write")]
    Write,
    /// Memory ran out.
    #[error("memory")]
    Memory(Refused),
    /// A thread couldn't be started. The status and the text are those of want of memory.
    #[error("memory")]
    Thread(Unstarted),
    /// The script asks for more than 1,000,000 turns of the mover.
    #[error("turns")]
    Turns,
}

impl RunFault {
    /// The status that a program ends with.
    pub fn status(self) -> u8
        ensures { result ≡ status_of self }
    {
        match self {
            RunFault::Config(_) => 1,
            RunFault::Script(_) | RunFault::TooLong => 2,
            RunFault::Read | RunFault::Write => 3,
            RunFault::Memory(_) | RunFault::Thread(_) => 4,
            RunFault::Turns => 5,
        }
    }
}

impl From<Refused> for RunFault {
    ghost from_gives = { λ refused fault. fault ≡ Memory refused };

    fn from(refused: Refused) -> RunFault {
        RunFault::Memory(refused)
    }
}

impl From<Stop> for RunFault {
    ghost from_gives = { λ stop fault. fault ≡ stop_fault stop };

    fn from(stop: Stop) -> RunFault {
        match stop {
            Stop::Turns => RunFault::Turns,
            Stop::NoMemory(refused) => RunFault::Memory(refused),
        }
    }
}

impl From<Ended> for RunFault {
    ghost from_gives = { λ ended fault. fault ≡ ended_fault ended };

    fn from(ended: Ended) -> RunFault {
        match ended {
            Ended::Turns => RunFault::Turns,
            Ended::Memory(refused) => RunFault::Memory(refused),
            Ended::Thread(unstarted) => RunFault::Thread(unstarted),
        }
    }
}
