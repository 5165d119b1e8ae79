//! Why a run ends early, and the status that it ends with.
ghost use Rattle.std.specs.Prelude.{◌≡◌};
ghost use Rattle.mc_replay.specs.Status.{fault_at, replay_status};
ghost use Rattle.mc_replay.specs.declared.fault.NoMemory.TheVariants.{Seen, Told};
ghost use Rattle.mc_replay.specs.declared.fault.Refusal.TheVariants as of_line;
ghost use Rattle.mc_replay.specs.declared.fault.RunFault.TheVariants as of_run;

use mc_classes::ConfigError;
use mc_memory::Refused;
use std::alloc::AllocError;
use thiserror::Error;

/// Want of memory.
#[derive(Debug, PartialEq, Eq, Drop)]
pub enum NoMemory {
    /// What a call of `mc_memory` asked for was refused.
    Seen(Refused),
    /// The standard library reported it, of words and parts that it collects, texts that it formats, and sets. Its error is no
    /// evidence.
    Told,
}

/// Why a line can't be taken.
#[derive(Debug, PartialEq, Eq, Drop)]
pub enum Refusal {
    /// The line is none of those that may be there.
    Form,
    /// The list's configuration is refused.
    Config(ConfigError),
    /// The list's hands aren't from 1 to 64.
    Hands,
    /// Memory ran out.
    Memory(NoMemory),
}

/// Why a run was not done.
#[derive(Debug, PartialEq, Eq, Drop, Error)]
pub enum RunFault {
    /// The line of this number, from 1, is none of those that may be there.
    #[error("line {0}")]
    Line(u64),
    /// The line of this number has a configuration that is refused.
    #[error("line {0}: {1}")]
    Config(u64, ConfigError),
    /// The line of this number has hands that aren't from 1 to 64.
    #[error("line {0}: the hands must be from 1 to 64")]
    Hands(u64),
    /// A read failed.
    #[error("read")]
    Read,
    /// A write failed.
    #[error("write")]
    Write,
    /// Memory ran out.
    #[error("memory")]
    Memory(NoMemory),
}

impl Refusal {
    /// What a run ends with where the line of this number is refused.
    pub fn at(self, number: u64) -> RunFault
        ensures { result ≡ fault_at number self }
    {
        match self {
            Refusal::Form => RunFault::Line(number),
            Refusal::Config(error) => RunFault::Config(number, error),
            Refusal::Hands => RunFault::Hands(number),
            Refusal::Memory(lack) => RunFault::Memory(lack),
        }
    }
}

impl From<Refused> for NoMemory {
    ghost from_gives = { λ refused lack. lack ≡ Seen refused };

    fn from(refused: Refused) -> NoMemory {
        NoMemory::Seen(refused)
    }
}

impl From<AllocError> for NoMemory {
    ghost from_gives = { λ _ lack. lack ≡ Told };

    fn from(_error: AllocError) -> NoMemory {
        NoMemory::Told
    }
}

impl From<AllocError> for Refusal {
    ghost from_gives = { λ _ refusal. refusal ≡ of_line.Memory Told };

    fn from(_error: AllocError) -> Refusal {
        Refusal::Memory(NoMemory::Told)
    }
}

impl From<Refused> for Refusal {
    ghost from_gives = { λ refused refusal. refusal ≡ of_line.Memory (Seen refused) };

    fn from(refused: Refused) -> Refusal {
        Refusal::Memory(NoMemory::Seen(refused))
    }
}

impl RunFault {
    /// The status that the program ends with.
    pub fn status(self) -> u8
        ensures { result ≡ replay_status self }
    {
        match self {
            RunFault::Line(_) | RunFault::Config(_, _) | RunFault::Hands(_) => 2,
            RunFault::Read | RunFault::Write => 3,
            RunFault::Memory(_) => 4,
        }
    }
}

impl From<NoMemory> for RunFault {
    ghost from_gives = { λ lack fault. fault ≡ of_run.Memory lack };

    fn from(lack: NoMemory) -> RunFault {
        RunFault::Memory(lack)
    }
}

impl From<Refused> for RunFault {
    ghost from_gives = { λ refused fault. fault ≡ of_run.Memory (Seen refused) };

    fn from(refused: Refused) -> RunFault {
        RunFault::Memory(NoMemory::Seen(refused))
    }
}
