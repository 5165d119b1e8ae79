//! Why the program wasn't done, and the status that it ends with.
ghost use Rattle.std.specs.Prelude.{◌≡◌};
ghost use Rattle.mcmap.specs.Status.{map_status};

use mc_map::{ConfigError, MapError, Refused, ScriptError, Stop};
use mc_options::CommandLineError;
use mc_picture::ChartError;
use std::alloc::AllocError;
use thiserror::Error;

/// Why the program wasn't done.
#[derive(Debug, Drop, Error)]
pub enum Fault {
    /// The options are refused. The text is that of `mcslab`'s options.
    #[error("{0}")]
    Options(clap::Error),
    /// The arguments can't be read as text.
    #[error("the arguments are not text")]
    Words,
    /// `--threads` is asked for: the schedule would decide what is shown.
    #[error("--threads: a map is of one thread; mcslab has threads")]
    Threads,
    /// More than one view is asked for.
    #[error("one of --json, --svg, --html, --classes and --check at a time")]
    Views,
    /// The configuration is refused, by the test of this number.
    #[error("config: {0}; mcmap --check prints why")]
    Config(u64),
    /// The script is refused; this is the first line that is no command.
    #[error("script: line {0}; mcmap --check prints why")]
    Script(u64),
    /// The script has more than 1,048,576 bytes.
    #[error("script: too long")]
    TooLong,
    /// A read failed.
    #[error("read")]
    Read,
    /// A write failed.
    #[error("write")]
    Write,
    /// Memory ran out.
    #[error("memory")]
    Memory,
    /// The script asks for more than 1,000,000 turns of the mover.
    #[error("turns")]
    Turns,
    /// The moments are more than a page of HTML has.
    #[error("--html: more than 500 moments")]
    Moments,
    /// The entries are more than a chart has columns.
    #[error("--svg: more than 4095 entries")]
    Chart,
    /// `--check` found that the options are wrong, and printed how.
    #[error("the options are wrong")]
    WrongOptions,
    /// `--check` found this many lines that are no commands, and printed why.
    #[error("{0} lines of the script are wrong")]
    WrongLines(u64),
    /// The books don't agree with the memory's numbers.
    #[error("books")]
    Books,
}

impl Fault {
    /// The status that the program ends with.
    pub fn status(&self) -> u8
        ensures { result ≡ map_status self.now }
    {
        match self {
            Fault::Options(_) | Fault::Words | Fault::Threads | Fault::Config(_) => 1,
            Fault::Views | Fault::Moments | Fault::Chart | Fault::WrongOptions => 1,
            Fault::Script(_) | Fault::TooLong | Fault::WrongLines(_) => 2,
            Fault::Read | Fault::Write => 3,
            Fault::Memory => 4,
            Fault::Turns => 5,
            Fault::Books => 6,
        }
    }
}

impl From<CommandLineError> for Fault {
    fn from(error: CommandLineError) -> Fault {
        match error {
            CommandLineError::Options(error) => Fault::Options(error),
            CommandLineError::Words => Fault::Words,
            CommandLineError::Memory => Fault::Memory,
        }
    }
}

impl From<Refused> for Fault {
    ghost use Rattle.mcmap.specs.declared.fault.Fault.TheVariants.{Memory};

    ghost from_gives = { λ refused fault. fault ≡ Memory };

    fn from(_refused: Refused) -> Fault {
        Fault::Memory
    }
}

impl From<AllocError> for Fault {
    ghost use Rattle.mcmap.specs.declared.fault.Fault.TheVariants.{Memory};

    ghost from_gives = { λ error fault. fault ≡ Memory };

    fn from(_error: AllocError) -> Fault {
        Fault::Memory
    }
}

impl From<Stop> for Fault {
    fn from(stop: Stop) -> Fault {
        match stop {
            Stop::Turns => Fault::Turns,
            Stop::NoMemory(_) => Fault::Memory,
        }
    }
}

impl From<MapError> for Fault {
    fn from(error: MapError) -> Fault {
        match error {
            MapError::Books | MapError::Refs => Fault::Books,
            MapError::NoMemory(_) => Fault::Memory,
        }
    }
}

impl From<ChartError> for Fault {
    fn from(error: ChartError) -> Fault {
        match error {
            ChartError::Large => Fault::Chart,
            ChartError::Misfit => Fault::Books,
            ChartError::Memory => Fault::Memory,
        }
    }
}

impl From<ConfigError> for Fault {
    fn from(error: ConfigError) -> Fault {
        match error {
            ConfigError::NoMemory(_) => Fault::Memory,
            refusal => Fault::Config(refusal.number()),
        }
    }
}

impl From<ScriptError> for Fault {
    fn from(error: ScriptError) -> Fault {
        match error {
            ScriptError::Line(line) => Fault::Script(line),
            ScriptError::NoMemory(_) => Fault::Memory,
        }
    }
}
