//! Why no arena is made.
ghost use Rattle.std.specs.Prelude.{◌≡◌};
ghost use Rattle.mc_words.specs.rule.Refused.{new_error_number};

use mc_classes::ConfigError;
use mc_memory::Refused;
use thiserror::Error;

/// Why no arena is made. The tests are made in this order, before anything is allocated (own).
#[derive(Debug, PartialEq, Eq, Drop, Error)]
pub enum NewError {
    /// The configuration is refused.
    #[error("{0}")]
    Config(ConfigError),
    /// The hands are none, or more than 64.
    #[error("the number of hands must be from 1 to 64")]
    Hands,
    /// The first issue number is above the greatest, 2^46 - 1.
    #[error("the first issue number must be below 2^46")]
    Issue,
    /// Memory ran out.
    #[error("out of memory")]
    NoMemory(Refused),
}

impl NewError {
    /// The refusal's number: 1 to 8 of a configuration, 9 for want of memory, 10 and 11 of hands and issue number.
    pub fn number(self) -> u64
        ensures number { result ≡ new_error_number self }
    {
        match self {
            NewError::Config(error) => error.number(),
            NewError::NoMemory(_) => 9,
            NewError::Hands => 10,
            NewError::Issue => 11,
        }
    }
}

impl From<Refused> for NewError {
    ghost use Rattle.std.specs.Prelude.{◌≡◌};
    ghost use Rattle.mc_words.specs.declared.arena.refusal.NewError.TheVariants.{NoMemory};

    ghost from_gives = { λ refused error. error ≡ NoMemory refused };

    fn from(refused: Refused) -> NewError {
        NewError::NoMemory(refused)
    }
}
