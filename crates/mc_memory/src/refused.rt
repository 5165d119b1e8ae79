//! The value that is evidence of a refusal, `Refused`.
use std::marker::Model;
use thiserror::Error;

/// The allocator refused memory. The value has no size, and can't be copied, so each reports a refusal of its own.
#[derive(Debug, PartialEq, Eq, Drop, Error)]
#[error("out of memory")]
pub struct Refused {
    seen: (),
}

impl Model for Refused {
    ghost use Rattle.std.specs.Prelude.{⊤};

    ghost Value = { ⊤ };

    ghost view = { λ _. tt };

    ghost inverse = { λ _. record { seen = tt } };
}

impl Refused {
    /// Called where the allocator has just refused, and nowhere else.
    pub(crate) fn now() -> Refused {
        Refused { seen: () }
    }
}
