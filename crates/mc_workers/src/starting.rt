//! Threads of a scope, and the evidence that one couldn't be started.
ghost use Rattle.std.specs.Prelude.{◌≡◌, IfOk};

use std::marker::Model;
use std::thread::{Promise, PromisedHandle, Scope};

/// A thread couldn't be started. std doesn't report why, so this is no evidence about memory. It has no size, can't be copied,
/// and `start` alone makes one.
#[derive(Debug, PartialEq, Eq, Drop)]
pub struct Unstarted {
    seen: (),
}

impl Model for Unstarted {
    ghost use Rattle.std.specs.Prelude.{⊤};

    ghost Value = { ⊤ };

    ghost view = { λ _. tt };

    ghost inverse = { λ _. record { seen = tt } };
}

// Starts a thread of the scope. Where none can be had, what it was to do is dropped.
pub(crate) fn start<
    's,
    E,
    P: Promise<T> + Drop,
    F: FnOnce() -> T + Send + Drop + 's,
    T: Send + Drop + 's,
>(scope: &Scope<'s, E>, promise: P, work: F) -> Result<PromisedHandle<T, P>, Unstarted>
    requires runs { F.pre work }
    requires keeps { (r : T) → F.post work r → P.kept_by promise r }
    ensures ok { IfOk result (λ thread. thread.promise ≡ promise) }
{
    match scope.spawn_with(promise, work) {
        Ok(thread) => Ok(thread),
        Err(_) => Err(Unstarted { seen: () }),
    }
}
