//! The gate that a thread passes before and after each of its lines.

/// The place of a thread at a line.
#[derive(Clone, Copy, PartialEq, Eq)]
pub enum Point {
    /// The line isn't begun.
    Before,
    /// The line's work is done, and its reply is in memory.
    After,
}

/// Whether a thread goes on.
#[derive(Clone, Copy, PartialEq, Eq)]
pub enum Pass {
    /// The thread goes on.
    Go,
    /// The thread ends, and the run with it, by status 5.
    Stop,
}

/// Decides when each thread goes on, as a test or a replay wants it. (own)
pub trait Gate {
    ghost use Rattle.std.specs.Prelude.{◌≡◌, ℕ, ⊤};
    ghost use Rattle.mc_workers.specs.declared.gate.Point.{Point};
    ghost use Rattle.mc_workers.specs.declared.gate.Pass.TheVariants.{Go, Stop};

    /// What is known where this worker was let on at this of its lines: nothing, unless the gate states more.
    ghost LetsOn: { Self → ℕ → ℕ → Point → Type 0 } = { λ _ _ _ _. ⊤ };

    /// What is known where this worker was stopped at this of its lines: nothing, unless the gate states more.
    ghost Stops: { Self → ℕ → ℕ → Point → Type 0 } = { λ _ _ _ _. ⊤ };

    /// Called before and after each line's work, by the thread that does it. The mover is worker 0, and `nth` counts the worker's
    /// own lines from 1.
    fn pass(&self, worker: u64, nth: u64, point: Point) -> Pass
        ensures lets_on { result ≡ Go → LetsOn self.now worker nth point }
        ensures stops { result ≡ Stop → Stops self.now worker nth point };
}

/// The gate that lets everybody go on.
#[derive(Clone, Copy)]
pub struct Free;

impl Gate for Free {
    ghost use Rattle.std.specs.Prelude.{◌≡◌};
    ghost use Rattle.mc_workers.specs.declared.gate.Pass.TheVariants.{Go};

    /// This gate stops nobody.
    ghost Stops = { λ _ _ _ _. ⊥ };

    fn pass(&self, _worker: u64, _nth: u64, _point: Point) -> Pass
        ensures go { result ≡ Go }
    {
        Pass::Go
    }
}
