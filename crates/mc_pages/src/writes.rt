//! A count of the fields of rows that were written, for contracts alone.
ghost use Rattle.std.specs.Prelude.{◌≡◌, ℕ, ◌+◌};
ghost use Rattle.std.specs.Borrow.{ftrue};

use std::marker::Model;

/// How many fields of rows were written. It has no bytes and does nothing at run time, so it has no bound.
#[derive(Drop)]
pub(crate) struct Writes {
    pub ghost total: { ℕ },
}

impl Model for Writes {
    ghost also_owns = { λ _. ftrue };
}

// A `Writes` owns nothing.
unsafe impl Send for Writes {}

impl Writes {
    /// No field was written yet.
    pub(crate) fn new() -> Writes
        ensures { result.total ≡ 0 }
    {
        Writes {}
    }

    /// Counts one more field.
    pub(crate) fn add(&mut self)
        ensures { self.new.total ≡ self.old.total + 1 }
    {}
}
