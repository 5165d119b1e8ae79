//! The entries of the ledger that take no memory any more, for contracts alone.
ghost use Rattle.std.specs.Prelude.{◌≡◌, ◌++◌, List, []};
ghost use Rattle.std.specs.Borrow.{ftrue};
ghost use Rattle.mc_pages.specs.declared.ledger.Entry.{Entry as AnEntry};

use crate::ledger::Entry;
use std::marker::Model;

/// The entries of the ledger that aren't recorded any more. It is seen by contracts alone, and has no size.
#[derive(Drop)]
pub(crate) struct Past {
    pub ghost entries: { List AnEntry },
}

impl Model for Past {
    ghost also_owns = { λ _. ftrue };
}

unsafe impl Send for Past {}

impl Past {
    /// No entries yet.
    pub(crate) fn new() -> Past
        ensures { result.entries ≡ [] }
    {
        Past {}
    }

    /// These entries, and more behind them.
    pub(crate) fn and(&self, more: &[Entry]) -> Past
        ensures { result.entries ≡ self.now.entries ++ more.now }
    {
        Past {}
    }
}
