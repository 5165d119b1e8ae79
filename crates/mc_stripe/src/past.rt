//! The calls of a stripe that take no memory any more, for contracts alone.
ghost use Rattle.std.specs.Prelude.{◌≡◌, ◌++◌, List, []};
ghost use Rattle.std.specs.Borrow.{ftrue};
ghost use Rattle.mc_stripe.specs.declared.history.Call.{Call as ACall};

use crate::history::Call;
use std::marker::Model;

/// The calls that aren't recorded. It is seen by contracts alone, and has no size.
#[derive(Drop)]
pub(crate) struct Past {
    pub ghost calls: { List ACall },
}

impl Model for Past {
    ghost also_owns = { λ _. ftrue };
}

unsafe impl Send for Past {}

impl Past {
    /// No calls yet.
    pub(crate) fn new() -> Past
        ensures { result.calls ≡ [] }
    {
        Past {}
    }

    /// These calls, and more behind them.
    pub(crate) fn and(&self, more: &[Call]) -> Past
        ensures { result.calls ≡ self.now.calls ++ more.now }
    {
        Past {}
    }
}
