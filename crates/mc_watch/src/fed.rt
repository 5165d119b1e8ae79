//! The windows that a decider was fed, for contracts alone.
ghost use Rattle.std.specs.Prelude.{◌≡◌, List, [], ◌∷◌};
ghost use Rattle.std.specs.Borrow.{ftrue};
ghost use Rattle.mc_watch.specs.Decider.{Window};

use std::marker::Model;

/// All windows that were fed, the newest first. It has no bytes and does nothing at run time, so they are as many as come.
#[derive(Drop)]
pub(crate) struct Fed {
    pub ghost windows: { List Window },
}

impl Model for Fed {
    ghost also_owns = { λ _. ftrue };
}

// A `Fed` owns nothing.
unsafe impl Send for Fed {}

impl Fed {
    /// No windows yet.
    pub(crate) fn new() -> Fed
        ensures { result.windows ≡ [] }
    {
        Fed {}
    }

    /// These windows and one more, with these numbers.
    pub(crate) fn then(&self, evictions: &[u64], pages: &[u64], free: &[u64]) -> Fed
        ensures { result.windows
            ≡ record { evictions = evictions.now; pages = pages.now; free = free.now } ∷
            self.now.windows }
    {
        Fed {}
    }
}
