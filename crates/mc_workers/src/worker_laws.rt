//! Worked cases of what a worker's lines do and reply, each the contract of a function with nothing to do.
ghost use Rattle.mc_workers.specs.WorkerCases.{LinesComeApart, RepliesArePrinted, RepliesFitTheirLines, TheGreatestIsFound, TheLastHoldIsDropped, TheLastIsReleasedFirst};

/// A drop gives back the hold of its key that came last, and no other.
pub fn the_last_hold_is_dropped()
    ensures { TheLastHoldIsDropped }
{}

/// The lines of each worker, and those of none, come apart.
pub fn lines_come_apart()
    ensures apart { LinesComeApart }
    ensures greatest { TheGreatestIsFound }
{}

/// Replies are printed one behind the other, each about the key of its line; and no line has the reply of another one.
pub fn replies_to_workers_fit()
    ensures records { RepliesArePrinted }
    ensures fit { RepliesFitTheirLines }
{}

/// What a worker still holds at its end is given back from the last on.
pub fn the_last_is_released_first()
    ensures { TheLastIsReleasedFirst }
{}
