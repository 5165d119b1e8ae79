//! Laws and worked cases of deadlines, each the contract of a function with nothing to do.
ghost use Rattle.mc_expiry.specs.Cases.{WorkedBytes, WorkedDeadlines};
ghost use Rattle.mc_expiry.specs.Deadlines.{DeadlinesAreUnique, EitherIsExpired, LackersHaveNone};

/// Stored bytes are those of one deadline and one value. A deadline is reached or isn't, and never both. So stored bytes without an
/// unexpired value have none.
pub fn deadlines_are_told_apart()
    ensures unique { DeadlinesAreUnique }
    ensures either { EitherIsExpired }
    ensures lackers { LackersHaveNone }
{}

/// Worked cases. The lowest byte of a deadline comes first. A deadline of 5 is reached at 5 and isn't at 4, and one of 0 isn't at any time.
pub fn worked_deadlines()
    ensures bytes { WorkedBytes }
    ensures deadlines { WorkedDeadlines }
{}
