//! Worked cases of what a line of the mover does and replies, each the contract of a function with nothing to do.
ghost use Rattle.mc_workers.specs.MoverCases.{ClassesArePrinted, DecidesInMode1Alone, DecisionsAreActedOn, IsFedInEveryMode, RefusedNumbersChangeNothing, RepliesAreOfTheirLines, TotalsArePrinted, TurnsAreCounted, TurnsAreSummed, TurnsComeApart, TurnsGoOnUntilDone, TurnsRunOut, WindowsArePrinted};

/// The line of a window names source, destination and answer, in this order.
pub fn windows_are_told()
    ensures { WindowsArePrinted }
{}

/// The decider is fed in every mode; its decision is acted on in mode 1 alone, and there always. Numbers that it refuses change nothing.
pub fn decisions_are_of_mode_1()
    ensures alone { DecidesInMode1Alone }
    ensures fed { IsFedInEveryMode }
    ensures refused { RefusedNumbersChangeNothing }
    ensures acted_on { DecisionsAreActedOn }
{}

/// A line does as many turns as are asked for, unless one finds no move or ends one. The reply has their sums kind by kind.
pub fn turns_go_on_until_done()
    ensures done { TurnsGoOnUntilDone }
    ensures summed { TurnsAreSummed }
{}

/// Turns of a line are done in their order. Each is counted, and no run has more than 1,000,000; a line ends the run only where it asks
/// for more than are left.
pub fn turns_are_counted()
    ensures in_order { TurnsComeApart }
    ensures counted { TurnsAreCounted }
    ensures run_out { TurnsRunOut }
{}

/// The statistics print each number of a survey under its name, and no class has more free chunks than its pages have.
pub fn statistics_are_told()
    ensures totals { TotalsArePrinted }
    ensures classes { ClassesArePrinted }
{}

/// Want of memory is no answer, and no line has the reply of another one.
pub fn replies_are_of_their_lines()
    ensures { RepliesAreOfTheirLines }
{}
