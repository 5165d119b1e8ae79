//! Worked examples of the decider, computed by the prover: each the contract of a function with nothing to do.
ghost use Rattle.mc_watch.specs.Rows.{FewerEvictions, NoSparePage, ShortList, SparePage, ThreeRunning, ThreeWindows};

/// The decisions and the refusals of worked windows.
pub fn worked_windows()
    ensures three_windows { ThreeWindows }
    ensures three_running { ThreeRunning }
    ensures fewer_evictions { FewerEvictions }
    ensures short_list { ShortList }
    ensures spare_page { SparePage }
    ensures no_spare_page { NoSparePage }
{}
