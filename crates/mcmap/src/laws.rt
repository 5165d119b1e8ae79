//! Worked examples of what is shown, computed by the prover: each the contract of a function with nothing to do.
ghost use Rattle.mcmap.specs.Rows.{ClassShown, GrantShown, MapNames, MarksReached, MovesShown, MovingShown, NothingShown, OneMarkShown, OwnersShown, PlacesNamed, TotalsShown, WrongLinesCounted};

/// What the parts of a map are as JSON.
pub fn worked_maps()
    ensures owners { OwnersShown }
    ensures grant { GrantShown }
    ensures moves { MovesShown }
    ensures class { ClassShown }
    ensures totals { TotalsShown }
    ensures moving { MovingShown }
    ensures nothing { NothingShown }
    ensures names { MapNames }
{}

/// Worked cases: how many commands are done at a mark, what is shown at one and what its heading names; and how many lines of a
/// script are wrong.
pub fn worked_scripts()
    ensures marks { MarksReached }
    ensures shown { OneMarkShown }
    ensures places { PlacesNamed }
    ensures wrong { WrongLinesCounted }
{}
