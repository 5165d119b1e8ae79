//! Laws of a cache, each the contract of a function with nothing to do.
ghost use Rattle.mc_cache.specs.Conditional.{AddsFindNone, ReplacesFindOne, VersionsAreReplaced};
ghost use Rattle.mc_cache.specs.Newest.{GetsKeepLast, LastIsFound, SetsAreLast, UnusedFindOthers};

/// What a worker stored last under a key it finds there, or a value that another worker stored, and never an older one of its own.
/// Its gets of the key leave what it stored last. A worker that did nothing yet finds only what others stored.
pub fn own_values_are_newest()
    ensures sets { SetsAreLast }
    ensures gets { GetsKeepLast }
    ensures finds { LastIsFound }
    ensures unused { UnusedFindOthers }
{}

/// What a set on a condition stored took the place of: the value of its version, no value of its key, or some value.
pub fn conditions_are_met()
    ensures versions { VersionsAreReplaced }
    ensures adds { AddsFindNone }
    ensures replaces { ReplacesFindOne }
{}
