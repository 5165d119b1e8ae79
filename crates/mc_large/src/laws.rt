//! Laws and worked cases of keys, roots and pieces, each the contract of a function with nothing to do.
ghost use Rattle.mc_large.specs.Cases.{NoCut, WorkedKeys, WorkedPieces, WorkedRoots};
ghost use Rattle.mc_large.specs.Keys.{KeysAreTaken, PartsAreApart, RootsAreApart, RootsAreNoParts};
ghost use Rattle.mc_large.specs.Own.{GotPartsWereStored, LargeGetsKeepLast, LargeLastIsFound, LargeSetsAreLast};
ghost use Rattle.mc_large.specs.Pieces.{CutsAreUnique, PiecesAreCounted};
ghost use Rattle.mc_large.specs.Roots.{RootsAreUnique};

/// No root key is a part key. A root key is that of one key, and a part key that of one key and one number.
pub fn keys_are_told_apart()
    ensures kinds { RootsAreNoParts }
    ensures roots { RootsAreApart }
    ensures parts { PartsAreApart }
    ensures taken { KeysAreTaken }
{}

/// Bytes are the root of one small value, or of one length and one list of versions.
pub fn roots_are_told_apart()
    ensures { RootsAreUnique }
{}

/// A value is cut in one way, into as many pieces as its length asks for.
pub fn values_are_cut_in_one_way()
    ensures unique { CutsAreUnique }
    ensures counted { PiecesAreCounted }
{}

/// What a worker set last under a key it gets there whole, or it finds a root there that another worker stored. So it never gets an older value
/// of its own, nor parts of two. Its gets leave what it set last.
pub fn own_large_values_are_whole()
    ensures sets { LargeSetsAreLast }
    ensures gets { LargeGetsKeepLast }
    ensures finds { LargeLastIsFound }
{}

/// A part that is got with a version was stored under its key with this version, by whatever worker.
pub fn parts_were_stored()
    ensures { GotPartsWereStored }
{}

/// Worked cases.
pub fn worked_parts()
    ensures keys { WorkedKeys }
    ensures roots { WorkedRoots }
    ensures pieces { WorkedPieces }
    ensures no_cut { NoCut }
{}
