//! Laws of the definitions, each the contract of a function with nothing to do.
ghost use Rattle.std.specs.Prelude.{◌≡◌, None};
ghost use Rattle.mc_classes.specs.declared.config.Config.{Config};
ghost use Rattle.mc_classes.specs.Classes.{Classes, IsSound, IsTableOf};
ghost use Rattle.mc_classes.specs.Limits.{least_page_bytes, most_arena_pages, most_bulk, most_classes, most_hands, most_page_bytes, most_page_chunks, most_pages, most_refs, most_stripes, most_workers};
ghost use Rattle.mc_classes.specs.Refusals.{config_refusal};

/// A configuration has no two class tables.
pub fn one_table()
    ensures { (config : Config) (a b : Classes) → IsTableOf config a → IsTableOf config b → a ≡ b }
{}

/// The definitions alone keep the sizes and counts of a table within their bounds.
pub fn sound_table()
    ensures { (config : Config) (table : Classes) → config_refusal config ≡ None →
        IsTableOf config table → IsSound table }
{}

/// The limits as numbers. Definitions and code take a limit from one constant; a constant with another number breaks its clause
/// here.
pub fn worked_limits()
    ensures page { (least_page_bytes ≡ 64) × (most_page_bytes ≡ 16384) }
    ensures pages { most_pages ≡ 64 }
    ensures classes { most_classes ≡ 63 }
    ensures beyond { most_arena_pages ≡ 127 }
    ensures stripes { most_stripes ≡ 64 }
    ensures chunks { most_page_chunks ≡ 256 }
    ensures bulk { most_bulk ≡ 256 }
    ensures hands { most_hands ≡ 64 }
    ensures workers { most_workers ≡ 63 }
    ensures references { most_refs ≡ 255 }
{}
