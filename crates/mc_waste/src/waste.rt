//! What the smallest item of a class leaves unused.
ghost use Rattle.std.specs.Prelude.{◌≡◌, ℕ, IfNone, IfSome, Some};
ghost use Rattle.mc_classes.specs.Classes.{IsClass, class_of};
ghost use Rattle.mc_waste.specs.Tables.{waste_of};
ghost use Rattle.mc_waste.specs.Waste.{IsWorst, item_bytes, least_item};

use mc_classes::{ClassId, ClassTable};

/// The most bytes that an item of the class leaves of its chunk unused. None where no item goes to the class: the one
/// below has room for all that this one has.
pub fn worst_waste(table: &ClassTable, class: ClassId) -> Option<u64>
    requires { IsClass table.now class }
    ensures waste { result ≡ waste_of table.now class }
    ensures worst { IfSome result (λ waste. IsWorst table.now class waste) }
    ensures none { IfNone result ((words : ℕ) → class_of table.now (item_bytes words) ≡ Some class →
        ⊥) }
{
    let size = table.size(class);
    let least = least_item(table, class);
    if least <= size {
        Some(size - least)
    } else {
        None
    }
}

/// The bytes of the smallest item that a class below, if there is one, has no room for.
fn least_item(table: &ClassTable, class: ClassId) -> u64
    requires { IsClass table.now class }
    ensures { result ≡ least_item table.now class }
{
    if class == 1 {
        return 24;
    }
    24 + 8 * ((table.size(class - 1) - 24) / 8 + 1)
}
