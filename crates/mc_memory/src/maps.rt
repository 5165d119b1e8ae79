//! Hash maps that grow.
ghost use Rattle.std.specs.Prelude.{◌≤◌, OnErr, OnOk, IsOk};
ghost use Rattle.std.specs.HashMap.{IsReordered, IsUnchanged, spare};

use crate::refused::Refused;
use std::collections::HashMap;
use std::hash::Hash;

/// Room for n more entries. The entries stay, whatever the answer, and where there is no room all stays.
pub fn reserve_entries<K: Eq + Hash, V>(
    map: &mut HashMap<K, V>,
    additional: usize,
) -> Result<(), Refused>
    ensures entries { IsReordered K.eq map.old map.new }
    ensures ok { OnOk result (additional ≤ spare map.new) }
    ensures unchanged { OnErr result (IsUnchanged map.old map.new) }
    ensures succeeds { additional ≤ spare map.old → IsOk result }
    ensures kept { spare map.old ≤ spare map.new }
{
    map.reserve(additional).map_err(|_| Refused::now())
}
