//! Tables of atomic words.
ghost use Rattle.std.specs.Prelude.{◌≡◌, [], IfOk, length};
ghost use Rattle.atomic_table.specs.Table.{opening};

use crate::refused::Refused;
use atomic_table::{Seat, Table, TableRule};
use std::alloc::Global;

/// What makes a table, and its first seat.
pub type Made<S, V, K, P> = (Table<S, V, K, P, Global>, Seat<S, V>);

/// A table of these words and slots. Where there is no room, the slots are dropped.
pub fn table<S: Drop, V, K, P: TableRule<S, V, K>>(
    alloc: Global,
    words: &[u64],
    slots: Vec<S>,
    about: &K,
) -> Result<Made<S, V, K, P>, Refused>
    requires { P.holds about.now (opening words.now slots.items (P.first about.now)) }
    ensures ok { IfOk result (λ t. (t.0.shared.table_id.words ≡ length words.now)
        × (t.0.shared.table_id.slots ≡ length slots.items) × (t.1.table_id ≡ t.0.shared.table_id)
        × (t.1.id ≡ 0) × (t.1.me ≡ (P.first about.now, [])) × (t.0.shared.key ≡ about.now)) }
{
    Table::new(alloc, words, slots, about).map_err(|_| Refused::now())
}
