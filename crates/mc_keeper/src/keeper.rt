//! The keeper: what one thread stores, in `mc_serial_parts` and `mc_pages`.
ghost use Rattle.std.specs.Prelude.{◌≡◌, ◌≤◌, IfOk};
ghost use Rattle.mc_classes.specs.Classes.{IsSound};
ghost use Rattle.mc_serial_spec.specs.Machine.{fresh_machine};

mod automove;
mod evict;
mod mover;
mod noted;
mod pages;
mod refs;
mod serve;
mod several;
mod statistics;
mod store;
mod sweep;

pub use automove::Acted;
use mc_classes::ClassTable;
use mc_memory::Refused;
use mc_pages::Slabs;
use mc_serial_parts::{DeadCounts, Holds, ItemTable, KeyIndex};
use mc_watch::Decider;
use noted::DeadHints;
pub use refs::{HoldError, TooManyRefs};
pub use serve::Stop;
use std::alloc::Global;
use std::marker::Model;
pub use store::Stored;

/// What one thread stores: pages and chunks, the items in them, where each key leads, and who holds which chunk.
///
/// Keys are numbers, an item's words numbers of 64 bits. Workers are numbered from 0 to 63; each has holds of its own.
#[derive(Drop)]
pub struct Keeper {
    alloc: Global,
    table: ClassTable,
    /// How many chunks a turn of the mover looks at.
    bulk: u64,
    slabs: Slabs,
    index: KeyIndex,
    items: ItemTable,
    holds: Holds,
    /// How many handed-out chunks of each class are dead, so that a sweep walks only where one is.
    dead: DeadCounts,
    /// Which of each class came last, and which since its last sweep, so that one or several are put back without a walk.
    hints: DeadHints,
    /// How many turns of the mover were begun.
    turns: u64,
    /// What the automover knows of the last windows.
    decider: Decider,
}

impl Model for Keeper {
    ghost use Rattle.mc_serial_spec.specs.Machine.{Machine};

    ghost Value = { Machine };

    ghost use Rattle.mc_keeper.specs.Kept.{KeeperIsInOrder};

    ghost view = { λ k. record { table = k.table; bulk = k.bulk; slabs = k.slabs.state; items = k.items; holds = k.holds; turns = k.turns; decider = k.decider } };

    ghost invariant = { KeeperIsInOrder };
}

impl Keeper {
    /// Nothing is stored yet. A turn of the mover is to look at up to `bulk` chunks, and the automover works in
    /// `mode`: 0 is off, 1 acts on each window, 2 on each eviction.
    pub fn new(alloc: Global, table: ClassTable, bulk: u64, mode: u64) -> Result<Keeper, Refused>
        requires sound { IsSound table }
        requires bulk { bulk ≤ 256 }
        requires mode { mode ≤ 2 }
        ensures fresh { IfOk result (λ keeper. keeper ≡ fresh_machine table bulk mode) }
    {
        // the pages last, since a refusal drops what is there by then
        let index = KeyIndex::new(alloc, most_items(&table))?;
        let holds = Holds::new(alloc)?;
        let dead = DeadCounts::new(alloc, table.count())?;
        let hints = DeadHints::new(alloc, table.count())?;
        let decider = Decider::new(alloc, &table)?;
        let mut slabs = Slabs::new(alloc, &table)?;
        slabs.set_automove(mode);
        Ok(Keeper {
            alloc,
            table,
            bulk,
            slabs,
            index,
            items: ItemTable::new(alloc),
            holds,
            dead,
            hints,
            turns: 0,
            decider,
        })
    }
}

/// The most items that there can be: no class has more chunks a page than the first.
fn most_items(table: &ClassTable) -> usize {
    (table.arena_pages() * table.per_page(1)) as usize
}
