//! A map: all that is shown of a memory at one moment.
ghost use Rattle.std.specs.Prelude.{◌≡◌};
ghost use Rattle.mc_map.specs.declared.map.MapError.TheVariants.{NoMemory};

use crate::hang::Hang;
use crate::kept::ClassLine;
use mc_classes::PageId;
use mc_keeper::{Moving, Refused, Totals};
use mc_pages::{Entry, Owner};

/// Why no map is shown.
#[derive(Debug, PartialEq, Eq, Drop)]
pub enum MapError {
    /// The books don't agree with the keeper's numbers.
    Books,
    /// Worker 0, which no script has, holds as much as it may.
    Refs,
    /// Memory ran out.
    NoMemory(Refused),
}

impl From<Refused> for MapError {
    ghost from_gives = { λ refused error. error ≡ NoMemory refused };

    fn from(refused: Refused) -> MapError {
        MapError::NoMemory(refused)
    }
}

/// What is shown of a memory at one moment.
#[derive(Drop)]
pub struct Map {
    /// The bytes of a page.
    pub page: u64,
    /// How many pages may be granted within the limit. They have the lowest numbers.
    pub within: u64,
    /// How many commands were done.
    pub done: u64,
    /// Who owns each page, page 0 first.
    pub owners: Vec<Owner>,
    /// The pages of the pool. The one that came last is at the end.
    pub pool: Vec<PageId>,
    /// The page on the move.
    pub moving: Option<Moving>,
    /// How many chunks the moving page has.
    pub chunks: u64,
    /// The classes that have pages, and those of which an item was ever evicted.
    pub classes: Vec<ClassLine>,
    pub totals: Totals,
    /// Every change of a page's owner, in order.
    pub ledger: Vec<Entry>,
    pub hang: Hang,
}
