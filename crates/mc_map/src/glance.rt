//! What a keeper shows of its pages at a glance.
ghost use Rattle.std.specs.Prelude.{◌≡◌};

use mc_keeper::{Keeper, Moving};

/// How many pages were granted, how many are in the pool, and the one on the move.
#[derive(Clone, Copy, PartialEq, Eq)]
pub struct Glance {
    pub granted: u64,
    pub pool: u64,
    pub moving: Option<Moving>,
}

impl Glance {
    ghost use Rattle.mc_map.specs.Books.{glance_of};

    /// What the keeper shows now.
    pub fn of(keeper: &Keeper) -> Glance
        ensures { result ≡ glance_of keeper.now.slabs }
    {
        let totals = keeper.totals();
        Glance {
            granted: totals.granted,
            pool: totals.pool,
            moving: keeper.moving(),
        }
    }
}
