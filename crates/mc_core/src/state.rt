//! The arena between two events.
ghost use Rattle.std.specs.Prelude.{◌≡◌, ◌≢◌, ◌^◌, ◌<◌, slice_get, IfSome, MatchOption, Some};
ghost use Rattle.mc_core.specs.model.State.{head_at, stripe_at};

mod chunks;
mod columns;
mod evictions;
mod hands;
mod items;
mod lists;
mod locks;
mod made;
mod pages;
mod places;
mod silent;
mod steps;

use crate::head::Head;
use crate::holding::Holding;
use crate::ids::Ids;
use crate::look::Look;
use crate::series::Series;
pub use lists::{free_of, order_of};
use mc_classes::ClassTable;
use mc_pages::{ChunkId, Slabs};
use mc_stripe::Stripe;
use std::alloc::Global;
use std::marker::Model;

/// Headers, data words, locks, the values behind the locks, and of each hand who it is, what it holds and what it saw
/// under the slabs lock.
#[derive(Drop)]
pub struct State {
    alloc: Global,
    table: ClassTable,
    /// A header for each index of each page.
    heads: Vec<Head>,
    /// The data words, page 0 first.
    words: Vec<u64>,
    /// 0, or the number of the hand that has the lock, plus 1.
    slabs_lock: u64,
    stripe_locks: Vec<u64>,
    /// The values behind the locks, wherever they are.
    slabs: Slabs,
    stripes: Vec<Stripe>,
    ids: Vec<Ids>,
    holdings: Vec<Series<Holding>>,
    looks: Vec<Series<Look>>,
}

impl Model for State {
    ghost use Rattle.mc_core.specs.model.State.{State};

    ghost Value = { State };

    ghost use Rattle.mc_core.specs.model.InOrder.{callers_state, IsStateInOrder};

    ghost view = { callers_state };

    ghost invariant = { λ state. IsStateInOrder (callers_state state) };
}

impl State {
    ghost use Rattle.mc_core.specs.model.InOrder.{IsOfTable};

    /// The header of a chunk.
    pub fn head(&self, chunk: ChunkId) -> Head
        ensures head { result ≡ head_at self.now chunk }
        ensures issue { result.issue < 2 ^ 46 }
    {
        match self.head_place(chunk) {
            Some(place) => self.heads[place],
            None => Head::NEVER_CUT,
        }
    }

    /// The size classes, which never change.
    pub fn table(&self) -> &ClassTable
        ensures { result.now ≡ self.now.table }
    {
        &self.table
    }

    /// Pages and free lists, where nobody has the slabs lock.
    pub fn slabs(&self) -> Option<&Slabs>
        ensures free { MatchOption result (self.now.slabs_lock ≢ 0) (λ slabs.
            (slabs.now.state ≡ self.now.slabs) × (self.now.slabs_lock ≡ 0)) }
        ensures of_table { IfSome result (λ slabs. IsOfTable self.now.table slabs.now.state) }
    {
        if self.slabs_lock == 0 {
            Some(&self.slabs)
        } else {
            None
        }
    }

    /// A stripe, where it is there and nobody has its lock.
    pub fn stripe(&self, stripe: u64) -> Option<&Stripe>
        ensures { MatchOption result (slice_get self.now.stripe_locks stripe ≢ Some 0) (λ value.
            (value.now ≡ stripe_at self.now stripe)
            × (slice_get self.now.stripe_locks stripe ≡ Some 0)) }
    {
        if stripe < self.stripe_locks.len() as u64 && self.stripe_locks[stripe as usize] == 0 {
            Some(&self.stripes[stripe as usize])
        } else {
            None
        }
    }
}
