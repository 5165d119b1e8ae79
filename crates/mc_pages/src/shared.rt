//! A slab memory in a box, which hands share behind the slabs lock.
ghost use Rattle.std.specs.Prelude.{◌≡◌, IfOk};
ghost use Rattle.std.specs.Borrow.{Lends, sem};
ghost use Rattle.mc_pages.specs.contracts.shared.SharedSlabs.{the_row as shared_row};
ghost use Rattle.mc_pages.specs.contracts.slabs.Slabs.{the_row as slabs_row};

use crate::slabs::{NoMemory, Slabs};
use mc_memory::boxed;
use std::alloc::Global;
use std::marker::Model;

/// A slab memory that contracts see as its state alone, so that what is taken out of a place is a function of what was
/// put there: of the writes to its rows only a bound is known. In a box it is one word to exchange.
#[derive(Drop)]
pub struct SharedSlabs {
    slabs: Box<Slabs>,
}

impl Model for SharedSlabs {
    ghost use Rattle.mc_pages.specs.SlabState.{SlabState};

    ghost Value = { SlabState };

    ghost view = { λ shared. shared.slabs.value.state };
}

impl SharedSlabs {
    /// Puts the slabs into a box.
    pub fn new(alloc: Global, slabs: Slabs) -> Result<SharedSlabs, NoMemory>
        ensures boxed { IfOk result (λ shared. shared ≡ slabs.state) }
    {
        let slabs = boxed(alloc, slabs)?;
        Ok(SharedSlabs { slabs })
    }

    /// The slabs, to be read.
    pub fn slabs(&self) -> &Slabs
        ensures slabs { result.now.state ≡ self.now }
    {
        &self.slabs
    }

    /// The slabs, to be changed: the state is what the last call through this leaves.
    pub fn slabs_mut(&mut self) -> &mut Slabs
        ensures* changed { sem 𝓛 (Lends shared_row slabs_row self.entry result (λ slabs.
            slabs.state)) }
        ensures slabs { result.now.state ≡ self.old }
    {
        &mut self.slabs
    }

    /// Takes the slabs out of their box.
    pub fn into_slabs(self) -> Slabs
        ensures slabs { result.state ≡ self }
    {
        Box::into_inner(self.slabs)
    }
}
