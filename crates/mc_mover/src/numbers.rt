//! The numbers that a survey reads.
ghost use Rattle.std.specs.Prelude.{◌≡◌, IfOk};
ghost use Rattle.mc_mover.specs.Surveying.{evictions_in, free_in, pages_in};

use mc_memory::{Refused, with_capacity};
use mc_pages::{Numbers, Totals};
use std::alloc::Global;

/// What the slab memory has, all at one moment.
#[derive(Drop)]
pub struct Survey {
    /// What each class has, class 1 first.
    pub classes: Vec<Numbers>,
    /// What all classes have together.
    pub totals: Totals,
    /// Whether a page moves.
    pub running: bool,
    /// The automover's mode.
    pub mode: u64,
}

impl Survey {
    /// How many items of each class were ever evicted to make room, class 1 first.
    pub fn evictions(&self, alloc: Global) -> Result<Vec<u64>, Refused>
        ensures evictions { IfOk result (λ numbers. numbers.items ≡ evictions_in self.now) }
    {
        let mut all = with_capacity(alloc, self.classes.len())?;
        for numbers in &self.classes {
            all.push_reserved(numbers.evictions);
        }
        Ok(all)
    }

    /// The pages of each class.
    pub fn pages(&self, alloc: Global) -> Result<Vec<u64>, Refused>
        ensures pages { IfOk result (λ numbers. numbers.items ≡ pages_in self.now) }
    {
        let mut all = with_capacity(alloc, self.classes.len())?;
        for numbers in &self.classes {
            all.push_reserved(numbers.pages);
        }
        Ok(all)
    }

    /// The free chunks of each class.
    pub fn free(&self, alloc: Global) -> Result<Vec<u64>, Refused>
        ensures free { IfOk result (λ numbers. numbers.items ≡ free_in self.now) }
    {
        let mut all = with_capacity(alloc, self.classes.len())?;
        for numbers in &self.classes {
            all.push_reserved(numbers.free);
        }
        Ok(all)
    }
}
