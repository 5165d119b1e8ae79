//! How a set comes to a chunk in a full class: an item is evicted.
ghost use Rattle.std.specs.Prelude.{◌≡◌, true, Contains, IfOk, OnErr, OnOk, Some};
ghost use Rattle.std.specs.Option.{is_some};
ghost use Rattle.mc_pages.specs.SlabState.{HasClass, class_at};
ghost use Rattle.mc_serial_spec.specs.Machine.{has_unheld_linked_item, machine_after_sweep};
ghost use Rattle.mc_serial_spec.specs.Supply.{needs_eviction, victim, with_eviction, machine_after_supply};

use super::Keeper;
use mc_classes::ClassId;
use mc_memory::Refused;
use mc_pages::{ChunkId, EVICTION_TRIES};

impl Keeper {
    /// Gets the class a free chunk, where there is a way to one. Returns whether an item was evicted for it.
    #[tactic(auto, using(mc_serial_spec::proofs::Stocks::class_stays))]
    pub(super) fn supply(&mut self, class: ClassId) -> Result<bool, Refused>
        requires { HasClass self.old.slabs class }
        ensures evicted { IfOk result (λ evicted. evicted ≡ needs_eviction self.old class) }
        ensures after { OnOk result (self.new ≡ machine_after_supply self.old class) }
        ensures refused { OnErr result (self.new ≡ machine_after_sweep self.old class) }
    {
        self.stock(class)?;
        if self.has_free(class) {
            return Ok(false);
        }
        Ok(self.relieve(class))
    }

    /// Evicts the first of the class's oldest items that nobody holds, of those that are looked at, and returns whether there was
    /// one.
    fn relieve(&mut self, class: ClassId) -> bool
        requires { HasClass self.old.slabs class }
        ensures evicted { result ≡ is_some (victim self.old class) }
        ensures after { self.new ≡ with_eviction self.old class (victim self.old class) }
    {
        match self.victim(class) {
            Some(chunk) => {
                self.evict(class, chunk);
                true
            }
            None => false,
        }
    }

    /// The chunk of the item to evict.
    fn victim(&self, class: ClassId) -> Option<ChunkId>
        requires { HasClass self.now.slabs class }
        ensures victim { result ≡ victim self.now class }
    {
        for place in 0..EVICTION_TRIES {
            let chunk = self.slabs.order_at(class, place)?;
            if self.is_linked_unheld(chunk) {
                return Some(chunk);
            }
        }
        None
    }

    /// Evicts the chunk's item: it is gone, and the chunk is put back.
    fn evict(&mut self, class: ClassId, chunk: ChunkId)
        requires class { HasClass self.old.slabs class }
        requires unheld { has_unheld_linked_item self.old chunk ≡ true }
        requires listed { Contains (class_at self.old.slabs class).order chunk }
        ensures evicted { self.new ≡ with_eviction self.old class (Some chunk) }
    {
        self.slabs.back(chunk);
        self.slabs.evicted(class);
        if let Some(key) = self.items.remove(chunk) {
            self.index.remove(key);
        }
    }
}
