//! How a class comes to a free chunk.
ghost use Rattle.std.specs.Prelude.{◌≡◌, ◌≤◌, ◌<◌, None, Some, OnErr, OnOk, fold};
ghost use Rattle.mc_pages.specs.SlabState.{HasClass, class_of_chunk};
ghost use Rattle.mc_pages.specs.Changes.{after_cut, next_page};
ghost use Rattle.mc_pages.specs.Accounted.{IsAccounted, first_chunks};
ghost use Rattle.mc_serial_spec.specs.Machine.{has_free, machine_after_stocking, machine_after_sweep, with_new_page};

use super::Keeper;
use mc_classes::{ClassId, PageId};
use mc_memory::Refused;
use mc_pages::{Grow, Slabs};

impl Keeper {
    /// Gets the class a free chunk, where there is a way: its dead are put back, and where there is none it gets a page.
    #[tactic(auto, using(mc_serial_spec::proofs::Stocks::class_stays))]
    pub(super) fn stock(&mut self, class: ClassId) -> Result<(), Refused>
        requires { HasClass self.old.slabs class }
        ensures after { OnOk result (self.new ≡ machine_after_stocking self.old class) }
        ensures refused { OnErr result (self.new ≡ machine_after_sweep self.old class) }
    {
        if self.has_free(class) {
            return Ok(());
        }
        self.sweep_class(class);
        if self.has_free(class) {
            return Ok(());
        }
        self.grow(class)
    }

    /// Whether the class has a free chunk.
    pub(super) fn has_free(&self, class: ClassId) -> bool
        requires { HasClass self.now.slabs class }
        ensures free { result ≡ has_free self.now class }
    {
        self.slabs.numbers(class).free > 0
    }

    /// Gives the class the next page, if there is one, and cuts its chunks.
    fn grow(&mut self, class: ClassId) -> Result<(), Refused>
        requires { HasClass self.old.slabs class }
        ensures after { OnOk result (self.new ≡ with_new_page self.old class
            (next_page self.old.slabs class)) }
        ensures refused { OnErr result (self.new ≡ self.old) }
    {
        let per_page = self.table.per_page(class);
        match self.slabs.grow(class) {
            Ok(page) => {
                cut_page(&mut self.slabs, page, per_page);
                Ok(())
            }
            Err(Grow::NoRoom) => Ok(()),
            Err(Grow::NoMemory(refused)) => Err(refused),
        }
    }
}

/// Cuts all chunks of a page that was just given to a class.
pub(super) fn cut_page(slabs: &mut Slabs, page: PageId, per_page: u64)
    requires first { slabs.old.state.uncut ≡ Some (record { page = page; index = 0 }) }
    requires chunks { (class_of_chunk slabs.old.state (record { page = page; index = 0 })).per_page
        ≡ per_page }
    requires some { 1 ≤ per_page }
    requires accounted { IsAccounted slabs.old.state }
    ensures cut { slabs.new.state ≡ fold after_cut slabs.old.state (first_chunks page per_page) }
    ensures whole { slabs.new.state.uncut ≡ None }
    ensures accounted { IsAccounted slabs.new.state }
{
    for index in 0..per_page {
        slabs.cut(page, index);
    }
}
