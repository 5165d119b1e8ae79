//! The cut of a whole page.
ghost use Rattle.std.specs.Prelude.{◌≡◌, ◌≤◌, fold, None, Some};
ghost use Rattle.mc_pages.specs.Accounted.{first_chunks};
ghost use Rattle.mc_pages.specs.Changes.{after_cut};
ghost use Rattle.mc_pages.specs.SlabState.{class_of_chunk};
ghost use Rattle.mc_words.specs.hand.Arenas.{IsHandOf, view};
ghost use Rattle.mc_words.specs.page.Cuts.{CutsEach};
ghost use Rattle.mc_words.specs.chunk.Sweeps.{with_seen};

use crate::arena::Arena;
use crate::hand::Hand;
use crate::hand::held::SlabsHeld;
use mc_classes::PageId;

impl Arena {
    /// Cuts all chunks of a page that was just given to a class, from the first on. (slabs.c's `split_slab_page_into_freelist`)
    pub fn cut_page(&self, hand: &mut Hand, held: &mut SlabsHeld, page: PageId, per_page: u64)
        requires arena { IsHandOf self.now hand.old }
        requires held { (view hand.old).slabs ≡ Some held.old.shared }
        requires first { held.old.shared.uncut ≡ Some (record { page = page; index = 0 }) }
        requires chunks { (class_of_chunk held.old.shared
            (record { page = page; index = 0 })).per_page ≡ per_page }
        requires some { 1 ≤ per_page }
        ensures arena { IsHandOf self.now hand.new }
        ensures locks { hand.new.locks ≡ hand.old.locks }
        ensures held { (view hand.new).slabs ≡ Some held.new.shared }
        ensures cuts { CutsEach (first_chunks page per_page) (view hand.old) held.old.shared
            (view hand.new) held.new.shared }
        ensures shared { held.new.shared ≡ fold after_cut held.old.shared
            (first_chunks page per_page) }
        ensures whole { held.new.shared.uncut ≡ None }
        ensures seen { view hand.new ≡ with_seen (view hand.old) (view hand.new) }
    {
        for index in 0..per_page {
            self.cut(hand, held, page, index);
        }
    }
}
