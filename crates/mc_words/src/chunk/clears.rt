//! Chunks of the moving page that are cleared.
ghost use Rattle.std.specs.Prelude.{◌≡◌, [], true, false, Some, IsOk, OnOk, OnErr};
ghost use Rattle.std.specs.Option.{option_map};
ghost use Rattle.mc_pages.specs.Changes.{after_clear};
ghost use Rattle.mc_pages.specs.Pages.{is_on_the_move};
ghost use Rattle.mc_core.specs.law.Seen.{seen_head};
ghost use Rattle.mc_core.specs.model.State.{has_chunk};
ghost use Rattle.mc_core.specs.declared.event.Step.TheVariants as step;
ghost use Rattle.mc_words.specs.hand.Arenas.{IsHandOf, setup_of, view};
ghost use Rattle.mc_words.specs.page.Owner as owner;
ghost use Rattle.mc_words.specs.page.Owner.{Clears, SeesOther};

use crate::arena::Arena;
use crate::hand::Hand;
use crate::hand::held::{Moved, SlabsHeld};
use crate::header::{TAG_UNIT, is_unused};
use mc_core::Step;
use mc_pages::ChunkId;

impl Arena {
    /// Takes a free or dead chunk of the moving page out of its class's lists. Nobody is handed it then, until the page is cut
    /// again. `Moved` where it is neither; but what the hand last saw free or dead under this hold of the slabs lock is so still.
    /// (slabs.c's `slab_rebalance_move`, where it finds `MOVE_FROM_SLAB`)
    pub fn clear(&self, hand: &mut Hand, held: &mut SlabsHeld, chunk: ChunkId) -> Result<(), Moved>
        requires arena { IsHandOf self.now hand.old }
        requires in_range { has_chunk (setup_of self.now).table chunk ≡ true }
        requires held { (view hand.old).slabs ≡ Some held.old.shared }
        requires moving { is_on_the_move held.old.shared chunk.page ≡ true }
        ensures arena { IsHandOf self.now hand.new }
        ensures locks { hand.new.locks ≡ hand.old.locks }
        ensures held { (view hand.new).slabs ≡ Some held.new.shared }
        ensures cleared { OnOk result (Clears (view hand.old) held.old.shared chunk (view hand.new)
            × (held.new.shared ≡ after_clear held.old.shared chunk)) }
        ensures moved { OnErr result (SeesOther (view hand.old) (Some chunk) (λ head.
            owner.is_unused head ≡ false) (view hand.new) × (held.new.shared ≡ held.old.shared)) }
        ensures succeeds { option_map owner.is_unused (seen_head (view hand.old).row.looks chunk)
            ≡ Some true → IsOk result }
    {
        let head = self.head(hand, chunk);
        if !is_unused(head) {
            return Err(Moved);
        }
        let word = self.head_word(chunk);
        let tag = head / TAG_UNIT % 4 * TAG_UNIT;
        self.subtract(&mut hand.seat, word, tag, Step::Clear(chunk));
        held.shared.slabs_mut().clear(chunk);
        Ok(())
    }
}
