//! Items that are taken away under both locks.
ghost use Rattle.std.specs.Prelude.{◌≡◌, [], true, false, slice_index_or, None, Some, OnOk, OnErr};
ghost use Rattle.std.specs.Option.{option_map};
ghost use Rattle.mc_core.specs.run.Evictions.{has_copy};
ghost use Rattle.mc_core.specs.model.Head.{is_dead};
ghost use Rattle.mc_core.specs.law.Seen.{seen_head};
ghost use Rattle.mc_core.specs.model.State.{has_chunk};
ghost use Rattle.mc_words.specs.hand.Arenas.{IsHandOf, setup_of, view};
ghost use Rattle.mc_words.specs.item.Removal.{Condemns, FindsHeld, knows_reason, stripe_read};

use crate::arena::Arena;
use crate::hand::Hand;
use crate::hand::held::{Moved, SlabsHeld, StripeHeld};
use crate::header::{ISSUE_UNIT, LINKED, UNHELD};
use mc_core::Step;
use mc_pages::ChunkId;

impl Arena {
    /// Takes the item of a linked chunk that nobody holds away, and evicts its key, which the hand has read under this hold of the
    /// slabs lock. The chunk is dead then. `Moved` where it isn't linked, or somebody holds it. (items.c's `do_item_alloc_pull`,
    /// with `do_item_unlink_nolock`)
    pub fn condemn(
        &self,
        hand: &mut Hand,
        slabs: &mut SlabsHeld,
        stripe: &mut StripeHeld,
        chunk: ChunkId,
    ) -> Result<(), Moved>
        requires arena { IsHandOf self.now hand.old }
        requires in_range { has_chunk (setup_of self.now).table chunk ≡ true }
        requires slabs { (view hand.old).slabs ≡ Some slabs.old.shared }
        requires stripe { slice_index_or (view hand.old).stripes stripe.old.number None
            ≡ Some stripe.old.stripe }
        requires ready { stripe.old.stripe.ready ≡ true }
        requires key { stripe_read (view hand.old) chunk ≡ Some stripe.old.number }
        requires reason { knows_reason slabs.old.shared (view hand.old).row.looks
            (view hand.old).row.holdings chunk ≡ true }
        requires no_copy { has_copy (view hand.old).row.holdings chunk ≡ false }
        ensures arena { IsHandOf self.now hand.new }
        ensures locks { hand.new.locks ≡ hand.old.locks }
        ensures slabs { (view hand.new).slabs ≡ Some slabs.new.shared }
        ensures same_slabs { slabs.new ≡ slabs.old }
        ensures stripe { slice_index_or (view hand.new).stripes stripe.new.number None
            ≡ Some stripe.new.stripe }
        ensures number { stripe.new.number ≡ stripe.old.number }
        ensures condemned { OnOk result (Condemns hand.old.number stripe.old.number chunk
            stripe.old.stripe (view hand.old) stripe.new.stripe (view hand.new)) }
        ensures dead { OnOk result (option_map is_dead (seen_head (view hand.new).row.looks chunk)
            ≡ Some true) }
        ensures moved { OnErr result (FindsHeld (view hand.old) chunk (view hand.new)
            × (stripe.new ≡ stripe.old)) }
    {
        let key = self.word_held(hand, slabs, chunk, 0);
        let head = self.head(hand, chunk);
        if head % ISSUE_UNIT != UNHELD {
            return Err(Moved);
        }
        let word = self.head_word(chunk);
        let step = Step::Condemn(chunk);
        let look = Step::Head(chunk);
        let found = self.exchange(&mut hand.seat, word, head, head - LINKED, step, look);
        if found != head {
            return Err(Moved);
        }
        stripe.stripe.stripe_mut().evict(hand.number, key);
        Ok(())
    }
}
