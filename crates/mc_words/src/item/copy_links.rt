//! Copies of items that are linked in place of their originals.
ghost use Rattle.std.specs.Prelude.{◌≡◌, ◌%◌, [], true, slice_index_or, None, Some};
ghost use Rattle.mc_stripe.specs.StripeState.{chunk_and_stamp, can_store};
ghost use Rattle.mc_stripe.specs.Changes.{after_rescue, used_up};
ghost use Rattle.mc_core.specs.declared.event.Step.TheVariants as step;
ghost use Rattle.mc_words.specs.hand.Arenas.{IsHandOf, setup_of, view};
ghost use Rattle.mc_words.specs.item.Fresh.{IsFreshOf};
ghost use Rattle.mc_words.specs.rule.Happens.{Happens};
ghost use Rattle.mc_words.specs.item.Items.{issue_in, known_words_in};
ghost use Rattle.mc_words.specs.item.Links.{IsCopyFilled, copy_linked};
ghost use Rattle.mc_words.specs.item.Refs.{IsRefOf};

use crate::arena::Arena;
use crate::hand::Hand;
use crate::hand::held::{Fresh, StripeHeld};
use crate::header::{ISSUE_UNIT, LINKED};
use crate::item::refs::Ref;
use mc_core::Step;

impl Arena {
    /// Links the copy of an item that the hand took away, with the same key, stamp and words: from now on its key leads to the copy, and
    /// no entry is aside. No stamp is given out. The hand refers to the copy. (slabs.c's `slab_rebalance_move`, with `do_item_replace`)
    pub fn link_copy(&self, hand: &mut Hand, held: &mut StripeHeld, fresh: Fresh) -> Ref
        requires arena { IsHandOf self.now hand.old }
        requires held { slice_index_or (view hand.old).stripes held.old.number None
            ≡ Some held.old.stripe }
        requires fresh { IsFreshOf (view hand.old) fresh.chunk fresh.room }
        requires copy { IsCopyFilled (view hand.old) held.old.stripe.state fresh.chunk
            (issue_in (view hand.old) fresh.chunk) (known_words_in (view hand.old) fresh.chunk)
            fresh.key fresh.stamp }
        requires stripe { fresh.key % (setup_of self.now).config.stripes ≡ held.old.number }
        requires room { can_store held.old.stripe ≡ true }
        requires new { chunk_and_stamp held.old.stripe.state fresh.key ≡ None }
        ensures arena { IsHandOf self.now hand.new }
        ensures locks { hand.new.locks ≡ hand.old.locks }
        ensures number { held.new.number ≡ held.old.number }
        ensures held { slice_index_or (view hand.new).stripes held.new.number None
            ≡ Some held.new.stripe }
        ensures stored { held.new.stripe ≡ used_up
            (after_rescue held.old.stripe.state hand.old.number fresh.key fresh.chunk) }
        ensures happens { Happens (view hand.old) [] (step.Link fresh.chunk) (view hand.new) }
        ensures linked { view hand.new ≡ copy_linked hand.old.number held.old.number held.old.stripe
            fresh.key fresh.chunk (issue_in (view hand.old) fresh.chunk)
            (known_words_in (view hand.old) fresh.chunk) fresh.room (view hand.old) }
        ensures same { (result.chunk ≡ fresh.chunk)
            × (result.issue ≡ issue_in (view hand.old) fresh.chunk) × (result.room ≡ fresh.room) }
        ensures reference { IsRefOf (view hand.new) result.chunk result.room }
    {
        let Fresh {
            chunk,
            room,
            key,
            stamp: _,
        } = fresh;
        let word = self.head_word(chunk);
        let head = self.fetch_add(&mut hand.seat, word, LINKED, Step::Link(chunk));
        hand.fresh -= 1;
        held.stripe.stripe_mut().rescue(hand.number, key, chunk);
        let issue = head / ISSUE_UNIT;
        Ref { chunk, issue, room }
    }
}
