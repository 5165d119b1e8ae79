//! Items that are unlinked from their keys.
ghost use Rattle.std.specs.Prelude.{◌≡◌, ℕ, ◌%◌, ◌&&◌, [], ◌∷◌, true, false, is_some, slice_index_or, None, Some};
ghost use Rattle.mc_stripe.specs.StripeState.{chunk_and_stamp};
ghost use Rattle.mc_core.specs.model.Holdings.{has_fresh};
ghost use Rattle.mc_core.specs.run.Items.{stripe_unlinked};
ghost use Rattle.mc_core.specs.run.Silent.{is_aside};
ghost use Rattle.mc_core.specs.declared.event.Change.TheVariants as change;
ghost use Rattle.mc_core.specs.declared.event.Step.TheVariants as step;
ghost use Rattle.mc_words.specs.hand.Arenas.{IsHandOf, setup_of, view};
ghost use Rattle.mc_words.specs.item.Calls.{key_not_deleted, key_unlinked};
ghost use Rattle.mc_words.specs.rule.Happens.{Happens};

use crate::arena::Arena;
use crate::hand::Hand;
use crate::hand::held::StripeHeld;
use crate::header::LINKED;
use mc_core::{Change, Step};
use mc_pages::ChunkId;
use mc_stripe::Key;

impl Arena {
    /// Unlinks the item of a key, whose stripe the hand has, which has room for a call. The item stays as long as there are
    /// references to it. A hand that fills a chunk only puts the key's entry aside, until it links that chunk; any other deletes
    /// the key. False where the key has no item, which is a delete of nothing. (memcached's `do_item_unlink`)
    pub fn unlink(&self, hand: &mut Hand, held: &mut StripeHeld, key: Key) -> bool
        requires arena { IsHandOf self.now hand.old }
        requires of_key { key % (setup_of self.now).config.stripes ≡ held.old.number }
        requires held { slice_index_or (view hand.old).stripes held.old.number None
            ≡ Some held.old.stripe }
        requires ready { held.old.stripe.ready ≡ true }
        requires inside { is_aside held.old.stripe.state key ≡ false }
        requires free { has_fresh (view hand.old).row.holdings ≡ true →
            held.old.stripe.state.aside ≡ None }
        ensures arena { IsHandOf self.now hand.new }
        ensures locks { hand.new.locks ≡ hand.old.locks }
        ensures number { held.new.number ≡ held.old.number }
        ensures held { slice_index_or (view hand.new).stripes held.new.number None
            ≡ Some held.new.stripe }
        ensures there { result ≡ is_some (chunk_and_stamp held.old.stripe.state key) }
        ensures stripe { held.new.stripe ≡ stripe_unlinked held.old.stripe
            (result && has_fresh (view hand.old).row.holdings) hand.old.number key }
        ensures happens { result ≡ true →
            Happens (view hand.old) [] (step.Unlink key) (view hand.new) }
        ensures unlinked { result ≡ true → view hand.new
            ≡ key_unlinked hand.old.number held.old.number held.old.stripe key (view hand.old) }
        ensures none { result ≡ false →
            Happens (view hand.old) (change.DeletedNone key ∷ []) (step.MissStripe held.old.number)
            (view hand.new) }
        ensures view { result ≡ false → view hand.new
            ≡ key_not_deleted hand.old.number held.old.number held.old.stripe key (view hand.old) }
    {
        let Some((chunk, stamp)) = held.stripe().find(key) else {
            self.tell_none(hand, held, key, Change::DeletedNone(key));
            held.stripe.stripe_mut().unlink(hand.number, key);
            return false;
        };
        let head = self.unlink_from(hand, held, key, chunk);
        self.hints.note_if_dead(chunk, head);
        if hand.has_fresh() {
            held.stripe.stripe_mut().lift_found(key, (chunk, stamp));
        } else {
            held.stripe.stripe_mut().unlink(hand.number, key);
        }
        true
    }

    /// Unlinks the item of a key, if it has one, for a hand that fills a chunk: the key's entry is put aside, until the hand links that
    /// chunk. False where the key has no item: nothing is done then, and no call is recorded. It looks the key up once. Where that leaves the
    /// item's chunk dead, the hand remembers the chunk, for `recover_own`. (items.c's `item_replace`, up to `do_item_link`)
    pub fn put_aside(&self, hand: &mut Hand, held: &mut StripeHeld, key: Key) -> bool
        requires arena { IsHandOf self.now hand.old }
        requires of_key { key % (setup_of self.now).config.stripes ≡ held.old.number }
        requires held { slice_index_or (view hand.old).stripes held.old.number None
            ≡ Some held.old.stripe }
        requires ready { held.old.stripe.ready ≡ true }
        requires inside { is_aside held.old.stripe.state key ≡ false }
        requires free { held.old.stripe.state.aside ≡ None }
        requires fresh { has_fresh (view hand.old).row.holdings ≡ true }
        ensures arena { IsHandOf self.now hand.new }
        ensures locks { hand.new.locks ≡ hand.old.locks }
        ensures number { held.new.number ≡ held.old.number }
        ensures held { slice_index_or (view hand.new).stripes held.new.number None
            ≡ Some held.new.stripe }
        ensures there { result ≡ is_some (chunk_and_stamp held.old.stripe.state key) }
        ensures stripe { result ≡ true → held.new.stripe
            ≡ stripe_unlinked held.old.stripe true hand.old.number key }
        ensures happens { result ≡ true →
            Happens (view hand.old) [] (step.Unlink key) (view hand.new) }
        ensures unlinked { result ≡ true → view hand.new
            ≡ key_unlinked hand.old.number held.old.number held.old.stripe key (view hand.old) }
        ensures same { result ≡ false → (held.new ≡ held.old) × (view hand.new ≡ view hand.old) }
    {
        let Some((item, stamp)) = held.stripe().find(key) else {
            return false;
        };
        let head = self.unlink_from(hand, held, key, item);
        hand.dead = self.hints.keep_if_dead(hand.dead, item, head);
        held.stripe.stripe_mut().lift_found(key, (item, stamp));
        true
    }

    // Takes the link away from the chunk to which the key leads, and returns the header that it leaves.
    fn unlink_from(&self, hand: &mut Hand, held: &StripeHeld, key: Key, chunk: ChunkId) -> u64
        requires arena { IsHandOf self.now hand.old }
        requires of_key { key % (setup_of self.now).config.stripes ≡ held.now.number }
        requires held { slice_index_or (view hand.old).stripes held.now.number None
            ≡ Some held.now.stripe }
        requires ready { held.now.stripe.ready ≡ true }
        requires inside { is_aside held.now.stripe.state key ≡ false }
        requires free { has_fresh (view hand.old).row.holdings ≡ true →
            held.now.stripe.state.aside ≡ None }
        requires leads { (stamp : ℕ) × (chunk_and_stamp held.now.stripe.state key
            ≡ Some (chunk, stamp)) }
        ensures arena { IsHandOf self.now hand.new }
        ensures locks { hand.new.locks ≡ hand.old.locks }
        ensures number { hand.new.number ≡ hand.old.number }
        ensures holdings { (view hand.new).row.holdings ≡ (view hand.old).row.holdings }
        ensures happens { Happens (view hand.old) [] (step.Unlink key) (view hand.new) }
        ensures unlinked { view hand.new ≡ key_unlinked hand.old.number held.now.number
            held.now.stripe key (view hand.old) }
    {
        let word = self.head_word(chunk);
        let found = self.subtract(&mut hand.seat, word, LINKED, Step::Unlink(key));
        found.wrapping_sub(LINKED)
    }
}
