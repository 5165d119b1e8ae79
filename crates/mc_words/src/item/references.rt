//! References to the items that keys lead to.
ghost use Rattle.std.specs.Prelude.{◌≡◌, ℕ, ◌<◌, ◌≤◌, ◌%◌, ◌↔◌, [], ◌∷◌, true, false, length, slice_index_or, None, Some, Ok, IfOk, IfSome, IsErr, OnOk, OnErr};
ghost use Rattle.mc_stripe.specs.Changes.{after_got, used_up};
ghost use Rattle.mc_stripe.specs.StripeState.{chunk_and_stamp};
ghost use Rattle.mc_core.specs.run.Silent.{is_aside};
ghost use Rattle.mc_core.specs.declared.event.Change.TheVariants as change;
ghost use Rattle.mc_core.specs.declared.event.Step.TheVariants as step;
ghost use Rattle.mc_core.specs.run.Chunks.{most_holdings};
ghost use Rattle.mc_words.specs.hand.Arenas.{IsHandOf, setup_of, view};
ghost use Rattle.mc_words.specs.item.Calls.{key_missed};
ghost use Rattle.mc_words.specs.rule.Happens.{Happens};
ghost use Rattle.mc_words.specs.item.References.{GetsItem};
ghost use Rattle.mc_words.specs.item.Refs.{IsIssueOf, IsRefOf};

use crate::arena::Arena;
use crate::hand::Hand;
use crate::hand::held::{StripeHeld, TooManyRefs};
use crate::header::ISSUE_UNIT;
use crate::item::refs::Ref;
use mc_core::{Change, MOST_HOLDINGS, Step};
use mc_pages::ChunkId;
use mc_stripe::Key;

impl Arena {
    /// Looks a key up once, whose stripe the hand has, and gets a reference to its item. None where the key has no item. Either is
    /// told to the stripe, which has room for a call. A hand that holds `MOST_HOLDINGS` chunks is refused. (memcached's `do_item_get`)
    pub fn refer(
        &self,
        hand: &mut Hand,
        held: &mut StripeHeld,
        key: Key,
    ) -> Result<Option<Ref>, TooManyRefs>
        requires arena { IsHandOf self.now hand.old }
        requires of_key { key % (setup_of self.now).config.stripes ≡ held.old.number }
        requires held { slice_index_or (view hand.old).stripes held.old.number None
            ≡ Some held.old.stripe }
        requires ready { held.old.stripe.ready ≡ true }
        requires inside { is_aside held.old.stripe.state key ≡ false }
        ensures arena { IsHandOf self.now hand.new }
        ensures locks { hand.new.locks ≡ hand.old.locks }
        ensures number { held.new.number ≡ held.old.number }
        ensures held { slice_index_or (view hand.new).stripes held.new.number None
            ≡ Some held.new.stripe }
        ensures records { OnOk result (held.new.stripe
            ≡ used_up (after_got held.old.stripe.state hand.old.number key)) }
        ensures gets { IfOk result (λ found. IfSome found (λ r.
            GetsItem (view hand.old) hand.old.number held.old.number held.old.stripe key r.chunk
            r.issue r.room (view hand.new))) }
        ensures reference { IfOk result (λ found.
            IfSome found (λ r. IsRefOf (view hand.new) r.chunk r.room
            × IsIssueOf (view hand.new) r.chunk r.issue)) }
        ensures none { result ≡ Ok None → (chunk_and_stamp held.old.stripe.state key ≡ None)
            × Happens (view hand.old) (change.GotNone key ∷ []) (step.MissStripe held.old.number)
            (view hand.new) }
        ensures view { result ≡ Ok None → view hand.new
            ≡ key_missed hand.old.number held.old.number held.old.stripe key (view hand.old) }
        ensures at_limit { IsErr result ↔ (most_holdings ≤ length (view hand.old).row.holdings) }
        ensures refused { OnErr result ((held.new ≡ held.old) × (view hand.new ≡ view hand.old)) }
    {
        if hand.chunks >= MOST_HOLDINGS {
            return Err(TooManyRefs);
        }
        Ok(self.refer_within(hand, held, key))
    }

    /// The same for a hand that holds fewer than `MOST_HOLDINGS` chunks.
    #[inline(always)]
    pub fn refer_within(&self, hand: &mut Hand, held: &mut StripeHeld, key: Key) -> Option<Ref>
        requires arena { IsHandOf self.now hand.old }
        requires of_key { key % (setup_of self.now).config.stripes ≡ held.old.number }
        requires held { slice_index_or (view hand.old).stripes held.old.number None
            ≡ Some held.old.stripe }
        requires ready { held.old.stripe.ready ≡ true }
        requires inside { is_aside held.old.stripe.state key ≡ false }
        requires within_limit { length (view hand.old).row.holdings < most_holdings }
        ensures arena { IsHandOf self.now hand.new }
        ensures locks { hand.new.locks ≡ hand.old.locks }
        ensures number { held.new.number ≡ held.old.number }
        ensures held { slice_index_or (view hand.new).stripes held.new.number None
            ≡ Some held.new.stripe }
        ensures records { held.new.stripe ≡ used_up
            (after_got held.old.stripe.state hand.old.number key) }
        ensures gets { IfSome result (λ r. GetsItem
            (view hand.old) hand.old.number held.old.number held.old.stripe key r.chunk r.issue
            r.room (view hand.new)) }
        ensures reference { IfSome result (λ r. IsRefOf (view hand.new) r.chunk r.room
            × IsIssueOf (view hand.new) r.chunk r.issue) }
        ensures none { result ≡ None → (chunk_and_stamp held.old.stripe.state key ≡ None)
            × Happens (view hand.old) (change.GotNone key ∷ []) (step.MissStripe held.old.number)
            (view hand.new) }
        ensures view { result ≡ None → view hand.new
            ≡ key_missed hand.old.number held.old.number held.old.stripe key (view hand.old) }
    {
        let place = held.stripe().find(key);
        let Some((chunk, _)) = place else {
            self.tell_none(hand, held, key, Change::GotNone(key));
            held.stripe.stripe_mut().got(hand.number, key, None);
            return None;
        };
        let reference = self.refer_to(hand, held, key, chunk);
        held.stripe.stripe_mut().got(hand.number, key, place);
        Some(reference)
    }

    // A reference to the item of a key that leads to this chunk.
    fn refer_to(&self, hand: &mut Hand, held: &StripeHeld, key: Key, chunk: ChunkId) -> Ref
        requires arena { IsHandOf self.now hand.old }
        requires of_key { key % (setup_of self.now).config.stripes ≡ held.now.number }
        requires held { slice_index_or (view hand.old).stripes held.now.number None
            ≡ Some held.now.stripe }
        requires ready { held.now.stripe.ready ≡ true }
        requires inside { is_aside held.now.stripe.state key ≡ false }
        requires leads { (stamp : ℕ) × (chunk_and_stamp held.now.stripe.state key
            ≡ Some (chunk, stamp)) }
        requires within_limit { length (view hand.old).row.holdings < most_holdings }
        ensures arena { IsHandOf self.now hand.new }
        ensures locks { hand.new.locks ≡ hand.old.locks }
        ensures number { hand.new.number ≡ hand.old.number }
        ensures gets { GetsItem (view hand.old) hand.old.number held.now.number held.now.stripe key
            result.chunk result.issue result.room (view hand.new) }
        ensures reference { IsRefOf (view hand.new) result.chunk result.room
            × IsIssueOf (view hand.new) result.chunk result.issue }
    {
        let word = self.head_word(chunk);
        let found = self.fetch_add(&mut hand.seat, word, 1, Step::Refer(key));
        hand.chunks += 1;
        let issue = found / ISSUE_UNIT;
        let room = self.room(hand, chunk);
        Ref { chunk, issue, room }
    }
}
