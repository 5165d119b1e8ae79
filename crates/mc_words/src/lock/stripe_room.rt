//! Stripes that make room for a call, or whose calls are trimmed or forgotten. No call is recorded by that, and each change is
//! recorded at once.
ghost use Rattle.std.specs.Prelude.{◌≡◌, ◌≤◌, ◌+◌, ◌^◌, ◌<◌, [], ◌∷◌, true, length, is_some, slice_index_or, None, Some, Err, IsOk, OnOk, OnErr};
ghost use Rattle.mc_stripe.specs.StripeState.{can_store};
ghost use Rattle.mc_stripe.specs.Changes.{after_reserve, after_reserve_call};
ghost use Rattle.mc_core.specs.run.Silent.{can_change_stripe, stripe_after};
ghost use Rattle.mc_core.specs.declared.event.Change.TheVariants as change;
ghost use Rattle.mc_core.specs.declared.event.Step.TheVariants as step;
ghost use Rattle.mc_core.specs.declared.event.StripeChange.TheVariants.{Reserve, ReserveCall, Trim as Trimmed, Forget};
ghost use Rattle.mc_words.specs.hand.Arenas.{IsHandOf, view};
ghost use Rattle.mc_words.specs.rule.Happens.{Happens};
ghost use Rattle.mc_words.specs.lock.Lent.{lent_stripe};
ghost use Rattle.mc_words.specs.hand.Views.{call_reserved, stripe_changed, stripe_reserved};

use crate::arena::Arena;
use crate::hand::Hand;
use crate::hand::held::StripeHeld;
use crate::lock::locks::Lock;
use mc_core::{Change, Step, StripeChange};
use mc_stripe::{NoMemory, Trim};

impl Arena {
    /// Makes room in a stripe for one more call on one of its keys, which stores no entry. Where there is room, or the stripe records no call, it
    /// takes no memory and isn't refused. (own)
    pub fn reserve_call(&self, hand: &mut Hand, held: &mut StripeHeld) -> Result<(), NoMemory>
        requires arena { IsHandOf self.now hand.old }
        requires held { slice_index_or (view hand.old).stripes held.old.number None
            ≡ Some held.old.stripe }
        ensures arena { IsHandOf self.now hand.new }
        ensures locks { hand.new.locks ≡ hand.old.locks }
        ensures number { held.new.number ≡ held.old.number }
        ensures held { slice_index_or (view hand.new).stripes held.new.number None
            ≡ Some held.new.stripe }
        ensures reserved { OnOk result (held.new ≡ record held.old
            { stripe = after_reserve_call held.old.stripe }) }
        ensures happens { OnOk result (Happens (view hand.old)
            (change.OfStripe held.old.number ReserveCall ∷ []) (step.MissStripe held.old.number)
            (view hand.new)) }
        ensures view { OnOk result (view hand.new
            ≡ call_reserved held.old.number held.old.stripe (hand.old.number + 1) (view hand.old)) }
        ensures succeeds { held.old.stripe.ready ≡ true → IsOk result }
        ensures idle { held.old.stripe.state.recorded_from ≡ None → IsOk result }
        ensures refused { OnErr result ((held.new ≡ held.old) × (view hand.new ≡ view hand.old)) }
    {
        held.stripe.stripe_mut().reserve_call()?;
        self.tell_change(hand, held.number, StripeChange::ReserveCall);
        Ok(())
    }

    /// Makes room in a stripe for one more call on one of its keys, and for the entry that it may store. Where there is room, it takes no
    /// memory. (own)
    pub fn reserve(&self, hand: &mut Hand, held: &mut StripeHeld) -> Result<(), NoMemory>
        requires arena { IsHandOf self.now hand.old }
        requires held { slice_index_or (view hand.old).stripes held.old.number None
            ≡ Some held.old.stripe }
        ensures arena { IsHandOf self.now hand.new }
        ensures locks { hand.new.locks ≡ hand.old.locks }
        ensures number { held.new.number ≡ held.old.number }
        ensures held { slice_index_or (view hand.new).stripes held.new.number None
            ≡ Some held.new.stripe }
        ensures reserved { OnOk result (held.new ≡ record held.old
            { stripe = after_reserve held.old.stripe }) }
        ensures happens { OnOk result (Happens (view hand.old)
            (change.OfStripe held.old.number Reserve ∷ []) (step.MissStripe held.old.number)
            (view hand.new)) }
        ensures view { OnOk result (view hand.new
            ≡ stripe_reserved held.old.number held.old.stripe (hand.old.number + 1)
            (view hand.old)) }
        ensures succeeds { can_store held.old.stripe ≡ true → IsOk result }
        ensures refused { OnErr result ((held.new ≡ held.old) × (view hand.new ≡ view hand.old)) }
    {
        held.stripe.stripe_mut().reserve()?;
        self.tell_change(hand, held.number, StripeChange::Reserve);
        Ok(())
    }

    /// The calls of a stripe so far aren't recorded any more, and what they left is copied. `Full`, which is tested first, exactly where
    /// the stripe records and the place of its next call would pass the greatest number of 64 bits. (see `Stripe::trim`)
    pub fn trim(&self, hand: &mut Hand, held: &mut StripeHeld) -> Result<(), Trim>
        requires arena { IsHandOf self.now hand.old }
        requires held { slice_index_or (view hand.old).stripes held.old.number None
            ≡ Some held.old.stripe }
        ensures arena { IsHandOf self.now hand.new }
        ensures locks { hand.new.locks ≡ hand.old.locks }
        ensures number { held.new.number ≡ held.old.number }
        ensures held { slice_index_or (view hand.new).stripes held.new.number None
            ≡ Some held.new.stripe }
        ensures trimmed { OnOk result (held.new ≡ record held.old
            { stripe = stripe_after Trimmed held.old.stripe }) }
        ensures happens { OnOk result (Happens (view hand.old)
            (change.OfStripe held.old.number Trimmed ∷ []) (step.MissStripe held.old.number)
            (view hand.new)) }
        ensures view { OnOk result (view hand.new
            ≡ stripe_changed Trimmed held.old.number held.old.stripe (hand.old.number + 1)
            (view hand.old)) }
        ensures full { result ≡ Err Trim.Full → (is_some held.old.stripe.state.recorded_from ≡ true)
            × (2 ^ 64 ≤ length held.old.stripe.state.history) }
        ensures first { is_some held.old.stripe.state.recorded_from ≡ true
            → 2 ^ 64 ≤ length held.old.stripe.state.history → result ≡ Err Trim.Full }
        ensures refused { OnErr result ((held.new ≡ held.old) × (view hand.new ≡ view hand.old)) }
    {
        held.stripe.stripe_mut().trim()?;
        self.tell_change(hand, held.number, StripeChange::Trim);
        Ok(())
    }

    /// No call of a stripe is recorded from now on, and none of those so far. (see `Stripe::forget`)
    pub fn forget(&self, hand: &mut Hand, held: &mut StripeHeld)
        requires arena { IsHandOf self.now hand.old }
        requires held { slice_index_or (view hand.old).stripes held.old.number None
            ≡ Some held.old.stripe }
        ensures arena { IsHandOf self.now hand.new }
        ensures locks { hand.new.locks ≡ hand.old.locks }
        ensures number { held.new.number ≡ held.old.number }
        ensures held { slice_index_or (view hand.new).stripes held.new.number None
            ≡ Some held.new.stripe }
        ensures forgets { held.new ≡ record held.old
            { stripe = stripe_after Forget held.old.stripe } }
        ensures happens { Happens (view hand.old) (change.OfStripe held.old.number Forget ∷ [])
            (step.MissStripe held.old.number) (view hand.new) }
        ensures view { view hand.new ≡ stripe_changed Forget held.old.number held.old.stripe
            (hand.old.number + 1) (view hand.old) }
    {
        held.stripe.stripe_mut().forget();
        self.tell_change(hand, held.number, StripeChange::Forget);
    }

    // Records that a stripe which the hand has got this change.
    fn tell_change(&self, hand: &mut Hand, stripe: u64, how: StripeChange)
        requires arena { IsHandOf self.now hand.old }
        requires held { slice_index_or (view hand.old).stripes stripe None
            ≡ Some (lent_stripe (view hand.old) stripe) }
        requires may { can_change_stripe how (lent_stripe (view hand.old) stripe).state ≡ true }
        ensures arena { IsHandOf self.now hand.new }
        ensures locks { hand.new.locks ≡ hand.old.locks }
        ensures held { slice_index_or (view hand.new).stripes stripe None
            ≡ Some (stripe_after how (lent_stripe (view hand.old) stripe)) }
        ensures happens { Happens (view hand.old) (change.OfStripe stripe how ∷ [])
            (step.MissStripe stripe) (view hand.new) }
        ensures view { view hand.new ≡ stripe_changed how stripe
            (lent_stripe (view hand.old) stripe) (hand.old.number + 1) (view hand.old) }
    {
        let word = Lock::StripeLock(stripe).word();
        let change = Change::OfStripe(stripe, how);
        self.tell(&mut hand.seat, word, change, Step::MissStripe(stripe));
    }
}
