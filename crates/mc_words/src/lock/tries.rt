//! The locks of the slabs and of stripes: one try that takes a lock, and the call that gives it back.
ghost use Rattle.std.specs.Prelude.{◌≡◌, ◌≢◌, ℕ, ◌<◌, [], true, slice_index_or, None, Some, IfOk, OnErr};
ghost use Rattle.mc_core.specs.declared.event.Step.TheVariants as step;
ghost use Rattle.mc_core.specs.run.Silent.{none_half_cut};
ghost use Rattle.mc_words.specs.hand.Arenas.{IsHandOf, setup_of, view};
ghost use Rattle.mc_words.specs.rule.Happens.{Happens};
ghost use Rattle.mc_words.specs.lock.Lent.{BeginsWithSeen, IsLent, IsLentStripe};
ghost use Rattle.mc_words.specs.hand.Idle.{has_no_stripes};
ghost use Rattle.mc_words.specs.lock.Out.{locks_with_slabs, locks_with_stripe, without_slabs, without_stripe};
ghost use Rattle.mc_words.specs.hand.Views.{slabs_given, slabs_missed, slabs_taken, stripe_given, stripe_missed, stripe_taken};

use crate::arena::Arena;
use crate::hand::Hand;
use crate::hand::held::{Held, SlabsHeld, StripeHeld};
use crate::lock::locks::Lock;
use crate::lock::slot::Slot;

impl Arena {
    /// Takes the lock of the slabs, if it is free.
    pub fn try_slabs(&self, hand: &mut Hand) -> Result<SlabsHeld, Held>
        requires arena { IsHandOf self.now hand.old }
        ensures arena { IsHandOf self.now hand.new }
        ensures locks { IfOk result (λ held. hand.new.locks ≡ locks_with_slabs hand.old.locks) }
        ensures taken { IfOk result (λ held. Happens (view hand.old) [] step.TakeSlabs
            (view hand.new)) }
        ensures lent { IfOk result (λ held. view hand.new
            ≡ slabs_taken held.shared (view hand.old)) }
        ensures whole { IfOk result (λ held. IsLent (view hand.new) held.shared) }
        ensures same { OnErr result (hand.new.locks ≡ hand.old.locks) }
        ensures missed { OnErr result (Happens (view hand.old) [] step.MissSlabs (view hand.new)) }
        ensures held { OnErr result ((word : ℕ) × (word ≢ 0)
            × (view hand.new ≡ slabs_missed word (view hand.old))) }
    {
        match self.take(&mut hand.seat, hand.number, Lock::SlabsLock) {
            Some(Slot::OfSlabs(shared)) => {
                hand.locks = hand.locks.with_slabs();
                Ok(SlabsHeld { shared })
            }
            Some(_) => unreachable!(),
            None => Err(Held),
        }
    }

    /// Takes the lock of a stripe, if it is free, for a hand that has no stripe's.
    pub fn try_stripe(&self, hand: &mut Hand, stripe: u64) -> Result<StripeHeld, Held>
        requires arena { IsHandOf self.now hand.old }
        requires in_range { stripe < (setup_of self.now).config.stripes }
        requires one { has_no_stripes (view hand.old) ≡ true }
        ensures arena { IsHandOf self.now hand.new }
        ensures number { IfOk result (λ held. held.number ≡ stripe) }
        ensures locks { IfOk result (λ held. hand.new.locks
            ≡ locks_with_stripe stripe hand.old.locks) }
        ensures taken { IfOk result (λ held. Happens (view hand.old) [] (step.TakeStripe stripe)
            (view hand.new)) }
        ensures lent { IfOk result (λ held. view hand.new
            ≡ stripe_taken stripe held.stripe (view hand.old)) }
        ensures whole { IfOk result (λ held. IsLentStripe (view hand.new) stripe held.stripe) }
        ensures seen { IfOk result (λ held. BeginsWithSeen (view hand.old) stripe held.stripe) }
        ensures same { OnErr result (hand.new.locks ≡ hand.old.locks) }
        ensures missed { OnErr result (Happens (view hand.old) [] (step.MissStripe stripe)
            (view hand.new)) }
        ensures held { OnErr result ((word : ℕ) × (word ≢ 0)
            × (view hand.new ≡ stripe_missed stripe word (view hand.old))) }
    {
        match self.take(&mut hand.seat, hand.number, Lock::StripeLock(stripe)) {
            Some(Slot::OfStripe(value)) => {
                hand.locks.add_stripe(stripe);
                Ok(StripeHeld {
                    number: stripe,
                    stripe: value,
                })
            }
            Some(_) => unreachable!(),
            None => Err(Held),
        }
    }

    /// Gives the lock of the slabs back, with pages and lists of which no page is half cut.
    pub fn give_slabs(&self, hand: &mut Hand, held: SlabsHeld)
        requires arena { IsHandOf self.now hand.old }
        requires held { (view hand.old).slabs ≡ Some held.shared }
        requires whole { none_half_cut held.shared ≡ true }
        ensures arena { IsHandOf self.now hand.new }
        ensures locks { hand.new.locks ≡ without_slabs hand.old.locks }
        ensures given { Happens (view hand.old) [] step.GiveSlabs (view hand.new) }
        ensures left { view hand.new ≡ slabs_given held.shared (view hand.old) }
    {
        let SlabsHeld { shared } = held;
        hand.bring_forward(Lock::SlabsLock);
        self.give(&mut hand.seat, Lock::SlabsLock, Slot::OfSlabs(shared));
        hand.locks = hand.locks.without_slabs();
    }

    /// Gives a stripe's lock back, with no entry aside.
    pub fn give_stripe(&self, hand: &mut Hand, held: StripeHeld)
        requires arena { IsHandOf self.now hand.old }
        requires in_range { held.number < (setup_of self.now).config.stripes }
        requires held { slice_index_or (view hand.old).stripes held.number None ≡ Some held.stripe }
        requires empty { held.stripe.state.aside ≡ None }
        ensures arena { IsHandOf self.now hand.new }
        ensures locks { hand.new.locks ≡ without_stripe hand.old.locks }
        ensures given { Happens (view hand.old) [] (step.GiveStripe held.number) (view hand.new) }
        ensures left { view hand.new ≡ stripe_given held.number held.stripe (view hand.old) }
    {
        let StripeHeld { number, stripe } = held;
        hand.bring_forward(Lock::StripeLock(number));
        self.give(
            &mut hand.seat,
            Lock::StripeLock(number),
            Slot::OfStripe(stripe),
        );
        hand.locks = hand.locks.without_stripe();
    }
}
