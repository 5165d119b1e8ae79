//! Locks that a hand tries for n times and then gives up. A caller that can't wait uses these calls: a static library can't. Nothing promises
//! that a try succeeds. (own)
ghost use Rattle.std.specs.Prelude.{◌≡◌, ◌<◌, true, IfOk, OnErr};
ghost use Rattle.mc_words.specs.hand.Arenas.{IsHandOf, setup_of, view};
ghost use Rattle.mc_words.specs.hand.Idle.{is_unlocked};
ghost use Rattle.mc_words.specs.lock.Lent.{IsLent, IsLentStripe};
ghost use Rattle.mc_words.specs.lock.Out.{locks_with_slabs, locks_with_stripe};
ghost use Rattle.mc_words.specs.lock.Wait.{MissesSlabsEachTime, MissesStripeEachTime, TakesSlabsWithin, TakesStripeWithin};

use crate::arena::Arena;
use crate::hand::Hand;
use crate::hand::held::{Held, SlabsHeld, StripeHeld};
use crossbeam_utils::Backoff;

impl Arena {
    /// Takes the lock of the slabs as `lock_slabs` does, but makes `tries` exchanges at most. Between two it spins, and doesn't wait. `Held` where
    /// each of them missed: nothing else was done. A miss is noted, for `rest`. With one try it is `try_slabs`. (own)
    pub fn slabs_within(&self, hand: &mut Hand, tries: u64) -> Result<SlabsHeld, Held>
        requires arena { IsHandOf self.now hand.old }
        ensures arena { IsHandOf self.now hand.new }
        ensures locks { IfOk result (λ held. hand.new.locks ≡ locks_with_slabs hand.old.locks) }
        ensures within { IfOk result (λ held. TakesSlabsWithin tries (view hand.old) held.shared
            (view hand.new)) }
        ensures whole { IfOk result (λ held. IsLent (view hand.new) held.shared) }
        ensures same { OnErr result (hand.new.locks ≡ hand.old.locks) }
        ensures missed { OnErr result (MissesSlabsEachTime tries (view hand.old) (view hand.new)) }
    {
        let backoff = Backoff::new();
        for _missed in 0..tries {
            if let Ok(held) = self.try_slabs(hand) {
                return Ok(held);
            }
            self.contention.note();
            backoff.spin();
        }
        Err(Held)
    }

    /// Takes the lock of a stripe as `lock_stripe` does, but makes `tries` exchanges at most, and spins between two. `Held` where each of them
    /// missed: nothing else was done. (own)
    pub fn stripe_within(
        &self,
        hand: &mut Hand,
        stripe: u64,
        tries: u64,
    ) -> Result<StripeHeld, Held>
        requires arena { IsHandOf self.now hand.old }
        requires in_range { stripe < (setup_of self.now).config.stripes }
        requires unlocked { is_unlocked (view hand.old) ≡ true }
        ensures arena { IsHandOf self.now hand.new }
        ensures number { IfOk result (λ held. held.number ≡ stripe) }
        ensures locks { IfOk result (λ held. hand.new.locks
            ≡ locks_with_stripe stripe hand.old.locks) }
        ensures within { IfOk result (λ held. TakesStripeWithin tries stripe
            (view hand.old) held.stripe (view hand.new)) }
        ensures whole { IfOk result (λ held. IsLentStripe (view hand.new) stripe held.stripe) }
        ensures same { OnErr result (hand.new.locks ≡ hand.old.locks) }
        ensures missed { OnErr result (MissesStripeEachTime tries stripe (view hand.old)
            (view hand.new)) }
    {
        let backoff = Backoff::new();
        for _missed in 0..tries {
            if let Ok(held) = self.try_stripe(hand, stripe) {
                return Ok(held);
            }
            backoff.spin();
        }
        Err(Held)
    }
}
