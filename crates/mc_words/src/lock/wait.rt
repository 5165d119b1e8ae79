//! Locks that a hand waits for, which has no lock yet. No clause states that the lock ever comes. A try exchanges the lock's
//! word, and so takes its line of the cache from the hand that has it; after a miss the word is only read, until it is 0. (own)
ghost use Rattle.std.specs.Prelude.{◌≡◌, ◌<◌, true, []};
ghost use Rattle.mc_core.specs.declared.event.Step.TheVariants as step;
ghost use Rattle.mc_words.specs.hand.Arenas.{IsHandOf, setup_of, view};
ghost use Rattle.mc_words.specs.rule.Happens.{Happens};
ghost use Rattle.mc_words.specs.hand.Idle.{is_unlocked};
ghost use Rattle.mc_words.specs.lock.Lent.{IsLent, IsLentStripe};
ghost use Rattle.mc_words.specs.lock.Out.{locks_with_slabs, locks_with_stripe};
ghost use Rattle.mc_words.specs.hand.Views.{slabs_missed, stripe_missed};
ghost use Rattle.mc_words.specs.lock.Wait.{WaitsForSlabs, WaitsForStripe};

use crate::arena::Arena;
use crate::hand::Hand;
use crate::hand::held::{SlabsHeld, StripeHeld};
use crate::lock::locks::{Lock, SLABS_WORD};
use crossbeam_utils::Backoff;
use mc_core::Step;
use std::sync::Wait;

impl Arena {
    // The word of the lock of the slabs, as it is now. Whatever it is, the core's event is that of a miss.
    fn slabs_word(&self, hand: &mut Hand) -> u64
        requires arena { IsHandOf self.now hand.old }
        ensures arena { IsHandOf self.now hand.new }
        ensures locks { hand.new.locks ≡ hand.old.locks }
        ensures happens { Happens (view hand.old) [] step.MissSlabs (view hand.new) }
        ensures seen { view hand.new ≡ slabs_missed result (view hand.old) }
    {
        self.look(&mut hand.seat, SLABS_WORD, Step::MissSlabs)
    }

    // The word of a stripe's lock, as it is now. Whatever it is, the model's event is that of a miss.
    fn stripe_word(&self, hand: &mut Hand, stripe: u64) -> u64
        requires arena { IsHandOf self.now hand.old }
        requires in_range { stripe < (setup_of self.now).config.stripes }
        ensures arena { IsHandOf self.now hand.new }
        ensures locks { hand.new.locks ≡ hand.old.locks }
        ensures happens { Happens (view hand.old) [] (step.MissStripe stripe) (view hand.new) }
        ensures seen { view hand.new ≡ stripe_missed stripe result (view hand.old) }
    {
        let word = Lock::StripeLock(stripe).word();
        self.look(&mut hand.seat, word, Step::MissStripe(stripe))
    }

    /// Takes the lock of the slabs. Where it isn't free it reads the lock's word until it is, and tries again. After some looks it lets other
    /// threads run. That it waits is noted, for `rest`.
    #[inline(always)]
    pub fn lock_slabs<R: Wait>(&self, rt: &R, hand: &mut Hand) -> SlabsHeld
        requires arena { IsHandOf self.now hand.old }
        requires unlocked { is_unlocked (view hand.old) ≡ true }
        ensures arena { IsHandOf self.now hand.new }
        ensures locks { hand.new.locks ≡ locks_with_slabs hand.old.locks }
        ensures waits { WaitsForSlabs (view hand.old) result.shared (view hand.new) }
        ensures whole { IsLent (view hand.new) result.shared }
    {
        match self.try_slabs(hand) {
            Ok(slabs) => slabs,
            Err(_held) => self.wait_for_slabs(rt, hand),
        }
    }

    // Takes the lock of the slabs behind a try that missed it: the word is read first. That the hand waits is noted, for `rest`.
    #[inline(never)]
    fn wait_for_slabs<R: Wait>(&self, rt: &R, hand: &mut Hand) -> SlabsHeld
        requires arena { IsHandOf self.now hand.old }
        requires unlocked { is_unlocked (view hand.old) ≡ true }
        ensures arena { IsHandOf self.now hand.new }
        ensures locks { hand.new.locks ≡ locks_with_slabs hand.old.locks }
        ensures waits { WaitsForSlabs (view hand.old) result.shared (view hand.new) }
        ensures whole { IsLent (view hand.new) result.shared }
    {
        let backoff = Backoff::new();
        let mut free = false;
        for _ in rt.forever() {
            if free {
                if let Ok(held) = self.try_slabs(hand) {
                    return held;
                }
            }
            self.contention.note();
            backoff.snooze();
            free = self.slabs_word(hand) == 0;
        }
        unreachable!()
    }

    /// Takes the lock of a stripe. Where it isn't free it reads the lock's word until it is, and tries again. After some looks it lets other
    /// threads run.
    #[inline(always)]
    pub fn lock_stripe<R: Wait>(&self, rt: &R, hand: &mut Hand, stripe: u64) -> StripeHeld
        requires arena { IsHandOf self.now hand.old }
        requires in_range { stripe < (setup_of self.now).config.stripes }
        requires unlocked { is_unlocked (view hand.old) ≡ true }
        ensures arena { IsHandOf self.now hand.new }
        ensures number { result.number ≡ stripe }
        ensures locks { hand.new.locks ≡ locks_with_stripe stripe hand.old.locks }
        ensures waits { WaitsForStripe stripe (view hand.old) result.stripe (view hand.new) }
        ensures whole { IsLentStripe (view hand.new) stripe result.stripe }
    {
        match self.try_stripe(hand, stripe) {
            Ok(held) => held,
            Err(_held) => self.wait_for_stripe(rt, hand, stripe),
        }
    }

    // Takes the lock of a stripe behind a try that missed it: the word is read first.
    #[inline(never)]
    fn wait_for_stripe<R: Wait>(&self, rt: &R, hand: &mut Hand, stripe: u64) -> StripeHeld
        requires arena { IsHandOf self.now hand.old }
        requires in_range { stripe < (setup_of self.now).config.stripes }
        requires unlocked { is_unlocked (view hand.old) ≡ true }
        ensures arena { IsHandOf self.now hand.new }
        ensures number { result.number ≡ stripe }
        ensures locks { hand.new.locks ≡ locks_with_stripe stripe hand.old.locks }
        ensures waits { WaitsForStripe stripe (view hand.old) result.stripe (view hand.new) }
        ensures whole { IsLentStripe (view hand.new) stripe result.stripe }
    {
        let backoff = Backoff::new();
        let mut free = false;
        for _ in rt.forever() {
            if free {
                if let Ok(held) = self.try_stripe(hand, stripe) {
                    return held;
                }
            }
            backoff.snooze();
            free = self.stripe_word(hand, stripe) == 0;
        }
        unreachable!()
    }

    /// Where a hand has waited for the lock of the slabs since the last rest, this lets other threads run, n times. To be called
    /// by who takes that lock again and again and has it long, as a mover does: for a call that comes at once after the lock was
    /// given, nobody else gets in. It changes nothing that is proved, and no lock is to be held meanwhile. It waits, and so it
    /// takes the runtime. (own)
    pub fn rest<R: Wait>(&self, _rt: &R, times: u64) {
        if self.contention.take() {
            let backoff = Backoff::new();
            for _ in 0..times {
                backoff.snooze();
            }
        }
    }
}
