//! Looks at words, and the locks that are taken and given.
ghost use Rattle.std.specs.Prelude.{◌≡◌, ◌<◌, length, is_none, OnOk};
ghost use Rattle.mc_core.specs.model.State.{stripe_at};
ghost use Rattle.mc_core.specs.run.Locks.{after_look, has_stripes, after_miss_stripe, can_take_slabs, after_take_slabs, can_take_stripe, after_take_stripe, can_give_slabs, after_give_slabs, can_give_stripe, after_give_stripe, with_stripe_lock};

use super::State;
use crate::look::Look;
use mc_memory::Refused;
use mc_pages::ChunkId;

impl State {
    /// The hand looks at a header.
    pub(super) fn look(&mut self, hand: u64, chunk: ChunkId) -> Result<(), Refused>
        requires { hand < length self.old.ids }
        ensures { OnOk result (self.new ≡ after_look self.old hand chunk) }
    {
        let head = self.head(chunk);
        self.note_if_held(hand, Look::Saw(chunk, head))
    }

    /// Whether the arena has the stripe.
    pub(super) fn has_stripes(&self, stripe: u64) -> bool
        ensures { result ≡ has_stripes self.now stripe }
    {
        stripe < self.stripe_locks.len() as u64
    }

    /// The hand looks at the word of a stripe's lock.
    pub(super) fn miss_stripe(&mut self, hand: u64, stripe: u64) -> Result<(), Refused>
        requires { hand < length self.old.ids }
        ensures { OnOk result (self.new ≡ after_miss_stripe self.old hand stripe) }
    {
        let word = self.stripe_lock(stripe);
        self.note_if_held(hand, Look::SawStripe(stripe, word))
    }

    /// Whether the slabs lock is free.
    pub(super) fn can_take_slabs(&self) -> bool
        ensures { result ≡ can_take_slabs self.now }
    {
        self.slabs_lock == 0
    }

    /// The hand takes the slabs lock, and has seen nothing yet.
    pub(super) fn take_slabs(&mut self, hand: u64)
        requires { hand < length self.old.ids }
        ensures { self.new ≡ after_take_slabs self.old hand }
    {
        self.slabs_lock = self.lock_word(hand);
        self.forget(hand);
    }

    /// Whether the arena has the stripe, and its lock is free.
    pub(super) fn can_take_stripe(&self, stripe: u64) -> bool
        ensures { result ≡ can_take_stripe self.now stripe }
    {
        self.has_stripes(stripe) && self.stripe_lock(stripe) == 0
    }

    /// Writes the word of a stripe's lock.
    fn set_stripe_lock(&mut self, stripe: u64, word: u64)
        ensures { self.new ≡ with_stripe_lock self.old stripe word }
    {
        if stripe < self.stripe_locks.len() as u64 {
            self.stripe_locks[stripe as usize] = word;
        }
    }

    /// The hand takes the lock of the stripe.
    pub(super) fn take_stripe(&mut self, hand: u64, stripe: u64)
        ensures { self.new ≡ after_take_stripe self.old hand stripe }
    {
        let word = self.lock_word(hand);
        self.set_stripe_lock(stripe, word);
    }

    /// Whether the hand has the slabs lock and no page is half cut.
    pub(super) fn can_give_slabs(&self, hand: u64) -> bool
        ensures { result ≡ can_give_slabs self.now hand }
    {
        self.has_slabs(hand) && self.none_half_cut()
    }

    /// The slabs lock is given back.
    pub(super) fn give_slabs(&mut self)
        ensures { self.new ≡ after_give_slabs self.old }
    {
        self.slabs_lock = 0;
    }

    /// Whether the hand has the lock of the stripe and none of its entries is aside.
    pub(super) fn can_give_stripe(&self, hand: u64, stripe: u64) -> bool
        ensures { result ≡ can_give_stripe self.now hand stripe }
    {
        self.has_stripe(hand, stripe) && self.has_none_aside(stripe)
    }

    /// Whether no entry of the stripe is aside.
    pub(super) fn has_none_aside(&self, stripe: u64) -> bool
        ensures { result ≡ is_none (stripe_at self.now stripe).state.aside }
    {
        if stripe >= self.stripes.len() as u64 {
            return true;
        }
        let stripe = &self.stripes[stripe as usize];
        stripe.aside().is_none()
    }

    /// The lock of the stripe is given back.
    pub(super) fn give_stripe(&mut self, stripe: u64)
        ensures { self.new ≡ after_give_stripe self.old stripe }
    {
        self.set_stripe_lock(stripe, 0);
    }
}
