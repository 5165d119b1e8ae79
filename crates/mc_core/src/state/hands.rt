//! Hands that become one.
ghost use Rattle.std.specs.Prelude.{◌≡◌, ◌<◌, length};
ghost use Rattle.mc_core.specs.run.Hands.{hand_has_no_stripe, is_hand_idle, can_join, after_join};

use super::State;
use super::columns::is_held_by;
use crate::ids::Ids;

impl State {
    /// Whether the hand has the lock of no stripe.
    fn has_no_stripe(&self, hand: u64) -> bool
        ensures { result ≡ hand_has_no_stripe self.now hand }
    {
        let number = self.number(hand);
        self.stripe_locks
            .iter()
            .all(|word| !is_held_by(*word, number))
    }

    /// Whether the hand has no lock and no chunk.
    fn is_idle(&self, hand: u64) -> bool
        requires { hand < length self.now.ids }
        ensures { result ≡ is_hand_idle self.now hand }
    {
        !self.has_slabs(hand) && self.has_no_stripe(hand) && self.holdings(hand).len() == 0
    }

    /// Whether the first hand may take over the second.
    pub(super) fn can_join(&self, hand: u64, kept: u64, spent: u64) -> bool
        requires { hand < length self.now.ids }
        ensures { result ≡ can_join self.now hand kept spent }
    {
        hand == kept
            && kept != spent
            && self.number(spent).is_some()
            && self.is_idle(kept)
            && self.is_idle(spent)
    }

    /// The spent hand is gone.
    pub(super) fn join(&mut self, spent: u64)
        requires { spent < length self.old.ids }
        ensures { self.new ≡ after_join self.old spent }
    {
        self.ids[spent as usize] = Ids {
            number: None,
            stamps: 0,
        };
        self.forget(spent);
    }
}
