//! Locks that are taken and given: one construction of a word and a slot for all of them.
ghost use Rattle.std.specs.Prelude.{◌≡◌, ◌≢◌, ℕ, ◌+◌, ◌<◌, ◌∷◌, [], true, List, Some, None, IfSome};
ghost use Rattle.mc_classes.specs.Limits.{most_hands};
ghost use Rattle.mc_words.specs.declared.lock.locks.Lock.{Lock};
ghost use Rattle.mc_words.specs.declared.lock.slot.Slot.{Slot};
ghost use Rattle.mc_words.specs.hand.Arenas.{IsOfArena, setup_of};
ghost use Rattle.mc_words.specs.rule.Happens.{Happens, HappensAt, IsSameHand};
ghost use Rattle.mc_words.specs.rule.Layout.{lock_address};
ghost use Rattle.mc_words.specs.lock.Slots.{lock_number, slot_of};
ghost use Rattle.mc_words.specs.lock.Tries.{Gains, GivesValue, HasValue, IsLockOf, IsOneHand, Loses, may_be_given_back, give_of, miss_of, take_of};
ghost use Rattle.mc_words.specs.lock.Out.{slots_out};

use crate::arena::Arena;
use crate::lock::locks::Lock;
use crate::lock::slot::Slot;
use crate::rule::HandSeat;
use std::marker::Brand;
use std::mem::forget;

impl Arena {
    // Takes the lock, if its word is 0, and the value behind it out of its slot.
    #[inline(always)]
    pub(crate) fn take(&self, seat: &mut HandSeat, number: u64, lock: Lock) -> Option<Slot>
        ghost told: { Lock }
        requires is { told ≡ lock }
        requires in_range { IsLockOf (setup_of self.now) told }
        requires seat { IsOfArena self.now seat.old.table_id seat.old.me.0 }
        requires number { (seat.old.me.0.row.ids.number ≡ Some number) × (number < most_hands) }
        ensures seat { IsOfArena self.now seat.new.table_id seat.new.me.0 }
        ensures hand { IsOneHand seat.old.me.0 seat.new.me.0 }
        ensures value { IfSome result (λ slot. HasValue seat.new.me.0 told slot) }
        ensures out { IfSome result (λ slot. slots_out seat.new.me.1
            ≡ slot_of told ∷ slots_out seat.old.me.1) }
        ensures gains { IfSome result (λ slot. Gains told seat.old.me.0 seat.new.me.0) }
        ensures taken { IfSome result (λ slot. Happens seat.old.me.0 []
            (take_of told) seat.new.me.0) }
        ensures stays { result ≡ None → (seat.new.me.1 ≡ seat.old.me.1)
            × IsSameHand seat.old.me.0 seat.new.me.0 }
        ensures missed { result ≡ None → (word : ℕ) × (word ≢ 0)
            × HappensAt (lock_address (lock_number told)) word seat.old.me.0 []
            (miss_of told) seat.new.me.0 }
    {
        let word = lock.word();
        let slot = lock.slot();
        let shared = &self.table.shared;
        let found = shared.compare_exchange::<Brand>(seat, word, 0, number + 1);
        if found != 0 {
            return None;
        }
        Some(shared.exchange(seat, slot, Slot::Empty))
    }

    // Puts the value back into its slot, and gives the lock, which was taken last.
    #[inline(always)]
    pub(crate) fn give(&self, seat: &mut HandSeat, lock: Lock, value: Slot)
        ghost told: { Lock × Slot }
        requires is { told ≡ (lock, value) }
        requires in_range { IsLockOf (setup_of self.now) told.0 }
        requires seat { IsOfArena self.now seat.old.table_id seat.old.me.0 }
        requires last { (more : List ℕ) × (slots_out seat.old.me.1 ≡ slot_of told.0 ∷ more) }
        requires value { HasValue seat.old.me.0 told.0 told.1 }
        requires whole { may_be_given_back told.1 ≡ true }
        ensures seat { IsOfArena self.now seat.new.table_id seat.new.me.0 }
        ensures hand { IsOneHand seat.old.me.0 seat.new.me.0 }
        ensures out { slots_out seat.old.me.1 ≡ slot_of told.0 ∷ slots_out seat.new.me.1 }
        ensures loses { Loses told.0 seat.old.me.0 seat.new.me.0 }
        ensures given { Happens seat.old.me.0 [] (give_of told.0) seat.new.me.0 }
    {
        let word = lock.word();
        let slot = lock.slot();
        let shared = &self.table.shared;
        // the slot has been empty since the lock was taken, so nothing is lost
        forget(shared.exchange(seat, slot, value));
        shared.store::<Brand>(seat, word, 0);
    }
}
