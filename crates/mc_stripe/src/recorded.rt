//! The calls of a stripe: those that are recorded, and what the others leave.
ghost use Rattle.std.specs.Prelude.{◌≡◌, ◌≤◌, ◌^◌, ◌-◌, [], ◌∷◌, ◌++◌, true, length, min, Some, None, OnOk, OnErr, Err, IsOk, IfSome, is_some};
ghost use Rattle.mc_stripe.specs.Entries.{HasEachKeyOnce, by_key};
ghost use Rattle.mc_stripe.specs.History.{stamps_after_calls};
ghost use Rattle.mc_stripe.specs.Recorded.{CanRecord, count_trimmed, left_by_trimmed, recorded_calls, recorded_behind};
ghost use Rattle.mc_stripe.specs.StripeState.{index_stamps, with_aside};

use crate::history::{Call, Key, Stamp};
use crate::past::Past;
use crate::places::Places;
use crate::refusal::Trim;
use mc_memory::{Refused, reserve};
use std::alloc::Global;
use std::marker::Model;

/// All calls on a stripe's keys. The newest are in memory, or none is.
#[derive(Drop)]
pub(crate) struct Recorded {
    /// The calls that aren't in memory.
    past: Past,
    /// How many these are, or the greatest number if they are more.
    trimmed: u64,
    /// The keys and stamps that these leave, in no order. Empty where no call is recorded.
    base: Vec<(Key, Stamp)>,
    /// The calls behind them.
    tail: Vec<Call>,
    is_recorded: bool,
}

impl Model for Recorded {
    ghost use Rattle.mc_stripe.specs.Recorded.{Calls};

    ghost Value = { Calls };

    ghost use Rattle.mc_stripe.specs.InOrder.{calls_of, AreCallsRecorded};

    ghost view = { calls_of };

    ghost invariant = { AreCallsRecorded };
}

impl Recorded {
    /// No call is recorded yet.
    #[tactic(auto, using(crate::proofs::Once::once_empty))]
    pub(crate) fn new(alloc: Global) -> Recorded
        ensures all { result.all ≡ [] }
        ensures from { result.recorded_from ≡ Some 0 }
    {
        Recorded {
            past: Past::new(),
            trimmed: 0,
            base: Vec::new(alloc),
            tail: Vec::new(alloc),
            is_recorded: true,
        }
    }

    /// Makes room for one more call, if calls are recorded.
    pub(crate) fn reserve(&mut self) -> Result<(), Refused>
        ensures all { self.new.all ≡ self.old.all }
        ensures from { self.new.recorded_from ≡ self.old.recorded_from }
        ensures room { OnOk result (CanRecord self.new) }
        ensures kept { CanRecord self.old → CanRecord self.new }
        ensures succeeds { CanRecord self.old → IsOk result }
    {
        if self.is_recorded {
            reserve(&mut self.tail, 1)?;
        }
        Ok(())
    }

    /// The call comes behind the others.
    pub(crate) fn tell(&mut self, call: Call)
        requires { CanRecord self.old }
        ensures all { self.new.all ≡ self.old.all ++ call ∷ [] }
        ensures from { self.new.recorded_from ≡ self.old.recorded_from }
    {
        if self.is_recorded {
            self.tail.push(call).unwrap();
        } else {
            self.past = self.past.and(&[call]);
            self.trimmed = self.trimmed.saturating_add(1);
        }
    }

    /// The calls so far aren't recorded any more: they leave what index and entry aside have. Where none is recorded, nothing changes.
    pub(crate) fn trim(&mut self, places: &Places) -> Result<(), Trim>
        requires replayed { stamps_after_calls [] self.old.all
            ≡ Some (index_stamps (with_aside places.now.index places.now.aside)) }
        ensures all { self.new.all ≡ self.old.all }
        ensures from { OnOk result (self.new.recorded_from
            ≡ recorded_behind self.old.recorded_from (length self.old.all)) }
        ensures refused { OnErr result (self.new.recorded_from ≡ self.old.recorded_from) }
        ensures full { result ≡ Err Trim.Full → (is_some self.old.recorded_from ≡ true)
            × (2 ^ 64 ≤ length self.old.all) }
        ensures first { is_some self.old.recorded_from ≡ true → 2 ^ 64 ≤ length self.old.all →
            result ≡ Err Trim.Full }
        ensures idle { self.old.recorded_from ≡ None → IsOk result }
        ensures kept { CanRecord self.old → CanRecord self.new }
    {
        if !self.is_recorded {
            return Ok(());
        }
        let Some(trimmed) = self.trimmed.checked_add(self.tail.len() as u64) else {
            return Err(Trim::Full);
        };
        if let Err(refused) = places.copy_stamps(&mut self.base) {
            return Err(Trim::NoMemory(refused));
        }
        self.past = self.past.and(self.tail.as_slice());
        self.tail.clear();
        self.trimmed = trimmed;
        Ok(())
    }

    /// No call is recorded from now on, and none of those so far.
    #[tactic(auto, using(crate::proofs::Once::once_empty))]
    pub(crate) fn forget(&mut self)
        ensures all { self.new.all ≡ self.old.all }
        ensures from { self.new.recorded_from ≡ None }
    {
        self.past = self.past.and(self.tail.as_slice());
        self.trimmed = self.trimmed.saturating_add(self.tail.len() as u64);
        self.tail.truncate(0);
        self.base.clear();
        self.is_recorded = false;
    }

    /// How many calls aren't recorded, or the greatest number if they are more, which can be only where no call is recorded.
    pub(crate) fn trimmed(&self) -> u64
        ensures trimmed { result ≡ min (count_trimmed self.now.all self.now.recorded_from)
            (2 ^ 64 - 1) }
        ensures exact { IfSome self.now.recorded_from (λ from. result ≡ from) }
    {
        self.trimmed
    }

    /// What the calls that aren't recorded left, where others are.
    pub(crate) fn base(&self) -> Option<&[(Key, Stamp)]>
        ensures base { IfSome result (λ base. by_key base.now
            ≡ left_by_trimmed self.now.all self.now.recorded_from) }
        ensures each_once { IfSome result (λ base. HasEachKeyOnce base.now) }
        ensures some { is_some result ≡ is_some self.now.recorded_from }
    {
        if !self.is_recorded {
            return None;
        }
        Some(self.base.as_slice())
    }

    /// The calls that are recorded, the oldest first.
    pub(crate) fn tail(&self) -> &[Call]
        ensures { result.now ≡ recorded_calls self.now.all self.now.recorded_from }
    {
        self.tail.as_slice()
    }
}
