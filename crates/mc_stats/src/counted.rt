//! What a call counts, by its result.
ghost use Rattle.std.specs.Prelude.{◌≡◌};
ghost use Rattle.mc_stats.specs.Counts.{counts_after_delete, counts_after_get, counts_after_refusal, counts_after_set, counts_after_set_if, counts_after_touch, counts_after_versioned_get, one_call_more};

use crate::counts::Counts;
use mc_cache::{CallError, Outcome, SetError};
use mc_stripe::Stamp;

impl Counts {
    // Counts a get, a peek or a look.
    pub(crate) fn count_get(&mut self, found: &Result<bool, CallError>)
        ensures { self.new ≡ counts_after_get found.now self.old }
    {
        match found {
            Ok(true) => self.get_hits = one_more(self.get_hits),
            Ok(false) => self.get_misses = one_more(self.get_misses),
            Err(_) => {}
        }
    }

    // Counts a get that returns the version of the value.
    pub(crate) fn count_versioned_get(&mut self, found: &Result<Option<Stamp>, CallError>)
        ensures { self.new ≡ counts_after_versioned_get found.now self.old }
    {
        match found {
            Ok(Some(_)) => self.get_hits = one_more(self.get_hits),
            Ok(None) => self.get_misses = one_more(self.get_misses),
            Err(_) => {}
        }
    }

    // Counts a set.
    pub(crate) fn count_set(&mut self, stored: &Result<(), SetError>)
        ensures { self.new ≡ counts_after_set stored.now self.old }
    {
        match stored {
            Ok(()) => self.sets_stored = one_more(self.sets_stored),
            Err(error) => self.count_refusal(error),
        }
    }

    // Counts a set on a condition.
    pub(crate) fn count_set_if(&mut self, outcome: &Result<Outcome, SetError>)
        ensures { self.new ≡ counts_after_set_if outcome.now self.old }
    {
        match outcome {
            Ok(Outcome::Stored(_)) => self.sets_stored = one_more(self.sets_stored),
            Ok(Outcome::Exists) => self.sets_unmet = one_more(self.sets_unmet),
            Ok(Outcome::Missing) => self.sets_unmet = one_more(self.sets_unmet),
            Err(error) => self.count_refusal(error),
        }
    }

    // Counts a set that was refused.
    fn count_refusal(&mut self, error: &SetError)
        ensures { self.new ≡ counts_after_refusal error.now self.old }
    {
        match error {
            SetError::KeyLength => {}
            SetError::Item(mc_items::SetError::TooLarge) => {
                self.store_too_large = one_more(self.store_too_large);
            }
            SetError::Item(_) => self.store_no_memory = one_more(self.store_no_memory),
        }
    }

    // Counts a delete.
    pub(crate) fn count_delete(&mut self, deleted: &Result<bool, CallError>)
        ensures { self.new ≡ counts_after_delete deleted.now self.old }
    {
        match deleted {
            Ok(true) => self.delete_hits = one_more(self.delete_hits),
            Ok(false) => self.delete_misses = one_more(self.delete_misses),
            Err(_) => {}
        }
    }

    // Counts a touch.
    pub(crate) fn count_touch(&mut self, found: &Result<bool, CallError>)
        ensures { self.new ≡ counts_after_touch found.now self.old }
    {
        match found {
            Ok(true) => self.touch_hits = one_more(self.touch_hits),
            Ok(false) => self.touch_misses = one_more(self.touch_misses),
            Err(_) => {}
        }
    }
}

// One call more, until there are 2^64 - 1.
fn one_more(count: u64) -> u64
    ensures { result ≡ one_call_more count }
{
    if count < u64::MAX { count + 1 } else { count }
}
