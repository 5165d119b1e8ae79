//! Counters: values that write a number in decimal digits.
ghost use Rattle.std.specs.Prelude.{◌≡◌, ◌↔◌, Err, IfErr, IfOk, IfSome, None, Ok};
ghost use Rattle.mc_cache.specs.Belonging.{BelongsTo, KeepsHands};
ghost use Rattle.mc_cache.specs.Shards.{IsKey};
ghost use Rattle.mc_script.specs.Words.{parsed_number};
ghost use Rattle.mc_update.specs.Counting.{CountsValue};
ghost use Rattle.mc_update.specs.Updates.{stored_by};
ghost use Rattle.mc_update.specs.declared.change.Change.TheVariants.{Decrement, Increment};
ghost use Rattle.mc_update.specs.declared.updater.ChangeError.TheVariants as change_error;

use crate::change::Change;
use crate::updater::{ChangeError, Updater};
use mc_cache::{Cache, Worker};
use mc_script::number::number;
use mc_stripe::Stamp;
use std::sync::Wait;

impl Updater {
    /// Adds to the number that the key's value writes, and returns the sum, which is 0 again behind 2^64 - 1. None where the key has no
    /// value. (memcached's `incr`)
    pub fn increment<R: Wait>(
        &mut self,
        rt: &R,
        cache: &Cache,
        worker: &mut Worker,
        key: &[u8],
        by: u64,
    ) -> Result<Option<u64>, ChangeError>
        requires { BelongsTo cache.now worker.old }
        ensures belongs { BelongsTo cache.now worker.new }
        ensures key { (result ≡ Err change_error.KeyLength) ↔ ¬ IsKey key.now }
        ensures same { ¬ IsKey key.now → KeepsHands worker.old worker.new }
        ensures counts { IsKey key.now → CountsValue cache.now key.now (Increment by)
            (stored_by self.new) result worker.old worker.new }
    {
        let changed = self.change_value(rt, cache, worker, key, Change::Increment(by));
        number_of(changed, &self.new_value)
    }

    /// Takes from the number that the key's value writes, and returns what is left, which is 0 where it would be less. None where the key
    /// has no value. (memcached's `decr`)
    pub fn decrement<R: Wait>(
        &mut self,
        rt: &R,
        cache: &Cache,
        worker: &mut Worker,
        key: &[u8],
        by: u64,
    ) -> Result<Option<u64>, ChangeError>
        requires { BelongsTo cache.now worker.old }
        ensures belongs { BelongsTo cache.now worker.new }
        ensures key { (result ≡ Err change_error.KeyLength) ↔ ¬ IsKey key.now }
        ensures same { ¬ IsKey key.now → KeepsHands worker.old worker.new }
        ensures counts { IsKey key.now → CountsValue cache.now key.now (Decrement by)
            (stored_by self.new) result worker.old worker.new }
    {
        let changed = self.change_value(rt, cache, worker, key, Change::Decrement(by));
        number_of(changed, &self.new_value)
    }
}

// What a count returns behind a change that stored these bytes.
fn number_of(
    changed: Result<Option<Stamp>, ChangeError>,
    value: &[u8],
) -> Result<Option<u64>, ChangeError>
    ensures stored { IfOk changed (λ found. IfSome found (λ stamp. result ≡ Ok (parsed_number value.now))) }
    ensures none { changed ≡ Ok None → result ≡ Ok None }
    ensures refused { IfErr changed (λ error. result ≡ Err error) }
{
    match changed {
        Ok(Some(_stamp)) => Ok(number(value)),
        Ok(None) => Ok(None),
        Err(error) => Err(error),
    }
}
