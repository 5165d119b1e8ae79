//! A value that is got, or else made and added.
ghost use Rattle.std.specs.Prelude.{◌≡◌, ◌↔◌, Err, IfSome, None, Ok};
ghost use Rattle.std.specs.Fn.{FnOnceReturnsAtMut};
ghost use Rattle.mc_cache.specs.Belonging.{BelongsTo, KeepsHands};
ghost use Rattle.mc_cache.specs.Shards.{IsKey};
ghost use Rattle.mc_update.specs.Adding.{AddsMade, EndsAdding, GetsOrAddsValue, HasMade, MissesAdd};
ghost use Rattle.mc_update.specs.Updates.{FindsNoValue, stored_by};
ghost use Rattle.mc_update.specs.declared.adding.AddError.TheVariants as add_error;

use crate::updater::{Updater, stored_version};
use mc_cache::{Cache, CallError, SetError, When, Worker};
use mc_memory::Refused;
use mc_stripe::Stamp;
use std::mem::swap;
use std::sync::Wait;

/// Where the value comes from that a get or an add returned.
#[derive(Debug, PartialEq, Eq, Drop)]
pub enum Source {
    /// The key had it.
    Found,
    /// It was made, and is stored with this version.
    Added(Stamp),
    /// It was made, and isn't stored.
    Unstored(mc_items::SetError),
}

/// Why no value was got or added.
#[derive(Debug, PartialEq, Eq, Drop)]
pub enum AddError<E> {
    /// The key has no byte, or more than 250. Nothing was done.
    KeyLength,
    /// Memory was refused. The key has what it had.
    NoMemory(Refused),
    /// The value wasn't made.
    Make(E),
}

impl Updater {
    // Adds the value that was made. Where another worker stored one first, it gets that. None where that is gone again.
    fn add_once<R: Wait, E>(
        &mut self,
        rt: &R,
        cache: &Cache,
        worker: &mut Worker,
        key: &[u8],
    ) -> Option<Result<Source, AddError<E>>>
        requires { BelongsTo cache.now worker.old }
        ensures belongs { BelongsTo cache.now worker.new }
        ensures key { IfSome result (λ ended. (ended ≡ Err add_error.KeyLength) ↔ ¬ IsKey key.now) }
        ensures same { ¬ IsKey key.now → KeepsHands worker.old worker.new }
        ensures ends { IfSome result (λ ended. IsKey key.now → EndsAdding cache.now key.now
            (stored_by self.old) (stored_by self.new) ended worker.old worker.new) }
        ensures again { result ≡ None → IsKey key.now × MissesAdd cache.now key.now
            (stored_by self.old) (FindsNoValue cache.now key.now) worker.old worker.new }
        ensures kept { result ≡ None → stored_by self.new ≡ stored_by self.old }
    {
        let outcome = match worker.set_if(rt, cache, key, &self.new_value, When::Absent) {
            Ok(outcome) => outcome,
            Err(SetError::KeyLength) => return Some(Err(AddError::KeyLength)),
            Err(SetError::Item(error)) => return Some(Ok(Source::Unstored(error))),
        };
        match stored_version(outcome) {
            Some(stamp) => return Some(Ok(Source::Added(stamp))),
            None => self.old_value.clear(),
        }
        match worker.get(rt, cache, key, &mut self.old_value) {
            Ok(true) => {
                swap(&mut self.old_value, &mut self.new_value);
                Some(Ok(Source::Found))
            }
            Ok(false) => None,
            Err(CallError::KeyLength) => Some(Err(AddError::KeyLength)),
            Err(CallError::NoMemory(refused)) => Some(Err(AddError::NoMemory(refused))),
        }
    }

    // Adds the value that was made, until it is stored or another worker's value is found.
    fn add_made<R: Wait, E>(
        &mut self,
        rt: &R,
        cache: &Cache,
        worker: &mut Worker,
        key: &[u8],
    ) -> Result<Source, AddError<E>>
        requires { BelongsTo cache.now worker.old }
        ensures belongs { BelongsTo cache.now worker.new }
        ensures key { (result ≡ Err add_error.KeyLength) ↔ ¬ IsKey key.now }
        ensures same { ¬ IsKey key.now → KeepsHands worker.old worker.new }
        ensures adds { IsKey key.now → AddsMade cache.now key.now (stored_by self.old)
            (stored_by self.new) result worker.old worker.new }
    {
        for _ in rt.forever() {
            if let Some(result) = self.add_once(rt, cache, worker, key) {
                return result;
            }
        }
        unreachable!()
    }

    /// Gets the key's value. Where the key has none, `make` puts one behind no byte, and it is added: where another worker stored one
    /// meanwhile, that is got. [`Updater::value`] returns the bytes, also of a value that was made and isn't stored, as where no class has
    /// chunks for it. `make` is called once at most, and no lock is held meanwhile. The call waits for locks of the key's shard. (own)
    pub fn get_or_add<R: Wait, E, F: FnOnce(&mut Vec<u8>) -> Result<(), E>>(
        &mut self,
        rt: &R,
        cache: &Cache,
        worker: &mut Worker,
        key: &[u8],
        make: F,
    ) -> Result<Source, AddError<E>>
        requires belongs { BelongsTo cache.now worker.old }
        requires make { F.IsAlwaysCallable make }
        ensures belongs { BelongsTo cache.now worker.new }
        ensures key { (result ≡ Err add_error.KeyLength) ↔ ¬ IsKey key.now }
        ensures same { ¬ IsKey key.now → KeepsHands worker.old worker.new }
        ensures gets { IsKey key.now → GetsOrAddsValue cache.now key.now
            (λ made. HasMade (λ room filled. FnOnceReturnsAtMut F.FnOnce make room (Ok tt) filled)
            made) (stored_by self.new) result worker.old worker.new }
    {
        self.new_value.clear();
        match worker.get(rt, cache, key, &mut self.new_value) {
            Ok(true) => return Ok(Source::Found),
            Ok(false) => {}
            Err(CallError::KeyLength) => return Err(AddError::KeyLength),
            Err(CallError::NoMemory(refused)) => return Err(AddError::NoMemory(refused)),
        }
        if let Err(error) = make(&mut self.new_value) {
            return Err(AddError::Make(error));
        }
        self.add_made(rt, cache, worker, key)
    }
}
