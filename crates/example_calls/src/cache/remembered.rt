//! A value that is in the cache, or is put there.
ghost use Rattle.std.specs.Prelude.{◌≡◌, ◌++◌, Ok};
ghost use Rattle.mc_cache.specs.Belonging.{BelongsTo, GivesValueOf};
ghost use Rattle.example_calls.specs.declared.cache.remembered.Answer.TheVariants as answer;

use mc_cache::{Cache, CallError, Worker};
use std::sync::Wait;

/// Where the value came from.
#[derive(Debug, PartialEq, Eq, Clone, Copy)]
pub enum Answer {
    /// The cache had it.
    Found,
    /// The cache was given it, if there was room.
    Made,
}

/// Puts the key's value behind the bytes that are there: the cache's, or else this one, which the cache is given for the next time.
pub fn remember<R: Wait>(
    rt: &R,
    cache: &Cache,
    worker: &mut Worker,
    key: &[u8],
    value: &[u8],
    into: &mut Vec<u8>,
) -> Result<Answer, CallError>
    requires { BelongsTo cache.now worker.old }
    ensures belongs { BelongsTo cache.now worker.new }
    ensures found { result ≡ Ok answer.Found →
        GivesValueOf cache.now key.now into.old.items into.new.items worker.old worker.new }
    ensures made { result ≡ Ok answer.Made → into.new.items ≡ into.old.items ++ value.now }
{
    match worker.get(rt, cache, key, into) {
        Ok(true) => Ok(Answer::Found),
        Ok(false) => {
            let _stored = worker.set(rt, cache, key, value); // a refusal leaves the value to the next call
            match mc_memory::extend_from_slice(into, value) {
                Ok(()) => Ok(Answer::Made),
                Err(refused) => Err(CallError::NoMemory(refused)),
            }
        }
        Err(error) => Err(error),
    }
}
