//! A value that is deleted where it is still the one that was got.
ghost use Rattle.std.specs.Prelude.{◌≡◌, Ok};
ghost use Rattle.mc_cache.specs.Belonging.{BelongsTo};
ghost use Rattle.mc_shard.specs.declared.deleting_version.Deletion.TheVariants as deletion;
ghost use Rattle.example_calls.specs.Cached.{DeletesFound};

use mc_cache::{Cache, CallError, Deletion, Worker};
use std::sync::Wait;

/// Gets the key's value, and deletes it, unless the key changed meanwhile. Where it returns `Deleted`, the item that went had the version of
/// the value whose bytes were added. That its bytes are these isn't stated, since no law joins the two moments.
pub fn delete_what_was_got<R: Wait>(
    rt: &R,
    cache: &Cache,
    worker: &mut Worker,
    key: &[u8],
    into: &mut Vec<u8>,
) -> Result<Deletion, CallError>
    requires { BelongsTo cache.now worker.old }
    ensures belongs { BelongsTo cache.now worker.new }
    ensures deletes { result ≡ Ok deletion.Deleted →
        DeletesFound cache.now key.now into.old.items into.new.items worker.old worker.new }
{
    let found = match worker.get_with_version(rt, cache, key, into) {
        Ok(found) => found,
        Err(error) => return Err(error),
    };
    let Some(version) = found else {
        return Ok(Deletion::Missing);
    };
    worker.delete_version(rt, cache, key, version)
}
