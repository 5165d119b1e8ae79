//! A value that is cut to a length for which a cache has chunks.
ghost use Rattle.std.specs.Prelude.{◌≡◌, Err, Some};
ghost use Rattle.mc_items.specs.declared.setting.SetError.TheVariants as item_error;
ghost use Rattle.mc_cache.specs.Belonging.{BelongsTo};
ghost use Rattle.mc_cache.specs.declared.working.SetError.TheVariants as set_error;

use mc_cache::{Cache, SetError, Worker};
use std::sync::Wait;

/// Stores as many of the value's first bytes as some class has chunks for, beside the key. None where no value has chunks beside it. So the
/// set is never refused as too large.
pub fn store_begin<R: Wait>(
    rt: &R,
    cache: &Cache,
    worker: &mut Worker,
    key: &[u8],
    value: &[u8],
) -> Option<Result<(), SetError>>
    requires { BelongsTo cache.now worker.old }
    ensures belongs { BelongsTo cache.now worker.new }
    ensures fits { result ≡ Some (Err (set_error.Item item_error.TooLarge)) → ⊥ }
{
    let Some(most) = cache.max_value(key.len()) else {
        return None;
    };
    let len = most.min(value.len());
    Some(worker.set(rt, cache, key, &value[..len]))
}
