//! Where a value is stored: in its root, or in parts.
ghost use Rattle.std.specs.Prelude.{◌≡◌, ◌≤◌, true, false};
ghost use Rattle.mc_cache.specs.Sizes.{LacksClassIn};
ghost use Rattle.mc_large.specs.Rooms.{HasClassIn, IsStorageOf};

use crate::keys::MOST_LARGE_KEY;
use crate::roots::MOST_LARGE_VALUE;
use mc_cache::Cache;

/// Where a value is stored.
#[derive(Clone, Copy)]
pub(crate) enum Storage {
    /// In its root.
    InRoot,
    /// In parts of at most so many bytes.
    InParts(usize),
}

/// Where a value of this length is stored beside a key of this length, if there is room for it.
pub(crate) fn storage_of(cache: &Cache, key_len: usize, value_len: usize) -> Option<Storage>
    requires { key_len ≤ 245 }
    ensures { IsStorageOf cache.now key_len value_len result }
{
    if value_len > MOST_LARGE_VALUE {
        return None;
    }
    if has_class(cache, key_len + 1, value_len + 1) {
        return Some(Storage::InRoot);
    }
    let Some(room) = cache.max_value(key_len + 5) else {
        return None;
    };
    if room == 0 {
        return None;
    }
    if !has_class(cache, key_len + 1, 9 + 8 * value_len.div_ceil(room)) {
        return None;
    }
    Some(Storage::InParts(room))
}

// Whether the cache has chunks for a key and a value of these lengths.
fn has_class(cache: &Cache, key_len: usize, value_len: usize) -> bool
    ensures has { result ≡ true → HasClassIn cache.now key_len value_len }
    ensures lacks { result ≡ false → LacksClassIn cache.now key_len value_len }
{
    match cache.max_value(key_len) {
        Some(most) => value_len <= most,
        None => false,
    }
}
