//! The keys of a value's root and of its parts.
ghost use Rattle.std.specs.Prelude.{◌≡◌, ◌+◌, ◌++◌, ◌≤◌, ◌↔◌, IfSome, None, length};
ghost use Rattle.mc_large.specs.Keys.{IsLargeKey, part_key, root_key};

use arrayvec::ArrayVec;

/// The most bytes of a key. A part key has five bytes more, and the cache takes 250.
pub const MOST_LARGE_KEY: usize = 245;

/// The most bytes of a key that the cache takes.
const MOST_KEY_BYTES: usize = 250;

/// The bytes of a key that the cache takes.
pub(crate) type KeyBytes = ArrayVec<u8, MOST_KEY_BYTES>;

/// The key of the root, if the key may be one: it has 1 to 245 bytes.
pub(crate) fn root_key(key: &[u8]) -> Option<KeyBytes>
    ensures key { (result ≡ None) ↔ ¬ IsLargeKey key.now }
    ensures bytes { IfSome result (λ made. made.items ≡ root_key key.now) }
{
    if key.is_empty() || key.len() > MOST_LARGE_KEY {
        return None;
    }
    Some(joined(&[0], key))
}

/// The key of the part of this number.
pub(crate) fn part_key(key: &[u8], number: u32) -> KeyBytes
    requires { IsLargeKey key.now }
    ensures { result.items ≡ part_key key.now number }
{
    let [a, b, c, d] = number.to_le_bytes();
    joined(&[1, a, b, c, d], key)
}

// These bytes, and behind them the key.
fn joined(first: &[u8], key: &[u8]) -> KeyBytes
    requires { length first.now + length key.now ≤ 250 }
    ensures { result.items ≡ first.now ++ key.now }
{
    let mut made = KeyBytes::new();
    let _room = made.try_extend_from_slice(first);
    let _more = made.try_extend_from_slice(key);
    made
}
