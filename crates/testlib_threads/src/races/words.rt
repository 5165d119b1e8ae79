//! Words of items: each shows the key and the stamp under which its item was stored, so that a word of another item would be
//! seen.
use mc_memory::Refused;
use mc_stripe::{Key, Stamp};
use std::alloc::Global;
use testlib_hands::{are_own, own_words};
pub use testlib_values::draw;

/// How many keys the racers use.
pub const KEYS: u64 = 16;

/// How many words the key's item has: the most that its class has room for. A fourth of the keys goes to each class.
pub fn len_of(key: Key) -> u64 {
    match key % 4 {
        0 => 3,
        1 => 9,
        2 => 21,
        _ => 61,
    }
}

/// The words of the item that is stored under the key with this stamp.
pub fn words_of(alloc: Global, key: Key, stamp: Stamp) -> Result<Vec<u64>, Refused> {
    own_words(alloc, key, stamp, len_of(key))
}

/// Whether these are the words of the item that was stored under the key with this stamp.
pub fn are_words_of(words: &[u64], key: Key, stamp: Stamp) -> bool {
    are_own(words, key, stamp, len_of(key))
}
