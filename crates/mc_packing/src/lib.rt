//! A key and a value of bytes in the words of an item, and back.
//!
//! An item has words alone. Its first two are the lengths of key and value. Then come the key's words and then the value's, eight
//! bytes a word, with zeros behind the last byte of each.
//!
//! - [`pack`] writes these words over a vector's, and [`packed_len`] is their number.
//! - [`is_packing_of`] decides whether words are a packing of a key, and [`unpack`] puts the value behind bytes that are there.
//!   [`unpack_key`] returns the key that words pack.
//! - A reader of words in place compares them with the key's by [`first_word`] and [`after_word`]. It finds the value by
//!   [`value_place`], and writes its bytes by [`write_word`] and [`write_part`]. [`words_for_bytes`] and [`ends_in_zeros`] test
//!   the number of words and the last one. `packings_by_looks` proves when words that pass such a test are a packing.
//!
//! ```rust
//! fn value_of(words: &[u64], key: &[u8], into: &mut Vec<u8>) -> Result<bool, Refused> {
//!     if !is_packing_of(words, key) {
//!         return Ok(false);
//!     }
//!     unpack(words, key, into)?;
//!     Ok(true)
//! }
//! ```
//!
//! A caller may rely on this: unpacking returns what was packed ([`packings_unpack`]), and the same words have one key and one
//! value ([`packings_are_apart`]). Where memory is refused, words and bytes stay. How long a key or a value may be is the
//! caller's to test.
#![tactic(auto)]

mod laws;
mod packing;
mod unpacking;
mod words;

pub use laws::{packings_are_apart, packings_by_looks, packings_unpack, worked_packings};
pub use packing::{pack, packed_len, value_place};
pub use unpacking::{is_packing_of, unpack, unpack_key};
pub use words::{after_word, ends_in_zeros, first_word, words_for_bytes, write_part, write_word};
