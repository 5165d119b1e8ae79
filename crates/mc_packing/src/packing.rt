//! The words of an item, written from its key and its value.
ghost use Rattle.std.specs.Prelude.{◌+◌, ◌<◌, ◌^◌, ◌≡◌, OnErr, OnOk, length};
ghost use Rattle.mc_packing.specs.Packing.{packed_item, word_count_for};

use crate::words::{count_words, write_words};
use mc_memory::{Refused, resize};

/// How many words the packing of this key and this value has: two for the lengths, and one for each eight bytes of the key and of the
/// value, or a part of eight.
#[tactic(auto, using(crate::proofs::Packs::length_packed))]
pub fn packed_len(key: &[u8], value: &[u8]) -> usize
    ensures { result ≡ length (packed_item key.now value.now) }
{
    2 + count_words(key) + count_words(value)
}

/// The place of the first word of the value in a packing of this key, behind the lengths and the key's words.
#[inline(always)]
pub fn value_place(key: &[u8]) -> u64
    ensures place { result ≡ 2 + word_count_for (length key.now) }
    ensures small { result < 2 ^ 62 }
{
    2 + count_words(key) as u64
}

/// Writes the packing of this key and this value in the place of the words that are there. A vector that had room for as many takes
/// no memory. Where there is no room, the words stay. (own: memcached has the bytes behind the item's header)
pub fn pack(words: &mut Vec<u64>, key: &[u8], value: &[u8]) -> Result<(), Refused>
    ensures packed { OnOk result (words.new.items ≡ packed_item key.now value.now) }
    ensures refused { OnErr result (words.new.items ≡ words.old.items) }
{
    let begin = 2 + count_words(key);
    resize(words, begin + count_words(value), 0)?;
    write_packing(words.as_mut_slice(), begin, key, value);
    Ok(())
}

/// Writes the packing over words, of which there are as many. The value begins at the place `begin`.
#[tactic(auto, using(crate::proofs::Packs::packs))]
fn write_packing(words: &mut [u64], begin: usize, key: &[u8], value: &[u8])
    requires begin { begin ≡ 2 + word_count_for (length key.now) }
    requires len { length words.old ≡ begin + word_count_for (length value.now) }
    ensures { words.new ≡ packed_item key.now value.now }
{
    words[0] = key.len() as u64;
    words[1] = value.len() as u64;
    write_words(&mut words[2..begin], key);
    write_words(&mut words[begin..], value);
}
