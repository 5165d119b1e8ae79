//! Whether words are a packing of a key, and the key and the value that they pack.
ghost use Rattle.std.specs.Prelude.{◌++◌, ◌≡◌, ◌≤◌, ℕ, List, Ok, None, true, false, IfOk, IfSome, OnErr, OnOk, drop, length, slice_index};
ghost use Rattle.mc_packing.specs.Packing.{AreBytes, IsPackingOf, bytes_of_words, packed_key, value_in};

use crate::words::{are_whole, are_words_of, count_words, push_bytes};
use mc_memory::Refused;
use std::alloc::Global;

/// Whether the words are a packing of this key, with some value. Any words may be asked about. Where they are of another key, no more
/// of them is read than up to the first that differs.
#[tactic(auto, using(crate::proofs::Packs::is_packing_at, crate::proofs::Packs::packing_len, crate::proofs::Packs::packing_key_len, crate::proofs::Packs::packing_key_at, crate::proofs::Packs::packing_whole_at))]
pub fn is_packing_of(words: &[u64], key: &[u8]) -> bool
    ensures own { result ≡ true → IsPackingOf key.now words.now }
    ensures other { result ≡ false → ¬ IsPackingOf key.now words.now }
{
    let begin = 2 + count_words(key);
    if words.len() < begin || words[0] != key.len() as u64 {
        return false;
    }
    if !are_words_of(&words[2..begin], key) {
        return false;
    }
    are_whole(&words[begin..], words[1])
}

/// The key that the words pack, with some value. Any words may be asked about; none where they are a packing of no key. Where there is no
/// room for the key's bytes, it is refused.
pub fn unpack_key(alloc: Global, words: &[u64]) -> Result<Option<Vec<u8>>, Refused>
    ensures own { IfOk result (λ found. IfSome found (λ key. IsPackingOf key.items words.now)) }
    ensures none { result ≡ Ok None → (key : List ℕ) → AreBytes key → ¬ IsPackingOf key words.now }
{
    if words.len() < 2 {
        return Ok(None);
    }
    let mut key = Vec::new(alloc);
    push_bytes(&mut key, &words[2..], words[0] as usize)?;
    if is_packing_of(words, &key) {
        return Ok(Some(key));
    }
    Ok(None)
}

/// Puts the value that the words pack behind the bytes that are there. Where there is no room, these stay.
pub fn unpack(words: &[u64], key: &[u8], into: &mut Vec<u8>) -> Result<(), Refused>
    requires { IsPackingOf key.now words.now }
    ensures value { OnOk result (into.new.items ≡ into.old.items ++ value_in words.now) }
    ensures refused { OnErr result (into.new.items ≡ into.old.items) }
{
    push_value(words, 2 + count_words(key), into)
}

/// Puts the value that begins at the place `begin` behind the bytes that are there. Where there is no room, these stay.
fn push_value(words: &[u64], begin: usize, into: &mut Vec<u8>) -> Result<(), Refused>
    requires lengths { 2 ≤ begin }
    requires begin { begin ≤ length words.now }
    ensures value { OnOk result (into.new.items ≡ into.old.items
        ++ bytes_of_words (slice_index words.now 1) (drop begin words.now)) }
    ensures refused { OnErr result (into.new.items ≡ into.old.items) }
{
    let len = words[1] as usize;
    push_bytes(into, &words[begin..], len)
}
