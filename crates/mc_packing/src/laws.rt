//! Laws of packings, each the contract of a function with nothing to do.
ghost use Rattle.std.specs.Prelude.{◌≡◌, ◌+◌, ℕ, List, length, slice_index};
ghost use Rattle.mc_packing.specs.Cases.{NineBytes, NoPackings, NoValue, ValueRead, ZerosCount};
ghost use Rattle.mc_packing.specs.Packing.{AreBytes, AreWords, IsPackingOf, LooksPacked, bytes_of_words, packed_key, packed_item, value_in, value_words, word_count_for};

/// Unpacking gives back the very key and the very value. A packing has two words for the lengths, and a word for each eight bytes of
/// the key and of the value, or a part of eight.
pub fn packings_unpack()
    ensures key { (key value : List ℕ) → AreBytes key → packed_key (packed_item key value) ≡ key }
    ensures value { (key value : List ℕ) → AreBytes value →
        value_in (packed_item key value) ≡ value }
    ensures own { (key value : List ℕ) → AreBytes value → IsPackingOf key (packed_item key value) }
    ensures len { (key value : List ℕ) → length (packed_item key value)
        ≡ 2 + word_count_for (length key) + word_count_for (length value) }
{}

/// Two packings that are the same words are of one key and one value. So words are a packing of one key at most.
pub fn packings_are_apart()
    ensures keys { (k l v w : List ℕ) → AreBytes k → AreBytes l →
        packed_item k v ≡ packed_item l w → k ≡ l }
    ensures values { (k l v w : List ℕ) → AreBytes v → AreBytes w →
        packed_item k v ≡ packed_item l w → v ≡ w }
    ensures one { (k l words : List ℕ) → AreBytes k → AreBytes l → IsPackingOf k words →
        IsPackingOf l words → k ≡ l }
{}

/// Words are a packing of a key just where they look so: where lengths, key and number of words are those of one, and the last word ends
/// in zeros. The other words of the value may be any.
pub fn packings_by_looks()
    ensures looks { (key words : List ℕ) → IsPackingOf key words →
        LooksPacked key (slice_index words 1) words }
    ensures packing { (key words : List ℕ) (count : ℕ) → AreWords (value_words key words) →
        LooksPacked key count words → IsPackingOf key words }
    ensures value { (key words : List ℕ) (count : ℕ) → LooksPacked key count words →
        value_in words ≡ bytes_of_words count (value_words key words) }
{}

/// Worked packings, which the prover computes.
pub fn worked_packings()
    ensures no_value { NoValue }
    ensures nine_bytes { NineBytes }
    ensures zeros_count { ZerosCount }
    ensures no_packings { NoPackings }
    ensures value_read { ValueRead }
{}
