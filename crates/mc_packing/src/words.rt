//! Bytes that become words, and words that become bytes.
ghost use Rattle.std.specs.Prelude.{◌*◌, ◌++◌, ◌+◌, ◌-◌, ◌≡◌, ◌≢◌, ◌≤◌, ◌^◌, ◌↔◌, ℕ, IsTrue, true, false, OnErr, OnOk, drop, length, min, take, vec_capacity, vec_len};
ghost use Rattle.mc_packing.specs.Packing.{AreWordsOfBytes, EndsInZeros, bytes_of_word, bytes_of_words, packed_word, packed_words, packed_words_from, word_count_for};

use mc_memory::{Refused, extend_from_slice, reserve};

/// The bytes of a word.
const WORD: usize = 8;

/// How many words the bytes fill, the last one perhaps in part.
pub(crate) fn count_words(bytes: &[u8]) -> usize
    ensures words { result ≡ word_count_for (length bytes.now) }
    ensures small { result ≤ 2 ^ 60 }
{
    bytes.len().div_ceil(WORD)
}

/// How many words n bytes fill, the last one perhaps in part.
#[inline(always)]
pub fn words_for_bytes(bytes: u64) -> u64
    ensures words { result ≡ word_count_for bytes }
    ensures small { result ≤ 2 ^ 61 }
{
    bytes.div_ceil(WORD as u64)
}

/// The word that the first eight of these bytes make, the first lowest. Where bytes are wanting, it has zeros.
#[inline(always)]
#[tactic(auto, unfolding(crate::specs::Packing::packed_word))]
pub fn first_word(bytes: &[u8]) -> u64
    ensures { result ≡ packed_word bytes.now }
{
    if let Some(eight) = bytes.first_chunk::<WORD>() {
        return u64::from_le_bytes(*eight);
    }
    let mut eight = [0; WORD];
    eight[..bytes.len()].copy_from_slice(bytes);
    u64::from_le_bytes(eight)
}

/// The eight bytes of a word, the lowest first.
#[tactic(auto, unfolding(crate::specs::Packing::bytes_of_word))]
fn eight_bytes(word: u64) -> [u8; WORD]
    ensures { result ≡ bytes_of_word word }
{
    word.to_le_bytes()
}

/// The bytes behind the first eight of these.
#[inline(always)]
pub fn after_word(bytes: &[u8]) -> &[u8]
    ensures { result.now ≡ drop 8 bytes.now }
{
    &bytes[WORD.min(bytes.len())..]
}

/// Writes the bytes as words, over what is there.
#[tactic(auto, using(crate::proofs::Loops::with_part))]
pub(crate) fn write_words(into: &mut [u64], bytes: &[u8])
    requires { length into.old ≡ word_count_for (length bytes.now) }
    ensures { into.new ≡ packed_words bytes.now }
{
    let whole = bytes.len() / WORD;
    let rest = write_whole_words(&mut into[..whole], bytes);
    if whole < into.len() {
        into[whole] = first_word(rest);
    }
}

/// Writes words of eight bytes each over all that is there, and returns the bytes behind these.
#[tactic(auto, using(crate::proofs::Loops::none_whole, crate::proofs::Loops::whole_more, crate::proofs::Loops::all_whole_words))]
fn write_whole_words<'a>(into: &mut [u64], bytes: &'a [u8]) -> &'a [u8]
    requires { 8 * length into.old ≤ length bytes.now }
    ensures { (more : ℕ) → into.new ++ packed_words_from more result.now
        ≡ packed_words_from (length into.old + more) bytes.now }
{
    let mut rest = bytes;
    for word in into.iter_mut() {
        let (eight, behind) = rest.split_first_chunk::<WORD>().unwrap();
        *word = word_of(*eight);
        rest = behind;
    }
    rest
}

/// The word of eight bytes, the first lowest.
#[tactic(auto, unfolding(crate::specs::Packing::packed_word))]
fn word_of(eight: [u8; WORD]) -> u64
    ensures { result ≡ packed_word eight }
{
    u64::from_le_bytes(eight)
}

/// Whether the words are those that the bytes make. It reads no further than the first that differs.
#[tactic(auto, using(crate::proofs::Loops::same_more, crate::proofs::Loops::all_written, crate::proofs::Loops::differs))]
pub(crate) fn are_words_of(words: &[u64], bytes: &[u8]) -> bool
    requires { length words.now ≡ word_count_for (length bytes.now) }
    ensures same { result ≡ true → words.now ≡ packed_words bytes.now }
    ensures other { result ≡ false → words.now ≢ packed_words bytes.now }
{
    let mut rest = bytes;
    for word in words {
        if *word != first_word(rest) {
            return false;
        }
        rest = after_word(rest);
    }
    true
}

/// Whether the words have just n bytes: no word is missing or extra, and behind the last byte its word has zeros.
#[tactic(auto, using(crate::proofs::Whole::full, crate::proofs::Whole::as_many, crate::proofs::Whole::last, crate::proofs::Whole::last_back))]
pub(crate) fn are_whole(words: &[u64], count: u64) -> bool
    ensures whole { result ≡ true → AreWordsOfBytes count words.now }
    ensures other { result ≡ false → ¬ AreWordsOfBytes count words.now }
{
    let full = count / 8;
    let more = (count % 8) as usize;
    if more == 0 {
        return words.len() as u64 == full;
    }
    if words.len() as u64 != full + 1 {
        return false;
    }
    ends_in_zeros(words[full as usize], more)
}

/// Whether the word has zeros behind its first n bytes.
pub fn ends_in_zeros(word: u64, bytes: usize) -> bool
    requires { bytes ≤ 8 }
    ensures { IsTrue result ↔ EndsInZeros bytes word }
{
    first_word(&eight_bytes(word)[..bytes]) == word
}

/// Writes the eight bytes of the word over those at this place.
#[inline(always)]
pub fn write_word(into: &mut [u8], place: usize, word: u64)
    requires { place + 8 ≤ length into.old }
    ensures { into.new ≡ take place into.old ++ bytes_of_word word ++ drop 8 (drop place into.old) }
{
    into[place..place + WORD].copy_from_slice(&eight_bytes(word));
}

/// Writes the first bytes of the word over those from this place on, of which there are eight at most.
pub fn write_part(into: &mut [u8], place: usize, word: u64)
    requires in_range { place ≤ length into.old }
    requires within_limit { length into.old ≤ place + 8 }
    ensures { into.new ≡ take place into.old ++ take (length into.old - place)
        (bytes_of_word word) }
{
    let part = into.len() - place;
    into[place..].copy_from_slice(&eight_bytes(word)[..part]);
}

/// Puts the first n bytes of the word behind those that are there, or all eight where n is above 8. There is room for n bytes.
#[tactic(auto, using(crate::proofs::Bytes::all_eight))]
pub(crate) fn push_word(into: &mut Vec<u8>, word: u64, count: usize)
    requires { vec_len into.old + count ≤ vec_capacity into.old }
    ensures bytes { into.new.items ≡ into.old.items ++ take count (bytes_of_word word) }
    ensures len { vec_len into.new ≡ vec_len into.old + min 8 count }
    ensures capacity { vec_capacity into.old ≤ vec_capacity into.new }
{
    let bytes = eight_bytes(word);
    if count < WORD {
        extend_from_slice(into, &bytes[..count]).unwrap();
    } else {
        extend_from_slice(into, &bytes).unwrap();
    }
}

/// Puts the first n bytes of the words behind those that are there, or all bytes of the words where they have fewer. Where there
/// is no room, the bytes stay.
pub(crate) fn push_bytes(into: &mut Vec<u8>, words: &[u64], count: usize) -> Result<(), Refused>
    ensures bytes { OnOk result (into.new.items ≡ into.old.items
        ++ bytes_of_words count words.now) }
    ensures refused { OnErr result (into.new.items ≡ into.old.items) }
{
    reserve(into, count)?;
    let mut left = count;
    for word in words {
        push_word(into, *word, left);
        left = left.saturating_sub(WORD);
    }
    Ok(())
}
