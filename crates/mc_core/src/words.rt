//! The words of a chunk, as far as they are known.
ghost use Rattle.std.specs.Prelude.{◌≡◌, true, is_some, slice_index, IfOk};
ghost use Rattle.std.specs.List.{list_all};
ghost use Rattle.mc_core.specs.model.Holdings.{word_in, numbers_of_known, words_of_item, has_whole_item, is_complete};
ghost use Rattle.mc_core.specs.run.Items.{are_same};

use crate::series::Series;
use mc_memory::Refused;
use std::alloc::Global;

/// A word by its place, 0 where it isn't known.
pub(crate) fn word_in(words: &[Option<u64>], place: usize) -> u64
    ensures { result ≡ word_in words.now place }
{
    if place < words.len() {
        words[place].unwrap_or(0)
    } else {
        0
    }
}

/// A number by its place, 0 where there is none.
pub(crate) fn number_in(numbers: &[u64], place: usize) -> u64
    ensures { result ≡ slice_index numbers.now place }
{
    if place < numbers.len() {
        numbers[place]
    } else {
        0
    }
}

/// Whether the words are at least as many as the item takes.
fn fits(words: &[Option<u64>]) -> bool
    ensures { result ≡ has_whole_item words.now }
{
    words.len() >= 3 && word_in(words, 2) <= words.len() as u64 - 3
}

/// Whether all words are known.
fn are_known(words: &[Option<u64>]) -> bool
    ensures { result ≡ list_all is_some words.now }
{
    words.iter().all(|word| word.is_some())
}

/// Whether the item fits and all its words are known.
pub(crate) fn is_complete(words: &[Option<u64>]) -> bool
    ensures { result ≡ is_complete words.now }
{
    if !fits(words) {
        return false;
    }
    are_known(item_in(words))
}

/// Whether the words are all known, and are those of the item.
pub(crate) fn are_same(words: &[Option<u64>], item: &[u64]) -> bool
    ensures { result ≡ are_same words.now item.now }
{
    if words.len() != item.len() {
        return false;
    }
    for place in 0..words.len() {
        if words[place] != Some(item[place]) {
            return false;
        }
    }
    true
}

/// The words as numbers, with 0 for each that isn't known.
pub(crate) fn numbers_of(alloc: Global, words: &[Option<u64>]) -> Result<Series<u64>, Refused>
    ensures { IfOk result (λ found. found ≡ numbers_of_known words.now) }
{
    let mut found = Series::new(alloc);
    for word in words {
        found.push(word.unwrap_or(0))?;
    }
    Ok(found)
}

/// The words of an item that fits.
pub(crate) fn item_in(words: &[Option<u64>]) -> &[Option<u64>]
    requires { has_whole_item words.now ≡ true }
    ensures { result.now ≡ words_of_item words.now }
{
    &words[..word_in(words, 2) as usize + 3]
}
