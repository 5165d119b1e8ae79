//! Words of items: a first number, and each one more than that before it.
use mc_memory::{Refused, push};
use std::alloc::Global;

/// The n words from the first on.
pub fn words_from(alloc: Global, first: u64, len: u64) -> Result<Vec<u64>, Refused> {
    let mut words = Vec::new(alloc);
    for place in 0..len {
        push(&mut words, first.wrapping_add(place))?;
    }
    Ok(words)
}

/// Whether these are n words from the first on.
pub fn are_from(words: &[u64], first: u64, len: u64) -> bool {
    for place in 0..words.len() {
        if words[place] != first.wrapping_add(place as u64) {
            return false;
        }
    }
    words.len() as u64 == len
}
