//! The words of an item, read in place.
ghost use Rattle.std.specs.Prelude.{◌+◌, ◌≡◌, ◌≢◌, ◌≤◌, ◌<◌, IfSome, None, Ok, drop, false, length, slice_index, true};
ghost use Rattle.mc_packing.specs.Packing.{AreWords, FillsFrom, IsPackingOf, LooksPacked, bytes_of_words, key_words, word_count_for, packed_words};
ghost use Rattle.mc_words.specs.hand.Arenas.{setup_of, view};
ghost use Rattle.mc_items.specs.ItemRefs.{item_len, item_place, item_words};
ghost use Rattle.mc_shard.specs.Finding.{PutsValue};
ghost use Rattle.mc_shard.specs.Reading.{OnlyReads, RefersTo};

use mc_items::{Ref, first_place, word_from};
use mc_memory::{Refused, reserve, resize};
use mc_packing::{
    after_word, ends_in_zeros, first_word, value_place, words_for_bytes, write_part, write_word,
};
use mc_words::{Arena, Hand};

/// Whether the item is of this key. It reads all words of such an item, and of another no more than show that it is one.
pub(crate) fn is_of(arena: &Arena, hand: &mut Hand, item: &Ref, key: &[u8]) -> bool
    requires { RefersTo arena.now item.now hand.old }
    ensures reads { OnlyReads arena.now item.now hand.old hand.new }
    ensures own { result ≡ true → IsPackingOf key.now (item_words (view hand.old) item.now) }
    ensures other { result ≡ false → ¬ IsPackingOf key.now (item_words (view hand.old) item.now) }
{
    let first = first_place(arena, hand, item);
    match value_len(arena, hand, item, first, key) {
        Some(_count) => {
            pass_words(arena, hand, item, first, value_place(key));
            true
        }
        None => false,
    }
}

/// Puts the item's value behind the bytes that are there, and returns whether the item is of this key. Where memory is refused,
/// the bytes stay.
pub(crate) fn push_value(
    arena: &Arena,
    hand: &mut Hand,
    item: &Ref,
    key: &[u8],
    into: &mut Vec<u8>,
) -> Result<bool, Refused>
    requires { RefersTo arena.now item.now hand.old }
    ensures reads { OnlyReads arena.now item.now hand.old hand.new }
    ensures value { result ≡ Ok true →
        PutsValue key.now (item_words (view hand.old) item.now) into.old.items into.new.items }
    ensures other { result ≡ Ok false →
        ¬ IsPackingOf key.now (item_words (view hand.old) item.now) }
    ensures kept { (result ≡ Ok true → ⊥) → into.new.items ≡ into.old.items }
{
    let first = first_place(arena, hand, item);
    let Some(count) = value_len(arena, hand, item, first, key) else {
        return Ok(false);
    };
    let count = count as usize;
    match reserve(into, count) {
        Ok(()) => {
            let old = into.len();
            resize(into, old + count, 0).unwrap();
            write_value(
                arena,
                hand,
                item,
                first,
                value_place(key),
                &mut into.as_mut_slice()[old..],
            );
            Ok(true)
        }
        Err(refused) => Err(refused),
    }
}

/// How many bytes of value the item has, if it looks like one of this key: by the lengths, the key's words, how many words there are, and
/// the last of them.
#[inline(always)]
fn value_len(arena: &Arena, hand: &mut Hand, item: &Ref, first: usize, key: &[u8]) -> Option<u64>
    requires item { RefersTo arena.now item.now hand.old }
    requires first { first ≡ item_place (setup_of arena.now) item.now }
    ensures reads { OnlyReads arena.now item.now hand.old hand.new }
    ensures looks { IfSome result (λ count. LooksPacked key.now count
        (item_words (view hand.old) item.now)) }
    ensures other { result ≡ None → ¬ IsPackingOf key.now (item_words (view hand.old) item.now) }
{
    let begin = value_place(key);
    if item.len() < begin {
        return None;
    }
    let key_len = read_word(arena, hand, item, first, 0);
    if key_len != key.len() as u64 {
        return None;
    }
    let count = read_word(arena, hand, item, first, 1);
    if !is_filled_from(arena, hand, item, first, begin, count) {
        return None;
    }
    if !has_key(arena, hand, item, first, key) {
        return None;
    }
    Some(count)
}

/// Whether n bytes fill the item's words from this place on.
fn is_filled_from(
    arena: &Arena,
    hand: &mut Hand,
    item: &Ref,
    first: usize,
    place: u64,
    count: u64,
) -> bool
    requires item { RefersTo arena.now item.now hand.old }
    requires first { first ≡ item_place (setup_of arena.now) item.now }
    requires some { 1 ≤ place }
    requires in_range { place ≤ item_len item.now }
    ensures reads { OnlyReads arena.now item.now hand.old hand.new }
    ensures fills { result ≡ true → FillsFrom place count (item_words (view hand.old) item.now) }
    ensures other { result ≡ false → ¬ FillsFrom place count (item_words (view hand.old) item.now) }
{
    if item.len() - place != words_for_bytes(count) {
        return false;
    }
    let part = (count % 8) as usize;
    if part == 0 {
        return true;
    }
    let last = read_word(arena, hand, item, first, item.len() - 1);
    ends_in_zeros(last, part)
}

/// Whether the item's words behind the two lengths are the key's. It reads no further than the first that differs.
fn has_key(arena: &Arena, hand: &mut Hand, item: &Ref, first: usize, key: &[u8]) -> bool
    requires item { RefersTo arena.now item.now hand.old }
    requires first { first ≡ item_place (setup_of arena.now) item.now }
    requires in_range { 2 + word_count_for (length key.now) ≤ item_len item.now }
    ensures reads { OnlyReads arena.now item.now hand.old hand.new }
    ensures same { result ≡ true → key_words key.now (item_words (view hand.old) item.now)
        ≡ packed_words key.now }
    ensures other { result ≡ false → key_words key.now (item_words (view hand.old) item.now)
        ≢ packed_words key.now }
{
    let mut rest = key;
    for place in 0..words_for_bytes(key.len() as u64) {
        let word = read_word(arena, hand, item, first, 2 + place);
        if word != first_word(rest) {
            return false;
        }
        rest = after_word(rest);
    }
    true
}

/// Writes the bytes of the item's words from this place on over the room for them, a word at a time, and of the last as many as are left.
fn write_value(
    arena: &Arena,
    hand: &mut Hand,
    item: &Ref,
    first: usize,
    begin: u64,
    room: &mut [u8],
)
    requires item { RefersTo arena.now item.now hand.old }
    requires first { first ≡ item_place (setup_of arena.now) item.now }
    requires len { item_len item.now ≡ begin + word_count_for (length room.old) }
    ensures reads { OnlyReads arena.now item.now hand.old hand.new }
    ensures bytes { room.new ≡ bytes_of_words (length room.old)
        (drop begin (item_words (view hand.old) item.now)) }
    ensures words { AreWords (drop begin (item_words (view hand.old) item.now)) }
{
    let full = room.len() / 8;
    for place in 0..full {
        let word = read_word(arena, hand, item, first, begin + place as u64);
        write_word(room, 8 * place, word);
    }
    if 8 * full < room.len() {
        let last = read_word(arena, hand, item, first, begin + full as u64);
        write_part(room, 8 * full, last);
    }
}

/// Reads the item's words from this place on. All of them are below 2^64, which is known of a word that was read.
fn pass_words(arena: &Arena, hand: &mut Hand, item: &Ref, first: usize, begin: u64)
    requires item { RefersTo arena.now item.now hand.old }
    requires first { first ≡ item_place (setup_of arena.now) item.now }
    requires in_range { begin ≤ item_len item.now }
    ensures reads { OnlyReads arena.now item.now hand.old hand.new }
    ensures words { AreWords (drop begin (item_words (view hand.old) item.now)) }
{
    for place in 0..item.len() - begin {
        let _word = read_word(arena, hand, item, first, begin + place);
    }
}

/// The item's word at this place. The item begins in the arena's table at the place `first`, as for all readers here.
#[inline(always)]
pub(crate) fn read_word(arena: &Arena, hand: &mut Hand, item: &Ref, first: usize, place: u64) -> u64
    requires item { RefersTo arena.now item.now hand.old }
    requires first { first ≡ item_place (setup_of arena.now) item.now }
    requires in_range { place < item_len item.now }
    ensures reads { OnlyReads arena.now item.now hand.old hand.new }
    ensures word { result ≡ slice_index (item_words (view hand.old) item.now) place }
{
    word_from(arena, hand, item, first, place)
}
