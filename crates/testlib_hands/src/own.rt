//! Items whose words show their key and their stamp, so that a word of another item would be seen.
ghost use Rattle.mc_words.specs.hand.Arenas.{view};
ghost use Rattle.mc_items.specs.ItemRefs.{IsItemRef};
ghost use Rattle.mc_words.specs.item.Refs.{HoldsTheSame};
ghost use Rattle.mc_items.specs.Keeping.{HoldsLess};
ghost use Rattle.mc_words.specs.hand.Ready.{IsReadyHandOf};

use crate::words::{are_from, words_from};
use mc_items::{Ref, read, release, set};
use mc_memory::Refused;
use mc_stripe::{Key, Stamp};
use mc_words::{Arena, Hand};
use std::alloc::Global;
use std::sync::Wait;

/// How many keys items of the tests have at most, from 0 on.
const KEYS: u64 = 64;

/// How many words an item of the tests has at most.
const WORDS: u64 = 64;

/// The first word of the item that is stored under the key with this stamp. No other item has one of its words.
fn first_word(key: Key, stamp: Stamp) -> u64 {
    stamp
        .wrapping_mul(KEYS)
        .wrapping_add(key)
        .wrapping_mul(WORDS)
}

/// The n words of the item that is stored under the key with this stamp.
pub fn own_words(alloc: Global, key: Key, stamp: Stamp, len: u64) -> Result<Vec<u64>, Refused> {
    words_from(alloc, first_word(key, stamp), len)
}

/// Whether these are the n words of the item that was stored under the key with this stamp.
pub fn are_own(words: &[u64], key: Key, stamp: Stamp, len: u64) -> bool {
    are_from(words, first_word(key, stamp), len)
}

/// Stores an item of n such words under the key. False where that is refused.
pub fn store_own<R: Wait>(
    rt: &R,
    alloc: Global,
    arena: &Arena,
    hand: &mut Hand,
    key: Key,
    len: u64,
) -> Result<bool, Refused>
    requires arena { IsReadyHandOf arena.now hand.old }
    ensures arena { IsReadyHandOf arena.now hand.new }
    ensures holdings { HoldsTheSame (view hand.old) (view hand.new) }
{
    let stamp = hand.next_stamp().unwrap_or(0);
    let words = own_words(alloc, key, stamp, len)?;
    Ok(set(rt, arena, hand, key, &words).is_ok())
}

/// Whether the item is such an item of the key, and has n words. False, too, where memory ran out.
pub fn is_own(alloc: Global, arena: &Arena, hand: &mut Hand, item: &Ref, key: Key, len: u64) -> bool
    requires arena { IsReadyHandOf arena.now hand.old }
    requires item { IsItemRef (view hand.old) item.now }
    ensures arena { IsReadyHandOf arena.now hand.new }
    ensures item { IsItemRef (view hand.new) item.now }
    ensures holdings { HoldsTheSame (view hand.old) (view hand.new) }
{
    match read(alloc, arena, hand, item) {
        Ok(words) => item.key() == key && are_own(&words, key, item.stamp(), len),
        Err(_) => false,
    }
}

/// Whether the item is such an item of the key, and has n words. The item is given up.
#[tactic(auto, using(crate::proofs::Kept::less_later))]
pub fn release_own(
    alloc: Global,
    arena: &Arena,
    hand: &mut Hand,
    item: Ref,
    key: Key,
    len: u64,
) -> bool
    requires arena { IsReadyHandOf arena.now hand.old }
    requires item { IsItemRef (view hand.old) item }
    ensures arena { IsReadyHandOf arena.now hand.new }
    ensures holdings { HoldsLess item (view hand.old) (view hand.new) }
{
    let own = is_own(alloc, arena, hand, &item, key, len);
    release(arena, hand, item);
    own
}
