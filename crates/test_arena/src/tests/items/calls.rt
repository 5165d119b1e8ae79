//! Many calls at once, of hands that may make any.
ghost use Rattle.mc_words.specs.hand.Ready.{IsReadyHandOf};

use mc_items::{SetError, set};
use mc_memory::Refused;
use mc_stripe::Key;
use mc_words::{Arena, Hand};
use std::alloc::Global;
use std::sync::Wait;
use testlib_hands::{Getter, get_by, is_there, words_from};

/// The refusal of a set of n words from 0 on, if there is one.
pub fn refusal_of_set<R: Wait>(
    rt: &R,
    alloc: Global,
    arena: &Arena,
    hand: &mut Hand,
    key: Key,
    len: u64,
) -> Result<Option<SetError>, Refused>
    requires arena { IsReadyHandOf arena.now hand.old }
    ensures arena { IsReadyHandOf arena.now hand.new }
{
    let words = words_from(alloc, 0, len)?;
    Ok(set(rt, arena, hand, key, &words).err())
}

/// References to the items of the keys from the first on, before the second, which count for good. True if each has one.
pub fn hold_all<R: Wait>(rt: &R, arena: &Arena, hand: &mut Hand, keys: (Key, Key)) -> bool
    requires arena { IsReadyHandOf arena.now hand.old }
    ensures arena { IsReadyHandOf arena.now hand.new }
{
    for key in keys.0..keys.1 {
        if get_by(rt, arena, hand, key, Getter::Get).is_none() {
            return false;
        }
    }
    true
}

/// Holds n references to the key's item, which count for good. True if all were had.
pub fn hold_often<R: Wait>(rt: &R, arena: &Arena, hand: &mut Hand, key: Key, times: u64) -> bool
    requires arena { IsReadyHandOf arena.now hand.old }
    ensures arena { IsReadyHandOf arena.now hand.new }
{
    for _time in 0..times {
        if get_by(rt, arena, hand, key, Getter::Get).is_none() {
            return false;
        }
    }
    true
}

/// Whether the keys from the first on, before the second, all have items, or none.
pub fn are_there<R: Wait>(
    rt: &R,
    arena: &Arena,
    hand: &mut Hand,
    keys: (Key, Key),
    getter: Getter,
    there: bool,
) -> bool
    requires arena { IsReadyHandOf arena.now hand.old }
    ensures arena { IsReadyHandOf arena.now hand.new }
{
    for key in keys.0..keys.1 {
        if is_there(rt, arena, hand, key, getter) != there {
            return false;
        }
    }
    true
}
