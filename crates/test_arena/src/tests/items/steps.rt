//! A call on items with what it is to give.
ghost use Rattle.mc_words.specs.hand.Ready.{IsReadyHandOf};

use super::calls::{are_there, hold_all, hold_often, refusal_of_set};
use mc_items::SetError;
use mc_pages::ChunkId;
use mc_stripe::Key;
use mc_words::{Arena, Hand};
use std::alloc::Global;
use std::sync::Wait;
use testlib_hands::{Getter, Played, delete_key, header, store_all, touch_key};

/// A call, and what it is to give.
#[derive(Drop)]
pub enum Step {
    /// Items for the keys from the first on, before the second, each of n words from a first one on. Each is stored.
    Sets(Key, Key, u64, u64),
    /// An item of n words is refused.
    Refuses(Key, u64, SetError),
    /// The key's item is deleted, which is there.
    Deletes(Key),
    /// The key's item is touched, which is there.
    Touches(Key),
    /// The keys from the first on, before the second, are looked up this way: all have items, or none.
    Finds(Getter, Key, Key, bool),
    /// References to the items of the keys from the first on, before the second, which count for good.
    Holds(Key, Key),
    /// Holds n references to the key's item, which count for good.
    HoldsOften(Key, u64),
    /// The chunk's header.
    Head(ChunkId, u64),
}

impl testlib_hands::Step for Step {
    fn plays<R: Wait>(&self, rt: &R, alloc: Global, arena: &Arena, hand: &mut Hand) -> Played {
        match self {
            Step::Sets(from, end, first, len) => {
                store_all(rt, alloc, arena, hand, (*from, *end), *first, *len)
            }
            Step::Refuses(key, len, error) => {
                Ok(refusal_of_set(rt, alloc, arena, hand, *key, *len)?.as_ref() == Some(error))
            }
            _ => Ok(acts(rt, arena, hand, self)),
        }
    }
}

/// Whether a call that takes no memory gives what it is to.
fn acts<R: Wait>(rt: &R, arena: &Arena, hand: &mut Hand, step: &Step) -> bool
    requires arena { IsReadyHandOf arena.now hand.old }
    ensures arena { IsReadyHandOf arena.now hand.new }
{
    match step {
        Step::Deletes(key) => delete_key(rt, arena, hand, *key) == Some(true),
        Step::Touches(key) => touch_key(rt, arena, hand, *key) == Some(true),
        Step::Finds(getter, from, end, there) => {
            are_there(rt, arena, hand, (*from, *end), *getter, *there)
        }
        Step::Holds(from, end) => hold_all(rt, arena, hand, (*from, *end)),
        Step::HoldsOften(key, times) => hold_often(rt, arena, hand, *key, *times),
        Step::Head(chunk, head) => header(arena, hand, *chunk) == Some(*head),
        _ => false,
    }
}
