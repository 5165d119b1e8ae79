//! A caller that sets an item and reads it, and gets its own words.
ghost use Rattle.std.specs.Prelude.{◌≡◌, IfOk, IfSome};
ghost use Rattle.mc_words.specs.hand.Ready.{IsReadyHandOf};

use mc_items::{GetError, SetError, get, read, release, set};
use mc_words::{Arena, Hand};
use std::alloc::Global;
use std::sync::Wait;

/// Which call was refused.
#[derive(Drop)]
pub enum RefusedCall {
    /// The set.
    Set(SetError),
    /// The get.
    Get(GetError),
    /// The read, for want of memory.
    Read(mc_memory::Refused),
}

/// Sets these words under the key, gets its item and reads it: what is read are the words that were set, unless the item has another
/// stamp by then, or there is none.
pub fn set_and_read<R: Wait>(
    rt: &R,
    alloc: Global,
    arena: &Arena,
    hand: &mut Hand,
    key: u64,
    words: &[u64],
) -> Result<Option<Vec<u64>>, RefusedCall>
    requires { IsReadyHandOf arena.now hand.old }
    ensures ready { IsReadyHandOf arena.now hand.new }
    ensures words { IfOk result (λ found. IfSome found (λ read. read.items ≡ words.now)) }
{
    let stamp = match set(rt, arena, hand, key, words) {
        Ok(stamp) => stamp,
        Err(error) => return Err(RefusedCall::Set(error)),
    };
    let item = match get(rt, arena, hand, key) {
        Ok(Some(item)) => item,
        Ok(None) => return Ok(None),
        Err(error) => return Err(RefusedCall::Get(error)),
    };
    if item.stamp() != stamp {
        release(arena, hand, item);
        return Ok(None);
    }
    let found = read(alloc, arena, hand, &item);
    release(arena, hand, item);
    match found {
        Ok(read) => Ok(Some(read)),
        Err(refused) => Err(RefusedCall::Read(refused)),
    }
}
