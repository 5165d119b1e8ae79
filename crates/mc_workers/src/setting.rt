//! The line that stores an item.
ghost use Rattle.std.specs.Prelude.{◌≡◌, ◌≤◌, IfOk, OnOk};
ghost use Rattle.mc_serial_spec.specs.Item.{counting_words};
ghost use Rattle.mc_words.specs.hand.Arenas.{view};
ghost use Rattle.mc_words.specs.hand.Ready.{IsReadyHandOf, StaysReady};
ghost use Rattle.mc_words.specs.item.Refs.{KeepsHoldings};
ghost use Rattle.mc_workers.specs.Serving.{AnswersSet};

use crate::reply::Reply;
use mc_items::{SetError, set};
use mc_memory::{Refused, with_capacity};
use mc_words::{Arena, Hand};
use std::alloc::Global;
use std::sync::Wait;

// Stores n words under the key: base, base + 1 and so on, modulo 2^64.
pub(crate) fn set_words<R: Wait>(
    rt: &R,
    alloc: Global,
    arena: &Arena,
    hand: &mut Hand,
    key: u64,
    count: u64,
    base: u64,
) -> Result<Reply, Refused>
    requires ready { IsReadyHandOf arena.now hand.old }
    requires count { count ≤ 4096 }
    ensures answers { IfOk result (λ reply. AnswersSet key
        (counting_words base count) reply hand.old hand.new) }
    ensures holdings { KeepsHoldings (view hand.old) (view hand.new) }
    ensures hand { StaysReady arena.now hand.old hand.new }
{
    let words = count_up(alloc, base, count)?;
    match set(rt, arena, hand, key, &words) {
        Ok(_) => Ok(Reply::Stored),
        Err(SetError::TooLarge) => Ok(Reply::TooLarge),
        Err(SetError::NoRoom) => Ok(Reply::NoRoom),
        Err(SetError::WornOut) => Ok(Reply::WornOut),
        Err(SetError::NoMemory(refused)) => Err(refused),
    }
}

// The n words that count up from the base, modulo 2^64.
fn count_up(alloc: Global, base: u64, count: u64) -> Result<Vec<u64>, Refused>
    requires { count ≤ 4096 }
    ensures words { IfOk result (λ words. words.items ≡ counting_words base count) }
{
    let mut words = with_capacity(alloc, count as usize)?;
    for place in 0..count {
        words.push_reserved(base.wrapping_add(place));
    }
    Ok(words)
}
