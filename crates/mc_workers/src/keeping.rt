//! The lines `hold` and `drop`, by which a worker takes and gives back references.
ghost use Rattle.std.specs.Prelude.{◌≡◌, All, IfOk, IfSome, None, OnErr, true};
ghost use Rattle.mc_words.specs.hand.Arenas.{view};
ghost use Rattle.mc_words.specs.hand.Idle.{is_idle};
ghost use Rattle.mc_words.specs.hand.Ready.{StaysReady};
ghost use Rattle.mc_workers.specs.Hands.{IsKeeping, StaysKeeping};
ghost use Rattle.mc_workers.specs.Kept.{IsLastAt, IsToOther};
ghost use Rattle.mc_workers.specs.Lines.{all_released};
ghost use Rattle.mc_workers.specs.OnHands.{AnswersDropBy, AnswersHoldBy};

use crate::reply::Reply;
use mc_items::{GetError, Ref, get, read, release};
use mc_memory::{Refused, reserve};
use mc_words::{Arena, Hand};
use std::alloc::Global;
use std::sync::Wait;

// Keeps a reference to the key's item, if it has one.
pub(crate) fn hold<R: Wait>(
    rt: &R,
    arena: &Arena,
    hand: &mut Hand,
    kept: &mut Vec<Ref>,
    key: u64,
) -> Result<Reply, Refused>
    requires keeping { IsKeeping arena.now hand.old kept.old.items }
    ensures stays { StaysKeeping arena.now hand.old hand.new kept.new.items }
    ensures answers { IfOk result (λ reply.
        AnswersHoldBy arena.now key reply hand.old kept.old.items hand.new kept.new.items) }
    ensures left { OnErr result (kept.new.items ≡ kept.old.items) }
{
    reserve(kept, 1)?;
    match get(rt, arena, hand, key) {
        Ok(Some(item)) => {
            kept.push_reserved(item);
            Ok(Reply::Held)
        }
        Ok(None) => Ok(Reply::NotFound),
        Err(GetError::TooManyRefs) => Ok(Reply::TooManyRefs),
        Err(GetError::NoMemory(refused)) => Err(refused),
    }
}

// Reads the item of the last reference to the key that is kept, if there is one, and gives that back.
pub(crate) fn drop_last(
    alloc: Global,
    arena: &Arena,
    hand: &mut Hand,
    kept: &mut Vec<Ref>,
    key: u64,
) -> Result<Reply, Refused>
    requires keeping { IsKeeping arena.now hand.old kept.old.items }
    ensures stays { StaysKeeping arena.now hand.old hand.new kept.new.items }
    ensures answers { IfOk result (λ reply.
        AnswersDropBy key reply hand.old kept.old.items hand.new kept.new.items) }
    ensures left { OnErr result (kept.new.items ≡ kept.old.items) }
{
    let Some(place) = place_of_last(kept, key) else {
        return Ok(Reply::NotHeld);
    };
    let words = match read(alloc, arena, hand, &kept[place]) {
        Ok(words) => words,
        Err(refused) => return Err(refused),
    };
    let item = kept.remove(place);
    release(arena, hand, item);
    Ok(Reply::Dropped(words))
}

// The place of the last reference to the key among those that are kept.
fn place_of_last(kept: &[Ref], key: u64) -> Option<usize>
    ensures last { IfSome result (IsLastAt key kept.now) }
    ensures none { result ≡ None → All (IsToOther key) kept.now }
{
    let behind = kept.iter().rev().position(|item| item.key() == key)?;
    Some(kept.len() - 1 - behind)
}

// Gives back each reference that is kept, the last one first.
pub(crate) fn release_all(arena: &Arena, hand: &mut Hand, mut kept: Vec<Ref>)
    requires keeping { IsKeeping arena.now hand.old kept.items }
    ensures idle { is_idle (view hand.new) ≡ true }
    ensures released { view hand.new ≡ all_released kept.items (view hand.old) }
    ensures hand { StaysReady arena.now hand.old hand.new }
{
    while let Some(item) = kept.pop() {
        release(arena, hand, item);
    }
}
