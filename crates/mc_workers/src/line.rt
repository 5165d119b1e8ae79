//! One line of a worker, on its hand.
ghost use Rattle.std.specs.Prelude.{◌≡◌, IfOk, OnErr, true};
ghost use Rattle.mc_script.specs.Command.{IsValid};
ghost use Rattle.mc_words.specs.hand.Arenas.{setup_of, view};
ghost use Rattle.mc_words.specs.item.Refs.{KeepsHoldings};
ghost use Rattle.mc_items.specs.Keeping.{KeepsHoldingCounts};
ghost use Rattle.mc_workers.specs.Asking.{is_workers};
ghost use Rattle.mc_words.specs.hand.Ready.{IsReadyHandOf, StaysReady};
ghost use Rattle.mc_workers.specs.Hands.{IsKeeping, StaysKeeping};
ghost use Rattle.mc_workers.specs.OnHands.{ServesBy};
ghost use Rattle.mc_workers.specs.Serving.{AnswersDelete, AnswersGet, AnswersTouch};

use crate::keeping::{drop_last, hold};
use crate::reply::Reply;
use crate::setting::set_words;
use mc_items::{GetError, Ref, delete, get, read, release, touch};
use mc_memory::Refused;
use mc_script::Command;
use mc_words::{Arena, Hand};
use std::alloc::Global;
use std::sync::Wait;

/// Does a worker's line by its hand, with the references that it keeps, and returns the reply. It waits for the locks that the
/// calls on items wait for.
///
/// Where memory runs out the line may be done in part, and the same references are kept.
pub fn serve_line<R: Wait>(
    rt: &R,
    alloc: Global,
    arena: &Arena,
    hand: &mut Hand,
    kept: &mut Vec<Ref>,
    command: Command,
) -> Result<Reply, Refused>
    requires keeping { IsKeeping arena.now hand.old kept.old.items }
    requires valid { IsValid command }
    requires worker { is_workers command ≡ true }
    ensures stays { StaysKeeping arena.now hand.old hand.new kept.new.items }
    ensures serves { IfOk result (λ reply.
        ServesBy arena.now command reply hand.old kept.old.items hand.new kept.new.items) }
    ensures left { OnErr result (kept.new.items ≡ kept.old.items) }
{
    match command {
        Command::Set {
            worker: _,
            key,
            words,
            base,
        } => set_words(rt, alloc, arena, hand, key, words, base),
        Command::Get { worker: _, key } => get_words(rt, alloc, arena, hand, key),
        Command::Hold { worker: _, key } => hold(rt, arena, hand, kept, key),
        Command::Drop { worker: _, key } => drop_last(alloc, arena, hand, kept, key),
        Command::Delete { worker: _, key } => delete_key(rt, arena, hand, key),
        Command::Touch { worker: _, key } => touch_key(rt, arena, hand, key),
        _ => unreachable!(),
    }
}

// Reads the words of the key's item, and releases it again.
fn get_words<R: Wait>(
    rt: &R,
    alloc: Global,
    arena: &Arena,
    hand: &mut Hand,
    key: u64,
) -> Result<Reply, Refused>
    requires ready { IsReadyHandOf arena.now hand.old }
    ensures answers { IfOk result (λ reply. AnswersGet
        (setup_of arena.now) key reply hand.old hand.new) }
    ensures holdings { KeepsHoldingCounts (view hand.old) (view hand.new) }
    ensures hand { StaysReady arena.now hand.old hand.new }
{
    let item = match get(rt, arena, hand, key) {
        Ok(Some(item)) => item,
        Ok(None) => return Ok(Reply::NotFound),
        Err(GetError::TooManyRefs) => return Ok(Reply::TooManyRefs),
        Err(GetError::NoMemory(refused)) => return Err(refused),
    };
    let words = read(alloc, arena, hand, &item);
    release(arena, hand, item);
    match words {
        Ok(words) => Ok(Reply::Value(words)),
        Err(refused) => Err(refused),
    }
}

// Deletes the key, and returns whether it had an item.
fn delete_key<R: Wait>(rt: &R, arena: &Arena, hand: &mut Hand, key: u64) -> Result<Reply, Refused>
    requires ready { IsReadyHandOf arena.now hand.old }
    ensures answers { IfOk result (λ reply. AnswersDelete
        (setup_of arena.now) key reply hand.old hand.new) }
    ensures holdings { KeepsHoldings (view hand.old) (view hand.new) }
    ensures hand { StaysReady arena.now hand.old hand.new }
{
    match delete(rt, arena, hand, key) {
        Ok(true) => Ok(Reply::Deleted),
        Ok(false) => Ok(Reply::NotFound),
        Err(refused) => Err(refused),
    }
}

// Touches the key, and returns whether it has an item.
fn touch_key<R: Wait>(rt: &R, arena: &Arena, hand: &mut Hand, key: u64) -> Result<Reply, Refused>
    requires ready { IsReadyHandOf arena.now hand.old }
    ensures answers { IfOk result (λ reply. AnswersTouch
        (setup_of arena.now) key reply hand.old hand.new) }
    ensures holdings { KeepsHoldingCounts (view hand.old) (view hand.new) }
    ensures hand { StaysReady arena.now hand.old hand.new }
{
    match touch(rt, arena, hand, key) {
        Ok(true) => Ok(Reply::Touched),
        Ok(false) => Ok(Reply::NotFound),
        Err(refused) => Err(refused),
    }
}
