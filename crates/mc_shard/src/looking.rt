//! What is under the hash of a key: nothing, the key's item, or one of another key.
ghost use Rattle.std.specs.Prelude.{◌≡◌, Err, IfOk, OnErr};
ghost use Rattle.mc_words.specs.hand.Arenas.{setup_of, view};
ghost use Rattle.mc_words.specs.hand.Observers.{hand_number};
ghost use Rattle.mc_items.specs.Keeping.{StoresNothing};
ghost use Rattle.mc_shard.specs.declared.try_gets.TryGetError.TheVariants as try_error;
ghost use Rattle.mc_shard.specs.Conditions.{Sees};
ghost use Rattle.mc_shard.specs.Finding.{FindsFull};
ghost use Rattle.mc_shard.specs.Hands.{IsIdleHandOf};
ghost use Rattle.mc_shard.specs.Reading.{LeavesSlabs};
ghost use Rattle.mc_shard.specs.Recording.{RecordsGetAtMost};
ghost use Rattle.mc_shard.specs.Within.{MissesLock};

use crate::hints::{HintTable, Look};
use crate::label::Label;
use crate::lookup::{get_item, item_within};
use crate::try_gets::{TryGetError, tell_key};
use mc_memory::Refused;
use mc_stripe::Stamp;
use mc_words::{Arena, Hand};
use std::sync::Wait;

/// What a look finds under the hash of a key.
#[derive(Clone, Copy)]
pub enum Seen {
    /// No item.
    Nothing,
    /// An item of another key, with this stamp.
    OtherKey(Stamp),
    /// The key's item, with this stamp.
    Key(Stamp),
}

/// What is under the hash of the key. It waits for the lock of the hash's stripe, unless a hint leads to the item.
pub(crate) fn look<R: Wait>(
    rt: &R,
    arena: &Arena,
    hints: &HintTable,
    hand: &mut Hand,
    at: Label,
) -> Result<Seen, Refused>
    requires { IsIdleHandOf arena.now hand.old }
    ensures sees { IfOk result (λ seen.
        Sees (setup_of arena.now) at.entry.hash at.entry.key.now seen hand.old) }
    ensures full { OnErr result (FindsFull (setup_of arena.now) at.entry.hash hand.old hand.new) }
    ensures calls { RecordsGetAtMost (setup_of arena.now) at.entry.hash hand.old hand.new }
    ensures stores_nothing { StoresNothing (view hand.old) (view hand.new) }
    ensures slabs { LeavesSlabs (view hand.old) (view hand.new) }
    ensures number { hand_number hand.new ≡ hand_number hand.old }
    ensures idle { IsIdleHandOf arena.now hand.new }
{
    let Some(item) = get_item(rt, arena, hints, hand, at.hash, Look::Peek)? else {
        return Ok(Seen::Nothing);
    };
    let stamp = item.stamp();
    if tell_key(arena, hand, item, at.key) {
        Ok(Seen::Key(stamp))
    } else {
        Ok(Seen::OtherKey(stamp))
    }
}

/// The same as `look`, but where no hint leads to the item, the hand tries for the lock of the hash's stripe `tries` times at most. It doesn't
/// wait. (own)
pub(crate) fn look_within(
    arena: &Arena,
    hints: &HintTable,
    hand: &mut Hand,
    at: Label,
    tries: u64,
) -> Result<Seen, TryGetError>
    requires { IsIdleHandOf arena.now hand.old }
    ensures sees { IfOk result (λ seen.
        Sees (setup_of arena.now) at.entry.hash at.entry.key.now seen hand.old) }
    ensures held { result ≡ Err try_error.Held →
        MissesLock (setup_of arena.now) tries at.entry.hash hand.old hand.new }
    ensures full { result ≡ Err (try_error.NoMemory tt) →
        FindsFull (setup_of arena.now) at.entry.hash hand.old hand.new }
    ensures calls { RecordsGetAtMost (setup_of arena.now) at.entry.hash hand.old hand.new }
    ensures stores_nothing { StoresNothing (view hand.old) (view hand.new) }
    ensures slabs { LeavesSlabs (view hand.old) (view hand.new) }
    ensures number { hand_number hand.new ≡ hand_number hand.old }
    ensures idle { IsIdleHandOf arena.now hand.new }
{
    match item_within(arena, hints, hand, at.hash, tries, Look::Peek) {
        Ok(Some(item)) => {
            let stamp = item.stamp();
            if tell_key(arena, hand, item, at.key) {
                Ok(Seen::Key(stamp))
            } else {
                Ok(Seen::OtherKey(stamp))
            }
        }
        Ok(None) => Ok(Seen::Nothing),
        Err(TryGetError::NoMemory(refused)) => Err(TryGetError::NoMemory(refused)),
        Err(TryGetError::Held) => Err(TryGetError::Held),
    }
}
