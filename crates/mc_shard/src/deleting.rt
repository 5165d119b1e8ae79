//! The delete of a key.
ghost use Rattle.std.specs.Prelude.{◌≡◌, Ok, OnErr, false, true};
ghost use Rattle.mc_words.specs.declared.hand.Hand.{Hand};
ghost use Rattle.mc_words.specs.hand.Arenas.{setup_of, view};
ghost use Rattle.mc_words.specs.hand.Observers.{hand_number};
ghost use Rattle.mc_items.specs.Keeping.{StoresNothing};
ghost use Rattle.mc_shard.specs.Finding.{DeletesKey, DeletesNone, FindsFull};
ghost use Rattle.mc_shard.specs.Hands.{IsIdleHandOf};
ghost use Rattle.mc_shard.specs.Reading.{LeavesSlabs};
ghost use Rattle.mc_shard.specs.Recording.{RecordsDeleteAtMost};

use crate::hints::HintTable;
use crate::label::Label;
use crate::try_gets::contains;
use mc_memory::Refused;
use mc_words::{Arena, Hand};
use std::sync::Wait;

/// Deletes the key, and returns whether it had an item. An item of another key under the hash stays; but where one is stored
/// there between the look and the delete, it is deleted, as an eviction would take it. (memcached's `process_delete_command`)
pub fn delete<R: Wait>(
    rt: &R,
    arena: &Arena,
    hints: &HintTable,
    hand: &mut Hand,
    at: Label,
) -> Result<bool, Refused>
    requires { IsIdleHandOf arena.now hand.old }
    ensures idle { IsIdleHandOf arena.now hand.new }
    ensures number { hand_number hand.new ≡ hand_number hand.old }
    ensures deletes { result ≡ Ok true →
        DeletesKey (setup_of arena.now) at.entry.hash at.entry.key.now true hand.old hand.new }
    ensures none { result ≡ Ok false →
        DeletesNone (setup_of arena.now) at.entry.hash at.entry.key.now hand.old hand.new }
    ensures full { OnErr result ((between : Hand)
        × FindsFull (setup_of arena.now) at.entry.hash between hand.new) }
    ensures calls { RecordsDeleteAtMost (setup_of arena.now) at.entry.hash hand.old hand.new }
    ensures stores_nothing { StoresNothing (view hand.old) (view hand.new) }
    ensures slabs { LeavesSlabs (view hand.old) (view hand.new) }
{
    match contains(rt, arena, hints, hand, at) {
        Ok(true) => mc_items::delete(rt, arena, hand, at.hash),
        Ok(false) => Ok(false),
        Err(refused) => Err(refused),
    }
}
