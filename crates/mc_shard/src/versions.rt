//! Gets that return the version of the value, too.
ghost use Rattle.std.specs.Prelude.{◌≡◌, ◌⊎◌, Err, IfOk, IfSome, None, Ok, OnErr};
ghost use Rattle.mc_words.specs.hand.Arenas.{setup_of, view};
ghost use Rattle.mc_words.specs.hand.Observers.{hand_number};
ghost use Rattle.mc_items.specs.Keeping.{StoresNothing};
ghost use Rattle.mc_shard.specs.declared.try_gets.TryGetError.TheVariants as try_error;
ghost use Rattle.mc_shard.specs.Conditions.{ReturnsVersion};
ghost use Rattle.mc_shard.specs.Finding.{FindsFull, FindsOtherKey, FindsSome};
ghost use Rattle.mc_shard.specs.Hands.{IsIdleHandOf};
ghost use Rattle.mc_shard.specs.Reading.{LeavesSlabs};
ghost use Rattle.mc_shard.specs.Recording.{RecordsGetAtMost};
ghost use Rattle.mc_shard.specs.Within.{MissesLock};

use crate::hints::{HintTable, Look};
use crate::label::Label;
use crate::lookup::{get_item, item_within};
use crate::try_gets::{TryGetError, give_value};
use mc_memory::Refused;
use mc_stripe::Stamp;
use mc_words::{Arena, Hand};
use std::sync::Wait;

/// The same as [`get`](crate::get), and it returns the version of the value: the stamp with which its item was stored. No other
/// item of the arena ever has it. (memcached's `gets`)
pub fn get_with_version<R: Wait>(
    rt: &R,
    arena: &Arena,
    hints: &HintTable,
    hand: &mut Hand,
    at: Label,
    into: &mut Vec<u8>,
) -> Result<Option<Stamp>, Refused>
    requires { IsIdleHandOf arena.now hand.old }
    ensures value { IfOk result (λ found. IfSome found (λ version.
        ReturnsVersion (setup_of arena.now) at.entry.hash at.entry.key.now version hand.old
        into.old.items into.new.items)) }
    ensures other { result ≡ Ok None →
        FindsOtherKey (setup_of arena.now) at.entry.hash at.entry.key.now hand.old }
    ensures kept { result ≡ Ok None → into.new.items ≡ into.old.items }
    ensures refused { OnErr result (into.new.items ≡ into.old.items) }
    ensures full { OnErr result (FindsFull (setup_of arena.now) at.entry.hash hand.old hand.new
        ⊎ FindsSome (setup_of arena.now) at.entry.hash hand.old) }
    ensures calls { RecordsGetAtMost (setup_of arena.now) at.entry.hash hand.old hand.new }
    ensures stores_nothing { StoresNothing (view hand.old) (view hand.new) }
    ensures slabs { LeavesSlabs (view hand.old) (view hand.new) }
    ensures number { hand_number hand.new ≡ hand_number hand.old }
    ensures idle { IsIdleHandOf arena.now hand.new }
{
    let Some(item) = get_item(rt, arena, hints, hand, at.hash, Look::Use)? else {
        return Ok(None);
    };
    let version = item.stamp();
    match give_value(arena, hand, item, at.key, into) {
        Ok(true) => Ok(Some(version)),
        Ok(false) => Ok(None),
        Err(refused) => Err(refused),
    }
}

/// The same as [`get_with_version`], but where no hint leads to the item, the hand tries for the lock of the hash's stripe `tries` times at
/// most. It doesn't wait. (own)
pub fn get_with_version_within(
    arena: &Arena,
    hints: &HintTable,
    hand: &mut Hand,
    at: Label,
    tries: u64,
    into: &mut Vec<u8>,
) -> Result<Option<Stamp>, TryGetError>
    requires { IsIdleHandOf arena.now hand.old }
    ensures value { IfOk result (λ found. IfSome found (λ version.
        ReturnsVersion (setup_of arena.now) at.entry.hash at.entry.key.now version hand.old
        into.old.items into.new.items)) }
    ensures other { result ≡ Ok None →
        FindsOtherKey (setup_of arena.now) at.entry.hash at.entry.key.now hand.old }
    ensures kept { result ≡ Ok None → into.new.items ≡ into.old.items }
    ensures refused { OnErr result (into.new.items ≡ into.old.items) }
    ensures held { result ≡ Err try_error.Held →
        MissesLock (setup_of arena.now) tries at.entry.hash hand.old hand.new }
    ensures full { result ≡ Err (try_error.NoMemory tt) →
        FindsFull (setup_of arena.now) at.entry.hash hand.old hand.new
        ⊎ FindsSome (setup_of arena.now) at.entry.hash hand.old }
    ensures calls { RecordsGetAtMost (setup_of arena.now) at.entry.hash hand.old hand.new }
    ensures stores_nothing { StoresNothing (view hand.old) (view hand.new) }
    ensures slabs { LeavesSlabs (view hand.old) (view hand.new) }
    ensures number { hand_number hand.new ≡ hand_number hand.old }
    ensures idle { IsIdleHandOf arena.now hand.new }
{
    let item = match item_within(arena, hints, hand, at.hash, tries, Look::Use) {
        Ok(Some(item)) => item,
        Ok(None) => return Ok(None),
        Err(TryGetError::NoMemory(refused)) => return Err(TryGetError::NoMemory(refused)),
        Err(TryGetError::Held) => return Err(TryGetError::Held),
    };
    let stamp = item.stamp();
    match give_value(arena, hand, item, at.key, into) {
        Ok(true) => Ok(Some(stamp)),
        Ok(false) => Ok(None),
        Err(refused) => Err(TryGetError::NoMemory(refused)),
    }
}
