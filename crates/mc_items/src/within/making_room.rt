//! Room that is made in a class without a sweep, with n tries for the lock of the slabs.
ghost use Rattle.std.specs.Prelude.{◌≡◌, Err, IfOk, OnErr, true};
ghost use Rattle.mc_core.specs.model.State.{is_class};
ghost use Rattle.mc_words.specs.hand.Arenas.{IsHandOf, setup_of, view};
ghost use Rattle.mc_words.specs.hand.Observers.{hand_number};
ghost use Rattle.mc_words.specs.hand.Ready.{IsReady, StaysReady};
ghost use Rattle.mc_words.specs.item.Refs.{KeepsHoldings};
ghost use Rattle.mc_words.specs.lock.Wait.{MissesSlabsEachTime};
ghost use Rattle.mc_items.specs.Keeping.{StoresNothing};
ghost use Rattle.mc_items.specs.MakingRoom.{LacksRoomMemory, MakesRoom, RecordsSomeDeletes, evicted_for};
ghost use Rattle.mc_items.specs.OnKeys.{ActsOnce};
ghost use Rattle.mc_items.specs.Visiting.{RecordsDeletes};

use crate::making_room::{Room, make_room_held};
use crate::marks::Marks;
use crate::within::error::WithinError;
use mc_classes::ClassId;
use mc_words::{Arena, Hand};

/// The same as `make_room`, but it tries for the slabs lock `tries` times at most, and doesn't wait. `Held` where each try missed: nothing
/// was done then. (own)
pub fn make_room_within<M: Marks>(
    arena: &Arena,
    hand: &mut Hand,
    class: ClassId,
    marks: &M,
    tries: u64,
) -> Result<Room, WithinError>
    requires arena { IsHandOf arena.now hand.old }
    requires ready { IsReady (view hand.old) }
    requires class { is_class (setup_of arena.now).table class ≡ true }
    ensures makes { IfOk result (λ room. ActsOnce (MakesRoom (hand_number hand.old) class room)
        hand.old hand.new) }
    ensures calls { IfOk result (λ room.
        RecordsDeletes (hand_number hand.old) (evicted_for room) (view hand.old) (view hand.new)) }
    ensures refused { result ≡ Err (WithinError.NoMemory tt) →
        ActsOnce (LacksRoomMemory (hand_number hand.old) class) hand.old hand.new }
    ensures held { result ≡ Err WithinError.Held →
        MissesSlabsEachTime tries (view hand.old) (view hand.new) }
    ensures refused_calls { OnErr result (RecordsSomeDeletes (hand_number hand.old)
        (view hand.old) (view hand.new)) }
    ensures stores_nothing { StoresNothing (view hand.old) (view hand.new) }
    ensures holdings { KeepsHoldings (view hand.old) (view hand.new) }
    ensures hand { StaysReady arena.now hand.old hand.new }
{
    let Ok(held) = arena.slabs_within(hand, tries) else {
        return Err(WithinError::Held);
    };
    let mut slabs = held;
    let made = make_room_held(arena, hand, &mut slabs, class, marks);
    arena.give_slabs(hand, slabs);
    match made {
        Ok(room) => Ok(room),
        Err(refused) => Err(WithinError::NoMemory(refused)),
    }
}
