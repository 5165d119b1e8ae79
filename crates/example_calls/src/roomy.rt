//! Room that is made in a class before an item is set.
ghost use Rattle.std.specs.Prelude.{◌≡◌, IfOk, true};
ghost use Rattle.mc_core.specs.model.State.{is_class};
ghost use Rattle.mc_words.specs.hand.Arenas.{setup_of};
ghost use Rattle.mc_words.specs.hand.Ready.{IsReadyHandOf};
ghost use Rattle.example_calls.specs.Roomy.{MakesRoomAndSets};

use mc_classes::ClassId;
use mc_items::{
    Marks, NewItem, SetError, SetWithinError, WithinError, make_room, make_room_within, set,
    set_hinted_within,
};
use mc_stripe::{Key, Stamp};
use mc_words::{Arena, Hand};
use std::sync::Wait;

/// Makes room in the class, and then sets the item. Where there is no memory for the room, nothing is set.
pub fn make_room_and_set<R: Wait, M: Marks>(
    rt: &R,
    arena: &Arena,
    hand: &mut Hand,
    class: ClassId,
    key: Key,
    words: &[u64],
    marks: &M,
) -> Result<Stamp, SetError>
    requires hand { IsReadyHandOf arena.now hand.old }
    requires class { is_class (setup_of arena.now).table class ≡ true }
    ensures ready { IsReadyHandOf arena.now hand.new }
    ensures sets { IfOk result (MakesRoomAndSets class key words.now hand.old hand.new) }
{
    match make_room(rt, arena, hand, class, marks) {
        Ok(_room) => set(rt, arena, hand, key, words),
        Err(refused) => Err(SetError::NoMemory(refused)),
    }
}

/// The same with n tries for each lock, and a hint of the item. Where the lock of the room was held, nothing is set.
pub fn make_room_and_set_within<M: Marks>(
    arena: &Arena,
    hand: &mut Hand,
    class: ClassId,
    key: Key,
    words: &[u64],
    marks: &M,
    tries: u64,
) -> Result<NewItem, SetWithinError>
    requires hand { IsReadyHandOf arena.now hand.old }
    requires class { is_class (setup_of arena.now).table class ≡ true }
    ensures ready { IsReadyHandOf arena.now hand.new }
    ensures sets { IfOk result (λ stored.
        MakesRoomAndSets class key words.now hand.old hand.new stored.stamp) }
{
    match make_room_within(arena, hand, class, marks, tries) {
        Ok(_room) => set_hinted_within(arena, hand, key, words, tries),
        Err(WithinError::Held) => Err(SetWithinError::Held),
        Err(WithinError::NoMemory(refused)) => {
            Err(SetWithinError::Refused(SetError::NoMemory(refused)))
        }
    }
}
