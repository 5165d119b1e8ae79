//! The set of an item of bytes that tries for each lock n times, and doesn't wait. (own)
ghost use Rattle.std.specs.Prelude.{◌≡◌, ◌↔◌, Err, IfErr, IfOk, OnErr, OnOk, false, length};
ghost use Rattle.mc_packing.specs.Packing.{packed_item};
ghost use Rattle.mc_words.specs.hand.Arenas.{setup_of, view};
ghost use Rattle.mc_words.specs.hand.Observers.{hand_number};
ghost use Rattle.mc_words.specs.item.Items.{item_with};
ghost use Rattle.mc_items.specs.Keeping.{StoresNothing, StoresWithStamp};
ghost use Rattle.mc_items.specs.MakingRoom.{RecordsSomeDeletes};
ghost use Rattle.mc_items.specs.declared.comparing.Expected.TheVariants as expected;
ghost use Rattle.mc_shard.specs.Hands.{IsIdleHandOf};
ghost use Rattle.mc_shard.specs.Setting.{MakesRoomFor, RecordsEvictionsAlone, RecordsSetBehindRoom, SetsBehindRoom};
ghost use Rattle.mc_shard.specs.Within.{LacksRoomWithin, RefusesBytesWithin};
ghost use Rattle.mc_shard.specs.Sizes.{has_class_for};
ghost use Rattle.mc_items.specs.declared.setting.SetError.TheVariants as set_error;
ghost use Rattle.mc_items.specs.declared.within.SetWithinError.TheVariants as set_within_error;

use crate::comparing::set_where_within;
use crate::hints::HintTable;
use crate::label::Label;
use crate::setting::{Chances, kept_for};
use mc_items::{
    CompareWithinError, Expected, Room, SetError, SetWithinError, WithinError, make_room_within,
};
use mc_stripe::Stamp;
use mc_words::{Arena, Hand};

/// The same as `set`, but the hand tries for each lock `tries` times at most: for that of the slabs at the room and at the item, and for that of
/// the hash's stripe. It doesn't wait. (own)
pub fn set_within(
    arena: &Arena,
    hints: &HintTable,
    hand: &mut Hand,
    at: Label,
    value: &[u8],
    words: &mut Vec<u64>,
    tries: u64,
) -> Result<Stamp, SetWithinError>
    requires { IsIdleHandOf arena.now hand.old }
    ensures sets { IfOk result (λ stamp. SetsBehindRoom expected.Anything (hand_number hand.old)
        at.entry.hash stamp (packed_item at.entry.key.now value.now) hand.old hand.new) }
    ensures stores_words { IfOk result (λ stamp.
        StoresWithStamp (item_with at.entry.hash stamp (packed_item at.entry.key.now value.now))
        stamp (view hand.old) (view hand.new)) }
    ensures calls { IfOk result (λ stamp. RecordsSetBehindRoom
        (hand_number hand.old) at.entry.hash stamp hand.old hand.new) }
    ensures refused { IfErr result (λ error. RefusesBytesWithin (hand_number hand.old) tries
        at.entry.hash (packed_item at.entry.key.now value.now) error hand.old hand.new) }
    ensures too_large { (result ≡ Err (set_within_error.Refused set_error.TooLarge)) ↔
        (has_class_for (setup_of arena.now).table (length at.entry.key.now) (length value.now)
        ≡ false) }
    ensures evicts { OnErr result (RecordsEvictionsAlone
        (hand_number hand.old) hand.old hand.new) }
    ensures stores_nothing { OnErr result (StoresNothing (view hand.old) (view hand.new)) }
    ensures number { hand_number hand.new ≡ hand_number hand.old }
    ensures idle { IsIdleHandOf arena.now hand.new }
{
    match set_where_within(
        arena,
        hints,
        hand,
        at,
        value,
        words,
        Expected::Anything,
        tries,
    ) {
        Ok(stamp) => Ok(stamp),
        Err(CompareWithinError::Refused(error)) => Err(error),
        Err(CompareWithinError::Differs(_found)) => unreachable!(),
    }
}

// Makes room in the class of these words, if it has none and one of `tries` tries gets the slabs lock. Where an item is expected under the
// hash, it isn't evicted, and without other room the set is refused.
pub(crate) fn room_within(
    arena: &Arena,
    hints: &HintTable,
    hand: &mut Hand,
    words: &[u64],
    expected: Expected,
    hash: u64,
    tries: u64,
) -> Result<(), SetWithinError>
    requires { IsIdleHandOf arena.now hand.old }
    ensures makes { OnOk result (MakesRoomFor words.now hand.old hand.new) }
    ensures refused { IfErr result (λ error.
        LacksRoomWithin expected tries words.now error hand.old hand.new) }
    ensures sized { result ≡ Err (set_within_error.Refused set_error.TooLarge) → ⊥ }
    ensures calls { RecordsSomeDeletes (hand_number hand.old) (view hand.old) (view hand.new) }
    ensures stores_nothing { StoresNothing (view hand.old) (view hand.new) }
    ensures number { hand_number hand.new ≡ hand_number hand.old }
    ensures idle { IsIdleHandOf arena.now hand.new }
{
    let Some(class) = arena.classes().class_for(24 + 8 * words.len() as u64) else {
        return Ok(());
    };
    let kept = kept_for(expected, hash);
    let chances = Chances::new(hints, kept);
    match make_room_within(arena, hand, class, &chances, tries) {
        Ok(Room::Full) => {
            if kept.is_some() {
                Err(SetWithinError::Refused(SetError::NoRoom))
            } else {
                Ok(())
            }
        }
        Ok(_room) => Ok(()),
        Err(WithinError::NoMemory(none)) => {
            Err(SetWithinError::Refused(SetError::NoMemory(none)))
        }
        Err(WithinError::Held) => Err(SetWithinError::Held),
    }
}
