//! The set of an item of bytes where its hash has what is expected.
ghost use Rattle.std.specs.Prelude.{◌≡◌, ◌↔◌, Err, IfErr, IfOk, OnErr, false, length};
ghost use Rattle.mc_packing.specs.Packing.{packed_item};
ghost use Rattle.mc_words.specs.hand.Arenas.{setup_of, view};
ghost use Rattle.mc_words.specs.item.Items.{item_with};
ghost use Rattle.mc_words.specs.hand.Observers.{hand_number};
ghost use Rattle.mc_items.specs.Keeping.{StoresWithStamp, StoresNothing};
ghost use Rattle.mc_shard.specs.Hands.{IsIdleHandOf};
ghost use Rattle.mc_shard.specs.Setting.{RecordsEvictionsAlone, RecordsSetBehindRoom, RefusesCompareBytes, SetsBehindRoom};
ghost use Rattle.mc_shard.specs.Sizes.{has_class_for};
ghost use Rattle.mc_shard.specs.Within.{RefusesCompareBytesWithin};
ghost use Rattle.mc_items.specs.declared.setting.SetError.TheVariants as set_error;
ghost use Rattle.mc_items.specs.declared.within.SetWithinError.TheVariants as set_within;
ghost use Rattle.mc_items.specs.declared.comparing.CompareError.TheVariants as compare;
ghost use Rattle.mc_items.specs.declared.within.comparing.CompareWithinError.TheVariants as compare_within;

use crate::hints::HintTable;
use crate::label::Label;
use crate::setting::make_room_for;
use crate::setting_within::room_within;
use crate::sizes::has_class;
use mc_items::{
    CompareError, CompareWithinError, Expected, SetError, SetWithinError, compare_and_set,
    compare_and_set_within,
};
use mc_packing::pack;
use mc_stripe::Stamp;
use mc_words::{Arena, Hand};
use std::sync::Wait;

/// Stores an item as `set` does, but only where the hash has what is expected at the moment of the store. Where an item is expected, it isn't
/// evicted for the new one: without other room the set is refused. (memcached's `process_update_command`, with `do_store_item`)
pub(crate) fn set_where<R: Wait>(
    rt: &R,
    arena: &Arena,
    hints: &HintTable,
    hand: &mut Hand,
    at: Label,
    value: &[u8],
    words: &mut Vec<u64>,
    expected: Expected,
) -> Result<Stamp, CompareError>
    requires { IsIdleHandOf arena.now hand.old }
    ensures sets { IfOk result (λ stamp. SetsBehindRoom expected (hand_number hand.old)
        at.entry.hash stamp (packed_item at.entry.key.now value.now) hand.old hand.new) }
    ensures stores_words { IfOk result (λ stamp.
        StoresWithStamp (item_with at.entry.hash stamp (packed_item at.entry.key.now value.now))
        stamp (view hand.old) (view hand.new)) }
    ensures calls { IfOk result (λ stamp. RecordsSetBehindRoom
        (hand_number hand.old) at.entry.hash stamp hand.old hand.new) }
    ensures refused { IfErr result (λ error. RefusesCompareBytes expected (hand_number hand.old)
        at.entry.hash (packed_item at.entry.key.now value.now) error hand.old hand.new) }
    ensures too_large { (result ≡ Err (compare.Refused set_error.TooLarge)) ↔
        (has_class_for (setup_of arena.now).table (length at.entry.key.now) (length value.now)
        ≡ false) }
    ensures evicts { OnErr result (RecordsEvictionsAlone
        (hand_number hand.old) hand.old hand.new) }
    ensures stores_nothing { OnErr result (StoresNothing (view hand.old) (view hand.new)) }
    ensures number { hand_number hand.new ≡ hand_number hand.old }
    ensures idle { IsIdleHandOf arena.now hand.new }
{
    if !has_class(arena.classes(), at.key, value) {
        return Err(CompareError::Refused(SetError::TooLarge));
    }
    if let Err(refused) = pack(words, at.key, value) {
        return Err(CompareError::Refused(SetError::NoMemory(refused)));
    }
    if let Err(error) = make_room_for(rt, arena, hints, hand, words, expected, at.hash) {
        return Err(CompareError::Refused(error));
    }
    match compare_and_set(rt, arena, hand, at.hash, words, expected) {
        Ok(item) => {
            hints.note_stored(at.hash, item.hint);
            Ok(item.stamp)
        }
        Err(error) => Err(error),
    }
}

/// The same as `set_where`, but the hand tries for each lock `tries` times at most: for that of the slabs at the room and at the item, and for
/// that of the hash's stripe. It doesn't wait. (own)
pub(crate) fn set_where_within(
    arena: &Arena,
    hints: &HintTable,
    hand: &mut Hand,
    at: Label,
    value: &[u8],
    words: &mut Vec<u64>,
    expected: Expected,
    tries: u64,
) -> Result<Stamp, CompareWithinError>
    requires { IsIdleHandOf arena.now hand.old }
    ensures sets { IfOk result (λ stamp. SetsBehindRoom expected (hand_number hand.old)
        at.entry.hash stamp (packed_item at.entry.key.now value.now) hand.old hand.new) }
    ensures stores_words { IfOk result (λ stamp.
        StoresWithStamp (item_with at.entry.hash stamp (packed_item at.entry.key.now value.now))
        stamp (view hand.old) (view hand.new)) }
    ensures calls { IfOk result (λ stamp. RecordsSetBehindRoom
        (hand_number hand.old) at.entry.hash stamp hand.old hand.new) }
    ensures refused { IfErr result (λ error. RefusesCompareBytesWithin expected
        (hand_number hand.old) tries at.entry.hash (packed_item at.entry.key.now value.now) error
        hand.old hand.new) }
    ensures too_large { (result ≡ Err (compare_within.Refused
        (set_within.Refused set_error.TooLarge))) ↔
        (has_class_for (setup_of arena.now).table (length at.entry.key.now) (length value.now)
        ≡ false) }
    ensures evicts { OnErr result (RecordsEvictionsAlone
        (hand_number hand.old) hand.old hand.new) }
    ensures stores_nothing { OnErr result (StoresNothing (view hand.old) (view hand.new)) }
    ensures number { hand_number hand.new ≡ hand_number hand.old }
    ensures idle { IsIdleHandOf arena.now hand.new }
{
    if !has_class(arena.classes(), at.key, value) {
        let error = SetWithinError::Refused(SetError::TooLarge);
        return Err(CompareWithinError::Refused(error));
    }
    if let Err(refused) = pack(words, at.key, value) {
        let error = SetError::NoMemory(refused);
        return Err(CompareWithinError::Refused(SetWithinError::Refused(error)));
    }
    if let Err(error) = room_within(arena, hints, hand, words, expected, at.hash, tries) {
        return Err(CompareWithinError::Refused(error));
    }
    match compare_and_set_within(arena, hand, at.hash, words, expected, tries) {
        Ok(item) => {
            hints.note_stored(at.hash, item.hint);
            Ok(item.stamp)
        }
        Err(error) => Err(error),
    }
}
