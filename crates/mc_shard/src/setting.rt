//! The set of an item of bytes.
ghost use Rattle.std.specs.Prelude.{◌≡◌, ◌↔◌, Err, IfErr, IfOk, OnErr, OnOk, false, is_some, length, true};
ghost use Rattle.mc_packing.specs.Packing.{packed_item};
ghost use Rattle.mc_words.specs.hand.Arenas.{setup_of, view};
ghost use Rattle.mc_words.specs.item.Items.{item_with};
ghost use Rattle.mc_words.specs.hand.Observers.{hand_number};
ghost use Rattle.mc_items.specs.Keeping.{StoresWithStamp, StoresNothing};
ghost use Rattle.mc_items.specs.MakingRoom.{RecordsSomeDeletes};
ghost use Rattle.mc_items.specs.declared.comparing.Expected.TheVariants as expected;
ghost use Rattle.mc_shard.specs.Hands.{IsIdleHandOf};
ghost use Rattle.mc_shard.specs.Setting.{AsksForItem, LacksRoom, MakesRoomFor, RecordsEvictionsAlone, RecordsSetBehindRoom, RefusesBytes, SetsBehindRoom};
ghost use Rattle.mc_shard.specs.Sizes.{has_class_for};
ghost use Rattle.mc_items.specs.declared.setting.SetError.TheVariants as set_error;

use crate::comparing::set_where;
use crate::hints::HintTable;
use crate::label::Label;
use mc_items::{CompareError, Expected, Marks, Room, SetError, make_room};
use mc_stripe::Stamp;
use mc_words::{Arena, Hand};
use std::cell::Cell;
use std::sync::Wait;

/// How many marked items a set lets stay. Behind these it evicts marked ones, too, so that it finds room where all are marked. (own)
const MOST_CHANCES: u64 = 12;

/// The marks as one set takes them off.
#[derive(Drop)]
pub(crate) struct Chances<'a> {
    hints: &'a HintTable,
    /// How many items it let stay.
    count: Cell<u64>,
    /// The hash whose item stays in any case, as the set is to store over that very item.
    kept: Option<u64>,
}

impl<'a> Chances<'a> {
    /// Those of a set that let no item stay yet. It lets the item of one hash stay in any case.
    pub(crate) fn new(hints: &'a HintTable, kept: Option<u64>) -> Chances<'a> {
        let count = Cell::new(0);
        Chances { hints, count, kept }
    }
}

impl Marks for Chances<'_> {
    fn take(&self, key: u64) -> bool {
        if self.kept == Some(key) {
            return true;
        }
        let count = self.count.get();
        if count >= MOST_CHANCES || !self.hints.take_mark(key) {
            return false;
        }
        self.count.set(count.wrapping_add(1));
        true
    }
}

/// Stores an item of this key and this value under its hash, in place of what was there, and returns its stamp. The item is
/// packed into `words`, which takes memory only where it has too little; what was in it is gone. A packing of `n` words goes to
/// the lowest class with chunks of `24 + 8 n` bytes. Where that class has no free chunk and no page is left for it, some of its
/// oldest items that aren't marked are evicted first. It waits for the locks of the slabs and of the hash's stripe, and notes a hint of
/// the item, so that the next get takes no lock. (memcached's `process_update_command`)
pub fn set<R: Wait>(
    rt: &R,
    arena: &Arena,
    hints: &HintTable,
    hand: &mut Hand,
    at: Label,
    value: &[u8],
    words: &mut Vec<u64>,
) -> Result<Stamp, SetError>
    requires { IsIdleHandOf arena.now hand.old }
    ensures sets { IfOk result (λ stamp. SetsBehindRoom expected.Anything (hand_number hand.old)
        at.entry.hash stamp (packed_item at.entry.key.now value.now) hand.old hand.new) }
    ensures stores_words { IfOk result (λ stamp.
        StoresWithStamp (item_with at.entry.hash stamp (packed_item at.entry.key.now value.now))
        stamp (view hand.old) (view hand.new)) }
    ensures calls { IfOk result (λ stamp. RecordsSetBehindRoom
        (hand_number hand.old) at.entry.hash stamp hand.old hand.new) }
    ensures refused { IfErr result (λ error. RefusesBytes (hand_number hand.old) at.entry.hash
        (packed_item at.entry.key.now value.now) error hand.old hand.new) }
    ensures too_large { (result ≡ Err set_error.TooLarge) ↔
        (has_class_for (setup_of arena.now).table (length at.entry.key.now) (length value.now)
        ≡ false) }
    ensures evicts { OnErr result (RecordsEvictionsAlone
        (hand_number hand.old) hand.old hand.new) }
    ensures stores_nothing { OnErr result (StoresNothing (view hand.old) (view hand.new)) }
    ensures number { hand_number hand.new ≡ hand_number hand.old }
    ensures idle { IsIdleHandOf arena.now hand.new }
{
    match set_where(rt, arena, hints, hand, at, value, words, Expected::Anything) {
        Ok(stamp) => Ok(stamp),
        Err(CompareError::Refused(error)) => Err(error),
        Err(CompareError::Differs(_found)) => unreachable!(),
    }
}

// Makes room in the class of these words, if it has none. Where an item is expected under the hash, it isn't evicted, and without other room
// the set is refused. Where no class has such chunks, nothing is done.
pub(crate) fn make_room_for<R: Wait>(
    rt: &R,
    arena: &Arena,
    hints: &HintTable,
    hand: &mut Hand,
    words: &[u64],
    expected: Expected,
    hash: u64,
) -> Result<(), SetError>
    requires { IsIdleHandOf arena.now hand.old }
    ensures makes { OnOk result (MakesRoomFor words.now hand.old hand.new) }
    ensures refused { IfErr result (λ error.
        LacksRoom expected words.now error hand.old hand.new) }
    ensures sized { result ≡ Err set_error.TooLarge → ⊥ }
    ensures calls { RecordsSomeDeletes (hand_number hand.old) (view hand.old) (view hand.new) }
    ensures stores_nothing { StoresNothing (view hand.old) (view hand.new) }
    ensures number { hand_number hand.new ≡ hand_number hand.old }
    ensures idle { IsIdleHandOf arena.now hand.new }
{
    let Some(class) = arena.classes().class_for(24 + 8 * words.len() as u64) else {
        return Ok(());
    };
    let kept = kept_for(expected, hash);
    let chances = Chances::new(hints, kept);
    match make_room(rt, arena, hand, class, &chances) {
        Ok(Room::Full) => {
            if kept.is_some() {
                Err(SetError::NoRoom)
            } else {
                Ok(())
            }
        }
        Ok(_room) => Ok(()),
        Err(refused) => Err(SetError::NoMemory(refused)),
    }
}

// The hash whose item a set is to store over, if it expects an item there.
pub(crate) fn kept_for(expected: Expected, hash: u64) -> Option<u64>
    ensures item { is_some result ≡ true → AsksForItem expected }
{
    match expected {
        Expected::Anything | Expected::Nothing => None,
        Expected::Something | Expected::Item(_) => Some(hash),
    }
}
