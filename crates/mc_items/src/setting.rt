//! The set of an item, which waits for its locks.
ghost use Rattle.std.specs.Prelude.{◌≡◌, ◌≤◌, IfErr, IfOk, OnErr, false, length, true};
ghost use Rattle.mc_classes.specs.Limits.{most_refs};
ghost use Rattle.mc_core.specs.model.Holdings.{has_fresh};
ghost use Rattle.mc_core.specs.model.State.{is_class};
ghost use Rattle.mc_words.specs.hand.Arenas.{IsHandOf, setup_of, view};
ghost use Rattle.mc_words.specs.hand.Idle.{is_unlocked};
ghost use Rattle.mc_words.specs.item.Items.{item_with};
ghost use Rattle.mc_words.specs.hand.Observers.{fresh_chunk, locks_of, hand_number};
ghost use Rattle.mc_words.specs.hand.Ready.{IsReady, StaysReady};
ghost use Rattle.mc_items.specs.Evicting.{RecordsEviction};
ghost use Rattle.mc_items.specs.FreshChunks.{IsFreshFor};
ghost use Rattle.mc_words.specs.item.Refs.{KeepsHoldings};
ghost use Rattle.mc_items.specs.Keeping.{StoresWithStamp, StoresNothing};
ghost use Rattle.mc_items.specs.OnKeys.{ActsOnce};
ghost use Rattle.mc_items.specs.Setting.{RefusesSet, SetsItem, SetsWithHint, RecordsSet};
ghost use Rattle.mc_items.specs.Sources.{SuppliesChunk, SuppliesNone};
ghost use Rattle.mc_items.specs.Storing.{IsOwnItem};
ghost use Rattle.mc_items.specs.declared.comparing.Expected.TheVariants as expected;

use crate::comparing::{CompareError, Expected, compare_and_set};
use crate::supplying::supply_chunk;
use mc_classes::ClassId;
use mc_memory::Refused;
use mc_stripe::Stamp;
use mc_words::{Arena, Fresh, Hand, Hint};
use std::sync::Wait;
use thiserror::Error;

/// Why a set was refused. The key's item is as before, unless it was the one that was evicted, and no stamp is used up.
#[derive(Debug, PartialEq, Eq, Drop, Error)]
pub enum SetError {
    /// No class has chunks of that size.
    #[error("no class has chunks of that size")]
    TooLarge,
    /// The class has no free chunk and no dead one, no page is left, and none of its oldest items, as many as an eviction looks at, could be evicted.
    #[error("no chunk is free, no page is left, and none of the class's oldest items could be evicted")]
    NoRoom,
    /// The first free chunk has the greatest issue number, or the hand has no stamp left.
    #[error("the chunk has no issue number left, or the hand no stamp")]
    WornOut,
    /// A page's room or the room for a call on the key was refused; the chunk that was got for the item may be dead.
    #[error("out of memory")]
    NoMemory(Refused),
}

/// What a set stored.
#[derive(Clone, Copy, PartialEq, Eq)]
pub struct NewItem {
    /// The item's stamp.
    pub stamp: Stamp,
    /// A hint of the item.
    pub hint: Hint,
}

/// Stores an item of these words under the key, in place of the one that it had, and returns its stamp. Its chunk is a free one
/// of the lowest class where key, stamp, length and words fit; else a dead one; else one of a new page; else the first of the
/// class's oldest items that nobody holds is evicted. It waits for the locks of the slabs and of the key's stripe. (memcached's
/// `process_update_command`, with items.c's `do_item_alloc` and `do_store_item`)
pub fn set<R: Wait>(
    rt: &R,
    arena: &Arena,
    hand: &mut Hand,
    key: u64,
    words: &[u64],
) -> Result<Stamp, SetError>
    requires arena { IsHandOf arena.now hand.old }
    requires ready { IsReady (view hand.old) }
    ensures sets { IfOk result (λ stamp. SetsItem expected.Anything (hand_number hand.old) key
        stamp words.now (view hand.old) (view hand.new)) }
    ensures calls { IfOk result (λ stamp. RecordsSet (hand_number hand.old) key stamp
        (view hand.old) (view hand.new)) }
    ensures stores_words { IfOk result (λ stamp.
        StoresWithStamp (item_with key stamp words.now) stamp (view hand.old) (view hand.new)) }
    ensures refused { IfErr result (λ error. RefusesSet (hand_number hand.old) key words.now error
        (view hand.old) (view hand.new)) }
    ensures evicts { OnErr result (RecordsEviction (hand_number hand.old) (view hand.old)
        (view hand.new)) }
    ensures stores_nothing { OnErr result (StoresNothing (view hand.old) (view hand.new)) }
    ensures stamps { OnErr result ((view hand.new).row.ids ≡ (view hand.old).row.ids) }
    ensures holdings { KeepsHoldings (view hand.old) (view hand.new) }
    ensures hand { StaysReady arena.now hand.old hand.new }
{
    match set_hinted(rt, arena, hand, key, words) {
        Ok(stored) => Ok(stored.stamp),
        Err(error) => Err(error),
    }
}

/// The same as [`set`]; and it returns a hint of the item too, by which [`again`](crate::again) gets it without a lock. (own)
pub fn set_hinted<R: Wait>(
    rt: &R,
    arena: &Arena,
    hand: &mut Hand,
    key: u64,
    words: &[u64],
) -> Result<NewItem, SetError>
    requires arena { IsHandOf arena.now hand.old }
    requires ready { IsReady (view hand.old) }
    ensures sets { IfOk result (λ stored. SetsWithHint expected.Anything (hand_number hand.old)
        key stored words.now (view hand.old) (view hand.new)) }
    ensures calls { IfOk result (λ stored. RecordsSet (hand_number hand.old) key stored.stamp
        (view hand.old) (view hand.new)) }
    ensures stores_words { IfOk result (λ stored.
        StoresWithStamp (item_with key stored.stamp words.now) stored.stamp (view hand.old)
        (view hand.new)) }
    ensures refused { IfErr result (λ error. RefusesSet (hand_number hand.old) key words.now error
        (view hand.old) (view hand.new)) }
    ensures evicts { OnErr result (RecordsEviction (hand_number hand.old) (view hand.old)
        (view hand.new)) }
    ensures stores_nothing { OnErr result (StoresNothing (view hand.old) (view hand.new)) }
    ensures stamps { OnErr result ((view hand.new).row.ids ≡ (view hand.old).row.ids) }
    ensures holdings { KeepsHoldings (view hand.old) (view hand.new) }
    ensures hand { StaysReady arena.now hand.old hand.new }
{
    match compare_and_set(rt, arena, hand, key, words, Expected::Anything) {
        Ok(stored) => Ok(stored),
        Err(CompareError::Refused(error)) => Err(error),
        Err(CompareError::Differs(_found)) => unreachable!(),
    }
}

// Gets a chunk of the class under the lock of the slabs, which it waits for.
pub(crate) fn chunk_of<R: Wait>(
    rt: &R,
    arena: &Arena,
    hand: &mut Hand,
    class: ClassId,
) -> Result<Fresh, SetError>
    requires arena { IsHandOf arena.now hand.old }
    requires class { is_class (setup_of arena.now).table class ≡ true }
    requires unlocked { is_unlocked (view hand.old) ≡ true }
    requires fresh { has_fresh (view hand.old).row.holdings ≡ false }
    requires within_limit { length (view hand.old).row.holdings ≤ most_refs }
    ensures arena { IsHandOf arena.now hand.new }
    ensures locks { locks_of hand.new ≡ locks_of hand.old }
    ensures supplies { IfOk result (λ fresh. ActsOnce
        (SuppliesChunk (hand_number hand.old) class (fresh_chunk fresh)) hand.old hand.new) }
    ensures fresh { IfOk result (IsFreshFor (setup_of arena.now) class (view hand.new)) }
    ensures own { IfOk result (λ fresh. IsOwnItem (view hand.new) (fresh_chunk fresh)) }
    ensures none { IfErr result (λ error. ActsOnce
        (SuppliesNone (hand_number hand.old) class error) hand.old hand.new) }
{
    let mut slabs = arena.lock_slabs(rt, hand);
    let supplied = supply_chunk(arena, hand, &mut slabs, class);
    arena.give_slabs(hand, slabs);
    supplied
}
