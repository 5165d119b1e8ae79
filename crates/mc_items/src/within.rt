//! Items that are set without a wait, and below this module the other calls: a hand tries for each lock n times. A caller that can't wait
//! uses these calls: a static library can't. (own)
ghost use Rattle.std.specs.Prelude.{◌+◌, ◌≡◌, ◌≤◌, IfErr, IfOk, OnErr, OnOk, Some, false, length, true};
ghost use Rattle.mc_classes.specs.Limits.{most_refs};
ghost use Rattle.mc_core.specs.model.Holdings.{has_fresh, words_of_item, numbers_of_known};
ghost use Rattle.mc_core.specs.model.State.{is_class};
ghost use Rattle.mc_words.specs.hand.Arenas.{IsHandOf, setup_of, view};
ghost use Rattle.mc_words.specs.hand.Idle.{is_unlocked};
ghost use Rattle.mc_words.specs.hand.Observers.{fresh_chunk, fresh_key, fresh_room, fresh_stamp, locks_of, hand_number};
ghost use Rattle.mc_words.specs.hand.Ready.{IsReady, StaysReady};
ghost use Rattle.mc_words.specs.hand.Tallies.{next_stamp};
ghost use Rattle.mc_words.specs.item.Fresh.{IsFreshOf};
ghost use Rattle.mc_words.specs.item.Items.{item_with, known_words_in};
ghost use Rattle.mc_words.specs.lock.Wait.{MissesSlabsEachTime};
ghost use Rattle.mc_items.specs.Calls.{RecordsNoCall};
ghost use Rattle.mc_items.specs.Evicting.{RecordsEviction};
ghost use Rattle.mc_items.specs.FreshChunks.{IsFilledWith, IsFreshFor, IsHintInto, LosesFresh, StoresFresh, filled_with};
ghost use Rattle.mc_words.specs.item.Refs.{KeepsHoldings};
ghost use Rattle.mc_items.specs.Keeping.{StoresWithStamp, StoresNothing};
ghost use Rattle.mc_items.specs.OnKeys.{ActsOnce, RecordsOn};
ghost use Rattle.mc_items.specs.Setting.{SetsItem, SetsWithHint, RecordsSet};
ghost use Rattle.mc_items.specs.Sources.{SuppliesChunk, SuppliesNone};
ghost use Rattle.mc_items.specs.Storing.{IsOwnItem};
ghost use Rattle.mc_items.specs.declared.comparing.Expected.TheVariants as expected;
ghost use Rattle.mc_items.specs.Within.{MissesFor, RefusesWithin};
ghost use Rattle.mc_stripe.specs.declared.history.Call.TheVariants as call;

pub mod bumping;
pub mod clearing;
pub mod comparing;
pub mod deleting;
pub mod deleting_where;
pub mod error;
pub mod getting;
pub mod listing;
pub mod making_room;
pub mod touching;

use crate::comparing::Expected;
use crate::filling::fill_item;
use crate::setting::{NewItem, SetError};
use crate::storing::{StoreError, store_at};
use crate::supplying::supply_chunk;
use crate::within::comparing::{CompareWithinError, compare_and_set_within};
use mc_classes::ClassId;
use mc_stripe::Stamp;
use mc_words::{Arena, Fresh, Hand, Held, Hint};
use thiserror::Error;

/// Why a set that doesn't wait was refused.
#[derive(Debug, PartialEq, Eq, Drop, Error)]
pub enum SetWithinError {
    /// For a reason that a set that waits has, too.
    #[error("{0}")]
    Refused(SetError),
    /// Other hands had the lock of the slabs at each try, and nothing was done; or they had that of the key's stripe at each try, and the
    /// chunk that was got for the item is given up: a later set finds it dead. An item that was evicted for it stays evicted. The key's own
    /// item is as before, unless it was the one evicted.
    #[error("other hands had the lock of the slabs, or of the key's stripe, at each try")]
    Held,
}

/// Stores an item as `set` does, but tries for each of its two locks `tries` times at most, and doesn't wait. `Held` where each try for one of
/// them missed. With one try each it is a `set` that never spins. (own)
pub fn set_within(
    arena: &Arena,
    hand: &mut Hand,
    key: u64,
    words: &[u64],
    tries: u64,
) -> Result<Stamp, SetWithinError>
    requires arena { IsHandOf arena.now hand.old }
    requires ready { IsReady (view hand.old) }
    ensures sets { IfOk result (λ stamp. SetsItem expected.Anything (hand_number hand.old) key
        stamp words.now (view hand.old) (view hand.new)) }
    ensures calls { IfOk result (λ stamp. RecordsSet (hand_number hand.old) key stamp
        (view hand.old) (view hand.new)) }
    ensures stores_words { IfOk result (λ stamp.
        StoresWithStamp (item_with key stamp words.now) stamp (view hand.old) (view hand.new)) }
    ensures refused { IfErr result (λ error. RefusesWithin
        (hand_number hand.old) tries key words.now error (view hand.old) (view hand.new)) }
    ensures evicts { OnErr result (RecordsEviction (hand_number hand.old) (view hand.old)
        (view hand.new)) }
    ensures stores_nothing { OnErr result (StoresNothing (view hand.old) (view hand.new)) }
    ensures stamps { OnErr result ((view hand.new).row.ids ≡ (view hand.old).row.ids) }
    ensures holdings { KeepsHoldings (view hand.old) (view hand.new) }
    ensures hand { StaysReady arena.now hand.old hand.new }
{
    match set_hinted_within(arena, hand, key, words, tries) {
        Ok(stored) => Ok(stored.stamp),
        Err(error) => Err(error),
    }
}

/// The same as [`set_within`]; and it returns a hint of the item too, by which [`again`](crate::again) gets it without a lock. (own)
pub fn set_hinted_within(
    arena: &Arena,
    hand: &mut Hand,
    key: u64,
    words: &[u64],
    tries: u64,
) -> Result<NewItem, SetWithinError>
    requires arena { IsHandOf arena.now hand.old }
    requires ready { IsReady (view hand.old) }
    ensures sets { IfOk result (λ stored. SetsWithHint expected.Anything (hand_number hand.old)
        key stored words.now (view hand.old) (view hand.new)) }
    ensures calls { IfOk result (λ stored. RecordsSet (hand_number hand.old) key stored.stamp
        (view hand.old) (view hand.new)) }
    ensures stores_words { IfOk result (λ stored.
        StoresWithStamp (item_with key stored.stamp words.now) stored.stamp (view hand.old)
        (view hand.new)) }
    ensures refused { IfErr result (λ error. RefusesWithin
        (hand_number hand.old) tries key words.now error (view hand.old) (view hand.new)) }
    ensures evicts { OnErr result (RecordsEviction (hand_number hand.old) (view hand.old)
        (view hand.new)) }
    ensures stores_nothing { OnErr result (StoresNothing (view hand.old) (view hand.new)) }
    ensures stamps { OnErr result ((view hand.new).row.ids ≡ (view hand.old).row.ids) }
    ensures holdings { KeepsHoldings (view hand.old) (view hand.new) }
    ensures hand { StaysReady arena.now hand.old hand.new }
{
    match compare_and_set_within(arena, hand, key, words, Expected::Anything, tries) {
        Ok(stored) => Ok(stored),
        Err(CompareWithinError::Refused(error)) => Err(error),
        Err(CompareWithinError::Differs(_found)) => unreachable!(),
    }
}

// Gets a chunk of the class under the lock of the slabs, for which it tries `tries` times at most.
pub(crate) fn chunk_within(
    arena: &Arena,
    hand: &mut Hand,
    class: ClassId,
    tries: u64,
) -> Result<Result<Fresh, SetError>, Held>
    requires arena { IsHandOf arena.now hand.old }
    requires class { is_class (setup_of arena.now).table class ≡ true }
    requires unlocked { is_unlocked (view hand.old) ≡ true }
    requires fresh { has_fresh (view hand.old).row.holdings ≡ false }
    requires within_limit { length (view hand.old).row.holdings ≤ most_refs }
    ensures arena { IsHandOf arena.now hand.new }
    ensures locks { locks_of hand.new ≡ locks_of hand.old }
    ensures supplies { IfOk result (λ supplied.
        IfOk supplied (λ fresh.
        ActsOnce (SuppliesChunk (hand_number hand.old) class (fresh_chunk fresh)) hand.old
        hand.new)) }
    ensures fresh { IfOk result (λ supplied. IfOk supplied
        (IsFreshFor (setup_of arena.now) class (view hand.new))) }
    ensures own { IfOk result (λ supplied. IfOk supplied (λ fresh.
        IsOwnItem (view hand.new) (fresh_chunk fresh))) }
    ensures none { IfOk result (λ supplied. IfErr supplied (λ error.
        ActsOnce (SuppliesNone (hand_number hand.old) class error) hand.old hand.new)) }
    ensures missed { OnErr result (MissesSlabsEachTime tries (view hand.old) (view hand.new)) }
{
    let Ok(held) = arena.slabs_within(hand, tries) else {
        return Err(Held);
    };
    let mut slabs = held;
    let supplied = supply_chunk(arena, hand, &mut slabs, class);
    arena.give_slabs(hand, slabs);
    Ok(supplied)
}

// Writes an item into the fresh chunk, and stores it under its key, for whose stripe's lock it tries `tries` times at most. Where that is held,
// and at want of memory, the key is as before, and the chunk is given up.
pub(crate) fn store_words_within(
    arena: &Arena,
    hand: &mut Hand,
    fresh: Fresh,
    key: u64,
    stamp: u64,
    words: &[u64],
    expected: Expected,
    tries: u64,
) -> Result<Result<Hint, StoreError>, Held>
    requires arena { IsHandOf arena.now hand.old }
    requires unlocked { is_unlocked (view hand.old) ≡ true }
    requires fresh { IsFreshOf (view hand.old) (fresh_chunk fresh) (fresh_room fresh) }
    requires own { IsOwnItem (view hand.old) (fresh_chunk fresh) }
    requires room { 3 + length words.now ≤ (fresh_room fresh) }
    requires stamp { next_stamp (view hand.old).row.ids ≡ Some stamp }
    ensures arena { IsHandOf arena.now hand.new }
    ensures locks { locks_of hand.new ≡ locks_of hand.old }
    ensures stores { IfOk result (λ stored. OnOk stored
        (StoresFresh expected (setup_of arena.now) key stamp fresh (hand_number hand.old)
        (filled_with fresh key stamp words.now (view hand.old)) (view hand.new))) }
    ensures calls { IfOk result (λ stored. OnOk stored
        (RecordsOn (setup_of arena.now) key (λ number.
        call.Set number key stamp) hand.old hand.new)) }
    ensures stores_words { IfOk result (λ stored.
        OnOk stored (StoresWithStamp (item_with key stamp words.now) stamp (view hand.old)
        (view hand.new))) }
    ensures lost { IfOk result (λ stored. IfErr stored (λ error.
        LosesFresh error expected (setup_of arena.now) key fresh
        (filled_with fresh key stamp words.now (view hand.old)) (view hand.new))) }
    ensures refused { IfOk result (λ stored. OnErr stored
        (RecordsNoCall (view hand.old) (view hand.new))) }
    ensures missed { OnErr result (MissesFor (setup_of arena.now) tries key fresh
        (filled_with fresh key stamp words.now (view hand.old)) (view hand.new)) }
    ensures hint { IfOk result (λ stored. IfOk stored (IsHintInto (view hand.old) fresh)) }
{
    let mut fresh = fresh;
    fill_item(arena, hand, &mut fresh, key, stamp, words);
    store_within(arena, hand, fresh, key, expected, tries)
}

// Stores the item that the hand filled the chunk with under its key, for whose stripe's lock it tries `tries` times at most.
fn store_within(
    arena: &Arena,
    hand: &mut Hand,
    fresh: Fresh,
    key: u64,
    expected: Expected,
    tries: u64,
) -> Result<Result<Hint, StoreError>, Held>
    requires arena { IsHandOf arena.now hand.old }
    requires unlocked { is_unlocked (view hand.old) ≡ true }
    requires fresh { IsFreshOf (view hand.old) (fresh_chunk fresh) (fresh_room fresh) }
    requires item { IsFilledWith (view hand.old) fresh key (fresh_stamp fresh) }
    requires key { fresh_key fresh ≡ key }
    requires stamp { next_stamp (view hand.old).row.ids ≡ Some (fresh_stamp fresh) }
    ensures arena { IsHandOf arena.now hand.new }
    ensures locks { locks_of hand.new ≡ locks_of hand.old }
    ensures stores { IfOk result (λ stored. OnOk stored
        (StoresFresh expected (setup_of arena.now) key (fresh_stamp fresh) fresh
        (hand_number hand.old) (view hand.old) (view hand.new))) }
    ensures calls { IfOk result (λ stored. OnOk stored
        (RecordsOn (setup_of arena.now) key (λ number.
        call.Set number key (fresh_stamp fresh)) hand.old hand.new)) }
    ensures stores_words { IfOk result (λ stored.
        OnOk stored (StoresWithStamp (numbers_of_known
        (words_of_item (known_words_in (view hand.old) (fresh_chunk fresh)))) (fresh_stamp fresh)
        (view hand.old) (view hand.new))) }
    ensures lost { IfOk result (λ stored. IfErr stored (λ error.
        LosesFresh error expected (setup_of arena.now) key fresh (view hand.old)
        (view hand.new))) }
    ensures refused { IfOk result (λ stored. OnErr stored
        (RecordsNoCall (view hand.old) (view hand.new))) }
    ensures missed { OnErr result (MissesFor (setup_of arena.now) tries key fresh (view hand.old)
        (view hand.new)) }
    ensures hint { IfOk result (λ stored. IfOk stored (IsHintInto (view hand.old) fresh)) }
{
    let stripe = key % arena.config().stripes;
    let Ok(held) = arena.stripe_within(hand, stripe, tries) else {
        arena.discard(hand, fresh);
        return Err(Held);
    };
    match store_at(arena, hand, held, fresh, key, expected) {
        Ok(reference) => {
            let hint = reference.hint();
            arena.release(hand, reference);
            Ok(Ok(hint))
        }
        Err(error) => Ok(Err(error)),
    }
}
