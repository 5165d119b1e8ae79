//! The set of an item that expects something under its key, and stores nothing where something else is there.
ghost use Rattle.std.specs.Prelude.{◌≡◌, ◌≤◌, IfErr, IfOk, None, OnErr, length, true};
ghost use Rattle.mc_words.specs.hand.Arenas.{IsHandOf, view};
ghost use Rattle.mc_words.specs.item.Items.{item_with};
ghost use Rattle.mc_words.specs.hand.Observers.{hand_number};
ghost use Rattle.mc_words.specs.hand.Ready.{IsReady, StaysReady};
ghost use Rattle.mc_words.specs.item.Refs.{KeepsHoldings};
ghost use Rattle.mc_items.specs.Evicting.{RecordsEviction};
ghost use Rattle.mc_items.specs.Keeping.{StoresWithStamp, StoresNothing};
ghost use Rattle.mc_items.specs.Setting.{RefusesCompare, SetsWithHint, RecordsSet, store_refusal};
ghost use Rattle.mc_items.specs.Storing.{IsExpected};

use crate::setting::{NewItem, SetError, chunk_of};
use crate::storing::{StoreError, store_words};
use mc_stripe::Stamp;
use mc_words::{Arena, Hand};
use std::sync::Wait;
use thiserror::Error;

/// What a set expects under its key. (own, for the unique number of memcached's `cas`)
#[derive(Clone, Copy, PartialEq, Eq)]
pub enum Expected {
    /// An item, or none.
    Anything,
    /// No item.
    Nothing,
    /// An item.
    Something,
    /// The item with this stamp.
    Item(Stamp),
}

impl Expected {
    /// Whether this is expected under a key: an item with this stamp, or none.
    pub fn is_met_by(self, found: Option<Stamp>) -> bool
        ensures met { result ≡ true → IsExpected self found }
        ensures other { IsExpected self found → result ≡ true }
    {
        match self {
            Expected::Anything => true,
            Expected::Nothing => found.is_none(),
            Expected::Something => found.is_some(),
            Expected::Item(stamp) => found == Some(stamp),
        }
    }
}

/// Why a set that expects something was refused. The key's item is as before, unless it was the one that was evicted, and no stamp is used
/// up.
#[derive(Debug, PartialEq, Eq, Drop, Error)]
pub enum CompareError {
    /// For a reason that a set has that expects nothing.
    #[error("{0}")]
    Refused(SetError),
    /// The key has an item with this stamp, or none, and the set didn't expect that. The chunk that was got for the new item is given up: a
    /// later set finds it dead.
    #[error("the key has another item than expected, or one or none against what was expected")]
    Differs(Option<Stamp>),
}

/// Stores an item as [`set_hinted`](crate::set_hinted) does, but only where the key has what is expected at the moment of the store,
/// under the lock of its stripe. (memcached's `cas`, `add` and `replace`, in `do_store_item`)
pub fn compare_and_set<R: Wait>(
    rt: &R,
    arena: &Arena,
    hand: &mut Hand,
    key: u64,
    words: &[u64],
    expected: Expected,
) -> Result<NewItem, CompareError>
    requires arena { IsHandOf arena.now hand.old }
    requires ready { IsReady (view hand.old) }
    ensures sets { IfOk result (λ stored. SetsWithHint expected (hand_number hand.old) key stored
        words.now (view hand.old) (view hand.new)) }
    ensures calls { IfOk result (λ stored. RecordsSet (hand_number hand.old) key stored.stamp
        (view hand.old) (view hand.new)) }
    ensures stores_words { IfOk result (λ stored.
        StoresWithStamp (item_with key stored.stamp words.now) stored.stamp (view hand.old)
        (view hand.new)) }
    ensures refused { IfErr result (λ error. RefusesCompare expected (hand_number hand.old) key
        words.now error (view hand.old) (view hand.new)) }
    ensures evicts { OnErr result (RecordsEviction (hand_number hand.old) (view hand.old)
        (view hand.new)) }
    ensures stores_nothing { OnErr result (StoresNothing (view hand.old) (view hand.new)) }
    ensures stamps { OnErr result ((view hand.new).row.ids ≡ (view hand.old).row.ids) }
    ensures holdings { KeepsHoldings (view hand.old) (view hand.new) }
    ensures hand { StaysReady arena.now hand.old hand.new }
{
    let Some(class) = arena.classes().class_for(24 + 8 * words.len() as u64) else {
        return Err(CompareError::Refused(SetError::TooLarge));
    };
    let Some(stamp) = hand.next_stamp() else {
        return Err(CompareError::Refused(SetError::WornOut));
    };
    let fresh = match chunk_of(rt, arena, hand, class) {
        Ok(fresh) => fresh,
        Err(error) => return Err(CompareError::Refused(error)),
    };
    match store_words(rt, arena, hand, fresh, key, stamp, words, expected) {
        Ok(hint) => Ok(NewItem { stamp, hint }),
        Err(error) => Err(refusal_of(error)),
    }
}

// The refusal of a set whose store was refused so.
fn refusal_of(error: StoreError) -> CompareError
    ensures { result ≡ store_refusal error }
{
    match error {
        StoreError::NoMemory(refused) => CompareError::Refused(SetError::NoMemory(refused)),
        StoreError::Differs(found) => CompareError::Differs(found),
    }
}
