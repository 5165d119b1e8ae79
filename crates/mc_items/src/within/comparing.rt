//! The set of an item that expects something under its key, within n tries for each lock. (own)
ghost use Rattle.std.specs.Prelude.{◌≡◌, ◌≤◌, IfErr, IfOk, OnErr, length, true};
ghost use Rattle.mc_words.specs.hand.Arenas.{IsHandOf, view};
ghost use Rattle.mc_words.specs.hand.Observers.{hand_number};
ghost use Rattle.mc_words.specs.hand.Ready.{IsReady, StaysReady};
ghost use Rattle.mc_words.specs.item.Items.{item_with};
ghost use Rattle.mc_words.specs.item.Refs.{KeepsHoldings};
ghost use Rattle.mc_items.specs.Evicting.{RecordsEviction};
ghost use Rattle.mc_items.specs.Keeping.{StoresWithStamp, StoresNothing};
ghost use Rattle.mc_items.specs.Setting.{SetsWithHint, RecordsSet};
ghost use Rattle.mc_items.specs.Within.{RefusesCompareWithin, store_refusal_within};

use crate::comparing::Expected;
use crate::setting::{NewItem, SetError};
use crate::storing::StoreError;
use crate::within::{SetWithinError, chunk_within, store_words_within};
use mc_stripe::Stamp;
use mc_words::{Arena, Hand};
use thiserror::Error;

/// Why a set that expects something and doesn't wait was refused. (own)
#[derive(Debug, PartialEq, Eq, Drop, Error)]
pub enum CompareWithinError {
    /// For a reason that a set has that expects nothing.
    #[error("{0}")]
    Refused(SetWithinError),
    /// The key has an item with this stamp, or none, and the set didn't expect that. The chunk that was got for the new item is given up: a
    /// later set finds it dead.
    #[error("the key has another item than expected, or one or none against what was expected")]
    Differs(Option<Stamp>),
}

/// Stores an item as [`compare_and_set`](crate::compare_and_set) does, but tries for each of its two locks `tries` times at most, and
/// doesn't wait. (own)
pub fn compare_and_set_within(
    arena: &Arena,
    hand: &mut Hand,
    key: u64,
    words: &[u64],
    expected: Expected,
    tries: u64,
) -> Result<NewItem, CompareWithinError>
    requires arena { IsHandOf arena.now hand.old }
    requires ready { IsReady (view hand.old) }
    ensures sets { IfOk result (λ stored. SetsWithHint expected (hand_number hand.old) key stored
        words.now (view hand.old) (view hand.new)) }
    ensures calls { IfOk result (λ stored. RecordsSet (hand_number hand.old) key stored.stamp
        (view hand.old) (view hand.new)) }
    ensures stores_words { IfOk result (λ stored.
        StoresWithStamp (item_with key stored.stamp words.now) stored.stamp (view hand.old)
        (view hand.new)) }
    ensures refused { IfErr result (λ error. RefusesCompareWithin expected
        (hand_number hand.old) tries key words.now error (view hand.old) (view hand.new)) }
    ensures evicts { OnErr result (RecordsEviction (hand_number hand.old) (view hand.old)
        (view hand.new)) }
    ensures stores_nothing { OnErr result (StoresNothing (view hand.old) (view hand.new)) }
    ensures stamps { OnErr result ((view hand.new).row.ids ≡ (view hand.old).row.ids) }
    ensures holdings { KeepsHoldings (view hand.old) (view hand.new) }
    ensures hand { StaysReady arena.now hand.old hand.new }
{
    let Some(class) = arena.classes().class_for(24 + 8 * words.len() as u64) else {
        return Err(CompareWithinError::Refused(SetWithinError::Refused(SetError::TooLarge)));
    };
    let Some(stamp) = hand.next_stamp() else {
        return Err(CompareWithinError::Refused(SetWithinError::Refused(SetError::WornOut)));
    };
    let fresh = match chunk_within(arena, hand, class, tries) {
        Ok(Ok(fresh)) => fresh,
        Ok(Err(error)) => return Err(CompareWithinError::Refused(SetWithinError::Refused(error))),
        Err(_) => return Err(CompareWithinError::Refused(SetWithinError::Held)),
    };
    match store_words_within(arena, hand, fresh, key, stamp, words, expected, tries) {
        Ok(Ok(hint)) => Ok(NewItem { stamp, hint }),
        Ok(Err(error)) => Err(refusal_of(error)),
        Err(_) => Err(CompareWithinError::Refused(SetWithinError::Held)),
    }
}

// The refusal of a set whose store was refused so.
fn refusal_of(error: StoreError) -> CompareWithinError
    ensures { result ≡ store_refusal_within error }
{
    match error {
        StoreError::NoMemory(refused) => {
            CompareWithinError::Refused(SetWithinError::Refused(SetError::NoMemory(refused)))
        }
        StoreError::Differs(found) => CompareWithinError::Differs(found),
    }
}
