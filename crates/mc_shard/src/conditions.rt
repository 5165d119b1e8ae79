//! Sets that store only on a condition: where the key has no value, where it has one, or where its value has a version.
ghost use Rattle.std.specs.Prelude.{◌≡◌, Err, false, length};
ghost use Rattle.mc_words.specs.hand.Arenas.{setup_of};
ghost use Rattle.mc_words.specs.hand.Observers.{hand_number};
ghost use Rattle.mc_shard.specs.Conditions.{SetsIf, SetsIfWithin, expected_by, outcome_of, outcome_within};
ghost use Rattle.mc_shard.specs.Hands.{IsIdleHandOf};
ghost use Rattle.mc_shard.specs.Sizes.{has_class_for};
ghost use Rattle.mc_items.specs.declared.setting.SetError.TheVariants as set_error;
ghost use Rattle.mc_items.specs.declared.within.SetWithinError.TheVariants as set_within_error;

use crate::comparing::{set_where, set_where_within};
use crate::hints::HintTable;
use crate::label::Label;
use crate::looking::{Seen, look, look_within};
use crate::try_gets::TryGetError;
use mc_items::{CompareError, CompareWithinError, Expected, SetError, SetWithinError};
use mc_stripe::Stamp;
use mc_words::{Arena, Hand};
use std::sync::Wait;

/// Where a set stores its value.
#[derive(Clone, Copy)]
pub enum When {
    /// Where the key has no value. (memcached's `add`)
    Absent,
    /// Where the key has a value. (memcached's `replace`)
    Present,
    /// Where the key's value has this version. (memcached's `cas`)
    Version(Stamp),
}

/// What a set did that stores only on a condition.
#[derive(Debug, Clone, Copy, PartialEq, Eq)]
pub enum Outcome {
    /// The value is stored, and has this version.
    Stored(Stamp),
    /// The key has a value, and the condition doesn't allow it.
    Exists,
    /// The key has no value, and the condition asks for one.
    Missing,
}

impl When {
    // What the store has to find under the hash, where this was seen there; or what the set returns at once.
    fn expected_behind(self, seen: Seen) -> Result<Expected, Outcome>
        ensures { result ≡ expected_by self seen }
    {
        match self {
            When::Absent => match seen {
                Seen::Nothing => Ok(Expected::Nothing),
                Seen::OtherKey(stamp) => Ok(Expected::Item(stamp)),
                Seen::Key(_stamp) => Err(Outcome::Exists),
            },
            When::Present => match seen {
                Seen::Key(_stamp) => Ok(Expected::Something),
                Seen::Nothing | Seen::OtherKey(_) => Err(Outcome::Missing),
            },
            When::Version(version) => match seen {
                Seen::Key(stamp) if stamp == version => Ok(Expected::Item(version)),
                Seen::Key(_stamp) => Err(Outcome::Exists),
                Seen::Nothing | Seen::OtherKey(_) => Err(Outcome::Missing),
            },
        }
    }
}

/// Stores an item as `set` does, where the key's value meets the condition. A look comes first, so a set that isn't met takes no chunk.
/// Then the item is stored only where the hash has what the look saw, at the moment of the store. (memcached's `add`, `replace`
/// and `cas`)
pub fn set_if<R: Wait>(
    rt: &R,
    arena: &Arena,
    hints: &HintTable,
    hand: &mut Hand,
    at: Label,
    value: &[u8],
    words: &mut Vec<u64>,
    when: When,
) -> Result<Outcome, SetError>
    requires { IsIdleHandOf arena.now hand.old }
    ensures sets { SetsIf (setup_of arena.now) at.entry.hash at.entry.key.now value.now when result
        hand.old hand.new }
    ensures too_large { (result ≡ Err set_error.TooLarge) →
        (has_class_for (setup_of arena.now).table (length at.entry.key.now) (length value.now)
        ≡ false) }
    ensures number { hand_number hand.new ≡ hand_number hand.old }
    ensures idle { IsIdleHandOf arena.now hand.new }
{
    let seen = match look(rt, arena, hints, hand, at) {
        Ok(seen) => seen,
        Err(refused) => return Err(SetError::NoMemory(refused)),
    };
    match when.expected_behind(seen) {
        Ok(expected) => {
            let stored = set_where(rt, arena, hints, hand, at, value, words, expected);
            store_outcome(stored)
        }
        Err(refused) => Ok(refused),
    }
}

// What a set returns whose store returned this.
fn store_outcome(stored: Result<Stamp, CompareError>) -> Result<Outcome, SetError>
    ensures { result ≡ outcome_of stored }
{
    match stored {
        Ok(stamp) => Ok(Outcome::Stored(stamp)),
        Err(CompareError::Refused(error)) => Err(error),
        Err(CompareError::Differs(Some(_stamp))) => Ok(Outcome::Exists),
        Err(CompareError::Differs(None)) => Ok(Outcome::Missing),
    }
}

/// The same as `set_if`, but the hand tries for each lock `tries` times at most, and doesn't wait. (own)
pub fn set_if_within(
    arena: &Arena,
    hints: &HintTable,
    hand: &mut Hand,
    at: Label,
    value: &[u8],
    words: &mut Vec<u64>,
    when: When,
    tries: u64,
) -> Result<Outcome, SetWithinError>
    requires { IsIdleHandOf arena.now hand.old }
    ensures sets { SetsIfWithin (setup_of arena.now) tries at.entry.hash at.entry.key.now value.now
        when result hand.old hand.new }
    ensures too_large { (result ≡ Err (set_within_error.Refused set_error.TooLarge)) →
        (has_class_for (setup_of arena.now).table (length at.entry.key.now) (length value.now)
        ≡ false) }
    ensures number { hand_number hand.new ≡ hand_number hand.old }
    ensures idle { IsIdleHandOf arena.now hand.new }
{
    let seen = match look_within(arena, hints, hand, at, tries) {
        Ok(seen) => seen,
        Err(TryGetError::NoMemory(refused)) => {
            return Err(SetWithinError::Refused(SetError::NoMemory(refused)));
        }
        Err(TryGetError::Held) => return Err(SetWithinError::Held),
    };
    match when.expected_behind(seen) {
        Ok(expected) => {
            let stored = set_where_within(arena, hints, hand, at, value, words, expected, tries);
            store_outcome_within(stored)
        }
        Err(refused) => Ok(refused),
    }
}

// What a set within n tries returns whose store returned this.
fn store_outcome_within(
    stored: Result<Stamp, CompareWithinError>,
) -> Result<Outcome, SetWithinError>
    ensures { result ≡ outcome_within stored }
{
    match stored {
        Ok(stamp) => Ok(Outcome::Stored(stamp)),
        Err(CompareWithinError::Refused(error)) => Err(error),
        Err(CompareWithinError::Differs(Some(_stamp))) => Ok(Outcome::Exists),
        Err(CompareWithinError::Differs(None)) => Ok(Outcome::Missing),
    }
}
