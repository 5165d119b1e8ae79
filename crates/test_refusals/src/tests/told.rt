//! What became of ledger, histories and keys between two snapshots.
use super::snapshot::{
    CALLS, ENTRIES, HISTORY, KEYS, LEDGER, READY, STRIPES, are_same, at, in_stripe, of_key, rise,
};

/// A call of the first hand that took an item away, and one that took it to another chunk, as a history has them.
pub const EVICT: u64 = 4;

pub const RESCUE: u64 = 5;

/// How many entries the ledger gained. None where one before them isn't as it was.
pub fn entries_told(before: &[u64], after: &[u64]) -> Option<u64> {
    let known = at(before, LEDGER);
    for entry in 0..ENTRIES {
        let place = LEDGER + 1 + entry;
        if (entry as u64) < known && rise(before, after, place) != 0 {
            return None;
        }
    }
    Some(rise(before, after, LEDGER))
}

/// How many calls the histories gained. None where one is of another kind than these two, or one before them isn't as it was.
pub fn calls_told(before: &[u64], after: &[u64], kinds: (u64, u64)) -> Option<u64> {
    let mut sum = 0u64;
    for stripe in 0..STRIPES {
        if !are_told(before, after, stripe, kinds) {
            return None;
        }
        sum = sum.wrapping_add(rise(before, after, in_stripe(stripe, HISTORY)));
    }
    Some(sum)
}

// Whether a stripe's history begins as it was, and goes on with these kinds of calls alone, and all else of it but its keys is as before.
fn are_told(before: &[u64], after: &[u64], stripe: u64, kinds: (u64, u64)) -> bool {
    let known = at(before, in_stripe(stripe, HISTORY));
    let told = at(after, in_stripe(stripe, HISTORY));
    for call in 0..CALLS {
        let place = in_stripe(stripe, HISTORY + 1 + 3 * call);
        let kind = at(after, place);
        let is_new = (call as u64) >= known && (call as u64) < told;
        if is_new && kind != kinds.0 && kind != kinds.1 {
            return false;
        }
        if !is_new && !are_same(before, after, place, 3) {
            return false;
        }
    }
    are_same(before, after, in_stripe(stripe, READY), 4)
}

/// What became of a key.
#[derive(Clone, Copy, PartialEq, Eq)]
pub enum Lead {
    Same,
    /// The key leads nowhere any more.
    Lost,
    /// The key leads to another chunk, and its item has its stamp still.
    Moved,
    /// What no refused call does.
    Other,
}

fn lead_of(before: &[u64], after: &[u64], key: u64) -> Lead {
    let place = of_key(key);
    if are_same(before, after, place, 2) {
        return Lead::Same;
    }
    let stamp = place.wrapping_add(1);
    let has_stamp = rise(before, after, stamp) == 0;
    match (at(before, place), at(after, place)) {
        (0, _) => Lead::Other,
        (_, 0) if at(after, stamp) == 0 => Lead::Lost,
        (_, 0) => Lead::Other,
        _ if has_stamp => Lead::Moved,
        _ => Lead::Other,
    }
}

/// How many keys became this.
pub fn leads(before: &[u64], after: &[u64], lead: Lead) -> u64 {
    let mut count = 0u64;
    for key in 0..KEYS {
        if lead_of(before, after, key) == lead {
            count = count.wrapping_add(1);
        }
    }
    count
}
