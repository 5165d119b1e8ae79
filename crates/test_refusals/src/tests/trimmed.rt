//! What a trim may leave that was refused memory.
use super::snapshot::{
    ASIDE, BASED, CALLS, HISTORY, KEYS, READY, STRIPE_BLOCK, STRIPE_BLOCKS, STRIPES, TRIMMED,
    are_same, at, in_stripe, of_key, rise,
};

/// Whether the stripes before one were trimmed, and that one, those behind it and all else are as before.
pub fn is_left_by_trim(before: &[u64], after: &[u64]) -> bool {
    let mut is_behind = false;
    for stripe in 0..STRIPES {
        let calls = at(before, in_stripe(stripe, HISTORY));
        let is_same = are_same(before, after, in_stripe(stripe, 0), STRIPE_BLOCK);
        if !is_same && (is_behind || calls == 0 || !is_trimmed(before, after, stripe)) {
            return false;
        }
        is_behind = is_behind || (is_same && calls != 0);
    }
    are_same(before, after, 0, STRIPE_BLOCKS)
}

// Whether the calls that the stripe recorded aren't any more, and are counted; what they left is its keys; and these are as before.
fn is_trimmed(before: &[u64], after: &[u64], stripe: u64) -> bool {
    let counted = rise(before, after, in_stripe(stripe, TRIMMED));
    let aside = rise(before, after, in_stripe(stripe, ASIDE));
    let ready = rise(before, after, in_stripe(stripe, READY));
    let based = at(after, in_stripe(stripe, BASED));
    let all = at(before, in_stripe(stripe, HISTORY));
    let keys = are_same(before, after, in_stripe(stripe, 0), HISTORY);
    let left = (counted, aside, ready, based) == (all, 0, 0, keys_of(after, stripe));
    left && keys && records_nothing(after, stripe)
}

// No call is recorded.
fn records_nothing(seen: &[u64], stripe: u64) -> bool {
    for place in 0..=3 * CALLS {
        if at(seen, in_stripe(stripe, HISTORY + place)) != 0 {
            return false;
        }
    }
    true
}

// How many keys of the stripe lead somewhere.
fn keys_of(seen: &[u64], stripe: u64) -> u64 {
    let mut count = 0u64;
    for key in 0..KEYS {
        if key % STRIPES == stripe && at(seen, of_key(key)) != 0 {
            count = count.wrapping_add(1);
        }
    }
    count
}
