//! What a call may leave that was refused memory, by two snapshots.
use super::calls::{Call, Numbers};
use super::headers::{Change, changes, changes_from};
use super::listed::{are_all_listed, are_listed, is_in_order, is_same_class};
use super::snapshot::{
    BUSY, CLASSES, EVICTIONS_NOMEM, EVICTIONS_OF, GRANTED, HEADS, HELD_UP, LEDGER, MODE, MOVED,
    MOVING, PAGES_OF, POOL, POSITION, RESCUES, SOURCE, are_same, at, in_class, of_head, rise,
    rise_of_classes,
};
use super::told::{EVICT, Lead, RESCUE, calls_told, entries_told, leads};
use super::trimmed::is_left_by_trim;

/// Whether the call left what it may: a set dead chunks that were put back, a page that was granted, one item evicted, the chunk that was
/// got dead, and a move begun in mode 2; a turn dead chunks that were put back, and earlier chunks done; a trim the first stripes trimmed;
/// and any other call nothing.
pub fn is_left(call: Call, before: &[u64], after: &[u64]) -> bool {
    if before == after {
        return true;
    }
    match call {
        Call::Set(_, len) | Call::SetAndMove(_, len) => {
            let class = class_of(len);
            is_left_by_set(class, before, after)
        }
        Call::Turn | Call::TryTurn => is_left_by_turn(before, after),
        Call::Trim => is_left_by_trim(before, after),
        _ => false,
    }
}

/// The class of an item of n words.
fn class_of(len: usize) -> u64 {
    match len {
        0..=3 => 1,
        4..=9 => 2,
        10..=21 => 3,
        _ => 4,
    }
}

/// Whether a set left a chunk dead that it got.
pub fn has_died(before: &[u64], after: &[u64]) -> bool {
    died(before, after) != 0
}

// How many chunks were got and left dead.
fn died(before: &[u64], after: &[u64]) -> u64 {
    let taken = changes(before, after, Change::TakenAndDied);
    changes(before, after, Change::Died).wrapping_add(taken)
}

// Hand and mode are as before, so are all other classes, a header isn't, and the lists are what the headers give, in the order
// that they had.
fn is_kept(class: u64, before: &[u64], after: &[u64]) -> bool {
    for other in 1..=CLASSES {
        if !are_listed(after, other) {
            return false;
        }
        if other != class && !is_same_class(before, after, other) {
            return false;
        }
    }
    let hand = are_same(before, after, 0, HEADS);
    let mode = rise(before, after, MODE) == 0;
    let heads = are_same(before, after, HEADS, GRANTED - HEADS);
    let order = is_in_order(before, after, class);
    hand && mode && !heads && order && are_all_listed(after)
}

fn is_left_by_set(class: u64, before: &[u64], after: &[u64]) -> bool {
    let taken = changes(before, after, Change::TakenAndDied);
    let begun = u64::from(has_begun(before, after));
    is_kept(class, before, after)
        && are_set_headers(before, after)
        && are_set_pages(before, after, begun)
        && is_set_move(before, after, begun, taken)
        && is_taken(before, after, taken)
}

// One chunk at most was got, and left dead. Others were put back or cut.
fn are_set_headers(before: &[u64], after: &[u64]) -> bool {
    let other = changes(before, after, Change::Other);
    let copied = changes(before, after, Change::Copied);
    let cleared = changes(before, after, Change::Cleared);
    let taken = changes(before, after, Change::TakenAndCleared);
    let none = (other, copied, cleared, taken) == (0, 0, 0, 0);
    none && died(before, after) <= 1
}

// One page at most was granted, and counted, and no chunk cut without it.
fn are_set_pages(before: &[u64], after: &[u64], begun: u64) -> bool {
    let pages = rise_of_classes(before, after, PAGES_OF);
    let taken = 0u64.wrapping_sub(rise(before, after, POOL));
    let granted = rise(before, after, GRANTED);
    let told = entries_told(before, after) == Some(pages.wrapping_add(begun));
    let cut = changes(before, after, Change::Cut);
    told && pages <= 1 && granted.wrapping_add(taken) == pages && (pages == 1 || cut == 0)
}

// A move has begun.
fn has_begun(before: &[u64], after: &[u64]) -> bool {
    at(before, MOVING) == 0 && at(after, MOVING) != 0
}

// No move did anything, and none has begun but in mode 2, behind an eviction.
fn is_set_move(before: &[u64], after: &[u64], begun: u64, taken: u64) -> bool {
    let counters = are_same(before, after, MOVED, 4);
    if begun == 0 {
        return counters && are_same(before, after, MOVING, 5);
    }
    let is_first = (at(after, POSITION), at(after, HELD_UP)) == (0, 0);
    counters && is_first && at(before, MODE) == 2 && taken == 1
}

// This many items were evicted, each with its entry.
fn is_taken(before: &[u64], after: &[u64], taken: u64) -> bool {
    let counted = rise_of_classes(before, after, EVICTIONS_OF);
    let told = calls_told(before, after, (EVICT, EVICT));
    let lost = leads(before, after, Lead::Lost);
    let moved = leads(before, after, Lead::Moved);
    let other = leads(before, after, Lead::Other);
    counted == taken && told == Some(taken) && (lost, moved, other) == (taken, 0, 0)
}

fn is_left_by_turn(before: &[u64], after: &[u64]) -> bool {
    let class = at(before, SOURCE);
    is_kept(class, before, after)
        && is_same_move(class, before, after)
        && are_turned_headers(before, after)
        && are_saved(before, after)
}

// The same page moves, nothing was granted, and no counters but those of items that were saved rose.
fn is_same_move(class: u64, before: &[u64], after: &[u64]) -> bool {
    let pages = are_same(before, after, GRANTED, 3);
    let busy = rise(before, after, BUSY) == 0;
    let moving = are_same(before, after, MOVING, 3);
    let ledger = are_same(before, after, LEDGER, 17);
    let counts = rise(before, after, in_class(class, PAGES_OF));
    let evictions = rise(before, after, in_class(class, EVICTIONS_OF));
    pages && busy && moving && ledger && counts == 0 && evictions == 0
}

// Chunks were cleared from the old position to the new one alone, and the chunk there is as before.
fn are_turned_headers(before: &[u64], after: &[u64]) -> bool {
    let page = at(before, MOVING).wrapping_sub(1);
    let from = of_head(page, at(before, POSITION));
    let end = of_head(page, at(after, POSITION));
    let cleared = changes(before, after, Change::Cleared);
    let taken = changes(before, after, Change::TakenAndCleared);
    let here = changes_from(before, after, from, end, Change::Cleared);
    let taken_here = changes_from(before, after, from, end, Change::TakenAndCleared);
    let other = changes(before, after, Change::Other);
    let cut = changes(before, after, Change::Cut);
    let same = rise(before, after, end) == 0 && died(before, after) == 0;
    (cleared, taken, other, cut) == (here, taken_here, 0, 0) && same
}

// Each item that was taken away was evicted, or rescued, with its entry.
fn are_saved(before: &[u64], after: &[u64]) -> bool {
    let rescued = rise(before, after, RESCUES);
    let evicted = rise(before, after, EVICTIONS_NOMEM);
    let saved = rescued.wrapping_add(evicted);
    let taken = changes(before, after, Change::TakenAndCleared);
    let copied = changes(before, after, Change::Copied);
    let told = calls_told(before, after, (EVICT, RESCUE));
    let lost = leads(before, after, Lead::Lost);
    let moved = leads(before, after, Lead::Moved);
    let other = leads(before, after, Lead::Other);
    let leads = (lost, moved, other) == (evicted, rescued, 0);
    taken == saved && copied == rescued && told == Some(saved) && leads
}

/// What a turn did that was refused memory. It met no stripe that somebody had.
pub fn numbers_left(before: &[u64], after: &[u64]) -> Numbers {
    let cleared = changes(before, after, Change::Cleared);
    let taken = changes(before, after, Change::TakenAndCleared);
    let rescued = rise(before, after, RESCUES);
    let evicted = rise(before, after, EVICTIONS_NOMEM);
    let busy = rise(before, after, HELD_UP);
    [cleared.wrapping_add(taken), rescued, evicted, busy, 0]
}
