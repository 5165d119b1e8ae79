//! The lists of classes, beside the headers of the chunks in them.
use super::headers::{is_free, is_handed_out};
use super::snapshot::{
    CLASS_BLOCK, CLASSES, FREE_OF, GRANTED, HEADS, LISTED, LISTS_OF, are_same, at, in_class,
    of_head,
};

/// The two lists of a class: the free list, and the hand-out order.
const FREE: usize = 0;

const ORDER: usize = 1;

/// Whether the class has the same numbers and lists.
pub fn is_same_class(before: &[u64], after: &[u64], class: u64) -> bool {
    are_same(before, after, in_class(class, 0), CLASS_BLOCK)
}

// The list's entry at this place, counted from 0: a chunk's number, or 0.
fn listed(seen: &[u64], class: u64, list: usize, place: u64) -> u64 {
    let first = in_class(class, LISTS_OF).wrapping_add(list);
    at(seen, first.wrapping_add(place.wrapping_mul(2) as usize))
}

// The place of a chunk's header, by the chunk's number in a list.
fn head_place(number: u64) -> usize {
    let chunk = number.wrapping_sub(1);
    of_head(chunk / 256, chunk % 256)
}

/// Whether each chunk of the class's free list is free, as many as it has, and each of its hand-out order is handed out.
pub fn are_listed(seen: &[u64], class: u64) -> bool {
    for place in 0..LISTED {
        let free = listed(seen, class, FREE, place);
        if free != 0 && !is_free(at(seen, head_place(free))) {
            return false;
        }
        let out = listed(seen, class, ORDER, place);
        if out != 0 && !is_handed_out(at(seen, head_place(out))) {
            return false;
        }
    }
    length(seen, class, FREE) == at(seen, in_class(class, FREE_OF))
}

/// Whether the chunks of the class's lists that kept their headers are in the order that they had.
pub fn is_in_order(before: &[u64], after: &[u64], class: u64) -> bool {
    keeps_order(before, after, class, FREE) && keeps_order(before, after, class, ORDER)
}

fn keeps_order(before: &[u64], after: &[u64], class: u64, list: usize) -> bool {
    let mut last = 0u64;
    for place in 0..LISTED {
        let chunk = listed(after, class, list, place);
        if chunk != 0 && are_same(before, after, head_place(chunk), 1) {
            let was = place_of(before, class, list, chunk);
            if was <= last {
                return false;
            }
            last = was;
        }
    }
    true
}

// The place of a chunk in a list, counted from 1. 0 where it isn't there.
fn place_of(seen: &[u64], class: u64, list: usize, chunk: u64) -> u64 {
    for place in 0..LISTED {
        if listed(seen, class, list, place) == chunk {
            return place.wrapping_add(1);
        }
    }
    0
}

/// Whether there are as many free chunks and as many that were handed out as all lists have.
pub fn are_all_listed(seen: &[u64]) -> bool {
    let mut lengths = (0u64, 0u64);
    for class in 1..=CLASSES {
        lengths.0 = lengths.0.wrapping_add(length(seen, class, FREE));
        lengths.1 = lengths.1.wrapping_add(length(seen, class, ORDER));
    }
    lengths == chunks(seen)
}

// How many chunks a list has.
fn length(seen: &[u64], class: u64, list: usize) -> u64 {
    let mut length = 0u64;
    for place in 0..LISTED {
        if listed(seen, class, list, place) != 0 {
            length = length.wrapping_add(1);
        }
    }
    length
}

// How many headers are those of free chunks, and of ones that were handed out.
fn chunks(seen: &[u64]) -> (u64, u64) {
    let mut chunks = (0u64, 0u64);
    for place in HEADS..GRANTED {
        let head = at(seen, place);
        chunks.0 = chunks.0.wrapping_add(u64::from(is_free(head)));
        chunks.1 = chunks.1.wrapping_add(u64::from(is_handed_out(head)));
    }
    chunks
}
