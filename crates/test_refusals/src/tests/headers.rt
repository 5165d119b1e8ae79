//! What became of headers between two snapshots.
use super::snapshot::{GRANTED, HEADS, at};

/// What an issue number is multiplied by in a header's word; and the rest of the word of a free chunk, of a dead one, and of a linked one
/// that nobody holds.
const ISSUE: u64 = 262_144;

const FREE: u64 = 65_536;

const DEAD: u64 = 131_072;

const UNHELD: u64 = 196_609;

/// What became of a header.
#[derive(Clone, Copy, PartialEq, Eq)]
pub enum Change {
    Same,
    /// The chunk was dead, and is free.
    PutBack,
    /// The chunk was out, and is free.
    Cut,
    /// The chunk was handed out and given up, so that it is dead.
    Died,
    /// The chunk's item was taken away, and the chunk was given up, so that it is dead.
    TakenAndDied,
    /// The chunk was handed out, and its item linked.
    Copied,
    /// The chunk was free or dead, and is out.
    Cleared,
    /// The chunk's item was taken away, and the chunk is out.
    TakenAndCleared,
    /// What no refused call does.
    Other,
}

/// What became of a header's word.
fn change_of(before: u64, after: u64) -> Change {
    if before == after {
        return Change::Same;
    }
    let issues = (after / ISSUE).wrapping_sub(before / ISSUE);
    match (issues, before % ISSUE, after % ISSUE) {
        (0, DEAD, FREE) => Change::PutBack,
        (0, 0, FREE) => Change::Cut,
        (0, FREE | DEAD, 0) => Change::Cleared,
        (0, UNHELD, 0) => Change::TakenAndCleared,
        (1, 0 | FREE | DEAD, DEAD) => Change::Died,
        (1, UNHELD, DEAD) => Change::TakenAndDied,
        (1, FREE | DEAD, UNHELD) => Change::Copied,
        _ => Change::Other,
    }
}

/// How many of the headers from one place on, before another, became this.
pub fn changes_from(before: &[u64], after: &[u64], from: usize, end: usize, change: Change) -> u64 {
    let mut count = 0u64;
    for place in from..end {
        if change_of(at(before, place), at(after, place)) == change {
            count = count.wrapping_add(1);
        }
    }
    count
}

/// How many of all headers became this.
pub fn changes(before: &[u64], after: &[u64], change: Change) -> u64 {
    changes_from(before, after, HEADS, GRANTED, change)
}

/// Whether this is the header's word of a free chunk.
pub fn is_free(head: u64) -> bool {
    head % ISSUE == FREE
}

/// Whether this is the header's word of a chunk that was handed out: dead, or held, or linked.
pub fn is_handed_out(head: u64) -> bool {
    head % ISSUE >= DEAD
}
