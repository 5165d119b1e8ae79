//! A snapshot: all that an arena and a hand of it have, as numbers in one list. Each has its own place there, whatever the others are.
use mc_pages::{ChunkId, Entry, Moving};
use mc_stripe::Call;

/// How many pages and how many chunks of a page there are, whatever class it is cut for.
pub const PAGES: u64 = 4;

pub const MOST: u64 = 21;
/// How many classes, keys and stripes are looked at.
pub const CLASSES: u64 = 4;

pub const KEYS: u64 = 20;

pub const STRIPES: u64 = 4;
/// The most chunks of a list, entries of the ledger, and calls of a history that are looked at.
pub const LISTED: u64 = 64;

pub const ENTRIES: usize = 16;

pub const CALLS: usize = 16;

/// A snapshot begins with how many chunks the hand that acts holds, and its next stamp; then come all headers, page by page.
pub const HEADS: usize = 2;
/// Behind the headers come totals, mode, move and ledger.
pub const GRANTED: usize = 86;

pub const POOL: usize = 87;

pub const MOVED: usize = 88;

pub const RESCUES: usize = 89;

pub const EVICTIONS_NOMEM: usize = 90;

pub const BUSY: usize = 91;

pub const MODE: usize = 92;

pub const MOVING: usize = 93;

pub const SOURCE: usize = 94;

pub const POSITION: usize = 96;

pub const HELD_UP: usize = 97;

pub const LEDGER: usize = 98;
/// Behind the ledger comes a block of numbers for each class: how many pages it has, how many free chunks and how many evictions,
/// and its lists.
const CLASS_BLOCKS: usize = 115;

pub const CLASS_BLOCK: usize = 131;

pub const PAGES_OF: usize = 0;

pub const FREE_OF: usize = 1;

pub const EVICTIONS_OF: usize = 2;

pub const LISTS_OF: usize = 3;
/// Behind the classes comes a block for each stripe: chunk and stamp of each of its keys, its history, whether it has room for a
/// call and an entry aside, how many calls aren't recorded, and how many keys these left.
pub const STRIPE_BLOCKS: usize = 639;

pub const STRIPE_BLOCK: usize = 63;

pub const HISTORY: usize = 10;

pub const READY: usize = 59;

pub const ASIDE: usize = 60;

pub const TRIMMED: usize = 61;

pub const BASED: usize = 62;

/// How many numbers a snapshot has.
pub const LENGTH: usize = 891;

/// The number at this place.
pub fn at(seen: &[u64], place: usize) -> u64 {
    match seen.get(place) {
        Some(number) => *number,
        None => 0,
    }
}

/// The place of a class's number, by its place in its block. Classes count from 1.
pub fn in_class(class: u64, place: usize) -> usize {
    let blocks = (class as usize).wrapping_sub(1).wrapping_mul(CLASS_BLOCK);
    CLASS_BLOCKS.wrapping_add(blocks).wrapping_add(place)
}

/// The place of a stripe's number, by its place in its block.
pub fn in_stripe(stripe: u64, place: usize) -> usize {
    let blocks = (stripe as usize).wrapping_mul(STRIPE_BLOCK);
    STRIPE_BLOCKS.wrapping_add(blocks).wrapping_add(place)
}

/// The place of a key's chunk. Its stamp is the next.
pub fn of_key(key: u64) -> usize {
    in_stripe(key % STRIPES, (key / STRIPES).wrapping_mul(2) as usize)
}

/// The place of a chunk's header.
pub fn of_head(page: u64, index: u64) -> usize {
    let chunks = page.wrapping_mul(MOST).wrapping_add(index);
    HEADS.wrapping_add(chunks as usize)
}

/// Whether n numbers from one place on are the same.
pub fn are_same(before: &[u64], after: &[u64], from: usize, count: usize) -> bool {
    let end = from.wrapping_add(count);
    before.get(from..end) == after.get(from..end)
}

/// How much a number rose.
pub fn rise(before: &[u64], after: &[u64], place: usize) -> u64 {
    at(after, place).wrapping_sub(at(before, place))
}

/// How much all classes' numbers at this place of their blocks rose together.
pub fn rise_of_classes(before: &[u64], after: &[u64], place: usize) -> u64 {
    let mut sum = 0u64;
    for class in 1..=CLASSES {
        sum = sum.wrapping_add(rise(before, after, in_class(class, place)));
    }
    sum
}

/// Adds a number. There is room for it.
pub fn note(seen: &mut Vec<u64>, number: u64) {
    let _ = seen.push(number);
}

/// A chunk as a number, 0 for none.
pub fn chunk_number(chunk: Option<ChunkId>) -> u64 {
    match chunk {
        Some(chunk) => (chunk.page.wrapping_mul(256) ^ chunk.index).wrapping_add(1),
        None => 0,
    }
}

/// An entry of the ledger as a number, 0 for none.
pub fn entry_number(entry: Option<Entry>) -> u64 {
    let (kind, page, src, dst) = match entry {
        Some(Entry::Granted(page, class, grace)) => (1u64, page, u64::from(grace), class),
        Some(Entry::Taken(page, class)) => (2, page, 0, class),
        Some(Entry::Began(page, src, dst)) => (3, page, src, dst),
        Some(Entry::Ended(page, dst)) => (4, page, 0, dst),
        None => (0, 0, 0, 0),
    };
    kind.wrapping_mul(1_000_000) ^ page.wrapping_mul(65_536) ^ src.wrapping_mul(256) ^ dst
}

/// Adds a call of a history: its kind with the hand, the key, and its stamp or reply. Zeros for none.
pub fn note_call(seen: &mut Vec<u64>, call: Option<Call>) {
    let (kind, hand, key, reply) = match call {
        Some(Call::Set(hand, key, stamp)) => (1, hand, key, stamp),
        Some(Call::Get(hand, key, stamp)) => (2, hand, key, stamp.unwrap_or(0)),
        Some(Call::Delete(hand, key, there)) => (3, hand, key, u64::from(there)),
        Some(Call::Evict(hand, key)) => (4, hand, key, 0),
        Some(Call::Rescue(hand, key)) => (5, hand, key, 0),
        None => (0, 0, 0, 0),
    };
    note(seen, hand.wrapping_mul(8) ^ kind);
    note(seen, key);
    note(seen, reply);
}

/// Adds the move that runs: its page, counted from 1, source, destination, position, and how many chunks held it up. Zeros for none.
pub fn note_move(seen: &mut Vec<u64>, moving: Option<Moving>) {
    let (page, src, dst, at, busy) = match moving {
        Some(moving) => (
            moving.page.wrapping_add(1),
            moving.src,
            moving.dst,
            moving.at,
            moving.busy,
        ),
        None => (0, 0, 0, 0, 0),
    };
    note(seen, page);
    note(seen, src);
    note(seen, dst);
    note(seen, at);
    note(seen, busy);
}
