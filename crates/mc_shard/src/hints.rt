//! Hints of where items are, and marks of those that were got, in words beside the arenas. No proof rests on them: the words may
//! have any numbers, and a get looks at the chunk's header before it takes a hint for true. (own)
ghost use Rattle.std.specs.Prelude.{◌≡◌, true, IfSome};
ghost use Rattle.mc_core.specs.model.State.{has_chunk};
ghost use Rattle.mc_words.specs.hand.Arenas.{setup_of};
ghost use Rattle.mc_words.specs.hand.Observers.{hint_chunk};

use mc_memory::{Refused, push, with_capacity};
use mc_pages::ChunkId;
use mc_words::{Arena, Hint};
use std::alloc::Global;
use std::sync::atomic::AtomicU64;
use std::sync::atomic::Ordering::SeqCst;

/// How many places a hash may have. They lie side by side, in one line of the processor's cache. (own)
const WAYS: usize = 4;

/// A place holds the chunk in which an item was found last, and the issue number that the chunk had. A hash leads to a bucket of
/// [`WAYS`] places by its lower half, so hashes share places.
///
/// A word is `issue * 2^32 + part * 2^17 + mark * 2^15 + page * 2^8 + index`. `part` is 15 bits of the hash: a get passes over most hints of
/// other hashes by them, with no look at a header. `mark` counts uses of the item, 3 at most, less the evictions that looked at it. An issue
/// number of `2^32` or more is cut, and its hint leads nowhere.
#[derive(Drop)]
pub struct HintTable {
    words: Vec<AtomicU64>,
    /// The number of buckets.
    buckets: u64,
}

/// One use of an item, in the mark of a word. (after memcached's `ITEM_ACTIVE`)
const USE: u64 = 1 << 15;

/// The bits of the mark. (own: a mark of one bit hits less under a scan)
const MARK: u64 = 3 * USE;

// The part of the hash that a word has.
fn part_of(hash: u64) -> u64 {
    hash >> 40 & 0x7fff
}

// Whether a word has the hash's part.
#[inline(always)]
fn is_of(word: u64, hash: u64) -> bool {
    word >> 17 & 0x7fff == part_of(hash)
}

// Why an item is looked at.
#[derive(Clone, Copy)]
pub(crate) enum Look {
    // For its value: its mark counts one use more, up to three.
    Use,
    // For anything else: its mark stays.
    Peek,
}

impl Look {
    // What becomes of the mark.
    #[inline(always)]
    fn mark_after(self, mark: u64) -> u64 {
        match self {
            Look::Use if mark < MARK => mark.wrapping_add(USE),
            _ => mark,
        }
    }
}

// The chunk of a word.
fn chunk_of(word: u64) -> ChunkId {
    ChunkId {
        page: word >> 8 & 127,
        index: word & 255,
    }
}

impl HintTable {
    /// A table without hints, of n places. A place takes eight bytes.
    pub fn new(alloc: Global, count: u64) -> Result<HintTable, Refused> {
        let mut words = with_capacity(alloc, count as usize)?;
        for _ in 0..count {
            push(&mut words, AtomicU64::new(0))?;
        }
        let buckets = count / WAYS as u64;
        Ok(HintTable { words, buckets })
    }

    // The places of a hash. A table of fewer than `WAYS` places has none.
    #[inline(always)]
    fn bucket(&self, hash: u64) -> &[AtomicU64] {
        let bucket = (hash & 0xffff_ffff).wrapping_mul(self.buckets) >> 32;
        let first = (bucket as usize).wrapping_mul(WAYS);
        self.words
            .get(first..first.wrapping_add(WAYS))
            .unwrap_or(&[])
    }

    /// The place whose word has the hash's part, with that word.
    #[inline(always)]
    pub(crate) fn find(&self, hash: u64) -> Option<(&AtomicU64, u64)> {
        for place in self.bucket(hash) {
            let word = place.load(SeqCst);
            if is_of(word, hash) {
                return Some((place, word));
            }
        }
        None
    }

    // The place for a hint of a hash that no place has: the first without a mark, as a look finds it soonest; else one by bits of the hash.
    fn spare_place(&self, hash: u64) -> Option<&AtomicU64> {
        let bucket = self.bucket(hash);
        let mut spare = bucket.get((hash >> 32) as usize % WAYS);
        for place in bucket.iter().rev() {
            if place.load(SeqCst) & MARK == 0 {
                spare = Some(place);
            }
        }
        spare
    }

    /// Puts the hint of an item that a look found, with the mark that a place of the hash has, or no mark, changed by the look.
    pub(crate) fn note_found(&self, hash: u64, hint: Hint, look: Look) {
        match self.find(hash) {
            Some((place, word)) => put(place, hash, hint, look.mark_after(word & MARK)),
            None => self.note_new(hash, hint, look.mark_after(0)),
        }
    }

    /// Puts the hint of an item that was stored. Where a place has the hash, the key was stored before, and is used once more: also where its
    /// item was evicted meanwhile. (own, after S3-FIFO's queue of keys that went)
    pub(crate) fn note_stored(&self, hash: u64, hint: Hint) {
        match self.find(hash) {
            Some((place, word)) => put(place, hash, hint, Look::Use.mark_after(word & MARK)),
            None => self.note_new(hash, hint, 0),
        }
    }

    // Puts the hint with its mark at a place, where no place has a hint of the hash.
    fn note_new(&self, hash: u64, hint: Hint, mark: u64) {
        if let Some(place) = self.spare_place(hash) {
            put(place, hash, hint, mark);
        }
    }

    /// Whether the item of the hash has a mark, and takes one use off it.
    pub fn take_mark(&self, hash: u64) -> bool {
        let Some((place, word)) = self.find(hash) else {
            return false;
        };
        if word & MARK == 0 {
            return false;
        }
        place.store(word.wrapping_sub(USE), SeqCst);
        true
    }
}

/// The hint in a word, if the word has a chunk of the arena.
#[inline(always)]
pub(crate) fn hint_in(arena: &Arena, word: u64) -> Option<Hint>
    ensures in_range { IfSome result (λ hint.
        has_chunk (setup_of arena.now).table (hint_chunk hint) ≡ true) }
{
    let chunk = chunk_of(word);
    if !arena.has_chunk(chunk) {
        return None;
    }
    Some(Hint::new(chunk, word >> 32))
}

/// Changes the mark of the word that a look found at the place. A greatest mark is left, so most gets only load the word.
#[inline(always)]
pub(crate) fn mark_found(place: &AtomicU64, word: u64, look: Look) {
    if let Look::Use = look {
        if word & MARK < MARK {
            place.store(word.wrapping_add(USE), SeqCst);
        }
    }
}

// Writes the hint and the mark of the hash's item into a place.
#[inline(always)]
fn put(place: &AtomicU64, hash: u64, hint: Hint, mark: u64) {
    let (chunk, issue) = hint.numbers();
    let at = (chunk.page & 127) << 8 | chunk.index & 255;
    place.store(issue << 32 | part_of(hash) << 17 | mark | at, SeqCst);
}
