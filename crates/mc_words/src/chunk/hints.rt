//! Hints of where dead chunks may be, beside the table. Nothing proved rests on them: who follows one looks at the chunk's header, and
//! who has none looks at all headers.
use crate::hand::kept_chunk::KeptChunk;
use crate::header::{DEAD, ISSUE_UNIT};
use crossbeam_utils::CachePadded;
use mc_classes::PageId;
use mc_memory::{Refused, push, with_capacity};
use mc_pages::ChunkId;
use std::alloc::Global;
use std::sync::atomic::AtomicU64;
use std::sync::atomic::Ordering::SeqCst;

/// How many words the bits of a page's chunks take, of which there are `MOST_PAGE_CHUNKS` at most.
pub(crate) const WORDS_A_PAGE: u64 = 4;

/// How many words the hints have, for 127 pages.
const WORDS: usize = 508;

/// How many bits a word has.
pub(crate) const BITS: u64 = 64;

/// A bit for each chunk that may be dead, and one for each page on which there may be such a chunk. A chunk's bit is set before its
/// page's, and taken after it, so that a hint is late at most and never lost.
#[derive(Drop)]
pub struct Hints {
    /// Of the pages 0 to 63, and of those from 64 on.
    low: CachePadded<AtomicU64>,
    high: CachePadded<AtomicU64>,
    chunks: Vec<AtomicU64>,
}

impl Hints {
    /// Hints that name no chunk.
    pub(crate) fn new(alloc: Global) -> Result<Hints, Refused> {
        let mut chunks = with_capacity(alloc, WORDS)?;
        for _ in 0..WORDS {
            push(&mut chunks, AtomicU64::new(0))?;
        }
        Ok(Hints {
            low: CachePadded::new(AtomicU64::new(0)),
            high: CachePadded::new(AtomicU64::new(0)),
            chunks,
        })
    }

    /// The chunk's header is this now: the chunk is noted where it is dead.
    #[inline(always)]
    pub(crate) fn note_if_dead(&self, chunk: ChunkId, head: u64) {
        if head % ISSUE_UNIT == DEAD {
            self.note(chunk);
        }
    }

    /// The chunk's header is this now: where the chunk is dead, it is noted, or its hand keeps it, if the hand remembers chunks. Then the one that
    /// it kept before is noted. Returns what the hand keeps.
    #[inline(always)]
    pub(crate) fn keep_if_dead(&self, kept: KeptChunk, chunk: ChunkId, head: u64) -> KeptChunk {
        if head % ISSUE_UNIT != DEAD {
            return kept;
        }
        if !kept.is_asked_for() {
            self.note(chunk);
            return kept;
        }
        self.note_kept(kept);
        KeptChunk::of(chunk)
    }

    /// The chunk that a hand kept may be dead, if it kept one.
    #[inline(always)]
    pub(crate) fn note_kept(&self, kept: KeptChunk) {
        if let Some(chunk) = kept.chunk() {
            self.note(chunk);
        }
    }

    /// The chunk may be dead.
    pub(crate) fn note(&self, chunk: ChunkId) {
        if let Some(word) = self.chunks.get(place(chunk.page, chunk.index / BITS)) {
            word.fetch_or(1 << (chunk.index % BITS), SeqCst);
            self.note_page(chunk.page);
        }
    }

    // A chunk of the page may be dead. Where its bit is there already nothing is written.
    fn note_page(&self, page: PageId) {
        let bits = self.bits_with(page);
        let bit = 1 << (page % BITS);
        if bits.load(SeqCst) & bit == 0 {
            bits.fetch_or(bit, SeqCst);
        }
    }

    // The word with the page's bit.
    fn bits_with(&self, page: PageId) -> &AtomicU64 {
        if page < BITS { &self.low } else { &self.high }
    }

    /// The pages on which chunks may be dead, as bits, that of page 0 lowest.
    pub(crate) fn pages(&self) -> u128 {
        let low = u128::from(self.low.load(SeqCst));
        let high = u128::from(self.high.load(SeqCst));
        high << BITS | low
    }

    /// Takes the page's bit.
    pub(crate) fn take_page(&self, page: PageId) {
        self.bits_with(page)
            .fetch_and(!(1 << (page % BITS)), SeqCst);
    }

    /// Takes the bits of 64 chunks of the page: those from 64 times `word` on. Where there is none nothing is written.
    pub(crate) fn take_chunks(&self, page: PageId, word: u64) -> u64 {
        match self.chunks.get(place(page, word)) {
            Some(bits) if bits.load(SeqCst) != 0 => bits.swap(0, SeqCst),
            _ => 0,
        }
    }
}

// The place of the word with a page's bits.
fn place(page: PageId, word: u64) -> usize {
    page.saturating_mul(WORDS_A_PAGE).saturating_add(word) as usize
}
