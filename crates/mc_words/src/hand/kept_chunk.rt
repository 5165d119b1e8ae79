//! A chunk that a hand remembers, in one word.
use mc_classes::MOST_PAGE_CHUNKS;
use mc_pages::ChunkId;

/// The chunk that a hand left dead when it stored over an item, if the hand remembers such chunks. It does so from its first `recover_own` on.
/// No hint names the chunk. Nothing proved rests on it: who puts it back looks at its header.
#[derive(Clone, Copy)]
pub(crate) struct KeptChunk {
    /// 0 where the hand remembers no chunks, and 1 where it has none to remember. Any other is the number of a chunk and 2, counted by pages of
    /// the most chunks.
    number: u64,
}

/// The number of a hand that has no chunk to remember.
const NONE: u64 = 1;

/// The number of the first chunk.
const FIRST: u64 = 2;

impl KeptChunk {
    /// The hand remembers no chunks.
    pub(crate) fn new() -> KeptChunk {
        KeptChunk { number: 0 }
    }

    /// Whether the hand remembers chunks.
    #[inline(always)]
    pub(crate) fn is_asked_for(self) -> bool {
        self.number != 0
    }

    /// This chunk.
    #[inline(always)]
    pub(crate) fn of(chunk: ChunkId) -> KeptChunk {
        let first = chunk.page.wrapping_mul(MOST_PAGE_CHUNKS);
        KeptChunk {
            number: first.wrapping_add(chunk.index).wrapping_add(FIRST),
        }
    }

    /// The chunk, if there is one. The hand remembers chunks from now on, and has none.
    #[inline(always)]
    pub(crate) fn take(&mut self) -> Option<ChunkId> {
        let chunk = self.chunk();
        self.number = NONE;
        chunk
    }

    /// No chunk any more. Whether the hand remembers chunks stays.
    pub(crate) fn without_chunk(self) -> KeptChunk {
        KeptChunk {
            number: self.number.min(NONE),
        }
    }

    /// The chunk, if there is one.
    #[inline(always)]
    pub(crate) fn chunk(self) -> Option<ChunkId> {
        if self.number < FIRST {
            return None;
        }
        let place = self.number.wrapping_sub(FIRST);
        Some(ChunkId {
            page: place / MOST_PAGE_CHUNKS,
            index: place % MOST_PAGE_CHUNKS,
        })
    }
}
