//! The places of the arena's words.
ghost use Rattle.std.specs.Prelude.{◌≡◌, ◌+◌, ◌*◌, ◌^◌, ◌<◌, ◌≤◌, length, slice_index_or, MatchOption};
ghost use Rattle.mc_classes.specs.Limits.{most_page_chunks};
ghost use Rattle.mc_pages.specs.SlabState.{class_of_page};
ghost use Rattle.mc_core.specs.model.State.{most_of, is_class, room_in, has_chunk, head_place, chunk_room, word_place};

use super::State;
use mc_classes::ClassId;
use mc_pages::{ChunkId, Owner};

/// The place of an entry in a table of rows, if it is a number of 64 bits.
fn place_of(row: u64, width: u64, entry: u64) -> Option<u64>
    ensures { MatchOption result (2 ^ 64 ≤ row * width + entry) (λ place.
        place ≡ row * width + entry) }
{
    row.checked_mul(width)?.checked_add(entry)
}

impl State {
    /// The most chunks of a page.
    pub(super) fn most(&self) -> u64
        ensures most { result ≡ most_of self.now.table }
        ensures bound { result ≤ most_page_chunks }
    {
        self.table.per_page(1)
    }

    /// Whether the table has the class.
    pub(super) fn is_class(&self, class: ClassId) -> bool
        ensures { result ≡ is_class self.now.table class }
    {
        class >= 1 && class <= self.table.count()
    }

    /// Whether the arena has such a chunk.
    pub(super) fn has_chunk(&self, chunk: ChunkId) -> bool
        ensures { result ≡ has_chunk self.now.table chunk }
    {
        chunk.page < self.table.arena_pages() && chunk.index < self.most()
    }

    /// The place of a chunk's header, if it has one.
    pub(super) fn head_place(&self, chunk: ChunkId) -> Option<usize>
        ensures { MatchOption result (length self.now.heads
            ≤ head_place self.now.table chunk) (λ place. (place ≡ head_place self.now.table chunk)
            × (place < length self.now.heads)) }
    {
        match place_of(chunk.page, self.most(), chunk.index) {
            Some(place) if place < self.heads.len() as u64 => Some(place as usize),
            _ => None,
        }
    }

    /// The class whose page list has the page, or 0.
    pub(super) fn class_of_page(&self, page: u64) -> ClassId
        ensures { result ≡ class_of_page self.now.slabs page }
    {
        if page >= self.table.arena_pages() {
            return 0;
        }
        match self.slabs.owner(page) {
            Owner::Untouched | Owner::Pool => 0,
            Owner::Class(class) => class,
            Owner::Moving { src, dst: _ } => src,
        }
    }

    /// The words of a chunk of the class, none where there is no such class.
    pub(super) fn room_in(&self, class: ClassId) -> u64
        ensures room { result ≡ room_in self.now.table class }
        ensures bound { result ≤ 2048 }
    {
        if self.is_class(class) {
            self.table.size(class) / 8
        } else {
            0
        }
    }

    /// How many words the chunk has.
    pub(super) fn room(&self, chunk: ChunkId) -> u64
        ensures room { result ≡ chunk_room self.now chunk }
        ensures bound { result ≤ 2048 }
    {
        self.room_in(self.class_of_page(chunk.page))
    }

    /// The place of a chunk's word, if there is one.
    pub(super) fn word_place(&self, chunk: ChunkId, place: u64) -> Option<usize>
        ensures { MatchOption result (length self.now.words
            ≤ word_place self.now chunk place) (λ found. (found ≡ word_place self.now chunk place)
            × (found < length self.now.words)) }
    {
        let count = self.words.len() as u64;
        let Some(inside) = place_of(chunk.index, self.room(chunk), place) else {
            return None;
        };
        match place_of(chunk.page, self.table.page() / 8, inside) {
            Some(found) if found < count => Some(found as usize),
            _ => None,
        }
    }
}
