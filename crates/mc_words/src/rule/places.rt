//! The places of the table's words.
ghost use Rattle.std.specs.Prelude.{◌≡◌, ◌+◌, ◌<◌, ◌≤◌, ℕ, true};
ghost use Rattle.mc_classes.specs.Classes.{arena_pages_of};
ghost use Rattle.mc_core.specs.model.State.{has_chunk, most_of};
ghost use Rattle.mc_words.specs.hand.Arenas.{setup_of};
ghost use Rattle.mc_words.specs.rule.Layout.{config_from, data_word, head_word, page_word};

use crate::arena::Arena;
use mc_classes::PageId;
use mc_pages::ChunkId;

impl Arena {
    /// The word of a page.
    #[inline(always)]
    pub(crate) fn page_word(&self, page: PageId) -> usize
        requires in_range { page < arena_pages_of (setup_of self.now).table }
        ensures word { result ≡ page_word (setup_of self.now) page }
        ensures in_range { result < self.now.table.shared.table_id.words }
    {
        self.first_page + page as usize
    }

    /// The word of a chunk's header.
    #[inline(always)]
    pub(crate) fn head_word(&self, chunk: ChunkId) -> usize
        requires in_range { has_chunk (setup_of self.now).table chunk ≡ true }
        ensures word { result ≡ head_word (setup_of self.now) chunk }
        ensures in_range { result < self.now.table.shared.table_id.words }
    {
        self.first_head + chunk.page as usize * self.most + chunk.index as usize
    }

    /// The word of the header of a page's first chunk. Those of its other chunks are behind it, in their order.
    #[inline(always)]
    pub(crate) fn heads_of_page(&self, page: PageId) -> usize
        requires in_range { page < arena_pages_of (setup_of self.now).table }
        ensures words { (index : ℕ) →
            head_word (setup_of self.now) (record { page = page; index = index }) ≡ result + index }
        ensures in_range { result + most_of (setup_of self.now).table
            ≤ self.now.table.shared.table_id.words }
    {
        self.first_head + page as usize * self.most
    }

    /// A data word of a chunk with room for n words.
    #[inline(always)]
    pub(crate) fn data_word(&self, room: u64, chunk: ChunkId, place: u64) -> usize
        requires in_range { data_word (setup_of self.now) room chunk place
            < config_from (setup_of self.now) }
        ensures word { result ≡ data_word (setup_of self.now) room chunk place }
        ensures in_range { result < self.now.table.shared.table_id.words }
    {
        let offset = chunk.page * self.words_a_page + chunk.index * room + place;
        self.first_data + offset as usize
    }
}
