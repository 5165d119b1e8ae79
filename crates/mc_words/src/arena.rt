//! The arena: the table that hands share, and what it was made with.
pub(crate) mod beginning;
pub(crate) mod creation;
pub(crate) mod end;
pub(crate) mod plan;
pub(crate) mod refusal;

ghost use Rattle.std.specs.Prelude.{◌≡◌, ◌+◌, ◌^◌, ◌<◌, ◌≤◌};
ghost use Rattle.mc_classes.specs.Limits.{most_hands, most_stripes};
ghost use Rattle.mc_classes.specs.Classes.{IsSound, arena_pages_of};
ghost use Rattle.mc_core.specs.run.Chunks.{most_issue};
ghost use Rattle.mc_core.specs.model.State.{most_of, page_words};
ghost use Rattle.mc_words.specs.rule.Layout.{data_from, heads_from, pages_from, word_count};
ghost use Rattle.mc_words.specs.lock.Slots.{slot_count};

use crate::arena::plan::Plan;
use crate::chunk::hints::Hints;
use crate::lock::contention::Contention;
use crate::rule::SharedTable;
use mc_classes::{ClassTable, Config};
use mc_pages::ChunkId;

/// A slab memory that up to 64 hands share. All that a hand does to it goes by `&self`.
#[derive(Drop)]
pub struct Arena {
    pub(crate) table: SharedTable,
    pub(crate) plan: Plan,
    /// The word of page 0, that of the header of its chunk 0, and its first data word.
    pub(crate) first_page: usize,
    pub(crate) first_head: usize,
    pub(crate) first_data: usize,
    /// The most chunks of a page.
    pub(crate) most: usize,
    /// The words of a page.
    pub(crate) words_a_page: u64,
    /// Where dead chunks may be.
    pub(crate) hints: Hints,
    /// Whether hands wait for the lock of the slabs.
    pub(crate) contention: Contention,
    ghost planned: { table.shared.key ≡ plan },
    ghost words: { table.shared.table_id.words ≡ word_count plan },
    ghost slots: { table.shared.table_id.slots ≡ slot_count plan.config.stripes },
    ghost sound: { IsSound plan.table },
    ghost some: { 1 ≤ plan.config.stripes },
    ghost within_limit: { plan.config.stripes ≤ most_stripes },
    ghost hands: { (1 ≤ plan.hands) × (plan.hands ≤ most_hands) },
    ghost begun: { plan.start ≤ most_issue },
    ghost places: { (first_page ≡ pages_from plan) × (first_head ≡ heads_from plan) × (first_data ≡ data_from plan) },
    ghost counts: { (most ≡ most_of plan.table) × (words_a_page ≡ page_words plan.table) },
    ghost small: { word_count plan < 2 ^ 63 },
}

impl Arena {
    ghost use Rattle.mc_core.specs.model.State.{has_chunk};
    ghost use Rattle.mc_words.specs.hand.Arenas.{setup_of};

    /// The configuration of the arena.
    pub fn config(&self) -> &Config
        ensures config { result.now ≡ (setup_of self.now).config }
    {
        self.plan.config()
    }

    /// The size classes of the arena.
    pub fn classes(&self) -> &ClassTable
        ensures classes { result.now ≡ (setup_of self.now).table }
    {
        self.plan.classes()
    }

    // How many pages the arena has, by the places of their words: it divides nothing.
    #[inline(always)]
    pub(crate) fn page_count(&self) -> u64
        ensures { result ≡ arena_pages_of (setup_of self.now).table }
    {
        (self.first_head - self.first_page) as u64
    }

    /// Whether the arena has the chunk: a header that may be looked at.
    #[inline(always)]
    pub fn has_chunk(&self, chunk: ChunkId) -> bool
        ensures { result ≡ has_chunk (setup_of self.now).table chunk }
    {
        chunk.page < (self.first_head - self.first_page) as u64 && chunk.index < self.most as u64
    }
}
