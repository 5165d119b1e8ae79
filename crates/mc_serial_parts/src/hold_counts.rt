//! How many holds there are of each chunk, by place.
ghost use Rattle.std.specs.Prelude.{◌≡◌, ◌+◌, ◌-◌, ◌<◌, ◌≤◌, ℕ, [], length, slice_index_or, OnOk};
ghost use Rattle.mc_pages.specs.declared.ids.ChunkId.{ChunkId};
ghost use Rattle.mc_pages.specs.Accounted.{truth};
ghost use Rattle.mc_pages.specs.ClassState.{is_chunk};
ghost use Rattle.mc_serial_parts.specs.CountsByPlace.{count_at, counts_by_page, CountAlike, IsReached};

use mc_memory::{Refused, push};
use mc_pages::ChunkId;
use std::alloc::Global;
use std::marker::Model;

/// A count for each chunk, 0 for those that nobody held yet.
#[derive(Drop)]
pub(crate) struct HoldCounts {
    alloc: Global,
    /// For each page, from page 0, a count for each of its chunks up to the last that was held.
    pages: Vec<Vec<u16>>,
}

impl Model for HoldCounts {
    ghost use Rattle.std.specs.Prelude.{List, ℕ};
    ghost use Rattle.mc_serial_parts.specs.CountsByPlace.{count_rows};

    ghost Value = { List (List ℕ) };

    ghost view = { count_rows };
}

impl HoldCounts {
    /// Nobody holds a chunk.
    pub(crate) fn new(alloc: Global) -> HoldCounts
        ensures fresh { result ≡ [] }
    {
        HoldCounts {
            alloc,
            pages: Vec::new(alloc),
        }
    }

    /// The chunk's.
    pub(crate) fn of(&self, chunk: ChunkId) -> u64
        ensures count { result ≡ count_at self.now chunk }
    {
        let Some(counts) = self.pages.get(chunk.page as usize) else {
            return 0;
        };
        match counts.get(chunk.index as usize) {
            Some(count) => u64::from(*count),
            None => 0,
        }
    }

    /// Makes a place for the chunk, if it has none.
    pub(crate) fn reach(&mut self, chunk: ChunkId) -> Result<(), Refused>
        ensures there { OnOk result (IsReached self.new chunk) }
        ensures same { CountAlike self.old self.new }
    {
        reach_page(self.alloc, &mut self.pages, chunk.page)?;
        reach_index(&mut self.pages[chunk.page as usize], chunk.index)?;
        Ok(())
    }

    /// Counts one more hold of the chunk.
    pub(crate) fn increment(&mut self, chunk: ChunkId)
        requires there { IsReached self.old chunk }
        requires within_limit { count_at self.old chunk < 65535 }
        ensures incremented { (other : ChunkId) →
            count_at self.new other ≡ count_at self.old other + truth (is_chunk chunk other) }
    {
        self.pages[chunk.page as usize][chunk.index as usize] += 1;
    }

    /// Counts one hold of the chunk less.
    pub(crate) fn decrement(&mut self, chunk: ChunkId)
        requires { 1 ≤ count_at self.old chunk }
        ensures decremented { (other : ChunkId) →
            count_at self.new other + truth (is_chunk chunk other) ≡ count_at self.old other }
    {
        self.pages[chunk.page as usize][chunk.index as usize] -= 1;
    }
}

/// Makes counts for the page, if it has none.
fn reach_page(alloc: Global, pages: &mut Vec<Vec<u16>>, page: u64) -> Result<(), Refused>
    ensures there { OnOk result (page < length pages.new.items) }
    ensures same { CountAlike (counts_by_page pages.old.items) (counts_by_page pages.new.items) }
{
    while pages.len() as u64 <= page {
        push(pages, Vec::new(alloc))?;
    }
    Ok(())
}

/// Makes a count of the page at the index, if it has none.
fn reach_index(counts: &mut Vec<u16>, index: u64) -> Result<(), Refused>
    ensures there { OnOk result (index < length counts.new.items) }
    ensures same { (at : ℕ) → slice_index_or counts.new.items at 0
        ≡ slice_index_or counts.old.items at 0 }
{
    while counts.len() as u64 <= index {
        push(counts, 0)?;
    }
    Ok(())
}
