//! The free list and the hand-out order of a class, copied, and what is in them.
ghost use Rattle.std.specs.Prelude.{◌≡◌, IfOk};
ghost use Rattle.mc_pages.specs.SlabState.{HasClass, class_at};
ghost use Rattle.mc_core.specs.run.Silent.{is_among, has_page, is_handed_out, is_listed, has_listed};

use super::State;
use mc_classes::{ClassId, PageId};
use mc_memory::{Refused, push};
use mc_pages::{ChunkId, Slabs};
use std::alloc::Global;

/// The class's free list, from its head.
pub fn free_of(alloc: Global, slabs: &Slabs, class: ClassId) -> Result<Vec<ChunkId>, Refused>
    requires { HasClass slabs.now.state class }
    ensures { IfOk result (λ chunks. chunks.items ≡ (class_at slabs.now.state class).free) }
{
    let mut chunks = Vec::new(alloc);
    while let Some(chunk) = slabs.free_at(class, chunks.len() as u64) {
        push(&mut chunks, chunk)?;
    }
    Ok(chunks)
}

/// The class's hand-out order, the oldest first.
pub fn order_of(alloc: Global, slabs: &Slabs, class: ClassId) -> Result<Vec<ChunkId>, Refused>
    requires { HasClass slabs.now.state class }
    ensures { IfOk result (λ chunks. chunks.items ≡ (class_at slabs.now.state class).order) }
{
    let mut chunks = Vec::new(alloc);
    while let Some(chunk) = slabs.order_at(class, chunks.len() as u64) {
        push(&mut chunks, chunk)?;
    }
    Ok(chunks)
}

/// Whether the chunk is among these.
fn is_among(chunks: &[ChunkId], chunk: ChunkId) -> bool
    ensures { result ≡ is_among chunks.now chunk }
{
    chunks.iter().any(|other| *other == chunk)
}

/// Whether some chunk of the page is among these.
fn has_page(chunks: &[ChunkId], page: PageId) -> bool
    ensures { result ≡ has_page chunks.now page }
{
    chunks.iter().any(|other| other.page == page)
}

impl State {
    /// The free list of a class, from its head.
    pub(super) fn free(&self, class: ClassId) -> Result<Vec<ChunkId>, Refused>
        ensures { IfOk result (λ chunks. chunks.items ≡ (class_at self.now.slabs class).free) }
    {
        let class = class.max(1);
        if class <= self.table.count() {
            free_of(self.alloc, &self.slabs, class)
        } else {
            Ok(Vec::new(self.alloc))
        }
    }

    /// The hand-out order of a class, the oldest first.
    pub(super) fn order(&self, class: ClassId) -> Result<Vec<ChunkId>, Refused>
        ensures { IfOk result (λ chunks. chunks.items ≡ (class_at self.now.slabs class).order) }
    {
        let class = class.max(1);
        if class <= self.table.count() {
            order_of(self.alloc, &self.slabs, class)
        } else {
            Ok(Vec::new(self.alloc))
        }
    }

    /// Whether the chunk is handed out.
    pub(super) fn is_handed_out(&self, chunk: ChunkId) -> Result<bool, Refused>
        ensures { IfOk result (λ is. is ≡ is_handed_out self.now.slabs chunk) }
    {
        let order = self.order(self.class_of_page(chunk.page))?;
        Ok(is_among(&order, chunk))
    }

    /// Whether the chunk is in a list of the class.
    pub(super) fn is_listed(&self, class: ClassId, chunk: ChunkId) -> Result<bool, Refused>
        ensures { IfOk result (λ is. is ≡ is_listed self.now.slabs class chunk) }
    {
        let free = self.free(class)?;
        let order = self.order(class)?;
        Ok(is_among(&free, chunk) || is_among(&order, chunk))
    }

    /// Whether some chunk of the page is in a list of the class.
    pub(super) fn has_listed(&self, class: ClassId, page: PageId) -> Result<bool, Refused>
        ensures { IfOk result (λ has. has ≡ has_listed self.now.slabs class page) }
    {
        let free = self.free(class)?;
        let order = self.order(class)?;
        Ok(has_page(&free, page) || has_page(&order, page))
    }
}
