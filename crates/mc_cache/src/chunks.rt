//! The chunks that a class has on all shards together, as memcached's `stats slabs` counts them.
ghost use Rattle.std.specs.Prelude.{◌≡◌};
ghost use Rattle.mc_classes.specs.Classes.{IsClass};
ghost use Rattle.mc_cache.specs.Chunks.{WorkedChunks, chunks_of};

use crate::stats::ClassStats;
use mc_classes::{ClassId, ClassTable};

/// The chunks of one class on all shards together. Each number stays at 2^64 - 1 once there.
#[derive(Debug, Clone, Copy, PartialEq, Eq)]
pub struct ClassChunks {
    /// The bytes of a chunk.
    pub chunk_bytes: u64,
    /// How many chunks a page has.
    pub per_page: u64,
    /// How many chunks the class's pages have, those of a page that moves included.
    pub chunks: u64,
    /// How many of them are on no free list. A chunk that has no item any more is among them until it is put back.
    pub used: u64,
}

impl ClassStats {
    /// The chunks of a class that has these statistics. `classes` are those of its cache. (slabs.c's `do_slabs_stats`)
    pub fn chunks(&self, classes: &ClassTable, class: ClassId) -> ClassChunks
        requires class { IsClass classes.now class }
        ensures chunks { result ≡ chunks_of classes.now class self.now }
    {
        let per_page = classes.per_page(class);
        let chunks = self.pages.saturating_mul(per_page);
        ClassChunks {
            chunk_bytes: classes.size(class),
            per_page,
            chunks,
            used: chunks.saturating_sub(self.free),
        }
    }
}

/// Worked cases. Three pages of five chunks of 192 bytes with four free ones have 15 chunks, and 11 of them are used; without pages there is no
/// chunk; and a product that would pass 2^64 - 1 stays there.
pub fn worked_chunks()
    ensures { WorkedChunks }
{}
