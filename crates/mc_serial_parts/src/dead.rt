//! Handed-out chunks that are dead: neither a key leads to them nor anybody holds them. How many each class has, and which of
//! them came last.
ghost use Rattle.std.specs.Prelude.{◌≡◌, ◌+◌, ◌-◌, ◌<◌, ◌≤◌, length, IfOk, if◌then◌else◌, None, replicate, slice_index_or, slice_set, Some};
ghost use Rattle.mc_pages.specs.SlabState.{HasClass, class_of_page};
ghost use Rattle.mc_serial_spec.specs.Holds.{is_held};

use crate::holds::Holds;
use mc_classes::ClassId;
use mc_memory::{Refused, filled};
use mc_pages::{ChunkId, Slabs};
use std::alloc::Global;
use std::marker::Model;

/// A count for each class, class 1 first.
#[derive(Drop)]
pub struct DeadCounts {
    by_class: Vec<u64>,
}

impl Model for DeadCounts {
    ghost use Rattle.std.specs.Prelude.{List, ℕ};

    ghost Value = { List ℕ };

    ghost view = { λ d. d.by_class.items };
}

impl DeadCounts {
    /// None of n classes has a dead chunk.
    pub fn new(alloc: Global, classes: u64) -> Result<DeadCounts, Refused>
        ensures fresh { IfOk result (λ counts. counts ≡ replicate classes 0) }
    {
        Ok(DeadCounts {
            by_class: filled(alloc, 0, classes as usize)?,
        })
    }

    /// How many the class has.
    pub fn of(&self, class: ClassId) -> u64
        requires first { 1 ≤ class }
        requires last { class ≤ length self.now }
        ensures count { result ≡ slice_index_or self.now (class - 1) 0 }
    {
        self.by_class[class as usize - 1]
    }

    /// Counts one more dead chunk of the class.
    pub fn increment(&mut self, class: ClassId)
        requires first { 1 ≤ class }
        requires last { class ≤ length self.old }
        requires within_limit { slice_index_or self.old (class - 1) 0 < 65536 }
        ensures incremented { self.new ≡ slice_set self.old (class - 1)
            (slice_index_or self.old (class - 1) 0 + 1) }
    {
        self.by_class[class as usize - 1] += 1;
    }

    /// Counts one dead chunk of the class less.
    pub fn decrement(&mut self, class: ClassId)
        requires first { 1 ≤ class }
        requires last { class ≤ length self.old }
        requires some { 1 ≤ slice_index_or self.old (class - 1) 0 }
        ensures decremented { self.new ≡ slice_set self.old (class - 1)
            (slice_index_or self.old (class - 1) 0 - 1) }
    {
        self.by_class[class as usize - 1] -= 1;
    }
}

/// For each class the chunk that was counted as dead last, be it dead still or not.
#[derive(Drop)]
pub struct LastDead {
    by_class: Vec<Option<ChunkId>>,
}

impl Model for LastDead {
    ghost use Rattle.std.specs.Prelude.{List, Option};
    ghost use Rattle.mc_pages.specs.declared.ids.ChunkId.{ChunkId};

    ghost Value = { List (Option ChunkId) };

    ghost view = { λ d. d.by_class.items };
}

impl LastDead {
    /// No chunk of n classes was counted yet.
    pub fn new(alloc: Global, classes: u64) -> Result<LastDead, Refused>
        ensures fresh { IfOk result (λ last. last ≡ replicate classes None) }
    {
        Ok(LastDead {
            by_class: filled(alloc, None, classes as usize)?,
        })
    }

    /// The class's, none where there is no such class.
    pub fn of(&self, class: ClassId) -> Option<ChunkId>
        requires { 1 ≤ class }
        ensures chunk { result ≡ slice_index_or self.now (class - 1) None }
    {
        *self.by_class.get(class as usize - 1)?
    }

    /// The class's is this chunk now. Where there is no such class nothing changes.
    pub fn set(&mut self, class: ClassId, chunk: ChunkId)
        requires { 1 ≤ class }
        ensures noted { self.new ≡ slice_set self.old (class - 1) (Some chunk) }
    {
        if class <= self.by_class.len() as u64 {
            self.by_class[class as usize - 1] = Some(chunk);
        }
    }
}

/// Counts a chunk as dead where nobody holds it. No key leads to it any more.
pub fn count_unheld(dead: &mut DeadCounts, holds: &Holds, slabs: &Slabs, chunk: ChunkId)
    requires class { HasClass slabs.now.state (class_of_page slabs.now.state chunk.page) }
    requires of_each { length dead.old ≡ length slabs.now.state.classes }
    requires within_limit { slice_index_or dead.old (class_of_page slabs.now.state chunk.page - 1) 0
        < 65536 }
    ensures counts { dead.new
        ≡ (if is_held holds.now chunk then dead.old else slice_set dead.old
        (class_of_page slabs.now.state chunk.page - 1)
        (slice_index_or dead.old (class_of_page slabs.now.state chunk.page - 1) 0 + 1)) }
{
    if !holds.is_held(chunk) {
        let class = class_of(slabs, chunk);
        dead.increment(class);
    }
}

/// The class that has the chunk.
pub fn class_of(slabs: &Slabs, chunk: ChunkId) -> ClassId
    requires { HasClass slabs.now.state (class_of_page slabs.now.state chunk.page) }
    ensures class { result ≡ class_of_page slabs.now.state chunk.page }
{
    slabs.owner(chunk.page).class()
}
