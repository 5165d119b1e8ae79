//! Which chunks died since their class was swept last, so that a sweep finds them without a walk.
ghost use Rattle.std.specs.Prelude.{◌≡◌, ◌-◌, ◌≤◌, if◌then◌else◌, Some, slice_set};
ghost use Rattle.mc_pages.specs.SlabState.{HasClass, class_of_page};
ghost use Rattle.mc_serial_spec.specs.Holds.{is_held};

use mc_classes::ClassId;
use mc_memory::{Refused, filled};
use mc_pages::{ChunkId, Slabs};
use mc_serial_parts::{Holds, LastDead, class_of};
use std::alloc::Global;

/// How many chunks of a class are noted. Where more die, a sweep walks (own).
const ROOM: usize = 128;

/// The chunks of one class that died since its last sweep, in that order, as far as there is room.
#[derive(Clone, Copy)]
struct DeadList {
    chunks: [ChunkId; ROOM],
    count: usize,
}

impl DeadList {
    /// One more died. It is left out where there is no room.
    fn push(&mut self, chunk: ChunkId) {
        if self.count < ROOM {
            self.chunks[self.count] = chunk;
            self.count += 1;
        }
    }

    /// One is dead no more, and the last one comes to its place.
    fn omit(&mut self, chunk: ChunkId) {
        let count = self.count.min(ROOM);
        for place in 0..count {
            if self.chunks[place] == chunk {
                self.chunks[place] = self.chunks[count - 1];
                self.count = count - 1;
                return;
            }
        }
    }

    /// The noted ones.
    fn as_mut_slice(&mut self) -> &mut [ChunkId] {
        let count = self.count.min(ROOM);
        &mut self.chunks[..count]
    }
}

/// The chunks that died since their class was swept last, class 1 first. They are hints: a sweep looks whether they are all that
/// are dead before it trusts them. Only `new` takes memory.
#[derive(Drop)]
pub(super) struct DeadNotes {
    by_class: Vec<DeadList>,
}

impl DeadNotes {
    /// No chunk of n classes is noted.
    pub(super) fn new(alloc: Global, classes: u64) -> Result<DeadNotes, Refused> {
        let none = DeadList {
            chunks: [ChunkId { page: 0, index: 0 }; ROOM],
            count: 0,
        };
        Ok(DeadNotes {
            by_class: filled(alloc, none, classes as usize)?,
        })
    }

    /// Notes that have room for no class.
    pub(super) fn none(alloc: Global) -> DeadNotes {
        DeadNotes {
            by_class: Vec::new(alloc),
        }
    }

    /// A chunk of the class died.
    fn push(&mut self, class: ClassId, chunk: ChunkId)
        requires { 1 ≤ class }
    {
        if let Some(list) = self.by_class.get_mut(class as usize - 1) {
            list.push(chunk);
        }
    }

    /// A chunk of the class is dead no more.
    pub(super) fn omit(&mut self, class: ClassId, chunk: ChunkId)
        requires { 1 ≤ class }
    {
        if let Some(list) = self.by_class.get_mut(class as usize - 1) {
            list.omit(chunk);
        }
    }

    /// The noted ones of the class. None where there is no such class.
    pub(super) fn of_mut(&mut self, class: ClassId) -> Option<&mut [ChunkId]>
        requires { 1 ≤ class }
    {
        match self.by_class.get_mut(class as usize - 1) {
            Some(list) => Some(list.as_mut_slice()),
            None => None,
        }
    }

    /// No chunk of the class is noted any more.
    pub(super) fn forget(&mut self, class: ClassId)
        requires { 1 ≤ class }
    {
        if let Some(list) = self.by_class.get_mut(class as usize - 1) {
            list.count = 0;
        }
    }
}

/// Hints at the dead of each class: the chunk that died last, be it dead still or not, and those that died since the last sweep.
#[derive(Drop)]
pub(super) struct DeadHints {
    pub(super) last: LastDead,
    pub(super) noted: DeadNotes,
}

impl DeadHints {
    /// No chunk of n classes has died yet.
    pub(super) fn new(alloc: Global, classes: u64) -> Result<DeadHints, Refused> {
        let last = LastDead::new(alloc, classes)?;
        let noted = DeadNotes::new(alloc, classes)?;
        Ok(DeadHints { last, noted })
    }
}

/// Notes a chunk as its class's last, and among those to be swept, where nobody holds it. No key leads to it any more.
pub(super) fn note_unheld(hints: &mut DeadHints, holds: &Holds, slabs: &Slabs, chunk: ChunkId)
    requires { HasClass slabs.now.state (class_of_page slabs.now.state chunk.page) }
    ensures last { hints.new.last
        ≡ (if is_held holds.now chunk then hints.old.last else slice_set hints.old.last
        (class_of_page slabs.now.state chunk.page - 1) (Some chunk)) }
{
    if !holds.is_held(chunk) {
        let class = class_of(slabs, chunk);
        hints.last.set(class, chunk);
        hints.noted.push(class, chunk);
    }
}
