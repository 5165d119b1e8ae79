//! The looks of the hand that has the slabs lock: what it saw and changed.
ghost use Rattle.std.specs.Prelude.{◌≡◌};
ghost use Rattle.mc_core.specs.model.Looks.{stays_linked, stays_alive, was_linked, is_found_alive};

use crate::event::Change;
use crate::head::{Head, Tag};
use mc_pages::ChunkId;

/// Something that a hand saw, or changed, under its hold of the slabs lock.
#[derive(Clone, Copy, PartialEq, Eq)]
pub enum Look {
    /// The hand saw this header.
    Saw(ChunkId, Head),
    /// The hand saw this word of a stripe's lock.
    SawStripe(u64, u64),
    /// The hand read this data word of a linked chunk: its place in the chunk, and the word.
    Read(ChunkId, u64, u64),
    /// The hand handed the chunk out to itself, with this header.
    Popped(ChunkId, Head),
    /// The hand handed the first chunk out to itself in the second one's place, with this header.
    PoppedOff(ChunkId, ChunkId, Head),
    /// The hand took the chunk's item away, which left this header.
    Condemned(ChunkId, Head),
    /// The hand put a dead chunk on its free list, with this header.
    PutBack(ChunkId, Head),
    /// The hand cleared the chunk, with this header.
    Cleared(ChunkId, Head),
    /// The hand cut the chunk, with this header.
    Cut(ChunkId, Head),
    /// The hand changed pages or lists, and no word.
    Changed(Change),
}

impl Look {
    /// Whether after this look, too, the chunk was found linked, and neither put back nor cleared since.
    fn stays_linked(&self, chunk: ChunkId, before: bool) -> bool
        ensures { result ≡ stays_linked chunk before self.now }
    {
        match *self {
            Look::Saw(seen, head) => before || (seen == chunk && head.tag == Tag::Linked),
            Look::PutBack(seen, _) | Look::Cleared(seen, _) => before && seen != chunk,
            _ => before,
        }
    }

    /// Whether after this look, too, the last look at the chunk found it not dead.
    fn stays_alive(&self, chunk: ChunkId, before: bool) -> bool
        ensures { result ≡ stays_alive chunk before self.now }
    {
        match *self {
            Look::Saw(seen, head) if seen == chunk => !head.is_dead(),
            Look::Popped(_, _)
            | Look::PoppedOff(_, _, _)
            | Look::Condemned(_, _)
            | Look::Cleared(_, _) => false,
            _ => before,
        }
    }
}

/// Whether the chunk was found linked, and neither put back nor cleared since.
pub(crate) fn was_linked(looks: &[Look], chunk: ChunkId) -> bool
    ensures { result ≡ was_linked looks.now chunk }
{
    let mut linked = false;
    for look in looks {
        linked = look.stays_linked(chunk, linked);
    }
    linked
}

/// Whether the chunk was looked at since the hand last handed out, condemned or cleared one, and found not dead.
pub(crate) fn is_found_alive(looks: &[Look], chunk: ChunkId) -> bool
    ensures { result ≡ is_found_alive looks.now chunk }
{
    let mut alive = false;
    for look in looks {
        alive = look.stays_alive(chunk, alive);
    }
    alive
}
