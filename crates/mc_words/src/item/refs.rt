//! References to items, and hints by which they are had again.
ghost use Rattle.std.specs.Prelude.{◌≡◌};

use mc_pages::ChunkId;

/// A reference to an item, which counts until it is released. Where it is dropped, it counts for good.
#[derive(Drop)]
pub struct Ref {
    pub(crate) chunk: ChunkId,
    /// The issue number with which its chunk was handed out.
    pub(crate) issue: u64,
    /// How many words the reference's chunk has.
    pub(crate) room: u64,
}

impl Ref {
    /// The chunk of the reference's item.
    pub fn chunk(&self) -> ChunkId
        ensures chunk { result ≡ self.now.chunk }
    {
        self.chunk
    }

    /// A hint of the item, by which a reference to it can be had again without its stripe's lock.
    pub fn hint(&self) -> Hint
        ensures chunk { result.chunk ≡ self.now.chunk }
        ensures issue { result.issue ≡ self.now.issue }
    {
        Hint {
            chunk: self.chunk,
            issue: self.issue,
        }
    }
}

/// Where an item was, and with which issue number its chunk was handed out for it. It counts nothing, so the item may be gone. (own)
#[derive(Clone, Copy, PartialEq, Eq)]
pub struct Hint {
    pub(crate) chunk: ChunkId,
    pub(crate) issue: u64,
}

impl Hint {
    /// A hint of the item that this chunk had, or may have had, with this issue number. The numbers may be any: whoever follows
    /// the hint looks at the chunk's header.
    pub fn new(chunk: ChunkId, issue: u64) -> Hint
        ensures chunk { result.chunk ≡ chunk }
        ensures issue { result.issue ≡ issue }
    {
        Hint { chunk, issue }
    }

    /// The chunk, and the issue number.
    pub fn numbers(&self) -> (ChunkId, u64)
        ensures numbers { result ≡ (self.now.chunk, self.now.issue) }
    {
        let Hint { chunk, issue } = *self;
        (chunk, issue)
    }
}

/// Why no reference is had by a hint.
#[derive(Clone, Copy, PartialEq, Eq, Drop)]
pub enum Again {
    /// The item is gone: its chunk isn't linked any more, or was handed out anew.
    Gone,
    /// The item was seen, and then its header was changed by another hand. It was there still, so a hand may try again.
    Contended,
    /// The hand holds `MOST_REFS` chunks.
    TooManyRefs,
}
