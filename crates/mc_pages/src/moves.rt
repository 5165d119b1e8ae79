//! The requests for a page's move, and the answers to them.
use mc_memory::Refused;

/// What the mover found at a chunk of the moving page, and did.
#[derive(Clone, Copy, PartialEq, Eq)]
pub enum Found {
    /// The chunk was free or dead, and is cleared now.
    Cleared,
    /// The chunk's item was taken to another chunk of the class, and the chunk is cleared now.
    Rescued,
    /// The chunk's item was evicted, as the class had no other chunk, and the chunk is cleared now.
    Evicted,
    /// Somebody holds the chunk's item.
    Busy,
    /// The item lock of its key was taken.
    Locked,
    /// The chunk was cleared before.
    Already,
}

impl Found {
    ghost use Rattle.std.specs.Prelude.{◌≡◌, if◌then◌else◌};
    ghost use Rattle.mc_pages.specs.Moves.{is_held_up, rescued_of, evicted_of};

    /// 1 for what holds up the move.
    pub(crate) fn held_up(self) -> u64
        ensures { result ≡ (if is_held_up self then 1 else 0) }
    {
        match self {
            Found::Busy | Found::Locked => 1,
            _ => 0,
        }
    }

    /// 1 for an item that was taken to another chunk.
    pub(crate) fn rescued(self) -> u64
        ensures { result ≡ rescued_of self }
    {
        match self {
            Found::Rescued => 1,
            _ => 0,
        }
    }

    /// 1 for an item that was evicted as there was no other chunk.
    pub(crate) fn evicted(self) -> u64
        ensures { result ≡ evicted_of self }
    {
        match self {
            Found::Evicted => 1,
            _ => 0,
        }
    }
}

/// Why no page begins to move.
#[derive(PartialEq, Eq, Drop)]
pub enum Reassign {
    /// A page is moving already.
    Busy,
    /// Source and destination are one.
    Same,
    /// A class doesn't exist, the source is the pool, or no class can be picked.
    BadClass,
    /// The source has fewer than two pages.
    NoSpare,
    /// Memory ran out.
    NoMemory(Refused),
}

impl From<Refused> for Reassign {
    ghost use Rattle.std.specs.Prelude.{◌≡◌};
    ghost use Rattle.mc_pages.specs.declared.moves.Reassign.TheVariants.{NoMemory};

    ghost from_gives = { λ refused error. error ≡ NoMemory refused };

    fn from(refused: Refused) -> Reassign {
        Reassign::NoMemory(refused)
    }
}
