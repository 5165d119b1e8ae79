//! The header of a chunk: one word that records the chunk's state.
ghost use Rattle.std.specs.Prelude.{◌≡◌, ◌^◌, ◌<◌};
ghost use Rattle.mc_core.specs.model.Head.{code, is_dead};

/// The state of a chunk.
#[derive(Clone, Copy, PartialEq, Eq)]
pub enum Tag {
    /// The chunk is on no list: its page isn't cut for it, or moves away.
    Out,
    /// The chunk is on its class's free list.
    Free,
    /// The chunk is handed out, and no key leads to it.
    Unlinked,
    /// The chunk is handed out, and its key leads to it.
    Linked,
}

/// A header, taken apart. As a word it is `issue * 2^18 + tag * 2^16 + count`, the tags being 0 to 3.
#[derive(Clone, Copy, PartialEq, Eq)]
pub struct Head {
    /// How often the chunk was handed out.
    pub issue: u64,
    pub tag: Tag,
    /// How many holdings of the chunk hands have, and one more where the chunk is linked.
    pub count: u16,
}

impl Tag {
    ghost use Rattle.mc_core.specs.model.Head.{number_of_tag};

    /// The tag's number, 0 to 3.
    pub fn number(self) -> u64
        ensures { result ≡ number_of_tag self }
    {
        match self {
            Tag::Out => 0,
            Tag::Free => 1,
            Tag::Unlinked => 2,
            Tag::Linked => 3,
        }
    }
}

impl Head {
    /// The header of a chunk that was never cut.
    pub const NEVER_CUT: Head = Head {
        issue: 0,
        tag: Tag::Out,
        count: 0,
    };

    /// The header as a word.
    #[tactic(auto, unfolding(crate::specs::model::Head::code))]
    pub fn word(self) -> u64
        requires { self.issue < 2 ^ 46 }
        ensures { result ≡ code self }
    {
        self.issue * 262_144 + self.tag.number() * 65_536 + u64::from(self.count)
    }

    /// Nobody holds the chunk, and no key leads to it, but it is on no free list yet.
    pub fn is_dead(self) -> bool
        ensures { result ≡ is_dead self }
    {
        self.tag == Tag::Unlinked && self.count == 0
    }
}
