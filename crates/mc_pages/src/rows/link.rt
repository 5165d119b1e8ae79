//! A link of a row, in four bytes.
ghost use Rattle.std.specs.Prelude.{◌≡◌};
ghost use Rattle.mc_pages.specs.Links.{HasNumber};

use crate::ids::ChunkId;
use mc_classes::MOST_PAGE_CHUNKS;
use std::marker::Model;

/// A chunk, or none.
#[derive(Clone, Copy)]
pub(crate) struct Link {
    /// 0 is none. Any other leads to the chunk of the number before it, counted by pages of the most chunks.
    number: u32,
}

impl Model for Link {
    ghost use Rattle.std.specs.Prelude.{Option};
    ghost use Rattle.mc_pages.specs.declared.ids.ChunkId.{ChunkId};

    ghost Value = { Option ChunkId };

    ghost use Rattle.mc_pages.specs.Links.{link_of_number, link_number};

    ghost view = { link_of_number };

    ghost inverse = { link_number };
}

impl Link {
    /// A link to this chunk, or to none.
    #[inline(always)]
    pub(crate) fn to(chunk: Option<ChunkId>) -> Link
        requires { HasNumber chunk }
        ensures { result ≡ chunk }
    {
        match chunk {
            Some(chunk) => Link {
                number: (chunk.page * MOST_PAGE_CHUNKS + chunk.index + 1) as u32,
            },
            None => Link { number: 0 },
        }
    }

    /// Where the link leads.
    #[inline(always)]
    pub(crate) fn chunk(self) -> Option<ChunkId>
        ensures { result ≡ self }
    {
        if self.number == 0 {
            return None;
        }
        let place = u64::from(self.number - 1);
        Some(ChunkId {
            page: place / MOST_PAGE_CHUNKS,
            index: place % MOST_PAGE_CHUNKS,
        })
    }
}
