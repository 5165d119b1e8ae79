//! The client behind an owner, lent. It is apart from the owner's file, as its clauses read what the owner owns.
ghost use Rattle.std.specs.Prelude.{◌≡◌, true};
ghost use types.Logic.{sem};
ghost use Rattle.mc_c.specs.Lending.{owner_follows};

use super::Owner;
use crate::client::Client;

impl Owner {
    /// The client of a full owner.
    pub fn as_mut(&mut self) -> &mut Client
        requires full { self.old.full ≡ true }
        ensures* writes_back { sem 𝓛 (owner_follows self.entry result) }
        ensures client { result.now ≡ self.old.client }
    {
        unsafe { &mut *(self.at.cast()) }
    }
}
