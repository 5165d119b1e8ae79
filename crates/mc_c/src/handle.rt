//! The handles of C: of a worker and of the tender. A handle is open or closed, and zeros are a closed one.
ghost use Rattle.std.specs.Prelude.{◌≡◌, ◌≢◌, ◌↔◌, true};

use crate::client::Client;
use crate::owner::Owner;
use std::alloc::Global;
use std::mem;

/// What C keeps of a worker or of the tender, 16 bytes that a program passes on and doesn't change.
#[repr(C)]
#[derive(Drop)]
pub struct Handle {
    /// 1 where the handle is open.
    state: u64,
    pub(crate) owner: Owner,
    ghost full: { state ≡ 1 → owner.full ≡ true },
}

impl Handle {
    ghost use Rattle.std.specs.Prelude.{◌≡◌, ◌≢◌, ◌↔◌, Some, true};
    ghost use Rattle.mc_c.specs.Handles.{client_of};

    /// An open handle of a client.
    pub(crate) fn of(client: Box<Client>) -> Handle
        ensures { client_of result ≡ Some client.value }
    {
        Handle {
            state: 1,
            owner: Owner::of(client),
        }
    }

    /// Whether the handle owns a client.
    pub(crate) fn is_open(&self) -> bool
        ensures full { result ≡ true → self.now.owner.full ≡ true }
        ensures open { (result ≡ true) ↔ (self.now.state ≡ 1) }
    {
        self.state == 1
    }

    /// Closes the handle, and returns whether it was open. What it led to is freed.
    pub(crate) fn close(&mut self, alloc: Global) -> bool
        ensures closed { self.new.state ≢ 1 }
        ensures open { (result ≡ true) ↔ (self.old.state ≡ 1) }
    {
        if !self.is_open() {
            return false;
        }
        self.state = 0;
        let empty = Owner::empty(alloc, &self.owner);
        let owner = mem::replace(&mut self.owner, empty);
        drop(owner.into_box());
        true
    }
}
