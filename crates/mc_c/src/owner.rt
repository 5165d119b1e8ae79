//! The owner of a client's memory, by a pointer that C carries and doesn't follow.
ghost use Rattle.std.specs.Prelude.{◌≡◌, Bool, true, false};
ghost use Rattle.mc_c.specs.Owner.{owns_if};
ghost use Rattle.mc_c.specs.declared.client.Client.{Client};

mod lending;

use crate::client::Client;
use crate::parts::Parts;
use std::alloc::Global;
use std::marker::Model;
use std::ptr;

/// A box of a client, or nothing.
#[repr(C)]
#[derive(Drop)]
pub struct Owner {
    at: *mut u8,
    alloc: Global,
    pub ghost full: { Bool },
    pub ghost client: { Client },
}

impl Model for Owner {
    ghost also_owns = { λ h. owns_if h.full h.alloc h.at h.client };
}

impl Owner {
    pub fn of(client: Box<Client>) -> Owner
        ensures full { result.full ≡ true }
        ensures client { result.client ≡ client.value }
    {
        Owner::of_parts(Parts::of(client))
    }

    pub fn into_box(self) -> Box<Client>
        requires full { self.full ≡ true }
        ensures client { result.value ≡ self.client }
    {
        self.into_parts().into_box()
    }

    fn of_parts(parts: Parts<Client, Global>) -> Owner
        ensures { (result.full ≡ true) × (result.client ≡ parts.value) }
    {
        let Parts { ptr, alloc } = parts;
        Owner {
            at: ptr.cast(),
            alloc,
        }
    }

    fn into_parts(self) -> Parts<Client, Global>
        requires { self.full ≡ true }
        ensures { result.value ≡ self.client }
    {
        let Owner { at, alloc } = self;
        Parts {
            ptr: at.cast(),
            alloc,
        }
    }

    pub fn empty(alloc: Global, _like: &Owner) -> Owner
        ensures { result.full ≡ false }
    {
        Owner {
            at: ptr::null_mut(),
            alloc,
        }
    }
}
