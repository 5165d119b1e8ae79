//! Notes that contracts alone read. They have no bytes and do nothing at run time, so they have no bound.
ghost use Rattle.std.specs.Prelude.{◌≡◌, ◌+◌, ◌++◌, ℕ, List, []};
ghost use Rattle.std.specs.Borrow.{ftrue};

use std::marker::Model;

/// The bytes that went by.
#[derive(Drop)]
pub(crate) struct Record {
    pub ghost bytes: { List ℕ },
}

impl Model for Record {
    ghost also_owns = { λ _. ftrue };
}

impl Record {
    /// No bytes yet.
    pub(crate) fn new() -> Record
        ensures { result.bytes ≡ [] }
    {
        Record {}
    }

    /// This record with more bytes at its end.
    pub(crate) fn and(&self, more: &[u8]) -> Record
        ensures { result.bytes ≡ self.now.bytes ++ more.now }
    {
        Record {}
    }
}

/// How often something was.
#[derive(Drop)]
pub(crate) struct Count {
    pub ghost total: { ℕ },
}

impl Model for Count {
    ghost also_owns = { λ _. ftrue };
}

impl Count {
    /// A count of 0.
    pub(crate) fn new() -> Count
        ensures { result.total ≡ 0 }
    {
        Count {}
    }

    /// Once more.
    pub(crate) fn next(&self) -> Count
        ensures { result.total ≡ self.now.total + 1 }
    {
        Count {}
    }
}
