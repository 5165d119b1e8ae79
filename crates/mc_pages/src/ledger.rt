//! Who owns a page, and the entries that record how it changed hands.
ghost use Rattle.std.specs.Prelude.{◌≡◌};
ghost use Rattle.mc_pages.specs.Base.{page_after, never_granted};
ghost use Rattle.mc_pages.specs.Ledger.{page_of};

use mc_classes::{ClassId, PageId};

/// The owner of a page.
#[derive(Clone, Copy, PartialEq, Eq)]
pub enum Owner {
    /// Nobody yet: it was never granted.
    Untouched,
    /// The global page pool.
    Pool,
    /// A class.
    Class(ClassId),
    /// The class `src`, until all its chunks are cleared; then `dst`, or the pool where that is 0.
    Moving { src: ClassId, dst: ClassId },
}

impl Owner {
    ghost use Rattle.std.specs.Prelude.{◌≡◌};
    ghost use Rattle.mc_pages.specs.SlabState.{class_of_owner};

    /// The class whose page list has the page, or 0 where none has.
    pub fn class(self) -> ClassId
        ensures { result ≡ class_of_owner self }
    {
        match self {
            Owner::Untouched | Owner::Pool => 0,
            Owner::Class(class) => class,
            Owner::Moving { src, dst: _ } => src,
        }
    }
}

/// What some first entries of the ledger left of a page.
#[derive(Clone, Copy, PartialEq, Eq)]
pub struct BasePage {
    /// The owner of the page.
    pub owner: Owner,
    /// The class that got it beyond the limit, if one did.
    pub grace: Option<ClassId>,
}

/// One change of a page's owner.
#[derive(Clone, Copy, PartialEq, Eq)]
pub enum Entry {
    /// An untouched page was given to a class; with `true` beyond the limit, as the class's first.
    Granted(PageId, ClassId, bool),
    /// A page of the pool was given to a class.
    Taken(PageId, ClassId),
    /// A page of the first class began to move to the second, or to the pool where that is 0.
    Began(PageId, ClassId, ClassId),
    /// A moving page has come to its class, or to the pool where that is 0.
    Ended(PageId, ClassId),
}

impl Entry {
    /// The page that it is about.
    pub fn page(self) -> PageId
        ensures { result ≡ page_of self }
    {
        match self {
            Entry::Granted(page, _, _) | Entry::Taken(page, _) => page,
            Entry::Began(page, _, _) | Entry::Ended(page, _) => page,
        }
    }
}

impl BasePage {
    /// A page that was never granted.
    pub(crate) fn never_granted() -> BasePage
        ensures { result ≡ never_granted }
    {
        BasePage {
            owner: Owner::Untouched,
            grace: None,
        }
    }

    /// The page after one entry more about it.
    pub(crate) fn after(self, entry: Entry) -> BasePage
        ensures { result ≡ page_after entry self }
    {
        let owner = match entry {
            Entry::Granted(_, class, _) | Entry::Taken(_, class) => Owner::Class(class),
            Entry::Began(_, src, dst) => Owner::Moving { src, dst },
            Entry::Ended(_, 0) => Owner::Pool,
            Entry::Ended(_, dst) => Owner::Class(dst),
        };
        let grace = match entry {
            Entry::Granted(_, class, true) => Some(class),
            Entry::Granted(_, _, false) => None,
            _ => self.grace,
        };
        BasePage { owner, grace }
    }
}
