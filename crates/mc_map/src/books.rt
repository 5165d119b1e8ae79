//! What became of each page: who owns it, which pages the pool has, and the entries that record how it came there.
ghost use Rattle.std.specs.Prelude.{◌≡◌, position, IfOk, OnOk};
ghost use Rattle.mc_map.specs.Books.{book_after_change, fresh_books, grown_next, book_after, with_began, with_ended};
ghost use Rattle.mc_pages.specs.SlabState.{is_untouched};

use crate::glance::Glance;
use mc_classes::{ClassId, ClassTable, PageId};
use mc_memory::{Refused, filled, push};
use mc_pages::{Entry, Moving, Owner};
use std::alloc::Global;
use std::marker::Model;

/// The owners of all pages, the pool, and the ledger.
#[derive(Drop)]
pub struct Books {
    /// How many pages may be granted within the limit. They are granted before those beyond it.
    within: u64,
    owners: Vec<Owner>,
    /// The pages of the pool, the one that came last at the end.
    pool: Vec<PageId>,
    ledger: Vec<Entry>,
}

impl Model for Books {
    ghost use Rattle.mc_map.specs.Books.{Book};

    ghost Value = { Book };

    ghost view = { λ b. record { within = b.within; owners = b.owners.items; pool = b.pool.items; ledger = b.ledger.items } };
}

impl Books {
    /// No page was granted yet.
    pub fn new(alloc: Global, table: &ClassTable) -> Result<Books, Refused>
        ensures fresh { IfOk result (λ books. books ≡ fresh_books table.now) }
    {
        Ok(Books {
            within: table.pages(),
            owners: filled(alloc, Owner::Untouched, table.arena_pages() as usize)?,
            pool: Vec::new(alloc),
            ledger: Vec::new(alloc),
        })
    }

    /// How many pages may be granted within the limit. They have the lowest numbers.
    pub fn within(&self) -> u64
        ensures { result ≡ self.now.within }
    {
        self.within
    }

    /// Who owns each page, page 0 first.
    pub fn owners(&self) -> &[Owner]
        ensures { result.now ≡ self.now.owners }
    {
        &self.owners
    }

    /// The pages of the pool. The one that came last is at the end.
    pub fn pool(&self) -> &[PageId]
        ensures { result.now ≡ self.now.pool }
    {
        &self.pool
    }

    /// Every change of a page's owner, in order.
    pub fn ledger(&self) -> &[Entry]
        ensures { result.now ≡ self.now.ledger }
    {
        &self.ledger
    }

    /// Notes which page changed hands between two glances, if one did. A page that was given went to this class.
    pub fn note(&mut self, class: ClassId, before: Glance, after: Glance) -> Result<(), Refused>
        ensures noted { OnOk result (self.new ≡ book_after self.old class before after) }
    {
        if before.granted < after.granted || after.pool < before.pool {
            return self.grow(class);
        }
        match (before.moving, after.moving) {
            (None, Some(moving)) => self.begin(moving),
            (Some(moving), None) => self.end(moving),
            _ => Ok(()),
        }
    }

    /// The class got a page: the one that came last into the pool, or else the lowest that was never granted.
    pub fn grow(&mut self, class: ClassId) -> Result<(), Refused>
        ensures grown { OnOk result (self.new ≡ grown_next self.old class) }
    {
        if let Some(page) = self.pool.pop() {
            return self.change(page, Entry::Taken(page, class), Owner::Class(class));
        }
        match self.untouched() {
            Some(place) => {
                let page = place as u64;
                let entry = Entry::Granted(page, class, page >= self.within);
                self.change(page, entry, Owner::Class(class))
            }
            None => Ok(()),
        }
    }

    /// A page began to move.
    pub fn begin(&mut self, moving: Moving) -> Result<(), Refused>
        ensures began { OnOk result (self.new ≡ with_began self.old moving) }
    {
        let Moving { page, src, dst, .. } = moving;
        self.change(
            page,
            Entry::Began(page, src, dst),
            Owner::Moving { src, dst },
        )
    }

    /// A moving page has come to its class, or to the pool.
    pub fn end(&mut self, moving: Moving) -> Result<(), Refused>
        ensures ended { OnOk result (self.new ≡ with_ended self.old moving) }
    {
        let Moving { page, dst, .. } = moving;
        if dst != 0 {
            return self.change(page, Entry::Ended(page, dst), Owner::Class(dst));
        }
        push(&mut self.pool, page)?;
        self.change(page, Entry::Ended(page, 0), Owner::Pool)
    }

    /// The lowest page that was never granted.
    fn untouched(&self) -> Option<usize>
        ensures { result ≡ position is_untouched self.now.owners }
    {
        self.owners.iter().position(|owner| is_untouched(*owner))
    }

    /// The page has this owner now, by this entry.
    fn change(&mut self, page: PageId, entry: Entry, owner: Owner) -> Result<(), Refused>
        ensures changed { OnOk result (self.new ≡ book_after_change self.old page entry owner) }
    {
        if page < self.owners.len() as u64 {
            self.owners[page as usize] = owner;
        }
        push(&mut self.ledger, entry)
    }
}

/// Whether nobody was given the page yet.
fn is_untouched(owner: Owner) -> bool
    ensures { result ≡ is_untouched owner }
{
    matches!(owner, Owner::Untouched)
}
