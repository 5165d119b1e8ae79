//! How a class gets a page.
ghost use Rattle.std.specs.Prelude.{◌≡◌, ◌↔◌, IfOk, OnErr, None, Some, Err, is_some};
ghost use Rattle.mc_pages.specs.SlabState.{HasClass};
ghost use Rattle.mc_pages.specs.Changes.{HasNoPageFor, after_grow, has_ordinary_page, is_without_page, next_page};
ghost use Rattle.mc_pages.specs.Accounted.{IsAccounted};
ghost use Rattle.mc_pages.specs.InOrder.{is_awaited};

use super::Slabs;
use crate::ids::ChunkId;
use crate::ledger::{Entry, Owner};
use mc_classes::{ClassId, PageId};
use mc_memory::Refused;

/// Why a class gets no page.
#[derive(PartialEq, Eq, Drop)]
pub enum Grow {
    /// The pool is empty, no page is left within the limit, and the class has a page.
    NoRoom,
    /// Memory ran out.
    NoMemory(Refused),
}

impl From<Refused> for Grow {
    ghost use Rattle.std.specs.Prelude.{◌≡◌};
    ghost use Rattle.mc_pages.specs.declared.slabs.pages.Grow.TheVariants.{NoMemory};

    ghost from_gives = { λ refused error. error ≡ NoMemory refused };

    fn from(refused: Refused) -> Grow {
        Grow::NoMemory(refused)
    }
}

impl Slabs {
    /// Gives the class a page, and returns it: the one that came last into the pool, or else the lowest one that was never
    /// granted. Such a page is within the limit, or beyond it where the class has no page, so each class can have one. The page's
    /// chunks are to be cut next. The call also makes all room that those chunks will need, and leaves the room of a move that
    /// runs. `NoMemory` comes only where there is a page, and what is refused changes nothing. (slabs.c's `do_slabs_newslab`,
    /// which gives a class without pages its first beyond the limit, too)
    pub fn grow(&mut self, class: ClassId) -> Result<PageId, Grow>
        requires class { HasClass self.old.state class }
        requires whole { self.old.state.uncut ≡ None }
        ensures given { IfOk result (λ page. (next_page self.old.state class ≡ Some page)
            × (self.new.state ≡ after_grow self.old.state class page)) }
        ensures no_room { (result ≡ Err Grow.NoRoom) ↔ (next_page self.old.state class ≡ None) }
        ensures full { result ≡ Err Grow.NoRoom → HasNoPageFor self.old.state class }
        ensures refused { OnErr result (self.new.state ≡ self.old.state) }
        ensures accounted { IsAccounted self.new.state }
        ensures writes { self.new.writes ≡ self.old.writes }
    {
        let page = self.next_page(class).ok_or(Grow::NoRoom)?;
        let grace = !self.has_ordinary_page();
        let ends = usize::from(self.moving.is_some());
        self.ledger.reserve(1 + ends)?;
        let awaited = usize::from(self.awaits(class));
        let slab = &mut self.classes[class as usize - 1];
        slab.make_room(slab.page_count() + 1 + awaited)?;
        slab.add_page(page);
        let entry = match self.pool.pop() {
            Some(_) => Entry::Taken(page, class),
            None => {
                self.granted += 1;
                self.ordinary += usize::from(!grace);
                Entry::Granted(page, class, grace)
            }
        };
        self.ledger.tell(entry);
        self.owners[page as usize] = Owner::Class(class);
        self.uncut = Some(ChunkId { page, index: 0 });
        Ok(page)
    }

    /// Whether `grow` has a page for the class.
    pub fn has_page_for(&self, class: ClassId) -> bool
        requires { HasClass self.now.state class }
        ensures page { result ≡ is_some (next_page self.now.state class) }
        ensures accounted { IsAccounted self.now.state }
    {
        self.next_page(class).is_some()
    }

    /// The page that a class gets next, if one is left for it.
    fn next_page(&self, class: ClassId) -> Option<PageId>
        requires { HasClass self.now.state class }
        ensures page { result ≡ next_page self.now.state class }
        ensures accounted { IsAccounted self.now.state }
    {
        if let Some(page) = self.pool.last() {
            return Some(*page);
        }
        if self.has_ordinary_page() || self.is_without_page(class) {
            return Some(self.granted as PageId);
        }
        None
    }

    /// Whether a page is left within the limit. Beyond it there is one more for each class.
    fn has_ordinary_page(&self) -> bool
        ensures { result ≡ has_ordinary_page self.now.state }
    {
        self.ordinary < self.owners.len() - self.classes.len()
    }

    /// Whether the class has no page.
    fn is_without_page(&self, class: ClassId) -> bool
        requires { HasClass self.now.state class }
        ensures { result ≡ is_without_page self.now.state class }
    {
        let slab = &self.classes[class as usize - 1];
        slab.page_count() == 0
    }

    /// Whether a page is on the move to the class, or to the pool where `class` is 0.
    fn awaits(&self, class: u64) -> bool
        ensures { result ≡ is_awaited self.now.state.moving class }
    {
        self.moving.is_some_and(|moving| moving.dst == class)
    }
}
