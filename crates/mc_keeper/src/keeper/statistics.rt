//! The numbers that the statistics print.
ghost use Rattle.std.specs.Prelude.{◌≡◌, length, IfOk};
ghost use Rattle.mc_pages.specs.ClassState.{numbers_of};
ghost use Rattle.mc_pages.specs.SlabState.{HasClass, class_at, totals_of};
ghost use Rattle.mc_serial_spec.specs.Automove.{eviction_counts, free_counts, class_page_counts};

use super::Keeper;
use mc_classes::{ClassId, ClassTable};
use mc_memory::{Refused, push};
use mc_pages::{Moving, Numbers, Totals};

/// Numbers of all classes, class 1 first.
#[derive(Drop)]
pub(super) struct ClassCounts {
    /// How many items of each were ever evicted to make room.
    pub(super) evictions: Vec<u64>,
    /// The pages of each.
    pub(super) pages: Vec<u64>,
    /// The free chunks of each.
    pub(super) free: Vec<u64>,
}

impl Keeper {
    /// The size classes: chunk sizes and bytes of a page, chunks a page, and how many classes there are, which are numbered from
    /// 1. With `numbers` that is all that `stats slabs` prints of a class: it has `pages * per_page` chunks, of which those that
    /// aren't free are used.
    pub fn table(&self) -> &ClassTable
        ensures table { result.now ≡ self.now.table }
        ensures classes { length self.now.slabs.classes ≡ length self.now.table.sizes }
    {
        &self.table
    }

    /// What the class has: its pages, a moving one included, its free chunks, and how many of its items were evicted to make room.
    /// Dead chunks aren't free until they are swept. (slabs.c's and items.c's statistics of a class)
    pub fn numbers(&self, class: ClassId) -> Numbers
        requires { HasClass self.now.slabs class }
        ensures numbers { result ≡ numbers_of (class_at self.now.slabs class) }
    {
        self.slabs.numbers(class)
    }

    /// What all classes have together: pages granted and in the pool, moves that ended, items that moves rescued and evicted, and
    /// chunks that held moves up. Granted bytes are `granted * table().page()`. (memcached's `stats`, slabs.c's part)
    pub fn totals(&self) -> Totals
        ensures totals { result ≡ totals_of self.now.slabs }
    {
        self.slabs.totals()
    }

    /// The page on the move, if one is, with its source, its destination, and how far the mover is.
    pub fn moving(&self) -> Option<Moving>
        ensures moving { result ≡ self.now.slabs.moving }
    {
        self.slabs.moving()
    }

    /// The automover's mode: 0 is off, 1 acts on windows, 2 on evictions.
    pub fn automove(&self) -> u64
        ensures mode { result ≡ self.now.slabs.automove }
    {
        self.slabs.automove()
    }

    /// The numbers of all classes.
    pub(super) fn counts(&self) -> Result<ClassCounts, Refused>
        ensures evictions { IfOk result (λ counts.
            counts.evictions.items ≡ eviction_counts self.now.slabs) }
        ensures pages { IfOk result (λ counts. counts.pages.items
            ≡ class_page_counts self.now.slabs) }
        ensures free { IfOk result (λ counts. counts.free.items ≡ free_counts self.now.slabs) }
    {
        let mut evictions = Vec::new(self.alloc);
        let mut pages = Vec::new(self.alloc);
        let mut free = Vec::new(self.alloc);
        for place in 0..self.table.count() {
            let numbers = self.slabs.numbers(place + 1);
            push(&mut evictions, numbers.evictions)?;
            push(&mut pages, numbers.pages)?;
            push(&mut free, numbers.free)?;
        }
        Ok(ClassCounts {
            evictions,
            pages,
            free,
        })
    }
}
