//! Slabs in their box: what is changed there is what the same calls make of slabs without one.
ghost use Rattle.std.specs.Prelude.{◌≡◌, ◌≤◌, IsTrue, ◌↔◌};
ghost use Rattle.mc_pages.specs.ClassState.{first_free};
ghost use Rattle.mc_pages.specs.SlabState.{HasClass, class_at};
ghost use Rattle.mc_pages.specs.Changes.{after_pop};
ghost use Rattle.test_pages.specs.Sized.{HasSizesOf};

use super::super::assert_equal;
use super::driven::Driven;
use mc_classes::{ClassId, ClassTable, PageId};
use mc_pages::{ChunkId, Grow, NoMemory, SharedSlabs, Slabs};
use std::alloc::Global;
use std::process::Abort;
use std::test::Fail;
use testlib_values::FOUR_CLASSES;

/// Slabs in their box, and the table that they are made by.
#[derive(Drop)]
struct Boxed<'a> {
    shared: SharedSlabs,
    table: &'a ClassTable,
    ghost sized: { HasSizesOf shared table.now },
}

impl Boxed<'_> {
    fn new<'a>(alloc: Global, table: &'a ClassTable) -> Result<Boxed<'a>, NoMemory> {
        let slabs = Slabs::new(alloc, table)?;
        let shared = SharedSlabs::new(alloc, slabs)?;
        Ok(Boxed { shared, table })
    }

    fn is_class(&self, class: ClassId) -> bool
        ensures { IsTrue result ↔ HasClass self.now.shared class }
    {
        class >= 1 && class <= self.table.count()
    }

    /// None where there is no such class, or a page isn't cut yet.
    #[tactic(auto, using(crate::proofs::Sized::sized_grow))]
    fn grow(&mut self, class: ClassId) -> Option<Result<PageId, Grow>> {
        if !self.is_class(class) || self.shared.slabs().next_uncut().is_some() {
            return None;
        }
        Some(self.shared.slabs_mut().grow(class))
    }

    /// Cuts the next chunk, if there is one.
    #[tactic(auto, using(crate::proofs::Sized::sized_cut))]
    fn cut(&mut self) -> Option<ChunkId> {
        let chunk = self.shared.slabs().next_uncut()?;
        self.shared.slabs_mut().cut(chunk.page, chunk.index);
        Some(chunk)
    }

    /// None where there is no such class, or it has no free chunk.
    fn pop(&mut self, class: ClassId) -> Option<ChunkId> {
        if self.is_class(class) {
            hand_out(&mut self.shared, class)
        } else {
            None
        }
    }
}

/// The state is exactly what the definition makes of the state before.
fn hand_out(shared: &mut SharedSlabs, class: ClassId) -> Option<ChunkId>
    requires { HasClass shared.old class }
    ensures chunk { result ≡ first_free (class_at shared.old class) }
    ensures popped { shared.new ≡ after_pop shared.old class }
{
    shared.slabs_mut().pop(class)
}

/// Both memories give the class a page, cut it, and hand out three of its chunks.
fn assert_class_calls(rt: &impl Abort, boxed: &mut Boxed, all: &mut Driven, class: ClassId) {
    assert_equal(rt, boxed.grow(class), all.grow(class), "grow");
    for _ in 0..6 {
        assert_equal(rt, boxed.cut(), all.cut(), "cut");
    }
    for _ in 0..3 {
        assert_equal(rt, boxed.pop(class), all.pop(class), "pop");
    }
}

/// Both memories return the same numbers.
fn assert_same_told(rt: &impl Abort, slabs: &Slabs, all: &Driven) {
    assert_equal(rt, slabs.totals(), all.totals(), "totals");
    assert_equal(rt, slabs.ledger(), all.ledger(), "ledger");
}

/// Slabs in a box, by a table of four classes, do the same as slabs without one, which did nothing yet.
fn assert_same_boxed(
    rt: &impl Abort,
    alloc: Global,
    table: &ClassTable,
    all: &mut Driven,
) -> Result<(), Fail> {
    let mut boxed = Boxed::new(alloc, table)?;
    for class in [3, 4] {
        assert_class_calls(rt, &mut boxed, all, class);
    }
    let slabs = boxed.shared.into_slabs();
    assert_same_told(rt, &slabs, all);
    drop(slabs);
    Ok(())
}

#[test]
fn slabs_in_a_box_are_changed_in_place(rt: HostRuntime) -> Result<(), Fail> {
    let table = ClassTable::build(rt.alloc(), &FOUR_CLASSES)?;
    let mut all = Driven::new(rt.alloc(), &FOUR_CLASSES)?;
    let boxed = assert_same_boxed(&rt, rt.alloc(), &table, &mut all);
    drop(all);
    boxed
}
