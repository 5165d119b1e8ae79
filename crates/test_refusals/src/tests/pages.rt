//! Pages without an arena: a class that gets one, and one that begins to move.
ghost use Rattle.std.specs.Prelude.{IsTrue, ◌↔◌};
ghost use Rattle.mc_pages.specs.SlabState.{HasClass};
ghost use Rattle.test_refusals.specs.Sized.{HasClasses};

use super::assert_same;
use super::lists::{see_class, see_whole};
use super::looking::room;
use super::snapshot::{CLASSES, LENGTH};
use mc_classes::{ClassId, ClassTable};
use mc_pages::{Grow, NoMemory, Reassign, Slabs};
use std::alloc::Global;
use std::process::Abort;
use std::test::Fail;
use testlib_values::{FOUR_CLASSES, print_call, print_done, print_refused};

/// A call, and what it is to give.
#[derive(Clone, Copy)]
enum Step {
    /// The class gets a page, and its chunks are cut.
    Grows(ClassId),
    /// No page is left for the class.
    IsFull(ClassId),
    /// A page begins to move to a class or to the pool, from a class or any; it comes from this one.
    Begins(Option<ClassId>, ClassId, ClassId),
}

/// What a call gave.
#[derive(Clone, Copy, PartialEq, Eq)]
enum Answer {
    NoMemory,
    Right,
    Wrong,
}

/// The slabs, and the table that they are made by.
#[derive(Drop)]
struct Pages<'a> {
    slabs: Slabs,
    table: &'a ClassTable,
    ghost classes: { HasClasses slabs.state table.now },
}

impl Pages<'_> {
    #[tactic(auto, using(crate::proofs::Classes::classes_fresh))]
    fn new<'a>(alloc: Global, table: &'a ClassTable) -> Result<Pages<'a>, NoMemory> {
        let slabs = Slabs::new(alloc, table)?;
        Ok(Pages { slabs, table })
    }

    fn is_class(&self, class: ClassId) -> bool
        ensures { IsTrue result ↔ HasClass self.now.slabs.state class }
    {
        class >= 1 && class <= self.table.count()
    }

    #[tactic(auto, using(crate::proofs::Classes::changes))]
    fn grow(&mut self, class: ClassId) -> Result<(), Grow> {
        if !self.is_class(class) || self.slabs.next_uncut().is_some() {
            return Err(Grow::NoRoom);
        }
        match self.slabs.grow(class) {
            Ok(_) => Ok(()),
            Err(error) => Err(error),
        }
    }

    /// Cuts the next chunk, if there is one.
    #[tactic(auto, using(crate::proofs::Classes::changes))]
    fn cut(&mut self) -> bool {
        let Some(chunk) = self.slabs.next_uncut() else {
            return false;
        };
        self.slabs.cut(chunk.page, chunk.index);
        true
    }

    #[tactic(auto, using(crate::proofs::Classes::changes))]
    fn begin(&mut self, src: Option<u64>, dst: u64) -> Result<(), Reassign> {
        self.slabs.begin_move(src, dst)
    }

    /// Adds all numbers that the pages have.
    fn see(&self, seen: &mut Vec<u64>) {
        seen.clear();
        see_whole(&self.slabs, seen);
        for class in 1..=CLASSES {
            if self.is_class(class) {
                see_class(&self.slabs, class, seen);
            }
        }
    }

    fn answer_of(&mut self, step: Step) -> Answer {
        match step {
            Step::Grows(class) => match self.grow(class) {
                Ok(()) => Answer::Right,
                Err(Grow::NoMemory(_)) => Answer::NoMemory,
                Err(Grow::NoRoom) => Answer::Wrong,
            },
            Step::IsFull(class) => match self.grow(class) {
                Err(Grow::NoRoom) => Answer::Right,
                _ => Answer::Wrong,
            },
            Step::Begins(src, dst, source) => match self.begin(src, dst) {
                Ok(()) => self.is_begun(source),
                Err(Reassign::NoMemory(_)) => Answer::NoMemory,
                Err(_) => Answer::Wrong,
            },
        }
    }

    /// Whether a page of this class moves.
    fn is_begun(&self, source: ClassId) -> Answer {
        match self.slabs.moving() {
            Some(moving) if moving.src == source => Answer::Right,
            _ => Answer::Wrong,
        }
    }
}

impl Step {
    fn name(self) -> &'static str {
        match self {
            Step::Begins(..) => "begin_move",
            _ => "grow",
        }
    }
}

/// Makes the call, and once more where it is refused memory, which leaves all as before. True where it gives what it is to.
fn play<R: Print>(
    rt: &R,
    pages: &mut Pages<'_>,
    step: Step,
    before: &mut Vec<u64>,
    after: &mut Vec<u64>,
) -> bool {
    pages.see(before);
    print_call(rt, step.name());
    let answer = pages.answer_of(step);
    if answer != Answer::NoMemory {
        print_done(rt, step.name());
        return answer == Answer::Right;
    }
    print_refused(rt, step.name());
    pages.see(after);
    before.as_slice() == after.as_slice() && pages.answer_of(step) == Answer::Right
}

/// Cuts what is to be cut: a page has 21 chunks at most.
fn cut_all(pages: &mut Pages<'_>) {
    for _chunk in 0..21 {
        pages.cut();
    }
}

/// The table, and where it is refused once, again.
fn table(alloc: Global) -> Result<ClassTable, Fail> {
    match ClassTable::build(alloc, &FOUR_CLASSES) {
        Ok(table) => Ok(table),
        Err(_) => Ok(ClassTable::build(alloc, &FOUR_CLASSES)?),
    }
}

/// Pages, and where they are refused once, again.
fn pages_of(alloc: Global, table: &ClassTable) -> Result<Pages<'_>, Fail> {
    match Pages::new(alloc, table) {
        Ok(pages) => Ok(pages),
        Err(_) => Ok(Pages::new(alloc, table)?),
    }
}

/// Four pages, two of each class, and then one that begins to move to this class or to the pool; it comes from this one.
fn play_pages<R: Abort + Print>(
    rt: &R,
    pages: &mut Pages<'_>,
    way: (ClassId, ClassId),
    before: &mut Vec<u64>,
    after: &mut Vec<u64>,
) {
    for step in [
        Step::Grows(4),
        Step::Grows(3),
        Step::Grows(4),
        Step::Grows(3),
        Step::IsFull(4),
        Step::Begins(None, way.0, way.1),
    ] {
        let is_right = play(rt, pages, step, before, after);
        assert_same(rt, is_right, true, step.name());
        cut_all(pages);
    }
}

/// Plays moves of new pages: once to a class, once to the pool, and once by another source.
fn play_ways<R: Abort + Print>(
    rt: &R,
    alloc: Global,
    table: &ClassTable,
    before: &mut Vec<u64>,
    after: &mut Vec<u64>,
) -> Result<(), Fail> {
    for way in [(1, 3), (0, 3), (3, 4)] {
        let mut pages = pages_of(alloc, table)?;
        play_pages(rt, &mut pages, way, before, after);
    }
    Ok(())
}

#[test]
fn pages_are_as_before(rt: HostRuntime) -> Result<(), Fail> {
    let mut before = room(rt.alloc(), LENGTH)?;
    let mut after = room(rt.alloc(), LENGTH)?;
    let table = table(rt.alloc())?;
    play_ways(&rt, rt.alloc(), &table, &mut before, &mut after)
}
