//! The automover's decider (after slabs.c's `slab_automove_decision`).
ghost use Rattle.std.specs.Prelude.{◌≡◌, IfOk, OnOk, IfErr, OnErr, None, Some};
ghost use Rattle.std.specs.Prelude.{◌/◌, map};
ghost use Rattle.mc_watch.specs.Decider.{fresh_decider};
ghost use Rattle.mc_watch.specs.Remembered.{fresh_class, steady_leader};

use crate::fed::Fed;
use crate::refusal::{Feed, NoMemory};
use crate::watched::{Watched, has_fallen, leader, note_all, quiet_class, spare_class};
use mc_classes::{ClassId, ClassTable};
use mc_memory::{Refused, push, with_capacity};
use std::alloc::Global;
use std::marker::Model;

/// A page is to go from one class to another.
#[derive(Clone, Copy, PartialEq, Eq)]
pub struct Decision {
    /// The class that gives a page.
    pub src: ClassId,
    /// The class that gets it, or 0 for the page pool.
    pub dst: ClassId,
}

/// Decides after each window whether a page is to move. All its room is made by `new`.
#[derive(Drop)]
pub struct Decider {
    classes: Vec<Watched>,
    /// The classes that led the last three windows, the newest first.
    leaders: [Option<ClassId>; 3],
    /// All windows, of which the code remembers no more than that. Contracts speak of them.
    fed: Fed,
}

impl Model for Decider {
    ghost use Rattle.mc_watch.specs.Decider.{DeciderState};
    ghost use Rattle.mc_watch.specs.Remembered.{IsRemembered, numbers_of_pages};

    ghost Value = { DeciderState };

    ghost view = { λ d. record { per_page = numbers_of_pages d.classes.items; windows = d.fed.windows } };

    ghost invariant = { λ d. IsRemembered d.classes.items d.leaders d.fed.windows };
}

impl Decider {
    ghost use Rattle.std.specs.Prelude.{◌≡◌, IfOk, OnOk, IfErr, OnErr, None, Some};
    ghost use Rattle.mc_watch.specs.Decider.{fresh_decider, feed_refusal, after_window, decision_of, eviction_rule, free_page_rule};

    /// No window was fed yet, and nothing was evicted.
    pub fn new(alloc: Global, table: &ClassTable) -> Result<Decider, NoMemory>
        ensures { IfOk result (λ decider. decider ≡ fresh_decider table.now) }
    {
        Ok(Decider {
            classes: classes_of(alloc, table)?,
            leaders: [None; 3],
            fed: Fed::new(),
        })
    }

    /// Takes the numbers of a window, one of each for each class, class 1 first: its evictions so far, its pages and its free
    /// chunks. Returns whether a page is to move. It takes no memory.
    ///
    /// A class is quiet in a window where none of its items was evicted and it has more than 2 pages. A window is led by the
    /// lowest class with the most evictions, if there were any. A page goes from the lowest class that was quiet in the last
    /// three windows to the class that led all three. Where there aren't both, a class may give a page to the pool: the lowest
    /// with at least 2 pages and more free chunks than two and a half pages have (own threshold). A decision resets nothing
    /// (own). At a refusal the decider stays as it was.
    pub fn feed(
        &mut self,
        evictions: &[u64],
        pages: &[u64],
        free: &[u64],
    ) -> Result<Option<Decision>, Feed>
        ensures refused { IfErr result (λ refusal.
            feed_refusal self.old evictions.now pages.now free.now ≡ Some refusal) }
        ensures accepted { OnOk result (feed_refusal self.old evictions.now pages.now free.now
            ≡ None) }
        ensures noted { OnOk result (self.new ≡ after_window self.old evictions.now pages.now
            free.now) }
        ensures decided { IfOk result (λ decision. decision ≡ decision_of self.new) }
        ensures kept { OnErr result (self.new ≡ self.old) }
    {
        let count = self.classes.len();
        if evictions.len() != count || pages.len() != count || free.len() != count {
            return Err(Feed::Length);
        }
        if has_fallen(&self.classes, evictions) {
            return Err(Feed::Backwards);
        }
        note_all(&mut self.classes, evictions, pages, free);
        self.leaders = [leader(&self.classes), self.leaders[0], self.leaders[1]];
        self.fed = self.fed.then(evictions, pages, free);
        Ok(self.decision())
    }

    /// The decision by the evictions of the last three windows, or else by the last one's free chunks.
    fn decision(&self) -> Option<Decision>
        ensures { result ≡ decision_of self.now }
    {
        self.by_evictions().or_else(|| self.by_free_pages())
    }

    /// A page for the class that led the last three windows.
    fn by_evictions(&self) -> Option<Decision>
        ensures { result ≡ eviction_rule self.now }
    {
        let dst = steady_leader(&self.leaders)?;
        let src = quiet_class(&self.classes)?;
        Some(Decision { src, dst })
    }

    /// A page for the pool.
    fn by_free_pages(&self) -> Option<Decision>
        ensures { result ≡ free_page_rule self.now }
    {
        let src = spare_class(&self.classes)?;
        Some(Decision { src, dst: 0 })
    }
}

/// The classes of the table, before any window.
fn classes_of(alloc: Global, table: &ClassTable) -> Result<Vec<Watched>, Refused>
    ensures { IfOk result (λ classes. classes.items
        ≡ map (λ size. fresh_class (table.now.page / size)) table.now.sizes) }
{
    let mut classes = with_capacity(alloc, table.count() as usize)?;
    for place in 0..table.count() {
        push(&mut classes, Watched::new(table.per_page(place + 1)))?;
    }
    Ok(classes)
}

/// The class that led all three windows.
fn steady_leader(leaders: &[Option<ClassId>; 3]) -> Option<ClassId>
    ensures { result ≡ steady_leader leaders.now }
{
    match *leaders {
        [Some(newest), Some(middle), Some(oldest)] if newest == middle && middle == oldest => {
            Some(newest)
        }
        _ => None,
    }
}
