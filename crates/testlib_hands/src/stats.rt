//! Surveys, in the words of the statistics.
ghost use Rattle.mc_words.specs.hand.Ready.{IsReadyHandOf};

use mc_classes::{ClassId, ClassTable};
use mc_mover::{Survey, survey};
use mc_pages::{Numbers, Totals};
use mc_words::{Arena, Hand};
use std::alloc::Global;
use std::sync::Wait;

/// The numbers that a survey read.
#[derive(Drop)]
pub struct Stats {
    classes: Vec<Numbers>,
    pub totals: Totals,
    pub running: bool,
    pub mode: u64,
}

/// What a class has: its pages, how many chunks of them are used, and how many are free.
#[derive(Clone, Copy, PartialEq, Eq)]
pub struct Chunks {
    pub pages: u64,
    pub used: u64,
    pub free: u64,
}

impl Stats {
    /// What the class has. None where there is no such class.
    pub fn class(&self, table: &ClassTable, class: ClassId) -> Option<Chunks> {
        if class < 1 || class > table.count() {
            return None;
        }
        let numbers = self.classes.get(class as usize - 1)?;
        let chunks = numbers.pages.checked_mul(table.per_page(class))?;
        Some(Chunks {
            pages: numbers.pages,
            used: chunks.checked_sub(numbers.free)?,
            free: numbers.free,
        })
    }
}

/// Surveys the arena. None where memory ran out.
pub fn stats_of<R: Wait>(
    rt: &R,
    alloc: Global,
    arena: &Arena,
    hand: &mut Hand,
    sweep: bool,
) -> Option<Stats>
    requires arena { IsReadyHandOf arena.now hand.old }
    ensures arena { IsReadyHandOf arena.now hand.new }
{
    let Ok(found) = survey(rt, alloc, arena, hand, sweep) else {
        return None;
    };
    let Survey {
        classes,
        totals,
        running,
        mode,
    } = found;
    Some(Stats {
        classes,
        totals,
        running,
        mode,
    })
}
