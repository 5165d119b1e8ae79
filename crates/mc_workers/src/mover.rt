//! The decider and the count of turns of the mover's thread.
ghost use Rattle.std.specs.Prelude.{◌≡◌, IfOk, OnErr, OnOk};
ghost use Rattle.mc_watch.specs.Decider.{fresh_decider};
ghost use Rattle.mc_workers.specs.Moving.{decider_after, decider_of, decision_acted_on, turns_of};

use mc_classes::ClassTable;
use mc_memory::Refused;
use mc_mover::Survey;
use mc_watch::{Decider, Decision};
use std::alloc::Global;

/// The automover's decider, and how many turns of the run were begun.
#[derive(Drop)]
pub struct Mover {
    pub(crate) decider: Decider,
    pub(crate) turns: u64,
}

impl Mover {
    /// No window has ended yet, and no turn was begun.
    pub fn new(alloc: Global, table: &ClassTable) -> Result<Mover, Refused>
        ensures decider { IfOk result (λ mover. decider_of mover ≡ fresh_decider table.now) }
        ensures turns { IfOk result (λ mover. turns_of mover ≡ 0) }
    {
        match Decider::new(alloc, table) {
            Ok(decider) => Ok(Mover { decider, turns: 0 }),
            Err(refused) => Err(refused),
        }
    }

    // Feeds the decider the numbers of a window. Gives the decision to act on, in mode 1 alone.
    pub(crate) fn decide(
        &mut self,
        alloc: Global,
        survey: &Survey,
    ) -> Result<Option<Decision>, Refused>
        ensures fed { OnOk result (decider_of self.new
            ≡ decider_after (decider_of self.old) survey.now) }
        ensures decided { IfOk result (λ decided.
            decided ≡ decision_acted_on (decider_of self.old) survey.now) }
        ensures kept { OnErr result (decider_of self.new ≡ decider_of self.old) }
        ensures turns { turns_of self.new ≡ turns_of self.old }
    {
        let evictions = survey.evictions(alloc)?;
        let pages = survey.pages(alloc)?;
        let free = survey.free(alloc)?;
        match self.decider.feed(&evictions, &pages, &free) {
            Ok(decision) if survey.mode == 1 => Ok(decision),
            _ => Ok(None),
        }
    }
}
