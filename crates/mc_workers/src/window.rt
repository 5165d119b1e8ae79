//! The end of a window of the automover.
ghost use Rattle.std.specs.Prelude.{Err, IfOk, OnErr};
ghost use Rattle.mc_words.specs.hand.Ready.{IsReadyHandOf};
ghost use Rattle.mc_workers.specs.Hands.{StaysHolding};
ghost use Rattle.mc_workers.specs.Moving.{ActsOnDecisionInRun, AsksForPage, EndsWindowInRun, RefusesPage, RefusesWindow, TrimsAs};

use crate::mover::Mover;
use crate::mover_reply::Acted;
use mc_memory::Refused;
use mc_mover::{reassign, survey, trim};
use mc_pages::Reassign;
use mc_stripe::Trim;
use mc_watch::Decision;
use mc_words::{Arena, Hand};
use std::alloc::Global;
use std::sync::Wait;

// Puts the dead of all classes back, and feeds the decider what is left then. In mode 1 alone it asks for the page that the
// decider decides on. Then it trims each stripe and the ledger. Returns what became of the decision, and of the trim, whose
// refusal ends nothing. (slabs.c's automover; the trim is own)
pub(crate) fn end_window<R: Wait>(
    rt: &R,
    alloc: Global,
    arena: &Arena,
    hand: &mut Hand,
    mover: &mut Mover,
) -> Result<(Option<Acted>, Result<(), Trim>), Refused>
    requires ready { IsReadyHandOf arena.now hand.old }
    ensures stays { StaysHolding arena.now hand.old hand.new }
    ensures ends { IfOk result (λ told.
        EndsWindowInRun told.0 told.1 mover.old hand.old mover.new hand.new) }
    ensures refused { OnErr result (RefusesWindow hand.old hand.new) }
{
    let survey = survey(rt, alloc, arena, hand, true)?;
    let decided = mover.decide(alloc, &survey)?;
    let acted = act_on(rt, arena, hand, decided)?;
    let trimmed = trim_all(rt, arena, hand);
    Ok((acted, trimmed))
}

// Trims each stripe, and then the ledger, and returns how far it came.
#[tactic(auto, using(crate::proofs::Trimmed::trims_as))]
fn trim_all<R: Wait>(rt: &R, arena: &Arena, hand: &mut Hand) -> Result<(), Trim>
    requires ready { IsReadyHandOf arena.now hand.old }
    ensures stays { StaysHolding arena.now hand.old hand.new }
    ensures trims { TrimsAs result hand.old hand.new }
{
    trim(rt, arena, hand)
}

// Asks for the page of the decision, if there is one, and returns what became of it.
fn act_on<R: Wait>(
    rt: &R,
    arena: &Arena,
    hand: &mut Hand,
    decided: Option<Decision>,
) -> Result<Option<Acted>, Refused>
    requires ready { IsReadyHandOf arena.now hand.old }
    ensures stays { StaysHolding arena.now hand.old hand.new }
    ensures acts { IfOk result (λ acted. ActsOnDecisionInRun decided acted hand.old hand.new) }
    ensures refused { OnErr result (RefusesPage hand.old hand.new) }
{
    let Some(decision) = decided else {
        return Ok(None);
    };
    let Decision { src, dst } = decision;
    let answer = ask_for_page(rt, arena, hand, Some(src), dst)?;
    Ok(Some(Acted { decision, answer }))
}

// Asks for a page, and returns the answer.
pub(crate) fn ask_for_page<R: Wait>(
    rt: &R,
    arena: &Arena,
    hand: &mut Hand,
    src: Option<u64>,
    dst: u64,
) -> Result<Result<(), Reassign>, Refused>
    requires ready { IsReadyHandOf arena.now hand.old }
    ensures stays { StaysHolding arena.now hand.old hand.new }
    ensures asks { IfOk result (λ answer. AsksForPage src dst answer hand.old hand.new) }
    ensures refused { OnErr result (RefusesPage hand.old hand.new) }
{
    match reassign(rt, arena, hand, src, dst) {
        Err(Reassign::NoMemory(refused)) => Err(refused),
        answer => Ok(answer),
    }
}
