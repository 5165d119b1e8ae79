//! A window of one shard: a survey, the decision, and turns of the mover.
ghost use Rattle.std.specs.Prelude.{◌≡◌, IfOk, OnErr, OnOk};
ghost use Rattle.mc_words.specs.hand.Arenas.{view};
ghost use Rattle.mc_items.specs.Keeping.{StoresNothing};
ghost use Rattle.mc_shard.specs.Hands.{IsIdleHandOf};
ghost use Rattle.mc_cache.specs.Windows.{DoesWindowTurns, EndsWindow, TendsShard, began_by, decider_after, decision_after, found_by, is_under_way};

use crate::tended::Tended;
use mc_memory::Refused;
use mc_mover::{Survey, Turn, reassign, survey, trim_ledger, turn};
use mc_pages::Reassign;
use mc_watch::{Decider, Decision};
use mc_words::{Arena, Hand};
use std::alloc::Global;
use std::sync::Wait;

// How many turns a window has at most (own).
pub(crate) const TURNS: u64 = 16;

// What the first half of a window showed and did.
#[derive(Drop)]
pub(crate) struct FirstHalf {
    // Whether a page was on the move.
    pub(crate) running: bool,
    // What was answered, where a page was asked for.
    pub(crate) answer: Option<Result<(), Reassign>>,
}

// A window of one shard, by a hand of its arena and by its own decider: the survey, the move that is decided on, and turns. Then the
// ledger is trimmed, as the stripes record no call.
pub(crate) fn tend_shard<R: Wait>(
    rt: &R,
    alloc: Global,
    arena: &Arena,
    hand: &mut Hand,
    decider: &mut Decider,
) -> Result<Tended, Refused>
    requires { IsIdleHandOf arena.now hand.old }
    ensures idle { IsIdleHandOf arena.now hand.new }
    ensures stores_nothing { StoresNothing (view hand.old) (view hand.new) }
    ensures tends { IfOk result (λ done.
        TendsShard done decider.old hand.old decider.new hand.new) }
{
    let first = end_window(rt, alloc, arena, hand, decider)?;
    let mut done = do_turns(rt, arena, hand)?;
    trim_ledger(rt, arena, hand);
    let FirstHalf { running, answer } = first;
    done.found = count_found(running);
    done.began = count_begun(answer);
    Ok(done)
}

// Puts the dead of all classes back, feeds the decider what is left then, and asks for the page that it decides on. Returns whether a
// page was on the move before, and what was answered. (slabs.c's automover)
fn end_window<R: Wait>(
    rt: &R,
    alloc: Global,
    arena: &Arena,
    hand: &mut Hand,
    decider: &mut Decider,
) -> Result<FirstHalf, Refused>
    requires { IsIdleHandOf arena.now hand.old }
    ensures idle { IsIdleHandOf arena.now hand.new }
    ensures stores_nothing { StoresNothing (view hand.old) (view hand.new) }
    ensures ends { IfOk result (λ first.
        EndsWindow first decider.old hand.old decider.new hand.new) }
{
    let survey = survey(rt, alloc, arena, hand, true)?;
    let running = survey.running;
    let Some(decision) = decide(alloc, decider, &survey)? else {
        return Ok(FirstHalf {
            running,
            answer: None,
        });
    };
    let Decision { src, dst } = decision;
    let answer = reassign(rt, arena, hand, Some(src), dst);
    Ok(FirstHalf {
        running,
        answer: Some(answer),
    })
}

// Feeds the decider the numbers of a window. Gives what it decides.
pub(crate) fn decide(
    alloc: Global,
    decider: &mut Decider,
    survey: &Survey,
) -> Result<Option<Decision>, Refused>
    ensures fed { OnOk result (decider.new ≡ decider_after decider.old survey.now) }
    ensures decided { IfOk result (λ decided. decided ≡ decision_after decider.old survey.now) }
    ensures kept { OnErr result (decider.new ≡ decider.old) }
{
    let evictions = survey.evictions(alloc)?;
    let pages = survey.pages(alloc)?;
    let free = survey.free(alloc)?;
    match decider.feed(&evictions, &pages, &free) {
        Ok(decision) => Ok(decision),
        Err(_) => Ok(None),
    }
}

// Does turns until one finds no move or ends one, as many as a window has at most.
fn do_turns<R: Wait>(rt: &R, arena: &Arena, hand: &mut Hand) -> Result<Tended, Refused>
    requires { IsIdleHandOf arena.now hand.old }
    ensures idle { IsIdleHandOf arena.now hand.new }
    ensures stores_nothing { StoresNothing (view hand.old) (view hand.new) }
    ensures does { IfOk result (λ done. DoesWindowTurns done hand.old hand.new) }
{
    let mut done = Tended::new();
    for _ in 0..TURNS {
        let turn = turn(rt, arena, hand)?;
        done.count(turn);
        if !is_under_way(turn) {
            return Ok(done);
        }
    }
    Ok(done)
}

// How many moves were under way, by whether a page was on the move.
pub(crate) fn count_found(running: bool) -> u64
    ensures found { result ≡ found_by running }
{
    if running { 1 } else { 0 }
}

// How many moves began by this answer.
pub(crate) fn count_begun(answer: Option<Result<(), Reassign>>) -> u64
    ensures begun { result ≡ began_by answer }
{
    match answer {
        Some(Ok(())) => 1,
        Some(Err(_)) | None => 0,
    }
}

// Whether the page moves still.
pub(crate) fn is_under_way(turn: Turn) -> bool
    ensures under_way { result ≡ is_under_way turn }
{
    matches!(turn, Turn::Went(_))
}
