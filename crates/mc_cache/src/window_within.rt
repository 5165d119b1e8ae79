//! A window of one shard whose locks are tried for. Where each try for one of them misses, the window ends there.
ghost use Rattle.std.specs.Prelude.{◌≡◌, IfOk};
ghost use Rattle.mc_words.specs.hand.Arenas.{view};
ghost use Rattle.mc_items.specs.Keeping.{StoresNothing};
ghost use Rattle.mc_cache.specs.Resting.{IsRestingHandOf};
ghost use Rattle.mc_cache.specs.WindowsWithin.{DoesTurnsWithin, EndsWindowWithin, TendsShardWithin};
ghost use Rattle.mc_shard.specs.Hands.{IsIdleHandOf};

use crate::resting::recall;
use crate::tended::Tended;
use crate::window::{FirstHalf, TURNS, count_begun, count_found, decide, is_under_way};
use mc_memory::Refused;
use mc_mover::{
    SurveyWithin, TryTurn, reassign_within, survey_within, trim_ledger_within, turn_within,
};
use mc_watch::{Decider, Decision};
use mc_words::{Arena, Hand};
use std::alloc::Global;

/// What became of a shard's window that doesn't wait. Contracts alone name it.
#[derive(Clone, Copy)]
pub struct Window {
    /// What was done.
    pub done: Tended,
    /// Whether the window ended early, as each try for a lock missed.
    pub stopped: bool,
}

// What became of the first half of a window.
#[derive(Drop)]
pub(crate) enum WindowEnd {
    // The decider was fed, and a page was asked for, or none was.
    Ended(FirstHalf),
    // Each try for the lock missed, before the survey or before the move.
    Held,
}

// A window of one shard, by a hand that rests, as `tend_shard` does it; the hand tries for each lock n times.
pub(crate) fn tend_shard_within(
    alloc: Global,
    arena: &Arena,
    hand: &mut Hand,
    decider: &mut Decider,
    tries: u64,
) -> Result<Window, Refused>
    requires { IsRestingHandOf arena.now hand.old }
    ensures idle { IsIdleHandOf arena.now hand.new }
    ensures stores_nothing { StoresNothing (view hand.old) (view hand.new) }
    ensures tends { IfOk result (λ window.
        TendsShardWithin tries window decider.old hand.old decider.new hand.new) }
{
    recall(arena, hand);
    let first = match end_window_within(alloc, arena, hand, decider, tries)? {
        WindowEnd::Ended(first) => first,
        WindowEnd::Held => return Ok(Window {
            done: Tended::new(),
            stopped: true,
        }),
    };
    let mut window = do_turns_within(arena, hand, tries)?;
    let FirstHalf { running, answer } = first;
    window.done.found = count_found(running);
    window.done.began = count_begun(answer);
    if window.stopped {
        return Ok(window);
    }
    match trim_ledger_within(arena, hand, tries) {
        Ok(()) => Ok(window),
        Err(_) => Ok(Window {
            done: window.done,
            stopped: true,
        }),
    }
}

// The first half of a window, as `end_window` does it; the hand tries for each lock n times.
fn end_window_within(
    alloc: Global,
    arena: &Arena,
    hand: &mut Hand,
    decider: &mut Decider,
    tries: u64,
) -> Result<WindowEnd, Refused>
    requires { IsIdleHandOf arena.now hand.old }
    ensures idle { IsIdleHandOf arena.now hand.new }
    ensures stores_nothing { StoresNothing (view hand.old) (view hand.new) }
    ensures ends { IfOk result (λ end.
        EndsWindowWithin tries end decider.old hand.old decider.new hand.new) }
{
    let survey = match survey_within(alloc, arena, hand, true, tries) {
        Ok(survey) => survey,
        Err(SurveyWithin::Held) => return Ok(WindowEnd::Held),
        Err(SurveyWithin::NoMemory(refused)) => return Err(refused),
    };
    let running = survey.running;
    let Some(decision) = decide(alloc, decider, &survey)? else {
        return Ok(WindowEnd::Ended(FirstHalf {
            running,
            answer: None,
        }));
    };
    let Decision { src, dst } = decision;
    match reassign_within(arena, hand, Some(src), dst, tries) {
        Ok(answer) => Ok(WindowEnd::Ended(FirstHalf {
            running,
            answer: Some(answer),
        })),
        Err(_) => Ok(WindowEnd::Held),
    }
}

// Does turns as `do_turns` does; the hand tries for the lock of each n times.
fn do_turns_within(arena: &Arena, hand: &mut Hand, tries: u64) -> Result<Window, Refused>
    requires { IsIdleHandOf arena.now hand.old }
    ensures idle { IsIdleHandOf arena.now hand.new }
    ensures stores_nothing { StoresNothing (view hand.old) (view hand.new) }
    ensures does { IfOk result (λ window. DoesTurnsWithin tries window hand.old hand.new) }
{
    let mut done = Tended::new();
    for _ in 0..TURNS {
        let turn = match turn_within(arena, hand, tries) {
            Ok(turn) => turn,
            Err(TryTurn::Held) => return Ok(Window {
                done,
                stopped: true,
            }),
            Err(TryTurn::NoMemory(refused)) => return Err(refused),
        };
        done.count(turn);
        if !is_under_way(turn) {
            return Ok(Window {
                done,
                stopped: false,
            });
        }
    }
    Ok(Window {
        done,
        stopped: false,
    })
}
