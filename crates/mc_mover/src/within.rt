//! Calls of the mover without a wait: a hand tries for the slabs lock n times. A caller that can't wait uses these calls: a static library
//! can't. (own)
ghost use Rattle.std.specs.Prelude.{◌≡◌, ◌≢◌, ◌≤◌, Err, IfOk, OnErr, OnOk};
ghost use Rattle.mc_words.specs.hand.Arenas.{IsHandOf, view};
ghost use Rattle.mc_words.specs.hand.Ready.{IsReady, StaysReady};
ghost use Rattle.mc_words.specs.item.Refs.{KeepsHoldings};
ghost use Rattle.mc_words.specs.lock.Wait.{MissesSlabsEachTime};
ghost use Rattle.mc_words.specs.page.Moves.{Reassigns};
ghost use Rattle.mc_mover.specs.Acting.{ActsOnceByNumber, RecordsTurn, RecordsUntilStopped};
ghost use Rattle.mc_mover.specs.Answering.{AnswersMove};
ghost use Rattle.mc_mover.specs.Reassigning.{SetsMode};
ghost use Rattle.mc_mover.specs.Surveying.{Surveys};
ghost use Rattle.mc_mover.specs.Turning.{TurnLacksMemory, Turns};
ghost use Rattle.mc_mover.specs.Within.{HoldsSlabsWithin};

use crate::counts::{TryTurn, Turn};
use crate::numbers::Survey;
use crate::surveying::survey_held;
use crate::turning::turn_held;
use mc_memory::{Refused, with_capacity};
use mc_pages::Reassign;
use mc_words::{Arena, Hand, Held};
use std::alloc::Global;

/// Why a survey that doesn't wait was refused.
#[derive(Debug, PartialEq, Eq, Drop)]
pub enum SurveyWithin {
    /// The room for the list of classes was refused. No try was made.
    NoMemory(Refused),
    /// Other hands had the lock of the slabs at each try.
    Held,
}

/// One turn of the mover as `turn` does it, but the hand tries for the lock of the slabs `tries` times at most, and doesn't wait. `Held` where
/// each try missed: nothing else was done. With one try it is `try_turn`. It lets no other thread run first. (own)
pub fn turn_within(arena: &Arena, hand: &mut Hand, tries: u64) -> Result<Turn, TryTurn>
    requires arena { IsHandOf arena.now hand.old }
    requires ready { IsReady (view hand.old) }
    ensures turns { IfOk result (λ turn. ActsOnceByNumber (λ number.
        Turns number turn) hand.old hand.new) }
    ensures missed { result ≡ Err TryTurn.Held → MissesSlabsEachTime tries (view hand.old)
        (view hand.new) }
    ensures lacks { result ≡ Err (TryTurn.NoMemory tt) →
        ActsOnceByNumber TurnLacksMemory hand.old hand.new }
    ensures within { result ≢ Err TryTurn.Held → HoldsSlabsWithin tries (view hand.old)
        (view hand.new) }
    ensures answers { IfOk result (AnswersMove (view hand.new)) }
    ensures records { IfOk result (RecordsTurn hand.old hand.new) }
    ensures told_before { result ≡ Err (TryTurn.NoMemory tt) →
        RecordsUntilStopped hand.old hand.new }
    ensures stores_nothing { (view hand.new).row.knows.stored ≡ (view hand.old).row.knows.stored }
    ensures holdings { KeepsHoldings (view hand.old) (view hand.new) }
    ensures hand { StaysReady arena.now hand.old hand.new }
{
    let Ok(mut slabs) = arena.slabs_within(hand, tries) else {
        return Err(TryTurn::Held);
    };
    let answer = turn_held(arena, hand, &mut slabs);
    arena.give_slabs(hand, slabs);
    match answer {
        Ok(turn) => Ok(turn),
        Err(refused) => Err(TryTurn::NoMemory(refused)),
    }
}

/// Begins a move as `reassign` does, but the hand tries for the lock of the slabs `tries` times at most, and doesn't wait. `Held` where each try
/// missed: nothing else was done. Else the answer of `reassign` is within. (own)
pub fn reassign_within(
    arena: &Arena,
    hand: &mut Hand,
    src: Option<u64>,
    dst: u64,
    tries: u64,
) -> Result<Result<(), Reassign>, Held>
    requires arena { IsHandOf arena.now hand.old }
    requires ready { IsReady (view hand.old) }
    ensures reassigns { IfOk result (λ answer. ActsOnceByNumber (λ number.
        Reassigns number src dst answer) hand.old hand.new) }
    ensures missed { OnErr result (MissesSlabsEachTime tries (view hand.old) (view hand.new)) }
    ensures within { OnOk result (HoldsSlabsWithin tries (view hand.old) (view hand.new)) }
    ensures stores_nothing { (view hand.new).row.knows.stored ≡ (view hand.old).row.knows.stored }
    ensures records_nothing { (view hand.new).row.knows.mine ≡ (view hand.old).row.knows.mine }
    ensures holdings { KeepsHoldings (view hand.old) (view hand.new) }
    ensures hand { StaysReady arena.now hand.old hand.new }
{
    let Ok(mut held) = arena.slabs_within(hand, tries) else {
        return Err(Held);
    };
    let answer = arena.begin_move(hand, &mut held, src, dst);
    arena.give_slabs(hand, held);
    Ok(answer)
}

/// Sets the automover's mode as `set_mode` does, but the hand tries for the lock of the slabs `tries` times at most, and doesn't wait. `Held`
/// where each try missed: nothing else was done. (own)
pub fn set_mode_within(arena: &Arena, hand: &mut Hand, mode: u64, tries: u64) -> Result<(), Held>
    requires arena { IsHandOf arena.now hand.old }
    requires ready { IsReady (view hand.old) }
    requires mode { mode ≤ 2 }
    ensures sets { OnOk result (ActsOnceByNumber (λ number.
        SetsMode number mode) hand.old hand.new) }
    ensures missed { OnErr result (MissesSlabsEachTime tries (view hand.old) (view hand.new)) }
    ensures within { OnOk result (HoldsSlabsWithin tries (view hand.old) (view hand.new)) }
    ensures stores_nothing { (view hand.new).row.knows.stored ≡ (view hand.old).row.knows.stored }
    ensures records_nothing { (view hand.new).row.knows.mine ≡ (view hand.old).row.knows.mine }
    ensures holdings { KeepsHoldings (view hand.old) (view hand.new) }
    ensures hand { StaysReady arena.now hand.old hand.new }
{
    let Ok(mut held) = arena.slabs_within(hand, tries) else {
        return Err(Held);
    };
    arena.set_automove(hand, &mut held, mode);
    arena.give_slabs(hand, held);
    Ok(())
}

/// Reads the numbers of all classes as `survey` does, but the hand tries for the lock of the slabs `tries` times at most, and doesn't wait.
/// `NoMemory` comes first, before any try; then `Held`, where each try missed: nothing else was done. (own)
pub fn survey_within(
    alloc: Global,
    arena: &Arena,
    hand: &mut Hand,
    sweep: bool,
    tries: u64,
) -> Result<Survey, SurveyWithin>
    requires arena { IsHandOf arena.now hand.old }
    requires ready { IsReady (view hand.old) }
    ensures surveys { IfOk result (λ survey. ActsOnceByNumber (λ number.
        Surveys sweep survey) hand.old hand.new) }
    ensures no_memory { result ≡ Err (SurveyWithin.NoMemory tt) → view hand.new ≡ view hand.old }
    ensures missed { result ≡ Err SurveyWithin.Held → MissesSlabsEachTime tries (view hand.old)
        (view hand.new) }
    ensures within { OnOk result (HoldsSlabsWithin tries (view hand.old) (view hand.new)) }
    ensures stores_nothing { (view hand.new).row.knows.stored ≡ (view hand.old).row.knows.stored }
    ensures records_nothing { (view hand.new).row.knows.mine ≡ (view hand.old).row.knows.mine }
    ensures holdings { KeepsHoldings (view hand.old) (view hand.new) }
    ensures hand { StaysReady arena.now hand.old hand.new }
{
    let room = match with_capacity(alloc, arena.classes().count() as usize) {
        Ok(room) => room,
        Err(refused) => return Err(SurveyWithin::NoMemory(refused)),
    };
    let Ok(mut held) = arena.slabs_within(hand, tries) else {
        return Err(SurveyWithin::Held);
    };
    let numbers = survey_held(arena, hand, &mut held, sweep, room);
    arena.give_slabs(hand, held);
    Ok(numbers)
}
