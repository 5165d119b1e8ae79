//! A turn of the mover, under one hold of the slabs lock.
ghost use Rattle.std.specs.Prelude.{◌≡◌, ◌≤◌, true, false, length, None, Err, IfOk, OnErr};
ghost use Rattle.mc_classes.specs.Limits.{most_refs};
ghost use Rattle.mc_core.specs.model.Holdings.{has_fresh};
ghost use Rattle.mc_words.specs.hand.Arenas.{IsHandOf, view};
ghost use Rattle.mc_words.specs.hand.Idle.{has_no_stripes};
ghost use Rattle.mc_words.specs.hand.Observers.{HasSlabs, locks_of, slabs_lent};
ghost use Rattle.mc_words.specs.hand.Ready.{IsReady, StaysReady};
ghost use Rattle.mc_words.specs.item.Refs.{KeepsHoldings};
ghost use Rattle.mc_mover.specs.Acting.{ActsByNumber, ActsOnceByNumber, FindsSlabsHeld, RecordsTurn, RecordsUntilStopped};
ghost use Rattle.mc_mover.specs.Answering.{AnswersMove, IsAnswerOf};
ghost use Rattle.mc_mover.specs.Turning.{TurnLacksMemory, Turns};

use crate::counts::{TryTurn, Turn};
use crate::ending::end_turn;
use crate::sections::sections;
use mc_stripe::NoMemory;
use mc_words::{Arena, Hand, SlabsHeld};
use std::sync::Wait;

/// One turn of the mover: looks at up to `bulk` chunks of the page that moves, from where the last turn left off, and clears those that
/// nobody holds. An item goes to a free chunk of its class off the page, or is evicted where there is none. At the page's end the pass
/// begins anew if some chunks held it up, and else the page comes to its destination. It waits for the lock of the slabs, and for no
/// other. (slabs.c's `slab_rebalance_move` and `slab_rebalance_finish`; that a rescue keeps an item's age is own)
///
/// The dead of the class are put back once a turn, before its first rescue or eviction. They are put back once more before each
/// later item that finds no free chunk, as an eviction has to have seen that none is dead. So a turn of rescues alone looks at
/// each chunk of the class once. (own)
///
/// Where hands have waited for the slabs lock, the turn lets other threads run before it takes the lock, as often as it looks at
/// chunks. Else turns that follow each other at once would leave nobody else in between. (own)
///
/// The hand's own calls are more by just the evictions and the rescues that the turn counts, each in its key's stripe. The hand
/// stores no words, and gives out no stamp.
///
/// `NoMemory` where the room for a call on a key was refused: the chunk at hand is as before, and the move's position is there.
/// What was done for chunks before it stays.
pub fn turn<R: Wait>(rt: &R, arena: &Arena, hand: &mut Hand) -> Result<Turn, NoMemory>
    requires arena { IsHandOf arena.now hand.old }
    requires ready { IsReady (view hand.old) }
    ensures turns { IfOk result (λ turn. ActsOnceByNumber (λ number.
        Turns number turn) hand.old hand.new) }
    ensures lacks { OnErr result (ActsOnceByNumber TurnLacksMemory hand.old hand.new) }
    ensures answers { IfOk result (AnswersMove (view hand.new)) }
    ensures records { IfOk result (RecordsTurn hand.old hand.new) }
    ensures told_before { OnErr result (RecordsUntilStopped hand.old hand.new) }
    ensures stores_nothing { (view hand.new).row.knows.stored ≡ (view hand.old).row.knows.stored }
    ensures holdings { KeepsHoldings (view hand.old) (view hand.new) }
    ensures hand { StaysReady arena.now hand.old hand.new }
{
    arena.rest(rt, arena.config().bulk);
    let mut held = arena.lock_slabs(rt, hand);
    let answer = turn_held(arena, hand, &mut held);
    arena.give_slabs(hand, held);
    answer
}

/// The same as `turn`, but it waits for nobody: `Held` where another hand has the slabs lock.
pub fn try_turn(arena: &Arena, hand: &mut Hand) -> Result<Turn, TryTurn>
    requires arena { IsHandOf arena.now hand.old }
    requires ready { IsReady (view hand.old) }
    ensures turns { IfOk result (λ turn. ActsOnceByNumber (λ number.
        Turns number turn) hand.old hand.new) }
    ensures held { result ≡ Err TryTurn.Held → FindsSlabsHeld hand.old hand.new }
    ensures lacks { result ≡ Err (TryTurn.NoMemory tt) →
        ActsOnceByNumber TurnLacksMemory hand.old hand.new }
    ensures answers { IfOk result (AnswersMove (view hand.new)) }
    ensures records { IfOk result (RecordsTurn hand.old hand.new) }
    ensures told_before { result ≡ Err (TryTurn.NoMemory tt) →
        RecordsUntilStopped hand.old hand.new }
    ensures stores_nothing { (view hand.new).row.knows.stored ≡ (view hand.old).row.knows.stored }
    ensures holdings { KeepsHoldings (view hand.old) (view hand.new) }
    ensures hand { StaysReady arena.now hand.old hand.new }
{
    let Ok(mut held) = arena.try_slabs(hand) else {
        return Err(TryTurn::Held);
    };
    let answer = turn_held(arena, hand, &mut held);
    arena.give_slabs(hand, held);
    match answer {
        Ok(turn) => Ok(turn),
        Err(refused) => Err(TryTurn::NoMemory(refused)),
    }
}

// A turn, under one hold of the lock of the slabs.
pub(crate) fn turn_held(
    arena: &Arena,
    hand: &mut Hand,
    held: &mut SlabsHeld,
) -> Result<Turn, NoMemory>
    requires arena { IsHandOf arena.now hand.old }
    requires held { HasSlabs hand.old held.old }
    requires whole { (slabs_lent held.old).uncut ≡ None }
    requires one { has_no_stripes (view hand.old) ≡ true }
    requires fresh { has_fresh (view hand.old).row.holdings ≡ false }
    requires within_limit { length (view hand.old).row.holdings ≤ most_refs }
    ensures arena { IsHandOf arena.now hand.new }
    ensures locks { locks_of hand.new ≡ locks_of hand.old }
    ensures held { HasSlabs hand.new held.new }
    ensures whole { (slabs_lent held.new).uncut ≡ None }
    ensures turns { IfOk result (λ turn. ActsByNumber (λ number.
        Turns number turn) hand.old held.old hand.new held.new) }
    ensures answers { IfOk result (λ turn. IsAnswerOf turn (slabs_lent held.old).moving
        (slabs_lent held.new).moving) }
    ensures lacks { OnErr result (ActsByNumber TurnLacksMemory hand.old held.old hand.new
        held.new) }
    ensures holdings { (view hand.new).row.holdings ≡ (view hand.old).row.holdings }
{
    if held.moving().is_none() {
        return Ok(Turn::Idle);
    }
    let counts = sections(arena, hand, held)?;
    Ok(end_turn(arena, hand, held, counts))
}
