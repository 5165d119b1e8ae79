//! Moves that begin, and the automover's mode.
ghost use Rattle.std.specs.Prelude.{◌≡◌, ◌≤◌};
ghost use Rattle.mc_words.specs.hand.Arenas.{IsHandOf, view};
ghost use Rattle.mc_words.specs.hand.Ready.{IsReady, StaysReady};
ghost use Rattle.mc_words.specs.page.Moves.{Reassigns};
ghost use Rattle.mc_words.specs.item.Refs.{KeepsHoldings};
ghost use Rattle.mc_mover.specs.Acting.{ActsOnceByNumber};
ghost use Rattle.mc_mover.specs.Reassigning.{SetsMode};

use mc_pages::Reassign;
use mc_words::{Arena, Hand};
use std::sync::Wait;

/// Begins to move the first page of the source to the destination, 0 for the pool, and leaves the rest to turns. Where no source is
/// named, the first class behind the last one so picked that has more than one page is picked. It waits for the lock of the slabs, and
/// for no other. (slabs.c's `do_slabs_reassign`; the order of the tests is own)
///
/// It is refused, by the first of these that applies: `Busy` where a page moves already; `Same` where source and destination are one;
/// `BadClass` where one of them is no class, or none can be picked; `NoSpare` where the source has one page at most; and `NoMemory` last,
/// where the room that the move's end needs was refused. What is refused changes nothing: pages, lists, moves and the pick stay.
///
/// It records no call of this hand, and stores nothing.
pub fn reassign<R: Wait>(
    rt: &R,
    arena: &Arena,
    hand: &mut Hand,
    src: Option<u64>,
    dst: u64,
) -> Result<(), Reassign>
    requires arena { IsHandOf arena.now hand.old }
    requires ready { IsReady (view hand.old) }
    ensures reassigns { ActsOnceByNumber (λ number.
        Reassigns number src dst result) hand.old hand.new }
    ensures stores_nothing { (view hand.new).row.knows.stored ≡ (view hand.old).row.knows.stored }
    ensures records_nothing { (view hand.new).row.knows.mine ≡ (view hand.old).row.knows.mine }
    ensures holdings { KeepsHoldings (view hand.old) (view hand.new) }
    ensures hand { StaysReady arena.now hand.old hand.new }
{
    let mut held = arena.lock_slabs(rt, hand);
    let answer = arena.begin_move(hand, &mut held, src, dst);
    arena.give_slabs(hand, held);
    answer
}

/// Sets the automover's mode: 0 is off, 1 acts on each window, 2 on each eviction. Nothing else changes, and it takes no memory. It
/// waits for the lock of the slabs, and for no other. It records no call of this hand, and stores nothing.
pub fn set_mode<R: Wait>(rt: &R, arena: &Arena, hand: &mut Hand, mode: u64)
    requires arena { IsHandOf arena.now hand.old }
    requires ready { IsReady (view hand.old) }
    requires mode { mode ≤ 2 }
    ensures sets { ActsOnceByNumber (λ number. SetsMode number mode) hand.old hand.new }
    ensures stores_nothing { (view hand.new).row.knows.stored ≡ (view hand.old).row.knows.stored }
    ensures records_nothing { (view hand.new).row.knows.mine ≡ (view hand.old).row.knows.mine }
    ensures holdings { KeepsHoldings (view hand.old) (view hand.new) }
    ensures hand { StaysReady arena.now hand.old hand.new }
{
    let mut held = arena.lock_slabs(rt, hand);
    arena.set_automove(hand, &mut held, mode);
    arena.give_slabs(hand, held);
}
