//! Arenas that are opened, and their hands.
ghost use Rattle.std.specs.Prelude.{IfOk};
ghost use Rattle.testlib_hands.specs.Hands.{AreEmptyHandsOf, IsEmptyHandOf};
ghost use Rattle.testlib_hands.specs.Pairs.{AreIdle, AreReady};

use mc_classes::Config;
use mc_words::{Arena, Hand, NewError};
use std::alloc::Global;
use std::test::Fail;

/// An arena of this configuration, and its hands.
#[tactic(auto, using(crate::proofs::Kept::all_hands))]
pub fn opened(alloc: Global, config: &Config, hands: u64) -> Result<(Arena, Vec<Hand>), NewError>
    ensures hands { IfOk result (λ made. AreEmptyHandsOf made.0 made.1.items) }
{
    Arena::new(alloc, config, hands)
}

/// The hand of the lowest number that is left.
pub fn next_hand(arena: &Arena, hands: &mut Vec<Hand>) -> Result<Hand, Fail>
    requires hands { AreEmptyHandsOf arena.now hands.old.items }
    ensures hands { AreEmptyHandsOf arena.now hands.new.items }
    ensures hand { IfOk result (λ hand. IsEmptyHandOf arena.now hand) }
{
    if hands.is_empty() {
        Err(Fail::new("there is a hand left"))
    } else {
        Ok(hands.remove(0))
    }
}

/// The two hands of the lowest numbers that are left.
fn two_of(arena: &Arena, hands: &mut Vec<Hand>) -> Result<(Hand, Hand), Fail>
    requires hands { AreEmptyHandsOf arena.now hands.old.items }
    ensures hands { AreEmptyHandsOf arena.now hands.new.items }
    ensures two { IfOk result (λ two. IsEmptyHandOf arena.now two.0
        × IsEmptyHandOf arena.now two.1) }
{
    let first = next_hand(arena, hands)?;
    let second = next_hand(arena, hands)?;
    Ok((first, second))
}

/// The three hands of the lowest numbers that are left.
pub fn three_of(arena: &Arena, hands: &mut Vec<Hand>) -> Result<(Hand, Hand, Hand), Fail>
    requires hands { AreEmptyHandsOf arena.now hands.old.items }
    ensures hands { AreEmptyHandsOf arena.now hands.new.items }
    ensures three { IfOk result (λ three. IsEmptyHandOf arena.now three.0
        × IsEmptyHandOf arena.now three.1 × IsEmptyHandOf arena.now three.2) }
{
    let first = next_hand(arena, hands)?;
    let second = next_hand(arena, hands)?;
    let third = next_hand(arena, hands)?;
    Ok((first, second, third))
}

/// Two hands of a thread: one holds an item, while the other acts.
#[derive(Drop)]
pub struct Pair {
    pub reader: Hand,
    pub writer: Hand,
}

/// The two hands of the lowest numbers that are left, for a thread.
pub fn pair_of(arena: &Arena, hands: &mut Vec<Hand>) -> Result<Pair, Fail>
    requires hands { AreEmptyHandsOf arena.now hands.old.items }
    ensures hands { AreEmptyHandsOf arena.now hands.new.items }
    ensures pair { IfOk result (AreIdle arena.now) }
{
    let (reader, writer) = two_of(arena, hands)?;
    Ok(Pair { reader, writer })
}

/// One hand of two.
#[tactic(auto, using(crate::proofs::Kept::idle, crate::proofs::Kept::ready_of_both, crate::proofs::Kept::nothing_of_both))]
pub fn one_of(arena: &Arena, hand: Hand, other: Hand) -> Hand
    requires hand { IsEmptyHandOf arena.now hand }
    requires other { IsEmptyHandOf arena.now other }
    ensures hand { IsEmptyHandOf arena.now result }
{
    arena.join_hands(hand, other)
}

/// An arena and two of its hands. A test gives it to `drop_two` at its end, behind all that may fail.
#[derive(Drop)]
pub struct Two {
    pub arena: Arena,
    pub hand: Hand,
    pub other: Hand,
}

/// An arena of this configuration, and its two hands.
pub fn opened_two(alloc: Global, config: &Config) -> Result<Two, Fail>
    ensures hands { IfOk result AreReady }
{
    let (arena, mut hands) = opened(alloc, config, 2)?;
    let (hand, other) = two_of(&arena, &mut hands)?;
    Ok(Two { arena, hand, other })
}
