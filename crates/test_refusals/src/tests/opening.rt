//! Arenas with three hands: one that acts, one that reads, and one that looks.
ghost use Rattle.std.specs.Prelude.{IfOk};
ghost use Rattle.testlib_hands.specs.Hands.{AreEmptyHandsOf};
ghost use Rattle.test_refusals.specs.Threes.{AreReadyOf};

use super::looking::{Looker, room};
use super::snapshot::LENGTH;
use mc_classes::Config;
use mc_words::{Arena, Hand, NewError};
use std::alloc::Global;
use std::test::Fail;
use testlib_hands::{drop_arena, three_of};
use testlib_values::{print_call, print_done, print_refused};

/// The most words of an item.
const WORDS: usize = 61;

/// How many hands an arena has.
const HANDS: u64 = 3;

/// An arena of this configuration, whose chunks begin with this issue number, if one is named, and its hands.
#[tactic(auto, using(crate::proofs::Kept::all_hands))]
fn new_arena(
    alloc: Global,
    config: &Config,
    start: Option<u64>,
) -> Result<(Arena, Vec<Hand>), NewError>
    ensures hands { IfOk result (λ made. AreEmptyHandsOf made.0 made.1.items) }
{
    match start {
        Some(start) => Arena::from_issue(alloc, config, HANDS, start),
        None => Arena::new(alloc, config, HANDS),
    }
}

/// An arena of this configuration and its hands. Where that is refused memory once, it is asked for again.
fn new_again<R: Print>(
    rt: &R,
    alloc: Global,
    config: &Config,
    start: Option<u64>,
) -> Result<(Arena, Vec<Hand>), NewError>
    ensures hands { IfOk result (λ made. AreEmptyHandsOf made.0 made.1.items) }
{
    let call = if start.is_some() { "from_issue" } else { "new" };
    print_call(rt, call);
    match new_arena(alloc, config, start) {
        Ok(made) => {
            print_done(rt, call);
            Ok(made)
        }
        Err(_) => {
            print_refused(rt, call);
            new_arena(alloc, config, start)
        }
    }
}

/// Words from 0 on.
fn words_of(alloc: Global) -> Result<Vec<u64>, Fail> {
    let mut words = room(alloc, WORDS)?;
    for place in 0..WORDS {
        words.push(place as u64)?;
    }
    Ok(words)
}

/// An arena, a hand of it that acts, one that reads, and one that looks, and what gives memory. A test gives it to `drop_three` at its end, behind all that may
/// fail, as it can't go out of scope.
pub struct Three {
    pub alloc: Global,
    pub arena: Arena,
    pub hand: Hand,
    pub reader: Hand,
    pub looker: Looker,
}

/// Drops an arena, its three hands, and what was seen of it.
pub fn drop_three(all: Three) {
    let Three {
        alloc: _,
        arena,
        hand: _hand,
        reader: _reader,
        looker: _looker,
    } = all;
    drop_arena(arena);
}

/// A new arena, and its three hands.
pub fn opened<R: Print>(rt: &R, alloc: Global, config: &Config) -> Result<Three, Fail>
    ensures ready { IfOk result (λ made.
        AreReadyOf made.arena made.hand made.reader made.looker.hand) }
{
    opened_from(rt, alloc, config, None)
}

/// A new arena, whose chunks begin with this issue number, if one is named, and its three hands.
pub fn opened_from<R: Print>(
    rt: &R,
    alloc: Global,
    config: &Config,
    start: Option<u64>,
) -> Result<Three, Fail>
    ensures ready { IfOk result (λ made.
        AreReadyOf made.arena made.hand made.reader made.looker.hand) }
{
    let before = room(alloc, LENGTH)?;
    let after = room(alloc, LENGTH)?;
    let words = words_of(alloc)?;
    let (arena, mut hands) = new_again(rt, alloc, config, start)?;
    let (hand, reader, other) = match three_of(&arena, &mut hands) {
        Ok(three) => three,
        Err(fail) => {
            drop_arena(arena);
            return Err(fail);
        }
    };
    let looker = Looker {
        hand: other,
        before,
        after,
        words,
    };
    Ok(Three {
        alloc,
        arena,
        hand,
        reader,
        looker,
    })
}
