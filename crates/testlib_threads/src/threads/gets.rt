//! Four threads look up a key that leads nowhere: each get is noted in its stripe's history.
ghost use Rattle.std.specs.Prelude.{IfOk};
ghost use Rattle.testlib_hands.specs.Hands.{AreEmptyHandsOf, IsEmptyHandOf};

use mc_stripe::{Call, Key};
use mc_words::{Arena, Final, Hand};
use std::alloc::Global;
use std::sync::Wait;
use std::test::Fail;
use std::thread::Threads;
use testlib_hands::{
    FOUR_CLASSES, Getter, Job, Worked, check, is_there, next_hand, opened, work_four,
};

/// How often each thread gets the key.
const GETS: u64 = 1000;

/// The key.
const MISSING: Key = 6;

/// A thread that gets the key, with its hand.
#[derive(Drop)]
struct Searcher(Hand);

impl Job for Searcher {
    type Told = bool;

    ghost is_ready = { λ arena job. IsEmptyHandOf arena job.0 };

    /// The searcher's gets: whether one found something.
    fn work<R: Wait>(self, rt: &R, _alloc: Global, arena: &Arena) -> Worked<bool> {
        let Searcher(mut hand) = self;
        let mut found = false;
        for _time in 0..GETS {
            found |= is_there(rt, arena, &mut hand, MISSING, Getter::Get);
        }
        Worked { hand, told: found }
    }
}

/// Two such threads.
type Searchers = (Searcher, Searcher);

/// Four, with the hands of the lowest numbers that are left.
fn four_searchers(arena: &Arena, hands: &mut Vec<Hand>) -> Result<(Searchers, Searchers), Fail>
    requires hands { AreEmptyHandsOf arena.now hands.old.items }
    ensures low { IfOk result (λ jobs. IsEmptyHandOf arena.now jobs.0.0.0
        × IsEmptyHandOf arena.now jobs.0.1.0) }
    ensures high { IfOk result (λ jobs. IsEmptyHandOf arena.now jobs.1.0.0
        × IsEmptyHandOf arena.now jobs.1.1.0) }
{
    let first = Searcher(next_hand(arena, hands)?);
    let second = Searcher(next_hand(arena, hands)?);
    let third = Searcher(next_hand(arena, hands)?);
    let fourth = Searcher(next_hand(arena, hands)?);
    Ok(((first, second), (third, fourth)))
}

/// How many calls the stripe noted, if all are gets of that key that found nothing.
fn count_gets(left: &Final, stripe: u64) -> Option<u64> {
    if stripe >= left.config().stripes {
        return None;
    }
    let mut count = 0u64;
    for call in left.stripe(stripe)?.history().iter() {
        if !is_missed(call) {
            return None;
        }
        count = count.saturating_add(1);
    }
    Some(count)
}

/// Whether the call is a get of that key that found nothing.
fn is_missed(call: &Call) -> bool {
    matches!(call, Call::Get(_, MISSING, None))
}

/// Each get of four threads is an entry of the stripe's history.
pub fn each_get_is_noted<R: Threads + Wait + Sync>(rt: &R, alloc: Global) -> Result<(), Fail> {
    let (arena, mut hands) = opened(alloc, &FOUR_CLASSES, 4)?;
    let (low, high) = four_searchers(&arena, &mut hands)?;
    let Worked { hand, told } = work_four(rt, alloc, &arena, low, high);
    let left = arena.close(hand);
    let gets = count_gets(&left, 2);
    drop(left);
    let nothing = ((false, false), (false, false));
    check(told == nothing, "the key leads nowhere")?;
    check(gets == Some(4 * GETS), "each get is noted")
}
