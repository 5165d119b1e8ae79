//! Hands that work at once, each in a thread of its own.
ghost use Rattle.std.specs.Thread.{IsSend, IsSync};
ghost use Rattle.mc_words.specs.declared.arena.Arena.{Arena};
ghost use Rattle.testlib_hands.specs.Hands.{IsEmptyHandOf};

use crate::hands::one_of;
use mc_words::{Arena, Hand};
use std::alloc::Global;
use std::sync::Wait;
use std::thread::{Threads, join};

/// A hand that worked, and what it returns.
#[derive(Drop)]
pub struct Worked<T> {
    pub hand: Hand,
    pub told: T,
}

/// What a thread does with hands of its own.
pub trait Job: Send + Drop {
    /// What the job returns.
    type Told: Send + Drop;

    // Holds where the job's hands are idle ones of the arena.
    ghost is_ready: { Arena → Self → Type 0 };

    /// Does the job. One hand of the job's is left.
    fn work<R: Wait>(self, rt: &R, alloc: Global, arena: &Arena) -> Worked<Self::Told>
        requires { is_ready arena.now self }
        ensures { IsEmptyHandOf arena.now result.hand };
}

/// One hand of two that worked, and what both return.
fn both<T, U>(arena: &Arena, first: Worked<T>, second: Worked<U>) -> Worked<(T, U)>
    requires first { IsEmptyHandOf arena.now first.hand }
    requires second { IsEmptyHandOf arena.now second.hand }
    ensures { IsEmptyHandOf arena.now result.hand }
{
    let Worked { hand, told } = first;
    let Worked {
        hand: other,
        told: more,
    } = second;
    Worked {
        hand: one_of(arena, hand, other),
        told: (told, more),
    }
}

/// Two jobs at once. One hand is left, and what they return.
fn work_two<R: Threads + Wait + Sync, A: Job, B: Job>(
    rt: &R,
    alloc: Global,
    arena: &Arena,
    jobs: (A, B),
) -> Worked<(A::Told, B::Told)>
    requires { A.is_ready arena.now jobs.0 × B.is_ready arena.now jobs.1 }
    ensures { IsEmptyHandOf arena.now result.hand }
{
    let (first, second) = jobs;
    let (first, second) = join(
        rt,
        move || first.work(rt, alloc, arena),
        move || second.work(rt, alloc, arena),
    );
    both(arena, first, second)
}

/// Three jobs at once. One hand is left, and what they return.
pub fn work_three<R: Threads + Wait + Sync, A: Job, B: Job, C: Job>(
    rt: &R,
    alloc: Global,
    arena: &Arena,
    job: A,
    others: (B, C),
) -> Worked<(A::Told, (B::Told, C::Told))>
    requires job { A.is_ready arena.now job }
    requires others { B.is_ready arena.now others.0 × C.is_ready arena.now others.1 }
    ensures { IsEmptyHandOf arena.now result.hand }
{
    let (first, others) = join(
        rt,
        move || job.work(rt, alloc, arena),
        move ||
            requires { IsSync R.row × IsSend B.row × IsSend C.row × B.is_ready arena.now others.0
                × C.is_ready arena.now others.1 }
        { work_two(rt, alloc, arena, others) },
    );
    both(arena, first, others)
}

/// Four jobs at once. One hand is left, and what they return.
pub fn work_four<R: Threads + Wait + Sync, A: Job, B: Job, C: Job, D: Job>(
    rt: &R,
    alloc: Global,
    arena: &Arena,
    low: (A, B),
    high: (C, D),
) -> Worked<((A::Told, B::Told), (C::Told, D::Told))>
    requires low { A.is_ready arena.now low.0 × B.is_ready arena.now low.1 }
    requires high { C.is_ready arena.now high.0 × D.is_ready arena.now high.1 }
    ensures { IsEmptyHandOf arena.now result.hand }
{
    let (low, high) = join(
        rt,
        move ||
            requires { IsSync R.row × IsSend A.row × IsSend B.row × A.is_ready arena.now low.0
                × B.is_ready arena.now low.1 }
        { work_two(rt, alloc, arena, low) },
        move ||
            requires { IsSync R.row × IsSend C.row × IsSend D.row × C.is_ready arena.now high.0
                × D.is_ready arena.now high.1 }
        { work_two(rt, alloc, arena, high) },
    );
    both(arena, low, high)
}
