//! Workers in threads of their own, and the mover beside them.
ghost use Rattle.std.specs.Prelude.{◌≡◌, ◌≢◌, ◌≤◌, ◌+◌, [], ◌∷◌, All, Err, IfOk, IfSome, None, Ok, OnOk, length, true, vec_len};
ghost use Rattle.mc_classes.specs.Limits.{most_hands, most_workers};
ghost use Rattle.std.specs.Thread.{IsSync};
ghost use Rattle.mc_script.specs.Command.{IsValid};
ghost use Rattle.mc_words.specs.hand.Arenas.{IsHandOf, view};
ghost use Rattle.mc_words.specs.hand.Hands.{AreHandsFrom, IsNewHand};
ghost use Rattle.mc_words.specs.hand.Idle.{is_idle};
ghost use Rattle.mc_workers.specs.Ends.{AreTurns, EndsJoined, EndsServed, LetsAllOn, PassesLines, PassesMoves, StopsLines, StopsSome};
ghost use Rattle.mc_words.specs.hand.Ready.{IsReadyHandOf};
ghost use Rattle.mc_workers.specs.Spending.{StopsMoves};
ghost use Rattle.mc_workers.specs.Threads.{AreDone, IsMoved, LinesAreServed, JoinsBoth};

use crate::ended::Ended;
use crate::gate::Gate;
use crate::lines::serve_lines;
use crate::moves::move_lines;
use crate::shared::Shared;
use crate::starting::start;
use mc_memory::extend_from_slice;
use mc_script::Command;
use mc_words::{Arena, Hand};
use std::alloc::Global;
use std::snapshot::Snapshot;
use std::sync::Wait;
use std::thread;
use std::thread::{Promise, Threads};

/// A thread whose lines are done: its hand, which has no lock and holds nothing, and the replies.
#[derive(Drop)]
pub struct Served {
    pub hand: Hand,
    pub text: Vec<u8>,
}

/// All threads, whose lines are done: one hand of all, the replies of the workers from the lowest on, and those of the mover.
#[derive(Drop)]
pub struct Joined {
    pub hand: Hand,
    pub workers: Vec<u8>,
    pub mover: Vec<u8>,
}

// What a worker's thread promises: it did the worker's lines by the hand that it was given, where the gate let it on; or the gate stopped it.
#[derive(Drop)]
struct DoneBy<'a, G> {
    arena: &'a Arena,
    gate: &'a G,
    commands: &'a [Command],
    worker: u64,
    hand: Snapshot<Hand>,
}

impl<'a, G: Gate> Promise<Result<Served, Ended>> for DoneBy<'a, G> {
    ghost use Rattle.mc_workers.specs.Ends.{EndsServed};

    ghost kept_by = { λ p ended. EndsServed (G.LetsOn p.gate.now) (G.Stops p.gate.now)
        p.arena.now p.worker p.commands.now p.hand.value ended };
}

/// Does the lines of all workers, from this number on by these hands, each worker's in a thread of its own. The mover's lines are
/// done in this thread. Once all have ended, the mover's hand takes the others over.
///
/// `Memory` goes before `Thread`, and that before `Turns`. At `Turns` the gate stopped a thread, or the mover's turns were spent.
/// Each other thread was let on at all of its lines.
pub fn run_workers<R: Threads + Wait + Sync, G: Gate + Sync>(
    rt: &R,
    alloc: Global,
    arena: &Arena,
    gate: &G,
    commands: &[Command],
    worker: u64,
    mut hands: Vec<Hand>,
    mover: Hand,
) -> Result<Joined, Ended>
    requires hands { AreHandsFrom arena.now worker hands.items }
    requires within_limit { worker + vec_len hands ≤ most_hands }
    requires ready { IsReadyHandOf arena.now mover }
    requires none { (view mover).row.holdings ≡ [] }
    requires valid { All IsValid commands.now }
    ensures done { IfOk result (AreDone arena.now worker commands.now hands.items mover) }
    ensures passed { OnOk result
        (LetsAllOn (G.LetsOn gate.now) commands.now worker (length hands.items)) }
    ensures stopped { result ≡ Err Ended.Turns → StopsSome (G.LetsOn gate.now) (G.Stops gate.now)
        commands.now worker (length hands.items) }
{
    let Some(hand) = first_hand(arena, worker, &mut hands) else {
        return move_alone(rt, alloc, arena, gate, commands, mover);
    };
    thread::scope(
        thread::scope_env(),
        rt,
        |scope| -> Result<Joined, Ended>
            requires { IsSync R.row × IsSync G.row
                × IsNewHand arena.now worker hand × AreHandsFrom arena.now (1 + worker) hands.items
                × (worker + vec_len hands ≤ most_workers)
                × IsReadyHandOf arena.now mover × ((view mover).row.holdings ≡ [])
                × All IsValid commands.now }
            ensures { EndsJoined (G.LetsOn gate.entry.now) (G.Stops gate.entry.now) arena.entry.now
                worker commands.entry.now (hand ∷ hands.items) mover result }
        {
            let promise = DoneBy {
                arena,
                gate,
                commands,
                worker,
                hand: Snapshot::of(&hand),
            };
            let child = start(
                scope,
                promise,
                move || -> Result<Served, Ended>
                    requires { IsSync R.row × IsSync G.row × IsNewHand arena.now worker hand
                        × All IsValid commands.now }
                    ensures { EndsServed (G.LetsOn gate.entry.now) (G.Stops gate.entry.now)
                        arena.entry.now worker commands.entry.now hand result }
                { serve_worker(rt, alloc, arena, gate, commands, worker, hand) },
            );
            match child {
                Ok(child) => {
                    let others = run_workers(
                        rt,
                        alloc,
                        arena,
                        gate,
                        commands,
                        worker + 1,
                        hands,
                        mover,
                    );
                    let own = child.join(rt);
                    let (own, others) = both_of(own, others)?;
                    join_both(arena, own, others)
                }
                Err(unstarted) => Err(Ended::Thread(unstarted)),
            }
        },
    )
}

// A worker's thread.
fn serve_worker<R: Wait, G: Gate>(
    rt: &R,
    alloc: Global,
    arena: &Arena,
    gate: &G,
    commands: &[Command],
    worker: u64,
    mut hand: Hand,
) -> Result<Served, Ended>
    requires hand { IsNewHand arena.now worker hand }
    requires valid { All IsValid commands.now }
    ensures served { IfOk result (LinesAreServed arena.now worker commands.now hand) }
    ensures passed { OnOk result (PassesLines (G.LetsOn gate.now) commands.now worker) }
    ensures stopped { result ≡ Err Ended.Turns
        → StopsLines (G.LetsOn gate.now) (G.Stops gate.now) commands.now worker }
{
    let shared = Shared {
        rt,
        alloc,
        arena,
        gate,
        commands,
    };
    let mut text = Vec::new(alloc);
    serve_lines(&shared, worker, &mut hand, &mut text)?;
    Ok(Served { hand, text })
}

// The mover's lines, where no worker is left to start.
fn move_alone<R: Wait, G: Gate>(
    rt: &R,
    alloc: Global,
    arena: &Arena,
    gate: &G,
    commands: &[Command],
    mut hand: Hand,
) -> Result<Joined, Ended>
    requires ready { IsReadyHandOf arena.now hand }
    requires none { (view hand).row.holdings ≡ [] }
    requires valid { All IsValid commands.now }
    ensures moved { IfOk result (IsMoved arena.now commands.now hand) }
    ensures passed { OnOk result (PassesMoves (G.LetsOn gate.now) commands.now) }
    ensures stopped { result ≡ Err Ended.Turns
        → StopsMoves (G.LetsOn gate.now) (G.Stops gate.now) 0 commands.now }
{
    let shared = Shared {
        rt,
        alloc,
        arena,
        gate,
        commands,
    };
    let mut text = Vec::new(alloc);
    move_lines(&shared, &mut hand, &mut text)?;
    Ok(Joined {
        hand,
        workers: Vec::new(alloc),
        mover: text,
    })
}

/// The first of these hands, if there is one, which are numbered on from this number; the others are left.
pub fn first_hand(arena: &Arena, worker: u64, hands: &mut Vec<Hand>) -> Option<Hand>
    requires hands { AreHandsFrom arena.now worker hands.old.items }
    ensures first { IfSome result (IsNewHand arena.now worker) }
    ensures ready { IfSome result (λ hand. IsReadyHandOf arena.now hand
        × ((view hand).row.holdings ≡ [])) }
    ensures others { IfSome result (λ hand. AreHandsFrom arena.now (1 + worker) hands.new.items) }
    ensures all { IfSome result (λ hand. hands.old.items ≡ hand ∷ hands.new.items) }
    ensures fewer { IfSome result (λ hand. vec_len hands.new + 1 ≡ vec_len hands.old) }
    ensures none { result ≡ None → hands.old.items ≡ [] }
{
    if hands.is_empty() {
        None
    } else {
        Some(hands.remove(0))
    }
}

// What a worker did, and what the others and the mover did. Want of memory goes before a thread that wasn't started, and that before
// spent turns and a gate's stop.
fn both_of(
    own: Result<Served, Ended>,
    others: Result<Joined, Ended>,
) -> Result<(Served, Joined), Ended>
    ensures both { IfOk result (λ both. (own ≡ Ok both.0) × (others ≡ Ok both.1)) }
    ensures memory { own ≡ Err (Ended.Memory tt) → result ≡ Err (Ended.Memory tt) }
    ensures memory_of_others { others ≡ Err (Ended.Memory tt) → result ≡ Err (Ended.Memory tt) }
    ensures unstarted { own ≡ Err (Ended.Thread tt) → result ≢ Err Ended.Turns }
    ensures unstarted_of_others { others ≡ Err (Ended.Thread tt) → result ≢ Err Ended.Turns }
    ensures turns { result ≡ Err Ended.Turns → AreTurns own others }
{
    let own = match own {
        Ok(own) => own,
        Err(own) => {
            return match others {
                Ok(_others) => Err(own),
                Err(others) => Err(first_of(own, others)),
            };
        }
    };
    match others {
        Ok(others) => Ok((own, others)),
        Err(others) => Err(others),
    }
}

// The one of two ends that the run returns.
fn first_of(own: Ended, others: Ended) -> Ended
    ensures memory { own ≡ Ended.Memory tt → result ≡ Ended.Memory tt }
    ensures memory_of_others { others ≡ Ended.Memory tt → result ≡ Ended.Memory tt }
    ensures turns { result ≡ Ended.Turns → (own ≡ Ended.Turns) × (others ≡ Ended.Turns) }
{
    match own {
        Ended::Memory(refused) => Ended::Memory(refused),
        Ended::Thread(unstarted) => match others {
            Ended::Memory(refused) => Ended::Memory(refused),
            _ => Ended::Thread(unstarted),
        },
        Ended::Turns => others,
    }
}

// The worker's text before the others', and one hand of both.
fn join_both(arena: &Arena, own: Served, others: Joined) -> Result<Joined, Ended>
    requires own { IsHandOf arena.now own.hand }
    requires others { IsHandOf arena.now others.hand }
    requires idle { (is_idle (view others.hand) ≡ true) × (is_idle (view own.hand) ≡ true) }
    ensures joins { IfOk result (JoinsBoth arena.now own others) }
    ensures unstopped { result ≢ Err Ended.Turns }
{
    let Served { hand, text } = own;
    let Joined {
        hand: first,
        workers: behind,
        mover,
    } = others;
    let mut workers = text;
    extend_from_slice(&mut workers, &behind)?;
    let hand = arena.join_hands(first, hand);
    Ok(Joined {
        hand,
        workers,
        mover,
    })
}
