//! All lines of a script, by threads on an arena of its own.
ghost use Rattle.std.specs.Prelude.{◌≡◌, ◌≤◌, [], All, Err, IfOk, None, OnOk};
ghost use Rattle.mc_classes.specs.Limits.{most_hands, most_workers};
ghost use Rattle.mc_classes.specs.Refusals.{config_refusal};
ghost use Rattle.mc_script.specs.Command.{IsValid};
ghost use Rattle.mc_words.specs.hand.Arenas.{view};
ghost use Rattle.mc_workers.specs.Asking.{greatest_worker, asking_worker};
ghost use Rattle.mc_workers.specs.Ends.{RunPasses, RunStops};
ghost use Rattle.mc_words.specs.hand.Ready.{IsReadyHandOf};
ghost use Rattle.mc_workers.specs.Script.{IsOpened, ServesScript, PrintsAll};

use crate::ended::Ended;
use crate::gate::Gate;
use crate::statistics::push_statistics;
use crate::threads::{Joined, first_hand, run_workers};
use mc_classes::Config;
use mc_memory::{Refused, extend_from_slice};
use mc_mover::{set_mode, survey};
use mc_script::Command;
use mc_words::{Arena, Hand, NewError};
use std::alloc::Global;
use std::sync::Wait;
use std::thread::Threads;

/// Does a script's lines on a new arena in this mode, each worker's in a thread of its own and the mover's in this one. The text
/// has the replies to the workers from the lowest on, and those to the mover. Behind them are the statistics of the classes and
/// of the whole once all had ended.
///
/// `Memory` goes before `Thread`, and that before `Turns`. At `Turns` the gate stopped a thread, or the mover's turns were spent.
/// Each other thread was let on at all of its lines.
pub fn serve_script<R: Threads + Wait + Sync, G: Gate + Sync>(
    rt: &R,
    alloc: Global,
    config: &Config,
    mode: u64,
    gate: &G,
    commands: &[Command],
) -> Result<Vec<u8>, Ended>
    requires accepted { config_refusal config.now ≡ None }
    requires mode { mode ≤ 2 }
    requires valid { All IsValid commands.now }
    ensures serves { IfOk result (λ text. ServesScript config.now mode commands.now text.items) }
    ensures passed { OnOk result (RunPasses (G.LetsOn gate.now) commands.now) }
    ensures stopped { result ≡ Err Ended.Turns
        → RunStops (G.LetsOn gate.now) (G.Stops gate.now) commands.now }
{
    let workers = greatest_worker(commands);
    let (arena, mover, hands) = open_arena(rt, alloc, config, mode, 1 + workers)?;
    let joined = run_workers(rt, alloc, &arena, gate, commands, 1, hands, mover)?;
    Ok(tell_all(rt, alloc, &arena, joined)?)
}

// The greatest worker of the lines, and 0 where all are the mover's.
fn greatest_worker(commands: &[Command]) -> u64
    requires valid { All IsValid commands.now }
    ensures greatest { result ≡ greatest_worker commands.now }
    ensures within_limit { result ≤ most_workers }
{
    commands.iter().map(worker_of).max().unwrap_or(0)
}

// Whose line it is, the mover being worker 0.
fn worker_of(command: &Command) -> u64
    ensures worker { result ≡ asking_worker command.now }
{
    match *command {
        Command::Set { worker, .. }
        | Command::Delete { worker, .. }
        | Command::Get { worker, .. }
        | Command::Hold { worker, .. }
        | Command::Drop { worker, .. }
        | Command::Touch { worker, .. } => worker,
        _ => 0,
    }
}

// A new arena with n hands, in this mode: the mover's hand, and those of the workers.
fn open_arena<R: Wait>(
    rt: &R,
    alloc: Global,
    config: &Config,
    mode: u64,
    hands: u64,
) -> Result<(Arena, Hand, Vec<Hand>), Refused>
    requires accepted { config_refusal config.now ≡ None }
    requires mode { mode ≤ 2 }
    requires some { 1 ≤ hands }
    requires within_limit { hands ≤ most_hands }
    ensures opened { IfOk result (λ opened.
        IsOpened config.now mode hands opened.0 opened.1 opened.2.items) }
    ensures mover { IfOk result (λ opened. IsReadyHandOf opened.0 opened.1) }
    ensures none { IfOk result (λ opened. (view opened.1).row.holdings ≡ []) }
{
    let (arena, mut workers) = match Arena::new(alloc, config, hands) {
        Ok(made) => made,
        Err(NewError::NoMemory(refused)) => return Err(refused),
        Err(_) => unreachable!(),
    };
    let Some(mut mover) = first_hand(&arena, 0, &mut workers) else {
        unreachable!()
    };
    set_mode(rt, &arena, &mut mover, mode);
    Ok((arena, mover, workers))
}

// The texts of all threads, and the statistics.
fn tell_all<R: Wait>(
    rt: &R,
    alloc: Global,
    arena: &Arena,
    joined: Joined,
) -> Result<Vec<u8>, Refused>
    requires ready { IsReadyHandOf arena.now joined.hand }
    ensures tells { IfOk result (λ text. PrintsAll arena.now joined text.items) }
{
    let Joined {
        mut hand,
        workers,
        mover,
    } = joined;
    let survey = survey(rt, alloc, arena, &mut hand, true)?;
    let mut text = workers;
    extend_from_slice(&mut text, &mover)?;
    push_statistics(&mut text, arena.classes(), &survey)?;
    Ok(text)
}
