//! All lines of a worker, in order.
ghost use Rattle.std.specs.Prelude.{◌≡◌, [], All, Err, OnOk, Some, true};
ghost use Rattle.std.specs.Option.{option_map};
ghost use Rattle.mc_script.specs.Command.{IsValid};
ghost use Rattle.mc_words.specs.hand.Arenas.{IsHandOf, setup_of, view};
ghost use Rattle.mc_words.specs.hand.Idle.{is_idle};
ghost use Rattle.mc_words.specs.hand.Observers.{hand_number};
ghost use Rattle.mc_workers.specs.Asking.{asked_by, is_asked_by, is_workers};
ghost use Rattle.mc_workers.specs.Ends.{PassesLines, StopsLines};
ghost use Rattle.mc_workers.specs.Gates.{IsLetOn, StoppedAt};
ghost use Rattle.mc_words.specs.hand.Ready.{IsReadyHandOf};
ghost use Rattle.mc_workers.specs.Hands.{IsKeeping, StaysKeeping};
ghost use Rattle.mc_workers.specs.Lines.{DoesLines};
ghost use Rattle.mc_workers.specs.OnHands.{AddsReplyBy, ServesLinesBy};

use crate::ended::Ended;
use crate::gate::{Gate, Pass, Point};
use crate::keeping::release_all;
use crate::line::serve_line;
use crate::reply::push_reply;
use crate::shared::Shared;
use mc_items::Ref;
use mc_script::Command;
use mc_words::Hand;
use std::sync::Wait;

/// Does the worker's lines in order, each between two passes of the gate, adds their replies to an empty text, and gives back what the
/// worker still holds then. `Turns` where the gate stopped the worker, and nowhere else.
pub fn serve_lines<R: Wait, G: Gate>(
    shared: &Shared<R, G>,
    worker: u64,
    hand: &mut Hand,
    text: &mut Vec<u8>,
) -> Result<(), Ended>
    requires ready { IsReadyHandOf shared.now.arena.now hand.old }
    requires none { (view hand.old).row.holdings ≡ [] }
    requires valid { All IsValid shared.now.commands.now }
    requires empty { text.old.items ≡ [] }
    ensures arena { IsHandOf shared.now.arena.now hand.new }
    ensures number { hand_number hand.new ≡ hand_number hand.old }
    ensures idle { OnOk result (is_idle (view hand.new) ≡ true) }
    ensures does { OnOk result (DoesLines (setup_of shared.now.arena.now) worker
        shared.now.commands.now hand.old text.new.items hand.new) }
    ensures passed { OnOk result
        (PassesLines (G.LetsOn shared.now.gate.now) shared.now.commands.now worker) }
    ensures stopped { result ≡ Err Ended.Turns → StopsLines (G.LetsOn shared.now.gate.now)
        (G.Stops shared.now.gate.now) shared.now.commands.now worker }
{
    let mut kept = Vec::new(shared.alloc);
    serve_each(shared, worker, hand, &mut kept, text)?;
    release_all(shared.arena, hand, kept);
    Ok(())
}

// Does the worker's lines in order, with these references kept at first.
fn serve_each<R: Wait, G: Gate>(
    shared: &Shared<R, G>,
    worker: u64,
    hand: &mut Hand,
    kept: &mut Vec<Ref>,
    text: &mut Vec<u8>,
) -> Result<(), Ended>
    requires keeping { IsKeeping shared.now.arena.now hand.old kept.old.items }
    requires valid { All IsValid shared.now.commands.now }
    ensures stays { StaysKeeping shared.now.arena.now hand.old hand.new kept.new.items }
    ensures serves { OnOk result
        (ServesLinesBy shared.now.arena.now worker shared.now.commands.now hand.old kept.old.items
        text.old.items hand.new kept.new.items text.new.items) }
    ensures passed { OnOk result
        (PassesLines (G.LetsOn shared.now.gate.now) shared.now.commands.now worker) }
    ensures stopped { result ≡ Err Ended.Turns → StopsLines (G.LetsOn shared.now.gate.now)
        (G.Stops shared.now.gate.now) shared.now.commands.now worker }
{
    let mut nth = 0u64;
    for command in shared.commands {
        if is_line_of(command, worker) {
            nth += 1;
            serve_gated(shared, worker, nth, hand, kept, *command, text)?;
        }
    }
    Ok(())
}

// Does one line between two passes of the gate, and adds its reply.
fn serve_gated<R: Wait, G: Gate>(
    shared: &Shared<R, G>,
    worker: u64,
    nth: u64,
    hand: &mut Hand,
    kept: &mut Vec<Ref>,
    command: Command,
    text: &mut Vec<u8>,
) -> Result<(), Ended>
    requires keeping { IsKeeping shared.now.arena.now hand.old kept.old.items }
    requires valid { IsValid command }
    requires worker { is_asked_by worker command ≡ true }
    ensures stays { StaysKeeping shared.now.arena.now hand.old hand.new kept.new.items }
    ensures adds { OnOk result (AddsReplyBy shared.now.arena.now command hand.old kept.old.items
        text.old.items hand.new kept.new.items text.new.items) }
    ensures passed { OnOk result (IsLetOn (G.LetsOn shared.now.gate.now) worker nth) }
    ensures stopped { result ≡ Err Ended.Turns
        → StoppedAt (G.LetsOn shared.now.gate.now) (G.Stops shared.now.gate.now) worker nth }
{
    if shared.gate.pass(worker, nth, Point::Before) == Pass::Stop {
        return Err(Ended::Turns);
    }
    let reply = serve_line(shared.rt, shared.alloc, shared.arena, hand, kept, command)?;
    push_reply(text, key_of(command), &reply)?;
    if shared.gate.pass(worker, nth, Point::After) == Pass::Stop {
        return Err(Ended::Turns);
    }
    Ok(())
}

// Whether the line is this worker's.
fn is_line_of(command: &Command, worker: u64) -> bool
    ensures { result ≡ is_asked_by worker command.now }
{
    match *command {
        Command::Set { worker: asking, .. }
        | Command::Delete { worker: asking, .. }
        | Command::Get { worker: asking, .. }
        | Command::Hold { worker: asking, .. }
        | Command::Drop { worker: asking, .. }
        | Command::Touch { worker: asking, .. } => asking == worker,
        _ => false,
    }
}

// The key that a worker's line is about.
fn key_of(command: Command) -> u64
    requires { is_workers command ≡ true }
    ensures key { option_map (λ asked. asked.key) (asked_by command) ≡ Some result }
{
    match command {
        Command::Set { key, .. }
        | Command::Delete { key, .. }
        | Command::Get { key, .. }
        | Command::Hold { key, .. }
        | Command::Drop { key, .. }
        | Command::Touch { key, .. } => key,
        _ => unreachable!(),
    }
}
