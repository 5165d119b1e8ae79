//! All lines of the mover, in order.
ghost use Rattle.std.specs.Prelude.{◌≡◌, ◌+◌, ◌≤◌, [], All, Err, OnOk, false};
ghost use Rattle.mc_script.specs.Command.{IsValid};
ghost use Rattle.mc_words.specs.hand.Arenas.{setup_of};
ghost use Rattle.mc_workers.specs.Asking.{is_movers, is_workers};
ghost use Rattle.mc_workers.specs.Ends.{PassesMoves};
ghost use Rattle.mc_workers.specs.Gates.{IsLetOn};
ghost use Rattle.mc_words.specs.hand.Ready.{IsReadyHandOf};
ghost use Rattle.mc_workers.specs.Hands.{StaysHolding};
ghost use Rattle.mc_workers.specs.Moves.{MovesLines};
ghost use Rattle.mc_workers.specs.Moving.{turns_of};
ghost use Rattle.mc_workers.specs.OnHands.{AddsMoveBy, AddsMovesBy};
ghost use Rattle.mc_workers.specs.Spending.{StopsMove, StopsMoves, turns_asked};

use crate::ended::Ended;
use crate::gate::{Gate, Pass, Point};
use crate::mover::Mover;
use crate::mover_line::serve_mover_line;
use crate::mover_reply::push_mover_reply;
use crate::shared::Shared;
use mc_script::Command;
use mc_words::Hand;
use std::sync::Wait;

/// Does the lines of no worker in order, each between two passes of the gate as worker 0, and adds their replies to an empty text.
/// `Turns` where the gate stopped it, or where a line asked for more turns than the run had left, and nowhere else.
pub fn move_lines<R: Wait, G: Gate>(
    shared: &Shared<R, G>,
    hand: &mut Hand,
    text: &mut Vec<u8>,
) -> Result<(), Ended>
    requires ready { IsReadyHandOf shared.now.arena.now hand.old }
    requires valid { All IsValid shared.now.commands.now }
    requires empty { text.old.items ≡ [] }
    ensures stays { StaysHolding shared.now.arena.now hand.old hand.new }
    ensures moves { OnOk result (MovesLines (setup_of shared.now.arena.now).table
        shared.now.commands.now hand.old text.new.items hand.new) }
    ensures passed { OnOk result (PassesMoves (G.LetsOn shared.now.gate.now)
        shared.now.commands.now) }
    ensures stopped { result ≡ Err Ended.Turns → StopsMoves (G.LetsOn shared.now.gate.now)
        (G.Stops shared.now.gate.now) 0 shared.now.commands.now }
{
    let mut mover = Mover::new(shared.alloc, shared.arena.classes())?;
    move_each(shared, hand, &mut mover, text)
}

// Does the mover's lines in order.
fn move_each<R: Wait, G: Gate>(
    shared: &Shared<R, G>,
    hand: &mut Hand,
    mover: &mut Mover,
    text: &mut Vec<u8>,
) -> Result<(), Ended>
    requires ready { IsReadyHandOf shared.now.arena.now hand.old }
    requires valid { All IsValid shared.now.commands.now }
    ensures stays { StaysHolding shared.now.arena.now hand.old hand.new }
    ensures moves { OnOk result (AddsMovesBy shared.now.arena.now shared.now.commands.now hand.old
        mover.old text.old.items hand.new mover.new text.new.items) }
    ensures passed { OnOk result (PassesMoves (G.LetsOn shared.now.gate.now)
        shared.now.commands.now) }
    ensures stopped { result ≡ Err Ended.Turns → StopsMoves (G.LetsOn shared.now.gate.now)
        (G.Stops shared.now.gate.now) (turns_of mover.old) shared.now.commands.now }
{
    let mut nth = 0u64;
    for command in shared.commands {
        if is_line_of_mover(command) {
            nth += 1;
            move_gated(shared, nth, hand, mover, *command, text)?;
        }
    }
    Ok(())
}

// Does one line between two passes of the gate, and adds its reply.
fn move_gated<R: Wait, G: Gate>(
    shared: &Shared<R, G>,
    nth: u64,
    hand: &mut Hand,
    mover: &mut Mover,
    command: Command,
    text: &mut Vec<u8>,
) -> Result<(), Ended>
    requires ready { IsReadyHandOf shared.now.arena.now hand.old }
    requires valid { IsValid command }
    requires mover { is_workers command ≡ false }
    ensures stays { StaysHolding shared.now.arena.now hand.old hand.new }
    ensures adds { OnOk result (AddsMoveBy shared.now.arena.now command hand.old mover.old
        text.old.items hand.new mover.new text.new.items) }
    ensures begun { OnOk result (turns_of mover.new ≤ turns_of mover.old + turns_asked command) }
    ensures passed { OnOk result (IsLetOn (G.LetsOn shared.now.gate.now) 0 nth) }
    ensures stopped { result ≡ Err Ended.Turns → StopsMove (G.LetsOn shared.now.gate.now)
        (G.Stops shared.now.gate.now) nth command mover.old }
{
    if shared.gate.pass(0, nth, Point::Before) == Pass::Stop {
        return Err(Ended::Turns);
    }
    let reply = serve_mover_line(shared.rt, shared.alloc, shared.arena, hand, mover, command)?;
    push_mover_reply(text, shared.arena.classes(), &reply)?;
    if shared.gate.pass(0, nth, Point::After) == Pass::Stop {
        return Err(Ended::Turns);
    }
    Ok(())
}

// Whether the line is no worker's.
fn is_line_of_mover(command: &Command) -> bool
    ensures { result ≡ is_movers command.now }
{
    matches!(
        *command,
        Command::Reassign { .. }
            | Command::Automove { .. }
            | Command::Window
            | Command::Turn { .. }
            | Command::Stats
            | Command::StatsSlabs
    )
}
