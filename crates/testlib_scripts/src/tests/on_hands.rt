//! Scripts on hands of the arena, line after line on one thread: they write what the serial run writes.
ghost use Rattle.std.specs.Prelude.{◌≤◌, All, IfOk};
ghost use Rattle.mc_script.specs.Command.{IsValid};
ghost use Rattle.mc_words.specs.hand.Hands.{AreHandsFrom};
ghost use Rattle.mc_words.specs.hand.Ready.{IsReadyHandOf};
ghost use Rattle.mc_workers.specs.Hands.{IsKeeping};

use super::Played;
use super::seats::{MoverSeat, Seat, asked_by, mover_seat, seats_of, serve_mover, serve_worker};
use mc_driver::{Run, RunFault};
use mc_script::Command;
use mc_words::{Arena, Hand};
use mc_workers::{Ended, first_hand};
use std::alloc::Global;
use std::process::Abort;
use std::str;
use std::sync::Wait;
use std::test::Fail;
use testlib_hands::drop_arena;

/// Hands of a new arena do the script's lines, write what the serial run wrote and end as it did. A script that it refused isn't played.
pub fn assert_alike<R: Abort + Wait>(
    rt: &R,
    alloc: Global,
    run: Run,
    script: &[u8],
    serial: &Played,
    name: &str,
) -> Result<(), Fail>
    requires { run.automove ≤ 2 }
{
    let end = match &serial.end {
        Ok(()) => Ok(()),
        Err(RunFault::Turns) => Err(Ended::Turns),
        Err(_) => return Ok(()),
    };
    let mut text = Vec::new(alloc);
    let ended = play_on_hands(rt, alloc, run, script, &mut text)?;
    assert_same_lines(rt, &text, &serial.text, name);
    assert!(rt; ended == end, "how hands end: {name}");
    Ok(())
}

/// The commands of a script.
fn commands_of(alloc: Global, script: &[u8]) -> Result<Vec<Command>, Fail>
    ensures valid { IfOk result (λ commands. All IsValid commands.items) }
{
    match mc_script::read(alloc, script) {
        Ok(commands) => Ok(commands),
        Err(_) => Err(Fail::new("each line is a command")),
    }
}

/// Plays a script on hands, and returns how it ends.
fn play_on_hands<R: Wait>(
    rt: &R,
    alloc: Global,
    run: Run,
    script: &[u8],
    text: &mut Vec<u8>,
) -> Result<Result<(), Ended>, Fail>
    requires { run.automove ≤ 2 }
{
    let commands = commands_of(alloc, script)?;
    play_commands(rt, alloc, run, &commands, text)
}

/// Plays commands on 64 hands of a new arena, of which the first is the mover's.
fn play_commands<R: Wait>(
    rt: &R,
    alloc: Global,
    run: Run,
    commands: &[Command],
    text: &mut Vec<u8>,
) -> Result<Result<(), Ended>, Fail>
    requires mode { run.automove ≤ 2 }
    requires valid { All IsValid commands.now }
{
    let (arena, hands) = Arena::new(alloc, &run.config, 64)?;
    let played = play_on_arena(rt, alloc, run.automove, &arena, hands, commands, text);
    drop_arena(arena);
    played
}

/// Plays commands on hands of this arena.
fn play_on_arena<R: Wait>(
    rt: &R,
    alloc: Global,
    mode: u64,
    arena: &Arena,
    hands: Vec<Hand>,
    commands: &[Command],
    text: &mut Vec<u8>,
) -> Result<Result<(), Ended>, Fail>
    requires hands { AreHandsFrom arena.now 0 hands.items }
    requires mode { mode ≤ 2 }
    requires valid { All IsValid commands.now }
{
    let mut hands = hands;
    let Some(hand) = first_hand(arena, 0, &mut hands) else {
        return Err(Fail::new("there is a hand"));
    };
    let mut mover = mover_seat(alloc, arena, hand)?;
    let mut seats = seats_of(alloc, arena, hands)?;
    let played = play_seated(
        rt, alloc, mode, arena, &mut seats, &mut mover, commands, text,
    );
    drop(seats);
    drop(mover);
    played
}

/// The mover sets the mode, and then each line is done at its seat.
fn play_seated<R: Wait>(
    rt: &R,
    alloc: Global,
    mode: u64,
    arena: &Arena,
    seats: &mut Vec<Seat>,
    mover: &mut MoverSeat,
    commands: &[Command],
    text: &mut Vec<u8>,
) -> Result<Result<(), Ended>, Fail>
    requires seats { All (λ seat. IsKeeping arena.now seat.hand seat.kept.items) seats.old.items }
    requires mover { IsReadyHandOf arena.now mover.old.hand }
    requires mode { mode ≤ 2 }
    requires valid { All IsValid commands.now }
{
    let mut told = Vec::new(alloc);
    let sets = Command::Automove { mode };
    let set = serve_mover(rt, alloc, arena, mover, sets, &mut told);
    let played = play_lines(rt, alloc, arena, seats, mover, commands, text);
    match set {
        Ok(()) => Ok(played),
        Err(_) => Err(Fail::new("the mode is set")),
    }
}

/// Does a line at its seat, and adds the reply.
fn serve<R: Wait>(
    rt: &R,
    alloc: Global,
    arena: &Arena,
    seats: &mut Vec<Seat>,
    mover: &mut MoverSeat,
    command: Command,
    text: &mut Vec<u8>,
) -> Result<(), Ended>
    requires seats { All (λ seat. IsKeeping arena.now seat.hand seat.kept.items) seats.old.items }
    requires mover { IsReadyHandOf arena.now mover.old.hand }
    requires valid { IsValid command }
    ensures seats { All (λ seat. IsKeeping arena.now seat.hand seat.kept.items) seats.new.items }
    ensures mover { IsReadyHandOf arena.now mover.new.hand }
{
    match asked_by(command) {
        Some(asked) => serve_worker(rt, alloc, arena, seats, asked, command, text),
        None => serve_mover(rt, alloc, arena, mover, command, text),
    }
}

/// Does each line at its seat, and adds the replies.
fn play_lines<R: Wait>(
    rt: &R,
    alloc: Global,
    arena: &Arena,
    seats: &mut Vec<Seat>,
    mover: &mut MoverSeat,
    commands: &[Command],
    text: &mut Vec<u8>,
) -> Result<(), Ended>
    requires seats { All (λ seat. IsKeeping arena.now seat.hand seat.kept.items) seats.old.items }
    requires mover { IsReadyHandOf arena.now mover.old.hand }
    requires valid { All IsValid commands.now }
{
    for command in commands {
        serve(rt, alloc, arena, seats, mover, *command, text)?;
    }
    Ok(())
}

/// The texts are the same; else the first line that differs is printed.
fn assert_same_lines(rt: &impl Abort, found: &[u8], wanted: &[u8], name: &str) {
    if found == wanted {
        return;
    }
    let alike = found
        .split(|byte| *byte == b'\n')
        .zip(wanted.split(|byte| *byte == b'\n'))
        .take_while(|(one, other)| one == other)
        .count();
    let one = line_at(found, alike);
    let other = line_at(wanted, alike);
    assert!(rt;
        false,
        "{name}: behind {alike} lines hands write {one}, and the serial run {other}"
    );
}

/// The line behind n others.
fn line_at(text: &[u8], before: usize) -> &str {
    let line = text.split(|byte| *byte == b'\n').nth(before);
    match str::from_utf8(line.unwrap_or(b"")) {
        Ok(line) => line.trim_end(),
        Err(_) => "?",
    }
}
