//! Seats at an arena: a hand for each worker, with the references that it keeps, and one for the mover.
ghost use Rattle.std.specs.Prelude.{◌≡◌, [], All, IfOk, false, is_some, true};
ghost use Rattle.mc_script.specs.Command.{IsValid};
ghost use Rattle.mc_words.specs.hand.Arenas.{view};
ghost use Rattle.mc_words.specs.hand.Hands.{AreHandsFrom};
ghost use Rattle.mc_workers.specs.Asking.{is_workers};
ghost use Rattle.mc_words.specs.hand.Ready.{IsReadyHandOf};
ghost use Rattle.mc_workers.specs.Hands.{IsKeeping};

use mc_items::Ref;
use mc_memory::Refused;
use mc_script::Command;
use mc_words::{Arena, Hand};
use mc_workers::{
    Ended, Mover, first_hand, push_mover_reply, push_reply, serve_line, serve_mover_line,
};
use std::alloc::{AllocError, Global};
use std::sync::Wait;

/// A worker's hand, and the references that it keeps.
#[derive(Drop)]
pub struct Seat {
    pub hand: Hand,
    pub kept: Vec<Ref>,
}

/// The mover's hand, and what the mover owns beside it.
#[derive(Drop)]
pub struct MoverSeat {
    pub hand: Hand,
    pub mover: Mover,
}

/// Whose line a command is, and about which key.
#[derive(Clone, Copy)]
pub struct Asked {
    worker: u64,
    key: u64,
}

/// Who asks a worker's line; none asks a line of the mover.
pub fn asked_by(command: Command) -> Option<Asked>
    ensures workers { is_some result ≡ is_workers command }
{
    match command {
        Command::Set { worker, key, .. }
        | Command::Get { worker, key }
        | Command::Hold { worker, key }
        | Command::Drop { worker, key }
        | Command::Delete { worker, key }
        | Command::Touch { worker, key } => Some(Asked { worker, key }),
        _ => None,
    }
}

/// The seat of this hand, which holds nothing.
#[tactic(auto, using(mc_workers::proofs::KeptRefs::kept_none))]
fn new_seat(alloc: Global, arena: &Arena, hand: Hand) -> Seat
    requires arena { IsReadyHandOf arena.now hand }
    requires none { (view hand).row.holdings ≡ [] }
    ensures seat { IsKeeping arena.now result.hand result.kept.items }
{
    Seat {
        hand,
        kept: Vec::new(alloc),
    }
}

/// The mover's seat, with this hand.
pub fn mover_seat(alloc: Global, arena: &Arena, hand: Hand) -> Result<MoverSeat, Refused>
    requires hand { IsReadyHandOf arena.now hand }
    ensures seat { IfOk result (λ seat. IsReadyHandOf arena.now seat.hand) }
{
    match Mover::new(alloc, arena.classes()) {
        Ok(mover) => Ok(MoverSeat { hand, mover }),
        Err(error) => Err(error),
    }
}

/// A seat for each of these hands, which are those of the workers from 1 on.
pub fn seats_of(alloc: Global, arena: &Arena, mut hands: Vec<Hand>) -> Result<Vec<Seat>, AllocError>
    requires hands { AreHandsFrom arena.now 1 hands.items }
    ensures seats { IfOk result (λ seats. All (λ seat.
        IsKeeping arena.now seat.hand seat.kept.items) seats.items) }
{
    let mut seats = Vec::new(alloc);
    for worker in 1..64 {
        let Some(hand) = first_hand(arena, worker, &mut hands) else {
            return Ok(seats);
        };
        seats.push(new_seat(alloc, arena, hand))?;
    }
    Ok(seats)
}

/// Does a worker's line at this seat, and adds the reply.
fn serve_at<R: Wait>(
    rt: &R,
    alloc: Global,
    arena: &Arena,
    seat: &mut Seat,
    key: u64,
    command: Command,
    text: &mut Vec<u8>,
) -> Result<(), Ended>
    requires seat { IsKeeping arena.now seat.old.hand seat.old.kept.items }
    requires valid { IsValid command }
    requires worker { is_workers command ≡ true }
    ensures seat { IsKeeping arena.now seat.new.hand seat.new.kept.items }
{
    let reply = serve_line(rt, alloc, arena, &mut seat.hand, &mut seat.kept, command)?;
    push_reply(text, key, &reply)?;
    Ok(())
}

/// Does a worker's line at its seat, and adds the reply.
pub fn serve_worker<R: Wait>(
    rt: &R,
    alloc: Global,
    arena: &Arena,
    seats: &mut Vec<Seat>,
    asked: Asked,
    command: Command,
    text: &mut Vec<u8>,
) -> Result<(), Ended>
    requires seats { All (λ seat. IsKeeping arena.now seat.hand seat.kept.items) seats.old.items }
    requires valid { IsValid command }
    requires worker { is_workers command ≡ true }
    ensures seats { All (λ seat. IsKeeping arena.now seat.hand seat.kept.items) seats.new.items }
{
    let place = asked.worker.wrapping_sub(1) as usize;
    match seats.get_mut(place) {
        Some(seat) => serve_at(rt, alloc, arena, seat, asked.key, command, text),
        None => Err(Ended::Turns),
    }
}

/// Does a line of the mover at its seat, and adds the reply.
pub fn serve_mover<R: Wait>(
    rt: &R,
    alloc: Global,
    arena: &Arena,
    seat: &mut MoverSeat,
    command: Command,
    text: &mut Vec<u8>,
) -> Result<(), Ended>
    requires seat { IsReadyHandOf arena.now seat.old.hand }
    requires valid { IsValid command }
    requires mover { is_workers command ≡ false }
    ensures seat { IsReadyHandOf arena.now seat.new.hand }
{
    let reply = serve_mover_line(rt, alloc, arena, &mut seat.hand, &mut seat.mover, command)?;
    push_mover_reply(text, arena.classes(), &reply)?;
    Ok(())
}
