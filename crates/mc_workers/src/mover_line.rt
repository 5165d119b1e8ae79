//! One line of the mover, on its hand.
ghost use Rattle.std.specs.Prelude.{◌≡◌, ◌+◌, ◌≤◌, Err, IfOk, OnErr, OnOk, false};
ghost use Rattle.mc_script.specs.Command.{IsValid};
ghost use Rattle.mc_words.specs.hand.Arenas.{setup_of};
ghost use Rattle.mc_workers.specs.Asking.{is_workers};
ghost use Rattle.mc_words.specs.hand.Ready.{IsReadyHandOf};
ghost use Rattle.mc_workers.specs.Hands.{StaysHolding};
ghost use Rattle.mc_workers.specs.MoverReplies.{CanPrint};
ghost use Rattle.mc_workers.specs.Moving.{RefusesMover, ServesMover, StopsMover, turns_of};
ghost use Rattle.mc_workers.specs.Spending.{turns_asked};

use crate::ended::Ended;
use crate::mover::Mover;
use crate::mover_reply::MoverReply;
use crate::turns::do_turns;
use crate::window::{ask_for_page, end_window};
use mc_mover::{set_mode, survey};
use mc_script::Command;
use mc_words::{Arena, Hand};
use std::alloc::Global;
use std::sync::Wait;

/// Does a line of the mover by its hand, and returns the reply. It waits for the lock of the slabs, and at the end of a window
/// for that of each stripe, one at a time.
///
/// `Turns` where a turn would be the run's 1,000,001st: it isn't begun, and those of the line before it are done. Where memory runs out
/// the line may be done in part; a window's was refused it before its trim. A trim that is refused ends nothing, and the reply has why.
pub fn serve_mover_line<R: Wait>(
    rt: &R,
    alloc: Global,
    arena: &Arena,
    hand: &mut Hand,
    mover: &mut Mover,
    command: Command,
) -> Result<MoverReply, Ended>
    requires ready { IsReadyHandOf arena.now hand.old }
    requires valid { IsValid command }
    requires mover { is_workers command ≡ false }
    ensures stays { StaysHolding arena.now hand.old hand.new }
    ensures moves { IfOk result (λ reply.
        ServesMover command reply mover.old hand.old mover.new hand.new) }
    ensures tellable { IfOk result (CanPrint (setup_of arena.now).table) }
    ensures stopped { result ≡ Err Ended.Turns →
        StopsMover command mover.old hand.old mover.new hand.new }
    ensures begun { OnOk result (turns_of mover.new ≤ turns_of mover.old + turns_asked command) }
    ensures refused { OnErr result (RefusesMover command hand.old hand.new) }
{
    match command {
        Command::Reassign { src, dst } => {
            let answer = ask_for_page(rt, arena, hand, src, dst)?;
            Ok(MoverReply::Answer(answer))
        }
        Command::Automove { mode } => {
            set_mode(rt, arena, hand, mode);
            Ok(MoverReply::Mode)
        }
        Command::Window => {
            let (acted, trimmed) = end_window(rt, alloc, arena, hand, mover)?;
            Ok(MoverReply::Window(acted, trimmed))
        }
        Command::Turn { turns } => {
            let (ending, counts) = do_turns(rt, arena, hand, mover, turns)?;
            Ok(MoverReply::Turned(ending, counts))
        }
        Command::Stats => {
            let survey = survey(rt, alloc, arena, hand, false)?;
            Ok(MoverReply::Totals(survey))
        }
        Command::StatsSlabs => {
            let survey = survey(rt, alloc, arena, hand, true)?;
            Ok(MoverReply::Classes(survey))
        }
        _ => unreachable!(),
    }
}
