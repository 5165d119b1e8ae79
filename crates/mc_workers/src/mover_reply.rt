//! The replies to the mover's lines, and their text.
ghost use Rattle.std.specs.Prelude.{◌≡◌, ◌++◌, OnOk};
ghost use Rattle.std.specs.Io.{StartsWith};
ghost use Rattle.mc_workers.specs.MoverReplies.{CanPrint, mover_text, reassign_word};

use crate::statistics::{push_classes, push_totals};
use mc_classes::ClassTable;
use mc_memory::Refused;
use mc_mover::Survey;
use mc_pages::Reassign;
use mc_replies::{push_answer, push_turn_line, push_window_line};
use mc_serial_spec::{Counts, Ending};
use mc_stripe::Trim;
use mc_watch::Decision;
use std::marker::Brand;
use std::sync::ledger::Blank;

/// What became of a decision of the automover.
#[derive(PartialEq, Eq, Drop)]
pub struct Acted {
    /// From which class a page was to go to which, or to the pool.
    pub decision: Decision,
    /// Whether a page of that class began to move, or why not.
    pub answer: Result<(), Reassign>,
}

/// The answer to a line of the mover.
#[derive(Drop)]
pub enum MoverReply {
    /// Whether a page began to move, or why not.
    Answer(Result<(), Reassign>),
    /// The automover has the mode that was asked for.
    Mode,
    /// A window ended: what became of the decision, if one was acted on, and whether all was trimmed after it, which no line
    /// prints.
    Window(Option<Acted>, Result<(), Trim>),
    /// How the last turn ended, and what all turns of the line did.
    Turned(Ending, Counts),
    /// The numbers of all classes together.
    Totals(Survey),
    /// The numbers of each class.
    Classes(Survey),
}

/// Adds the lines of the reply. Where memory runs out, the text that was there stays, and some of the lines may follow it.
pub fn push_mover_reply(
    text: &mut Vec<u8>,
    table: &ClassTable,
    reply: &MoverReply,
) -> Result<(), Refused>
    requires tellable { CanPrint table.now reply.now }
    ensures text { OnOk result (text.new.items ≡ text.old.items ++ mover_text table.now reply.now) }
    ensures kept { StartsWith text.new.items text.old.items }
{
    match reply {
        MoverReply::Answer(answer) => push_answer(text, name_of_answer(answer)),
        MoverReply::Mode => push_answer(text, b"OK"),
        MoverReply::Window(None, _) => push_answer(text, b"WINDOW none"),
        MoverReply::Window(Some(acted), _) => {
            let Decision { src, dst } = acted.decision;
            push_window_line(text, src, dst, name_of_answer(&acted.answer))
        }
        MoverReply::Turned(ending, counts) => push_turn_line(text, *ending, *counts),
        MoverReply::Totals(survey) => push_totals::<Brand>(Blank::new(1), text, survey),
        MoverReply::Classes(survey) => push_classes::<Brand>(Blank::new(1), text, table, survey),
    }
}

// The word for whether a page began to move.
fn name_of_answer(answer: &Result<(), Reassign>) -> &'static [u8]
    ensures name { result.now ≡ reassign_word answer.now }
{
    match answer {
        Ok(()) => b"OK",
        Err(Reassign::Busy) => b"BUSY",
        Err(Reassign::Same) => b"SAME",
        Err(Reassign::BadClass) => b"BADCLASS",
        Err(Reassign::NoSpare) => b"NOSPARE",
        Err(Reassign::NoMemory(_)) => b"",
    }
}
