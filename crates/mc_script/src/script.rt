//! A whole script: the bytes that are read to its commands.
ghost use Rattle.std.specs.Prelude.{◌≡◌, ℕ, IfOk, All};
ghost use Rattle.mc_script.specs.Command.{IsValid};
ghost use Rattle.mc_script.specs.Forms.{command_of};
ghost use Rattle.mc_script.specs.Script.{script_of};
ghost use Rattle.mc_script.specs.Words.{line_words};
ghost use Rattle.mc_script.specs.declared.script.ScriptError.TheVariants.{NoMemory};

use crate::command::Command;
use crate::forms::command;
use crate::line::is_skipped;
use crate::lines::Lines;
use crate::parts::first_words;
use mc_memory::{Refused, push};
use std::alloc::Global;
use thiserror::Error;

/// The most bytes of a script. Whoever reads one in tests its length before (own).
pub const MAX_SCRIPT: usize = 1_048_576;

/// Why a script gives no commands.
#[derive(Debug, PartialEq, Eq, Drop, Error)]
pub enum ScriptError {
    /// The lowest line that is no command. Lines are numbered from 1, skipped ones too.
    #[error("line {0} is no command")]
    Line(u64),
    /// Memory ran out.
    #[error("out of memory")]
    NoMemory(Refused),
}

impl From<Refused> for ScriptError {
    ghost from_gives = { λ refused error. error ≡ NoMemory refused };

    fn from(refused: Refused) -> ScriptError {
        ScriptError::NoMemory(refused)
    }
}

/// The commands of a script, in the order of their lines, or the number of the lowest line that is neither skipped nor a
/// command. It takes memory for the commands alone, and time linear in the bytes.
#[tactic(auto, unfolding(crate::specs::Script::script_of))]
pub fn read(alloc: Global, bytes: &[u8]) -> Result<Vec<Command>, ScriptError>
    ensures ok { IfOk result (λ commands. script_of bytes.now ≡ Ok commands.items) }
    ensures refused { (n : ℕ) → result ≡ Err (ScriptError.Line n) → script_of bytes.now ≡ Err n }
    ensures valid { IfOk result (λ commands. All IsValid commands.items) }
{
    let mut commands = Vec::new(alloc);
    let mut number = 0;
    for line in Lines::new(bytes) {
        number += 1;
        if is_skipped(line) {
            continue;
        }
        match command_on(line) {
            Some(command) => push(&mut commands, command)?,
            None => return Err(ScriptError::Line(number)),
        }
    }
    Ok(commands)
}

/// The command that a line writes, if it writes one.
fn command_on(line: &[u8]) -> Option<Command>
    ensures { result ≡ command_of (line_words line.now) }
{
    let (words, count) = first_words(line);
    command(&words[..count])
}
