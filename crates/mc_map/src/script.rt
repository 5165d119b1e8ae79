//! A script with its marks: the lines that ask for a map.
ghost use Rattle.std.specs.Prelude.{◌≡◌, ℕ, ◌≤◌, ◌++◌, Ok, IfOk, OnOk, All};
ghost use Rattle.std.specs.Str.{bytes_eq};
ghost use Rattle.std.specs.Str.Lines.{lines};
ghost use Rattle.mc_script.specs.Command.{IsValid};
ghost use Rattle.mc_script.specs.Script.{script_of};
ghost use Rattle.mc_map.specs.Marks.{command_count, is_mark, mark_on, script_marks};

use mc_memory::{Refused, push};
use mc_script::Command;
pub use mc_script::ScriptError;
use mc_script::line::is_skipped;
use mc_script::lines::Lines;
use std::alloc::Global;

/// A line `# map`.
#[derive(Clone, Copy, Debug, PartialEq, Eq)]
pub struct Mark {
    /// The number of the line. Lines are numbered from 1, skipped ones too.
    pub line: u64,
    /// How many commands are above the line.
    pub done: u64,
}

/// The commands of a script, and its marks.
#[derive(Drop)]
pub struct Script {
    pub commands: Vec<Command>,
    pub marks: Vec<Mark>,
}

/// Reads a script, or returns which is the first line that is no command.
pub fn read_script(alloc: Global, bytes: &[u8]) -> Result<Script, ScriptError>
    ensures commands { IfOk result (λ script. script_of bytes.now ≡ Ok script.commands.items) }
    ensures valid { IfOk result (λ script. All IsValid script.commands.items) }
    ensures marks { IfOk result (λ script. script.marks.items
        ≡ script_marks 0 0 (lines bytes.now)) }
    ensures refused { (n : ℕ) → result ≡ Err (ScriptError.Line n) → script_of bytes.now ≡ Err n }
{
    let commands = match mc_script::read(alloc, bytes) {
        Ok(commands) => commands,
        Err(error) => return Err(error),
    };
    match marks(alloc, bytes) {
        Ok(marks) => Ok(Script { commands, marks }),
        Err(refused) => Err(ScriptError::NoMemory(refused)),
    }
}

/// The marks of a script.
fn marks(alloc: Global, bytes: &[u8]) -> Result<Vec<Mark>, Refused>
    ensures { IfOk result (λ marks. marks.items ≡ script_marks 0 0 (lines bytes.now)) }
{
    let mut marks = Vec::new(alloc);
    let mut number = 0;
    let mut done = 0;
    for line in Lines::new(bytes) {
        number += 1;
        note_mark(&mut marks, line, number, done)?;
        done += commands_on(line);
    }
    Ok(marks)
}

/// Notes a line with this number, which has `done` commands above it, if it is a mark.
fn note_mark(marks: &mut Vec<Mark>, line: &[u8], number: u64, done: u64) -> Result<(), Refused>
    ensures { OnOk result (marks.new.items ≡ marks.old.items ++ mark_on line.now number done) }
{
    if is_mark(line) {
        push(marks, Mark { line: number, done })?;
    }
    Ok(())
}

/// Whether a line asks for a map.
fn is_mark(line: &[u8]) -> bool
    ensures { result ≡ is_mark line.now }
{
    line == b"# map".as_slice()
}

/// 1 for a line that is a command, and 0 for one that is skipped.
fn commands_on(line: &[u8]) -> u64
    ensures count { result ≡ command_count line.now }
    ensures most { result ≤ 1 }
{
    if is_skipped(line) { 0 } else { 1 }
}
