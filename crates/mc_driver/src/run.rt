//! A serial run: one thread reads a script, does its commands in order, and writes each reply before the next command.
ghost use Rattle.std.specs.Prelude.{◌≡◌, ◌<◌, ◌≤◌, ◌↔◌, ℕ, true, Some, Err, Ok, length, IfSome, IsSome, IfOk, OnOk, IfErr, All};
ghost use Rattle.std.specs.Io.KnownBytes.{Appends, Keeps};
ghost use Rattle.mc_classes.specs.Refusals.{config_refusal};
ghost use Rattle.mc_classes.specs.Classes.{IsSound};
ghost use Rattle.mc_script.specs.Command.{IsValid};
ghost use Rattle.mc_script.specs.Script.{script_of};
ghost use Rattle.mc_serial_spec.specs.Lines.{is_done, replies_to};
ghost use Rattle.mc_serial_spec.specs.Machine.{fresh_machine};
ghost use Rattle.mc_driver.specs.Reading.{GivesAtMost, TakesAtMost, since};
ghost use Rattle.mc_driver.specs.Run.{IsOutcome, IsReadWhole, IsScript, IsReplyFault, WroteReply, IsScriptFault, IsScriptOutcome, IsServeFault, config_fault, config_refusal_number};

use crate::fault::RunFault;
use crate::reading::read_script;
use mc_classes::{ClassTable, ConfigError, Sink};
use mc_keeper::Keeper;
use mc_options::Run;
use mc_script::{Command, MAX_SCRIPT, ScriptError};
use mc_streams::Source;
use std::alloc::Global;

/// Reads a script and does its commands on one thread, in order. Each reply is written before the next command.
///
/// The configuration is tested before anything is read, and the whole script is read and checked before
/// anything is done. At most 1,048,577 bytes are read, and any error of the reader ends the reading. Where
/// memory runs out, the replies to all earlier commands were written and nothing of this one's; where a write
/// fails, no other is made.
pub fn run_serial<R: Source, W: Sink>(
    alloc: Global,
    run: &Run,
    reader: &mut R,
    writer: &mut W,
) -> Result<(), RunFault>
    requires { run.now.automove ≤ 2 }

    // A refused configuration is returned, exactly then, and leaves reader and writer alone.
    ensures refused { (number : ℕ) → (result ≡ Err (RunFault.Config number))
        ↔ (config_refusal_number run.now.config ≡ Some number) }
    ensures unread { IsSome (config_refusal run.now.config) →
        (reader.new ≡ reader.old) × (writer.new ≡ writer.old) }

    // No more is read than shows that a script is too long.
    ensures most { TakesAtMost 1048577 (R.remaining reader.old) (R.remaining reader.new) }
    ensures most_given { GivesAtMost 1048577 (R.given reader.old) (R.given reader.new) }

    // A failed read or write is returned, exactly then.
    ensures read { (result ≡ Err RunFault.Read) ↔ (R.failures reader.old < R.failures reader.new) }
    ensures write { (result ≡ Err RunFault.Write)
        ↔ (W.failures writer.old < W.failures writer.new) }

    // What is answered and written is what the plain machine replies to the bytes.
    ensures outcome { IfSome (R.remaining reader.old) (λ bytes.
        IsOutcome run.now bytes (W.contents writer.old) (W.contents writer.new) result) }

    // The answer and the text are those of the bytes that the reader gave. These were all up to its end where a script got
    // replies.
    ensures answered { IsOutcome run.now (since (R.given reader.old) (R.given reader.new))
        (W.contents writer.old) (W.contents writer.new) result }
    ensures whole { IsReadWhole (R.HasEnded reader.new)
        (Keeps (W.contents writer.old) (W.contents writer.new)) result }
{
    let table = match ClassTable::build(alloc, &run.config) {
        Ok(table) => table,
        Err(error) => return Err(fault_of(error)),
    };
    let bytes = read_script(alloc, reader)?;
    run_script(alloc, table, run, &bytes, writer)
}

/// Reads the commands of a script, and does them.
fn run_script<W: Sink>(
    alloc: Global,
    table: ClassTable,
    run: &Run,
    bytes: &[u8],
    writer: &mut W,
) -> Result<(), RunFault>
    requires sound { IsSound table }
    requires bulk { run.now.config.bulk ≤ 256 }
    requires automove { run.now.automove ≤ 2 }
    ensures outcome { IsScriptOutcome bytes.now
        (fresh_machine table run.now.config.bulk run.now.automove) (W.contents writer.old)
        (W.contents writer.new) result }
    ensures write { (result ≡ Err RunFault.Write)
        ↔ (W.failures writer.old < W.failures writer.new) }
{
    let commands = match commands_of(alloc, bytes) {
        Ok(commands) => commands,
        Err(fault) => return Err(fault),
    };
    match Keeper::new(alloc, table, run.config.bulk, run.automove) {
        Ok(mut keeper) => {
            let served = serve_all(alloc, &mut keeper, &commands, writer);
            // by a call: each place where a keeper goes out of scope takes most of a minute to prove
            drop(keeper);
            served
        }
        Err(refused) => Err(RunFault::Memory(refused)),
    }
}

/// How a run ends without a class table.
pub(crate) fn fault_of(error: ConfigError) -> RunFault
    ensures { result ≡ config_fault error }
{
    match error {
        ConfigError::NoMemory(refused) => RunFault::Memory(refused),
        refusal => RunFault::Config(refusal.number()),
    }
}

/// The commands of a script.
pub(crate) fn commands_of(alloc: Global, bytes: &[u8]) -> Result<Vec<Command>, RunFault>
    ensures script { IfOk result (λ commands. IsScript bytes.now commands.items) }
    ensures valid { IfOk result (λ commands. All IsValid commands.items) }
    ensures fault { IfErr result (IsScriptFault bytes.now) }
{
    if bytes.len() > MAX_SCRIPT {
        return Err(RunFault::TooLong);
    }
    match mc_script::read(alloc, bytes) {
        Ok(commands) => Ok(commands),
        Err(ScriptError::Line(number)) => Err(RunFault::Script(number)),
        Err(ScriptError::NoMemory(refused)) => Err(RunFault::Memory(refused)),
    }
}

/// Does the commands in order, and writes the reply to each before the next one.
fn serve_all<W: Sink>(
    alloc: Global,
    keeper: &mut Keeper,
    commands: &[Command],
    writer: &mut W,
) -> Result<(), RunFault>
    requires { All IsValid commands.now }
    ensures done { OnOk result (is_done keeper.old commands.now ≡ true) }
    ensures written { OnOk result (Appends (W.contents writer.old) (W.contents writer.new)
        (replies_to keeper.old commands.now)) }
    ensures quiet { OnOk result (W.failures writer.new ≡ W.failures writer.old) }
    ensures fault { IfErr result (IsServeFault keeper.old commands.now
        (W.contents writer.old) (W.contents writer.new) (W.failures writer.old)
        (W.failures writer.new)) }
{
    let mut text = Vec::new(alloc);
    for command in commands {
        serve_one(keeper, *command, &mut text, writer)?;
    }
    Ok(())
}

/// Does one command and writes its reply, for which `text` is the room. Where memory runs out, nothing of it is written.
fn serve_one<W: Sink>(
    keeper: &mut Keeper,
    command: Command,
    text: &mut Vec<u8>,
    writer: &mut W,
) -> Result<(), RunFault>
    requires { IsValid command }
    ensures written { OnOk result (WroteReply keeper.old command (W.contents writer.old)
        (W.contents writer.new) keeper.new) }
    ensures quiet { OnOk result (W.failures writer.new ≡ W.failures writer.old) }
    ensures fault { IfErr result (IsReplyFault keeper.old command
        (W.contents writer.old) (W.contents writer.new) (W.failures writer.old)
        (W.failures writer.new)) }
{
    text.clear();
    keeper.serve(command, text)?;
    match writer.write_all(text) {
        Ok(()) => Ok(()),
        Err(_) => Err(RunFault::Write),
    }
}
