//! A run by threads: each worker's lines in a thread of its own and the mover's beside them, on an arena that all share.
ghost use Rattle.std.specs.Prelude.{◌≡◌, ◌<◌, ◌≤◌, ◌↔◌, ℕ, Some, None, Err, IfSome, IsSome, OnOk};
ghost use Rattle.std.specs.Io.KnownBytes.{Keeps};
ghost use Rattle.mc_classes.specs.Refusals.{config_refusal};
ghost use Rattle.mc_workers.specs.Ends.{RunPasses, RunStops};
ghost use Rattle.mc_driver.specs.Reading.{GivesAtMost, TakesAtMost, since};
ghost use Rattle.mc_driver.specs.Run.{IsReadWhole, OfScript, config_refusal_number};
ghost use Rattle.mc_driver.specs.Threads.{IsThreadsOutcome, IsOutcomeByThreads};

use crate::fault::RunFault;
use crate::reading::read_script;
use crate::run::{commands_of, fault_of};
use mc_classes::Sink;
use mc_options::Run;
use mc_streams::Source;
use mc_workers::{Gate, serve_script};
use std::alloc::Global;
use std::sync::Wait;
use std::thread::Threads;

/// Reads a script and does its lines by threads: each worker's in order in a thread of its own, and those of no worker, the
/// mover's, in this one. Each worker gives back at its end what it still holds. Then the replies are written, worker by worker
/// from the lowest and the mover's last, and the texts of `stats slabs` and `stats` behind them. Which of the lines of two
/// threads comes first is open, unless the gate decides it.
///
/// The configuration is tested before anything is read, and the whole script is read and checked before a thread is started. All
/// is written in one write at the end: where memory or the turns of a run ran out, a thread couldn't be started, or the gate
/// stopped one, nothing is. `Memory` goes before `Thread`, and that before `Turns`. At `Turns` the gate stopped a thread, or the
/// mover's turns were spent. Each other thread was let on at all of its lines.
pub fn run_threads<T: Threads + Wait + Sync, G: Gate + Sync, R: Source, W: Sink>(
    rt: &T,
    alloc: Global,
    run: &Run,
    gate: &G,
    reader: &mut R,
    writer: &mut W,
) -> Result<(), RunFault>
    requires { run.now.automove ≤ 2 }

    // A refused configuration is returned, exactly then, and leaves reader and writer alone.
    ensures refused { (number : ℕ) → (result ≡ Err (RunFault.Config number))
        ↔ (config_refusal_number run.now.config ≡ Some number) }
    ensures unread { IsSome (config_refusal run.now.config) →
        (reader.new ≡ reader.old) × (writer.new ≡ writer.old) }

    // No more is read than shows that a script is too long.
    ensures most { TakesAtMost 1048577 (R.remaining reader.old) (R.remaining reader.new) }
    ensures most_given { GivesAtMost 1048577 (R.given reader.old) (R.given reader.new) }

    // A failed read or write is returned, exactly then.
    ensures read { (result ≡ Err RunFault.Read) ↔ (R.failures reader.old < R.failures reader.new) }
    ensures write { (result ≡ Err RunFault.Write)
        ↔ (W.failures writer.old < W.failures writer.new) }

    // What is answered and written is what threads may reply to the bytes.
    ensures outcome { IfSome (R.remaining reader.old) (λ bytes.
        IsThreadsOutcome run.now bytes (W.contents writer.old) (W.contents writer.new) result) }

    // The answer and the text are those of the bytes that the reader gave. These were all up to its end where a script got
    // replies.
    ensures answered { IsThreadsOutcome run.now (since (R.given reader.old) (R.given reader.new))
        (W.contents writer.old) (W.contents writer.new) result }
    ensures whole { IsReadWhole (R.HasEnded reader.new)
        (Keeps (W.contents writer.old) (W.contents writer.new)) result }

    // A run that is done was let on at each line. One that is out of turns was stopped, by its gate or by its limit, and nobody's
    // memory was refused.
    ensures passed { OnOk result (OfScript (since (R.given reader.old) (R.given reader.new))
        (RunPasses (G.LetsOn gate.now))) }
    ensures stopped { result ≡ Err RunFault.Turns
        → OfScript (since (R.given reader.old) (R.given reader.new))
        (RunStops (G.LetsOn gate.now) (G.Stops gate.now)) }
{
    if let Err(error) = run.config.test() {
        return Err(fault_of(error));
    }
    let bytes = read_script(alloc, reader)?;
    run_by_threads(rt, alloc, run, gate, &bytes, writer)
}

/// Does the lines of a script, and writes the replies to all threads.
fn run_by_threads<T: Threads + Wait + Sync, G: Gate + Sync, W: Sink>(
    rt: &T,
    alloc: Global,
    run: &Run,
    gate: &G,
    bytes: &[u8],
    writer: &mut W,
) -> Result<(), RunFault>
    requires accepted { config_refusal run.now.config ≡ None }
    requires automove { run.now.automove ≤ 2 }
    ensures outcome { IsOutcomeByThreads run.now bytes.now (W.contents writer.old)
        (W.contents writer.new) result }
    ensures write { (result ≡ Err RunFault.Write)
        ↔ (W.failures writer.old < W.failures writer.new) }
    ensures passed { OnOk result (OfScript bytes.now (RunPasses (G.LetsOn gate.now))) }
    ensures stopped { result ≡ Err RunFault.Turns
        → OfScript bytes.now (RunStops (G.LetsOn gate.now) (G.Stops gate.now)) }
{
    let commands = commands_of(alloc, bytes)?;
    let text = serve_script(rt, alloc, &run.config, run.automove, gate, &commands)?;
    match writer.write_all(&text) {
        Ok(()) => Ok(()),
        Err(_) => Err(RunFault::Write),
    }
}
