//! `mc_replay`: plays lists of events from standard input, and writes what each answers on standard output.
//!
//! A list begins with a line `list ..`, which is written back as it is. Then come its configuration, its hands and its events.
//! Between `answer` and `end` is what the list is to answer, which is passed over. The program writes the model's answer, and
//! after `Ok` the state.
//!
//! It ends with status 0, or with a line on standard error and another status: 2 where a line can't be read, 3 where a stream
//! failed, and 4 where memory ran out.
#![tactic(auto)]

ghost use Rattle.std.specs.Prelude.{◌≡◌, ◌<◌};
ghost use Rattle.mc_replay.specs.Status.{replay_status};

mod fault;
mod list;
mod read;
mod run;
mod write;

use crate::fault::RunFault;
use crate::run::run;
use mc_classes::{Failures, Fault};
use mc_streams::{Input as Standard, Output};
use std::io;
use std::marker::Brand;
use std::process::ExitCode;
use std::sync::ledger::{Blank, Ledger};

/// Plays the lists. Whatever comes of it, what was answered is written before the end.
fn serve<R: Input + Print + AllocGlobal, I: Ledger, O: Ledger>(
    rt: &R,
    reads: Blank,
    writes: Blank,
) -> Result<(), RunFault>
    requires reads_name { reads.name ≡ I.name }
    requires reads_parts { reads.parts ≡ I.parts }
    requires reads_some { 0 < reads.parts }
    requires writes_name { writes.name ≡ O.name }
    requires writes_parts { writes.parts ≡ O.parts }
    requires writes_some { 0 < writes.parts }
{
    let mut input = Standard::new(rt.reader(), Failures::<I>::new(reads));
    let mut output = Output::new(rt.alloc(), io::writer(rt), Failures::<O>::new(writes))?;
    let done = run(rt.alloc(), &mut input, &mut output);
    match output.finish() {
        Ok(_) => done,
        Err(Fault) => Err(RunFault::Write),
    }
}

/// Prints on standard error what kept the run from being done, and returns the status to end with.
fn tell(rt: &impl Eprint, fault: RunFault) -> u8
    ensures { result ≡ replay_status fault }
{
    let _ = rt.eprintln(format_args!("mc_replay: {fault}"));
    fault.status()
}

/// Plays the lists on the standard streams.
fn start(rt: &HostRuntime) -> Result<(), RunFault> {
    serve::<HostRuntime, Brand, Brand>(rt, Blank::new(1), Blank::new(1))
}

fn main(rt: HostRuntime) -> ExitCode {
    match start(&rt) {
        Ok(()) => ExitCode::SUCCESS,
        Err(fault) => ExitCode::from(tell(&rt, fault)),
    }
}
