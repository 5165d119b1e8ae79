//! `mcslab`: runs a script of memory commands from standard input, and replies on standard output.
//!
//! It ends with status 0, or with a line on standard error and another status. This is 1 where the command line is refused; 2
//! where the script is; 3 where a stream failed; 4 where memory ran out; and 5 where the script asks for more than 1,000,000
//! turns of the mover.
#![tactic(auto)]

mod help;

ghost use Rattle.std.specs.Prelude.{◌≡◌, ◌<◌, ◌≤◌, IfOk};
ghost use Rattle.mc_driver.specs.Status.{status_of};

use help::FORMS;
use mc_classes::{Failures, Fault};
use mc_driver::{
    CommandLineError, Free, Input as Standard, Options, Output, RecordedWriter, RunFault, options,
    run_serial, run_threads,
};
use mc_memory::push;
use std::env::Env;
use std::marker::Brand;
use std::process::ExitCode;
use std::sync::Wait;
use std::sync::ledger::{Blank, Ledger};
use std::thread::Threads;
use std::{env, io};

/// Why the program wasn't done.
#[derive(Drop)]
enum Stop {
    /// The command line can't be taken.
    CommandLine(CommandLineError),
    /// The run wasn't done.
    Fault(RunFault),
}

impl From<RunFault> for Stop {
    ghost use Rattle.std.specs.Prelude.{◌≡◌};
    ghost use Rattle.mcslab.specs.declared.Stop.TheVariants.{Fault};

    ghost from_gives = { λ fault stop. stop ≡ Fault fault };

    fn from(fault: RunFault) -> Stop {
        Stop::Fault(fault)
    }
}

impl From<CommandLineError> for Stop {
    fn from(error: CommandLineError) -> Stop {
        Stop::CommandLine(error)
    }
}

/// The options that the program was started with.
fn started_with<R: Env + AllocGlobal>(rt: &R) -> Result<Options, Stop>
    ensures { IfOk result (λ options. options.run.automove ≤ 2) }
{
    let mut words = Vec::new(rt.alloc());
    for word in env::args(rt).map_err(CommandLineError::from)? {
        push(&mut words, word).map_err(RunFault::from)?;
    }
    match options(rt.alloc(), words.as_slice()) {
        Ok(options) => Ok(options),
        Err(error) => Err(Stop::CommandLine(CommandLineError::from(error))),
    }
}

/// Runs the script, by one thread or by as many as the options want. Whatever comes of it, what was replied is written before the end.
fn serve<R: Input + Print + AllocGlobal + Threads + Wait + Sync, I: Ledger, O: Ledger>(
    rt: &R,
    options: &Options,
    reads: Blank,
    writes: Blank,
) -> Result<(), RunFault>
    requires automove { options.now.run.automove ≤ 2 }
    requires reads_name { reads.name ≡ I.name }
    requires reads_parts { reads.parts ≡ I.parts }
    requires reads_some { 0 < reads.parts }
    requires writes_name { writes.name ≡ O.name }
    requires writes_parts { writes.parts ≡ O.parts }
    requires writes_some { 0 < writes.parts }
{
    let mut input = Standard::new(rt.reader(), Failures::<I>::new(reads));
    let writer = RecordedWriter::new(io::writer(rt));
    let mut output = Output::new(rt.alloc(), writer, Failures::<O>::new(writes))?;
    let (alloc, run) = (rt.alloc(), &options.run);
    let done = if options.threads {
        run_threads(rt, alloc, run, &Free, &mut input, &mut output)
    } else {
        run_serial(alloc, run, &mut input, &mut output)
    };
    match output.finish() {
        Ok(_) => done,
        Err(Fault) => Err(RunFault::Write),
    }
}

/// Reads the options and runs.
fn run<R: Env + Input + Print + AllocGlobal + Threads + Wait + Sync>(rt: &R) -> Result<(), Stop> {
    let options = started_with(rt)?;
    serve::<R, Brand, Brand>(rt, &options, Blank::new(1), Blank::new(1))?;
    Ok(())
}

/// Prints on standard error what kept the run from being done, and returns the status to end with.
fn tell(rt: &impl Eprint, fault: RunFault) -> u8
    ensures { result ≡ status_of fault }
{
    let _ = rt.eprintln(format_args!("mcslab: {fault}"));
    fault.status()
}

/// Prints the options, and then what they and a script's lines have to be.
fn print_help(rt: &impl Print, options: clap::Error) -> io::Result<()> {
    rt.print(options)?;
    rt.print(FORMS)
}

/// Prints what was asked for or what is wrong, and gives the status to end with.
fn end(rt: &(impl Print + Eprint), stop: Stop) -> u8 {
    match stop {
        Stop::CommandLine(CommandLineError::Options(error)) => {
            if error.use_stderr() {
                let _ = rt.eprint(error);
                return 1;
            }
            match print_help(rt, error) {
                Ok(()) => 0,
                Err(_) => tell(rt, RunFault::Write),
            }
        }
        Stop::CommandLine(CommandLineError::Words) => {
            let _ = rt.eprintln("mcslab: the arguments are not text");
            1
        }
        Stop::CommandLine(CommandLineError::Memory) => {
            let _ = rt.eprintln("mcslab: memory");
            4
        }
        Stop::Fault(fault) => tell(rt, fault),
    }
}

fn main(rt: HostRuntime) -> ExitCode {
    match run(&rt) {
        Ok(()) => ExitCode::SUCCESS,
        Err(stop) => ExitCode::from(end(&rt, stop)),
    }
}
