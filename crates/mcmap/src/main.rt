//! `mcmap`: runs a script of memory commands from standard input, and shows the memory at each line `# map` and at the end.
//!
//! It ends with status 0, or with a line on standard error and another status. This is 1 where the command line is refused; 2
//! where the script is; 3 where a stream failed; 4 where memory ran out; and 5 where the script asks for more than 1,000,000
//! turns of the mover. It is 6 where the books don't agree with the memory's numbers, which is the program's own fault.
#![tactic(auto)]

ghost use Rattle.std.specs.Prelude.{◌≡◌, ◌≤◌, All, IfOk, None};
ghost use Rattle.mc_classes.specs.Refusals.{config_refusal};
ghost use Rattle.mc_script.specs.Command.{IsValid};

mod asked;
mod check;
mod fault;
mod help;
mod json;
mod laws;
mod lines;
mod page;
mod page_script;
mod show;

use crate::asked::{Asked, View, read_words};
use crate::check::{check_options, check_script};
use crate::fault::Fault;
use crate::help::HELP;
use crate::page::show_page;
use crate::show::{Form, show_chart, show_classes, show_maps};
use mc_map::{Config, Script, read_script};
use std::env::Env;
use std::io::{ErrorKind, Read};
use std::process::ExitCode;

/// The most bytes of a script, and one more, by which a longer one is seen.
const MOST: u64 = 1_048_577;

/// Reads standard input to its end, or one byte past the longest script.
fn read_bytes<R: Input + AllocGlobal>(rt: &R) -> Result<Vec<u8>, Fault> {
    let mut bytes = Vec::new(rt.alloc());
    match rt.reader().take(MOST).read_to_end(&mut bytes) {
        Ok(_count) => Ok(bytes),
        Err(error) if error.kind() == ErrorKind::OutOfMemory => Err(Fault::Memory),
        Err(_error) => Err(Fault::Read),
    }
}

/// The bytes of the script.
fn script_bytes<R: Input + AllocGlobal>(rt: &R) -> Result<Vec<u8>, Fault> {
    let bytes = read_bytes(rt)?;
    if bytes.len() as u64 >= MOST {
        return Err(Fault::TooLong);
    }
    Ok(bytes)
}

/// The script, which isn't read where the configuration is refused.
fn script_read<R: Input + AllocGlobal>(rt: &R, config: &Config) -> Result<Script, Fault>
    ensures accepted { IfOk result (λ script. config_refusal config.now ≡ None) }
    ensures valid { IfOk result (λ script. All IsValid script.commands.items) }
{
    config.test()?;
    let bytes = script_bytes(rt)?;
    match read_script(rt.alloc(), &bytes) {
        Ok(script) => Ok(script),
        Err(error) => Err(Fault::from(error)),
    }
}

/// Shows what is asked for, as `text`. Where it stops, what is there already is shown still.
fn show_view<R: Input + AllocGlobal>(rt: &R, asked: &Asked, text: &mut String) -> Result<(), Fault>
    requires { asked.now.run.automove ≤ 2 }
{
    let (alloc, run) = (rt.alloc(), &asked.run);
    match asked.view {
        View::Help => Ok(text.push_str(HELP)?),
        View::Classes => show_classes(alloc, run, text),
        View::Chart => show_chart(alloc, run, &script_read(rt, &run.config)?, text),
        View::Page => show_page(alloc, run, &script_read(rt, &run.config)?, text),
        View::Maps => show_maps(alloc, Form::Text, run, &script_read(rt, &run.config)?, text),
        View::Json => show_maps(alloc, Form::Json, run, &script_read(rt, &run.config)?, text),
        View::Check => show_faults(rt, asked, text),
    }
}

/// Shows what is wrong with the options, or else with the script.
fn show_faults<R: Input + AllocGlobal>(
    rt: &R,
    asked: &Asked,
    text: &mut String,
) -> Result<(), Fault> {
    check_options(&asked.run.config, &asked.words, text)?;
    let bytes = script_bytes(rt)?;
    check_script(rt.alloc(), &bytes, text)
}

/// Reads the command line, and shows what it asks for.
fn run<R: Env + Input + Print + AllocGlobal>(rt: &R) -> Result<(), Fault> {
    let asked = read_words(rt)?;
    let mut text = String::new(rt.alloc());
    let done = show_view(rt, &asked, &mut text);
    match rt.print(text.as_str()) {
        Ok(()) => done,
        Err(_error) => Err(Fault::Write),
    }
}

fn main(rt: HostRuntime) -> ExitCode {
    match run(&rt) {
        Ok(()) => ExitCode::SUCCESS,
        Err(fault) => {
            let _ = rt.eprintln(format_args!("mcmap: {fault}"));
            ExitCode::from(fault.status())
        }
    }
}
