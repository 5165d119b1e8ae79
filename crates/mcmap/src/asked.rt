//! The words of the command line: which view is asked for, and the options.
ghost use Rattle.std.specs.Prelude.{◌≡◌, ◌≤◌, IfOk};
ghost use Rattle.std.specs.List.{list_any};
ghost use Rattle.mcmap.specs.Asked.{is_help, only_view, view_among, view_of_word};

use crate::fault::Fault;
use mc_memory::push;
use mc_options::{CommandLineError, Run, options};
use std::env::{self, Env};

/// What is to be shown.
#[derive(Clone, Copy, Debug, PartialEq, Eq)]
pub enum View {
    /// A map at each mark and at the end.
    Maps,
    /// A map at each mark and at the end as JSON, one in a line.
    Json,
    /// Pages over time.
    Chart,
    /// Maps under a slider, as a page of HTML.
    Page,
    /// The class table, before anything runs.
    Classes,
    /// What is wrong with the options and the script.
    Check,
    /// How to call the program.
    Help,
}

/// What the words of the command line ask for.
#[derive(Drop)]
pub struct Asked {
    pub view: View,
    pub run: Run,
    /// The words that name no view.
    pub words: Vec<String>,
}

/// The view that a word names, if it names one.
fn view_of(word: &str) -> Option<View>
    ensures view { result ≡ view_of_word word.now }
{
    match word {
        "--json" => Some(View::Json),
        "--svg" => Some(View::Chart),
        "--html" => Some(View::Page),
        "--classes" => Some(View::Classes),
        "--check" => Some(View::Check),
        "--help" | "-h" => Some(View::Help),
        _ => None,
    }
}

/// Whether the view is the help.
fn is_help(view: View) -> bool
    ensures { result ≡ is_help view }
{
    matches!(view, View::Help)
}

/// Whether the help is among these views.
fn names_help(views: &[View]) -> bool
    ensures { result ≡ list_any is_help views.now }
{
    views.iter().any(|view| is_help(*view))
}

/// The view to show where words name these views, and not the help: the maps where none is named, and else the one view.
fn only_view(views: &[View]) -> Result<View, Fault>
    ensures view { result ≡ only_view views.now }
{
    match views {
        [] => Ok(View::Maps),
        [view] => Ok(*view),
        _ => Err(Fault::Views),
    }
}

/// The view to show where words name these views: the help where it is among them, and else the only one.
fn view_among(views: &[View]) -> Result<View, Fault>
    ensures view { result ≡ view_among views.now }
{
    if names_help(views) {
        return Ok(View::Help);
    }
    only_view(views)
}

/// Reads the words of the command line. Those that name no view are options of a run.
pub fn read_words<R: Env + AllocGlobal>(rt: &R) -> Result<Asked, Fault>
    ensures { IfOk result (λ asked. asked.run.automove ≤ 2) }
{
    let mut views = Vec::new(rt.alloc());
    let mut words = Vec::new(rt.alloc());
    for word in env::args(rt).map_err(CommandLineError::from)? {
        match view_of(word.as_str()) {
            Some(view) => push(&mut views, view)?,
            None => push(&mut words, word)?,
        }
    }
    let view = view_among(&views)?;
    let options = options(rt.alloc(), words.as_slice()).map_err(CommandLineError::from)?;
    if options.threads {
        return Err(Fault::Threads);
    }
    Ok(Asked {
        view,
        run: options.run,
        words,
    })
}
