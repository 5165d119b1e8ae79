//! The command line of `mcslab`: what its words ask for. The options are own.
//!
//! - [`options`] reads the words of a command line, of which the first is the program's name, by a port of `clap`.
//! - [`Options`] is what they ask for: a [`Run`], and whether the script's lines run by threads. A `Run` has the configuration
//!   and the mode of the automover.
//! - A [`CommandLineError`] is why a command line can't be taken: the options are refused or help was asked for, the words aren't
//!   text, or memory ran out.
//!
//! ```rust
//! fn run_of(alloc: Global, words: &[String]) -> Result<Run, CommandLineError> {
//!     match options(alloc, words) {
//!         Ok(options) => Ok(options.run),
//!         Err(error) => Err(CommandLineError::from(error)),
//!     }
//! }
//! ```
//!
//! A caller may rely on this: each field is the number that its option has in the words, or the default, and the mode is at most
//! 2. Whether the configuration is accepted is tested by `mc_classes::ClassTable::build`. The texts of help and errors are
//! `clap`'s.
#![tactic(auto)]

mod command_line;
mod refusal;
mod settings;

pub use command_line::options;
pub use refusal::CommandLineError;
pub use settings::{Options, Run};
