//! Why a command line can't be taken.
use clap::Error;
use clap::error::ErrorKind;
use std::io;

/// Why a command line can't be taken. That memory ran out `clap` or the standard library reports, by an error that is no
/// evidence.
#[derive(Debug, Drop)]
pub enum CommandLineError {
    /// The options are refused, or help was asked for.
    Options(Error),
    /// The words can't be read as text.
    Words,
    /// Memory ran out for the words or the options.
    Memory,
}

impl From<Error> for CommandLineError {
    fn from(error: Error) -> CommandLineError {
        match error.kind() {
            ErrorKind::OutOfMemory => CommandLineError::Memory,
            _ => CommandLineError::Options(error),
        }
    }
}

impl From<io::Error> for CommandLineError {
    fn from(error: io::Error) -> CommandLineError {
        match error.kind() {
            io::ErrorKind::OutOfMemory => CommandLineError::Memory,
            _ => CommandLineError::Words,
        }
    }
}
