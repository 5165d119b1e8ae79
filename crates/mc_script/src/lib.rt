//! The script language of `mcslab`: from the bytes of a script to its commands. The language is own.
//!
//! A script has a command a line. A line ends with LF or CR LF, the last one perhaps with the script. Spaces separate its words,
//! one or more, and may be at either end. A line without words is skipped, and so is one whose first word begins with `#`. A
//! number has 1 to 20 decimal digits and is below 2^64; it may have leading zeros. Any other line is refused.
//!
//! - [`read`] returns all commands of a script, or a [`ScriptError`]: the number of the first line that is none, or want of
//!   memory.
//! - A [`Command`] has one variant for each form of a line: the calls of a worker on a key, and the lines of the mover.
//! - [`MAX_SCRIPT`] is the most bytes of a script. Whoever reads one in tests its length.
//! - [`lines`], [`line`] and [`number`] are the parts, for readers of other texts.
//!
//! ```rust
//! fn count_sets(alloc: Global, bytes: &[u8]) -> Result<u64, ScriptError> {
//!     let mut sets = 0;
//!     let commands = read(alloc, bytes)?;
//!     for command in &commands {
//!         if let Command::Set { .. } = command {
//!             sets += 1;
//!         }
//!     }
//!     Ok(sets)
//! }
//! ```
//!
//! A caller may rely on this: `script_of` in `specs/` defines which bytes are a script. All numbers of a command are within their
//! limits, and written commands are read as just those ([`written_is_read`]). What a command does is defined by `mc_serial_spec`.
#![tactic(auto)]

mod command;
mod forms;
mod laws;
pub mod line;
pub mod lines;
pub mod number;
mod parts;
mod script;

pub use command::Command;
pub use laws::written_is_read;
pub use script::{MAX_SCRIPT, ScriptError, read};
