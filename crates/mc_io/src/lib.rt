//! What a writer is, for all crates above, and a count of failures that contracts alone see.
//!
//! - A [`Sink`] is a writer of bytes. Its ghost members show contracts the bytes that it is known to hold, and how often a write
//!   failed.
//! - A [`Fault`] is a failed read or write. The device reports no more than that.
//! - [`Failures`] counts failures for contracts. It takes no bytes when the program runs.
//!
//! ```rust
//! fn write_line<W: Sink>(writer: &mut W, line: &[u8]) -> Result<(), Fault> {
//!     writer.write_all(line)?;
//!     writer.write_all(b"\r\n")
//! }
//! ```
//!
//! A caller may rely on this: a write that succeeds appends exactly its bytes, and a failed one keeps what was there. `mc_streams`
//! has the writers of the system, and `mc_replies` one in memory.
#![tactic(auto)]

mod device;
mod failures;

pub use device::{Fault, Sink};
pub use failures::Failures;
