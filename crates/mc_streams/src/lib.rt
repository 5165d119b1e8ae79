//! Readers and writers of a run, which record for contracts what they gave and took, at no cost.
//!
//! - A [`Source`] is a reader to a contract: the bytes that it gave, those that it is known to give yet, whether it ended, and
//!   how often a read failed.
//! - [`Input`] is a source over a reader of std, and [`Output`] a sink over a writer of std. `Output` holds bytes back, so the
//!   run ends with [`Output::finish`].
//! - A [`RecordedWriter`] around a writer of std gives it contents that a contract sees.
//!
//! ```rust
//! let mut input = Input::new(rt.reader(), Failures::<I>::new(reads));
//! let writer = RecordedWriter::new(io::writer(rt));
//! let mut output = Output::new(rt.alloc(), writer, Failures::<O>::new(writes))?;
//! let done = run_serial(rt.alloc(), &options.run, &mut input, &mut output); // of mc_driver
//! match output.finish() {
//!     Ok(_) => done,
//!     Err(Fault) => Err(RunFault::Write),
//! }
//! ```
//!
//! A caller may rely on this: a read adds just the bytes that it returns to those given, and a failed read or write raises the
//! count of failures. A read that a signal interrupts is tried again. What is read and written is `mc_driver`'s.
#![tactic(auto)]

mod record;
mod recorded;
mod source;
mod standard;

pub use recorded::RecordedWriter;
pub use source::Source;
pub use standard::{Input, Output};
