//! Runs of `mcslab`: a script in, the replies and statistics out.
//!
//! - [`options`] reads the command line. [`Options`] has a [`Run`], the configuration and the automover's mode, and whether
//!   threads do the lines.
//! - [`Input`] and [`Output`] are the standard streams as a run takes them. A [`RecordedWriter`] shows contracts what was
//!   written.
//! - [`run_serial`] does a script's commands on one thread, over `mc_keeper`.
//! - [`run_threads`] does them by threads on an arena that all share, over `mc_workers`. A [`Gate`] may hold them back; [`Free`]
//!   holds nobody back.
//! - A [`RunFault`] is why a run ended early, and `status` the number with which a program ends then.
//!
//! ```rust
//! let done = if options.threads {
//!     run_threads(rt, alloc, &options.run, &Free, &mut input, &mut output)
//! } else {
//!     run_serial(alloc, &options.run, &mut input, &mut output)
//! };
//! match done {
//!     Ok(()) => 0,
//!     Err(fault) => fault.status(),
//! }
//! ```
//!
//! A caller may rely on this: what `run_serial` writes is what the plain machine of `mc_serial_spec` replies, and what `run_threads`
//! writes is what its workers' and mover's calls returned. The configuration is tested before anything is read. Reader and writer
//! may be one's own: a [`Source`] and a `mc_classes::Sink`.
#![tactic(auto)]

mod fault;
mod reading;
mod run;
mod threads;

pub use fault::RunFault;
pub use mc_options::{CommandLineError, Options, Run, options};
pub use mc_streams::{Input, Output, RecordedWriter, Source};
pub use mc_workers::{Free, Gate, Pass, Point, Unstarted};
pub use run::run_serial;
pub use threads::run_threads;
