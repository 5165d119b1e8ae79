//! The input: its bytes, and the lists in them.
//!
//! A line ends with LF or CR LF, the last one perhaps with the input. Spaces separate its words. A line without words is
//! skipped, and so is one whose first word begins with `#`. A list is
//!
//! ```text
//! list ..                                            any text, which is written back
//! config PAGE LIMIT FIRST NUM DEN MAX STRIPES BULK
//! hands N                                            from 1 to 64
//! e HAND STEP ARGUMENT .. [: CHANGE, CHANGE ..]      an event: behind the colon the changes before it, in order
//! answer ..
//! ..                                                 passed over
//! end
//! ```
//!
//! Numbers are decimal. Steps and changes are named and have the arguments as in `mc_core`, a chunk being two numbers, its
//! page and its index.
mod changes;
mod events;
mod input;
mod stage;
mod steps;
mod word;

pub use input::read_all;
pub use stage::Stage;
