//! What the threads of a run do: the lines of a script by hands of the arena, and the mover's lines beside them.
//!
//! - [`serve_script`] does a whole script: it makes an arena, runs a thread for each worker and the mover's lines in its own, and
//!   returns the text of all replies.
//! - [`run_workers`] is that over an arena and hands of the caller's, [`serve_lines`] does all lines of one worker, and
//!   [`move_lines`] those of the mover.
//! - [`serve_line`] does one line of a worker and returns its [`Reply`]; [`serve_mover_line`] does one of the mover, by a
//!   [`Mover`], and returns its [`MoverReply`]. [`push_reply`] and [`push_mover_reply`] add them to a text.
//! - A [`Gate`] decides when each thread goes on: it is asked before and behind each line. [`Free`] stops nobody.
//! - [`Ended`] is why a thread ended early: memory, a thread that couldn't be started, or the gate or the turns of a run.
//!
//! ```rust
//! fn get_line<R: Wait>(rt: &R, alloc: Global, arena: &Arena, hand: &mut Hand, kept: &mut Vec<Ref>, text: &mut Vec<u8>)
//!     -> Result<(), Refused> {
//!     let reply = serve_line(rt, alloc, arena, hand, kept, Command::Get { worker: 1, key: 5 })?;
//!     push_reply(text, 5, &reply)
//! }
//! ```
//!
//! A caller may rely on this: each reply states what the hand did, by the definitions of `mc_items` and `mc_mover`. Each line of
//! a script is done once, in its worker's order. Which of two workers' lines comes first is open, unless the gate decides it.
//! Streams and the script's bytes are `mc_driver`'s.
#![tactic(auto)]

mod ended;
mod gate;
mod keeping;
mod line;
mod lines;
mod mover;
pub mod mover_laws;
mod mover_line;
mod mover_reply;
mod moves;
mod reply;
mod script;
mod setting;
mod shared;
mod starting;
mod statistics;
mod threads;
mod turns;
mod window;
pub mod worker_laws;

pub use ended::Ended;
pub use gate::{Free, Gate, Pass, Point};
pub use line::serve_line;
pub use lines::serve_lines;
pub use mover::Mover;
pub use mover_line::serve_mover_line;
pub use mover_reply::{Acted, MoverReply, push_mover_reply};
pub use moves::move_lines;
pub use reply::{Reply, push_reply};
pub use script::serve_script;
pub use shared::Shared;
pub use starting::Unstarted;
pub use threads::{Joined, Served, first_hand, run_workers};
