//! The automover's decider and the texts of the statistics, over numbers that the caller hands in.
//!
//! After memcached's slabs.c and its commands `slabs automove` and `stats slabs`. The crate has no pages and no threads.
//!
//! - [`Decider::new`] makes a decider for the classes of a table. [`Decider::feed`] takes a window: of each class its evictions
//!   so far, its pages and its free chunks. It returns a [`Decision`], from which class a page is to go to which, or none.
//! - A [`Feed`] is why numbers are refused: lists that aren't as long as the classes, or evictions that are fewer than before.
//! - [`stats_slabs`] and [`stats_general`] write their texts to any [`mc_classes::Sink`].
//!
//! ```rust
//! fn decide(alloc: Global, table: &ClassTable, windows: &[(&[u64], &[u64], &[u64])]) -> Result<Option<Decision>, NoMemory> {
//!     let mut decider = Decider::new(alloc, table)?;
//!     let mut last = None;
//!     for (evictions, pages, free) in windows {
//!         last = decider.feed(evictions, pages, free).unwrap_or(None); // a refusal leaves the decider as it was
//!     }
//!     Ok(last)
//! }
//! ```
//!
//! A caller may rely on this: the decision is that of the two rules over all windows that were fed, `feed` takes no memory, and a
//! decision resets nothing. The texts are proved byte for byte. Whether a page moves then is the caller's to ask: `mc_mover`'s
//! `reassign`, or `mc_keeper`. CALLING.md has the contracts.
#![tactic(auto)]

mod decider;
mod fed;
mod laws;
mod refusal;
mod statistics;
mod watched;

pub use decider::{Decider, Decision};
pub use laws::worked_windows;
pub use refusal::{Feed, NoMemory};
pub use statistics::{stats_general, stats_slabs};
