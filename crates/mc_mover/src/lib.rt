//! The mover: pages go from class to class while readers go on.
//!
//! Each call takes the arena that threads share, by `&`, and the hand with which a thread acts, by `&mut`, which has no lock. Any
//! hand may call: there is one move at a time.
//!
//! - [`reassign`] begins a move of a page to a class, or to the pool, and [`set_mode`] sets the automover's mode.
//! - [`turn`] looks at up to `bulk` chunks of the page, and clears those that nobody holds. It takes their items to other chunks
//!   of their class, or evicts them. [`try_turn`] does so without waiting. A [`Turn`] has [`Counts`], and is `Finished` once the
//!   page has come to its destination.
//! - [`survey`] reads the numbers of all classes, a [`Survey`].
//! - [`trim`], [`trim_ledger`] and [`forget`] take recorded calls and entries out of memory.
//! - [`turn_within`], [`reassign_within`], [`set_mode_within`], [`survey_within`], [`trim_within`], [`trim_ledger_within`] and
//!   [`forget_within`] do the same without a wait: the hand tries for each lock n times.
//!
//! ```rust
//! fn move_page<R: Wait>(rt: &R, arena: &Arena, hand: &mut Hand) -> Option<Turn> {
//!     set(rt, arena, hand, 1, &[1]).ok()?; // of mc_items
//!     set(rt, arena, hand, 2, &[2]).ok()?;
//!     delete(rt, arena, hand, 2).ok()?;
//!     reassign(rt, arena, hand, Some(1), 0).ok()?;
//!     turn(rt, arena, hand).ok()
//! }
//! ```
//!
//! A caller may rely on this: a chunk is cleared only where nobody holds it, and a held item is neither moved nor evicted. A
//! rescue keeps key, stamp and words ([`laws`]). No clause states that a move ever ends: held items hold it up. When pages move
//! is decided by `mc_watch`'s decider and whoever calls it. CALLING.md has the contracts.
#![tactic(auto)]

mod copying;
mod counts;
mod ending;
pub mod laws;
mod linked;
mod numbers;
mod reassigning;
mod recording;
mod recording_within;
mod saving;
mod sections;
mod surveying;
mod sweep;
mod turning;
mod visiting;
mod within;

pub use counts::{Counts, TryTurn, Turn};
pub use numbers::Survey;
pub use reassigning::{reassign, set_mode};
pub use recording::{forget, trim, trim_ledger};
pub use recording_within::{TrimWithin, forget_within, trim_ledger_within, trim_within};
pub use surveying::survey;
pub use turning::{try_turn, turn};
pub use within::{SurveyWithin, reassign_within, set_mode_within, survey_within, turn_within};
