//! Want of memory as evidence.
//!
//! Whoever answers that memory ran out shows a [`Refused`]. Only the calls here make one, and each does so only where the
//! allocator refused what that very call asked for. So an invented want of memory doesn't compile. A `Refused` can't be copied,
//! so each reports a refusal of its own.
//!
//! - [`with_capacity`], [`from_slice`] and [`filled`] make vectors. [`reserve`], [`push`], [`insert`], [`resize`] and
//!   [`extend_from_slice`] let them grow.
//! - [`push_str`] and [`push_char`] do this for texts, and [`reserve_entries`] for hash maps.
//! - [`boxed`] makes a box, and [`table`] the table of atomic words of an arena.
//!
//! ```rust
//! fn twice(alloc: Global, words: &[u64]) -> Result<Vec<u64>, Refused> {
//!     let mut all = from_slice(alloc, words)?;
//!     extend_from_slice(&mut all, words)?;
//!     Ok(all)
//! }
//! ```
//!
//! A caller may rely on this: a refused call keeps what was there, and no call takes room away. Where a vector, a text or a map
//! has room, the call on it succeeds, but for `push_char`. What is trusted is this crate's text: no clause can state that an
//! allocator refused.
#![tactic(auto)]

mod maps;
mod owned;
mod refused;
mod tables;
mod texts;
mod vectors;

pub use maps::reserve_entries;
pub use owned::boxed;
pub use refused::Refused;
pub use tables::{Made, table};
pub use texts::{push_char, push_str};
pub use vectors::{
    extend_from_slice, filled, from_slice, insert, push, reserve, resize, with_capacity,
};
