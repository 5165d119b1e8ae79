//! The arena that threads share, as a model that runs: its state, and the events that change it.
//!
//! No thread runs here. `mc_words` proves that the steps of running threads are events of this model.
//!
//! - An [`Event`] is one operation on one word, by one hand. Its [`Step`] is the operation. Its [`Change`]s come before the step,
//!   and change values behind the locks that the hand has.
//! - [`replay`] plays events from the beginning of an arena. It returns the [`State`] at the end, or a [`Stop`]: the place of the
//!   first event that isn't allowed, or want of memory.
//! - [`State::head`], `slabs` and `stripe` show the state: a [`Head`] is a chunk's header, and its [`Tag`] the chunk's state.
//! - [`Holding`], [`Look`] and [`Ids`] are a hand's part of the state: what it holds, what it saw under the slabs lock, and who
//!   it is.
//! - [`laws`] has the theorems. [`laws::the_law_is_kept`] has them all: each allowed event keeps the law, for 1 to 64 hands.
//!
//! ```rust
//! fn header_after(alloc: Global, config: &Config, events: &[Event], chunk: ChunkId) -> Result<Head, Stop> {
//!     let state = replay(alloc, config, 2, events)?;
//!     Ok(state.head(chunk))
//! }
//! ```
//!
//! A caller of the laws may rely on this: every moment of a run is lawful ([`laws::runs_are_lawful`]). While a hand keeps a
//! holding, its chunk is neither handed out, cleared nor cut anew ([`laws::stretches_are_kept`]). Atomic words and threads are
//! `mc_words`'s, and calls on keys `mc_items`'s.
#![tactic(auto)]

mod event;
mod head;
mod holding;
mod ids;
pub mod laws;
mod limits;
mod look;
mod run;
mod series;
mod state;
mod stop;
mod words;

pub use event::{Change, Event, Step, StripeChange};
pub use head::{Head, Tag};
pub use holding::{Holding, Kind, Purpose};
pub use ids::Ids;
pub use limits::MOST_HOLDINGS;
pub use look::Look;
pub use run::replay;
pub use series::Series;
pub use state::{State, free_of, order_of};
pub use stop::Stop;
