//! One item lock's part of the items, as a sequential value, [`Stripe`].
//!
//! A stripe has an index, from each of its keys to the chunk and the stamp of the key's item. It also has the history of all
//! calls on its keys. After the item locks of memcached's thread.c and the hash table of assoc.c; stamps and the history are own.
//!
//! - [`Stripe::new`] has no keys. [`Stripe::reserve`] makes room for a call and an entry, and [`Stripe::reserve_call`] for a
//!   call.
//! - [`Stripe::find`] looks a key up. [`Stripe::link`], `unlink`, `got`, `evict` and `rescue` change the index and record one
//!   call each. [`Stripe::lift`] and `lift_found` put an entry aside until `rescue` or `link` brings its key back.
//! - [`Stripe::key_count`], `first_key` and `keys_into` are for a walk over the keys of the index.
//! - [`Stripe::history`] lends the recorded calls. [`Stripe::trim`] and [`Stripe::forget`] take calls out of memory, and
//!   [`Stripe::base`] lends the stamps that they left.
//!
//! ```rust
//! fn store(stripe: &mut Stripe, hand: HandId, key: Key, chunk: ChunkId, stamp: Stamp) -> Result<bool, NoMemory> {
//!     stripe.reserve()?;
//!     if stripe.find(key).is_some() || stripe.aside().is_some() {
//!         return Ok(false);
//!     }
//!     stripe.link(hand, key, chunk, stamp);
//!     Ok(true)
//! }
//! ```
//!
//! A caller may rely on a legal history: each reply is right for the calls before it, and all of them together make the index
//! ([`one_replay`], [`replay_is_exact`]). Calls that record take no memory, so only `reserve`, `reserve_call`, `trim` and `keys_into`
//! can fail. The crate knows nothing of words, headers and threads: `mc_core` has the model of them, and `mc_words` the memory.
#![tactic(auto)]

mod history;
mod index;
mod laws;
mod past;
mod places;
mod recorded;
mod refusal;
mod stripe;

pub use history::{Call, HandId, Key, Stamp};
pub use laws::{one_replay, records_go_on, replay_is_exact, worked_histories, worked_records};
pub use refusal::{NoMemory, Trim};
pub use stripe::Stripe;
