//! A cache of bytes that threads share: many arenas side by side, the shards, and items whose words are packed bytes.
//!
//! - [`Cache::new`] tests a [`CacheConfig`] and makes the cache, its workers, and its tender. [`Cache::bytes`] returns the bytes
//!   that the cache takes then, and [`CacheConfig::for_bytes`] a configuration that takes at most so many. A [`HashKey`] has the
//!   two numbers with which keys are hashed.
//! - A thread has the cache by `&`, and a [`Worker`] of its own by `&mut`. [`Worker::set`], `get`, `peek`, `try_get`, `contains`,
//!   `touch` and `delete` are the calls on a key of 1 to 250 bytes. [`Worker::delete_version`] deletes only the value that a caller got.
//! - [`Worker::clear`] deletes every key of the cache, and [`Worker::len`] returns how many items there are. [`Worker::class_items`]
//!   returns how many each class has, and of how many bytes.
//! - The [`Tender`] has a thread of its own. [`Tender::tend`], called about once a second, moves pages between classes on each
//!   shard. [`Tender::stats`] returns sums over all shards, and [`Tender::set_automove`] sets the mode.
//! - A caller that can't wait makes the cache by [`Cache::new_within`], and calls `set_within`, `tend_within` and their like. These
//!   try for each lock n times.
//!
//! ```rust
//! fn remember<R: Wait>(rt: &R, cache: &Cache, worker: &mut Worker, key: &[u8], value: &[u8], into: &mut Vec<u8>)
//!     -> Result<bool, CallError> {
//!     if worker.get(rt, cache, key, into)? {
//!         return Ok(true); // into has the value behind the old bytes
//!     }
//!     let _stored = worker.set(rt, cache, key, value); // a refusal leaves the value to the next call
//!     Ok(false)
//! }
//! ```
//!
//! A caller may rely on this: a get gives a value only where the key's item has it, and some worker stored it; else the bytes
//! stay. A set may evict other items, so each get may miss. Two keys with one hash take each other's place. What threads do, and
//! when `tend` is called, is the caller's: `crates/example_first` is a program. CALLING.md has the contracts.
#![tactic(auto)]

mod bytes;
mod cache;
mod chunks;
mod class_items;
mod clearing;
mod clearing_within;
mod conditional;
mod conditional_within;
mod counting;
mod counting_within;
mod deleting_version;
mod hashing;
mod laws;
mod listing;
mod listing_within;
mod opening;
mod opening_within;
mod place;
mod resting;
mod sip;
mod sizing;
mod stats;
mod tended;
mod tending;
mod tending_within;
mod versions;
mod window;
mod window_within;
mod working;
mod working_within;

pub use bytes::worked_bytes;
pub use cache::{Cache, Worker};
pub use chunks::{ClassChunks, worked_chunks};
pub use class_items::worked_shard_items;
pub use hashing::HashKey;
pub use laws::{conditions_are_met, own_values_are_newest};
pub use mc_shard::{ClassItems, ClearWithinError, Deletion, Outcome, When};
pub use opening::{CacheConfig, NewError};
pub use opening_within::NewWithinError;
pub use sizing::{SizingError, worked_sizes};
pub use stats::{CacheStats, ClassStats, worked_stats};
pub use tended::{Tended, worked_tended};
pub use tending::Tender;
pub use tending_within::TendedWithin;
pub use window_within::Window;
pub use working::{CallError, SetError, TryGetError};
pub use working_within::{SetWithinError, WithinError};
