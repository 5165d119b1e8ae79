//! Items of bytes in one arena: a key and a value, packed into the words of an item, under a hash of the key.
//!
//! Each call takes the arena and a hand of it that holds nothing, and leaves the hand so: no reference reaches the caller. A
//! [`Label`] is a key with its hash.
//!
//! - [`set`] packs key and value and stores them under the hash, in place of what was there.
//! - [`set_if`] stores only [`When`] the key has no value, has one, or has a version of it.
//! - [`get`] puts the key's value behind bytes that are there, and marks its item as got. [`peek`] marks nothing. [`try_get`] doesn't
//!   wait. [`get_with_version`] returns the version, too. [`contains`] only looks.
//! - [`touch`] makes the key's item the newest of its class, and [`delete`] deletes the key. [`delete_version`] deletes only the version
//!   that the caller got.
//! - [`set_within`], [`set_if_within`], [`get_within`], [`contains_within`], [`touch_within`], [`delete_within`] and
//!   [`delete_version_within`] try for each lock n times, and don't wait.
//! - [`clear`] deletes every key, stripe by stripe, and [`count`] returns how many items there are. [`keys`] lists the keys of a stripe.
//!   [`clear_within`], [`count_within`] and [`keys_within`] don't wait. [`items_of_stripe`] and [`items_of_shard`] count items and their
//!   bytes by class.
//! - [`max_value`] returns the most bytes that a value may have beside a key. A set of a longer one is refused before it is packed.
//! - A [`HintTable`] has notes of where items may be. A call that finds one gets the item with no lock.
//!
//! ```rust
//! fn store_and_get<R: Wait>(rt: &R, arena: &Arena, hints: &HintTable, hand: &mut Hand, at: Label, into: &mut Vec<u8>,
//!     words: &mut Vec<u64>) -> Result<bool, Refused> {
//!     let _stored = set(rt, arena, hand, at, b"value", words); // words: room that is used again
//!     get(rt, arena, hints, hand, at, into)
//! }
//! ```
//!
//! A caller may rely on this: a value comes only from words that are the packing of this key and that value, and that some hand
//! stored. An item of another key under the same hash is none to [`get`], [`peek`], [`try_get`], [`contains`], [`touch`] and [`delete`],
//! and a [`set`] takes its place. Hashes, shards and the lengths of keys are `mc_cache`'s.
#![tactic(auto)]

mod class_items;
mod clearing;
mod comparing;
mod conditions;
mod counting;
mod deleting;
mod deleting_version;
mod gets;
mod hinting;
mod hints;
mod label;
mod listing;
mod listing_within;
mod looking;
mod lookup;
mod reading;
mod setting;
mod setting_within;
mod sizes;
mod stripe_items;
mod try_gets;
mod versions;
mod within;

pub use class_items::{ClassItems, ItemSize, rows_are_sums, worked_class_items};
pub use clearing::{ClearWithinError, clear, clear_within};
pub use conditions::{Outcome, When, set_if, set_if_within};
pub use counting::{count, count_within};
pub use deleting::delete;
pub use deleting_version::{Deletion, delete_version, delete_version_within};
pub use gets::{get, peek, touch};
pub use hints::HintTable;
pub use label::Label;
pub use listing::keys;
pub use listing_within::keys_within;
pub use looking::Seen;
pub use setting::set;
pub use setting_within::set_within;
pub use sizes::max_value;
pub use stripe_items::{items_of_shard, items_of_stripe};
pub use try_gets::{TryGetError, contains, try_get};
pub use versions::{get_with_version, get_with_version_within};
pub use within::{contains_within, delete_within, get_within, touch_within};
