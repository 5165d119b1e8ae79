//! Items in shared memory, as a cache knows them: by their keys.
//!
//! Each call takes the arena that threads share, by `&`, and the hand with which a thread acts, by `&mut`. The hand has no lock,
//! fills no chunk and holds at most 255 chunks, and each call leaves it so.
//!
//! - [`set`] stores an item of n words under a key, and returns its stamp. [`set_within`] gives up after n tries for each lock.
//!   [`compare_and_set`] stores only where the key has what is [`Expected`].
//! - [`get`] returns a [`Ref`] to the key's item, and [`try_get`] does so without waiting. [`read`] and [`word`] read the item's
//!   words, [`word_from`] one of several, and [`release`] gives the reference back.
//! - [`hint`] makes a hint of a reference, and [`again`] gets the item by the hint with no lock, if it is there still.
//! - [`make_room`] makes room in a class without a sweep: it evicts some of its oldest items, but those that [`Marks`] spare.
//! - [`touch`] and [`bump`] make an item the one of its class that is evicted last, and [`delete`] deletes a key.
//!   [`compare_and_delete`] deletes a key's item only where it has a given stamp.
//! - [`clear_stripe`] deletes every key of a stripe, [`count_stripe`] counts a stripe's keys, and [`keys_of_stripe`] lists them.
//! - [`get_within`], [`touch_within`], [`bump_within`], [`delete_within`], [`compare_and_delete_within`], [`set_hinted_within`],
//!   [`make_room_within`], [`clear_stripe_within`], [`count_stripe_within`] and [`keys_of_stripe_within`] do so and give up after n
//!   tries for each lock.
//!
//! ```rust
//! fn read_own<R: Wait>(rt: &R, alloc: Global, arena: &Arena, hand: &mut Hand) -> Option<Vec<u64>> {
//!     set(rt, arena, hand, 3, &[7, 8, 9]).ok()?;
//!     let Ok(Some(item)) = get(rt, arena, hand, 3) else {
//!         return None;
//!     };
//!     let found = read(alloc, arena, hand, &item);
//!     release(arena, hand, item);
//!     found.ok()
//! }
//! ```
//!
//! A caller may rely on this: a reference holds its item, whose words stay as they are until the release, whoever stores,
//! deletes, evicts or moves meanwhile ([`laws`]). A set may evict another key's item, so a get may find nothing. Pages are moved
//! by `mc_mover`, and bytes packed by `mc_cache`. CALLING.md has the contracts.
#![tactic(auto)]

mod bumping;
mod clearing;
mod comparing;
mod deleting;
mod deleting_where;
mod evicting;
mod filling;
mod getting;
mod hinting;
pub mod laws;
mod listing;
mod making_room;
mod marks;
mod reading;
mod refs;
mod setting;
mod storing;
mod stripes;
mod supplying;
mod touching;
mod visiting;
mod within;

pub use bumping::bump;
pub use clearing::clear_stripe;
pub use comparing::{CompareError, Expected, compare_and_set};
pub use deleting::delete;
pub use deleting_where::{CompareDeleteError, compare_and_delete};
pub use evicting::Supply;
pub use getting::{GetError, TryGetError, get, try_get};
pub use hinting::{again, hint};
pub use listing::{count_stripe, keys_of_stripe};
pub use making_room::{Room, make_room};
pub use marks::{Marks, NoMarks};
pub use reading::{first_place, read, release, word, word_from};
pub use refs::Ref;
pub use setting::{NewItem, SetError, set, set_hinted};
pub use touching::touch;
pub use visiting::{ROOM_ITEMS, ROOM_TRIES, Visit};
pub use within::bumping::bump_within;
pub use within::clearing::clear_stripe_within;
pub use within::comparing::{CompareWithinError, compare_and_set_within};
pub use within::deleting::delete_within;
pub use within::deleting_where::{CompareDeleteWithinError, compare_and_delete_within};
pub use within::error::WithinError;
pub use within::getting::get_within;
pub use within::listing::{count_stripe_within, keys_of_stripe_within};
pub use within::making_room::make_room_within;
pub use within::touching::touch_within;
pub use within::{SetWithinError, set_hinted_within, set_within};
