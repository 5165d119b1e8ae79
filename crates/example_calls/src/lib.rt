//! Callers of the arena, of its items and of a cache of bytes, proved from the contracts of their calls alone: how a cache and a server
//! would use them.
#![tactic(auto)]

mod bounded;
pub mod cache;
mod chained;
mod closed;
mod first;
mod held;
mod moves_within;
mod own;
mod roomy;
mod trimmed;
mod within;

pub use bounded::{granted_within, recall_and_set, set_at_second_try, stamp_within};
pub use chained::call_twice;
pub use closed::set_and_close;
pub use first::{first_header, header_from, pop_worn, worn_out};
pub use held::{read_after_all, read_after_trims};
pub use moves_within::{begin_and_turn, mode_within, set_mode_untried, turn_and_count};
pub use own::{RefusedCall, set_and_read};
pub use roomy::{make_room_and_set, make_room_and_set_within};
pub use trimmed::{entries_behind_a_trim, join_behind_a_trim, page_behind_a_trim};
pub use within::{delete_at_second_try, read_within, touch_at_second_try};
