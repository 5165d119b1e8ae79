//! Callers of a cache of bytes: how a server would use it.

mod chained;
mod classed;
mod classes;
mod counted;
mod exchanged;
mod fitted;
mod leased;
mod lengthened;
mod newest;
mod opened;
mod remembered;
mod renewed;
mod replaced;
mod resting;
mod shared;
mod stocked;
mod taken;
mod tended;
mod unused;
mod visited;
mod walked;
mod walked_within;
mod watched;
mod whole;

pub use chained::call_twice;
pub use classed::items_of_class;
pub use classes::{
    is_half_used, write_class_exposition, write_class_texts, write_summed_exposition,
};
pub use counted::get_both;
pub use exchanged::exchange;
pub use fitted::store_begin;
pub use leased::{renew_lease, take_lease};
pub use lengthened::add_at_both_ends;
pub use newest::{RefusedStep, set_twice_and_get};
pub use opened::{OpenError, Opened, open_within};
pub use remembered::{Answer, remember};
pub use renewed::renew_and_get;
pub use replaced::replace_value;
pub use resting::Client;
pub use shared::share;
pub use stocked::take_one;
pub use taken::delete_what_was_got;
pub use tended::tend_whole;
pub use unused::get_from_new;
pub use visited::count_visit;
pub use walked::{clear_and_count, keys_of_shard};
pub use walked_within::{clear_at_second_try, keys_at_second_try};
pub use watched::tend_and_tell;
pub use whole::{RefusedWhole, set_and_get_whole};
