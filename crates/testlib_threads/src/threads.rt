//! Threads that store, get and read items, and pages that move between classes beside them, over the public calls of `mc_mover`, `mc_items`
//! and `mc_words` alone. The tests of `test_stress` run them.

mod driver;
mod gets;
mod items;
mod pages;
mod workers;

pub use gets::each_get_is_noted;
pub use items::no_read_shows_another_item;
pub use pages::{
    readers_keep_their_words_beside_a_mover, the_last_move_ends_once_nobody_holds_an_item,
};
