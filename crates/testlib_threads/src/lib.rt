//! Threads that store, read and move items, and threads that race for them, over the public calls of `mc_mover`, `mc_items` and `mc_words`
//! alone. The tests of `test_stress` run them.
#![tactic(auto)]

mod races;
mod threads;

pub use races::{
    len_of, lost_hands_cost_what_they_had, set_key, what_is_kept_is_read_beside_two_movers,
};
pub use threads::{
    each_get_is_noted, no_read_shows_another_item, readers_keep_their_words_beside_a_mover,
    the_last_move_ends_once_nobody_holds_an_item,
};
