//! Threads that race for items, over the public calls of `mc_mover`, `mc_items` and `mc_words` alone. The tests of `test_stress` run
//! them, and those of `test_arena` use some of their calls.

mod calls;
mod driver;
mod ends;
mod holding;
mod lost;
mod replays;
mod stress;
mod words;
mod workers;

pub use calls::set_key;
pub use lost::lost_hands_cost_what_they_had;
pub use stress::what_is_kept_is_read_beside_two_movers;
pub use words::len_of;
