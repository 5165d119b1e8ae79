//! What tests on hands share: arenas that are opened, calls of hands that may make any, the mover's too, words of items, lists of calls, threads, and sums over a closed arena. A
//! hand of these contracts is one of the arena's, and may make any call; so is it behind each call.
#![tactic(auto)]

mod accounts;
mod checks;
mod drops;
mod getters;
mod hands;
mod hints;
mod items;
mod moves;
mod own;
mod stats;
mod steps;
mod threads;
mod turns;
mod words;

pub use accounts::{NO_SUMS, Pages, Sums, all_sums, class_sums, count_keys, count_pages, head};
pub use checks::check;
pub use drops::{drop_arena, drop_state, drop_two};
pub use getters::{GETTERS, Getter, get_by, is_there};
pub use hands::{Pair, Two, next_hand, one_of, opened, opened_two, pair_of, three_of};
pub use hints::{follow, hint_of};
pub use items::{delete_key, get_key, has_chunk, header, store_all, touch_key};
pub use moves::{set_mode_by, turn_by};
pub use own::{are_own, is_own, own_words, release_own, store_own};
pub use stats::{Chunks, Stats, stats_of};
pub use steps::{Played, Step, StepError, play_all, run};
pub use testlib_values::FOUR_CLASSES;
pub use threads::{Job, Worked, work_four, work_three};
pub use turns::{NO_TURNS, Turns};
pub use words::{are_from, words_from};
