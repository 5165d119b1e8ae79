//! What follows of the plain machine alone: laws over every run, and worked examples.
//!
//! The machine is `mc_serial_spec`'s definition, and `run_serial` of `mc_driver` writes what it replies. So a law of its replies
//! holds of every text that such a run has written.
#![tactic(auto)]

mod laws;

pub use laws::{
    dropped_were_held, granted_bytes_stay, held_items_stay, keys_have_one_answer,
    machines_are_accounted, replies_are_whole, seen_items_stay, statistics_add_up,
    values_were_stored, worked_examples,
};
