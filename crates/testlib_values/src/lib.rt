//! Values that tests and callers of many crates share: a configuration, numbers that look drawn, want of memory, and lines of what a test does.
#![tactic(auto)]

mod config;
mod drawn;
mod lines;
mod memory;

pub use config::FOUR_CLASSES;
pub use drawn::draw;
pub use lines::{print_call, print_done, print_ignored, print_refused};
pub use memory::too_much;
