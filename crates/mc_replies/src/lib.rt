//! The texts of replies: the lines of a run, put together in memory, and a sink in memory for statistics.
//!
//! - [`push_answer`], [`push_key_line`] and [`push_words_line`] add the reply of a line on a key to a text.
//! - [`push_turn_line`] and [`push_window_line`] add the reply of a line of the mover.
//! - A [`TextSink`] takes a text out of its place, as a `Sink` for whatever writes statistics, and puts it back.
//!
//! ```rust
//! fn deleted(text: &mut Vec<u8>, key: u64) -> Result<(), Refused> {
//!     push_key_line(text, b"DELETED", key)
//! }
//! ```
//!
//! A caller may rely on this: a line that is added is exactly the line of the plain machine, and where memory is refused the text
//! still begins with all that was there. `mc_keeper` writes the replies of a serial run with these, and `mc_workers` those of a
//! run by threads.
#![tactic(auto)]

mod text;
mod text_sink;

pub use text::{push_answer, push_key_line, push_turn_line, push_window_line, push_words_line};
pub use text_sink::TextSink;
