//! What the keeper is made of: items by place, who holds which chunk, counts of the dead, and the lines of its replies.
//!
//! - An [`ItemTable`] has an [`Item`] or none in each chunk's place. [`NewWords`] are the words of an item that comes: a slice to
//!   copy, or a base and a count.
//! - A [`KeyIndex`] leads each key to the chunk of its item.
//! - [`Holds`] has the chunks that each of 64 workers holds, at most 255 each.
//! - [`DeadCounts`] counts each class's chunks that no key leads to and nobody holds, and [`LastDead`] names one of each class.
//! - [`push_key_line`], [`push_words_line`], [`push_turn_line`], [`push_window_line`] and [`push_answer`] add a line to a text. A
//!   [`TextSink`] is a sink over a vector, which keeps the evidence of a refusal.
//!
//! ```rust
//! fn store(items: &mut ItemTable, index: &mut KeyIndex, chunk: ChunkId, key: u64, words: &[u64]) -> Result<(), Refused> {
//!     items.store(chunk, key, NewWords::Copied(words))?;
//!     index.insert(key, chunk)?;
//!     Ok(())
//! }
//! ```
//!
//! A caller may rely on each part alone: it is seen as a list, a map or a count. That the parts agree with one another, and with
//! the pages, is kept by `mc_keeper`.
#![tactic(auto)]

mod dead;
mod hold_counts;
mod holds;
mod item;
mod key_index;
mod place;
mod table;

pub use dead::{DeadCounts, LastDead, class_of, count_unheld};
pub use holds::Holds;
pub use item::{Item, NewWords};
pub use key_index::KeyIndex;
pub use table::ItemTable;
