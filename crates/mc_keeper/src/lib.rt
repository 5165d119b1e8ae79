//! A cache's memory for one thread.
//!
//! [`Keeper`] has pages, chunks and items as one thread needs them: no lock, no count, no header. Keys and words are numbers of
//! 64 bits, and workers are numbers from 0 to 63.
//!
//! - [`Keeper::new`] takes a class table, the chunks that a turn looks at, and the automover's mode.
//! - [`Keeper::set`], `get`, `touch` and `delete` act on a key. `hold` keeps the key's item for a worker, `held_words` lends its
//!   words, and `drop` gives it back.
//! - `reassign`, `turn`, `turns`, `window` and `set_automove` move pages, and `numbers`, `totals` and `moving` show them.
//! - [`Keeper::serve`] does a command of a script by these calls, and adds its reply as text.
//!
//! ```rust
//! fn square(cache: &mut Keeper, key: u64) -> Result<u64, Refused> {
//!     if let Ok(Some(words)) = cache.get(0, key) {
//!         if let Some(square) = words.first() {
//!             return Ok(*square);
//!         }
//!     }
//!     let square = key * key;
//!     let _stored = cache.set(0, key, &[square])?; // Yes, TooLarge or NoRoom
//!     Ok(square)
//! }
//! ```
//!
//! A caller may rely on this: a call answers what a plain machine over lists answers, and the keeper is that machine afterwards
//! (`mc_serial_spec` defines it). Where memory runs out, the keeper is at one of the call's stages. A set may evict other items.
//! Threads use `mc_items` and `mc_mover` instead. CALLING.md has the contracts.
#![tactic(auto)]

mod keeper;

pub use keeper::{Acted, HoldError, Keeper, Stop, Stored, TooManyRefs};
pub use mc_memory::Refused;
pub use mc_pages::{Moving, Numbers, Reassign, Totals};
pub use mc_serial_spec::{Counts, Ending};
pub use mc_watch::Decision;
