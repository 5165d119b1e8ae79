//! What a map of a slab memory shows: who owns each page, what each class has, how pages changed hands, and where a move hangs.
//!
//! - [`read_script`] reads a [`Script`]: its commands, and a [`Mark`] for each line `# map`.
//! - A [`Player`] does commands on a keeper, [`Player::play`], and keeps books of what the keeper doesn't show: the ledger, the
//!   owners, and who holds which item.
//! - [`Player::map`] makes the [`Map`] of that moment, with a [`ClassLine`] for each class that has pages or evictions, and a
//!   [`Hang`]: what holds a move up.
//! - [`owners_after`] makes the owners that a ledger's entries lead to, and [`columns`] those after each entry.
//!
//! ```rust
//! fn map_at_end(alloc: Global, run: &Run, script: &Script) -> Option<Map> {
//!     let mut player = Player::new(alloc, run).ok()?;
//!     for command in &script.commands {
//!         player.play(*command).ok()?;
//!     }
//!     player.map(run, script.commands.as_slice()).ok()
//! }
//! ```
//!
//! A caller may rely on this: after each command the keeper is the plain machine of `mc_serial_spec`, and a map is made only where
//! the books agree with the keeper's numbers; else [`MapError::Books`] is returned. Texts and charts are `mc_picture`'s, and the
//! program is `mcmap`.
#![tactic(auto)]

mod agree;
mod books;
mod glance;
mod hang;
mod items;
mod kept;
mod map;
mod player;
mod replay;
mod script;

pub use hang::{Blocker, Hang};
pub use kept::ClassLine;
pub use map::{Map, MapError};
pub use mc_classes::{ClassId, ClassTable, Config, ConfigError, PageId};
pub use mc_keeper::{Moving, Refused, Stop, Totals};
pub use mc_pages::{Entry, Owner};
pub use mc_script::Command;
pub use player::Player;
pub use replay::{Misfit, columns, owners_after};
pub use script::{Mark, Script, ScriptError, read_script};
