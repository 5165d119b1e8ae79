//! The pages of a slab memory and the chunks that they are cut into, as one sequential value, [`Slabs`].
//!
//! Each class has a list of its pages, a free list and a hand-out order. Pages that a class gave up wait in the pool, or come to
//! another class. The ledger records how each page came to its owner. After memcached's slabs.c; the hand-out order and the
//! ledger are own.
//!
//! - [`Slabs::new`] makes a memory whose pages are all untouched. [`Slabs::grow`] gives a class a page, and [`Slabs::cut`] cuts
//!   its chunks, one a call.
//! - [`Slabs::pop`] hands out a free chunk, [`Slabs::back`] puts one back, and [`Slabs::touch`] makes one the youngest.
//! - [`Slabs::begin_move`], `passed`, `wrap`, `clear`, `replace` and `finish_move` are the steps of a page's move.
//! - [`Slabs::ledger`], `base`, `trim`, `numbers` and `totals` are the records. [`SharedSlabs`] is a memory in a box, for a lock.
//!
//! ```rust
//! fn first_chunk(slabs: &mut Slabs, class: ClassId) -> Result<Option<ChunkId>, Grow> {
//!     let page = slabs.grow(class)?;
//!     for index in 0..slabs.per_page(class) {
//!         slabs.cut(page, index);
//!     }
//!     Ok(slabs.pop(class))
//! }
//! ```
//!
//! A caller may rely on this: each page is in one place ([`no_page_is_lost`]), and a refused call changes nothing. The limit
//! bounds the granted pages, apart from one page of grace for a class. Of `Slabs` only `new`, `grow` and `begin_move` take
//! memory. The crate knows nothing of keys, items or holders: `mc_keeper` and `mc_words` do. CALLING.md has the contracts.
#![tactic(auto)]

mod ages;
mod class;
mod eviction;
mod ids;
mod laws;
mod ledger;
mod moves;
mod numbers;
mod past;
mod recorded;
mod rows;
mod shared;
mod slabs;
mod writes;

pub use eviction::EVICTION_TRIES;
pub use ids::{ChunkId, Moving};
pub use laws::{
    ledger_goes_on, no_page_is_lost, one_before_another, unaccounted_memories, worked_bases,
};
pub use ledger::{BasePage, Entry, Owner};
pub use moves::{Found, Reassign};
pub use numbers::{Numbers, Totals};
pub use rows::{ListName, Rows};
pub use shared::SharedSlabs;
pub use slabs::{Grow, NoMemory, Slabs};
