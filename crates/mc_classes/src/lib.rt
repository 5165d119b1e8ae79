//! The configuration of a slab memory and the table of its size classes, after memcached's slabs.c.
//!
//! - A [`Config`] has the bytes of a page and the limit, and of the classes the first size, the factor and the greatest size. Its
//!   `stripes` and `bulk` are for the crates above.
//! - [`ClassTable::build`] tests a configuration and computes its table. A [`ConfigError`] is the first test that fails, or want
//!   of memory.
//! - [`ClassTable::class_for`] returns the lowest class with room for n bytes. `size`, `per_page`, `count`, `page`, `limit`,
//!   `pages` and `arena_pages` return the table's numbers.
//! - The writers of `mc_io`, [`Sink`], [`Fault`] and [`Failures`], are passed on.
//!
//! ```rust
//! fn chunk_size(alloc: Global, config: &Config, bytes: u64) -> Result<Option<u64>, ConfigError> {
//!     let table = ClassTable::build(alloc, config)?;
//!     match table.class_for(bytes) {
//!         Some(class) => Ok(Some(table.size(class))),
//!         None => Ok(None),
//!     }
//! }
//! ```
//!
//! A caller may rely on the bounds of each table ([`sound_table`]). It has 1 to 63 classes, numbered from 1, and none is smaller
//! than a lower one. A page has at most 256 chunks, and the limit has room for 1 to 64 pages. A configuration has at most one
//! table ([`one_table`]). Pages and chunks are `mc_pages`'s, and the share of a chunk that its item leaves unused is
//! `mc_waste`'s.
#![tactic(auto)]

mod config;
mod laws;
mod limits;
mod table;

pub use config::{Config, ConfigError};
pub use laws::{one_table, sound_table, worked_limits};
pub use limits::{
    LEAST_PAGE_BYTES, MOST_BULK, MOST_CLASSES, MOST_HANDS, MOST_PAGE_BYTES, MOST_PAGE_CHUNKS,
    MOST_PAGES, MOST_REFS, MOST_STRIPES, MOST_WORKERS,
};
pub use mc_io::{Failures, Fault, Sink};
pub use table::{ClassId, ClassTable, PageId};
