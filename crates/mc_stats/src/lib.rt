//! Counts of what a worker's calls returned, as memcached's `stats` has them, and their texts; and the texts of a cache's classes.
//!
//! - A [`CountingWorker`] is a worker of `mc_cache` that counts its calls: [`CountingWorker::get`], `set`, `delete` and the others return
//!   what the worker's return.
//! - [`Counts`] has the numbers: gets that hit and missed, sets that stored, weren't met or were refused, deletes, touches.
//! - [`Counts::plus`] and [`sum_of`] add the counts of several threads.
//! - [`Counts::write_stats`] and [`Counts::write_openmetrics`] write their texts to any [`mc_io::Sink`].
//! - [`write_slabs`] writes the pages and chunks of a cache's classes, and [`write_items`] and [`write_usage`] its items.
//! - [`write_class_metrics`] writes all of them in the format OpenMetrics, and [`Counts::write_exposition`] also the counts.
//!
//! ```rust
//! fn serve<R: Wait>(rt: &R, cache: &Cache, worker: Worker, keys: &[&[u8]], into: &mut Vec<u8>) -> Result<Counts, CallError> {
//!     let mut counting = CountingWorker::new(worker);
//!     for key in keys {
//!         let _found = counting.get(rt, cache, key, into)?;
//!     }
//!     Ok(counting.counts()) // the thread that has the sum takes the counts of each
//! }
//! ```
//!
//! A caller may rely on this: each call counts just what it returned, once, and a refused key counts nothing. No number falls, and one stays
//! at 2^64 - 1 once there.
#![tactic(auto)]

mod changes;
mod class_metrics;
mod counted;
mod counts;
mod gets;
mod items;
mod laws;
mod lending;
mod openmetrics;
mod pieces;
mod slabs;
mod stats;
mod worker;

pub use class_metrics::{worked_class_metrics, write_class_metrics};
pub use counts::{Counts, sum_of};
pub use items::{worked_items, write_items, write_usage};
pub use laws::{counts_never_fall, sums_add_each_number, worked_texts};
pub use slabs::{worked_slabs, write_slabs};
pub use worker::CountingWorker;
