//! Values of a cache of up to 1 MiB, which is more than a chunk has room for.
//!
//! - A [`Large`] has room for a root. [`Large::set`] stores a value: in its root, where it fits there, and else in parts, each an item of
//!   its own, and then a root with the version of each part.
//! - [`Large::get`] gets it, where each part is there that was stored before its root. [`Large::delete`] deletes the root, and then
//!   the parts that it has versions of.
//!
//! ```rust
//! fn replaced<R: Wait>(rt: &R, cache: &Cache, worker: &mut Worker, large: &mut Large, key: &[u8], value: &[u8], into: &mut Vec<u8>)
//!     -> Result<bool, LargeCallError> {
//!     let found = large.get(rt, cache, worker, key, into)?; // true: into has the old value behind its bytes
//!     let _refused = large.set(rt, cache, worker, key, value); // up to 1,048,576 bytes
//!     Ok(found)
//! }
//! ```
//!
//! A caller may rely on this: a worker that gets a value gets the whole one that it set last, or a root that another worker stored
//! ([`own_large_values_are_whole`]). A get that misses or is refused leaves the caller's bytes. All workers of a cache have to store by this
//! crate, or under other keys. A key has 1 to 245 bytes.
#![tactic(auto)]

mod deleting;
mod errors;
mod getting;
mod keys;
mod large;
mod laws;
mod parts;
mod roots;
mod storage;

pub use errors::{LargeCallError, LargeSetError};
pub use keys::MOST_LARGE_KEY;
pub use large::Large;
pub use laws::{
    keys_are_told_apart, own_large_values_are_whole, parts_were_stored, roots_are_told_apart,
    values_are_cut_in_one_way, worked_parts,
};
pub use roots::MOST_LARGE_VALUE;
