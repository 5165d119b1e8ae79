//! Values of a cache with a deadline, in the caller's own clock.
//!
//! - An [`Expiry`] has room for the bytes of a value. [`Expiry::set_until`] stores a value with a deadline, and [`Expiry::get`] gets
//!   it where its deadline isn't reached, and else deletes it.
//! - [`Expiry::add_until`] stores where the key has no unexpired value, [`Expiry::replace_until`] where it has one, and
//!   [`Expiry::touch_until`] gives the value that the key has another deadline. Each is an [`Expiry::store_until`] of a [`StoreKind`].
//!
//! A deadline is a `u32`, and 0 is never. A value is expired from its deadline on. The crate reads no clock: each call takes the time.
//!
//! ```rust
//! fn session<R: Wait>(rt: &R, cache: &Cache, worker: &mut Worker, expiry: &mut Expiry, key: &[u8], time: u32, into: &mut Vec<u8>)
//!     -> Result<bool, CallError> {
//!     let deadline = time.saturating_add(600);
//!     let _renewed = expiry.touch_until(rt, cache, worker, key, time, deadline); // a refusal leaves the old deadline
//!     expiry.get(rt, cache, worker, key, time, into) // true: into has the value behind the old bytes
//! }
//! ```
//!
//! A caller may rely on this: a value that is got was stored with a deadline that isn't reached. A touch stores the very value that it
//! found, in its place. All workers of a cache have to store by this crate: a value's first 4 bytes are its deadline.
#![tactic(auto)]

mod deadlines;
mod expiry;
mod kinds;
mod laws;
mod looking;
mod storing;

pub use expiry::Expiry;
pub use kinds::StoreKind;
pub use laws::{deadlines_are_told_apart, worked_deadlines};
pub use storing::ExpiryError;
