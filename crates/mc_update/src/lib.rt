//! Changes of the values of a cache that look at the old value: counters, and bytes that are added at an end.
//!
//! - An [`Updater`] has room for the bytes of a value. [`Updater::change_value`] does a [`Change`] of a key's value.
//! - [`Updater::increment`] and [`Updater::decrement`] count, and return the number.
//! - [`Updater::append`] and [`Updater::prepend`] add bytes behind a value and before it.
//! - [`Updater::get_or_add`] gets a value, and where there is none, makes one and adds it.
//!
//! A caller may rely on this: the new value is stored in place of the very value that it was made of, so of the changes that several
//! workers do none is lost. A change stores nothing where the key has no value.
#![tactic(auto)]

mod adding;
mod change;
mod counters;
mod ends;
mod updater;

pub use adding::{AddError, Source};
pub use change::Change;
pub use updater::{ChangeError, Updater};
