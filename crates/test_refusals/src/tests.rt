//! The tests, and what they have in common.
mod calls;
mod evicting;
mod headers;
mod holding;
mod keys;
mod left;
mod listed;
mod lists;
mod looking;
mod made;
mod opening;
mod pages;
mod planted;
mod rows;
mod snapshot;
mod steps;
mod stripes;
mod told;
mod trimmed;
mod trims;

use std::fmt::Debug;
use std::process::Abort;

/// What was found is what was wanted. Both are printed where they differ.
fn assert_same<T: Copy + PartialEq + Debug>(rt: &impl Abort, found: T, wanted: T, what: &str) {
    assert_eq!(rt; found, wanted, "{what}");
}
