//! The tests, and what they have in common.
mod items;
mod words;

use std::fmt::Debug;
use std::process::Abort;

/// What was found is what was wanted. Both are printed where they differ.
fn assert_same<T: Copy + PartialEq + Debug>(rt: &impl Abort, found: T, wanted: T, what: &str) {
    assert_eq!(rt; found, wanted, "{what}");
}

/// What was found is what was wanted, for values that can't be printed.
fn assert_equal<T: PartialEq + Drop>(rt: &impl Abort, found: T, wanted: T, what: &str) {
    assert!(rt; found == wanted, "{what}");
}
