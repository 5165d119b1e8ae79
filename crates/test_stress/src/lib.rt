//! The tests of what `testlib_threads` and `testlib_threads` have. Rattle's own compiler proves the tests of a crate once more before it builds
//! them, so they are apart from all that they run, which is a library and proved once; both builds run under many schedules.
#![tactic(auto)]

#[cfg(test)]
mod tests;
