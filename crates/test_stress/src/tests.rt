//! The tests, one for each of what the two libraries have.
mod races;
mod threads;
