//! The tests, and what they have in common.
mod counted;
mod disjoint;
mod keeper;
mod meeting;
mod mended;
mod play;
mod refused;
mod spent;
mod trimmed;
mod truncated;
