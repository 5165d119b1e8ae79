//! Chunks, in the lists of their classes.
pub(crate) mod clears;
pub(crate) mod copies;
pub(crate) mod dead;
pub(crate) mod head;
pub(crate) mod hints;
pub(crate) mod lists;
pub(crate) mod recovery;
pub(crate) mod sweeps;
