//! Items of keys: made, linked, referred to, and taken away.
pub(crate) mod again;
pub(crate) mod copy_links;
pub(crate) mod fresh;
pub(crate) mod links;
pub(crate) mod originals;
pub(crate) mod references;
pub(crate) mod refs;
pub(crate) mod release;
pub(crate) mod removal;
pub(crate) mod room;
pub(crate) mod unlinks;
pub(crate) mod words;
