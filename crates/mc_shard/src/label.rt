//! A key with its hash, by which its item is found.

/// A key, and the hash under which its item is stored.
#[derive(Clone, Copy)]
pub struct Label<'a> {
    pub hash: u64,
    pub key: &'a [u8],
}
