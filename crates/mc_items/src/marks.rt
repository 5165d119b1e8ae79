//! Marks of items that were used lately.

/// Knows which items were used lately. Any answer is lawful: a mark only decides which items stay. (own, for the flag `ITEM_ACTIVE`
/// of memcached's items)
pub trait Marks {
    /// Whether the item of this key was used lately. It takes the mark off.
    fn take(&self, key: u64) -> bool;
}

/// The marks of a user without marks: no item was used lately.
#[derive(Clone, Copy)]
pub struct NoMarks;

impl Marks for NoMarks {
    fn take(&self, _key: u64) -> bool {
        false
    }
}
