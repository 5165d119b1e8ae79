//! The entries of a stripe's history.

/// The key of an item.
pub type Key = u64;

/// The number by which items differ from each other: no two that were ever stored have the same.
pub type Stamp = u64;

/// A hand: who calls, numbered from 0.
pub type HandId = u64;

/// A call on one key, by one hand, and its reply.
#[derive(Clone, Copy, PartialEq, Eq)]
pub enum Call {
    /// An item was stored under the key, with this stamp.
    Set(HandId, Key, Stamp),
    /// The key was looked up: the stamp of its item, if it had one.
    Get(HandId, Key, Option<Stamp>),
    /// The key was deleted, and whether it had an item.
    Delete(HandId, Key, bool),
    /// The key's item was evicted to make room.
    Evict(HandId, Key),
    /// The key's item was copied into another chunk.
    Rescue(HandId, Key),
}
