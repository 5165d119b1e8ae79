//! Why a call that tries for each lock n times was refused.
use mc_memory::Refused;
use thiserror::Error;

/// Why a delete, a touch, a making of room or a list of keys that doesn't wait was refused. (own)
#[derive(Debug, PartialEq, Eq, Drop, Error)]
pub enum WithinError {
    /// The stripe got no room for one more call, a class none for its next page, or a list none for its keys. A key has what it had, unless its
    /// item was one of those that were evicted to make room.
    #[error("out of memory: a key has what it had, unless its item was evicted")]
    NoMemory(Refused),
    /// Other hands had a lock of the call at each try, and each key has what it had. A touch that had got the item gave it up again, and
    /// didn't move it.
    #[error("other hands had the lock at each try: each key has what it had")]
    Held,
}
