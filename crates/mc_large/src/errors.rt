//! Why a call was refused.
use mc_memory::Refused;
use thiserror::Error;

/// Why a set was refused.
#[derive(Debug, PartialEq, Eq, Drop, Error)]
pub enum LargeSetError {
    /// The key has no byte, or more than 245. Nothing was done.
    #[error("a key must have from 1 to 245 bytes; nothing was done")]
    KeyLength,
    /// The value has more than 1 MiB, or the cache has no chunks for its root or for its parts. Nothing was done.
    #[error("the value is too large; nothing was done")]
    TooLarge,
    /// The cache refused a part or the root, and the key's old value is deleted.
    #[error("the value isn't stored: {0}")]
    Item(mc_items::SetError),
}

/// Why another call was refused. The key has what it had.
#[derive(Debug, PartialEq, Eq, Drop, Error)]
pub enum LargeCallError {
    /// The key has no byte, or more than 245. Nothing was done.
    #[error("a key must have from 1 to 245 bytes; nothing was done")]
    KeyLength,
    /// Memory was refused.
    #[error("out of memory; the key has what it had")]
    NoMemory(Refused),
}
