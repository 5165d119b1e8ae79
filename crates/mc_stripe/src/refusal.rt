//! Why a stripe makes no room, or isn't trimmed.
use mc_memory::Refused;

/// Memory ran out.
pub type NoMemory = Refused;

/// Why a history isn't trimmed.
#[derive(PartialEq, Eq, Drop)]
pub enum Trim {
    /// Memory ran out: 1.
    NoMemory(Refused),
    /// The next call's place would pass the greatest number of 64 bits: 2.
    Full,
}
