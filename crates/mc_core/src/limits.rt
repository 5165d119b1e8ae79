//! The limits of a hand.
use mc_classes::MOST_REFS;

/// The most chunks that a hand holds: the references, and one chunk more under a lock.
pub const MOST_HOLDINGS: u64 = MOST_REFS + 1;
