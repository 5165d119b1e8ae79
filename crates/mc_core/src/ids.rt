//! The number of a hand, and how many stamps it gave out.

/// A hand's number, and how many stamps it gave out.
#[derive(Clone, Copy, PartialEq, Eq)]
pub struct Ids {
    /// The number of the hand; none once another hand took over.
    pub number: Option<u8>,
    /// How many stamps of this number were given out.
    pub stamps: u64,
}
