//! Why a decider isn't made, or refuses a window.

use mc_memory::Refused;
use thiserror::Error;

/// Memory ran out.
pub type NoMemory = Refused;

/// Why the numbers of a window aren't taken. The tests are made in this order (own).
#[derive(Clone, Copy, Debug, PartialEq, Eq, Error)]
pub enum Feed {
    /// A list isn't as long as there are classes.
    #[error("each list must have one number for each class")]
    Length,
    /// The evictions of some class are fewer than in the window before.
    #[error("the evictions of a class can't become fewer")]
    Backwards,
}
