//! Whether a turn's sweep of the class is due or done.

/// The sweep that a turn makes before it saves its first item: the dead of the class of the moving page are put back.
#[derive(Clone, Copy, Drop)]
pub enum Sweep {
    /// No item was to be saved yet in this turn.
    Due,
    /// The sweep was made.
    Done,
}
