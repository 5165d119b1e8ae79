//! The options of a run: its configuration, its mode, and whether threads do the lines.
use mc_classes::Config;

/// What a run is started with.
#[derive(Clone, Copy, PartialEq, Eq)]
pub struct Run {
    /// Sizes and limits.
    pub config: Config,
    /// The automover's mode: 0 is off, 1 acts on the decision of each window, 2 asks for a page after each eviction.
    pub automove: u64,
}

/// What the words of a command line ask for.
#[derive(Clone, Copy, PartialEq, Eq)]
pub struct Options {
    /// What the run is started with.
    pub run: Run,
    /// Whether the workers and the mover run in threads of their own.
    pub threads: bool,
}
