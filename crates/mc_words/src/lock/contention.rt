//! Whether hands wait for the lock of the slabs, beside the table. Nothing proved rests on it: who reads it lets others have the lock
//! for a while, or goes on.
use crossbeam_utils::CachePadded;
use std::sync::atomic::AtomicBool;
use std::sync::atomic::Ordering::SeqCst;

/// Whether a hand has waited since that was last asked.
#[derive(Drop)]
pub struct Contention {
    has_waited: CachePadded<AtomicBool>,
}

impl Contention {
    /// No hand has waited yet.
    pub(crate) fn new() -> Contention {
        Contention {
            has_waited: CachePadded::new(AtomicBool::new(false)),
        }
    }

    /// A hand waits. Where that is noted already nothing is written.
    pub(crate) fn note(&self) {
        if !self.has_waited.load(SeqCst) {
            self.has_waited.store(true, SeqCst);
        }
    }

    /// Whether one has waited since this was last asked. Where none has, nothing is written.
    pub(crate) fn take(&self) -> bool {
        self.has_waited.load(SeqCst) && self.has_waited.swap(false, SeqCst)
    }
}
