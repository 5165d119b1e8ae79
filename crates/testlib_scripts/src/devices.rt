//! A reader and a writer in memory, which fail where a test has them fail.
ghost use Rattle.std.specs.Prelude.{◌≡◌, ◌≤◌, [], false, length};

use mc_classes::{Failures, Fault, Sink};
use mc_streams::Source;
use std::alloc::Global;
use std::cmp;
use std::sync::ledger::Ledger;

/// Gives the bytes of a slice, at most `piece` in a read, and fails once `good` of them are gone.
#[derive(Drop)]
pub struct MemorySource<'a, L: Ledger> {
    /// All bytes.
    pub bytes: &'a [u8],
    /// How many of them were given.
    pub at: usize,
    /// The most bytes that a read gives.
    pub piece: usize,
    /// How many bytes are given before every read fails.
    pub good: usize,
    /// The failures so far.
    pub failures: Failures<L>,
    pub ghost within: { at ≤ length bytes.now },
}

impl<'a, L: Ledger> MemorySource<'a, L> {
    /// None of these bytes was given yet.
    pub fn new(
        bytes: &'a [u8],
        piece: usize,
        good: usize,
        failures: Failures<L>,
    ) -> MemorySource<'a, L>
        ensures bytes { result.bytes.now ≡ bytes.now }
        ensures at { result.at ≡ 0 }
        ensures limits { (result.piece ≡ piece) × (result.good ≡ good) }
        ensures failures { result.failures ≡ failures }
    {
        MemorySource {
            bytes,
            at: 0,
            piece,
            good,
            failures,
        }
    }
}

impl<L: Ledger> Source for MemorySource<'_, L> {
    ghost use Rattle.std.specs.Prelude.{◌≤◌, drop, length, Some, take};

    ghost given = { λ s. take s.at s.bytes.now };

    ghost HasEnded = { λ s. length s.bytes.now ≤ s.at };

    ghost remaining = { λ s. Some (drop s.at s.bytes.now) };

    ghost failures = { λ s. s.failures };

    fn read(&mut self, buf: &mut [u8]) -> Result<usize, Fault> {
        let rest = &self.bytes[self.at..];
        let least = cmp::min(buf.len(), rest.len());
        if self.good == 0 || (self.piece == 0 && least > 0) {
            self.failures.add();
            return Err(Fault);
        }
        let count = cmp::min(least, cmp::min(self.piece, self.good));
        buf[..count].copy_from_slice(&rest[..count]);
        self.at += count;
        self.good -= count;
        Ok(count)
    }
}

/// Keeps what is written, and fails where memory runs out or `good` writes were made. Records whether a write was tried after one
/// that failed.
#[derive(Drop)]
pub struct MemorySink<L: Ledger> {
    /// The bytes that were written.
    pub bytes: Vec<u8>,
    /// How many writes are made before every write fails.
    pub good: u64,
    /// Whether a write has failed.
    pub has_failed: bool,
    /// Whether a write was tried after that.
    pub was_tried_again: bool,
    /// The failures so far.
    pub failures: Failures<L>,
}

impl<L: Ledger> MemorySink<L> {
    /// Nothing was written yet.
    pub fn new(alloc: Global, good: u64, failures: Failures<L>) -> MemorySink<L>
        ensures bytes { result.bytes.items ≡ [] }
        ensures good { result.good ≡ good }
        ensures untried { (result.has_failed ≡ false) × (result.was_tried_again ≡ false) }
        ensures failures { result.failures ≡ failures }
    {
        MemorySink {
            bytes: Vec::new(alloc),
            good,
            has_failed: false,
            was_tried_again: false,
            failures,
        }
    }
}

impl<L: Ledger> Sink for MemorySink<L> {
    ghost use Rattle.std.specs.Prelude.{Some};

    ghost contents = { λ s. Some s.bytes.items };

    ghost failures = { λ s. s.failures };

    fn write_all(&mut self, bytes: &[u8]) -> Result<(), Fault> {
        self.was_tried_again = self.was_tried_again || self.has_failed;
        if self.good == 0 || self.bytes.extend_from_slice(bytes).is_err() {
            self.has_failed = true;
            self.failures.add();
            return Err(Fault);
        }
        self.good -= 1;
        Ok(())
    }
}
