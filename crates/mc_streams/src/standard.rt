//! Standard streams as the readers and writers of a run.
ghost use Rattle.std.specs.Prelude.{◌≡◌, ◌<◌, ◌≤◌, ◌+◌, ◌-◌, ◌^◌, ◌⊎◌, ◌++◌, [], true, false, drop, length, take, IfOk, IsErr, OnErr, OnOk, vec_capacity, vec_len};
ghost use Rattle.std.specs.Io.KnownBytes.{Appends, Consumes, IsAtEnd, Keeps, append_known};
ghost use Rattle.mc_io.specs.Device.{Extends};

use crate::recorded::{RecordedReader, is_interrupted};
use crate::source::Source;
use mc_classes::{Failures, Fault, Sink};
use mc_memory::{Refused, with_capacity};
use std::alloc::Global;
use std::io::{Read, Write};
use std::sync::ledger::Ledger;

/// How many bytes are held back before they are written.
const ROOM: usize = 8192;

/// A reader. A read that a signal interrupts is tried again, and one that fails otherwise is not.
#[derive(Drop)]
pub struct Input<R: Read, L: Ledger> {
    reader: RecordedReader<R>,
    failed_reads: Failures<L>,
}

impl<R: Read, L: Ledger> Input<R, L> {
    /// Reads from `reader`, and counts on from `failed_reads`.
    pub fn new(reader: R, failed_reads: Failures<L>) -> Input<R, L>
        ensures reader { result.reader.inner ≡ reader }
        ensures given { result.reader.given.bytes ≡ [] }
        ensures ends { result.reader.ends.total ≡ 0 }
        ensures failures { result.failed_reads ≡ failed_reads }
    {
        Input {
            reader: RecordedReader::new(reader),
            failed_reads,
        }
    }
}

impl<R: Read, L: Ledger> Source for Input<R, L> {
    ghost given = { λ s. s.reader.given.bytes };

    ghost HasEnded = { λ s. 0 < s.reader.ends.total };

    ghost remaining = { λ s. R.remaining s.reader.inner };

    ghost failures = { λ s. s.failed_reads };

    fn read(&mut self, buf: &mut [u8]) -> Result<usize, Fault>
        ensures within { IfOk result (λ n. n ≤ length buf.new) }
        ensures gave { IfOk result (λ n. self.new.reader.given.bytes ≡ self.old.reader.given.bytes
            ++ take n buf.new) }
        ensures ended { result ≡ Ok 0 → 0 < length buf.new → 0 < self.new.reader.ends.total }
        ensures bytes { IfOk result (λ n. Consumes (R.remaining self.old.reader.inner)
            (R.remaining self.new.reader.inner) (take n buf.new)) }
        ensures end { result ≡ Ok 0 → 0 < length buf.new →
            IsAtEnd (R.remaining self.new.reader.inner) }
        ensures ok { OnOk result (self.new.failed_reads ≡ self.old.failed_reads) }
        ensures err { OnErr result (self.new.failed_reads ≡ self.old.failed_reads + 1) }
        ensures none { OnErr result (self.new.reader.given.bytes ≡ self.old.reader.given.bytes) }
        ensures kept { OnErr result (Keeps (R.remaining self.old.reader.inner)
            (R.remaining self.new.reader.inner)) }

        // What came before the answer were interruptions alone.
        ensures retried { OnOk result (self.new.reader.errors.total
            ≡ self.old.reader.errors.total) }

        // A failure reports an error, the only one, or that all of 2^64 - 1 reads were interrupted.
        ensures failed { OnErr result ((self.new.reader.errors.total
            ≡ self.old.reader.errors.total + 1)
            ⊎ ((self.new.reader.errors.total ≡ self.old.reader.errors.total)
            × (self.new.reader.interruptions.total ≡ self.old.reader.interruptions.total
            + (2 ^ 64 - 1)))) }
    {
        for _tries in 0..u64::MAX {
            match self.reader.read(buf) {
                Ok(count) => return Ok(count),
                Err(error) => {
                    if !is_interrupted(&error) {
                        break;
                    }
                }
            }
        }
        self.failed_reads.add();
        Err(Fault)
    }
}

/// A writer behind a buffer. It takes no memory once it is made. After a write that failed nothing is
/// written or flushed again, and what is still held back is lost. A drop writes nothing.
#[derive(Drop)]
pub struct Output<W: Write, L: Ledger> {
    writer: W,
    held: Vec<u8>,
    has_failed: bool,
    failed_writes: Failures<L>,
}

impl<W: Write, L: Ledger> Output<W, L> {
    /// Writes to `writer`, and counts on from `failed_writes`.
    pub fn new(
        alloc: Global,
        writer: W,
        failed_writes: Failures<L>,
    ) -> Result<Output<W, L>, Refused>
    where
        W: Drop,
        ensures writer { IfOk result (λ output. output.writer ≡ writer) }
        ensures held { IfOk result (λ output. output.held.items ≡ []) }
        ensures works { IfOk result (λ output. output.has_failed ≡ false) }
        ensures failures { IfOk result (λ output. output.failed_writes ≡ failed_writes) }
    {
        let held = with_capacity(alloc, ROOM)?;
        Ok(Output {
            writer,
            held,
            has_failed: false,
            failed_writes,
        })
    }

    /// Writes what is held back and flushes. At `Ok` the writer has all that was written.
    pub fn finish(mut self) -> Result<W, Fault>
    where
        W: Drop,
        ensures bytes { IfOk result (λ writer. Keeps
            (append_known (W.contents self.writer) self.held.items) (W.contents writer)) }
        ensures failed { self.has_failed ≡ true → IsErr result }
    {
        if self.has_failed {
            return Err(Fault);
        }
        self.write_held()?;
        if self.writer.flush().is_err() {
            return Err(Fault);
        }
        let Output {
            writer,
            held: _,
            has_failed: _,
            failed_writes: _,
        } = self;
        Ok(writer)
    }

    /// Writes what is held back. What can't be written stays.
    fn write_held(&mut self) -> Result<(), Fault>
        ensures bytes { Keeps (append_known (W.contents self.old.writer) self.old.held.items)
            (append_known (W.contents self.new.writer) self.new.held.items) }
        ensures held { OnOk result (self.new.held.items ≡ []) }
        ensures capacity { vec_capacity self.new.held ≡ vec_capacity self.old.held }
        ensures has_failed { self.new.has_failed ≡ self.old.has_failed }
        ensures failures { self.new.failed_writes ≡ self.old.failed_writes }
    {
        let count = write_out(&mut self.writer, self.held.as_slice());
        remove_front(&mut self.held, count);
        if self.held.is_empty() {
            Ok(())
        } else {
            Err(Fault)
        }
    }

    /// Takes all of `bytes`, or a part of them where a write fails.
    fn put(&mut self, bytes: &[u8]) -> Result<(), Fault>
        ensures bytes { OnOk result
            (Appends (append_known (W.contents self.old.writer) self.old.held.items)
            (append_known (W.contents self.new.writer) self.new.held.items) bytes.now) }
        ensures kept { OnErr result
            (Extends (append_known (W.contents self.old.writer) self.old.held.items)
            (append_known (W.contents self.new.writer) self.new.held.items)) }
        ensures failures { self.new.failed_writes ≡ self.old.failed_writes }
    {
        if bytes.len() > self.held.capacity() - self.held.len() {
            self.write_held()?;
        }
        if bytes.len() <= self.held.capacity() - self.held.len() {
            append(&mut self.held, bytes);
            return Ok(());
        }
        if write_out(&mut self.writer, bytes) == bytes.len() {
            Ok(())
        } else {
            Err(Fault)
        }
    }
}

impl<W: Write, L: Ledger> Sink for Output<W, L> {
    ghost contents = { λ s. append_known (W.contents s.writer) s.held.items };

    ghost failures = { λ s. s.failed_writes };

    fn write_all(&mut self, bytes: &[u8]) -> Result<(), Fault>
        ensures bytes { OnOk result
            (Appends (append_known (W.contents self.old.writer) self.old.held.items)
            (append_known (W.contents self.new.writer) self.new.held.items) bytes.now) }
        ensures ok { OnOk result (self.new.failed_writes ≡ self.old.failed_writes) }
        ensures err { OnErr result (self.new.failed_writes ≡ self.old.failed_writes + 1) }
        ensures kept { OnErr result
            (Extends (append_known (W.contents self.old.writer) self.old.held.items)
            (append_known (W.contents self.new.writer) self.new.held.items)) }
        ensures fails { OnErr result (self.new.has_failed ≡ true) }
        ensures stays { self.old.has_failed ≡ true →
            IsErr result × (self.new.writer ≡ self.old.writer)
            × (self.new.held.items ≡ self.old.held.items) }
    {
        if self.has_failed || self.put(bytes).is_err() {
            self.has_failed = true;
            self.failed_writes.add();
            return Err(Fault);
        }
        Ok(())
    }
}

/// Writes until all of `bytes` is written or a write fails, and returns how many bytes were written.
fn write_out<W: Write>(writer: &mut W, bytes: &[u8]) -> usize
    ensures bound { result ≤ length bytes.now }
    ensures bytes { Appends (W.contents writer.old) (W.contents writer.new)
        (take result bytes.now) }
{
    let mut written = 0;
    for _ in 0..u64::MAX {
        if written == bytes.len() {
            break;
        }
        match writer.write(&bytes[written..]) {
            Ok(0) => break,
            Ok(count) => written += count,
            Err(error) => {
                if !is_interrupted(&error) {
                    break;
                }
            }
        }
    }
    written
}

/// Removes the first `count` bytes.
fn remove_front(bytes: &mut Vec<u8>, count: usize)
    requires { count ≤ vec_len bytes.old }
    ensures items { bytes.new.items ≡ drop count bytes.old.items }
    ensures len { vec_len bytes.new + count ≡ vec_len bytes.old }
    ensures capacity { vec_capacity bytes.new ≡ vec_capacity bytes.old }
{
    let len = bytes.len();
    bytes.as_mut_slice().copy_within(count..len, 0);
    bytes.truncate(len - count);
}

/// Adds `more`, for which there is room.
fn append(bytes: &mut Vec<u8>, more: &[u8])
    requires { vec_len bytes.old + length more.now ≤ vec_capacity bytes.old }
    ensures { bytes.new.items ≡ bytes.old.items ++ more.now }
{
    let Ok(()) = bytes.extend_from_slice(more) else {
        unreachable!()
    };
}
