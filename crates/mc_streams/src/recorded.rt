//! Standard readers and writers, with notes of what they answered.
ghost use Rattle.std.specs.Prelude.{◌≡◌, ◌≢◌, ◌+◌, ◌++◌, ◌<◌, ◌↔◌, [], length, take, IfOk, IfErr, IsTrue, OnErr, OnOk};
ghost use Rattle.std.specs.Io.{ReadsAtMost, WritesAtMost};
ghost use Rattle.std.specs.Io.KnownBytes.{Keeps, ReadConsumes, WriteAppends};
ghost use Rattle.std.specs.IoError.{error_kind};

use crate::record::{Count, Record};
use std::io::{self, ErrorKind, Read, Write};

/// A reader, with what its reads answered.
#[derive(Drop)]
pub(crate) struct RecordedReader<R: Read> {
    inner: R,
    /// The bytes that it gave.
    given: Record,
    /// How many reads in a row, up to the last one, had room and gave none.
    ends: Count,
    /// How many reads were interrupted.
    interruptions: Count,
    /// How many reads failed otherwise.
    errors: Count,
}

impl<R: Read> RecordedReader<R> {
    /// Nothing is noted yet.
    pub(crate) fn new(inner: R) -> RecordedReader<R>
        ensures inner { result.inner ≡ inner }
        ensures given { result.given.bytes ≡ [] }
        ensures ends { result.ends.total ≡ 0 }
        ensures interruptions { result.interruptions.total ≡ 0 }
        ensures errors { result.errors.total ≡ 0 }
    {
        RecordedReader {
            inner,
            given: Record::new(),
            ends: Count::new(),
            interruptions: Count::new(),
            errors: Count::new(),
        }
    }

    /// Reads once, and notes the answer.
    pub(crate) fn read(&mut self, buf: &mut [u8]) -> io::Result<usize>
        ensures bound { ReadsAtMost result buf.new }
        ensures bytes { ReadConsumes (R.remaining self.old.inner)
            (R.remaining self.new.inner) result buf.new }
        ensures gave { IfOk result (λ n. self.new.given.bytes ≡ self.old.given.bytes
            ++ take n buf.new) }
        ensures none { OnErr result (self.new.given.bytes ≡ self.old.given.bytes) }
        ensures end { result ≡ Ok 0 → 0 < length buf.new → 0 < self.new.ends.total }
        ensures more { IfOk result (λ n. 0 < n → self.new.ends.total ≡ 0) }
        ensures good { OnOk result (self.new.errors.total ≡ self.old.errors.total) }
        ensures calm { OnOk result (self.new.interruptions.total ≡ self.old.interruptions.total) }
        ensures interrupted { IfErr result (λ error. error_kind error ≡ ErrorKind.Interrupted →
            (self.new.interruptions.total ≡ self.old.interruptions.total + 1)
            × (self.new.errors.total ≡ self.old.errors.total)) }
        ensures failed { IfErr result (λ error. error_kind error ≢ ErrorKind.Interrupted →
            (self.new.interruptions.total ≡ self.old.interruptions.total)
            × (self.new.errors.total ≡ self.old.errors.total + 1)) }
    {
        match self.inner.read(buf) {
            Ok(count) => {
                self.given = self.given.and(&buf[..count]);
                self.ends = if count == 0 && !buf.is_empty() {
                    self.ends.next()
                } else {
                    Count::new()
                };
                Ok(count)
            }
            Err(error) => {
                if is_interrupted(&error) {
                    self.interruptions = self.interruptions.next();
                } else {
                    self.errors = self.errors.next();
                }
                Err(error)
            }
        }
    }
}

/// A writer whose contracts record what it took. A writer whose bytes aren't known is put behind this.
#[derive(Drop)]
pub struct RecordedWriter<W: Write> {
    inner: W,
    taken: Record,
}

impl<W: Write> RecordedWriter<W> {
    /// Nothing is noted yet.
    pub fn new(inner: W) -> RecordedWriter<W>
        ensures inner { result.inner ≡ inner }
        ensures taken { result.taken.bytes ≡ [] }
    {
        RecordedWriter {
            inner,
            taken: Record::new(),
        }
    }
}

impl<W: Write> Write for RecordedWriter<W> {
    ghost use Rattle.std.specs.Prelude.{Some};

    ghost contents = { λ s. Some s.taken.bytes };

    fn write(&mut self, bytes: &[u8]) -> io::Result<usize>
        ensures bound { WritesAtMost result bytes.now }
        ensures bytes { WriteAppends (Some self.old.taken.bytes)
            (Some self.new.taken.bytes) result bytes.now }
        ensures inner { WriteAppends (W.contents self.old.inner)
            (W.contents self.new.inner) result bytes.now }
    {
        let count = self.inner.write(bytes)?;
        self.taken = self.taken.and(&bytes[..count]);
        Ok(count)
    }

    fn flush(&mut self) -> io::Result<()>
        ensures bytes { Keeps (Some self.old.taken.bytes) (Some self.new.taken.bytes) }
        ensures inner { Keeps (W.contents self.old.inner) (W.contents self.new.inner) }
    {
        self.inner.flush()
    }
}

/// Whether a signal came before the call was done.
pub(crate) fn is_interrupted(error: &io::Error) -> bool
    ensures { IsTrue result ↔ (error_kind error.now ≡ ErrorKind.Interrupted) }
{
    error.kind() == ErrorKind::Interrupted
}
