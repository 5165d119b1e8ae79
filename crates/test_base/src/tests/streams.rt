//! Streams that fail in the middle.
ghost use Rattle.std.specs.Prelude.{◌≡◌, ◌<◌};

use super::{assert_equal, assert_same};
use mc_classes::{Failures, Fault, Sink};
use mc_streams::{Input, Output, RecordedWriter, Source};
use std::alloc::Global;
use std::cell::Cell;
use std::cmp;
use std::io::{self, ErrorKind, Read, Write};
use std::marker::Brand;
use std::process::Abort;
use std::sync::ledger::{Blank, Ledger};
use std::test::Fail;

/// A signal, two bytes, a failure, the end.
#[derive(Drop)]
struct Uneven {
    reads: u8,
}

impl Read for Uneven {
    fn read(&mut self, buf: &mut [u8]) -> io::Result<usize> {
        let read = self.reads;
        self.reads = read.saturating_add(1);
        match read {
            0 => Err(io::Error::from(ErrorKind::Interrupted)),
            1 => {
                let count = cmp::min(buf.len(), 2);
                buf[..count].copy_from_slice(&b"ab"[..count]);
                Ok(count)
            }
            2 => Err(io::Error::from(ErrorKind::PermissionDenied)),
            _ => Ok(0),
        }
    }
}

fn reads<L: Ledger>(rt: &impl Abort, blank: Blank)
    requires name { blank.name ≡ L.name }
    requires parts { blank.parts ≡ L.parts }
    requires some { 0 < blank.parts }
{
    let mut input = Input::<Uneven, L>::new(Uneven { reads: 0 }, Failures::new(blank));
    let mut buf = [0; 4];
    assert_equal(rt, input.read(&mut buf), Ok(2), "behind the signal");
    assert_same(rt, &buf[..2], b"ab".as_slice(), "what was read");
    assert_equal(rt, input.read(&mut buf), Err(Fault), "the failure");
    assert_equal(rt, input.read(&mut buf), Ok(0), "the end");
}

#[test]
fn reads_through_a_signal(rt: HostRuntime) {
    reads::<Brand>(&rt, Blank::new(1));
}

/// Takes 1,000 bytes at most a write, and as many as there is `room` for. Records its calls.
#[derive(Drop)]
struct Narrow<'a> {
    room: usize,
    is_flushed: bool,
    taken: &'a Cell<usize>,
    calls: &'a Cell<usize>,
}

impl Narrow<'_> {
    fn called(&self) {
        self.calls.set(self.calls.get().saturating_add(1));
    }
}

impl Write for Narrow<'_> {
    fn write(&mut self, buf: &[u8]) -> io::Result<usize> {
        self.called();
        let count = cmp::min(cmp::min(buf.len(), 1000), self.room);
        if count == 0 {
            return Err(io::Error::from(ErrorKind::BrokenPipe));
        }
        self.room -= count;
        self.taken.set(self.taken.get().saturating_add(count));
        Ok(count)
    }

    fn flush(&mut self) -> io::Result<()> {
        self.called();
        if self.is_flushed {
            Ok(())
        } else {
            Err(io::Error::from(ErrorKind::BrokenPipe))
        }
    }
}

/// The lengths of three pieces.
type Pieces = (usize, usize, usize);

/// Whether each piece went well and the end did, how many bytes were taken, and after how many calls.
type Written = ((bool, bool, bool), bool, usize, usize);

/// The first bytes, as many as there are.
fn first_of(bytes: &[u8], count: usize) -> &[u8] {
    &bytes[..cmp::min(count, bytes.len())]
}

/// Writes the row's pieces to its writer and finishes. Returns whether each went well, how many bytes were taken and after how
/// many calls.
fn written<L: Ledger>(alloc: Global, blank: Blank, row: &WrittenRow<'_>) -> Result<Written, Fail>
    requires name { blank.name ≡ L.name }
    requires parts { blank.parts ≡ L.parts }
    requires some { 0 < blank.parts }
{
    let (taken, calls) = (Cell::new(0), Cell::new(0));
    let bytes = [b'x'; 20_000];
    let writer = Narrow {
        room: row.room,
        is_flushed: row.is_flushed,
        taken: &taken,
        calls: &calls,
    };
    let writer = RecordedWriter::new(writer);
    let mut output = Output::<_, L>::new(alloc, writer, Failures::new(blank))?;
    let (first, second, third) = row.pieces;
    let went = (
        output.write_all(first_of(&bytes, first)).is_ok(),
        output.write_all(first_of(&bytes, second)).is_ok(),
        output.write_all(first_of(&bytes, third)).is_ok(),
    );
    let finished = output.finish().is_ok();
    Ok((went, finished, taken.get(), calls.get()))
}

/// What becomes of three pieces that are written.
#[derive(Clone, Copy)]
struct WrittenRow<'a> {
    name: &'a str,
    /// How many bytes the writer takes, at most 1,000 at once.
    room: usize,
    /// Whether the flush goes well.
    is_flushed: bool,
    pieces: Pieces,
    outcome: Written,
}

/// All goes well.
const HELD_BACK: WrittenRow<'static> = WrittenRow {
    name: "held back, written in one, and flushed",
    room: 20_000,
    is_flushed: true,
    pieces: (100, 200, 300),
    outcome: ((true, true, true), true, 600, 2),
};

const WRITTEN: [WrittenRow<'static>; 6] = [
    HELD_BACK,
    WrittenRow {
        name: "nothing",
        pieces: (0, 0, 0),
        outcome: ((true, true, true), true, 0, 1),
        ..HELD_BACK
    },
    WrittenRow {
        name: "more than is held back",
        pieces: (8192, 1, 10_000),
        outcome: ((true, true, true), true, 18_193, 21),
        ..HELD_BACK
    },
    WrittenRow {
        name: "nothing is written or flushed after the failure",
        room: 9000,
        pieces: (8192, 10_000, 1),
        outcome: ((true, false, false), false, 9000, 11),
        ..HELD_BACK
    },
    WrittenRow {
        name: "the first write fails",
        room: 0,
        outcome: ((true, true, true), false, 0, 1),
        ..HELD_BACK
    },
    WrittenRow {
        name: "the flush fails",
        is_flushed: false,
        outcome: ((true, true, true), false, 600, 2),
        ..HELD_BACK
    },
];

#[test]
fn writes_until_a_failure(rt: HostRuntime) -> Result<(), Fail> {
    for row in &WRITTEN {
        let got = written::<Brand>(rt.alloc(), Blank::new(1), row)?;
        assert_same(&rt, got, row.outcome, row.name);
    }
    Ok(())
}
