//! Devices that meet the contracts: two whose bytes are known, and two that fail.
ghost use Rattle.std.specs.Prelude.{◌≡◌, ◌<◌, ◌≤◌, length};

use super::{assert_equal, assert_same};
use mc_classes::{Failures, Fault, Sink};
use mc_streams::Source;
use std::alloc::Global;
use std::marker::Brand;
use std::process::Abort;
use std::sync::ledger::{Blank, Ledger};
use std::test::Fail;
use std::{cmp, mem};

/// Reads from a slice, and never fails.
#[derive(Drop)]
struct SliceSource<'a> {
    bytes: &'a [u8],
    at: usize,
    ghost within: { at ≤ length bytes.now },
}

impl Source for SliceSource<'_> {
    ghost use Rattle.std.specs.Prelude.{◌≤◌, drop, length, Some, take};

    ghost given = { λ s. take s.at s.bytes.now };

    ghost HasEnded = { λ s. length s.bytes.now ≤ s.at };

    ghost remaining = { λ s. Some (drop s.at s.bytes.now) };

    ghost failures = { λ _. 0 };

    fn read(&mut self, buf: &mut [u8]) -> Result<usize, Fault> {
        let rest = &self.bytes[self.at..];
        let count = cmp::min(buf.len(), rest.len());
        buf[..count].copy_from_slice(&rest[..count]);
        self.at += count;
        Ok(count)
    }
}

/// Fails at each read.
#[derive(Drop)]
struct BrokenSource<L: Ledger> {
    failures: Failures<L>,
}

impl<L: Ledger> Source for BrokenSource<L> {
    ghost use Rattle.std.specs.Prelude.{[], None};

    ghost given = { λ _. [] };

    ghost HasEnded = { λ _. ⊥ };

    ghost remaining = { λ _. None };

    ghost failures = { λ s. s.failures };

    fn read(&mut self, _buf: &mut [u8]) -> Result<usize, Fault> {
        self.failures.add();
        Err(Fault)
    }
}

/// Keeps what is written, and fails where memory runs out or a write has more bytes than it has `room` for.
#[derive(Drop)]
struct VecSink<L: Ledger> {
    bytes: Vec<u8>,
    room: usize,
    failures: Failures<L>,
}

impl<L: Ledger> Sink for VecSink<L> {
    ghost use Rattle.std.specs.Prelude.{Some};

    ghost contents = { λ s. Some s.bytes.items };

    ghost failures = { λ s. s.failures };

    fn write_all(&mut self, bytes: &[u8]) -> Result<(), Fault> {
        let count = cmp::min(bytes.len(), self.room);
        if self.bytes.extend_from_slice(&bytes[..count]).is_err() || count < bytes.len() {
            self.failures.add();
            return Err(Fault);
        }
        self.room -= count;
        Ok(())
    }
}

/// Copies what a source gives, three bytes at a time, until its end or `limit` reads.
fn copy<S: Source, K: Sink>(from: &mut S, to: &mut K, limit: u64) -> Result<(), Fault> {
    let mut buf = [0; 3];
    for _ in 0..limit {
        let count = from.read(&mut buf)?;
        if count == 0 {
            return Ok(());
        }
        to.write_all(&buf[..count])?;
    }
    Ok(())
}

/// The ledger is the caller's to pick.
fn copies<L: Ledger>(rt: &impl Abort, alloc: Global, blank: Blank) -> Result<(), Fault>
    requires name { blank.name ≡ L.name }
    requires parts { blank.parts ≡ L.parts }
    requires some { 0 < blank.parts }
{
    let mut sink = VecSink::<L> {
        bytes: Vec::new(alloc),
        room: 10,
        failures: Failures::new(blank),
    };
    let mut source = SliceSource {
        bytes: b"0123456789",
        at: 0,
    };
    copy(&mut source, &mut sink, 10)?;
    assert_same(
        rt,
        sink.bytes.as_slice(),
        b"0123456789".as_slice(),
        "all bytes",
    );
    // the room is used up: nothing more is written
    assert_equal(rt, sink.write_all(b"x"), Err(Fault), "a write without room");
    assert_same(
        rt,
        sink.bytes.as_slice(),
        b"0123456789".as_slice(),
        "nothing more",
    );
    // a write that has room for a part leaves the part
    sink.room = 2;
    assert_equal(
        rt,
        sink.write_all(b"abc"),
        Err(Fault),
        "a write with room for a part",
    );
    assert_same(
        rt,
        sink.bytes.as_slice(),
        b"0123456789ab".as_slice(),
        "the part",
    );
    let VecSink {
        bytes: _,
        room: _,
        failures,
    } = sink;
    let mut broken = BrokenSource { failures };
    assert_equal(rt, broken.read(&mut [0; 3]), Err(Fault), "a broken read");
    Ok(())
}

#[test]
fn devices(rt: HostRuntime) -> Result<(), Fail> {
    assert_same(
        &rt,
        mem::size_of::<Failures<Brand>>(),
        0,
        "a count takes no bytes",
    );
    copies::<Brand>(&rt, rt.alloc(), Blank::new(1))?;
    Ok(())
}
