//! Writers, as contracts see them: by the bytes that they are known to hold, and the times that they failed.
ghost use Rattle.std.specs.Prelude.{◌≡◌, ◌<◌, ℕ, List, Option, OnOk, OnErr};
ghost use Rattle.std.specs.Io.KnownBytes.{Appends};
ghost use Rattle.mc_io.specs.Device.{Extends};

/// A read or a write failed. The device reports no more than that.
#[derive(Clone, Copy, Debug, PartialEq, Eq)]
pub struct Fault;

/// A writer of bytes.
pub trait Sink {
    /// The bytes that the writer holds, where they are known.
    ghost contents: { Self → Option (List ℕ) };

    /// How often a write has failed.
    ghost failures: { Self → ℕ };

    /// Writes all of `bytes`. Where it fails, what was written before stays, and something may follow it.
    fn write_all(&mut self, bytes: &[u8]) -> Result<(), Fault>
        ensures bytes { OnOk result (Appends (contents self.old) (contents self.new) bytes.now) }
        ensures ok { OnOk result (failures self.new ≡ failures self.old) }
        ensures err { OnErr result (failures self.old < failures self.new) }
        ensures kept { OnErr result (Extends (contents self.old) (contents self.new)) };
}
