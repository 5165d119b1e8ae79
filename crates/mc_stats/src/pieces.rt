//! Bytes that are written piece by piece. No write is made after one that failed.
ghost use Rattle.std.specs.Prelude.{◌≡◌, ◌<◌, OnErr, OnOk};
ghost use Rattle.std.specs.List.{flat_map};
ghost use Rattle.std.specs.Io.KnownBytes.{Appends};
ghost use Rattle.mc_io.specs.Device.{Extends};

use mc_io::{Fault, Sink};

// Writes some pieces, one after another.
pub(crate) fn write_pieces<W: Sink>(pieces: &[&[u8]], writer: &mut W) -> Result<(), Fault>
    ensures bytes { OnOk result (Appends (W.contents writer.old) (W.contents writer.new)
        (flat_map (λ piece. piece.now) pieces.now)) }
    ensures ok { OnOk result (W.failures writer.new ≡ W.failures writer.old) }
    ensures err { OnErr result (W.failures writer.old < W.failures writer.new) }
    ensures kept { OnErr result (Extends (W.contents writer.old) (W.contents writer.new)) }
{
    for piece in pieces {
        writer.write_all(piece)?;
    }
    Ok(())
}
