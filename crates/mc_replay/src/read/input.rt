//! The bytes of the input.
ghost use Rattle.std.specs.Prelude.{◌≡◌, ◌++◌, ◌<◌, IfOk, Ok, length, vec_len};
ghost use Rattle.mc_replay.specs.Reading.{GivesMore};

use crate::fault::RunFault;
use mc_memory::{Refused, extend_from_slice, filled};
use mc_streams::Source;
use std::alloc::Global;

/// How many bytes are asked for at a time.
const PIECE: usize = 65_536;

/// Reads all bytes, up to where the reader reports that there are no more. Any error of the reader ends the reading.
pub fn read_all<R: Source>(alloc: Global, reader: &mut R) -> Result<Vec<u8>, RunFault>
    ensures given { IfOk result (λ bytes. R.given reader.new ≡ R.given reader.old ++ bytes.items) }
    ensures ended { IfOk result (λ bytes. R.HasEnded reader.new) }
{
    let mut bytes = Vec::new(alloc);
    let mut piece = room_for(alloc, PIECE)?;
    for _ in 0..u64::MAX {
        let count = read_piece(reader, &mut piece, &mut bytes)?;
        if count == 0 {
            return Ok(bytes);
        }
    }
    Err(RunFault::Read)
}

/// A vector of n bytes to read into.
fn room_for(alloc: Global, count: usize) -> Result<Vec<u8>, Refused>
    ensures { IfOk result (λ room. vec_len room ≡ count) }
{
    filled(alloc, 0u8, count)
}

/// Reads once into `piece`, adds what was read to `bytes` and returns how many bytes that were. None is the end.
fn read_piece<R: Source>(
    reader: &mut R,
    piece: &mut [u8],
    bytes: &mut Vec<u8>,
) -> Result<usize, RunFault>
    requires { 0 < length piece.old }
    ensures given { IfOk result (λ count. GivesMore (R.given reader.old)
        (R.given reader.new) bytes.old.items bytes.new.items) }
    ensures ended { result ≡ Ok 0 → R.HasEnded reader.new }
{
    let count = match reader.read(piece) {
        Ok(count) => count,
        Err(_) => return Err(RunFault::Read),
    };
    extend_from_slice(bytes, &piece[..count])?;
    Ok(count)
}
