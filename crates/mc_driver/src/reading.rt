//! The bytes of a script, taken from a reader.
ghost use Rattle.std.specs.Prelude.{◌≡◌, ℕ, ◌+◌, ◌<◌, ◌≤◌, List, ◌++◌, take, length, IfOk, OnOk, IfErr, IfSome, vec_len};
ghost use Rattle.std.specs.Io.KnownBytes.{Consumes, IsAtEnd};
ghost use Rattle.mc_driver.specs.Reading.{GivesAtMost, IsReadFault, TakesAtMost, TakesPiece};

use crate::fault::RunFault;
use mc_memory::{Refused, extend_from_slice, filled};
use mc_script::MAX_SCRIPT;
use mc_streams::Source;
use std::alloc::Global;

/// How many bytes are asked for at a time.
const PIECE: usize = 65_536;

/// One byte more than a script may have, so that a longer one is seen to be too long.
const MOST: usize = MAX_SCRIPT + 1;

/// Reads a script, and no more than one byte past the longest one. Any error of the reader ends the reading.
pub(crate) fn read_script<R: Source>(alloc: Global, reader: &mut R) -> Result<Vec<u8>, RunFault>
    ensures bytes { IfOk result (λ bytes. IfSome (R.remaining reader.old) (λ all.
        bytes.items ≡ take 1048577 all)) }
    ensures given { IfOk result (λ bytes. R.given reader.new ≡ R.given reader.old ++ bytes.items) }
    ensures ended { IfOk result (λ bytes. length bytes.items ≤ 1048576 → R.HasEnded reader.new) }
    ensures most { TakesAtMost 1048577 (R.remaining reader.old) (R.remaining reader.new) }
    ensures most_given { GivesAtMost 1048577 (R.given reader.old) (R.given reader.new) }
    ensures quiet { OnOk result (R.failures reader.new ≡ R.failures reader.old) }
    ensures fault { IfErr result (λ fault. IsReadFault (R.failures reader.old)
        (R.failures reader.new) fault) }
{
    let mut bytes = Vec::new(alloc);
    let mut piece = room_for(alloc, PIECE)?;
    while bytes.len() < MOST {
        let room = (MOST - bytes.len()).min(PIECE);
        let count = read_piece(reader, &mut piece[..room], &mut bytes)?;
        if count == 0 {
            return Ok(bytes);
        }
    }
    Ok(bytes)
}

/// A vector of n bytes to read into.
fn room_for(alloc: Global, count: usize) -> Result<Vec<u8>, Refused>
    ensures { IfOk result (λ room. vec_len room ≡ count) }
{
    filled(alloc, 0u8, count)
}

/// Reads once into `piece`, adds what was read to `bytes` and returns how many bytes that were. None is the end.
fn read_piece<R: Source>(
    reader: &mut R,
    piece: &mut [u8],
    bytes: &mut Vec<u8>,
) -> Result<usize, RunFault>
    requires { 0 < length piece.old }
    ensures taken { IfOk result (λ count. TakesPiece (R.given reader.old) (R.given reader.new)
        (R.remaining reader.old) (R.remaining reader.new) bytes.old.items bytes.new.items count) }
    ensures within { IfOk result (λ count. count ≤ length piece.old) }
    ensures most { TakesAtMost (length piece.old) (R.remaining reader.old)
        (R.remaining reader.new) }
    ensures most_given { GivesAtMost (length piece.old) (R.given reader.old) (R.given reader.new) }
    ensures ended { result ≡ Ok 0 → R.HasEnded reader.new }
    ensures end { result ≡ Ok 0 → IsAtEnd (R.remaining reader.new) }
    ensures quiet { OnOk result (R.failures reader.new ≡ R.failures reader.old) }
    ensures fault { IfErr result (λ fault. IsReadFault (R.failures reader.old)
        (R.failures reader.new) fault) }
{
    let count = match reader.read(piece) {
        Ok(count) => count,
        Err(_) => return Err(RunFault::Read),
    };
    extend_from_slice(bytes, &piece[..count])?;
    Ok(count)
}
