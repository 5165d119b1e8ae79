//! Readers, as contracts see them: by the bytes that they gave, those that they are known to give yet, and the times that they
//! failed.
ghost use Rattle.std.specs.Prelude.{◌≡◌, ◌++◌, ◌<◌, ◌≤◌, ℕ, List, Option, length, take, IfOk, OnOk, OnErr};
ghost use Rattle.std.specs.Io.KnownBytes.{Consumes, IsAtEnd, Keeps};

use mc_classes::Fault;

/// A reader of bytes.
pub trait Source {
    /// The bytes that reads gave so far.
    ghost given: { Self → List ℕ };

    /// The last read reported that there are no more bytes.
    ghost HasEnded: { Self → Type 0 };

    /// The bytes that reads will give from here on, where they are known.
    ghost remaining: { Self → Option (List ℕ) };

    /// How often a read has failed.
    ghost failures: { Self → ℕ };

    /// Reads some bytes into the front of `buf` and returns how many. None, where `buf` has room, is the end. A read that fails
    /// gives nothing.
    fn read(&mut self, buf: &mut [u8]) -> Result<usize, Fault>
        ensures within { IfOk result (λ n. n ≤ length buf.new) }
        ensures gave { IfOk result (λ n. given self.new ≡ given self.old ++ take n buf.new) }
        ensures ended { result ≡ Ok 0 → 0 < length buf.new → HasEnded self.new }
        ensures bytes { IfOk result (λ n. Consumes (remaining self.old) (remaining self.new)
            (take n buf.new)) }
        ensures end { result ≡ Ok 0 → 0 < length buf.new → IsAtEnd (remaining self.new) }
        ensures ok { OnOk result (failures self.new ≡ failures self.old) }
        ensures err { OnErr result (failures self.old < failures self.new) }
        ensures none { OnErr result (given self.new ≡ given self.old) }
        ensures kept { OnErr result (Keeps (remaining self.old) (remaining self.new)) };
}
