//! SipHash-1-3 over whole words, in four numbers that the compiler keeps in registers. (own; it computes what std's `DefaultHasher` does)
ghost use Rattle.std.specs.Prelude.{◌≡◌, ℕ, ◌+◌, ◌*◌, ◌%◌, ◌^◌, ◌<◌, ◌≤◌, bit_and, bit_or, length, slice_index};
ghost use Rattle.std.specs.Hash.DefaultHasher.{finish, initial, read_word, round, write_word};
ghost use Rattle.mc_cache.specs.Sip.{LeavesTail, hasher_of};

/// The four numbers of a SipHash between two words.
#[derive(Clone, Copy)]
pub(crate) struct Lanes {
    v0: u64,
    v1: u64,
    v2: u64,
    v3: u64,
}

impl Lanes {
    /// Those of a hasher that took nothing in.
    pub(crate) fn new() -> Lanes
        ensures { hasher_of result 0 0 ≡ initial }
    {
        Lanes {
            v0: 0x736f_6d65_7073_6575,
            v1: 0x646f_7261_6e64_6f6d,
            v2: 0x6c79_6765_6e65_7261,
            v3: 0x7465_6462_7974_6573,
        }
    }

    // The numbers after one round.
    #[inline(always)]
    fn round(self) -> Lanes
        ensures { (tail count : ℕ) → hasher_of result tail count
            ≡ round (hasher_of self tail count) }
    {
        let a0 = self.v0.wrapping_add(self.v1);
        let a2 = self.v2.wrapping_add(self.v3);
        let a1 = self.v1.rotate_left(13) ^ a0;
        let a3 = self.v3.rotate_left(16) ^ a2;
        let b2 = a2.wrapping_add(a1);
        let b0 = a0.rotate_left(32).wrapping_add(a3);
        Lanes {
            v0: b0,
            v1: a1.rotate_left(17) ^ b2,
            v2: b2.rotate_left(32),
            v3: a3.rotate_left(21) ^ b0,
        }
    }

    /// The numbers after a word of eight bytes, the first byte lowest.
    #[inline(always)]
    pub(crate) fn with_word(self, word: u64) -> Lanes
        ensures { (tail count : ℕ) → hasher_of result tail count
            ≡ write_word (hasher_of self tail count) word }
    {
        let before = Lanes {
            v0: self.v0,
            v1: self.v1,
            v2: self.v2,
            v3: self.v3 ^ word,
        };
        let after = before.round();
        Lanes {
            v0: after.v0 ^ word,
            v1: after.v1,
            v2: after.v2,
            v3: after.v3,
        }
    }

    /// The hash after n bytes, of which those behind the last whole word are the tail.
    #[inline(always)]
    pub(crate) fn finish(self, tail: u64, count: u64) -> u64
        ensures { result ≡ finish (hasher_of self tail count) }
    {
        let last = self.with_word((count & 0xff) << 56 | tail);
        let mixed = Lanes {
            v0: last.v0,
            v1: last.v1,
            v2: last.v2 ^ 0xff,
            v3: last.v3,
        };
        let end = mixed.round().round().round();
        end.v0 ^ end.v1 ^ end.v2 ^ end.v3
    }
}

/// The word of the eight bytes from a place on, the first lowest.
#[inline(always)]
pub(crate) fn word_at(bytes: &[u8], at: usize) -> u64
    requires { at + 8 ≤ length bytes.now }
    ensures { result ≡ read_word bytes.now at }
{
    let low = bytes[at] as u64
        | (bytes[at + 1] as u64) << 8
        | (bytes[at + 2] as u64) << 16
        | (bytes[at + 3] as u64) << 24;
    low | (bytes[at + 4] as u64) << 32
        | (bytes[at + 5] as u64) << 40
        | (bytes[at + 6] as u64) << 48
        | (bytes[at + 7] as u64) << 56
}

/// The bytes from a place on, of which there are fewer than eight, as a word, the first lowest. The place is a whole number of words.
#[inline(always)]
pub(crate) fn tail_of(bytes: &[u8], at: usize) -> u64
    requires inside { at ≤ length bytes.now }
    requires part { length bytes.now < at + 8 }
    requires whole { at % 8 ≡ 0 }
    ensures { LeavesTail bytes.now at result }
{
    let mut tail = 0;
    for place in at..bytes.len() {
        tail |= (bytes[place] as u64) << (8 * (place as u64 % 8));
    }
    tail
}
