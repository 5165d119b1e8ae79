//! The stripe that has a key.
ghost use Rattle.std.specs.Prelude.{◌≡◌, ◌≤◌, ◌%◌};

/// The remainder of a key by the number of stripes. Where that is a power of two up to 64, no division is done, which takes a processor
/// longer than a step on a word.
#[inline(always)]
pub(crate) fn stripe_of(key: u64, stripes: u64) -> u64
    requires { 1 ≤ stripes }
    ensures { result ≡ key % stripes }
{
    match stripes {
        1 => 0,
        2 => key % 2,
        4 => key % 4,
        8 => key % 8,
        16 => key % 16,
        32 => key % 32,
        64 => key % 64,
        _ => key % stripes,
    }
}
