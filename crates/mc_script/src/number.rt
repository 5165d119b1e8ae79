//! The numbers of a script.
ghost use Rattle.std.specs.Prelude.{◌≡◌, ◌+◌, ◌-◌, ◌*◌, ◌^◌, ◌&&◌, nat_lt, if◌then◌else◌};
ghost use Rattle.std.specs.Char.{is_ascii_digit};
ghost use Rattle.mc_script.specs.Words.{parsed_number, number_between};

/// How many digits 2^64 - 1 has. A number may have leading zeros, but no more digits than that (own).
const MAX_DIGITS: usize = 20;

/// The number that a word writes in decimal digits alone, if it writes one below 2^64. The word is read once.
pub fn number(word: &[u8]) -> Option<u64>
    ensures { result ≡ parsed_number word.now }
{
    if word.is_empty() || word.len() > MAX_DIGITS {
        return None;
    }
    let mut value = 0;
    for byte in word {
        value = with_digit(value, *byte)?;
    }
    Some(value)
}

/// The number that one digit more makes, if the byte is a digit and the number is below 2^64.
fn with_digit(value: u64, byte: u8) -> Option<u64>
    ensures { result ≡ (if is_ascii_digit byte && nat_lt (value * 10 + (byte - 48))
        (2 ^ 64) then Some (value * 10 + (byte - 48)) else None) }
{
    if !byte.is_ascii_digit() {
        return None;
    }
    value.checked_mul(10)?.checked_add(u64::from(byte - b'0'))
}

/// The number of a word, if it is from `low` to `high`.
pub(crate) fn number_between(low: u64, high: u64, word: &[u8]) -> Option<u64>
    ensures { result ≡ number_between low high word.now }
{
    let number = number(word)?;
    if (low..=high).contains(&number) {
        Some(number)
    } else {
        None
    }
}
