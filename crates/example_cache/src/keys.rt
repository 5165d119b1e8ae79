//! Keys that are drawn by Zipf's law, and the value of each.
use rand_core::Rng;
use rand_pcg::Pcg32;
use std::alloc::AllocError;

/// Keys from this one on have long values.
const FIRST_LONG: u64 = 1 << 32;

/// How many doublings of ranks there are: of each kind of key about 130,000.
const DOUBLINGS: u64 = 17;

/// A number below the count, or 0.
fn draw(random: &mut Pcg32, count: u64) -> u64 {
    u64::from(random.next_u32()).checked_rem(count).unwrap_or(0)
}

/// A key, in 99 of 100 cases of the kind that is wanted. A rank in each doubling is as likely as in each other, which is Zipf's law with
/// an exponent of 1.
pub fn draw_key(random: &mut Pcg32, wants_long: bool) -> u64 {
    let is_usual = draw(random, 100) != 0;
    let first = 1u64 << draw(random, DOUBLINGS) % DOUBLINGS;
    let rank = first.wrapping_add(draw(random, first));
    if wants_long == is_usual {
        FIRST_LONG.wrapping_add(rank)
    } else {
        rank
    }
}

/// A number that looks drawn, by another.
fn mix(number: u64) -> u64 {
    let spread = number.wrapping_mul(0x9e37_79b9_7f4a_7c15);
    (spread ^ (spread >> 29)).wrapping_mul(0xbf58_476d_1ce4_e5b9) >> 8
}

/// How many bytes a key's value has: 10 to 499, or 500 to 4,000.
fn value_len(key: u64) -> u64 {
    if key < FIRST_LONG {
        10 + mix(key) % 490
    } else {
        500 + mix(key) % 3501
    }
}

/// Puts the key's value in the place of the bytes. The key alone determines it.
pub fn make_value(value: &mut Vec<u8>, key: u64) -> Result<(), AllocError> {
    value.clear();
    for place in 0..value_len(key) {
        let word = mix(key.wrapping_add(place / 6));
        value.push((word >> place % 6 * 8 & 255) as u8)?;
    }
    Ok(())
}
