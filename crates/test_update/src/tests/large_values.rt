//! Values that are told apart by a number.
use std::alloc::AllocError;

/// The key of all tests of large values.
pub const KEY: &[u8] = b"key";

/// The byte at this place of the value of this number. Neither the pieces of one value nor the values of two numbers are alike.
fn byte_at(number: u64, place: usize) -> u8 {
    let mixed = number
        .wrapping_mul(0x9e37_79b9_7f4a_7c15)
        .wrapping_add((place as u64).wrapping_mul(0xc2b2_ae3d_27d4_eb4f));
    ((mixed >> 40) % 256) as u8
}

/// Puts the value of this number and this length in the place of the bytes that are there.
pub fn fill(value: &mut Vec<u8>, number: u64, len: usize) -> Result<(), AllocError> {
    value.clear();
    for place in 0..len {
        value.push(byte_at(number, place))?;
    }
    Ok(())
}

/// Whether these bytes are the value of this number and this length.
pub fn is_value(bytes: &[u8], number: u64, len: usize) -> bool {
    if bytes.len() != len {
        return false;
    }
    for (place, byte) in bytes.iter().enumerate() {
        if *byte != byte_at(number, place) {
            return false;
        }
    }
    true
}
