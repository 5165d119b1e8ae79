//! Keys by their numbers, values that show their key and their version, and calls on them that are drawn.
use rand_core::Rng;
use rand_pcg::Pcg32;
use std::alloc::{AllocError, Global};

/// How many keys the trials use.
pub const KEYS: u64 = 40;

/// Fills n bytes, each by the number and by its place.
fn fill(bytes: &mut Vec<u8>, number: u64, len: u64) -> Result<(), AllocError> {
    bytes.clear();
    for place in 0..len {
        bytes.push((number.wrapping_mul(31).wrapping_add(place) % 256) as u8)?;
    }
    Ok(())
}

/// The key of this number: 1 to 250 bytes, of which the first shows the number.
pub fn key_of(alloc: Global, number: u64) -> Result<Vec<u8>, AllocError> {
    let mut key = Vec::new(alloc);
    fill(&mut key, number, 1 + number.wrapping_mul(83) % 250)?;
    Ok(key)
}

/// The value of this version of the key: none to 699 bytes.
pub fn value_of(alloc: Global, number: u64, version: u64) -> Result<Vec<u8>, AllocError> {
    let mut value = Vec::new(alloc);
    let seed = number.wrapping_mul(1000).wrapping_add(version);
    fill(&mut value, seed, seed.wrapping_mul(7919) % 700)?;
    Ok(value)
}

/// A call that is drawn: one of eight kinds, the number of its key, and the version of the value that it may store.
#[derive(Clone, Copy)]
pub struct Call {
    pub kind: u64,
    pub number: u64,
    pub version: u64,
}

/// Calls that are drawn one after another, and which version each key has, as far as it was stored and not deleted.
#[derive(Drop)]
pub struct Trial {
    pub alloc: Global,
    random: Pcg32,
    calls: u64,
    versions: Vec<Option<u64>>,
}

impl Trial {
    /// Nothing was drawn, and no key has a value. Each seed draws other calls.
    pub fn new(alloc: Global, seed: u64) -> Result<Trial, AllocError> {
        Ok(Trial {
            alloc,
            random: Pcg32::new(seed, 0),
            calls: 0,
            versions: vec![in alloc; None; KEYS as usize]?,
        })
    }

    /// The next call. Each has another version.
    pub fn draw(&mut self) -> Call {
        let version = self.calls;
        self.calls = version.wrapping_add(1);
        Call {
            kind: self.random.next_u64() % 8,
            number: self.random.next_u64() % KEYS,
            version,
        }
    }

    /// The key has this version now, or none.
    pub fn note(&mut self, number: u64, version: Option<u64>) {
        if let Some(place) = self.versions.get_mut(number as usize) {
            *place = version;
        }
    }

    /// Whether the key has a version.
    pub fn has(&self, number: u64) -> bool {
        match self.versions.get(number as usize) {
            Some(Some(_version)) => true,
            _ => false,
        }
    }

    /// Whether these bytes are the key's value.
    pub fn is_value(&self, number: u64, bytes: &[u8]) -> Result<bool, AllocError> {
        match self.versions.get(number as usize) {
            Some(Some(version)) => {
                let wanted = value_of(self.alloc, number, *version)?;
                Ok(wanted.as_slice() == bytes)
            }
            _ => Ok(false),
        }
    }
}
