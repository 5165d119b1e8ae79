//! Want of memory, which a test can have where memory is left.
use mc_memory::{Refused, with_capacity};
use std::alloc::Global;
use std::test::Fail;

/// Want of memory, as a vector reports it that no memory has room for.
pub fn too_much(alloc: Global) -> Result<Refused, Fail> {
    match with_capacity::<u64>(alloc, usize::MAX) {
        Ok(_room) => Err(Fail::new("there is no room for so much")),
        Err(refused) => Ok(refused),
    }
}
