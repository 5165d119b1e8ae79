//! What a value becomes.
ghost use Rattle.std.specs.Prelude.{◌≡◌, ◌++◌, None, Ok, OnOk, Some, decimal, false, true};
ghost use Rattle.mc_update.specs.Changes.{changed_by};

use itoa::Buffer;
use mc_memory::{Refused, extend_from_slice};
use mc_script::number::number;

/// How a value is changed.
#[derive(Clone, Copy)]
pub enum Change<'a> {
    /// The number that the value writes in decimal digits grows by this, and is 0 again behind 2^64 - 1. (memcached's `incr`)
    Increment(u64),
    /// The number falls by this, and stays at 0 there. (memcached's `decr`)
    Decrement(u64),
    /// These bytes come behind the value. (memcached's `append`)
    Append(&'a [u8]),
    /// These bytes come before the value. (memcached's `prepend`)
    Prepend(&'a [u8]),
}

impl Change<'_> {
    /// Puts what the value becomes in the place of the bytes that are there, and returns whether the change is for such a value: one that is
    /// counted writes a number of 1 to 20 digits below 2^64.
    pub(crate) fn put(&self, old: &[u8], into: &mut Vec<u8>) -> Result<bool, Refused>
        ensures changed { result ≡ Ok true → changed_by self.now old.now ≡ Some into.new.items }
        ensures none { result ≡ Ok false → changed_by self.now old.now ≡ None }
    {
        into.clear();
        match *self {
            Change::Increment(by) => {
                let Some(count) = number(old) else {
                    return Ok(false);
                };
                push_number(into, count.wrapping_add(by))?;
            }
            Change::Decrement(by) => {
                let Some(count) = number(old) else {
                    return Ok(false);
                };
                push_number(into, count.saturating_sub(by))?;
            }
            Change::Append(more) => {
                extend_from_slice(into, old)?;
                extend_from_slice(into, more)?;
            }
            Change::Prepend(more) => {
                extend_from_slice(into, more)?;
                extend_from_slice(into, old)?;
            }
        }
        Ok(true)
    }
}

// Adds a number in decimal digits.
fn push_number(into: &mut Vec<u8>, count: u64) -> Result<(), Refused>
    ensures digits { OnOk result (into.new.items ≡ into.old.items ++ decimal count) }
{
    let mut digits = Buffer::new();
    extend_from_slice(into, digits.format(count).as_bytes())
}
