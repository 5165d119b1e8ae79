//! What a look at a key found: stored bytes of a version, or no value.
ghost use Rattle.std.specs.Prelude.{◌≡◌, IfSome, None, Some};
ghost use Rattle.mc_expiry.specs.Looking.{FoundUnexpired, condition_of};

use crate::deadlines::unexpired_value;
use mc_cache::When;
use mc_stripe::Stamp;

/// The unexpired value that a look found, if any: in these stored bytes, if it found a version.
pub(crate) fn seen_value(stored: &[u8], found: Option<Stamp>, time: u32) -> Option<&[u8]>
    ensures some { IfSome result (λ value. FoundUnexpired time found stored.now (Some value.now)) }
    ensures none { result ≡ None → FoundUnexpired time found stored.now None }
{
    match found {
        Some(_version) => unexpired_value(stored, time),
        None => None,
    }
}

/// The condition that is met as long as the key has what a look found: a value of this version, or none.
pub(crate) fn condition_of(found: Option<Stamp>) -> When
    ensures { result ≡ condition_of found }
{
    match found {
        Some(version) => When::Version(version),
        None => When::Absent,
    }
}
