//! Deadlines, and the bytes of a value that has one.
ghost use Rattle.std.specs.Prelude.{◌≡◌, IfSome, None, OnOk, false, true};
ghost use Rattle.mc_expiry.specs.Deadlines.{HasUnexpired, IsExpired, IsUnexpired, LacksUnexpired, timed_bytes};

use mc_memory::{Refused, extend_from_slice};

/// Whether the deadline is reached at this time. A deadline of 0 never is.
fn is_expired(deadline: u32, time: u32) -> bool
    ensures expired { result ≡ true → IsExpired deadline time }
    ensures unexpired { result ≡ false → IsUnexpired deadline time }
{
    deadline != 0 && deadline <= time
}

/// The value behind the deadline, where the deadline isn't reached at this time.
pub(crate) fn unexpired_value(stored: &[u8], time: u32) -> Option<&[u8]>
    ensures some { IfSome result (λ value. HasUnexpired time stored.now value.now) }
    ensures none { result ≡ None → LacksUnexpired time stored.now }
{
    let Some((first, value)) = stored.split_first_chunk::<4>() else {
        return None;
    };
    let deadline = u32::from_le_bytes(*first);
    if is_expired(deadline, time) {
        return None;
    }
    Some(value)
}

/// Puts a value and its deadline in the place of the bytes that are there.
pub(crate) fn put_timed(into: &mut Vec<u8>, deadline: u32, value: &[u8]) -> Result<(), Refused>
    ensures { OnOk result (into.new.items ≡ timed_bytes deadline value.now) }
{
    into.clear();
    extend_from_slice(into, &deadline.to_le_bytes())?;
    extend_from_slice(into, value)
}
