//! Texts that grow.
ghost use Rattle.std.specs.Prelude.{◌≡◌, ◌≤◌, ◌+◌, ◌++◌, if◌then◌else◌, IsOk, is_ok, length, encode_utf8, string_bytes, string_capacity, string_len};

use crate::refused::Refused;

/// Adds these characters at the text's end. Where there is no room, the text stays.
pub fn push_str(text: &mut String, more: &str) -> Result<(), Refused>
    ensures bytes { string_bytes text.new ≡ (if is_ok result then string_bytes text.old
        ++ more.now else string_bytes text.old) }
    ensures len { string_len text.new
        ≡ (if is_ok result then string_len text.old + length more.now else string_len text.old) }
    ensures capacity { string_capacity text.old ≤ string_capacity text.new }
    ensures succeeds { string_len text.old + length more.now ≤ string_capacity text.old →
        IsOk result }
{
    text.push_str(more).map_err(|_| Refused::now())
}

/// One character behind the last. Where there is no room, the text stays.
pub fn push_char(text: &mut String, more: char) -> Result<(), Refused>
    ensures bytes { string_bytes text.new ≡ (if is_ok result then string_bytes text.old
        ++ encode_utf8 more else string_bytes text.old) }
    ensures capacity { string_capacity text.old ≤ string_capacity text.new }
{
    text.push(more).map_err(|_| Refused::now())
}
