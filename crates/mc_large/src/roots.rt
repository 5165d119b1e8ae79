//! Roots: what the item under a root key has.
ghost use Rattle.std.specs.Prelude.{◌≡◌, ◌%◌, IfOk, IfSome, None, OnOk, Ok, true, false, length};
ghost use Rattle.mc_large.specs.Reading.{AreVersions, HasContent, IsLength, LacksLength};
ghost use Rattle.mc_large.specs.Roots.{large_root, small_root};

use mc_memory::{Refused, extend_from_slice, push};
use mc_stripe::Stamp;

/// The most bytes of a value: 1 MiB.
pub const MOST_LARGE_VALUE: usize = 1_048_576;

/// The first byte of the root of a small value.
const SMALL: u8 = 0;

/// The first byte of the root of a value in parts.
const LARGE: u8 = 1;

/// What a root has.
#[derive(Clone, Copy)]
pub(crate) enum Content<'a> {
    /// The value.
    Small(&'a [u8]),
    /// The length of a value whose parts have the versions that were read.
    Large(usize),
    /// The bytes are no root.
    Nothing,
}

/// Puts the root of a small value in the place of the bytes that are there.
pub(crate) fn put_small_root(into: &mut Vec<u8>, value: &[u8]) -> Result<(), Refused>
    ensures { OnOk result (into.new.items ≡ small_root value.now) }
{
    into.clear();
    push(into, SMALL)?;
    extend_from_slice(into, value)
}

/// Puts the root of a value of this length, whose parts have these versions, in the place of the bytes that are there.
pub(crate) fn put_large_root(
    into: &mut Vec<u8>,
    len: usize,
    versions: &[Stamp],
) -> Result<(), Refused>
    ensures { OnOk result (into.new.items ≡ large_root len versions.now) }
{
    into.clear();
    push(into, LARGE)?;
    extend_from_slice(into, &(len as u64).to_le_bytes())?;
    for version in versions {
        extend_from_slice(into, &version.to_le_bytes())?;
    }
    Ok(())
}

/// Reads what a root has, and puts the versions of a value's parts in the place of those that are there.
pub(crate) fn read_root<'a>(
    root: &'a [u8],
    versions: &mut Vec<Stamp>,
) -> Result<Content<'a>, Refused>
    ensures { IfOk result (λ content. HasContent root.now versions.new.items content) }
{
    versions.clear();
    let Some((tag, rest)) = root.split_first() else {
        return Ok(Content::Nothing);
    };
    if *tag == SMALL {
        return Ok(Content::Small(rest));
    }
    if *tag != LARGE {
        return Ok(Content::Nothing);
    }
    let Some((len, bytes)) = read_length(rest) else {
        return Ok(Content::Nothing);
    };
    if !read_versions(bytes, versions)? {
        versions.clear();
        return Ok(Content::Nothing);
    }
    if versions.len() > len {
        versions.clear();
        return Ok(Content::Nothing);
    }
    Ok(Content::Large(len))
}

// The length of a value, if it is within the limit, and the bytes behind it.
fn read_length(bytes: &[u8]) -> Option<(usize, &[u8])>
    ensures some { IfSome result (λ read. IsLength bytes.now read.0 read.1.now) }
    ensures none { result ≡ None → LacksLength bytes.now }
{
    let Some((first, rest)) = bytes.split_first_chunk::<8>() else {
        return None;
    };
    let len = u64::from_le_bytes(*first);
    if len > MOST_LARGE_VALUE as u64 {
        return None;
    }
    Some((len as usize, rest))
}

// Reads versions of eight bytes each, and returns whether these are all the bytes.
fn read_versions(bytes: &[u8], versions: &mut Vec<Stamp>) -> Result<bool, Refused>
    ensures read { result ≡ Ok true → AreVersions bytes.now versions.new.items }
    ensures odd { result ≡ Ok false → ¬ (length bytes.now % 8 ≡ 0) }
{
    versions.clear();
    let mut rest = bytes;
    while let Some((first, more)) = rest.split_first_chunk::<8>() {
        push(versions, u64::from_le_bytes(*first))?;
        rest = more;
    }
    Ok(rest.is_empty())
}
