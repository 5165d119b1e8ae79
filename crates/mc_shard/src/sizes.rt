//! How large a value may be.
ghost use Rattle.std.specs.Prelude.{◌≡◌, IfSome, None, length};
ghost use Rattle.mc_shard.specs.Sizes.{IsMostBeside, LacksClassBeside, has_class_for};

use mc_classes::ClassTable;
use mc_packing::words_for_bytes;

/// The words of a chunk that an item takes beside those of its key and its value: three of the chunk, and the two lengths. (own)
pub(crate) const HEAD_WORDS: u64 = 5;

/// The most bytes that a value may have beside a key of n bytes. None where no class has chunks for that key with any value. (own)
pub fn max_value(classes: &ClassTable, key_len: usize) -> Option<usize>
    ensures most { IfSome result (λ most. IsMostBeside classes.now key_len most) }
    ensures none { result ≡ None → LacksClassBeside classes.now key_len }
{
    let words = classes.size(classes.count()) / 8;
    let left = words.checked_sub(HEAD_WORDS + words_for_bytes(key_len as u64))?;
    Some(8 * left as usize)
}

/// Whether some class has chunks for an item of this key and this value.
pub(crate) fn has_class(classes: &ClassTable, key: &[u8], value: &[u8]) -> bool
    ensures { result ≡ has_class_for classes.now (length key.now) (length value.now) }
{
    match max_value(classes, key.len()) {
        Some(most) => value.len() <= most,
        None => false,
    }
}
