//! A line of a script: whether it is skipped, and its words.
ghost use Rattle.std.specs.Prelude.{◌≡◌, ◌==◌, not, IfOk, find, map};
ghost use Rattle.mc_script.specs.Script.{is_skipped};
ghost use Rattle.mc_script.specs.Words.{line_words};

use std::alloc::{AllocError, Global};

/// Whether a line has no words, or is a comment: its first word begins with `#`.
pub fn is_skipped(line: &[u8]) -> bool
    ensures { result ≡ is_skipped (line_words line.now) }
{
    first_byte(line).is_none_or(|byte| byte == b'#')
}

/// The first byte of a line's first word.
fn first_byte(line: &[u8]) -> Option<u8>
    ensures { result ≡ find (λ byte. not (byte == 32)) line.now }
{
    line.iter().copied().find(|byte| *byte != b' ')
}

/// The pieces between the spaces of a line.
pub fn words(alloc: Global, line: &[u8]) -> Result<Vec<&[u8]>, AllocError>
    ensures { IfOk result (λ words. map (λ word. word.now) words.items ≡ line_words line.now) }
{
    line.split(|byte| *byte == b' ')
        .filter(|word| !word.is_empty())
        .collect(alloc)
}
