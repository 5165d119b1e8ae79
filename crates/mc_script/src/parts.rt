//! The first words of a line, without memory.
ghost use Rattle.std.specs.Prelude.{◌≡◌, ◌≤◌, ◌==◌, not, length, map, take};
ghost use Rattle.std.specs.List.{position, position_or_len};
ghost use Rattle.mc_script.specs.Words.{line_words};

/// One word more than the longest command has, so that a line with more is seen to be none.
const MOST: usize = 6;

/// The words that are left of a line.
#[derive(Drop)]
struct Rest<'a> {
    line: &'a [u8],
}

impl<'a> Iterator for Rest<'a> {
    ghost use Rattle.std.specs.Iterator.{YieldsFirstRef, item_count};
    ghost use Rattle.mc_script.specs.Words.{line_words};

    type Item = &'a [u8];

    ghost next_gives = { YieldsFirstRef (λ s. line_words s.line.now) };

    ghost remaining = { item_count (λ s. line_words s.line.now) };

    fn next(&mut self) -> Option<&'a [u8]> {
        let line = self.line;
        match word_start(line) {
            Some(start) => {
                let from = &line[start..];
                let length = word_length(from);
                self.line = &from[length..];
                Some(&from[..length])
            }
            None => None,
        }
    }
}

/// Where the first word of a line begins.
fn word_start(line: &[u8]) -> Option<usize>
    ensures { result ≡ position (λ byte. not (byte == 32)) line.now }
{
    line.iter().position(|byte| *byte != b' ')
}

/// The place of the first space.
fn first_space(line: &[u8]) -> Option<usize>
    ensures { result ≡ position (λ byte. byte == 32) line.now }
{
    line.iter().position(|byte| *byte == b' ')
}

/// How many bytes are before the first space.
fn word_length(line: &[u8]) -> usize
    ensures within { result ≤ length line.now }
    ensures first { result ≡ position_or_len (λ byte. byte == 32) line.now }
{
    first_space(line).unwrap_or(line.len())
}

/// The first words of a line, and how many they are.
pub(crate) fn first_words(line: &[u8]) -> ([&[u8]; MOST], usize)
    ensures count { result.1 ≤ 6 }
    ensures words { map (λ word. word.now) (take result.1 result.0) ≡ take 6 (line_words line.now) }
{
    let mut words = [&line[..0]; MOST];
    let mut count = 0;
    for word in (Rest { line }) {
        words[count] = word;
        count += 1;
        if count == MOST {
            return (words, count);
        }
    }
    (words, count)
}
