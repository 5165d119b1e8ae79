//! The lines that a run writes, put together in memory before any of them is written.
//!
//! Where memory runs out in a line, the text that was there stays, and some of the line may follow it.
ghost use Rattle.std.specs.Prelude.{◌≡◌, ◌≤◌, ◌+◌, ◌++◌, [], ◌∷◌, codes, decimal, length, vec_len, vec_capacity, IsOk, OnOk};
ghost use Rattle.std.specs.Io.{StartsWith};
ghost use Rattle.mc_watch.specs.Texts.{line};
ghost use Rattle.mc_serial_spec.specs.Texts.{key_line, spaced_words, turn_line, ending_word, words_line};

use itoa::Buffer;
use mc_memory::{Refused, extend_from_slice};
use mc_serial_spec::{Counts, Ending};

/// Adds a number in decimal digits.
fn push_number(text: &mut Vec<u8>, number: u64) -> Result<(), Refused>
    ensures number { OnOk result (text.new.items ≡ text.old.items ++ decimal number) }
    ensures kept { StartsWith text.new.items text.old.items }
    ensures len { OnOk result (vec_len text.new ≤ vec_len text.old + 40) }
    ensures room { vec_capacity text.old ≤ vec_capacity text.new }
    ensures succeeds { vec_len text.old + 40 ≤ vec_capacity text.old → IsOk result }
{
    let mut digits = Buffer::new();
    extend_from_slice(text, digits.format(number).as_bytes())?;
    Ok(())
}

/// Adds a line of these words.
fn push_line(text: &mut Vec<u8>, words: &[u8]) -> Result<(), Refused>
    ensures line { OnOk result (text.new.items ≡ text.old.items ++ line words.now) }
    ensures kept { StartsWith text.new.items text.old.items }
{
    extend_from_slice(text, words)?;
    extend_from_slice(text, b"\r\n")?;
    Ok(())
}

/// Adds an answer of one word.
pub fn push_answer(text: &mut Vec<u8>, answer: &[u8]) -> Result<(), Refused>
    ensures line { OnOk result (text.new.items ≡ text.old.items ++ line answer.now) }
    ensures kept { StartsWith text.new.items text.old.items }
{
    push_line(text, answer)
}

/// Adds numbers, a space before each.
fn push_spaced(text: &mut Vec<u8>, numbers: &[u64]) -> Result<(), Refused>
    ensures numbers { OnOk result (text.new.items ≡ text.old.items ++ spaced_words numbers.now) }
    ensures kept { StartsWith text.new.items text.old.items }
{
    for number in numbers {
        extend_from_slice(text, b" ")?;
        push_number(text, *number)?;
    }
    Ok(())
}

/// Adds the answer about a key, with the item's words.
pub fn push_words_line(
    text: &mut Vec<u8>,
    answer: &[u8],
    key: u64,
    words: &[u64],
) -> Result<(), Refused>
    ensures line { OnOk result (text.new.items ≡ text.old.items
        ++ words_line answer.now key words.now) }
    ensures kept { StartsWith text.new.items text.old.items }
{
    extend_from_slice(text, answer)?;
    extend_from_slice(text, b" ")?;
    push_number(text, key)?;
    extend_from_slice(text, b" ")?;
    push_number(text, words.len() as u64)?;
    push_spaced(text, words)?;
    extend_from_slice(text, b"\r\n")?;
    Ok(())
}

/// The word for how the last turn ended.
fn word_of(ending: Ending) -> &'static [u8]
    ensures word { result.now ≡ ending_word ending }
{
    match ending {
        Ending::Idle => b"IDLE",
        Ending::Went => b"WENT",
        Ending::Finished => b"FINISHED",
    }
}

/// Adds the line of what some turns did.
pub fn push_turn_line(text: &mut Vec<u8>, ending: Ending, counts: Counts) -> Result<(), Refused>
    ensures line { OnOk result (text.new.items ≡ text.old.items ++ turn_line ending counts) }
    ensures kept { StartsWith text.new.items text.old.items }
{
    let Counts {
        cleared,
        rescued,
        evicted,
        busy,
        locked,
    } = counts;
    extend_from_slice(text, b"TURN ")?;
    extend_from_slice(text, word_of(ending))?;
    push_spaced(text, &[cleared, rescued, evicted, busy, locked])?;
    extend_from_slice(text, b"\r\n")?;
    Ok(())
}

/// Adds what became of the automover's decision.
pub fn push_window_line(
    text: &mut Vec<u8>,
    src: u64,
    dst: u64,
    answer: &[u8],
) -> Result<(), Refused>
    ensures line { OnOk result (text.new.items ≡ text.old.items
        ++ line (codes "WINDOW" ++ spaced_words (src ∷ dst ∷ []) ++ codes " " ++ answer.now)) }
    ensures kept { StartsWith text.new.items text.old.items }
{
    extend_from_slice(text, b"WINDOW")?;
    push_spaced(text, &[src, dst])?;
    extend_from_slice(text, b" ")?;
    push_line(text, answer)
}

/// Adds the answer about a key. Where there is room for 43 bytes beside the answer's, it doesn't fail.
pub fn push_key_line(text: &mut Vec<u8>, answer: &[u8], key: u64) -> Result<(), Refused>
    ensures line { OnOk result (text.new.items ≡ text.old.items ++ key_line answer.now key) }
    ensures kept { StartsWith text.new.items text.old.items }
    ensures succeeds { vec_len text.old + length answer.now + 43 ≤ vec_capacity text.old →
        IsOk result }
{
    extend_from_slice(text, answer)?;
    extend_from_slice(text, b" ")?;
    push_number(text, key)?;
    extend_from_slice(text, b"\r\n")?;
    Ok(())
}
