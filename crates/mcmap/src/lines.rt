//! What is wrong with a line of a script, in words.
ghost use Rattle.std.specs.Prelude.{◌≡◌, ◌++◌, IfErr, IfOk, OnOk, is_err, is_some, string_bytes};
ghost use Rattle.mc_script.specs.Script.{script_of};
ghost use Rattle.mcmap.specs.Checked.{printed_byte, quoted_text, wrong_text};

use crate::fault::Fault;
use mc_classes::MOST_WORKERS;
use mc_map::{ScriptError, read_script};
use mc_script::line::words;
use mc_script::number::number;
use std::alloc::{AllocError, Global};
use std::fmt::Write;

/// What is wrong with a line.
#[derive(Clone, Copy)]
pub struct Finding<'a> {
    /// The word that is wrong.
    pub word: &'a [u8],
    /// Why it's wrong, and what would be right, as the rest of a sentence that begins with the word.
    pub reason: &'static str,
}

/// What is wrong with the line. None where it is a command, or is skipped.
pub fn reason_of(alloc: Global, line: &[u8]) -> Result<Option<Finding<'_>>, Fault>
    ensures reason { IfOk result (λ reason. is_some reason ≡ is_err (script_of line.now)) }
    ensures memory { IfErr result (λ fault. fault ≡ Fault.Memory) }
{
    match read_script(alloc, line) {
        Ok(_script) => Ok(None),
        Err(ScriptError::Line(_)) => Ok(Some(wrong_word(&words(alloc, line)?))),
        Err(ScriptError::NoMemory(_)) => Err(Fault::Memory),
    }
}

/// What is wrong with the words of a line that is no command.
fn wrong_word<'a>(words: &[&'a [u8]]) -> Finding<'a> {
    match words {
        [verb, rest @ ..] if is(verb, b"reassign") => wrong_reassign(verb, rest),
        [verb, rest @ ..] if is(verb, b"automove") => {
            wrong_number(verb, rest, "is no mode: automove <mode> has 0, 1 or 2")
        }
        [verb, rest @ ..] if is(verb, b"turn") => {
            wrong_number(
                verb,
                rest,
                "is no count of turns: turn <n> has 1 to 1000000",
            )
        }
        [verb, more, ..] if is(verb, b"window") => wrong(more, "is too much: window is alone"),
        [verb, more, ..] if is(verb, b"stats") => {
            wrong(more, "is no statistic: it is stats or stats slabs")
        }
        [worker, verb, rest @ ..] if is_of_worker(verb) => wrong_work(worker, verb, rest),
        [first, second, ..] if number(first).is_some() => wrong(second, NO_VERB),
        [first, ..] => wrong(first, NO_COMMAND),
        [] => wrong(b"", NO_COMMAND),
    }
}

/// What would be a command.
const NO_COMMAND: &str =
    "is no command: it is a worker with set, get, del, hold, drop or touch, or reassign, automove, window, turn or stats";

/// What a worker does.
const NO_VERB: &str = "is no command of a worker: it is set, get, del, hold, drop or touch";

/// The word is wrong, for this reason.
fn wrong<'a>(word: &'a [u8], reason: &'static str) -> Finding<'a> {
    Finding { word, reason }
}

/// What is wrong with a word that has one number behind it.
fn wrong_number<'a>(verb: &'a [u8], words: &[&'a [u8]], reason: &'static str) -> Finding<'a> {
    match words {
        [] => wrong(verb, "has a number behind it"),
        [_number, more, ..] => wrong(more, "is too much: it has one number"),
        [number] => wrong(number, reason),
    }
}

/// What is wrong with the classes of `reassign`.
fn wrong_reassign<'a>(verb: &'a [u8], words: &[&'a [u8]]) -> Finding<'a> {
    match words {
        [_src, dst] if number(dst).is_none() => {
            wrong(dst, "is no destination: it is a class, or 0 for the pool")
        }
        [src, _dst] => wrong(src, "is no source: it is a class, or -1 for any"),
        _ => wrong(verb, "has two classes: reassign <src> <dst>"),
    }
}

/// What is wrong with what a worker does.
fn wrong_work<'a>(worker: &'a [u8], verb: &'a [u8], words: &[&'a [u8]]) -> Finding<'a> {
    if !is_between(1, MOST_WORKERS, worker) {
        return wrong(worker, "is no worker: it is 1 to 63");
    }
    match words {
        [key, ..] if number(key).is_none() => wrong(key, "is no key: it is a number below 2^64"),
        [_key, count, _base] if is(verb, b"set") && !is_between(0, 4096, count) => {
            wrong(count, "is no count of words: an item has 0 to 4096")
        }
        [_key, _count, base] if is(verb, b"set") => {
            wrong(base, "is no base: it is a number below 2^64")
        }
        _ if is(verb, b"set") => wrong(
            verb,
            "has a key, a count of words and a base: <worker> set <key> <n> <base>",
        ),
        _ => wrong(verb, "has one key, as get, del, hold, drop and touch have"),
    }
}

/// Whether this is one of the words for what a worker does.
fn is_of_worker(word: &[u8]) -> bool {
    is(word, b"set") || is_of_key(word)
}

/// Whether this is one of the words that have a key alone.
fn is_of_key(word: &[u8]) -> bool {
    is(word, b"get")
        || is(word, b"del")
        || is(word, b"hold")
        || is(word, b"drop")
        || is(word, b"touch")
}

/// Whether a word is a number from `low` to `high`.
fn is_between(low: u64, high: u64, word: &[u8]) -> bool {
    number(word).is_some_and(|number| low <= number && number <= high)
}

/// Whether a word is this text.
fn is(word: &[u8], text: &[u8]) -> bool {
    word == text
}

/// Adds what is wrong with the line of this number: a word, and why.
#[tactic(auto, unfolding(crate::specs::Checked::wrong_text))]
pub fn write_wrong(
    number: u64,
    word: &[u8],
    reason: &str,
    text: &mut String,
) -> Result<(), AllocError>
    ensures text { OnOk result (string_bytes text.new ≡ string_bytes text.old
        ++ wrong_text number word.now reason.now) }
{
    write!(text, "line {number}: \"")?;
    write_quoted(word, text)?;
    writeln!(text, "\" {reason}")
}

/// Adds the bytes of a word, each that doesn't print as a question mark.
fn write_quoted(word: &[u8], text: &mut String) -> Result<(), AllocError>
    ensures quoted { OnOk result (string_bytes text.new ≡ string_bytes text.old
        ++ quoted_text word.now) }
{
    for byte in word {
        text.push(printed(*byte))?;
    }
    Ok(())
}

/// The character of a byte, or a question mark where the byte doesn't print.
fn printed(byte: u8) -> char
    ensures byte { result ≡ printed_byte byte }
{
    if byte < 33 || byte > 126 {
        return '?';
    }
    byte as char
}
