//! The forms of a command: a function for each kind of words.
ghost use Rattle.std.specs.Prelude.{◌≡◌, [], ◌∷◌, codes, map};
ghost use Rattle.std.specs.Str.{bytes_eq};
ghost use Rattle.mc_script.specs.Forms.{bare_of, command_of, key_command_of, on_key_of, reassign_of, set_of, parsed_source, with_number_of, parsed_worker};

use crate::command::Command;
use crate::number::{number, number_between};
use mc_classes::MOST_WORKERS;

/// The most words of an item (own).
const MAX_WORDS: u64 = 4096;

/// The highest mode of the automover, as in memcached's `slabs automove`.
const MAX_MODE: u64 = 2;

/// The most turns of a line (own).
const MAX_TURNS: u64 = 1_000_000;

/// The command that these words write, if they have one of the forms.
#[tactic(auto, unfolding(crate::specs::Forms::command_of))]
pub(crate) fn command(words: &[&[u8]]) -> Option<Command>
    ensures { result ≡ command_of (map (λ word. word.now) words.now) }
{
    set(words)
        .or_else(|| on_key(words))
        .or_else(|| reassign(words))
        .or_else(|| with_number(words))
        .or_else(|| bare(words))
}

/// `<worker> set <key> <n> <base>`
#[tactic(auto, unfolding(crate::specs::Forms::set_of))]
fn set(words: &[&[u8]]) -> Option<Command>
    ensures { result ≡ set_of (map (λ word. word.now) words.now) }
{
    match words {
        [worker, verb, key, words, base] if is(verb, b"set") => {
            set_command(worker, key, words, base)
        }
        _ => None,
    }
}

/// What the words of a set write: the worker, the key, the number of words, and the base.
#[tactic(auto, unfolding(crate::specs::Forms::set_of))]
fn set_command(worker: &[u8], key: &[u8], words: &[u8], base: &[u8]) -> Option<Command>
    ensures { result ≡ set_of (worker.now ∷ codes "set" ∷ key.now ∷ words.now ∷ base.now ∷ []) }
{
    Some(Command::Set {
        worker: worker_number(worker)?,
        key: number(key)?,
        words: number_between(0, MAX_WORDS, words)?,
        base: number(base)?,
    })
}

/// `<worker> <verb> <key>`
#[tactic(auto, unfolding(crate::specs::Forms::on_key_of))]
fn on_key(words: &[&[u8]]) -> Option<Command>
    ensures { result ≡ on_key_of (map (λ word. word.now) words.now) }
{
    match words {
        [worker, verb, key] => key_command(verb, worker_number(worker)?, number(key)?),
        _ => None,
    }
}

/// What a verb asks for by a worker on a key.
#[tactic(auto, unfolding(crate::specs::Forms::key_command_of))]
fn key_command(verb: &[u8], worker: u64, key: u64) -> Option<Command>
    ensures { result ≡ key_command_of verb.now worker key }
{
    match verb {
        _ if is(verb, b"del") => Some(Command::Delete { worker, key }),
        _ if is(verb, b"get") => Some(Command::Get { worker, key }),
        _ if is(verb, b"hold") => Some(Command::Hold { worker, key }),
        _ if is(verb, b"drop") => Some(Command::Drop { worker, key }),
        _ if is(verb, b"touch") => Some(Command::Touch { worker, key }),
        _ => None,
    }
}

/// `reassign <src> <dst>`
#[tactic(auto, unfolding(crate::specs::Forms::reassign_of))]
fn reassign(words: &[&[u8]]) -> Option<Command>
    ensures { result ≡ reassign_of (map (λ word. word.now) words.now) }
{
    match words {
        [verb, src, dst] if is(verb, b"reassign") => Some(Command::Reassign {
            src: source(src)?,
            dst: number(dst)?,
        }),
        _ => None,
    }
}

/// `automove <m>` or `turn <n>`
#[tactic(auto, unfolding(crate::specs::Forms::with_number_of))]
fn with_number(words: &[&[u8]]) -> Option<Command>
    ensures { result ≡ with_number_of (map (λ word. word.now) words.now) }
{
    match words {
        [verb, mode] if is(verb, b"automove") => Some(Command::Automove {
            mode: number_between(0, MAX_MODE, mode)?,
        }),
        [verb, turns] if is(verb, b"turn") => Some(Command::Turn {
            turns: number_between(1, MAX_TURNS, turns)?,
        }),
        _ => None,
    }
}

/// `window`, `stats` or `stats slabs`
#[tactic(auto, unfolding(crate::specs::Forms::bare_of))]
fn bare(words: &[&[u8]]) -> Option<Command>
    ensures { result ≡ bare_of (map (λ word. word.now) words.now) }
{
    match words {
        [verb] if is(verb, b"window") => Some(Command::Window),
        [verb] if is(verb, b"stats") => Some(Command::Stats),
        [verb, what] if is(verb, b"stats") && is(what, b"slabs") => Some(Command::StatsSlabs),
        _ => None,
    }
}

/// The source that a word names: none if it is `-1`, and else its number.
fn source(word: &[u8]) -> Option<Option<u64>>
    ensures { result ≡ parsed_source word.now }
{
    if is(word, b"-1") {
        Some(None)
    } else {
        number(word).map(Some)
    }
}

/// The worker that a word names.
fn worker_number(word: &[u8]) -> Option<u64>
    ensures { result ≡ parsed_worker word.now }
{
    number_between(1, MOST_WORKERS, word)
}

/// Whether a word is this text.
fn is(word: &[u8], text: &[u8]) -> bool
    ensures { result ≡ bytes_eq word.now text.now }
{
    word == text
}
