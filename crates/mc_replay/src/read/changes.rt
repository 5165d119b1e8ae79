//! The changes before an event, by their names and arguments.
ghost use Rattle.std.specs.Prelude.{◌≡◌, ◌==◌, [], ◌∷◌, map, Some, None, Err, IfOk};
ghost use Rattle.std.specs.List.{slice_split};
ghost use Rattle.mc_script.specs.Words.{line_words};
ghost use Rattle.mc_replay.specs.Changes.{change_of, changes_in, changes_of, found_of, number_change};
ghost use Rattle.mc_script.specs.Forms.{parsed_source};

use super::word::is;
use crate::fault::Refusal;
use mc_core::{Change, Series, StripeChange};
use mc_pages::{ChunkId, Found};
use mc_script::line::words;
use mc_script::number::number;
use std::alloc::{AllocError, Global};

/// All changes of a text, which commas separate.
#[tactic(auto, unfolding(crate::specs::Changes::changes_of))]
pub(super) fn changes(alloc: Global, text: &[u8]) -> Result<Series<Change>, Refusal>
    ensures ok { IfOk result (λ changes. changes_of text.now ≡ Some changes) }
    ensures refused { result ≡ Err Refusal.Form → changes_of text.now ≡ None }
{
    let parts = parts(alloc, text)?;
    changes_in(alloc, &parts)
}

/// The changes that these texts write, if each writes one.
fn changes_in(alloc: Global, parts: &[&[u8]]) -> Result<Series<Change>, Refusal>
    ensures ok { IfOk result (λ changes. changes_in (map (λ part. part.now) parts.now)
        ≡ Some changes) }
    ensures refused { result ≡ Err Refusal.Form →
        changes_in (map (λ part. part.now) parts.now) ≡ None }
{
    let mut changes = Series::new(alloc);
    for part in parts {
        match change_in(alloc, part)? {
            Some(change) => changes.push(change)?,
            None => return Err(Refusal::Form),
        }
    }
    Ok(changes)
}

/// The parts of a text between its commas.
fn parts(alloc: Global, text: &[u8]) -> Result<Vec<&[u8]>, AllocError>
    ensures { IfOk result (λ parts. map (λ part. part.now) parts.items
        ≡ slice_split (λ byte. byte == 44) text.now) }
{
    text.split(|byte| *byte == b',').collect(alloc)
}

/// The change that a text writes, if it writes one.
fn change_in(alloc: Global, text: &[u8]) -> Result<Option<Change>, AllocError>
    ensures { IfOk result (λ found. found ≡ change_of (line_words text.now)) }
{
    let words = words(alloc, text)?;
    Ok(change(&words))
}

/// The change that these words write, if they write one.
#[tactic(auto, unfolding(crate::specs::Changes::change_of))]
fn change(words: &[&[u8]]) -> Option<Change>
    ensures { result ≡ change_of (map (λ word. word.now) words.now) }
{
    match words {
        [name] => bare_change(name),
        [name, one] => change_of_one(name, one),
        [name, one, two] => change_of_two(name, one, two),
        _ => None,
    }
}

/// The change of this name without arguments.
#[tactic(auto, unfolding(crate::specs::Changes::change_of))]
fn bare_change(name: &[u8]) -> Option<Change>
    ensures { result ≡ change_of (name.now ∷ []) }
{
    match name {
        _ if is(name, b"FinishMove") => Some(Change::FinishMove),
        _ if is(name, b"Wrap") => Some(Change::Wrap),
        _ if is(name, b"TrimLedger") => Some(Change::TrimLedger),
        _ => None,
    }
}

/// The change of this name with one argument.
#[tactic(auto, unfolding(crate::specs::Changes::change_of))]
fn change_of_one(name: &[u8], one: &[u8]) -> Option<Change>
    ensures { result ≡ change_of (name.now ∷ one.now ∷ []) }
{
    match name {
        _ if is(name, b"Passed") => Some(Change::Passed(found_of(one)?)),
        _ => number_change(name, number(one)?),
    }
}

/// The change of this name with two arguments.
#[tactic(auto, unfolding(crate::specs::Changes::change_of))]
fn change_of_two(name: &[u8], one: &[u8], two: &[u8]) -> Option<Change>
    ensures { result ≡ change_of (name.now ∷ one.now ∷ two.now ∷ []) }
{
    match name {
        _ if is(name, b"BeginMove") => Some(Change::BeginMove(source(one)?, number(two)?)),
        _ if is(name, b"Touch") => Some(Change::Touch(ChunkId {
            page: number(one)?,
            index: number(two)?,
        })),
        _ => None,
    }
}

/// The change of this name with a class, a mode, a stripe or a key.
#[tactic(auto, unfolding(crate::specs::Changes::number_change))]
fn number_change(name: &[u8], number: u64) -> Option<Change>
    ensures { result ≡ number_change name.now number }
{
    match name {
        _ if is(name, b"Grow") => Some(Change::Grow(number)),
        _ if is(name, b"SetAutomove") => Some(Change::SetAutomove(number)),
        _ if is(name, b"Evicted") => Some(Change::Evicted(number)),
        _ if is(name, b"Reserve") => Some(Change::OfStripe(number, StripeChange::Reserve)),
        _ if is(name, b"Trim") => Some(Change::OfStripe(number, StripeChange::Trim)),
        _ if is(name, b"GotNone") => Some(Change::GotNone(number)),
        _ if is(name, b"DelNone") => Some(Change::DeletedNone(number)),
        _ => None,
    }
}

/// What the mover found, by its name.
#[tactic(auto, unfolding(crate::specs::Changes::found_of))]
fn found_of(name: &[u8]) -> Option<Found>
    ensures { result ≡ found_of name.now }
{
    match name {
        _ if is(name, b"Cleared") => Some(Found::Cleared),
        _ if is(name, b"Rescued") => Some(Found::Rescued),
        _ if is(name, b"Evicted") => Some(Found::Evicted),
        _ if is(name, b"Busy") => Some(Found::Busy),
        _ if is(name, b"Locked") => Some(Found::Locked),
        _ if is(name, b"Already") => Some(Found::Already),
        _ => None,
    }
}

/// The source that a word names: none, where one is to be picked, if it is `-1`, and else its number.
fn source(word: &[u8]) -> Option<Option<u64>>
    ensures { result ≡ parsed_source word.now }
{
    if is(word, b"-1") {
        Some(None)
    } else {
        number(word).map(Some)
    }
}
