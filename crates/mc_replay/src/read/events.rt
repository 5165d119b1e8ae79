//! The line of an event.
ghost use Rattle.std.specs.Prelude.{◌≡◌, ◌==◌, map, position, Some, None, Err, IfOk};
ghost use Rattle.mc_script.specs.Words.{line_words};
ghost use Rattle.mc_replay.specs.Events.{deed_of, event_after, written_event};

use super::changes::changes;
use super::steps::step;
use super::word::is;
use crate::fault::Refusal;
use mc_core::{Change, Event, Series, Step};
use mc_script::line::words;
use mc_script::number::number;
use std::alloc::Global;

/// The event that a line writes.
#[tactic(auto, unfolding(crate::specs::Events::written_event))]
pub(super) fn event(alloc: Global, line: &[u8]) -> Result<Event, Refusal>
    ensures ok { IfOk result (λ event. written_event line.now ≡ Some event) }
    ensures refused { result ≡ Err Refusal.Form → written_event line.now ≡ None }
{
    match colon_in(line) {
        Some(colon) => {
            let before = changes(alloc, &line[colon + 1..])?;
            event_after(alloc, &line[..colon], before)
        }
        None => event_after(alloc, line, Series::new(alloc)),
    }
}

/// The place of the first colon.
fn colon_in(line: &[u8]) -> Option<usize>
    ensures { result ≡ position (λ byte. byte == 58) line.now }
{
    line.iter().position(|byte| *byte == b':')
}

/// The event that a text writes, with the changes before it.
#[tactic(auto, unfolding(crate::specs::Events::event_after))]
fn event_after(alloc: Global, text: &[u8], before: Series<Change>) -> Result<Event, Refusal>
    ensures ok { IfOk result (λ event. event_after before (deed_of (line_words text.now))
        ≡ Some event) }
    ensures refused { result ≡ Err Refusal.Form →
        event_after before (deed_of (line_words text.now)) ≡ None }
{
    let words = words(alloc, text)?;
    match deed(&words) {
        Some((hand, step)) => Ok(Event { hand, before, step }),
        None => Err(Refusal::Form),
    }
}

/// The hand and the step that these words write, if they write an event.
#[tactic(auto, unfolding(crate::specs::Events::deed_of))]
fn deed(words: &[&[u8]]) -> Option<(u64, Step)>
    ensures { result ≡ deed_of (map (λ word. word.now) words.now) }
{
    match words {
        [verb, hand, name, arguments @ ..] if is(verb, b"e") => {
            Some((number(hand)?, step(name, arguments)?))
        }
        _ => None,
    }
}
