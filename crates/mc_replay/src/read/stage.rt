//! How far a list was read, line by line.
ghost use Rattle.std.specs.Prelude.{◌≡◌, None, map};
ghost use Rattle.mc_replay.specs.Heads.{written_config, four_of, written_hands, last_four_of};

use super::events::event;
use super::word::is;
use crate::fault::Refusal;
use crate::list::{Accepted, List};
use mc_classes::{ClassTable, Config, ConfigError, MOST_HANDS};
use mc_memory::push;
use mc_script::line::words;
use mc_script::number::number;
use std::alloc::{AllocError, Global};

/// How far the reading is.
#[derive(Drop)]
pub enum Stage<'a> {
    /// No list is begun.
    Outside,
    /// The first line of a list was read: this one.
    Named(&'a [u8]),
    /// The configuration was read too.
    Configured(&'a [u8], Accepted),
    /// The hands were read too, and some events.
    Begun(List<'a>),
    /// All events were read, and the rest is passed over.
    Answered(List<'a>),
    /// The list has ended.
    Ended(List<'a>),
}

impl<'a> Stage<'a> {
    /// How far the reading is after one more line, which isn't skipped.
    pub fn after(self, alloc: Global, line: &'a [u8]) -> Result<Stage<'a>, Refusal> {
        match self {
            Stage::Outside | Stage::Ended(_) => named(alloc, line),
            Stage::Named(name) => Ok(Stage::Configured(name, accepted(alloc, line)?)),
            Stage::Configured(name, accepted) => begun(alloc, name, accepted, line),
            Stage::Begun(list) => more(alloc, list, line),
            Stage::Answered(list) => passed(alloc, list, line),
        }
    }
}

/// Whether the line begins with this word.
fn begins(alloc: Global, line: &[u8], verb: &[u8]) -> Result<bool, AllocError> {
    let words = words(alloc, line)?;
    Ok(words.first().is_some_and(|word| is(word, verb)))
}

/// A list begins.
fn named<'a>(alloc: Global, line: &'a [u8]) -> Result<Stage<'a>, Refusal> {
    if begins(alloc, line, b"list")? {
        Ok(Stage::Named(line))
    } else {
        Err(Refusal::Form)
    }
}

/// The configuration of a line, if it isn't refused.
fn accepted(alloc: Global, line: &[u8]) -> Result<Accepted, Refusal> {
    let words = words(alloc, line)?;
    let Some(config) = config(&words) else {
        return Err(Refusal::Form);
    };
    match ClassTable::build(alloc, &config) {
        Ok(_) => Ok(Accepted { config }),
        Err(ConfigError::NoMemory(refused)) => Err(Refusal::from(refused)),
        Err(error) => Err(Refusal::Config(error)),
    }
}

/// The configuration that these words write, if they write one.
#[tactic(auto, unfolding(crate::specs::Heads::written_config))]
fn config(words: &[&[u8]]) -> Option<Config>
    ensures { result ≡ written_config (map (λ word. word.now) words.now) }
{
    match words {
        [verb, page, limit, first, num, others @ ..] if is(verb, b"config") => {
            let (page, limit, first, num) = four(page, limit, first, num)?;
            let (den, max, stripes, bulk) = last_four(others)?;
            Some(Config {
                page,
                limit,
                first,
                num,
                den,
                max,
                stripes,
                bulk,
            })
        }
        _ => None,
    }
}

/// The four numbers that these words write, if they are four and write numbers.
#[tactic(auto, unfolding(crate::specs::Heads::last_four_of))]
fn last_four(words: &[&[u8]]) -> Option<(u64, u64, u64, u64)>
    ensures { result ≡ last_four_of (map (λ word. word.now) words.now) }
{
    match words {
        [a, b, c, d] => four(a, b, c, d),
        _ => None,
    }
}

/// The four numbers that these words write.
#[tactic(auto, unfolding(crate::specs::Heads::four_of))]
fn four(a: &[u8], b: &[u8], c: &[u8], d: &[u8]) -> Option<(u64, u64, u64, u64)>
    ensures { result ≡ four_of a.now b.now c.now d.now }
{
    Some((number(a)?, number(b)?, number(c)?, number(d)?))
}

/// The list with its hands, and no event yet.
fn begun<'a>(
    alloc: Global,
    name: &'a [u8],
    accepted: Accepted,
    line: &[u8],
) -> Result<Stage<'a>, Refusal> {
    let words = words(alloc, line)?;
    let Some(hands) = hands(&words) else {
        return Err(Refusal::Form);
    };
    if !(1..=MOST_HANDS).contains(&hands) {
        return Err(Refusal::Hands);
    }
    Ok(Stage::Begun(List {
        name,
        config: accepted.config,
        hands,
        events: Vec::new(alloc),
    }))
}

/// The number of hands that these words write, if they write one.
#[tactic(auto, unfolding(crate::specs::Heads::written_hands))]
fn hands(words: &[&[u8]]) -> Option<u64>
    ensures { result ≡ written_hands (map (λ word. word.now) words.now) }
{
    match words {
        [verb, hands] if is(verb, b"hands") => number(hands),
        _ => None,
    }
}

/// One more event, or the line behind the last.
fn more<'a>(alloc: Global, mut list: List<'a>, line: &[u8]) -> Result<Stage<'a>, Refusal> {
    if begins(alloc, line, b"answer")? {
        return Ok(Stage::Answered(list));
    }
    let event = event(alloc, line)?;
    push(&mut list.events, event)?;
    Ok(Stage::Begun(list))
}

/// A line that is passed over, or the end of the list.
fn passed<'a>(alloc: Global, list: List<'a>, line: &[u8]) -> Result<Stage<'a>, Refusal> {
    if begins(alloc, line, b"end")? {
        Ok(Stage::Ended(list))
    } else {
        Ok(Stage::Answered(list))
    }
}
