//! The steps of events, by their names and arguments.
ghost use Rattle.std.specs.Prelude.{◌≡◌, [], ◌∷◌, map};
ghost use Rattle.mc_replay.specs.Steps.{bare_step, chunk_step, number_step, place_step, step_of};

use super::word::is;
use mc_core::Step;
use mc_pages::ChunkId;
use mc_script::number::number;

/// The step of this name with these arguments, if there is one.
#[tactic(auto, unfolding(crate::specs::Steps::step_of))]
pub(super) fn step(name: &[u8], arguments: &[&[u8]]) -> Option<Step>
    ensures { result ≡ step_of name.now (map (λ word. word.now) arguments.now) }
{
    match arguments {
        [] => bare_step(name),
        [one] => number_step(name, number(one)?),
        [page, index] => step_of_two(name, page, index),
        [page, index, place] => step_of_three(name, page, index, place),
        [page, index, place, word] => step_of_four(name, page, index, place, word),
        _ => None,
    }
}

/// The step of this name with these two arguments.
#[tactic(auto, unfolding(crate::specs::Steps::step_of))]
fn step_of_two(name: &[u8], page: &[u8], index: &[u8]) -> Option<Step>
    ensures { result ≡ step_of name.now (page.now ∷ index.now ∷ []) }
{
    chunk_step(name, number(page)?, number(index)?)
}

/// The step of this name with these three arguments.
#[tactic(auto, unfolding(crate::specs::Steps::step_of))]
fn step_of_three(name: &[u8], page: &[u8], index: &[u8], place: &[u8]) -> Option<Step>
    ensures { result ≡ step_of name.now (page.now ∷ index.now ∷ place.now ∷ []) }
{
    place_step(name, number(page)?, number(index)?, number(place)?)
}

/// The step of this name with these four arguments.
#[tactic(auto, unfolding(crate::specs::Steps::step_of))]
fn step_of_four(name: &[u8], page: &[u8], index: &[u8], place: &[u8], word: &[u8]) -> Option<Step>
    ensures { result ≡ step_of name.now (page.now ∷ index.now ∷ place.now ∷ word.now ∷ []) }
{
    match name {
        _ if is(name, b"Fill") => Some(Step::Fill(
            ChunkId {
                page: number(page)?,
                index: number(index)?,
            },
            number(place)?,
            number(word)?,
        )),
        _ => None,
    }
}

/// The step of this name without arguments.
#[tactic(auto, unfolding(crate::specs::Steps::bare_step))]
fn bare_step(name: &[u8]) -> Option<Step>
    ensures { result ≡ bare_step name.now }
{
    match name {
        _ if is(name, b"TakeSlabs") => Some(Step::TakeSlabs),
        _ if is(name, b"MissSlabs") => Some(Step::MissSlabs),
        _ if is(name, b"GiveSlabs") => Some(Step::GiveSlabs),
        _ => None,
    }
}

/// The step of this name on a stripe, a class or a key.
#[tactic(auto, unfolding(crate::specs::Steps::number_step))]
fn number_step(name: &[u8], number: u64) -> Option<Step>
    ensures { result ≡ number_step name.now number }
{
    match name {
        _ if is(name, b"TakeStripe") => Some(Step::TakeStripe(number)),
        _ if is(name, b"MissStripe") => Some(Step::MissStripe(number)),
        _ if is(name, b"GiveStripe") => Some(Step::GiveStripe(number)),
        _ if is(name, b"Pop") => Some(Step::Pop(number)),
        _ if is(name, b"Refer") => Some(Step::Refer(number)),
        _ if is(name, b"Unlink") => Some(Step::Unlink(number)),
        _ => None,
    }
}

/// The step of this name on a chunk, or a join of two hands.
#[tactic(auto, unfolding(crate::specs::Steps::chunk_step))]
fn chunk_step(name: &[u8], page: u64, index: u64) -> Option<Step>
    ensures { result ≡ chunk_step name.now page index }
{
    let chunk = ChunkId { page, index };
    match name {
        _ if is(name, b"Head") => Some(Step::Head(chunk)),
        _ if is(name, b"PopOff") => Some(Step::PopOff(chunk)),
        _ if is(name, b"Link") => Some(Step::Link(chunk)),
        _ if is(name, b"Release") => Some(Step::Release(chunk)),
        _ if is(name, b"Discard") => Some(Step::Discard(chunk)),
        _ if is(name, b"Condemn") => Some(Step::Condemn(chunk)),
        _ if is(name, b"PutBack") => Some(Step::PutBack(chunk)),
        _ if is(name, b"Clear") => Some(Step::Clear(chunk)),
        _ if is(name, b"Cut") => Some(Step::Cut(page, index)),
        _ if is(name, b"Join") => Some(Step::Join(page, index)),
        _ => None,
    }
}

/// The step of this name on a chunk, with a place in it or an issue number.
#[tactic(auto, unfolding(crate::specs::Steps::place_step))]
fn place_step(name: &[u8], page: u64, index: u64, place: u64) -> Option<Step>
    ensures { result ≡ place_step name.now page index place }
{
    let chunk = ChunkId { page, index };
    match name {
        _ if is(name, b"Word") => Some(Step::Word(chunk, place)),
        _ if is(name, b"WordHeld") => Some(Step::WordHeld(chunk, place)),
        _ if is(name, b"Again") => Some(Step::Again(chunk, place)),
        _ => None,
    }
}
