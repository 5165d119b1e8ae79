//! The answer of a list, and the state after it, line by line.
//!
//! ```text
//! answer Ok | answer NotAllowed PLACE
//! head PAGE INDEX WORD                               where it isn't 0
//! owner PAGE Class CLASS | Pool | Moving SRC DST     not of untouched pages
//! trimmed ledger COUNT                               where it isn't 0: n entries come before those that follow
//! ledger Granted PAGE CLASS GRACE | Taken PAGE CLASS | Began PAGE SRC DST | Ended PAGE CLASS
//! class CLASS free [PAGE.INDEX ..] order [PAGE.INDEX ..] evictions COUNT
//! moving PAGE SRC DST at INDEX busy COUNT            where a page moves
//! totals pool COUNT moved COUNT rescues COUNT nomem COUNT busy COUNT automove MODE
//! index STRIPE KEY PAGE INDEX STAMP                  by rising key
//! trimmed STRIPE COUNT                               where it isn't 0: n calls come before those that follow
//! history STRIPE Set HAND KEY STAMP | Get HAND KEY STAMP-or-none | Delete HAND KEY WAS-THERE | Evict HAND KEY | Rescue HAND KEY
//! end
//! ```
//!
//! The lines from `head` to `history` come after `Ok` alone. Where somebody has the slabs lock, `slabs none` is in place of the
//! lines from `owner` to `totals`. Where somebody has a stripe's lock, `stripe STRIPE none` is in place of the stripe's lines.
ghost use Rattle.std.specs.Prelude.{◌≡◌, ◌++◌, IfOk, OnOk, codes, decimal, string_bytes};
ghost use Rattle.mc_replay.specs.Written.{IsAnswer, free_slabs_text, free_stripe_text, standing_text, stripes_text};

mod heads;
mod slabs;
mod stripes;

use crate::fault::NoMemory;
use crate::list::List;
use mc_core::{State, Stop, replay};
use mc_memory::push_str;
use std::alloc::Global;

/// The answer of the list, the state after it, and the line `end`.
pub fn answer(alloc: Global, list: &List) -> Result<String, NoMemory>
    ensures { IfOk result (λ text. IsAnswer list.now.config list.now.hands list.now.events.items
        (string_bytes text)) }
{
    match replay(alloc, &list.config, list.hands, list.events.as_slice()) {
        Ok(state) => played(alloc, &state, list.config.stripes),
        Err(Stop::NotAllowed(place)) => stop_answer(alloc, place),
        Err(Stop::NoMemory(refused)) => Err(NoMemory::Seen(refused)),
    }
}

/// The answer where all events were played.
fn played(alloc: Global, state: &State, stripes: u64) -> Result<String, NoMemory>
    ensures { IfOk result (λ text. string_bytes text
        ≡ (codes "answer Ok\n" ++ standing_text stripes state.now) ++ codes "end\n") }
{
    let mut text = String::new(alloc);
    push_str(&mut text, "answer Ok\n")?;
    standing(alloc, &mut text, state, stripes)?;
    push_str(&mut text, "end\n")?;
    Ok(text)
}

/// The answer where the event at this place isn't allowed.
fn stop_answer(alloc: Global, place: u64) -> Result<String, NoMemory>
    ensures { IfOk result (λ text. string_bytes text ≡ codes "answer NotAllowed " ++ decimal place
        ++ codes "\nend\n") }
{
    Ok(format!(in alloc; "answer NotAllowed {place}\nend\n")?)
}

/// The text of a state with n stripes.
#[tactic(auto, using(crate::proofs::Ranges::appends_three))]
fn standing(alloc: Global, text: &mut String, state: &State, stripes: u64) -> Result<(), NoMemory>
    ensures { OnOk result (string_bytes text.new ≡ string_bytes text.old
        ++ standing_text stripes state.now) }
{
    heads::heads(text, state)?;
    free_slabs(alloc, text, state)?;
    free_stripes(alloc, text, state, stripes)
}

/// The text of what is behind the slabs lock, if nobody has it.
fn free_slabs(alloc: Global, text: &mut String, state: &State) -> Result<(), NoMemory>
    ensures { OnOk result (string_bytes text.new ≡ string_bytes text.old
        ++ free_slabs_text state.now) }
{
    match state.slabs() {
        Some(value) => slabs::slabs(alloc, text, state.table(), value),
        None => Ok(push_str(text, "slabs none\n")?),
    }
}

/// The text of what is behind the locks of n stripes.
fn free_stripes(
    alloc: Global,
    text: &mut String,
    state: &State,
    stripes: u64,
) -> Result<(), NoMemory>
    ensures { OnOk result (string_bytes text.new ≡ string_bytes text.old
        ++ stripes_text stripes state.now) }
{
    for number in 0..stripes {
        free_stripe(alloc, text, state, number)?;
    }
    Ok(())
}

/// The text of what is behind the lock of a stripe, if nobody has it.
fn free_stripe(alloc: Global, text: &mut String, state: &State, number: u64) -> Result<(), NoMemory>
    ensures { OnOk result (string_bytes text.new ≡ string_bytes text.old
        ++ free_stripe_text state.now number) }
{
    match state.stripe(number) {
        Some(value) => Ok(stripes::stripe(alloc, text, number, value)?),
        None => Ok(writeln!(text, "stripe {number} none")?),
    }
}
