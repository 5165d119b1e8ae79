//! Worked lists of events: what each answers, and the headers that are there then.
ghost use Rattle.std.specs.Prelude.{◌≡◌, ◌<◌, ◌≤◌};

use super::assert_same;
use mc_core::{Change, Event, Series, State, Step, Stop, StripeChange, replay};
use mc_memory::{Refused, push, with_capacity};
use mc_pages::{ChunkId, Entry};
use std::alloc::Global;
use std::process::Abort;
use std::test::Fail;
use testlib_hands::drop_state;
use testlib_values::FOUR_CLASSES;

/// The last chunk of page 0 as class 1 cuts it, which is handed out first.
const LAST: ChunkId = ChunkId { page: 0, index: 20 };

/// A key of stripe 3.
const KEY: u64 = 7;

/// The first stamp of hand 0.
const STAMP: u64 = 1;

/// A step of a hand, with nothing changed before.
fn does(alloc: Global, hand: u64, step: Step) -> Event {
    Event {
        hand,
        before: Series::new(alloc),
        step,
    }
}

/// A step of hand 0 after one change.
fn does_after(alloc: Global, change: Change, step: Step) -> Result<Event, Refused> {
    let mut event = does(alloc, 0, step);
    event.before.push(change)?;
    Ok(event)
}

/// Hand 0 takes the slabs lock, and class 1 gets page 0, of which n chunks are cut.
fn cut(alloc: Global, chunks: u64) -> Result<Vec<Event>, Refused> {
    let mut events = Vec::new(alloc);
    push(&mut events, does(alloc, 0, Step::TakeSlabs))?;
    for index in 0..chunks {
        let step = Step::Cut(0, index);
        let event = if index == 0 {
            does_after(alloc, Change::Grow(1), step)?
        } else {
            does(alloc, 0, step)
        };
        push(&mut events, event)?;
    }
    Ok(events)
}

/// More steps of hand 0.
fn go_on(alloc: Global, events: &mut Vec<Event>, steps: &[Step]) -> Result<(), Refused> {
    for step in steps {
        push(events, does(alloc, 0, *step))?;
    }
    Ok(())
}

/// Hand 0 takes the slabs lock, class 1 gets page 0, n chunks of it are cut, and the lock is given.
fn cut_and_given(alloc: Global, chunks: u64) -> Result<Vec<Event>, Refused> {
    let mut events = cut(alloc, chunks)?;
    push(&mut events, does(alloc, 0, Step::GiveSlabs))?;
    Ok(events)
}

/// Plays the events with two hands.
fn play(alloc: Global, events: &[Event]) -> Result<State, Stop> {
    replay(alloc, &FOUR_CLASSES, 2, events)
}

/// The place, from 0, of the first event that isn't allowed.
fn stop_of(alloc: Global, events: &[Event]) -> Option<u64> {
    match play(alloc, events) {
        Err(Stop::NotAllowed(place)) => Some(place),
        Err(_) => None,
        Ok(state) => {
            drop_state(state);
            None
        }
    }
}

/// The event at this place, from 0, is the first that isn't allowed.
fn assert_stops(rt: &impl Abort, alloc: Global, events: &[Event], wanted: u64) {
    let found = stop_of(alloc, events);
    assert_same(rt, found, Some(wanted), "how the events end");
}

/// After the events, the chunk that is handed out first has this header.
fn assert_word(
    rt: &impl Abort,
    alloc: Global,
    events: &[Event],
    wanted: u64,
    what: &str,
) -> Result<(), Stop> {
    let state = play(alloc, events)?;
    let word = state.head(LAST).word();
    drop_state(state);
    assert_same(rt, word, wanted, what);
    Ok(())
}

/// The lock of the slabs is free, and class 1 has page 0.
fn assert_granted(rt: &impl Abort, state: &State) -> Result<(), Fail> {
    let slabs = state.slabs().ok_or("the slabs lock is not free")?;
    assert!(rt;
        slabs.ledger() == [Entry::Granted(0, 1, false)].as_slice(),
        "the ledger"
    );
    Ok(())
}

#[test]
fn a_page_is_cut_whole_before_its_lock_is_given(rt: HostRuntime) -> Result<(), Fail> {
    let whole = cut_and_given(rt.alloc(), 21)?;
    let state = play(rt.alloc(), &whole)?;
    let granted = assert_granted(&rt, &state);
    drop_state(state);
    granted?;
    let short = cut_and_given(rt.alloc(), 20)?;
    assert_stops(&rt, rt.alloc(), &short, 21);
    Ok(())
}

#[test]
fn a_class_without_a_page_hands_out_nothing(rt: HostRuntime) -> Result<(), Fail> {
    let mut events = Vec::new(rt.alloc());
    go_on(rt.alloc(), &mut events, &[Step::TakeSlabs, Step::Pop(1)])?;
    assert_stops(&rt, rt.alloc(), &events, 1);
    Ok(())
}

/// Steps, and the header that each leaves.
const HEADERS: [(Step, u64, &str); 4] = [
    (Step::Pop(1), 393_217, "handed out"),
    (Step::Discard(LAST), 393_216, "dead"),
    (Step::PutBack(LAST), 327_680, "free again"),
    (Step::Pop(1), 655_361, "handed out again"),
];

#[test]
fn a_header_tells_issue_tag_and_count(rt: HostRuntime) -> Result<(), Fail> {
    let mut events = cut(rt.alloc(), 21)?;
    for (step, word, what) in &HEADERS {
        events.push(does(rt.alloc(), 0, *step))?;
        assert_word(&rt, rt.alloc(), &events, *word, what)?;
    }
    Ok(())
}

/// A chunk is handed out and has the words of an item, and the stripe of its key is locked.
const FILLED: [Step; 7] = [
    Step::Pop(1),
    Step::GiveSlabs,
    Step::Fill(LAST, 0, KEY),
    Step::Fill(LAST, 1, STAMP),
    Step::Fill(LAST, 2, 1),
    Step::Fill(LAST, 3, 100),
    Step::TakeStripe(3),
];

/// An item of one word is stored in the chunk that is handed out first.
fn store(alloc: Global) -> Result<Vec<Event>, Refused> {
    let mut events = cut(alloc, 21)?;
    go_on(alloc, &mut events, &FILLED)?;
    push(
        &mut events,
        does_after(
            alloc,
            Change::OfStripe(3, StripeChange::Reserve),
            Step::Link(LAST),
        )?,
    )?;
    Ok(events)
}

/// Each of two hands holds the chunk 255 times.
fn push_holdings(alloc: Global, events: &mut Vec<Event>) -> Result<(), Refused> {
    for hand in 0..2 {
        for _ in 0..255 {
            push(events, does(alloc, hand, Step::Again(LAST, 1)))?;
        }
    }
    Ok(())
}

#[test]
fn the_link_and_each_holding_count(rt: HostRuntime) -> Result<(), Fail> {
    let mut events = store(rt.alloc())?;
    assert_word(
        &rt,
        rt.alloc(),
        &events,
        458_754,
        "linked, and held by its hand",
    )?;
    go_on(
        rt.alloc(),
        &mut events,
        &[Step::GiveStripe(3), Step::Release(LAST)],
    )?;
    assert_word(&rt, rt.alloc(), &events, 458_753, "linked")?;
    push_holdings(rt.alloc(), &mut events)?;
    assert_word(
        &rt,
        rt.alloc(),
        &events,
        459_263,
        "and 255 holdings of each hand",
    )?;
    let again = events.len() as u64;
    events.push(does(rt.alloc(), 1, Step::Again(LAST, 1)))?;
    assert_stops(&rt, rt.alloc(), &events, again);
    Ok(())
}

#[test]
fn a_hint_of_another_issue_is_refused(rt: HostRuntime) -> Result<(), Fail> {
    let mut events = store(rt.alloc())?;
    go_on(rt.alloc(), &mut events, &[Step::GiveStripe(3)])?;
    let again = events.len() as u64;
    events.push(does(rt.alloc(), 0, Step::Again(LAST, 2)))?;
    assert_stops(&rt, rt.alloc(), &events, again);
    Ok(())
}

#[test]
fn a_stop_is_told(rt: HostRuntime) -> Result<(), Fail> {
    let text = Stop::NotAllowed(21).to_string(rt.alloc())?;
    assert_same(&rt, text.as_str(), "event 21 is not allowed", "the first");
    let Err(refused) = with_capacity::<u64>(rt.alloc(), usize::MAX) else {
        return Err(Fail::new("there is no room for so much"));
    };
    let text = Stop::NoMemory(refused).to_string(rt.alloc())?;
    assert_same(&rt, text.as_str(), "out of memory", "the second");
    Ok(())
}
