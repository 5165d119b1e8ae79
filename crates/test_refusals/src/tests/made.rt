//! Arenas and states of the model whose making is refused memory.
use super::assert_same;
use super::calls::{Answer, Call};
use super::opening::{drop_three, opened_from};
use super::steps::{Step as CallStep, play_all};
use mc_core::{Change, Event, Series, State, Step, Stop, StripeChange, replay};
use mc_memory::{Refused, push};
use mc_pages::ChunkId;
use std::alloc::Global;
use std::test::Fail;
use testlib_hands::drop_state;
use testlib_values::{FOUR_CLASSES, print_call, print_done, print_refused};

/// The greatest issue number but one.
const WORN: u64 = 70_368_744_177_662;

/// The chunk of class 1 that is handed out first.
const LAST: ChunkId = ChunkId { page: 0, index: 20 };

/// Two items are stored, each in a chunk that is then worn out, and a third finds none. The keys are one stripe's, and the first of them makes room for all
/// calls.
const ON_WORN: [CallStep; 5] = [
    (Call::Set(1, 61), Answer::Done),
    (Call::Delete(1), Answer::There(true)),
    (Call::Set(5, 61), Answer::Done),
    (Call::Delete(5), Answer::There(true)),
    (Call::Set(9, 61), Answer::Refused),
];

#[test]
fn an_arena_is_made_of_worn_chunks(rt: HostRuntime) -> Result<(), Fail> {
    let mut all = opened_from(&rt, rt.alloc(), &FOUR_CLASSES, Some(WORN))?;
    play_all(&rt, &mut all, &ON_WORN);
    drop_three(all);
    Ok(())
}

/// Adds a step of hand 0, behind a change, if there is one.
fn add(
    events: &mut Vec<Event>,
    alloc: Global,
    change: Option<Change>,
    step: Step,
) -> Result<(), Refused> {
    let mut before = Series::new(alloc);
    if let Some(change) = change {
        before.push(change)?;
    }
    let event = Event {
        hand: 0,
        before,
        step,
    };
    push(events, event)
}

/// A chunk is handed out and has the words of an item, and the stripe of its key is locked.
const FILLED: [Step; 7] = [
    Step::Pop(1),
    Step::GiveSlabs,
    Step::Fill(LAST, 0, 7),
    Step::Fill(LAST, 1, 1),
    Step::Fill(LAST, 2, 1),
    Step::Fill(LAST, 3, 100),
    Step::TakeStripe(3),
];

/// Class 1 gets a page, all of whose chunks are cut, and hands one out. An item is stored there.
fn events(alloc: Global) -> Result<Vec<Event>, Refused> {
    let mut events = Vec::new(alloc);
    add(&mut events, alloc, None, Step::TakeSlabs)?;
    add(&mut events, alloc, Some(Change::Grow(1)), Step::Cut(0, 0))?;
    for index in 1..21 {
        add(&mut events, alloc, None, Step::Cut(0, index))?;
    }
    for step in &FILLED {
        add(&mut events, alloc, None, *step)?;
    }
    let reserve = Some(Change::OfStripe(3, StripeChange::Reserve));
    add(&mut events, alloc, reserve, Step::Link(LAST))?;
    add(&mut events, alloc, None, Step::GiveStripe(3))?;
    Ok(events)
}

/// Plays the events, and once more where that is refused memory.
fn play<R: Print>(rt: &R, alloc: Global, events: &[Event]) -> Result<State, Stop> {
    print_call(rt, "replay");
    match replay(alloc, &FOUR_CLASSES, 2, events) {
        Ok(state) => {
            print_done(rt, "replay");
            Ok(state)
        }
        Err(Stop::NotAllowed(place)) => {
            print_done(rt, "replay");
            Err(Stop::NotAllowed(place))
        }
        Err(Stop::NoMemory(_refused)) => {
            print_refused(rt, "replay");
            replay(alloc, &FOUR_CLASSES, 2, events)
        }
    }
}

/// The stamp under which the state's stripe 3 has key 7.
fn stamp_in(state: &State) -> Option<u64> {
    let (_, stamp) = state.stripe(3)?.find(7)?;
    Some(stamp)
}

#[test]
fn events_are_played_again(rt: HostRuntime) -> Result<(), Fail> {
    let events = match events(rt.alloc()) {
        Ok(events) => events,
        Err(_) => events(rt.alloc())?,
    };
    let state = play(&rt, rt.alloc(), &events)?;
    let head = state.head(LAST).word();
    let stamp = stamp_in(&state);
    drop_state(state);
    assert_same(&rt, head, 458_754, "linked, and held by its hand");
    assert_same(&rt, stamp, Some(1), "the key's stamp");
    Ok(())
}
