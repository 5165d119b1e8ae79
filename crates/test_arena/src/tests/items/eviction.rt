//! Which item is evicted: the oldest candidate that nobody holds.
use super::MOST_WORDS;
use super::steps::Step;
use mc_items::SetError;
use mc_pages::EVICTION_TRIES;
use std::alloc::Global;
use std::sync::Wait;
use std::test::Fail;
use testlib_hands::{FOUR_CLASSES, GETTERS, Getter, drop_two, opened_two, play_all, run};

/// Eight items, which are all that there is room for.
const EIGHT: Step = Step::Sets(1, 9, 0, MOST_WORDS);

/// A ninth item.
const NINTH: Step = Step::Sets(9, 10, 0, MOST_WORDS);

/// The key of the last item that an eviction looks at.
const LAST_CANDIDATE: u64 = EVICTION_TRIES;

/// The key of the oldest item that it doesn't look at.
const YOUNGER: u64 = EVICTION_TRIES + 1;

#[test]
fn a_touched_item_is_not_the_oldest(rt: HostRuntime) -> Result<(), Fail> {
    for getter in GETTERS {
        let steps = [
            EIGHT,
            Step::Touches(1),
            NINTH,
            Step::Finds(getter, 1, 2, true),
            Step::Finds(getter, 2, 3, false),
            Step::Finds(getter, 3, 10, true),
        ];
        run(&rt, rt.alloc(), &FOUR_CLASSES, &steps)?;
    }
    Ok(())
}

/// A ninth item where eight have room, while another hand holds the first few: what the lookups give then.
fn store_ninth<R: Wait>(rt: &R, alloc: Global, held: Step, behind: &[Step]) -> Result<(), Fail> {
    let mut two = opened_two(alloc, &FOUR_CLASSES)?;
    let stored = play_all(rt, alloc, &two.arena, &mut two.hand, &[EIGHT]);
    let held = play_all(rt, alloc, &two.arena, &mut two.other, &[held]);
    let played = play_all(rt, alloc, &two.arena, &mut two.hand, behind);
    drop_two(two);
    stored?;
    held?;
    played?;
    Ok(())
}

#[test]
fn held_items_are_passed_over(rt: HostRuntime) -> Result<(), Fail> {
    for getter in GETTERS {
        let behind = [
            NINTH,
            Step::Finds(getter, 1, LAST_CANDIDATE, true),
            Step::Finds(getter, LAST_CANDIDATE, YOUNGER, false),
            Step::Finds(getter, YOUNGER, 10, true),
        ];
        store_ninth(&rt, rt.alloc(), Step::Holds(1, LAST_CANDIDATE), &behind)?;
    }
    Ok(())
}

#[test]
fn held_candidates_leave_no_room(rt: HostRuntime) -> Result<(), Fail> {
    let behind = [
        Step::Refuses(9, MOST_WORDS, SetError::NoRoom),
        Step::Finds(Getter::Get, 1, 9, true),
    ];
    store_ninth(&rt, rt.alloc(), Step::Holds(1, YOUNGER), &behind)
}
