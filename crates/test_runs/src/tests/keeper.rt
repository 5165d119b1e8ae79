//! A keeper, used by its typed calls as an embedding cache would: lists of calls, each with what it is to give.
mod steps;

use crate::{SMALL, small_cache, square, tick};
use mc_classes::{ClassTable, ConfigError};
use mc_keeper::{Ending, HoldError, Keeper, Reassign, Refused, Stored, TooManyRefs};
use std::alloc::Global;
use std::process::Abort;
use std::test::Fail;
use steps::{Step, is_so};

/// A keeper of four pages whose automover is off.
fn small_keeper(alloc: Global) -> Result<Keeper, ConfigError> {
    let table = ClassTable::build(alloc, &SMALL)?;
    let keeper = Keeper::new(alloc, table, SMALL.bulk, 0)?;
    Ok(keeper)
}

/// Each call gives what it is to give.
fn play(rt: &impl Abort, keeper: &mut Keeper, steps: &[Step]) -> Result<(), Refused> {
    for step in steps {
        let so = is_so(keeper, step)?;
        assert!(rt; so, "a call gave something else");
    }
    Ok(())
}

/// Lists of calls, each with how often it is played.
type Lists<'a> = &'a [(usize, &'a [Step])];

fn play_each(rt: &impl Abort, keeper: &mut Keeper, lists: Lists<'_>) -> Result<(), Refused> {
    for (times, steps) in lists {
        for _ in 0..*times {
            play(rt, keeper, steps)?;
        }
    }
    Ok(())
}

/// A new keeper plays these lists. It is dropped by a call, and before the `?`: each place where a keeper goes out of
/// scope takes most of a minute to prove.
fn play_new(rt: &impl Abort, alloc: Global, lists: Lists<'_>) -> Result<(), Fail> {
    let mut keeper = small_keeper(alloc)?;
    let played = play_each(rt, &mut keeper, lists);
    drop(keeper);
    played?;
    Ok(())
}

/// Eight items of 22 words are stored, two a page.
const EIGHT: [Step; 8] = [
    Step::Sets(1, 22, Stored::Yes),
    Step::Sets(2, 22, Stored::Yes),
    Step::Sets(3, 22, Stored::Yes),
    Step::Sets(4, 22, Stored::Yes),
    Step::Sets(5, 22, Stored::Yes),
    Step::Sets(6, 22, Stored::Yes),
    Step::Sets(7, 22, Stored::Yes),
    Step::Sets(8, 22, Stored::Yes),
];

/// The eight are stored, and then come these calls.
fn play_behind_eight(rt: &impl Abort, alloc: Global, steps: &[Step]) -> Result<(), Fail> {
    play_new(rt, alloc, &[(1, &EIGHT), (1, steps)])
}

/// What is held stays as it was when it was held, and its words are lent when it is dropped.
const HELD: [Step; 17] = [
    Step::Sets(5, 3, Stored::Yes),
    Step::Holds(2, 5, Ok(true)),
    Step::Sets(5, 1, Stored::Yes),
    Step::Gets(1, 5, Ok(Some(1))),
    Step::Reads(2, 5, Some(3)),
    Step::Reads(1, 5, None),
    Step::Drops(2, 5, Some(3)),
    Step::Drops(2, 5, None),
    Step::Touches(5, true),
    Step::Deletes(5, true),
    Step::Deletes(5, false),
    Step::Touches(5, false),
    Step::Holds(2, 5, Ok(false)),
    Step::Gets(1, 5, Ok(None)),
    Step::Has(3, 1, 19),
    Step::Sweeps,
    Step::Has(3, 1, 21),
];

/// A page moves once what is held on it is dropped.
const MOVED: [Step; 12] = [
    Step::Holds(1, 1, Ok(true)),
    Step::Reassigns(Some(4), 4, Err(Reassign::Same)),
    Step::Reassigns(Some(4), 1, Ok(())),
    Step::Reassigns(None, 1, Err(Reassign::Busy)),
    Step::Moves(true),
    Step::Turns(Ending::Went, 1, 1, 1),
    Step::Drops(1, 1, Some(22)),
    Step::Turns(Ending::Finished, 1, 1, 0),
    Step::Turns(Ending::Idle, 0, 0, 0),
    Step::Has(22, 3, 0),
    Step::Has(1, 1, 21),
    Step::Moved(1, 2, 1),
];

/// A class with many free chunks gives a page to the pool, in mode 1.
const ACTED_ON: [Step; 14] = [
    Step::Deletes(1, true),
    Step::Deletes(2, true),
    Step::Deletes(3, true),
    Step::Deletes(4, true),
    Step::Deletes(5, true),
    Step::Deletes(6, true),
    Step::Deletes(7, true),
    Step::Deletes(8, true),
    Step::Windows(None),
    Step::Modes(1),
    Step::Windows(Some((4, 0))),
    Step::Turns(Ending::Finished, 2, 0, 0),
    Step::Has(22, 3, 6),
    Step::Moved(1, 0, 0),
];

/// All candidates for an eviction are held, so there is no room for a ninth item.
const FULL: [Step; 7] = [
    Step::Sets(1, 62, Stored::TooLarge),
    Step::Holds(1, 1, Ok(true)),
    Step::Holds(1, 2, Ok(true)),
    Step::Holds(1, 3, Ok(true)),
    Step::Holds(1, 4, Ok(true)),
    Step::Holds(1, 5, Ok(true)),
    Step::Sets(9, 22, Stored::NoRoom),
];

#[test]
fn a_held_item_outlives_its_key(rt: HostRuntime) -> Result<(), Fail> {
    play_new(&rt, rt.alloc(), &[(1, &HELD)])
}

#[test]
fn a_page_moves(rt: HostRuntime) -> Result<(), Fail> {
    play_behind_eight(&rt, rt.alloc(), &MOVED)
}

#[test]
fn windows_are_acted_on(rt: HostRuntime) -> Result<(), Fail> {
    play_behind_eight(&rt, rt.alloc(), &ACTED_ON)
}

#[test]
fn what_is_held_leaves_no_room(rt: HostRuntime) -> Result<(), Fail> {
    play_behind_eight(&rt, rt.alloc(), &FULL)
}

const ONE: [Step; 1] = [Step::Sets(6, 1, Stored::Yes)];

const HELD_AGAIN: [Step; 1] = [Step::Holds(3, 6, Ok(true))];

/// A hold and a get are refused, whatever the key.
const HOLDS_NO_MORE: [Step; 2] = [
    Step::Holds(3, 7, Err(HoldError::TooManyRefs)),
    Step::Gets(3, 7, Err(TooManyRefs)),
];

/// A worker with 255 holds gets no other.
#[test]
fn a_worker_has_255_holds(rt: HostRuntime) -> Result<(), Fail> {
    play_new(
        &rt,
        rt.alloc(),
        &[(1, &ONE), (255, &HELD_AGAIN), (1, &HOLDS_NO_MORE)],
    )
}

/// Whether the square is right, and comes out the same again.
fn is_kept(cache: &mut Keeper, key: u64) -> Result<bool, Refused> {
    if key >= 100 {
        return Ok(false);
    }
    let first = square(cache, key)?;
    let again = square(cache, key)?;
    Ok(first == key * key && again == first)
}

/// A square is found again, it is all that is stored, and an unused cache ticks.
fn keeps_and_ticks(cache: &mut Keeper) -> Result<bool, Refused> {
    let kept = is_kept(cache, 12)?;
    let stands = is_so(cache, &Step::Has(1, 1, 20))?;
    let ticked = tick(cache).is_ok();
    Ok(kept && stands && ticked)
}

/// What was reckoned is found again, and the cache ticks.
#[test]
fn squares_are_kept(rt: HostRuntime) -> Result<(), Fail> {
    let mut cache = small_cache(rt.alloc())?;
    let found = keeps_and_ticks(&mut cache);
    drop(cache);
    assert!(rt; found?, "the cache");
    Ok(())
}
