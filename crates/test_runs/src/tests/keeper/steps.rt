//! A call with what it is to give. Each is in a function of its own that promises nothing, so that a list of calls is checked fast.
use mc_keeper::{
    Counts, Decision, Ending, HoldError, Keeper, Numbers, Reassign, Refused, Stored, TooManyRefs,
};

/// A call, and what it is to give. An item of n words has n as each word.
#[derive(Drop)]
pub(super) enum Step {
    /// The key and how many words.
    Sets(u64, usize, Stored),
    /// The worker, the key, and how many words are lent.
    Gets(u64, u64, Result<Option<usize>, TooManyRefs>),
    Holds(u64, u64, Result<bool, HoldError>),
    Reads(u64, u64, Option<usize>),
    Drops(u64, u64, Option<usize>),
    Deletes(u64, bool),
    Touches(u64, bool),
    Reassigns(Option<u64>, u64, Result<(), Reassign>),
    /// The automover's mode is set, and a survey has it.
    Modes(u64),
    /// A page begins to move from a class to another, or none does.
    Windows(Option<(u64, u64)>),
    /// A turn ends so and counts these numbers: cleared, evicted, busy.
    Turns(Ending, u64, u64, u64),
    /// The dead are put back.
    Sweeps,
    /// Whether a page is on the move.
    Moves(bool),
    /// The class of items of n words has these pages and free chunks.
    Has(u64, u64, u64),
    /// This many moves ended, evicted items, and were held up.
    Moved(u64, u64, u64),
}

/// Whether n words were lent, each of them n.
fn is_lent(found: Option<&[u64]>, wanted: Option<usize>) -> bool {
    match (found, wanted) {
        (Some(words), Some(count)) => {
            words.len() == count && words.iter().all(|word| *word == count as u64)
        }
        (None, None) => true,
        _ => false,
    }
}

fn sets(keeper: &mut Keeper, key: u64, count: usize, wanted: Stored) -> Result<bool, Refused> {
    let words = [count as u64; 64];
    match words.get(..count) {
        Some(words) => Ok(keeper.set(1, key, words)? == wanted),
        None => Ok(false),
    }
}

fn gets(
    keeper: &Keeper,
    worker: u64,
    key: u64,
    wanted: Result<Option<usize>, TooManyRefs>,
) -> bool {
    if worker >= 64 {
        return false;
    }
    match (keeper.get(worker, key), wanted) {
        (Ok(found), Ok(wanted)) => is_lent(found, wanted),
        (Err(TooManyRefs), Err(TooManyRefs)) => true,
        _ => false,
    }
}

fn holds(keeper: &mut Keeper, worker: u64, key: u64, wanted: &Result<bool, HoldError>) -> bool {
    worker < 64 && keeper.hold(worker, key) == *wanted
}

fn reads(keeper: &Keeper, worker: u64, key: u64, wanted: Option<usize>) -> bool {
    worker < 64 && is_lent(keeper.held_words(worker, key), wanted)
}

fn drops(keeper: &mut Keeper, worker: u64, key: u64, wanted: Option<usize>) -> bool {
    worker < 64 && is_lent(keeper.drop(worker, key), wanted)
}

fn deletes(keeper: &mut Keeper, key: u64, wanted: bool) -> bool {
    keeper.delete(1, key) == wanted
}

fn touches(keeper: &mut Keeper, key: u64, wanted: bool) -> bool {
    keeper.touch(1, key) == wanted
}

fn reassigns(
    keeper: &mut Keeper,
    src: Option<u64>,
    dst: u64,
    wanted: &Result<(), Reassign>,
) -> bool {
    keeper.reassign(src, dst) == *wanted
}

fn modes(keeper: &mut Keeper, mode: u64) -> bool {
    if mode > 2 {
        return false;
    }
    keeper.set_automove(mode);
    keeper.automove() == mode
}

fn windows(keeper: &mut Keeper, wanted: Option<(u64, u64)>) -> Result<bool, Refused> {
    Ok(match (keeper.window()?, wanted) {
        (Some(acted), Some((src, dst))) => {
            acted.decision == Decision { src, dst } && acted.answer.is_ok()
        }
        (None, None) => true,
        _ => false,
    })
}

fn turns(keeper: &mut Keeper, wanted: Ending, cleared: u64, evicted: u64, busy: u64) -> bool {
    let counts = Counts {
        cleared,
        rescued: 0,
        evicted,
        busy,
        locked: 0,
    };
    match keeper.turn() {
        Ok((ending, told)) => ending == wanted && told == counts,
        Err(_) => false,
    }
}

fn sweeps(keeper: &mut Keeper) -> bool {
    keeper.sweep();
    true
}

fn moves(keeper: &Keeper, wanted: bool) -> bool {
    keeper.moving().is_some() == wanted
}

fn has(keeper: &Keeper, words: u64, pages: u64, free: u64) -> bool {
    if words > 4096 {
        return false;
    }
    let wanted = Numbers {
        pages,
        free,
        evictions: 0,
    };
    match keeper.table().class_for(24 + 8 * words) {
        Some(class) => keeper.numbers(class) == wanted,
        None => false,
    }
}

fn moved(keeper: &Keeper, moved: u64, evicted: u64, busy: u64) -> bool {
    let totals = keeper.totals();
    totals.moved == moved && totals.evictions_nomem == evicted && totals.busy == busy
}

/// The call gives what it is to give.
pub(super) fn is_so(keeper: &mut Keeper, step: &Step) -> Result<bool, Refused> {
    match *step {
        Step::Sets(key, count, wanted) => sets(keeper, key, count, wanted),
        Step::Gets(worker, key, wanted) => Ok(gets(keeper, worker, key, wanted)),
        Step::Holds(worker, key, ref wanted) => Ok(holds(keeper, worker, key, wanted)),
        Step::Reads(worker, key, wanted) => Ok(reads(keeper, worker, key, wanted)),
        Step::Drops(worker, key, wanted) => Ok(drops(keeper, worker, key, wanted)),
        Step::Deletes(key, wanted) => Ok(deletes(keeper, key, wanted)),
        Step::Touches(key, wanted) => Ok(touches(keeper, key, wanted)),
        Step::Reassigns(src, dst, ref wanted) => Ok(reassigns(keeper, src, dst, wanted)),
        Step::Modes(mode) => Ok(modes(keeper, mode)),
        Step::Windows(wanted) => windows(keeper, wanted),
        Step::Turns(ending, cleared, evicted, busy) => {
            Ok(turns(keeper, ending, cleared, evicted, busy))
        }
        Step::Sweeps => Ok(sweeps(keeper)),
        Step::Moves(wanted) => Ok(moves(keeper, wanted)),
        Step::Has(words, pages, free) => Ok(has(keeper, words, pages, free)),
        Step::Moved(count, evicted, busy) => Ok(moved(keeper, count, evicted, busy)),
    }
}
