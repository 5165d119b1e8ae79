//! Pages and chunks: worked calls, and many at random beside plain lists.
mod driven;
mod moves;
mod plain;
mod shared;
mod trims;

use super::{assert_equal, assert_same};
use driven::{ChunkList, Driven};
use mc_classes::{ClassId, Config, PageId};
use mc_pages::{ChunkId, Entry, Found, Grow, Numbers, Owner, Totals};
use plain::{Plain, PlainClass};
use rand_core::Rng;
use rand_pcg::Pcg32;
use std::alloc::Global;
use std::process::Abort;
use std::test::Fail;
use testlib_values::FOUR_CLASSES;

/// A call, and what it is to give.
#[derive(Clone, Copy)]
enum Step {
    /// The class gets the page.
    Grows(ClassId, PageId),
    /// No page is left for the class.
    IsFull(ClassId),
    /// This many chunks of the page are cut, and no more.
    Cuts(PageId, u64),
    /// The class gets the page, and this many chunks of it are cut, and no more.
    Gets(ClassId, PageId, u64),
    /// The class hands out this chunk: its page and its place there.
    Pops(ClassId, PageId, u64),
    /// The class has no free chunk.
    IsEmpty(ClassId),
    /// The chunk at this place of the hand-out order, which is this one, comes back.
    Backs(ClassId, u64, PageId, u64),
    /// The free list has this chunk at this place.
    HasFree(ClassId, u64, Option<(PageId, u64)>),
    /// The hand-out order has this chunk at this place.
    HasOrder(ClassId, u64, Option<(PageId, u64)>),
    /// The chunk at this place of the hand-out order becomes the youngest: it is this one.
    Touches(ClassId, u64, PageId, u64),
    /// The first free chunk takes the place in the hand-out order that is named.
    Replaces(ClassId, u64),
    /// Whether the chunk at the first place of the hand-out order is known to be older than the one at the second.
    IsOlder(ClassId, u64, u64, bool),
    /// The page has this owner.
    Owns(PageId, Owner),
    /// The class has this many pages and this many free chunks.
    Counts(ClassId, u64, u64),
}

fn chunk(page: PageId, index: u64) -> Option<ChunkId> {
    Some(ChunkId { page, index })
}

fn named((page, index): (PageId, u64)) -> Option<ChunkId> {
    chunk(page, index)
}

fn numbers(pages: u64, free: u64) -> Option<Numbers> {
    Some(Numbers {
        pages,
        free,
        evictions: 0,
    })
}

fn granted(granted: u64) -> Totals {
    Totals {
        granted,
        pool: 0,
        moved: 0,
        rescues: 0,
        evictions_nomem: 0,
        busy: 0,
    }
}

/// The page is half cut until all its chunks are cut.
fn assert_cuts(rt: &impl Abort, all: &mut Driven, page: PageId, count: u64) {
    for index in 0..count {
        let found = (all.half_cut(), all.cut());
        assert_equal(rt, found, (Some(page), chunk(page, index)), "cut");
    }
    let found = (all.half_cut(), all.cut());
    assert_equal(rt, found, (None, None), "cut");
}

/// The class gets the page, and this many chunks of it are cut, and no more.
fn assert_gets(rt: &impl Abort, all: &mut Driven, class: ClassId, page: PageId, count: u64) {
    assert_equal(rt, all.grow(class), Some(Ok(page)), "grow");
    assert_cuts(rt, all, page, count);
}

/// The list has this chunk at this place.
fn assert_stands(
    rt: &impl Abort,
    all: &Driven,
    class: ClassId,
    list: ChunkList,
    place: u64,
    want: Option<(PageId, u64)>,
) {
    let found = all.at_place(class, list, place);
    assert_equal(rt, found, want.and_then(named), list.name());
}

/// The first free chunk takes the place in the hand-out order that is named.
fn assert_replaces(rt: &impl Abort, all: &mut Driven, class: ClassId, place: u64) {
    let old = all.at_place(class, ChunkList::HandedOut, place);
    let want = all.first_of(class, ChunkList::Free).zip(old);
    assert_equal(rt, all.replace(class, 0, place), want, "replace");
}

/// The call gives what it is to give.
fn assert_step(rt: &impl Abort, all: &mut Driven, step: Step) {
    match step {
        Step::Grows(class, page) => assert_equal(rt, all.grow(class), Some(Ok(page)), "grow"),
        Step::IsFull(class) => assert_equal(rt, all.grow(class), Some(Err(Grow::NoRoom)), "grow"),
        Step::Cuts(page, count) => assert_cuts(rt, all, page, count),
        Step::Gets(class, page, count) => assert_gets(rt, all, class, page, count),
        Step::Pops(class, page, index) => assert_equal(
            rt,
            all.pop(class),
            chunk(page, index),
            "pop",
        ),
        Step::IsEmpty(class) => assert_equal(rt, all.pop(class), None, "pop"),
        Step::Backs(class, place, page, index) => {
            assert_equal(rt, all.back(class, place), chunk(page, index), "back");
        }
        Step::HasFree(class, place, want) => {
            assert_stands(rt, all, class, ChunkList::Free, place, want);
        }
        Step::HasOrder(class, place, want) => {
            assert_stands(rt, all, class, ChunkList::HandedOut, place, want);
        }
        Step::Touches(class, place, page, index) => {
            assert_equal(rt, all.touch(class, place), chunk(page, index), "touch");
        }
        Step::Replaces(class, place) => assert_replaces(rt, all, class, place),
        Step::IsOlder(class, place, than, want) => {
            assert_equal(rt, all.is_older(class, place, than), Some(want), "is_older");
        }
        Step::Owns(page, owner) => assert_equal(rt, all.owner(page), Some(owner), "owner"),
        Step::Counts(class, pages, free) => {
            assert_equal(rt, all.numbers(class), numbers(pages, free), "numbers");
        }
    }
}

/// Each call gives what it is to give, one after another.
fn assert_steps(rt: &impl Abort, all: &mut Driven, steps: &[Step]) {
    for step in steps {
        assert_step(rt, all, *step);
    }
}

/// From the beginning on each call gives what it is to give, and as many pages are granted as the ledger has entries then.
fn assert_worked(
    rt: &impl Abort,
    alloc: Global,
    steps: &[Step],
    ledger: &[Entry],
) -> Result<(), Fail> {
    let mut all = Driven::new(alloc, &FOUR_CLASSES)?;
    assert_steps(rt, &mut all, steps);
    assert_equal(rt, all.totals(), granted(ledger.len() as u64), "totals");
    assert_equal(rt, all.ledger(), ledger, "ledger");
    drop(all);
    Ok(())
}

/// One page is cut, and two of its chunks go out.
const ONE_PAGE: [Step; 22] = [
    Step::IsEmpty(1),
    Step::Owns(0, Owner::Untouched),
    Step::Grows(1, 0),
    Step::Owns(0, Owner::Class(1)),
    Step::Owns(1, Owner::Untouched),
    Step::Counts(1, 1, 0),
    Step::Cuts(0, 21),
    Step::Counts(1, 1, 21),
    Step::HasFree(1, 0, Some((0, 20))),
    Step::HasFree(1, 20, Some((0, 0))),
    Step::HasFree(1, 21, None),
    Step::IsEmpty(2),
    Step::Pops(1, 0, 20),
    Step::Pops(1, 0, 19),
    Step::HasOrder(1, 0, Some((0, 20))),
    Step::HasOrder(1, 1, Some((0, 19))),
    Step::HasOrder(1, 2, None),
    Step::Counts(1, 1, 19),
    Step::Backs(1, 0, 0, 20),
    Step::HasFree(1, 0, Some((0, 20))),
    Step::HasOrder(1, 0, Some((0, 19))),
    Step::Counts(1, 1, 20),
];

#[test]
fn one_page_is_cut_and_handed_out(rt: HostRuntime) -> Result<(), Fail> {
    assert_worked(&rt, rt.alloc(), &ONE_PAGE, &[Entry::Granted(0, 1, false)])
}

/// Chunks go out, are touched, replaced and given back, and which is older.
const AGES: [Step; 26] = [
    Step::Gets(2, 0, 10),
    Step::Pops(2, 0, 9),
    Step::Pops(2, 0, 8),
    Step::Pops(2, 0, 7),
    // In the order of their hand-outs.
    Step::IsOlder(2, 0, 1, true),
    Step::IsOlder(2, 0, 2, true),
    Step::IsOlder(2, 1, 2, true),
    Step::IsOlder(2, 1, 0, false),
    Step::IsOlder(2, 2, 0, false),
    Step::IsOlder(2, 1, 1, false),
    // The first one is the youngest now: 8, 7, 9.
    Step::Touches(2, 0, 0, 9),
    Step::HasOrder(2, 2, Some((0, 9))),
    Step::IsOlder(2, 1, 2, true),
    Step::IsOlder(2, 2, 0, false),
    // Chunk 6 is as old as chunk 7: 8, 6, 7, 9.
    Step::Replaces(2, 1),
    Step::HasOrder(2, 1, Some((0, 6))),
    Step::HasOrder(2, 2, Some((0, 7))),
    Step::IsOlder(2, 1, 2, false),
    Step::IsOlder(2, 2, 1, false),
    Step::IsOlder(2, 0, 1, true),
    Step::IsOlder(2, 1, 3, true),
    // The old one goes back and out again: 8, 6, 9, 7.
    Step::Backs(2, 2, 0, 7),
    Step::Pops(2, 0, 7),
    Step::IsOlder(2, 1, 3, true),
    Step::IsOlder(2, 2, 3, true),
    Step::IsOlder(2, 3, 1, false),
];

#[test]
fn the_older_of_two_chunks_is_known_unless_one_replaced_the_other(
    rt: HostRuntime,
) -> Result<(), Fail> {
    assert_worked(&rt, rt.alloc(), &AGES, &[Entry::Granted(0, 2, false)])
}

/// Four classes get a page each, and no fifth is left.
const FIVE_PAGES: [Step; 11] = [
    Step::Gets(1, 0, 21),
    Step::Gets(2, 1, 10),
    Step::Gets(3, 2, 5),
    Step::Gets(4, 3, 2),
    Step::IsFull(2),
    Step::Counts(1, 1, 21),
    Step::Counts(2, 1, 10),
    Step::Counts(3, 1, 5),
    Step::Counts(4, 1, 2),
    Step::Owns(0, Owner::Class(1)),
    Step::Owns(3, Owner::Class(4)),
];

#[test]
fn the_limit_refuses_a_fifth_page(rt: HostRuntime) -> Result<(), Fail> {
    let ledger = [
        Entry::Granted(0, 1, false),
        Entry::Granted(1, 2, false),
        Entry::Granted(2, 3, false),
        Entry::Granted(3, 4, false),
    ];
    assert_worked(&rt, rt.alloc(), &FIVE_PAGES, &ledger)
}

/// One class has all pages within the limit: each other gets its first beyond it, and no second.
const FIRST_PAGES: [Step; 14] = [
    Step::Gets(4, 0, 2),
    Step::Gets(4, 1, 2),
    Step::Gets(4, 2, 2),
    Step::Gets(4, 3, 2),
    Step::IsFull(4),
    Step::Gets(2, 4, 10),
    Step::IsFull(2),
    Step::Gets(1, 5, 21),
    Step::Gets(3, 6, 5),
    Step::IsFull(1),
    Step::IsFull(3),
    Step::IsFull(4),
    Step::Owns(6, Owner::Class(3)),
    Step::Owns(7, Owner::Untouched),
];

#[test]
fn a_class_without_pages_gets_its_first_beyond_the_limit(rt: HostRuntime) -> Result<(), Fail> {
    let ledger = [
        Entry::Granted(0, 4, false),
        Entry::Granted(1, 4, false),
        Entry::Granted(2, 4, false),
        Entry::Granted(3, 4, false),
        Entry::Granted(4, 2, true),
        Entry::Granted(5, 1, true),
        Entry::Granted(6, 3, true),
    ];
    assert_worked(&rt, rt.alloc(), &FIRST_PAGES, &ledger)
}

/// What was found is what the list has at this place, or nothing behind its end.
fn assert_at(rt: &impl Abort, found: Option<ChunkId>, list: &[ChunkId], place: usize, what: &str) {
    assert_equal(rt, found, list.get(place).copied(), what);
}

/// Both memories have the same list.
fn assert_same_list(
    rt: &impl Abort,
    all: &Driven,
    own: &PlainClass,
    class: ClassId,
    list: ChunkList,
) {
    let chunks = own.chunks(list);
    for at in 0..=chunks.len() {
        let found = all.at_place(class, list, at as u64);
        assert_at(rt, found, chunks, at, list.name());
    }
}

/// Both memories have the same numbers and lists.
fn assert_same_class(rt: &impl Abort, all: &Driven, own: &PlainClass, class: ClassId) {
    let want = Numbers {
        pages: own.pages.len() as u64,
        free: own.free.len() as u64,
        evictions: own.evictions,
    };
    assert_equal(rt, all.numbers(class), Some(want), "numbers");
    assert_same(rt, all.per_page(class), Some(own.per_page), "per_page");
    assert_same_list(rt, all, own, class, ChunkList::Free);
    assert_same_list(rt, all, own, class, ChunkList::HandedOut);
}

/// A walk along the list by its first and next chunks finds the same.
fn assert_same_walk(
    rt: &impl Abort,
    all: &Driven,
    own: &PlainClass,
    class: ClassId,
    list: ChunkList,
) {
    let chunks = own.chunks(list);
    assert_at(rt, all.first_of(class, list), chunks, 0, list.name());
    for at in 0..chunks.len() {
        let next = all.behind(class, list, at as u64);
        assert_at(rt, next, chunks, at.wrapping_add(1), list.name());
    }
}

/// A chunk is reported older than others only where they are behind it.
fn assert_older(rt: &impl Abort, all: &Driven, own: &PlainClass, class: ClassId, at: usize) {
    for than in 0..own.order.len() {
        let older = all.is_older(class, at as u64, than as u64);
        assert_same(rt, older == Some(false) || at < than, true, "is_older");
    }
}

/// Walks along both lists find the same, and each chunk is reported older only than those behind it.
fn assert_same_walks(rt: &impl Abort, all: &Driven, own: &PlainClass, class: ClassId) {
    assert_same_walk(rt, all, own, class, ChunkList::Free);
    assert_same_walk(rt, all, own, class, ChunkList::HandedOut);
    for at in 0..own.order.len() {
        assert_older(rt, all, own, class, at);
    }
}

/// Each chunk of the class's page is reported free where it is in the class's free list.
fn assert_page_marks(rt: &impl Abort, all: &Driven, own: &PlainClass, page: PageId) {
    for index in 0..own.per_page {
        let chunk = ChunkId { page, index };
        let want = own.free.contains(&chunk);
        assert_same(rt, all.is_free(chunk), Some(want), "is_free");
    }
}

/// Each page has the same owner in both memories, and where that is a class, its chunks are reported free alike.
fn assert_same_pages(rt: &impl Abort, all: &Driven, plain: &Plain) {
    for (page, owner) in plain.owners.iter().enumerate() {
        assert_equal(rt, all.owner(page as u64), Some(*owner), "owner");
        let place = (owner.class() as usize).wrapping_sub(1);
        if let Some(own) = plain.classes.get(place) {
            assert_page_marks(rt, all, own, page as u64);
        }
    }
}

/// Both memories have the same lists, owners, entries and numbers.
fn assert_same_slabs(rt: &impl Abort, all: &Driven, plain: &Plain) {
    for (place, own) in plain.classes.iter().enumerate() {
        assert_same_class(rt, all, own, place as u64 + 1);
    }
    assert_same_pages(rt, all, plain);
    assert_equal(rt, all.moving(), plain.moving, "moving");
    assert_equal(rt, all.totals(), plain.totals(), "totals");
    let told = (plain.ledger.as_slice(), plain.base.as_slice());
    assert_equal(rt, (all.ledger(), all.base()), told, "ledger and base");
    assert_same(rt, all.trimmed(), plain.trimmed, "trimmed");
}

/// All chunks of a page just given are cut.
fn cut_all(all: &mut Driven) {
    for _ in 0..256 {
        let _none_behind_the_last = all.cut();
    }
}

/// What the mover may find.
fn found(random: &mut Pcg32) -> Found {
    match random.next_u64() % 16 {
        0 => Found::Busy,
        1 => Found::Locked,
        2..=5 => Found::Rescued,
        6 | 7 => Found::Evicted,
        8 => Found::Already,
        _ => Found::Cleared,
    }
}

/// Slabs, plain lists that are to hold the same, and what the calls of both are drawn by.
#[derive(Drop)]
struct Trial {
    all: Driven,
    plain: Plain,
    random: Pcg32,
}

impl Trial {
    /// Nothing was called yet. Each seed draws other calls.
    fn new(alloc: Global, config: &Config, seed: u64) -> Result<Trial, Fail> {
        let all = Driven::new(alloc, config)?;
        Ok(Trial {
            plain: Plain::new(alloc, all.table())?,
            all,
            random: Pcg32::new(seed, 0),
        })
    }
}

/// A chunk of the class comes back from both.
fn assert_same_back(rt: &impl Abort, trial: &mut Trial, at: (ClassId, u64)) -> Result<(), Fail> {
    let (class, place) = at;
    let want = trial.plain.back(class, place as usize)?;
    assert_equal(rt, trial.all.back(class, place), want, "back");
    Ok(())
}

/// A chunk of the class becomes the youngest of both.
fn assert_same_touch(rt: &impl Abort, trial: &mut Trial, at: (ClassId, u64)) -> Result<(), Fail> {
    let (class, place) = at;
    let want = trial.plain.touch(class, place as usize)?;
    assert_equal(rt, trial.all.touch(class, place), want, "touch");
    Ok(())
}

/// A free chunk of the class takes the place of another in both.
fn assert_same_replace(
    rt: &impl Abort,
    trial: &mut Trial,
    class: ClassId,
    free: u64,
    place: u64,
) -> Result<(), Fail> {
    let want = trial.plain.replace(class, free as usize, place as usize)?;
    let found = trial.all.replace(class, free, place);
    assert_equal(rt, found, want, "replace");
    Ok(())
}

/// Both memories hand out a chunk of the class.
fn assert_same_pop(rt: &impl Abort, trial: &mut Trial, class: ClassId) -> Result<(), Fail> {
    let want = trial.plain.pop(class)?;
    assert_equal(rt, trial.all.pop(class), want, "pop");
    Ok(())
}

/// One drawn call of both on the chunks of a class.
fn assert_chunk_call(rt: &impl Abort, trial: &mut Trial) -> Result<(), Fail> {
    let class = trial.random.next_u64() % 4 + 1;
    let place = trial.random.next_u64() % 32;
    let free = trial.random.next_u64() % 8;
    match trial.random.next_u64() % 16 {
        0..=6 => assert_same_pop(rt, trial, class),
        7..=10 => assert_same_back(rt, trial, (class, place)),
        11 | 12 => assert_same_touch(rt, trial, (class, place)),
        13 | 14 => assert_same_replace(rt, trial, class, free, place),
        _ => {
            let want = trial.plain.evicted(class);
            assert_same(rt, trial.all.evicted(class), want, "evicted");
            Ok(())
        }
    }
}

/// The class gets a page of both, or none.
fn assert_same_grow(rt: &impl Abort, trial: &mut Trial, class: ClassId) -> Result<(), Fail> {
    let want = trial.plain.grow(class)?.ok_or(Grow::NoRoom);
    assert_equal(rt, trial.all.grow(class), Some(want), "grow");
    cut_all(&mut trial.all);
    Ok(())
}

/// A page begins to move in both, from a class that is drawn or that they pick, or is refused.
fn assert_same_begin(rt: &impl Abort, trial: &mut Trial) -> Result<(), Fail> {
    let src = match trial.random.next_u64() % 3 {
        0 => None,
        _ => Some(trial.random.next_u64() % 6),
    };
    let dst = trial.random.next_u64() % 6;
    let want = trial.plain.begin(src, dst)?;
    assert_equal(rt, trial.all.begin(src, dst), want, "begin");
    Ok(())
}

/// The move ends in both, or goes on.
fn assert_same_finish(rt: &impl Abort, trial: &mut Trial) -> Result<(), Fail> {
    let want = trial.plain.finish()?;
    assert_same(rt, trial.all.finish(), want, "finish");
    cut_all(&mut trial.all);
    Ok(())
}

/// The pass goes on in both by up to eight chunks.
fn assert_same_pass(rt: &impl Abort, trial: &mut Trial) {
    for _ in 0..8 {
        let wanted = found(&mut trial.random);
        let want = trial.plain.pass(wanted);
        assert_equal(rt, trial.all.pass(wanted), want, "pass");
    }
}

/// One drawn call of both on the pages of a class.
fn assert_page_call(rt: &impl Abort, trial: &mut Trial) -> Result<(), Fail> {
    let class = trial.random.next_u64() % 4 + 1;
    match trial.random.next_u64() % 16 {
        0..=2 => return assert_same_grow(rt, trial, class),
        3 | 4 => return assert_same_begin(rt, trial),
        6 | 7 => return assert_same_finish(rt, trial),
        5 => assert_same(rt, trial.all.wrap(), trial.plain.wrap(), "wrap"),
        8 => {
            trial.all.trim();
            trial.plain.trim();
        }
        _ => assert_same_pass(rt, trial),
    }
    Ok(())
}

/// Drawn calls of both on chunks and on pages, in turns.
fn assert_calls(rt: &impl Abort, trial: &mut Trial) -> Result<(), Fail> {
    for _ in 0..200 {
        assert_chunk_call(rt, trial)?;
        assert_same_slabs(rt, &trial.all, &trial.plain);
        assert_page_call(rt, trial)?;
        assert_same_slabs(rt, &trial.all, &trial.plain);
    }
    Ok(())
}

/// The lists of each class are the same, and so are walks along them.
fn assert_same_rows(rt: &impl Abort, all: &Driven, classes: &[PlainClass]) {
    for (place, own) in classes.iter().enumerate() {
        let class = place as u64 + 1;
        assert_same_class(rt, all, own, class);
        assert_same_walks(rt, all, own, class);
    }
}

/// Drawn calls of both, three on chunks and then one on pages.
fn assert_rows(rt: &impl Abort, trial: &mut Trial) -> Result<(), Fail> {
    for call in 0..400 {
        if call % 4 == 0 {
            assert_page_call(rt, trial)?;
        } else {
            assert_chunk_call(rt, trial)?;
        }
        assert_same_rows(rt, &trial.all, &trial.plain.classes);
    }
    Ok(())
}

/// What is compared behind each call.
#[derive(Clone, Copy)]
enum Compared {
    /// All that both hold.
    All,
    /// Each class's lists, and walks along them.
    Rows,
}

/// The totals that drawn calls leave.
fn totals_of(rt: &impl Abort, trial: &mut Trial, compared: Compared) -> Result<Totals, Fail> {
    match compared {
        Compared::All => assert_calls(rt, trial)?,
        Compared::Rows => assert_rows(rt, trial)?,
    }
    Ok(trial.all.totals())
}

/// The totals that drawn calls leave from the beginning on, where the limit is this many bytes. This number leads to the calls.
fn totals_behind(
    rt: &impl Abort,
    alloc: Global,
    limit: u64,
    seed: u64,
    compared: Compared,
) -> Result<Totals, Fail> {
    let config = Config {
        limit,
        ..FOUR_CLASSES
    };
    let mut trial = Trial::new(alloc, &config, seed)?;
    let totals = totals_of(rt, &mut trial, compared);
    drop(trial);
    totals
}

#[test]
fn random_calls_leave_what_plain_lists_hold(rt: HostRuntime) -> Result<(), Fail> {
    let mut moved: u64 = 0;
    for seed in 0..16 {
        let totals = totals_behind(&rt, rt.alloc(), 8192, seed, Compared::All)?;
        moved = moved.wrapping_add(totals.moved);
    }
    assert_same(&rt, moved > 16, true, "moves ended");
    Ok(())
}

#[test]
fn rows_are_the_plain_lists(rt: HostRuntime) -> Result<(), Fail> {
    for seed in 100..108 {
        let totals = totals_behind(&rt, rt.alloc(), 6144, seed, Compared::Rows)?;
        assert_same(&rt, totals.granted > 1, true, "totals");
    }
    Ok(())
}

/// The class gets this page, and all of its chunks are cut.
fn assert_grows(rt: &impl Abort, all: &mut Driven, class: ClassId, page: PageId) {
    assert_equal(rt, all.grow(class), Some(Ok(page)), "grow");
    cut_all(all);
}

/// The page that moves is cleared, and its move ends.
fn assert_finishes(rt: &impl Abort, all: &mut Driven) {
    for _ in 0..256 {
        if all.pass(Found::Cleared).is_none() {
            break;
        }
    }
    assert_same(rt, all.finish(), true, "finish");
    cut_all(all);
}

/// The automover's mode is 0, and each of these is set where it is one of three.
fn assert_modes(rt: &impl Abort, all: &mut Driven) {
    assert_same(rt, all.automove(), 0, "automove");
    for (mode, is, now) in [(2, true, 2), (3, false, 2), (1, true, 1)] {
        let found = (all.set_automove(mode), all.automove());
        assert_same(rt, found, (is, now), "set_automove");
    }
}

#[test]
fn the_automover_has_three_modes(rt: HostRuntime) -> Result<(), Fail> {
    let mut all = Driven::new(rt.alloc(), &FOUR_CLASSES)?;
    assert_modes(&rt, &mut all);
    drop(all);
    Ok(())
}
