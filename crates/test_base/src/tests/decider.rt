//! What the decider decides, window by window.
use super::{assert_equal, assert_same};
use mc_classes::{ClassTable, ConfigError};
use mc_watch::{Decider, Decision, Feed};
use std::alloc::Global;
use std::process::Abort;
use std::test::Fail;
use testlib_values::FOUR_CLASSES;

// What is decided, by the numbers of two classes: a page of the first goes to the second, or to the pool, which is 0.
const FROM_1_TO_0: Option<Decision> = Some(Decision { src: 1, dst: 0 });

const FROM_1_TO_4: Option<Decision> = Some(Decision { src: 1, dst: 4 });

const FROM_2_TO_0: Option<Decision> = Some(Decision { src: 2, dst: 0 });

const FROM_2_TO_3: Option<Decision> = Some(Decision { src: 2, dst: 3 });

const FROM_4_TO_0: Option<Decision> = Some(Decision { src: 4, dst: 0 });

const FROM_4_TO_1: Option<Decision> = Some(Decision { src: 4, dst: 1 });

/// Windows that are fed one after another, each with its evictions so far, its pages, its free chunks and what is decided.
type Windows<'a> = &'a [([u64; 4], [u64; 4], [u64; 4], Option<Decision>)];

const PAGES: [u64; 4] = [3, 1, 1, 2];

const NONE: [u64; 4] = [0; 4];

/// A decider of four classes that was fed nothing yet.
fn new_decider(alloc: Global) -> Result<Decider, Fail> {
    let table = ClassTable::build(alloc, &FOUR_CLASSES)?;
    Ok(Decider::new(alloc, &table)?)
}

/// A new decider decides so, window by window.
fn assert_decisions(
    rt: &impl Abort,
    alloc: Global,
    name: &str,
    windows: Windows<'_>,
) -> Result<(), Fail> {
    let mut decider = new_decider(alloc)?;
    for (evictions, pages, free, decision) in windows {
        let fed = decider.feed(evictions, pages, free);
        assert_equal(rt, fed, Ok(*decision), name);
    }
    Ok(())
}

/// A name, and what is decided window by window.
const DECISIONS: [(&str, Windows<'static>); 9] = [
    (
        "three windows, and a decision resets nothing",
        &[
            ([0, 0, 0, 5], PAGES, NONE, None),
            ([0, 0, 0, 6], PAGES, NONE, None),
            ([0, 0, 0, 9], PAGES, NONE, FROM_1_TO_4),
            ([0, 0, 0, 10], PAGES, NONE, FROM_1_TO_4),
            ([0, 0, 0, 10], PAGES, NONE, None),
        ],
    ),
    (
        "three windows running",
        &[
            ([0, 0, 0, 5], PAGES, NONE, None),
            ([0, 7, 0, 6], PAGES, NONE, None),
            ([0, 7, 0, 9], PAGES, NONE, None),
            ([0, 7, 0, 10], PAGES, NONE, None),
            ([0, 7, 0, 11], PAGES, NONE, FROM_1_TO_4),
        ],
    ),
    (
        "the source is quiet in each window",
        &[
            ([0, 0, 0, 5], PAGES, NONE, None),
            ([1, 0, 0, 9], PAGES, NONE, None),
            ([1, 0, 0, 13], PAGES, NONE, None),
            ([1, 0, 0, 17], PAGES, NONE, None),
            ([1, 0, 0, 21], PAGES, NONE, FROM_1_TO_4),
        ],
    ),
    (
        "a class with 2 pages isn't quiet",
        &[
            ([0, 0, 0, 5], [2, 2, 1, 2], NONE, None),
            ([0, 0, 0, 6], [2, 2, 1, 2], NONE, None),
            ([0, 0, 0, 9], [2, 2, 1, 2], NONE, None),
        ],
    ),
    (
        "the lowest of two sources and of two that rose alike",
        &[
            ([0, 0, 4, 4], [1, 4, 4, 4], NONE, None),
            ([0, 0, 8, 8], [1, 4, 4, 4], NONE, None),
            ([0, 0, 12, 12], [1, 4, 4, 4], NONE, FROM_2_TO_3),
        ],
    ),
    (
        "the greatest numbers",
        &[
            ([u64::MAX - 2, 0, 0, 0], [0, 0, 0, u64::MAX], NONE, None),
            ([u64::MAX - 1, 0, 0, 0], [0, 0, 0, u64::MAX], NONE, None),
            ([u64::MAX, 0, 0, 0], [0, 0, 0, u64::MAX], NONE, FROM_4_TO_1),
            ([u64::MAX, 0, 0, 0], PAGES, [u64::MAX; 4], FROM_1_TO_0),
        ],
    ),
    (
        "free pages go to the pool",
        &[
            (NONE, [3, 0, 0, 0], [53, 0, 0, 0], FROM_1_TO_0),
            (NONE, [3, 0, 0, 0], [52, 0, 0, 0], None),
            // 25 chunks are two and a half pages, and no more
            (NONE, [0, 2, 0, 0], [0, 25, 0, 0], None),
            (NONE, [0, 2, 0, 0], [0, 26, 0, 0], FROM_2_TO_0),
            (NONE, [0, 1, 0, 3], [0, 26, 0, 6], FROM_4_TO_0),
        ],
    ),
    (
        "evictions go before free pages",
        &[
            ([0, 0, 0, 5], PAGES, [63, 0, 0, 0], FROM_1_TO_0),
            ([0, 0, 0, 6], PAGES, [63, 0, 0, 0], FROM_1_TO_0),
            ([0, 0, 0, 9], PAGES, [63, 0, 0, 0], FROM_1_TO_4),
        ],
    ),
    (
        "without a leader",
        &[
            (NONE, PAGES, NONE, None),
            (NONE, PAGES, NONE, None),
            (NONE, PAGES, NONE, None),
        ],
    ),
];

#[test]
fn decisions(rt: HostRuntime) -> Result<(), Fail> {
    for (name, windows) in &DECISIONS {
        assert_decisions(&rt, rt.alloc(), name, windows)?;
    }
    Ok(())
}

/// Evictions, pages and free chunks of the classes, and how they are refused.
type RefusedRow<'a> = (&'a [u64], &'a [u64], &'a [u64], Feed);

const SHORT: [u64; 3] = [0; 3];

const LONG: [u64; 5] = [0; 5];

const REFUSED: [RefusedRow<'static>; 8] = [
    (&[0, 0, 0, 5], &PAGES, &NONE, Feed::Backwards),
    (&[9, 9, 9, 5], &PAGES, &NONE, Feed::Backwards),
    (&SHORT, &PAGES, &NONE, Feed::Length),
    (&LONG, &PAGES, &NONE, Feed::Length),
    (&[0, 0, 0, 9], &SHORT, &NONE, Feed::Length),
    (&[0, 0, 0, 9], &PAGES, &SHORT, Feed::Length),
    (&[0, 0, 0, 9], &LONG, &LONG, Feed::Length),
    // the length is refused first
    (&[0, 0, 0, 5], &PAGES, &LONG, Feed::Length),
];

/// The decider decides this of the evictions.
fn assert_decides(
    rt: &impl Abort,
    decider: &mut Decider,
    evictions: &[u64],
    decision: Option<Decision>,
) {
    let fed = decider.feed(evictions, &PAGES, &NONE);
    assert_equal(rt, fed, Ok(decision), "the decision");
}

/// Each row is refused.
fn assert_refused(rt: &impl Abort, decider: &mut Decider, rows: &[RefusedRow]) {
    for (evictions, pages, free, refusal) in rows {
        let fed = decider.feed(evictions, pages, free);
        assert_equal(rt, fed, Err(*refusal), "the refusal");
    }
}

#[test]
fn refusals_leave_the_decider_alone(rt: HostRuntime) -> Result<(), Fail> {
    let mut decider = new_decider(rt.alloc())?;
    assert_decides(&rt, &mut decider, &[0, 0, 0, 5], None);
    assert_decides(&rt, &mut decider, &[0, 0, 0, 6], None);
    assert_refused(&rt, &mut decider, &REFUSED);
    assert_decides(&rt, &mut decider, &[0, 0, 0, 9], FROM_1_TO_4);
    Ok(())
}

/// Four classes, built at the second try where memory was refused at the first.
fn table_at_last(rt: &impl Abort, alloc: Global) -> Result<ClassTable, ConfigError> {
    match ClassTable::build(alloc, &FOUR_CLASSES) {
        Err(error) => {
            assert_same(rt, error.number(), 9, "the refusal");
            ClassTable::build(alloc, &FOUR_CLASSES)
        }
        built => built,
    }
}

/// A decider of four classes, built at the second try where memory was refused at the first.
fn decider_at_last(rt: &impl Abort, alloc: Global) -> Result<Decider, Fail> {
    let table = table_at_last(rt, alloc)?;
    match Decider::new(alloc, &table) {
        Ok(decider) => Ok(decider),
        Err(_) => Ok(Decider::new(alloc, &table)?),
    }
}

/// Where one allocation is refused (`rt try --test --fail-alloc N`), the call answers that, and its repeat goes well.
#[test]
fn made_at_the_second_try(rt: HostRuntime) -> Result<(), Fail> {
    let mut decider = decider_at_last(&rt, rt.alloc())?;
    assert_equal(
        &rt,
        decider.feed(&NONE, &PAGES, &[53, 0, 0, 0]),
        Ok(FROM_1_TO_0),
        "the decision",
    );
    Ok(())
}

/// Each refusal, and its text.
const TEXTS: [(Feed, &str); 2] = [
    (
        Feed::Length,
        "each list must have one number for each class",
    ),
    (
        Feed::Backwards,
        "the evictions of a class can't become fewer",
    ),
];

#[test]
fn refusals_in_words(rt: HostRuntime) -> Result<(), Fail> {
    for (refusal, words) in &TEXTS {
        let text = refusal.to_string(rt.alloc())?;
        assert_same(&rt, text.as_str(), *words, "the text");
    }
    Ok(())
}
