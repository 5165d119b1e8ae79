//! Pages that move, by worked calls. A few calls are in a function of their own, since each names all that came of those before
//! it.
use super::driven::Driven;
use super::{
    assert_cuts, assert_equal, assert_finishes, assert_gets, assert_grows, assert_same, chunk,
    granted, numbers,
};
use mc_pages::{BasePage, Entry, Found, Grow, Owner, Reassign, Totals};
use std::process::Abort;
use std::test::Fail;
use testlib_values::FOUR_CLASSES;

/// From which class to which no page begins to move where none has a page, and why.
const REFUSED: [(Option<u64>, u64, Reassign); 11] = [
    (Some(1), 1, Reassign::Same),
    (Some(0), 0, Reassign::Same),
    (Some(9), 9, Reassign::Same),
    (Some(9), 1, Reassign::BadClass),
    (Some(0), 1, Reassign::BadClass),
    (Some(4), 9, Reassign::BadClass),
    (Some(4), 5, Reassign::BadClass),
    (None, 1, Reassign::BadClass),
    (None, 0, Reassign::BadClass),
    (Some(4), 1, Reassign::NoSpare),
    (Some(1), 0, Reassign::NoSpare),
];

/// From which class to which no page begins to move where class 1 has one page, and why.
const REFUSED_BY_ONE: [(Option<u64>, u64, Reassign); 2] = [
    (Some(1), 2, Reassign::NoSpare),
    (None, 2, Reassign::BadClass),
];

/// From which class to which no page begins to move where class 1 has two pages, and why.
const REFUSED_BY_TWO: [(Option<u64>, u64, Reassign); 2] = [
    (Some(1), 5, Reassign::BadClass),
    (None, 1, Reassign::BadClass),
];

/// From which class to which no page begins to move where one of class 1's two pages moves, and why.
const REFUSED_BY_A_MOVE: [(Option<u64>, u64, Reassign); 4] = [
    (Some(1), 1, Reassign::Busy),
    (Some(9), 1, Reassign::Busy),
    (None, 3, Reassign::Busy),
    (Some(1), 0, Reassign::Busy),
];

/// No page begins to move.
fn assert_refused(rt: &impl Abort, all: &mut Driven, rows: &[(Option<u64>, u64, Reassign)]) {
    for (src, dst, why) in rows {
        let begun = all.begin(*src, *dst);
        assert_equal(rt, begun.as_ref().err(), Some(why), "begin");
    }
}

/// No page begins to move while class 1 has none, one and two.
fn assert_too_few(rt: &impl Abort, all: &mut Driven) {
    assert_refused(rt, all, &REFUSED);
    assert_grows(rt, all, 1, 0);
    assert_refused(rt, all, &REFUSED_BY_ONE);
    assert_grows(rt, all, 1, 1);
    assert_refused(rt, all, &REFUSED_BY_TWO);
}

/// One page begins to move, and no other.
fn assert_only_move(rt: &impl Abort, all: &mut Driven) {
    assert_equal(rt, all.moving(), None, "moving");
    assert_equal(rt, all.begin(None, 2), Ok(()), "begin");
    assert_refused(rt, all, &REFUSED_BY_A_MOVE);
}

#[test]
fn the_first_test_that_applies_refuses(rt: HostRuntime) -> Result<(), Fail> {
    let mut all = Driven::new(rt.alloc(), &FOUR_CLASSES)?;
    assert_too_few(&rt, &mut all);
    assert_only_move(&rt, &mut all);
    drop(all);
    Ok(())
}

/// Four pages come to class 4, and two of them to the pool.
fn assert_pooled(rt: &impl Abort, all: &mut Driven) {
    for page in 0..4 {
        assert_grows(rt, all, 4, page);
    }
    for page in 0..2 {
        assert_equal(rt, all.begin(Some(4), 0), Ok(()), "begin");
        let moves = Some(Owner::Moving { src: 4, dst: 0 });
        assert_equal(rt, all.owner(page), moves, "owner");
        assert_finishes(rt, all);
        let found = (all.owner(page), all.half_cut());
        assert_equal(rt, found, (Some(Owner::Pool), None), "owner");
    }
    assert_same(rt, all.totals().pool, 2, "pool");
}

/// Two pages leave the pool, and a page beyond the limit comes to a class.
fn assert_taken(rt: &impl Abort, all: &mut Driven) {
    // The page that came last is the first to leave.
    assert_gets(rt, all, 3, 1, 5);
    assert_grows(rt, all, 2, 0);
    // No page is left within the limit, and the class has none.
    assert_gets(rt, all, 1, 4, 21);
    assert_equal(rt, all.grow(1), Some(Err(Grow::NoRoom)), "grow");
    assert_equal(rt, all.pop(3), chunk(1, 4), "pop");
    let totals = Totals {
        moved: 2,
        ..granted(5)
    };
    assert_equal(rt, all.totals(), totals, "totals");
}

/// The entries of the ledger after these calls.
const LEDGER: [Entry; 11] = [
    Entry::Granted(0, 4, false),
    Entry::Granted(1, 4, false),
    Entry::Granted(2, 4, false),
    Entry::Granted(3, 4, false),
    Entry::Began(0, 4, 0),
    Entry::Ended(0, 0),
    Entry::Began(1, 4, 0),
    Entry::Ended(1, 0),
    Entry::Taken(1, 3),
    Entry::Taken(0, 2),
    Entry::Granted(4, 1, true),
];

/// Who then has each page, and which class got it beyond the limit.
const BASE: [(u64, Option<u64>); 5] = [(2, None), (3, None), (4, None), (4, None), (1, Some(1))];

/// The entries are trimmed: of each page the base keeps what they left.
fn assert_trimmed(rt: &impl Abort, all: &mut Driven) {
    assert_equal(rt, all.ledger(), LEDGER.as_slice(), "ledger");
    all.trim();
    assert_equal(rt, all.ledger(), [].as_slice(), "ledger");
    assert_same(rt, all.trimmed(), 11, "trimmed");
    for (page, (class, grace)) in BASE.iter().enumerate() {
        let left = BasePage {
            owner: Owner::Class(*class),
            grace: *grace,
        };
        assert_equal(rt, all.base().get(page).copied(), Some(left), "base");
    }
}

#[test]
fn a_page_goes_through_the_pool(rt: HostRuntime) -> Result<(), Fail> {
    let mut all = Driven::new(rt.alloc(), &FOUR_CLASSES)?;
    assert_pooled(&rt, &mut all);
    assert_taken(&rt, &mut all);
    assert_trimmed(&rt, &mut all);
    drop(all);
    Ok(())
}

/// What the mover finds in the first pass over a page of class 3.
const FOUND_FIRST: [Found; 5] = [
    Found::Rescued,
    Found::Busy,
    Found::Evicted,
    Found::Locked,
    Found::Rescued,
];

/// What the mover finds in the second pass, where it would clear each chunk.
const FOUND_THEN: [Found; 5] = [
    Found::Already,
    Found::Cleared,
    Found::Already,
    Found::Cleared,
    Found::Already,
];

/// A pass of a move's page, of which two chunks are left.
fn assert_held_up(rt: &impl Abort, all: &mut Driven) {
    assert_equal(rt, all.begin(None, 4), Ok(()), "begin");
    for wanted in &FOUND_FIRST {
        assert_equal(rt, all.pass(*wanted), Some(*wanted), "pass");
    }
    assert_equal(rt, all.pass(Found::Cleared), None, "at the page's end");
    let found = (all.finish(), all.wrap());
    assert_same(rt, found, (false, true), "two chunks are left");
}

/// Another one, which ends the move.
fn assert_ends(rt: &impl Abort, all: &mut Driven) {
    for want in &FOUND_THEN {
        assert_equal(rt, all.pass(Found::Cleared), Some(*want), "pass");
    }
    let found = (all.wrap(), all.finish());
    assert_same(rt, found, (false, true), "nothing held it up");
    assert_cuts(rt, all, 0, 2);
}

/// What was found is counted.
fn assert_counted(rt: &impl Abort, all: &Driven) {
    let totals = Totals {
        granted: 2,
        pool: 0,
        moved: 1,
        rescues: 2,
        evictions_nomem: 1,
        busy: 2,
    };
    assert_equal(rt, all.totals(), totals, "totals");
    let found = (all.numbers(3), all.numbers(4));
    assert_equal(rt, found, (numbers(1, 5), numbers(1, 2)), "numbers");
}

#[test]
fn what_a_move_finds_is_counted(rt: HostRuntime) -> Result<(), Fail> {
    let mut all = Driven::new(rt.alloc(), &FOUR_CLASSES)?;
    assert_grows(&rt, &mut all, 3, 0);
    assert_grows(&rt, &mut all, 3, 1);
    assert_held_up(&rt, &mut all);
    assert_ends(&rt, &mut all);
    assert_counted(&rt, &all);
    drop(all);
    Ok(())
}
