//! A ledger that is trimmed while a page moves.
use super::driven::Driven;
use super::{assert_equal, assert_finishes, assert_grows};
use mc_pages::{BasePage, Entry, Owner};
use std::process::Abort;
use std::test::Fail;
use testlib_values::FOUR_CLASSES;

/// What a trim keeps of the first page, which moves.
const MOVING: BasePage = BasePage {
    owner: Owner::Moving { src: 4, dst: 1 },
    grace: None,
};

/// A page begins to move, between two trims.
fn assert_begins(rt: &impl Abort, all: &mut Driven) {
    assert_grows(rt, all, 4, 0);
    assert_grows(rt, all, 4, 1);
    all.trim();
    assert_equal(rt, all.begin(Some(4), 1), Ok(()), "begin");
    all.trim();
    let kept = (all.trimmed(), all.base().first().copied());
    assert_equal(rt, kept, (3, Some(MOVING)), "trimmed");
}

/// The move of the page ends behind the two trims.
fn assert_ends(rt: &impl Abort, all: &mut Driven) {
    assert_finishes(rt, all);
    assert_equal(rt, all.ledger(), [Entry::Ended(0, 1)].as_slice(), "ledger");
    assert_equal(rt, all.base().first().copied(), Some(MOVING), "base");
}

#[test]
fn a_trim_leaves_the_room_of_a_move(rt: HostRuntime) -> Result<(), Fail> {
    let mut all = Driven::new(rt.alloc(), &FOUR_CLASSES)?;
    assert_begins(&rt, &mut all);
    assert_ends(&rt, &mut all);
    drop(all);
    Ok(())
}
