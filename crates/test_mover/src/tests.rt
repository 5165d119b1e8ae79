//! The tests, and what they have in common.
mod evicting;
mod full;
mod hints;
mod holding;
mod locks;
mod lost;
mod mode_two;
mod refusals;
mod rescuing;
mod rooms;
mod steps;
mod surveys;
mod trims;
mod within;

ghost use Rattle.mc_words.specs.hand.Ready.{IsReadyHandOf};

use mc_pages::ChunkId;
use mc_words::{Arena, Hand};
use std::fmt::Debug;
use std::process::Abort;
use testlib_hands::header;

/// What was found is what was wanted. Both are printed where they differ.
fn assert_same<T: Copy + PartialEq + Debug>(rt: &impl Abort, found: T, wanted: T, what: &str) {
    assert_eq!(rt; found, wanted, "{what}");
}

/// What was found is what was wanted, for values that can't be printed.
fn assert_equal<T: PartialEq + Drop>(rt: &impl Abort, found: T, wanted: T, what: &str) {
    assert!(rt; found == wanted, "{what}");
}

/// The chunk of the first page has this header.
fn assert_head(rt: &impl Abort, arena: &Arena, hand: &mut Hand, index: u64, wanted: u64, what: &str)
    requires arena { IsReadyHandOf arena.now hand.old }
    ensures arena { IsReadyHandOf arena.now hand.new }
{
    let found = header(arena, hand, ChunkId { page: 0, index });
    assert_same(rt, found, Some(wanted), what);
}
