//! Items that are held hold up their page.
ghost use Rattle.testlib_hands.specs.Pairs.{AreReady};

use super::assert_same;
use super::steps::{Step, reads_held};
use mc_pages::Reassign;
use std::alloc::Global;
use std::process::Abort;
use std::sync::Wait;
use std::test::Fail;
use testlib_hands::{Two, get_key, play_all, play_two, store_all};

/// A page moves whose item the reader holds, reads and releases.
fn move_a_held_page<R: Abort + Wait>(rt: &R, alloc: Global, two: &mut Two) -> Result<(), Fail>
    requires { AreReady two.old }
{
    let Two {
        arena,
        hand,
        other: reader,
    } = two;
    let stored = store_all(rt, alloc, arena, hand, (1, 9), 100, 22)?;
    assert_same(rt, stored, true, "eight sets");
    let Some(item) = get_key(rt, arena, reader, 1) else {
        return Err(Fail::new("the key has an item"));
    };
    let steps = [
        Step::Reassigns(Some(4), 1, Ok(())),
        Step::Goes(1, 0, 1, 1, 0),
        Step::Pages(4, 0, true),
        Step::Moved(0, 0, 1, 1),
        Step::Reassigns(Some(4), 2, Err(Reassign::Busy)),
    ];
    play_all(rt, alloc, arena, hand, &steps)?;
    let same = reads_held(alloc, arena, reader, item, (100, 22))?;
    assert_same(rt, same, true, "words 100 to 121");
    let steps = [Step::Finishes(1, 0, 1, 0, 0), Step::Idles];
    play_all(rt, alloc, arena, hand, &steps)?;
    Ok(())
}

#[test]
fn a_held_item_keeps_its_page_and_its_words(rt: HostRuntime) -> Result<(), Fail> {
    play_two!(rt, move_a_held_page)
}
