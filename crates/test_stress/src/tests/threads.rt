//! The tests of what `testlib_threads` has.
use std::test::Fail;

#[test]
fn each_get_is_noted(rt: HostRuntime) -> Result<(), Fail> {
    testlib_threads::each_get_is_noted(&rt, rt.alloc())
}

#[test]
fn no_read_shows_another_item(rt: HostRuntime) -> Result<(), Fail> {
    testlib_threads::no_read_shows_another_item(&rt, rt.alloc())
}

#[test]
fn readers_keep_their_words_beside_a_mover(rt: HostRuntime) -> Result<(), Fail> {
    testlib_threads::readers_keep_their_words_beside_a_mover(&rt, rt.alloc())
}

#[test]
fn the_last_move_ends_once_nobody_holds_an_item(rt: HostRuntime) -> Result<(), Fail> {
    testlib_threads::the_last_move_ends_once_nobody_holds_an_item(&rt, rt.alloc())
}
