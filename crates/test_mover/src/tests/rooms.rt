//! Room that is made in a class: which items go, and which stay.
ghost use Rattle.mc_words.specs.hand.Ready.{IsReadyHandOf};

use super::steps::Step;
use mc_items::{Marks, Room, make_room};
use mc_stripe::Key;
use mc_words::{Arena, Hand};
use std::sync::Wait;
use std::test::Fail;
use testlib_hands::{FOUR_CLASSES, run};

/// Keys below this one are marked.
#[derive(Drop)]
struct MarkedBelow(Key);

impl Marks for MarkedBelow {
    fn take(&self, key: u64) -> bool {
        key < self.0
    }
}

/// Whether room for items of 61 words is made so, where keys below this one are marked.
pub fn makes<R: Wait>(rt: &R, arena: &Arena, hand: &mut Hand, below: Key, wanted: Room) -> bool
    requires arena { IsReadyHandOf arena.now hand.old }
    ensures arena { IsReadyHandOf arena.now hand.new }
{
    let Some(class) = arena.classes().class_for(512) else {
        return false;
    };
    match make_room(rt, arena, hand, class, &MarkedBelow(below)) {
        Ok(room) => room == wanted,
        Err(_) => false,
    }
}

/// Four items were evicted, and their chunks put back.
const FOUR: Room = Room::Freed {
    evicted: 4,
    freed: 4,
};

/// Eight items, which are all that there is room for.
const EIGHT: Step = Step::Sets(1, 9, 61);

#[test]
fn marked_items_get_a_second_chance(rt: HostRuntime) -> Result<(), Fail> {
    let steps = [
        EIGHT,
        Step::Makes(3, FOUR),
        Step::Has(4, 4, 4, 4),
        Step::Makes(0, Room::Had),
        Step::Sets(21, 25, 61),
        Step::Makes(0, FOUR),
        Step::Touches(1, false),
        Step::Touches(2, false),
        Step::Touches(3, false),
        Step::Touches(6, false),
        Step::Touches(8, false),
        Step::Touches(21, true),
    ];
    run(&rt, rt.alloc(), &FOUR_CLASSES, &steps)
}

#[test]
fn held_items_stay(rt: HostRuntime) -> Result<(), Fail> {
    let steps = [
        EIGHT,
        Step::TryGets(1, None),
        Step::Makes(0, FOUR),
        Step::Touches(1, true),
        Step::Touches(2, false),
        Step::Touches(5, false),
        Step::Touches(6, true),
    ];
    run(&rt, rt.alloc(), &FOUR_CLASSES, &steps)
}

#[test]
fn marked_items_alone_leave_no_room(rt: HostRuntime) -> Result<(), Fail> {
    let steps = [
        EIGHT,
        Step::Makes(9, Room::Full),
        Step::Touches(1, true),
        Step::Touches(8, true),
    ];
    run(&rt, rt.alloc(), &FOUR_CLASSES, &steps)
}

#[test]
fn a_page_comes_before_an_eviction(rt: HostRuntime) -> Result<(), Fail> {
    let steps = [
        Step::Sets(1, 3, 61),
        Step::Makes(0, Room::Page),
        Step::Makes(0, Room::Had),
        Step::Has(4, 2, 2, 2),
    ];
    run(&rt, rt.alloc(), &FOUR_CLASSES, &steps)
}

#[test]
fn dead_chunks_come_before_an_eviction(rt: HostRuntime) -> Result<(), Fail> {
    let steps = [
        EIGHT,
        Step::Deletes(5),
        Step::Makes(0, Room::Had),
        Step::Touches(1, true),
    ];
    run(&rt, rt.alloc(), &FOUR_CLASSES, &steps)
}

/// A hand that made room remembers what its sets leave dead. A set over item 5 evicts item 1, and leaves the chunk of item 5 dead.
#[test]
fn the_own_dead_chunk_comes_before_an_eviction(rt: HostRuntime) -> Result<(), Fail> {
    let steps = [
        Step::Sets(1, 8, 61),
        Step::Makes(0, Room::Had),
        Step::Sets(8, 9, 61),
        Step::Sets(5, 6, 61),
        Step::Makes(0, Room::Had),
        Step::Touches(1, false),
        Step::Touches(2, true),
        Step::Touches(5, true),
    ];
    run(&rt, rt.alloc(), &FOUR_CLASSES, &steps)
}

#[test]
fn mode_two_asks_for_a_move(rt: HostRuntime) -> Result<(), Fail> {
    let steps = [
        Step::Modes(2),
        Step::Sets(1, 5, 61),
        Step::Sets(11, 17, 20),
        Step::Pages(4, 0, false),
        Step::Makes(0, FOUR),
        Step::Pages(4, 0, true),
    ];
    run(&rt, rt.alloc(), &FOUR_CLASSES, &steps)
}
