//! Calls one after another, with no test of the hand between them.
ghost use Rattle.std.specs.Prelude.{◌≡◌, IfSome, true};
ghost use Rattle.mc_core.specs.model.State.{has_chunk};
ghost use Rattle.mc_words.specs.hand.Arenas.{setup_of};
ghost use Rattle.mc_words.specs.hand.Observers.{hint_chunk, hand_number};
ghost use Rattle.mc_words.specs.hand.Ready.{IsReadyHandOf};

use mc_items::{again, delete, get, hint, read, release, set, touch, try_get};
use mc_mover::{forget, reassign, set_mode, survey, trim, try_turn, turn};
use mc_words::{Arena, Hand, Hint};
use std::alloc::Global;
use std::sync::Wait;

/// Makes two calls of each kind, one after the other: the hand is ready for each.
pub fn call_twice<R: Wait>(rt: &R, alloc: Global, arena: &Arena, hand: &mut Hand, key: u64)
    requires { IsReadyHandOf arena.now hand.old }
    ensures ready { IsReadyHandOf arena.now hand.new }
    ensures number { hand_number hand.new ≡ hand_number hand.old }
{
    let _ = set(rt, arena, hand, key, &[1, 2, 3]);
    let _ = set(rt, arena, hand, key, &[4, 5]);
    let first = get_and_hint(rt, alloc, arena, hand, key);
    let second = get_and_hint(rt, alloc, arena, hand, key);
    get_by_hint(arena, hand, first);
    get_by_hint(arena, hand, second);
    try_and_release(arena, hand, key);
    try_and_release(arena, hand, key);
    let _ = touch(rt, arena, hand, key);
    let _ = touch(rt, arena, hand, key);
    let _ = delete(rt, arena, hand, key);
    let _ = delete(rt, arena, hand, key);
    move_twice(rt, alloc, arena, hand);
}

// Gets the key's item, reads it twice and releases it. A hint of it, if the key has one.
fn get_and_hint<R: Wait>(
    rt: &R,
    alloc: Global,
    arena: &Arena,
    hand: &mut Hand,
    key: u64,
) -> Option<Hint>
    requires { IsReadyHandOf arena.now hand.old }
    ensures ready { IsReadyHandOf arena.now hand.new }
    ensures number { hand_number hand.new ≡ hand_number hand.old }
    ensures in_range { IfSome result (λ hint. has_chunk (setup_of arena.now).table (hint_chunk hint)
        ≡ true) }
{
    let Ok(Some(item)) = get(rt, arena, hand, key) else {
        return None;
    };
    let _ = read(alloc, arena, hand, &item);
    let _ = read(alloc, arena, hand, &item);
    let hint = hint(&item);
    release(arena, hand, item);
    Some(hint)
}

// Gets the item of a hint, if there is one and it is there still, and releases it.
fn get_by_hint(arena: &Arena, hand: &mut Hand, hint: Option<Hint>)
    requires ready { IsReadyHandOf arena.now hand.old }
    requires in_range { IfSome hint (λ hint. has_chunk (setup_of arena.now).table (hint_chunk hint)
        ≡ true) }
    ensures ready { IsReadyHandOf arena.now hand.new }
    ensures number { hand_number hand.new ≡ hand_number hand.old }
{
    if let Some(hint) = hint {
        if let Ok(item) = again(arena, hand, hint) {
            release(arena, hand, item);
        }
    }
}

// Gets the key's item without waiting, and releases it.
fn try_and_release(arena: &Arena, hand: &mut Hand, key: u64)
    requires { IsReadyHandOf arena.now hand.old }
    ensures ready { IsReadyHandOf arena.now hand.new }
    ensures number { hand_number hand.new ≡ hand_number hand.old }
{
    if let Ok(Some(item)) = try_get(arena, hand, key) {
        release(arena, hand, item);
    }
}

// Makes two calls of each kind that the mover has.
fn move_twice<R: Wait>(rt: &R, alloc: Global, arena: &Arena, hand: &mut Hand)
    requires { IsReadyHandOf arena.now hand.old }
    ensures ready { IsReadyHandOf arena.now hand.new }
    ensures number { hand_number hand.new ≡ hand_number hand.old }
{
    set_mode(rt, arena, hand, 1);
    set_mode(rt, arena, hand, 2);
    let _ = reassign(rt, arena, hand, None, 1);
    let _ = reassign(rt, arena, hand, None, 1);
    let _ = turn(rt, arena, hand);
    let _ = turn(rt, arena, hand);
    let _ = try_turn(arena, hand);
    let _ = try_turn(arena, hand);
    let _ = survey(rt, alloc, arena, hand, true);
    let _ = survey(rt, alloc, arena, hand, false);
    let _ = trim(rt, arena, hand);
    let _ = trim(rt, arena, hand);
    forget(rt, arena, hand);
    forget(rt, arena, hand);
}
