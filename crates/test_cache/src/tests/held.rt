//! A stripe whose lock another hand has: a clear stops there and returns what it deleted, and a list of the stripe's keys puts none.
ghost use Rattle.std.specs.Prelude.{◌<◌};
ghost use Rattle.mc_words.specs.hand.Arenas.{setup_of};
ghost use Rattle.mc_shard.specs.Hands.{IsIdleHandOf};

use super::made::SMALL;
use mc_items::WithinError;
use mc_shard::{ClearWithinError, HintTable, Label, clear_within, keys_within, set};
use mc_words::{Arena, Hand};
use std::alloc::Global;
use std::process::Abort;
use std::sync::Wait;
use std::test::Fail;

/// How many hashes have a key: two in each stripe.
const HASHES: u64 = 8;

/// The stripe whose lock another hand has.
const HELD_STRIPE: u64 = 2;

/// Stores a key under each hash. How many of them were refused.
fn store_each<R: Wait>(
    rt: &R,
    alloc: Global,
    arena: &Arena,
    hints: &HintTable,
    hand: &mut Hand,
) -> u64
    requires { IsIdleHandOf arena.now hand.old }
    ensures { IsIdleHandOf arena.now hand.new }
{
    let mut words = Vec::new(alloc);
    let mut refused: u64 = 0;
    for hash in 0..HASHES {
        let at = Label { hash, key: b"key" };
        if set(rt, arena, hints, hand, at, b"value", &mut words).is_err() {
            refused = refused.wrapping_add(1);
        }
    }
    refused
}

/// How many keys of the stripe are listed within four tries. None if the list is held.
fn list_stripe(
    alloc: Global,
    arena: &Arena,
    hints: &HintTable,
    hand: &mut Hand,
) -> Result<Option<usize>, Fail>
    requires idle { IsIdleHandOf arena.now hand.old }
    requires stripe { 2 < (setup_of arena.now).config.stripes }
    ensures { IsIdleHandOf arena.now hand.new }
{
    let mut keys = Vec::new(alloc);
    match keys_within(alloc, arena, hints, hand, HELD_STRIPE, 4, &mut keys) {
        Ok(()) => Ok(Some(keys.len())),
        Err(WithinError::Held) if keys.is_empty() => Ok(None),
        Err(_) => Err(Fail::new("memory was refused, or a held list put a key")),
    }
}

/// With the stripe's lock held elsewhere the stripes before it are cleared and counted. The next clear deletes the others.
#[test]
#[tactic(auto, using(crate::proofs::Idle::idle))]
fn a_held_clear_returns_what_it_deleted(rt: HostRuntime) -> Result<(), Fail> {
    let (arena, mut hands) = Arena::new(rt.alloc(), &SMALL, 2)?;
    let mut hand = hands.remove(0);
    let mut other = hands.remove(0);
    let hints = HintTable::new(rt.alloc(), 2)?;
    let refused = store_each(&rt, rt.alloc(), &arena, &hints, &mut hand);
    assert!(rt; refused == 0, "a key wasn't stored");
    if arena.config().stripes <= HELD_STRIPE {
        return Err(Fail::new("there is no such stripe"));
    }
    let held = arena.lock_stripe(&rt, &mut other, HELD_STRIPE);
    let unlisted = list_stripe(rt.alloc(), &arena, &hints, &mut hand);
    let stopped = clear_within(&arena, &mut hand, 4);
    arena.give_stripe(&mut other, held);
    assert!(rt; unlisted? == None, "keys were listed without the lock");
    assert!(rt;
        stopped == Err(ClearWithinError::Held(4)),
        "the clear went on, or counted other keys"
    );
    let listed = list_stripe(rt.alloc(), &arena, &hints, &mut hand)?;
    assert!(rt; listed == Some(2), "other keys were listed");
    let cleared = clear_within(&arena, &mut hand, 4);
    assert!(rt; cleared == Ok(4), "the next clear deleted other keys");
    Ok(())
}
