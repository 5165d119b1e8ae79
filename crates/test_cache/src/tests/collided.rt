//! Keys that share a few hashes: of those of one hash the last that was stored is there, and the others are missed.
ghost use Rattle.mc_shard.specs.Hands.{IsIdleHandOf};

use super::made::SMALL;
use super::values::{Call, Trial, key_of, value_of};
use mc_shard::{Deletion, HintTable, Label, contains, delete, delete_version, get, set, touch};
use mc_words::{Arena, Hand};
use std::alloc::Global;
use std::sync::Wait;
use std::test::Fail;

/// How many hashes the keys have.
const HASHES: u64 = 3;

/// How many calls are made.
const CALLS: u64 = 2000;

/// Stores the call's version of its key. True if the key is there then, and the next key of its hash isn't.
fn store<R: Wait>(
    rt: &R,
    alloc: Global,
    arena: &Arena,
    hints: &HintTable,
    hand: &mut Hand,
    at: Label,
    call: Call,
) -> Result<bool, Fail>
    requires { IsIdleHandOf arena.now hand.old }
    ensures { IsIdleHandOf arena.now hand.new }
{
    let value = value_of(alloc, call.number, call.version)?;
    let mut words = Vec::new(alloc);
    if set(rt, arena, hints, hand, at, &value, &mut words).is_err() {
        return Ok(false);
    }
    let key = key_of(alloc, call.number.wrapping_add(HASHES))?;
    let other = Label { key: &key, ..at };
    let own = contains(rt, arena, hints, hand, at)?;
    let others = contains(rt, arena, hints, hand, other)?;
    Ok(own && !others)
}

/// Deletes the key. True if it isn't there then.
fn deletes<R: Wait>(
    rt: &R,
    arena: &Arena,
    hints: &HintTable,
    hand: &mut Hand,
    at: Label,
) -> Result<bool, Fail>
    requires { IsIdleHandOf arena.now hand.old }
    ensures { IsIdleHandOf arena.now hand.new }
{
    let _deleted = delete(rt, arena, hints, hand, at)?;
    Ok(!contains(rt, arena, hints, hand, at)?)
}

/// Touches the key. True if it is touched where it is there, and nowhere else.
fn touches<R: Wait>(
    rt: &R,
    arena: &Arena,
    hints: &HintTable,
    hand: &mut Hand,
    at: Label,
) -> Result<bool, Fail>
    requires { IsIdleHandOf arena.now hand.old }
    ensures { IsIdleHandOf arena.now hand.new }
{
    let there = contains(rt, arena, hints, hand, at)?;
    Ok(touch(rt, arena, hints, hand, at)? == there)
}

/// Gets the key. True if its bytes are its value, or none where it isn't there.
fn finds<R: Wait>(
    rt: &R,
    arena: &Arena,
    hints: &HintTable,
    hand: &mut Hand,
    trial: &Trial,
    at: Label,
    number: u64,
) -> Result<bool, Fail>
    requires { IsIdleHandOf arena.now hand.old }
    ensures { IsIdleHandOf arena.now hand.new }
{
    let mut bytes = Vec::new(trial.alloc);
    if get(rt, arena, hints, hand, at, &mut bytes)? {
        Ok(trial.is_value(number, &bytes)?)
    } else {
        Ok(bytes.is_empty())
    }
}

/// The call on its key. True if all that was found was right.
fn act_at<R: Wait>(
    rt: &R,
    arena: &Arena,
    hints: &HintTable,
    hand: &mut Hand,
    trial: &mut Trial,
    at: Label,
    call: Call,
) -> Result<bool, Fail>
    requires { IsIdleHandOf arena.now hand.old }
    ensures { IsIdleHandOf arena.now hand.new }
{
    match call.kind {
        0 | 1 | 2 => {
            trial.note(call.number, Some(call.version));
            store(rt, trial.alloc, arena, hints, hand, at, call)
        }
        3 => {
            trial.note(call.number, None);
            deletes(rt, arena, hints, hand, at)
        }
        4 => touches(rt, arena, hints, hand, at),
        _ => finds(rt, arena, hints, hand, trial, at, call.number),
    }
}

/// One drawn call. True if all that was found was right.
fn act<R: Wait>(
    rt: &R,
    arena: &Arena,
    hints: &HintTable,
    hand: &mut Hand,
    trial: &mut Trial,
) -> Result<bool, Fail>
    requires { IsIdleHandOf arena.now hand.old }
    ensures { IsIdleHandOf arena.now hand.new }
{
    let call = trial.draw();
    let hash = call.number % HASHES;
    let key = key_of(trial.alloc, call.number)?;
    act_at(
        rt,
        arena,
        hints,
        hand,
        trial,
        Label { hash, key: &key },
        call,
    )
}

/// All calls, before one that found what is wrong. True if none did.
fn act_often<R: Wait>(
    rt: &R,
    alloc: Global,
    arena: &Arena,
    hints: &HintTable,
    hand: &mut Hand,
) -> Result<bool, Fail>
    requires { IsIdleHandOf arena.now hand.old }
{
    let mut trial = Trial::new(alloc, 3)?;
    for _ in 0..CALLS {
        if !act(rt, arena, hints, hand, &mut trial)? {
            return Ok(false);
        }
    }
    Ok(true)
}

/// Drawn calls on forty keys of three hashes.
#[test]
#[tactic(auto, using(crate::proofs::Idle::idle))]
fn other_keys_of_a_hash_are_missed(rt: HostRuntime) -> Result<(), Fail> {
    let (arena, mut hands) = Arena::new(rt.alloc(), &SMALL, 1)?;
    let mut hand = hands.remove(0);
    let hints = HintTable::new(rt.alloc(), 2)?;
    let right = act_often(&rt, rt.alloc(), &arena, &hints, &mut hand)?;
    assert!(rt; right, "a key of another was found, or its own wasn't");
    Ok(())
}

/// Stores a value, and then deletes another key of its hash by its version. True if there is no such value, and the one that is stored stays.
fn spares_other<R: Wait>(
    rt: &R,
    alloc: Global,
    arena: &Arena,
    hints: &HintTable,
    hand: &mut Hand,
) -> Result<bool, Fail>
    requires { IsIdleHandOf arena.now hand.old }
{
    let stored = Label {
        hash: 1,
        key: b"river",
    };
    let mut words = Vec::new(alloc);
    let Ok(version) = set(rt, arena, hints, hand, stored, b"Aare", &mut words) else {
        return Err(Fail::new("the value isn't stored"));
    };
    let other = Label {
        key: b"city",
        ..stored
    };
    let deletion = delete_version(rt, arena, hints, hand, other, version)?;
    let stays = contains(rt, arena, hints, hand, stored)?;
    Ok(deletion == Deletion::Missing && stays)
}

#[test]
#[tactic(auto, using(crate::proofs::Idle::idle))]
fn a_version_of_another_key_stays(rt: HostRuntime) -> Result<(), Fail> {
    let (arena, mut hands) = Arena::new(rt.alloc(), &SMALL, 1)?;
    let mut hand = hands.remove(0);
    let hints = HintTable::new(rt.alloc(), 2)?;
    let right = spares_other(&rt, rt.alloc(), &arena, &hints, &mut hand)?;
    assert!(rt; right, "the item of another key was deleted");
    Ok(())
}
