//! Deletes of an item with a given stamp: it goes only where the key has that very item.
ghost use Rattle.mc_words.specs.hand.Ready.{IsReadyHandOf};
ghost use Rattle.testlib_hands.specs.Pairs.{AreReady};

use crate::tests::assert_same;
use mc_items::{
    CompareDeleteError, CompareDeleteWithinError, compare_and_delete, compare_and_delete_within,
    set,
};
use mc_stripe::{Key, Stamp};
use mc_words::{Arena, Hand};
use std::alloc::Global;
use std::process::Abort;
use std::sync::Wait;
use std::test::Fail;
use testlib_hands::{Two, play_two};

/// The key of all calls, and its stripe.
const KEY: Key = 1;

const STRIPE: u64 = 1;

/// A call on the key.
#[derive(Clone, Copy)]
enum Call {
    /// A set of three words.
    Set,
    /// A delete of the item that the last set stored.
    DeletesLast,
    /// A delete of the item that the set before stored.
    DeletesOlder,
    /// These deletes within so many tries.
    DeletesLastWithin(u64),
    DeletesOlderWithin(u64),
}

/// What a call answers.
#[derive(Clone, Copy, PartialEq, Eq, Debug)]
enum Answer {
    Stored,
    Deleted,
    /// The key has the item that the last set stored.
    HasLast,
    /// The key has no item.
    Absent,
    /// Each try for the lock missed.
    Held,
    /// The call was refused for another reason, or found what it isn't to.
    Refused,
}

/// The stamps that the last set returned, and the one before it.
#[derive(Clone, Copy)]
struct Stamps {
    last: Stamp,
    older: Stamp,
}

/// What is answered where the key has this, the stamp of an item or none.
fn answer_of(found: Option<Stamp>, stamps: Stamps) -> Answer {
    match found {
        None => Answer::Absent,
        Some(stamp) if stamp == stamps.last => Answer::HasLast,
        Some(_other) => Answer::Refused,
    }
}

/// What a set answers.
fn set_key<R: Wait>(rt: &R, arena: &Arena, hand: &mut Hand, stamps: &mut Stamps) -> Answer
    requires arena { IsReadyHandOf arena.now hand.old }
    ensures arena { IsReadyHandOf arena.now hand.new }
{
    match set(rt, arena, hand, KEY, &[7, 8, 9]) {
        Ok(last) => {
            *stamps = Stamps {
                last,
                older: stamps.last,
            };
            Answer::Stored
        }
        Err(_refused) => Answer::Refused,
    }
}

/// What a delete of the item with a stamp answers.
fn delete_item<R: Wait>(
    rt: &R,
    arena: &Arena,
    hand: &mut Hand,
    stamp: Stamp,
    stamps: Stamps,
) -> Answer
    requires arena { IsReadyHandOf arena.now hand.old }
    ensures arena { IsReadyHandOf arena.now hand.new }
{
    match compare_and_delete(rt, arena, hand, KEY, stamp) {
        Ok(()) => Answer::Deleted,
        Err(CompareDeleteError::Differs(found)) => answer_of(found, stamps),
        Err(CompareDeleteError::NoMemory(_)) => Answer::Refused,
    }
}

/// What such a delete answers within so many tries.
fn delete_item_within(
    arena: &Arena,
    hand: &mut Hand,
    stamp: Stamp,
    tries: u64,
    stamps: Stamps,
) -> Answer
    requires arena { IsReadyHandOf arena.now hand.old }
    ensures arena { IsReadyHandOf arena.now hand.new }
{
    match compare_and_delete_within(arena, hand, KEY, stamp, tries) {
        Ok(()) => Answer::Deleted,
        Err(CompareDeleteWithinError::Differs(found)) => answer_of(found, stamps),
        Err(CompareDeleteWithinError::NoMemory(_)) => Answer::Refused,
        Err(CompareDeleteWithinError::Held) => Answer::Held,
    }
}

/// What the call answers.
fn act<R: Wait>(rt: &R, arena: &Arena, hand: &mut Hand, call: Call, stamps: &mut Stamps) -> Answer
    requires arena { IsReadyHandOf arena.now hand.old }
    ensures arena { IsReadyHandOf arena.now hand.new }
{
    let Stamps { last, older } = *stamps;
    match call {
        Call::Set => set_key(rt, arena, hand, stamps),
        Call::DeletesLast => delete_item(rt, arena, hand, last, *stamps),
        Call::DeletesOlder => delete_item(rt, arena, hand, older, *stamps),
        Call::DeletesLastWithin(tries) => delete_item_within(arena, hand, last, tries, *stamps),
        Call::DeletesOlderWithin(tries) => delete_item_within(arena, hand, older, tries, *stamps),
    }
}

/// Each call answers what it is to, one after another.
fn play<R: Abort + Wait>(
    rt: &R,
    arena: &Arena,
    hand: &mut Hand,
    calls: &[(Call, Answer)],
    stamps: &mut Stamps,
)
    requires arena { IsReadyHandOf arena.now hand.old }
    ensures arena { IsReadyHandOf arena.now hand.new }
{
    for place in 0..calls.len() {
        let (call, wanted) = calls[place];
        let found = act(rt, arena, hand, call, stamps);
        assert_same(rt, found, wanted, "a call");
    }
}

/// An item that was replaced doesn't take the new one with it, and each goes once.
const CALLS: [(Call, Answer); 12] = [
    (Call::DeletesLast, Answer::Absent),
    (Call::Set, Answer::Stored),
    (Call::Set, Answer::Stored),
    (Call::DeletesOlder, Answer::HasLast),
    (Call::DeletesOlderWithin(1), Answer::HasLast),
    (Call::DeletesLast, Answer::Deleted),
    (Call::DeletesLast, Answer::Absent),
    (Call::Set, Answer::Stored),
    (Call::DeletesLastWithin(0), Answer::Held),
    (Call::DeletesOlder, Answer::HasLast),
    (Call::DeletesLastWithin(1), Answer::Deleted),
    (Call::DeletesLastWithin(1), Answer::Absent),
];

/// While another hand has the lock of the key's stripe, a delete is held.
const BESIDE_STRIPE: [(Call, Answer); 2] = [
    (Call::DeletesLastWithin(3), Answer::Held),
    (Call::DeletesOlderWithin(3), Answer::Held),
];

/// The calls, and then those of one hand while another has the stripe's lock.
fn delete_items<R: Abort + Wait>(rt: &R, _alloc: Global, two: &mut Two) -> Result<(), Fail>
    requires { AreReady two.old }
{
    let Two { arena, hand, other } = two;
    let mut stamps = Stamps { last: 0, older: 0 };
    play(rt, arena, hand, &CALLS, &mut stamps);
    if STRIPE >= arena.config().stripes {
        return Err(Fail::new("the arena has the stripe"));
    }
    let Ok(held) = arena.try_stripe(other, STRIPE) else {
        return Err(Fail::new("the stripe's lock is free"));
    };
    play(rt, arena, hand, &BESIDE_STRIPE, &mut stamps);
    arena.give_stripe(other, held);
    Ok(())
}

#[test]
fn only_the_item_of_the_stamp_is_deleted(rt: HostRuntime) -> Result<(), Fail> {
    play_two!(rt, delete_items)
}
