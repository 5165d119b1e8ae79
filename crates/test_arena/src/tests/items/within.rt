//! Calls that try for each lock n times: `Held` while another hand has the lock, and done once it is given.
ghost use Rattle.mc_words.specs.hand.Arenas.{IsHandOf};
ghost use Rattle.mc_words.specs.hand.Ready.{IsReadyHandOf};
ghost use Rattle.testlib_hands.specs.Pairs.{AreReady};

use crate::tests::assert_same;
use mc_items::{
    NoMarks, SetWithinError, TryGetError, WithinError, bump_within, delete_within, get_within,
    make_room_within, release, set_hinted_within, set_within, touch_within,
};
use mc_pages::ChunkId;
use mc_stripe::Key;
use mc_words::{Arena, Hand};
use std::alloc::Global;
use std::process::Abort;
use std::test::Fail;
use testlib_hands::{Two, header, play_two};

/// The key of all calls, and its stripe.
const KEY: Key = 1;

const STRIPE: u64 = 1;

/// The first chunk of a class of 21 chunks a page that goes out.
const FIRST: ChunkId = ChunkId { page: 0, index: 20 };

/// The header of a chunk to whose item a key leads, and which nobody holds.
const LINKED: u64 = 458_753;

/// A call with n tries for each lock.
#[derive(Clone, Copy)]
enum Call {
    Room,
    Set,
    SetHinted,
    Get,
    Bump,
    Touch,
    Delete,
}

/// What a call answers.
#[derive(Clone, Copy, PartialEq, Eq, Debug)]
enum Answer {
    /// Each try for one of its locks missed.
    Held,
    /// The call was done, and its item is there, or was deleted.
    Done,
    /// The key has no item.
    Absent,
    /// The call was refused for another reason.
    Refused,
}

/// What a set of three words answers.
fn set_key(arena: &Arena, hand: &mut Hand, tries: u64) -> Answer
    requires arena { IsReadyHandOf arena.now hand.old }
    ensures arena { IsReadyHandOf arena.now hand.new }
{
    match set_within(arena, hand, KEY, &[7, 8, 9], tries) {
        Ok(_) => Answer::Done,
        Err(SetWithinError::Held) => Answer::Held,
        Err(_) => Answer::Refused,
    }
}

/// What such a set answers that returns a hint, too.
fn set_hinted_key(arena: &Arena, hand: &mut Hand, tries: u64) -> Answer
    requires arena { IsReadyHandOf arena.now hand.old }
    ensures arena { IsReadyHandOf arena.now hand.new }
{
    match set_hinted_within(arena, hand, KEY, &[7, 8, 9], tries) {
        Ok(_) => Answer::Done,
        Err(SetWithinError::Held) => Answer::Held,
        Err(_) => Answer::Refused,
    }
}

/// What it answers to make room for a set of three words.
fn make_room(arena: &Arena, hand: &mut Hand, tries: u64) -> Answer
    requires arena { IsReadyHandOf arena.now hand.old }
    ensures arena { IsReadyHandOf arena.now hand.new }
{
    let Some(class) = arena.classes().class_for(48) else {
        return Answer::Refused;
    };
    match make_room_within(arena, hand, class, &NoMarks, tries) {
        Ok(_) => Answer::Done,
        Err(WithinError::Held) => Answer::Held,
        Err(WithinError::NoMemory(_)) => Answer::Refused,
    }
}

/// What a get answers, whose reference is released.
fn get_key(arena: &Arena, hand: &mut Hand, tries: u64) -> Answer
    requires arena { IsReadyHandOf arena.now hand.old }
    ensures arena { IsReadyHandOf arena.now hand.new }
{
    match get_within(arena, hand, KEY, tries) {
        Ok(Some(item)) => {
            release(arena, hand, item);
            Answer::Done
        }
        Ok(None) => Answer::Absent,
        Err(TryGetError::Held) => Answer::Held,
        Err(_) => Answer::Refused,
    }
}

/// What a bump answers, by a reference that one try got and that is released.
fn bump_key(arena: &Arena, hand: &mut Hand, tries: u64) -> Answer
    requires arena { IsReadyHandOf arena.now hand.old }
    ensures arena { IsReadyHandOf arena.now hand.new }
{
    let Ok(Some(item)) = get_within(arena, hand, KEY, 1) else {
        return Answer::Refused;
    };
    let is_moved = bump_within(arena, hand, &item, tries).is_ok();
    release(arena, hand, item);
    if is_moved { Answer::Done } else { Answer::Held }
}

/// What is answered of a key that had an item, or had none.
fn answer_of(found: Result<bool, WithinError>) -> Answer {
    match found {
        Ok(true) => Answer::Done,
        Ok(false) => Answer::Absent,
        Err(WithinError::Held) => Answer::Held,
        Err(WithinError::NoMemory(_)) => Answer::Refused,
    }
}

/// What the call answers.
fn act(arena: &Arena, hand: &mut Hand, call: Call, tries: u64) -> Answer
    requires arena { IsReadyHandOf arena.now hand.old }
    ensures arena { IsReadyHandOf arena.now hand.new }
{
    match call {
        Call::Room => make_room(arena, hand, tries),
        Call::Set => set_key(arena, hand, tries),
        Call::SetHinted => set_hinted_key(arena, hand, tries),
        Call::Get => get_key(arena, hand, tries),
        Call::Bump => bump_key(arena, hand, tries),
        Call::Touch => answer_of(touch_within(arena, hand, KEY, tries)),
        Call::Delete => answer_of(delete_within(arena, hand, KEY, tries)),
    }
}

/// Each call answers what it is to, one after another.
fn play(rt: &impl Abort, arena: &Arena, hand: &mut Hand, calls: &[(Call, u64, Answer)])
    requires arena { IsReadyHandOf arena.now hand.old }
    ensures arena { IsReadyHandOf arena.now hand.new }
{
    for place in 0..calls.len() {
        let (call, tries, wanted) = calls[place];
        let found = act(arena, hand, call, tries);
        assert_same(rt, found, wanted, "a call");
    }
}

/// The same, while another hand has the lock of the key's stripe. It gives the lock back.
fn play_beside_stripe(
    rt: &impl Abort,
    arena: &Arena,
    hand: &mut Hand,
    holder: &mut Hand,
    calls: &[(Call, u64, Answer)],
) -> Result<(), Fail>
    requires arena { IsReadyHandOf arena.now hand.old }
    requires holder { IsReadyHandOf arena.now holder.old }
    ensures arena { IsReadyHandOf arena.now hand.new }
    ensures holder { IsHandOf arena.now holder.new }
{
    if STRIPE >= arena.config().stripes {
        return Err(Fail::new("the arena has the stripe"));
    }
    let Ok(held) = arena.try_stripe(holder, STRIPE) else {
        return Err(Fail::new("the stripe's lock is free"));
    };
    play(rt, arena, hand, calls);
    arena.give_stripe(holder, held);
    Ok(())
}

/// The same, while another hand has the slabs.
fn play_beside_slabs(
    rt: &impl Abort,
    arena: &Arena,
    hand: &mut Hand,
    holder: &mut Hand,
    calls: &[(Call, u64, Answer)],
) -> Result<(), Fail>
    requires arena { IsReadyHandOf arena.now hand.old }
    requires holder { IsHandOf arena.now holder.old }
    ensures arena { IsReadyHandOf arena.now hand.new }
    ensures holder { IsHandOf arena.now holder.new }
{
    let Ok(held) = arena.try_slabs(holder) else {
        return Err(Fail::new("the slabs lock is free"));
    };
    play(rt, arena, hand, calls);
    arena.give_slabs(holder, held);
    Ok(())
}

/// With no tries each call is held, though each lock is free. One try is enough for a set then.
const WITHOUT_TRIES: [(Call, u64, Answer); 8] = [
    (Call::Room, 0, Answer::Held),
    (Call::SetHinted, 0, Answer::Held),
    (Call::Set, 0, Answer::Held),
    (Call::Get, 0, Answer::Held),
    (Call::Get, 1, Answer::Absent),
    (Call::Touch, 1, Answer::Absent),
    (Call::Delete, 1, Answer::Absent),
    (Call::Set, 1, Answer::Done),
];

/// While another hand has the stripe, each call on the key is held. Room is made.
const BESIDE_STRIPE: [(Call, u64, Answer); 7] = [
    (Call::Room, 3, Answer::Done),
    (Call::SetHinted, 3, Answer::Held),
    (Call::Set, 1, Answer::Held),
    (Call::Set, 3, Answer::Held),
    (Call::Get, 3, Answer::Held),
    (Call::Touch, 3, Answer::Held),
    (Call::Delete, 3, Answer::Held),
];

/// While another hand has the slabs, what moves or takes a chunk is held. A get is done.
const BESIDE_SLABS: [(Call, u64, Answer); 7] = [
    (Call::Room, 3, Answer::Held),
    (Call::SetHinted, 3, Answer::Held),
    (Call::Set, 3, Answer::Held),
    (Call::Bump, 3, Answer::Held),
    (Call::Touch, 1, Answer::Held),
    (Call::Touch, 3, Answer::Held),
    (Call::Get, 3, Answer::Done),
];

/// Once both are given, one try is enough for each call.
const BEHIND_BOTH: [(Call, u64, Answer); 10] = [
    (Call::Room, 1, Answer::Done),
    (Call::SetHinted, 1, Answer::Done),
    (Call::Bump, 0, Answer::Held),
    (Call::Touch, 0, Answer::Held),
    (Call::Delete, 0, Answer::Held),
    (Call::Bump, 1, Answer::Done),
    (Call::Touch, 1, Answer::Done),
    (Call::Delete, 1, Answer::Done),
    (Call::Delete, 1, Answer::Absent),
    (Call::Get, 1, Answer::Absent),
];

/// The calls without tries, beside each lock, and behind both. The item's chunk is linked and held by nobody before the last ones: a touch
/// that was held off gave its reference up.
fn try_all<R: Abort>(rt: &R, _alloc: Global, two: &mut Two) -> Result<(), Fail>
    requires { AreReady two.old }
{
    let Two { arena, hand, other } = two;
    play(rt, arena, hand, &WITHOUT_TRIES);
    play_beside_stripe(rt, arena, hand, other, &BESIDE_STRIPE)?;
    play_beside_slabs(rt, arena, hand, other, &BESIDE_SLABS)?;
    let head = header(arena, hand, FIRST);
    assert_same(rt, head, Some(LINKED), "the item's header");
    play(rt, arena, hand, &BEHIND_BOTH);
    Ok(())
}

#[test]
fn calls_give_up_after_their_tries(rt: HostRuntime) -> Result<(), Fail> {
    play_two!(rt, try_all)
}
