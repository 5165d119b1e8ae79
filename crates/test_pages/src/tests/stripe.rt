//! Calls of a stripe, worked ones and many at random.
ghost use Rattle.std.specs.Prelude.{◌≡◌, false, IfSome};

mod plain;
mod trims;
mod walks;

use super::{assert_equal, assert_same};
use mc_pages::ChunkId;
use mc_stripe::{Call, HandId, Key, NoMemory, Stamp, Stripe};
use plain::Plain;
use rand_core::Rng;
use rand_pcg::Pcg32;
use std::alloc::Global;
use std::process::Abort;
use std::test::Fail;

/// A call that is tried: on a stripe it is made where its conditions hold.
#[derive(Clone, Copy)]
enum Try {
    Link(HandId, Key, ChunkId, Stamp),
    Unlink(HandId, Key),
    Got(HandId, Key),
    Evict(HandId, Key),
    Lift(Key),
    LiftFound(Key),
    Rescue(HandId, Key, ChunkId),
}

use Try::{Evict, Got, Lift, LiftFound, Link, Rescue, Unlink};

/// Whether another key than this one is aside.
fn another_is_aside(aside: Option<Key>, key: Key) -> bool
    ensures { result ≡ false → IfSome aside (λ other. other ≡ key) }
{
    match aside {
        Some(other) => other != key,
        None => false,
    }
}

/// Makes the call where its conditions hold, and returns whether they did.
fn made(stripe: &mut Stripe, call: Try) -> bool {
    let aside = stripe.aside();
    match call {
        Link(hand, key, chunk, stamp) => {
            if !stripe.can_store() || stripe.find(key).is_some() || another_is_aside(aside, key) {
                return false;
            }
            stripe.link(hand, key, chunk, stamp);
        }
        Unlink(hand, key) => {
            if !stripe.is_ready() || aside == Some(key) {
                return false;
            }
            stripe.unlink(hand, key);
        }
        Got(hand, key) => {
            if !stripe.is_ready() || aside == Some(key) {
                return false;
            }
            let found = stripe.find(key);
            stripe.got(hand, key, found);
        }
        Evict(hand, key) => {
            if !stripe.is_ready() || stripe.find(key).is_none() {
                return false;
            }
            stripe.evict(hand, key);
        }
        Lift(key) => {
            if aside.is_some() || stripe.find(key).is_none() {
                return false;
            }
            stripe.lift(key);
        }
        LiftFound(key) => {
            let Some(place) = stripe.find(key) else {
                return false;
            };
            if aside.is_some() {
                return false;
            }
            stripe.lift_found(key, place);
        }
        Rescue(hand, key, chunk) => {
            if !stripe.can_store() || aside != Some(key) {
                return false;
            }
            stripe.rescue(hand, key, chunk);
        }
    }
    true
}

/// A chunk of page 0.
fn chunk(index: u64) -> ChunkId {
    ChunkId { page: 0, index }
}

/// Where an item is that a test expects.
fn place((index, stamp): (u64, Stamp)) -> (ChunkId, Stamp) {
    (chunk(index), stamp)
}

/// A call, and what the stripe then has: the place of key 1 in the index, the key aside, and the last entry of the
/// history.
type Row = (Try, Option<(u64, Stamp)>, Option<Key>, Option<Call>);

/// Room is made, the call is made, and the stripe has what it is to have.
fn assert_row(rt: &impl Abort, stripe: &mut Stripe, row: Row) -> Result<(), Fail> {
    let (call, first, aside, last) = row;
    stripe.reserve()?;
    assert_same(rt, stripe.is_ready(), true, "is_ready");
    assert_same(rt, made(stripe, call), true, "made");
    let is_lift = matches!(call, Lift(_) | LiftFound(_));
    let found = (stripe.is_ready(), stripe.aside());
    assert_same(rt, found, (is_lift, aside), "is_ready and aside");
    let found = (stripe.find(1), stripe.history().last().copied());
    assert_equal(rt, found, (first.map(place), last), "find and history");
    Ok(())
}

/// Each kind of call, with and without an item under its key.
const ROWS: [Row; 18] = [
    (Got(0, 1), None, None, Some(Call::Get(0, 1, None))),
    (Unlink(0, 1), None, None, Some(Call::Delete(0, 1, false))),
    (
        Link(1, 1, ChunkId { page: 0, index: 4 }, 7),
        Some((4, 7)),
        None,
        Some(Call::Set(1, 1, 7)),
    ),
    (
        Got(2, 1),
        Some((4, 7)),
        None,
        Some(Call::Get(2, 1, Some(7))),
    ),
    // Another item under the key: the old entry is lifted, and the new one's Set counts for both.
    (Lift(1), None, Some(1), Some(Call::Get(2, 1, Some(7)))),
    (
        Link(1, 1, ChunkId { page: 0, index: 5 }, 8),
        Some((5, 8)),
        None,
        Some(Call::Set(1, 1, 8)),
    ),
    // The item goes into another chunk, and keeps its stamp.
    (LiftFound(1), None, Some(1), Some(Call::Set(1, 1, 8))),
    (
        Rescue(3, 1, ChunkId { page: 0, index: 6 }),
        Some((6, 8)),
        None,
        Some(Call::Rescue(3, 1)),
    ),
    (
        Link(1, 9, ChunkId { page: 0, index: 0 }, 9),
        Some((6, 8)),
        None,
        Some(Call::Set(1, 9, 9)),
    ),
    // While a key is aside, others are looked up, deleted and evicted.
    (Lift(1), None, Some(1), Some(Call::Set(1, 9, 9))),
    (Got(0, 9), None, Some(1), Some(Call::Get(0, 9, Some(9)))),
    (Unlink(0, 5), None, Some(1), Some(Call::Delete(0, 5, false))),
    (Evict(0, 9), None, Some(1), Some(Call::Evict(0, 9))),
    (
        Rescue(0, 1, ChunkId { page: 0, index: 7 }),
        Some((7, 8)),
        None,
        Some(Call::Rescue(0, 1)),
    ),
    (Unlink(2, 1), None, None, Some(Call::Delete(2, 1, true))),
    (Got(2, 1), None, None, Some(Call::Get(2, 1, None))),
    (
        Link(2, 1, ChunkId { page: 0, index: 1 }, 10),
        Some((1, 10)),
        None,
        Some(Call::Set(2, 1, 10)),
    ),
    (Evict(0, 1), None, None, Some(Call::Evict(0, 1))),
];

/// Each row, one after another.
fn assert_rows(rt: &impl Abort, stripe: &mut Stripe) -> Result<(), Fail> {
    for row in &ROWS {
        assert_row(rt, stripe, *row)?;
    }
    assert_same(rt, stripe.history().len(), 15, "history");
    Ok(())
}

#[test]
fn each_call_leaves_its_entry(rt: HostRuntime) -> Result<(), Fail> {
    let mut stripe = Stripe::new(rt.alloc());
    let rows = assert_rows(&rt, &mut stripe);
    drop(stripe);
    rows
}

/// A call on one of 24 keys of a stripe. The stamp of an item that is stored is the number of the try.
fn any_call(random: &mut Pcg32, number: u64) -> Try {
    let hand = random.next_u64() % 4;
    let key = random.next_u64() % 24 * 64 + 3;
    let chunk = ChunkId {
        page: random.next_u64() % 4,
        index: random.next_u64() % 256,
    };
    match random.next_u64() % 16 {
        0..=5 => Link(hand, key, chunk, number),
        6 | 7 => Unlink(hand, key),
        8 | 9 => Got(hand, key),
        10 => Evict(hand, key),
        11 => Lift(key),
        12 => LiftFound(key),
        _ => Rescue(hand, key, chunk),
    }
}

/// Both stripes have the same items, the same item aside, the same room, and histories that end alike.
fn assert_same_lists(rt: &impl Abort, stripe: &Stripe, plain: &Plain) {
    for key in 0..24 {
        let key = key * 64 + 3;
        assert_equal(rt, stripe.find(key), plain.find(key), "find");
    }
    let found = (stripe.aside(), stripe.is_ready(), stripe.history().len());
    let wanted = (plain.aside(), plain.ready, plain.history.len());
    assert_same(rt, found, wanted, "aside, is_ready and history");
    assert_equal(rt, stripe.history().last(), plain.history.last(), "history");
}

/// Makes room, at the second try where memory was refused at the first. A refusal leaves all as before.
fn reserve_at_last(
    rt: &impl Abort,
    stripe: &mut Stripe,
    plain: &mut Plain,
) -> Result<(), NoMemory> {
    if stripe.reserve().is_err() {
        assert_same_lists(rt, stripe, plain);
        stripe.reserve()?;
    }
    plain.ready = true;
    Ok(())
}

/// A stripe, and a plain list that is to hold the same.
#[derive(Drop)]
struct Both {
    stripe: Stripe,
    plain: Plain,
}

impl Both {
    /// Nothing was called yet.
    fn new(alloc: Global) -> Both {
        Both {
            stripe: Stripe::new(alloc),
            plain: Plain::new(alloc),
        }
    }
}

/// A rescue is of the key that is aside, if there is one.
fn of_the_aside(call: Try, aside: Option<Key>) -> Try {
    match call {
        Rescue(hand, key, chunk) => Rescue(hand, aside.unwrap_or(key), chunk),
        other => other,
    }
}

/// Both stripes make the call, or don't. True if an item was rescued.
fn make_both(rt: &impl Abort, both: &mut Both, call: Try) -> Result<bool, Fail> {
    let is_made = made(&mut both.stripe, call);
    assert_same(rt, is_made, both.plain.made(call)?, "made");
    assert_same_lists(rt, &both.stripe, &both.plain);
    Ok(is_made && matches!(call, Rescue(_, _, _)))
}

/// A call of both, drawn. True if an item was rescued.
fn call_both(
    rt: &impl Abort,
    both: &mut Both,
    random: &mut Pcg32,
    number: u64,
) -> Result<bool, Fail> {
    if random.next_u64() % 8 != 0 {
        reserve_at_last(rt, &mut both.stripe, &mut both.plain)?;
    }
    let call = any_call(random, number);
    let aside = both.stripe.aside();
    make_both(rt, both, of_the_aside(call, aside))
}

/// How many items were rescued in 1,000 calls of both, drawn by this number.
fn count_rescued(rt: &impl Abort, both: &mut Both, seed: u64) -> Result<u64, Fail> {
    let mut random = Pcg32::new(seed, 0);
    let mut rescued: u64 = 0;
    for number in 0..1000 {
        if call_both(rt, both, &mut random, number)? {
            rescued = rescued.saturating_add(1);
        }
    }
    let history = both.plain.history.as_slice();
    assert_equal(rt, both.stripe.history(), history, "history");
    Ok(rescued)
}

#[test]
fn random_calls_leave_what_a_plain_list_holds(rt: HostRuntime) -> Result<(), Fail> {
    let mut rescued: u64 = 0;
    for seed in 0..8 {
        let mut both = Both::new(rt.alloc());
        let counted = count_rescued(&rt, &mut both, seed);
        drop(both);
        rescued = rescued.saturating_add(counted?);
    }
    assert_same(&rt, rescued > 200, true, "many items were rescued");
    Ok(())
}

/// The chunk of this number, where each page has 256.
fn numbered(number: u64) -> ChunkId {
    ChunkId {
        page: number / 256,
        index: number % 256,
    }
}

/// An item is stored under the stripe's key of this number.
fn store(rt: &impl Abort, stripe: &mut Stripe, number: u64) -> Result<(), NoMemory> {
    stripe.reserve()?;
    let link = Link(1, number.wrapping_mul(64), numbered(number), number);
    assert_same(rt, made(stripe, link), true, "made");
    Ok(())
}

/// The item of this key is found, and then evicted.
fn find_and_evict(rt: &impl Abort, stripe: &mut Stripe, number: u64) -> Result<(), NoMemory> {
    let key = number.wrapping_mul(64);
    let wanted = Some((numbered(number), number));
    assert_equal(rt, stripe.find(key), wanted, "find");
    assert_equal(rt, stripe.find(key.wrapping_add(1)), None, "find");
    stripe.reserve()?;
    assert_same(rt, made(stripe, Evict(1, key)), true, "made");
    assert_equal(rt, stripe.find(key), None, "find");
    Ok(())
}

/// As many keys as a memory has chunks, all of one stripe of 64, come and go.
fn fill_and_empty(rt: &impl Abort, stripe: &mut Stripe) -> Result<(), NoMemory> {
    for number in 0..16_384 {
        store(rt, stripe, number)?;
    }
    for number in 0..16_384 {
        find_and_evict(rt, stripe, number)?;
    }
    assert_same(rt, stripe.history().len(), 32_768, "history");
    Ok(())
}

#[test]
fn a_full_stripe_finds_each_key(rt: HostRuntime) -> Result<(), Fail> {
    let mut stripe = Stripe::new(rt.alloc());
    let filled = fill_and_empty(&rt, &mut stripe);
    drop(stripe);
    Ok(filled?)
}

/// Room for a call, then for an entry, too. Where there is room, no memory is asked for.
fn make_room(rt: &impl Abort, stripe: &mut Stripe) -> Result<(), NoMemory> {
    assert_same(rt, made(stripe, Got(0, 1)), false, "made");
    stripe.reserve_call()?;
    let room = (stripe.is_ready(), stripe.can_store());
    assert_same(rt, room, (true, false), "room for a call");
    assert_same(rt, made(stripe, Link(0, 1, chunk(4), 7)), false, "made");
    stripe.reserve()?;
    assert_same(rt, stripe.can_store(), true, "room for an entry");
    assert_same(rt, stripe.reserve().is_ok(), true, "reserve");
    let twice = (made(stripe, Got(0, 1)), made(stripe, Got(0, 1)));
    assert_same(rt, twice, (true, false), "made");
    let told = [Call::Get(0, 1, None)];
    assert_equal(rt, stripe.history(), told.as_slice(), "history");
    Ok(())
}

#[test]
fn room_is_made_once(rt: HostRuntime) -> Result<(), Fail> {
    let mut stripe = Stripe::new(rt.alloc());
    let room = make_room(&rt, &mut stripe);
    drop(stripe);
    Ok(room?)
}
