//! Stripes whose calls are trimmed, and stripes that forget them.
use super::Try::{Got, Lift, Link, Rescue, Unlink};
use super::plain::Plain;
use super::{Both, Try, any_call, assert_equal, assert_same, chunk, made, place};
use mc_pages::ChunkId;
use mc_stripe::{Call, Key, NoMemory, Stamp, Stripe, Trim};
use rand_core::Rng;
use rand_pcg::Pcg32;
use std::process::Abort;
use std::test::Fail;

/// Makes room and the calls, one after another.
fn make_all(rt: &impl Abort, stripe: &mut Stripe, calls: &[Try]) -> Result<(), NoMemory> {
    for call in calls {
        stripe.reserve()?;
        assert_same(rt, made(stripe, *call), true, "made");
    }
    Ok(())
}

/// The stamp that a base has of a key.
fn stamp_in(base: Option<&[(Key, Stamp)]>, key: Key) -> Option<Stamp> {
    let entry = base?.iter().find(|entry| entry.0 == key)?;
    Some(entry.1)
}

/// Trims, at the second try where memory was refused at the first. A refusal leaves all as before.
fn trim_at_last(rt: &impl Abort, stripe: &mut Stripe) -> Result<(), NoMemory> {
    let (trimmed, recorded) = (stripe.trimmed(), stripe.history().len());
    if stripe.trim().is_ok() {
        return Ok(());
    }
    let found = (stripe.trimmed(), stripe.history().len());
    assert_same(rt, found, (trimmed, recorded), "trimmed and history");
    match stripe.trim() {
        Err(Trim::NoMemory(refused)) => Err(refused),
        second => {
            assert_same(rt, second.is_ok(), true, "trim");
            Ok(())
        }
    }
}

/// How many entries the base has.
fn base_len(stripe: &Stripe) -> Option<usize> {
    Some(stripe.base()?.len())
}

/// Calls that leave an entry, and one aside.
const CALLS: [Try; 6] = [
    Link(1, 1, ChunkId { page: 0, index: 4 }, 7),
    Link(1, 9, ChunkId { page: 0, index: 5 }, 8),
    Got(2, 1),
    Unlink(0, 9),
    Link(1, 3, ChunkId { page: 0, index: 6 }, 9),
    Lift(1),
];

/// Calls, and a trim that keeps what they left.
fn trim_calls(rt: &impl Abort, stripe: &mut Stripe) -> Result<(), NoMemory> {
    assert_same(rt, base_len(stripe), Some(0), "base");
    make_all(rt, stripe, &CALLS)?;
    trim_at_last(rt, stripe)?;
    // the entry aside is counted in
    let found = (stripe.trimmed(), stripe.history().len(), base_len(stripe));
    assert_same(rt, found, (5, 0, Some(2)), "trimmed, history and base");
    let stamps = (stamp_in(stripe.base(), 1), stamp_in(stripe.base(), 3));
    assert_same(rt, stamps, (Some(7), Some(9)), "base");
    Ok(())
}

/// A call behind a trim is recorded behind it, and the base stays, up to the next trim.
fn call_behind_a_trim(rt: &impl Abort, stripe: &mut Stripe) -> Result<(), NoMemory> {
    make_all(rt, stripe, &[Rescue(3, 1, chunk(7)), Unlink(2, 3)])?;
    assert_equal(
        rt,
        stripe.history(),
        [Call::Rescue(3, 1), Call::Delete(2, 3, true)].as_slice(),
        "history",
    );
    assert_same(rt, stamp_in(stripe.base(), 3), Some(9), "base");
    trim_at_last(rt, stripe)?;
    let found = (stripe.trimmed(), stamp_in(stripe.base(), 3));
    assert_same(rt, found, (7, None), "trimmed and base");
    assert_equal(rt, stripe.find(1), Some(place((7, 7))), "find");
    Ok(())
}

/// What calls left is kept by a trim, and by another one.
fn keep_what_calls_left(rt: &impl Abort, stripe: &mut Stripe) -> Result<(), NoMemory> {
    trim_calls(rt, stripe)?;
    call_behind_a_trim(rt, stripe)
}

#[test]
fn what_calls_left_is_kept(rt: HostRuntime) -> Result<(), Fail> {
    let mut stripe = Stripe::new(rt.alloc());
    let kept = keep_what_calls_left(&rt, &mut stripe);
    drop(stripe);
    Ok(kept?)
}

/// The stripe keeps nothing of n calls, and no base.
fn assert_forgotten(rt: &impl Abort, stripe: &Stripe, trimmed: u64) {
    let found = (stripe.history().len(), base_len(stripe), stripe.trimmed());
    assert_same(rt, found, (0, None, trimmed), "history, base and trimmed");
}

/// Calls of a stripe that forgets them.
fn forget_calls(rt: &impl Abort, stripe: &mut Stripe) -> Result<(), NoMemory> {
    make_all(rt, stripe, &[Link(1, 1, chunk(4), 7), Got(2, 1)])?;
    stripe.forget();
    assert_forgotten(rt, stripe, 2);
    assert_same(rt, stripe.reserve_call().is_ok(), true, "reserve_call");
    for _ in 0..100 {
        make_all(rt, stripe, &[Got(2, 1), Unlink(2, 5)])?;
    }
    assert_forgotten(rt, stripe, 202);
    assert_equal(rt, stripe.find(1), Some(place((4, 7))), "find");
    // there is nothing to trim
    assert_same(rt, stripe.trim().is_ok(), true, "trim");
    assert_forgotten(rt, stripe, 202);
    Ok(())
}

#[test]
fn what_is_forgotten_takes_no_room(rt: HostRuntime) -> Result<(), Fail> {
    let mut stripe = Stripe::new(rt.alloc());
    let forgot = forget_calls(&rt, &mut stripe);
    drop(stripe);
    Ok(forgot?)
}

/// The base has the stamps that a plain list had when the stripe was trimmed.
fn assert_same_base(rt: &impl Abort, stripe: &Stripe, plain: &Plain) {
    for key in 0..24 {
        let key = key * 64 + 3;
        let stamp = plain.stamp(key);
        assert_same(rt, stamp_in(stripe.base(), key), stamp, "base");
    }
}

/// What is recorded is the end of what all calls were.
fn assert_recorded(rt: &impl Abort, stripe: &Stripe, plain: &Plain) {
    let trimmed = stripe.trimmed() as usize;
    let history = plain.history.get(trimmed..);
    assert_equal(rt, Some(stripe.history()), history, "history");
}

/// Room is made, and both make the call, or don't.
fn call_both(rt: &impl Abort, both: &mut Both, call: Try) -> Result<(), Fail> {
    both.stripe.reserve()?;
    both.plain.ready = true;
    let want = both.plain.made(call)?;
    assert_same(rt, made(&mut both.stripe, call), want, "made");
    Ok(())
}

/// A call of both, drawn, and now and then a trim. Then what is recorded is right.
fn call_or_trim(
    rt: &impl Abort,
    both: &mut Both,
    random: &mut Pcg32,
    number: u64,
) -> Result<(), Fail> {
    call_both(rt, both, any_call(random, number))?;
    if random.next_u64() % 50 == 0 {
        trim_at_last(rt, &mut both.stripe)?;
        assert_same_base(rt, &both.stripe, &both.plain);
    }
    assert_recorded(rt, &both.stripe, &both.plain);
    Ok(())
}

/// 600 calls of both, drawn by this number.
fn call_between_trims(rt: &impl Abort, both: &mut Both, seed: u64) -> Result<(), Fail> {
    let mut random = Pcg32::new(seed, 0);
    for number in 0..600 {
        call_or_trim(rt, both, &mut random, number)?;
    }
    Ok(())
}

#[test]
fn random_calls_between_trims_are_recorded(rt: HostRuntime) -> Result<(), Fail> {
    for seed in 100..104 {
        let mut both = Both::new(rt.alloc());
        let called = call_between_trims(&rt, &mut both, seed);
        drop(both);
        called?;
    }
    Ok(())
}
