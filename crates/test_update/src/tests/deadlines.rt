//! Values with a deadline: rows, refused sets, and drawn calls against a model with a clock.
ghost use Rattle.mc_cache.specs.Belonging.{BelongsTo};

use super::made::{KEY, SMALL, pass_if, with_one_worker, with_two_workers};
use mc_cache::{Cache, SetError, Worker};
use mc_expiry::{Expiry, ExpiryError, StoreKind};
use rand_core::Rng;
use rand_pcg::Pcg32;
use std::alloc::Global;
use std::sync::Wait;
use std::test::Fail;

/// How many calls are drawn.
const CALLS: u64 = 1000;

/// What is done with the key at a time.
#[derive(Clone, Copy)]
enum Step<'a> {
    /// A set of this value until this deadline.
    Set(&'a [u8], u32),
    /// A set of these bytes, with no deadline before them.
    Bytes(&'a [u8]),
    /// A store of this kind until this deadline.
    Store(StoreKind<'a>, u32),
    Get,
    /// A look whether the cache has bytes of the key, whatever their deadline.
    Look,
}

/// What a step returns.
#[derive(Clone, Copy, PartialEq, Eq)]
enum Reply<'a> {
    Stored,
    /// These bytes were got.
    Value(&'a [u8]),
    /// Nothing was stored, or got.
    Nothing,
    TooLarge,
    KeyLength,
    /// The step is refused for another reason.
    Refused,
}

/// A time, a step, its reply, and what is wrong at another one.
type Row<'a> = (u32, Step<'a>, Reply<'a>, &'a str);

/// A value is there before its deadline, and isn't at it, where a get deletes it.
const GETS: [Row<'static>; 10] = [
    (
        9,
        Step::Get,
        Reply::Nothing,
        "a key without a value has one",
    ),
    (9, Step::Set(b"ice", 20), Reply::Stored, "no value was set"),
    (30, Step::Look, Reply::Stored, "a look deletes it"),
    (19, Step::Get, Reply::Value(b"ice"), "it is gone before 20"),
    (20, Step::Get, Reply::Nothing, "it is there at 20"),
    (20, Step::Look, Reply::Nothing, "a get at 20 kept it"),
    (21, Step::Get, Reply::Nothing, "it is there behind 20"),
    (
        9,
        Step::Set(b"ash", 0),
        Reply::Stored,
        "it isn't set for ever",
    ),
    (
        u32::MAX,
        Step::Get,
        Reply::Value(b"ash"),
        "it isn't for ever",
    ),
    (0, Step::Get, Reply::Value(b"ash"), "it isn't there at 0"),
];

/// Fewer than four bytes have no value, and of more the first four are a deadline.
const SHORT: [Row<'static>; 6] = [
    (5, Step::Bytes(b"abc"), Reply::Stored, "no bytes were set"),
    (5, Step::Get, Reply::Nothing, "three bytes have a value"),
    (
        5,
        Step::Bytes(b"\0\0\0\0"),
        Reply::Stored,
        "no four were set",
    ),
    (
        5,
        Step::Get,
        Reply::Value(b""),
        "four bytes have another value",
    ),
    (
        5,
        Step::Bytes(b"\x06\0\0\0x"),
        Reply::Stored,
        "no five were set",
    ),
    (
        5,
        Step::Get,
        Reply::Value(b"x"),
        "the lowest byte isn't first",
    ),
];

/// An add stores over no unexpired value.
const ADDS: [Row<'static>; 7] = [
    (
        5,
        Step::Store(StoreKind::Add(b"ox"), 8),
        Reply::Stored,
        "no value was added",
    ),
    (
        7,
        Step::Store(StoreKind::Add(b"yak"), 9),
        Reply::Nothing,
        "it was added over an unexpired value",
    ),
    (7, Step::Get, Reply::Value(b"ox"), "the old value is gone"),
    (
        8,
        Step::Store(StoreKind::Add(b"yak"), 9),
        Reply::Stored,
        "it wasn't added over an expired value",
    ),
    (
        8,
        Step::Get,
        Reply::Value(b"yak"),
        "the new one isn't there",
    ),
    (8, Step::Bytes(b"no"), Reply::Stored, "no bytes were set"),
    (
        8,
        Step::Store(StoreKind::Add(b"elk"), 9),
        Reply::Stored,
        "it wasn't added over two bytes",
    ),
];

/// A replace and a touch store over an unexpired value alone.
const REPLACES: [Row<'static>; 10] = [
    (
        5,
        Step::Store(StoreKind::Replace(b"ox"), 8),
        Reply::Nothing,
        "no value was replaced",
    ),
    (
        5,
        Step::Store(StoreKind::Touch, 8),
        Reply::Nothing,
        "no value was touched",
    ),
    (5, Step::Set(b"ox", 8), Reply::Stored, "no value was set"),
    (
        7,
        Step::Store(StoreKind::Replace(b"yak"), 10),
        Reply::Stored,
        "it wasn't replaced at 7",
    ),
    (
        9,
        Step::Get,
        Reply::Value(b"yak"),
        "the new one isn't there",
    ),
    (
        9,
        Step::Store(StoreKind::Touch, 20),
        Reply::Stored,
        "it wasn't touched at 9",
    ),
    (
        19,
        Step::Get,
        Reply::Value(b"yak"),
        "a touch lost the value",
    ),
    (
        20,
        Step::Store(StoreKind::Touch, 30),
        Reply::Nothing,
        "it was touched at its deadline",
    ),
    (
        20,
        Step::Store(StoreKind::Replace(b"elk"), 30),
        Reply::Nothing,
        "it was replaced at its deadline",
    ),
    (20, Step::Get, Reply::Nothing, "it is there at its deadline"),
];

/// What a set returned.
fn set_reply(set: Result<(), SetError>) -> Reply<'static> {
    match set {
        Ok(()) => Reply::Stored,
        Err(SetError::Item(mc_items::SetError::TooLarge)) => Reply::TooLarge,
        Err(SetError::KeyLength) => Reply::KeyLength,
        Err(_) => Reply::Refused,
    }
}

/// Does a step with the key at a time.
fn reply_to<'a, R: Wait>(
    rt: &R,
    cache: &Cache,
    worker: &mut Worker,
    expiry: &mut Expiry,
    key: &[u8],
    time: u32,
    step: Step,
    into: &'a mut Vec<u8>,
) -> Reply<'a>
    requires { BelongsTo cache.now worker.old }
    ensures { BelongsTo cache.now worker.new }
{
    match step {
        Step::Set(value, deadline) => {
            set_reply(expiry.set_until(rt, cache, worker, key, value, deadline))
        }
        Step::Bytes(bytes) => set_reply(worker.set(rt, cache, key, bytes)),
        Step::Store(kind, deadline) => {
            match expiry.store_until(rt, cache, worker, key, kind, time, deadline) {
                Ok(Some(_version)) => Reply::Stored,
                Ok(None) => Reply::Nothing,
                Err(ExpiryError::Item(mc_items::SetError::TooLarge)) => Reply::TooLarge,
                Err(ExpiryError::KeyLength) => Reply::KeyLength,
                Err(_) => Reply::Refused,
            }
        }
        Step::Look => match worker.contains(rt, cache, key) {
            Ok(true) => Reply::Stored,
            Ok(false) => Reply::Nothing,
            Err(_) => Reply::Refused,
        },
        Step::Get => match expiry.get(rt, cache, worker, key, time, into) {
            Ok(true) => Reply::Value(into.as_slice()),
            Ok(false) => Reply::Nothing,
            Err(_) => Reply::Refused,
        },
    }
}

/// Plays the rows in a new cache, up to the first with another reply.
fn play<R: Wait>(rt: &R, alloc: Global, key: &[u8], rows: &[Row]) -> Result<(), Fail> {
    let mut expiry = Expiry::new(alloc);
    play_by(rt, alloc, &mut expiry, key, rows)
}

/// The same, by an expiry.
fn play_by<R: Wait>(
    rt: &R,
    alloc: Global,
    expiry: &mut Expiry,
    key: &[u8],
    rows: &[Row],
) -> Result<(), Fail> {
    let (cache, mut worker) = with_one_worker(rt, alloc)?;
    let mut into = Vec::new(alloc);
    play_in(rt, &cache, &mut worker, expiry, key, rows, &mut into)
}

/// The same, in this cache.
fn play_in<R: Wait>(
    rt: &R,
    cache: &Cache,
    worker: &mut Worker,
    expiry: &mut Expiry,
    key: &[u8],
    rows: &[Row],
    into: &mut Vec<u8>,
) -> Result<(), Fail>
    requires { BelongsTo cache.now worker.old }
{
    for row in rows {
        into.clear();
        if reply_to(rt, cache, worker, expiry, key, row.0, row.1, into) != row.2 {
            return Err(Fail::new(row.3));
        }
    }
    Ok(())
}

#[test]
fn values_are_there_before_their_deadline(rt: HostRuntime) -> Result<(), Fail> {
    play(&rt, rt.alloc(), KEY, &GETS)
}

#[test]
fn fewer_than_four_bytes_have_no_value(rt: HostRuntime) -> Result<(), Fail> {
    play(&rt, rt.alloc(), KEY, &SHORT)
}

/// Plays the rows by an expiry, behind which this many values lapsed.
fn play_until<R: Wait>(
    rt: &R,
    alloc: Global,
    expiry: &mut Expiry,
    rows: &[Row],
    lapsed: u64,
) -> Result<(), Fail> {
    play_by(rt, alloc, expiry, KEY, rows)?;
    if expiry.lapsed() == lapsed {
        Ok(())
    } else {
        Err(Fail::new("another number of values lapsed"))
    }
}

/// One value is deleted at its deadline, and then three bytes, which have no deadline.
fn lapse_twice<R: Wait>(rt: &R, alloc: Global, expiry: &mut Expiry) -> Result<(), Fail> {
    play_until(rt, alloc, expiry, &GETS, 1)?;
    play_until(rt, alloc, expiry, &SHORT, 2)
}

#[test]
fn values_that_a_get_deletes_are_counted(rt: HostRuntime) -> Result<(), Fail> {
    let mut expiry = Expiry::new(rt.alloc());
    lapse_twice(&rt, rt.alloc(), &mut expiry)
}

#[test]
fn adds_look_at_the_deadline(rt: HostRuntime) -> Result<(), Fail> {
    play(&rt, rt.alloc(), KEY, &ADDS)
}

#[test]
fn replaces_look_at_the_deadline(rt: HostRuntime) -> Result<(), Fail> {
    play(&rt, rt.alloc(), KEY, &REPLACES)
}

#[test]
fn stores_are_refused(rt: HostRuntime) -> Result<(), Fail> {
    let wide = [b'x'; 1000];
    let add = Step::Store(StoreKind::Add(&wide), 9);
    let replace = Step::Store(StoreKind::Replace(&wide), 9);
    let kept = "a refused replace changed the value";
    let rows = [
        (5, add, Reply::TooLarge, "a value without a class was added"),
        (5, Step::Set(b"ox", 9), Reply::Stored, "no value was set"),
        (
            5,
            replace,
            Reply::TooLarge,
            "a value without a class was stored",
        ),
        (5, Step::Get, Reply::Value(b"ox"), kept),
        (
            5,
            Step::Set(&wide, 9),
            Reply::TooLarge,
            "too large a value was set",
        ),
        (
            5,
            Step::Get,
            Reply::Nothing,
            "a refused set kept the old value",
        ),
    ];
    play(&rt, rt.alloc(), KEY, &rows)?;
    let touch = Step::Store(StoreKind::Touch, 9);
    let none = [
        (
            5,
            Step::Set(b"", 9),
            Reply::KeyLength,
            "a key of no byte was set",
        ),
        (5, touch, Reply::KeyLength, "a key of no byte was touched"),
        (5, Step::Get, Reply::Refused, "a key of no byte was got"),
    ];
    play(&rt, rt.alloc(), b"", &none)
}

/// Two workers add in turn. The second one adds nothing until the first one's deadline.
fn add_in_turn<R: Wait>(
    rt: &R,
    cache: &Cache,
    first: &mut Worker,
    second: &mut Worker,
    expiry: &mut Expiry,
) -> Result<(), Fail>
    requires { BelongsTo cache.now first.old × BelongsTo cache.now second.old }
{
    let one = expiry.add_until(rt, cache, first, KEY, b"1", 5, 7);
    let Ok(Some(version)) = one else {
        return Err(Fail::new("no value was added"));
    };
    if expiry.add_until(rt, cache, second, KEY, b"2", 6, 9) != Ok(None) {
        return Err(Fail::new("a second value was added"));
    }
    if expiry.replace_until(rt, cache, second, KEY, b"3", 7, 9) != Ok(None) {
        return Err(Fail::new("an expired value was replaced"));
    }
    match expiry.touch_until(rt, cache, second, KEY, 6, 8) {
        Ok(Some(touched)) if touched != version => {}
        _ => return Err(Fail::new("a touch stored no new version")),
    }
    match expiry.add_until(rt, cache, second, KEY, b"2", 8, 9) {
        Ok(Some(_late)) => Ok(()),
        _ => Err(Fail::new("none was added at 8")),
    }
}

#[test]
fn the_first_add_stands(rt: HostRuntime) -> Result<(), Fail> {
    let (cache, mut first, mut second) = with_two_workers(&rt, rt.alloc(), SMALL, 2)?;
    let mut expiry = Expiry::new(rt.alloc());
    add_in_turn(&rt, &cache, &mut first, &mut second, &mut expiry)
}

/// What the key has: a byte and its deadline, or no value.
#[derive(Clone, Copy, PartialEq, Eq)]
struct Model {
    value: Option<(u8, u32)>,
}

impl Model {
    /// The byte that isn't expired at this time.
    fn byte(self, time: u32) -> Option<u8> {
        match self.value {
            Some((byte, deadline)) if deadline == 0 || time < deadline => Some(byte),
            _ => None,
        }
    }

    /// The byte that a store of this kind stores at this time, if it does.
    fn stores(self, kind: StoreKind, time: u32) -> Option<u8> {
        match self.byte(time) {
            Some(byte) => match kind {
                StoreKind::Add(_) => None,
                StoreKind::Replace(bytes) => bytes.first().copied(),
                StoreKind::Touch => Some(byte),
            },
            None => match kind {
                StoreKind::Add(bytes) => bytes.first().copied(),
                StoreKind::Replace(_) | StoreKind::Touch => None,
            },
        }
    }
}

/// No deadline, or one that is 1 before this time, at it, or up to 2 behind it.
fn drawn_deadline(random: &mut Pcg32, time: u32) -> u32 {
    match (random.next_u64() % 5) as u32 {
        0 => 0,
        left => time.saturating_add(left).saturating_sub(2),
    }
}

/// One drawn call, and the model behind it. True if it stored where the model does.
fn act<R: Wait>(
    rt: &R,
    cache: &Cache,
    worker: &mut Worker,
    expiry: &mut Expiry,
    random: &mut Pcg32,
    time: u32,
    model: &mut Model,
) -> bool
    requires { BelongsTo cache.now worker.old }
    ensures { BelongsTo cache.now worker.new }
{
    let byte = (random.next_u64() % 256) as u8;
    let deadline = drawn_deadline(random, time);
    let bytes = [byte];
    let kind = match random.next_u64() % 6 {
        0 => {
            *model = Model { value: None };
            return worker.delete(rt, cache, KEY).is_ok();
        }
        1 => {
            let value = Some((byte, deadline));
            *model = Model { value };
            return expiry
                .set_until(rt, cache, worker, KEY, &bytes, deadline)
                .is_ok();
        }
        2 | 3 => StoreKind::Add(&bytes),
        4 => StoreKind::Replace(&bytes),
        _ => StoreKind::Touch,
    };
    let stores = model.stores(kind, time);
    if let Some(byte) = stores {
        let value = Some((byte, deadline));
        *model = Model { value };
    }
    match expiry.store_until(rt, cache, worker, KEY, kind, time, deadline) {
        Ok(version) => version.is_some() == stores.is_some(),
        Err(_) => false,
    }
}

/// A get. True if it gets what the model has.
fn gets_models<R: Wait>(
    rt: &R,
    cache: &Cache,
    worker: &mut Worker,
    expiry: &mut Expiry,
    time: u32,
    byte: Option<u8>,
    into: &mut Vec<u8>,
) -> bool
    requires { BelongsTo cache.now worker.old }
    ensures { BelongsTo cache.now worker.new }
{
    into.clear();
    match expiry.get(rt, cache, worker, KEY, time, into) {
        Ok(true) => byte.is_some() && into.first().copied() == byte,
        Ok(false) => byte.is_none() && into.is_empty(),
        Err(_) => false,
    }
}

/// All calls, before one that did what the model doesn't. The clock goes on by 0 or 1 a call. True if none did.
fn act_often<R: Wait>(
    rt: &R,
    alloc: Global,
    cache: &Cache,
    worker: &mut Worker,
    expiry: &mut Expiry,
) -> bool
    requires { BelongsTo cache.now worker.old }
{
    let mut random = Pcg32::new(12, 0);
    let mut model = Model { value: None };
    let mut into = Vec::new(alloc);
    let mut time: u32 = 100;
    for _ in 0..CALLS {
        if !act(rt, cache, worker, expiry, &mut random, time, &mut model) {
            return false;
        }
        time = time.saturating_add((random.next_u64() % 2) as u32);
        if !gets_models(rt, cache, worker, expiry, time, model.byte(time), &mut into) {
            return false;
        }
    }
    true
}

#[test]
fn drawn_calls_do_what_the_model_does(rt: HostRuntime) -> Result<(), Fail> {
    let (cache, mut worker) = with_one_worker(&rt, rt.alloc())?;
    let mut expiry = Expiry::new(rt.alloc());
    let right = act_often(&rt, rt.alloc(), &cache, &mut worker, &mut expiry);
    pass_if(right, "a call did what the model doesn't")
}
