//! Rows of changes of one value, each with what it stores or why it doesn't.
ghost use Rattle.mc_cache.specs.Belonging.{BelongsTo};

use super::made::{KEY, with_one_worker};
use mc_cache::{Cache, Worker};
use mc_update::{Change, ChangeError, Updater};
use std::sync::Wait;
use std::test::Fail;

/// What a change returns.
#[derive(Clone, Copy, PartialEq, Eq)]
enum Reply<'a> {
    /// These bytes are stored.
    Stores(&'a [u8]),
    /// The key has no value.
    Missing,
    NotNumber,
    TooLarge,
    /// The change is refused for another reason.
    Refused,
}

/// A change, its reply, and what is wrong at another one.
type Row<'a> = (Change<'a>, Reply<'a>, &'a str);

/// The greatest number, and one too great.
const GREATEST: &[u8] = b"18446744073709551615";

const TOO_GREAT: &[u8] = b"18446744073709551616";

/// A number goes up and down, wraps behind the greatest, and stops at 0.
const COUNTS: [Row<'static>; 6] = [
    (
        Change::Increment(1),
        Reply::Stores(b"10"),
        "9 and 1 isn't 10",
    ),
    (
        Change::Decrement(3),
        Reply::Stores(b"7"),
        "10 less 3 isn't 7",
    ),
    (
        Change::Decrement(8),
        Reply::Stores(b"0"),
        "7 less 8 isn't 0",
    ),
    (
        Change::Increment(u64::MAX),
        Reply::Stores(GREATEST),
        "0 and 2^64 - 1 isn't that",
    ),
    (
        Change::Increment(1),
        Reply::Stores(b"0"),
        "behind 2^64 - 1 isn't 0",
    ),
    (Change::Increment(0), Reply::Stores(b"0"), "0 and 0 isn't 0"),
];

/// Bytes come at both ends, and what they make is a number or isn't.
const ENDS: [Row<'static>; 8] = [
    (
        Change::Append(b"0"),
        Reply::Stores(b"90"),
        "0 isn't behind 9",
    ),
    (
        Change::Prepend(b"00"),
        Reply::Stores(b"0090"),
        "00 isn't before 90",
    ),
    (
        Change::Increment(5),
        Reply::Stores(b"95"),
        "0090 and 5 isn't 95",
    ),
    (
        Change::Append(b""),
        Reply::Stores(b"95"),
        "no byte changed the value",
    ),
    (
        Change::Append(b" "),
        Reply::Stores(b"95 "),
        "a space isn't behind 95",
    ),
    (
        Change::Increment(1),
        Reply::NotNumber,
        "a number with a space was counted",
    ),
    (
        Change::Prepend(b"-"),
        Reply::Stores(b"-95 "),
        "a sign isn't before 95",
    ),
    (
        Change::Decrement(1),
        Reply::NotNumber,
        "a number with a sign was counted",
    ),
];

/// What is stored where the row is stored over this value, or where the key has none.
fn reply_to<'a, R: Wait>(
    rt: &R,
    cache: &Cache,
    worker: &mut Worker,
    updater: &'a mut Updater,
    change: Change,
) -> Reply<'a>
    requires { BelongsTo cache.now worker.old }
    ensures { BelongsTo cache.now worker.new }
{
    match updater.change_value(rt, cache, worker, KEY, change) {
        Ok(Some(_version)) => Reply::Stores(updater.value()),
        Ok(None) => Reply::Missing,
        Err(ChangeError::NotNumber) => Reply::NotNumber,
        Err(ChangeError::Item(mc_items::SetError::TooLarge)) => Reply::TooLarge,
        Err(_) => Reply::Refused,
    }
}

/// Plays the rows over one value, up to the first with another reply.
fn play<R: Wait>(
    rt: &R,
    cache: &Cache,
    worker: &mut Worker,
    updater: &mut Updater,
    rows: &[Row],
) -> Result<(), Fail>
    requires { BelongsTo cache.now worker.old }
    ensures { BelongsTo cache.now worker.new }
{
    for row in rows {
        if reply_to(rt, cache, worker, updater, row.0) != row.1 {
            return Err(Fail::new(row.2));
        }
    }
    Ok(())
}

/// Counts in rows, and then by the calls that return the number.
fn count<R: Wait>(
    rt: &R,
    cache: &Cache,
    worker: &mut Worker,
    updater: &mut Updater,
) -> Result<(), Fail>
    requires { BelongsTo cache.now worker.old }
{
    worker.set(rt, cache, KEY, b"9")?;
    play(rt, cache, worker, updater, &COUNTS)?;
    if updater.increment(rt, cache, worker, KEY, 41) != Ok(Some(41)) {
        return Err(Fail::new("the sum isn't returned"));
    }
    if updater.decrement(rt, cache, worker, KEY, 1) != Ok(Some(40)) {
        return Err(Fail::new("what is left isn't returned"));
    }
    Ok(())
}

#[test]
fn counters_count(rt: HostRuntime) -> Result<(), Fail> {
    let (cache, mut worker) = with_one_worker(&rt, rt.alloc())?;
    let mut updater = Updater::new(rt.alloc());
    count(&rt, &cache, &mut worker, &mut updater)
}

/// Joins bytes in rows, and gets what they made.
fn join_bytes<R: Wait>(
    rt: &R,
    cache: &Cache,
    worker: &mut Worker,
    updater: &mut Updater,
    bytes: &mut Vec<u8>,
) -> Result<(), Fail>
    requires { BelongsTo cache.now worker.old }
{
    worker.set(rt, cache, KEY, b"9")?;
    play(rt, cache, worker, updater, &ENDS)?;
    let found = worker.get(rt, cache, KEY, bytes);
    if found == Ok(true) && bytes.as_slice() == b"-95 ".as_slice() {
        Ok(())
    } else {
        Err(Fail::new("the cache has another value than was returned"))
    }
}

#[test]
fn bytes_come_at_both_ends(rt: HostRuntime) -> Result<(), Fail> {
    let (cache, mut worker) = with_one_worker(&rt, rt.alloc())?;
    let mut updater = Updater::new(rt.alloc());
    let mut bytes = Vec::new(rt.alloc());
    join_bytes(&rt, &cache, &mut worker, &mut updater, &mut bytes)
}

/// Changes no value, one that is no number, and one that becomes too large.
fn change_in_vain<R: Wait>(
    rt: &R,
    cache: &Cache,
    worker: &mut Worker,
    updater: &mut Updater,
) -> Result<(), Fail>
    requires { BelongsTo cache.now worker.old }
{
    let none = [
        (Change::Increment(1), Reply::Missing, "no value was counted"),
        (
            Change::Append(b"x"),
            Reply::Missing,
            "a byte was added to no value",
        ),
    ];
    play(rt, cache, worker, updater, &none)?;
    worker.set(rt, cache, KEY, TOO_GREAT)?;
    let wide = [b'x'; 1000];
    let refused = [
        (Change::Increment(1), Reply::NotNumber, "2^64 was counted"),
        (
            Change::Append(&wide),
            Reply::TooLarge,
            "a value without a class was stored",
        ),
        (
            Change::Append(b""),
            Reply::Stores(TOO_GREAT),
            "a refused change changed the value",
        ),
    ];
    play(rt, cache, worker, updater, &refused)?;
    match updater.append(rt, cache, worker, b"", b"x") {
        Err(ChangeError::KeyLength) => Ok(()),
        _ => Err(Fail::new("a key of no byte was taken")),
    }
}

#[test]
fn changes_are_refused(rt: HostRuntime) -> Result<(), Fail> {
    let (cache, mut worker) = with_one_worker(&rt, rt.alloc())?;
    let mut updater = Updater::new(rt.alloc());
    change_in_vain(&rt, &cache, &mut worker, &mut updater)
}
