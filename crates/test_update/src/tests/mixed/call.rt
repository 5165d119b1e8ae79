//! Calls that are drawn, their keys and their values.
use rand_core::Rng;
use rand_pcg::Pcg32;
use std::alloc::AllocError;

/// How many keys have values of one item, and how many have values of up to five parts.
pub const PLAIN_KEYS: u64 = 6;

pub const LARGE_KEYS: u64 = 3;

pub const PARTS: u64 = 5;

/// The first root, the first part, and how many keys of items there are.
pub const FIRST_ROOT: u64 = PLAIN_KEYS;

pub const FIRST_PART: u64 = FIRST_ROOT + LARGE_KEYS;

pub const ITEM_KEYS: u64 = FIRST_PART + PARTS * LARGE_KEYS;

/// The most bytes of a value beside a key of up to eight bytes, where a chunk has 1,024.
pub const MOST_VALUE: usize = 976;

/// What a call does.
#[derive(Clone, Copy, PartialEq, Eq)]
pub enum Kind {
    Set,
    SetOrKeep,
    Add,
    Replace,
    CompareAndSet,
    Get,
    Peek,
    GetWithVersion,
    Contains,
    Touch,
    Delete,
    DeleteVersion,
    Increment,
    Decrement,
    Append,
    Prepend,
    GetOrAdd,
    SetUntil,
    AddUntil,
    ReplaceUntil,
    TouchUntil,
    GetUnexpired,
    SetLarge,
    GetLarge,
    DeleteLarge,
    Clear,
    Len,
    Keys,
    ClassItems,
}

/// How a call ends.
#[derive(Clone, Copy, PartialEq, Eq)]
pub enum End {
    Done,
    /// The key has no value.
    Absent,
    /// The key has a value that the call doesn't want.
    Exists,
    NotNumber,
    TooLarge,
    NoRoom,
    /// What no model returns.
    Wrong,
}

/// How a call ends, and a number where it returns one: a version, a count, or 0.
pub type Reply = (End, u64);

/// Who uses the cache, and whether it has room for all.
#[derive(Clone, Copy, PartialEq, Eq)]
pub enum Scene {
    /// One worker, with room for all.
    Alone,
    /// Two workers with keys of their own, with room for all.
    Shared,
    /// Two workers with keys of their own, and little room.
    Tight,
}

/// A drawn call. Its key is the number of an item's key, or for a large value that of its root.
#[derive(Clone, Copy)]
pub struct Call {
    pub kind: Kind,
    pub key: u64,
    pub time: u32,
    pub deadline: u32,
    pub by: u64,
}

/// The kinds by how often they are drawn.
const KINDS: [Kind; 48] = [
    Kind::Set,
    Kind::Set,
    Kind::Set,
    Kind::SetOrKeep,
    Kind::SetOrKeep,
    Kind::Add,
    Kind::Add,
    Kind::Replace,
    Kind::Replace,
    Kind::CompareAndSet,
    Kind::CompareAndSet,
    Kind::CompareAndSet,
    Kind::Get,
    Kind::Get,
    Kind::Peek,
    Kind::GetWithVersion,
    Kind::GetWithVersion,
    Kind::GetWithVersion,
    Kind::GetWithVersion,
    Kind::Contains,
    Kind::Touch,
    Kind::Touch,
    Kind::Delete,
    Kind::DeleteVersion,
    Kind::DeleteVersion,
    Kind::Increment,
    Kind::Increment,
    Kind::Decrement,
    Kind::Append,
    Kind::Append,
    Kind::Prepend,
    Kind::Prepend,
    Kind::GetOrAdd,
    Kind::GetOrAdd,
    Kind::SetUntil,
    Kind::SetUntil,
    Kind::AddUntil,
    Kind::ReplaceUntil,
    Kind::TouchUntil,
    Kind::GetUnexpired,
    Kind::GetUnexpired,
    Kind::SetLarge,
    Kind::SetLarge,
    Kind::GetLarge,
    Kind::GetLarge,
    Kind::DeleteLarge,
    Kind::Keys,
    Kind::ClassItems,
];

/// Whether the call is of a value of up to five parts.
pub fn is_large(kind: Kind) -> bool {
    matches!(kind, Kind::SetLarge | Kind::GetLarge | Kind::DeleteLarge)
}

/// The kind of the next call. A clear is rare, and comes only where no other worker has keys.
fn draw_kind(random: &mut Pcg32, scene: Scene) -> Kind {
    let kind = KINDS[(random.next_u64() % 48) as usize];
    if kind != Kind::Keys && kind != Kind::ClassItems {
        return kind;
    }
    if scene == Scene::Tight {
        return Kind::Get;
    }
    match random.next_u64() % 4 {
        0 if scene == Scene::Alone => Kind::Clear,
        1 => Kind::Len,
        _ => kind,
    }
}

/// The next call at this time. Where items are evicted, only large calls use the keys of roots and parts.
pub fn draw(random: &mut Pcg32, scene: Scene, time: u32) -> Call {
    let kind = draw_kind(random, scene);
    let keys = if scene == Scene::Tight {
        PLAIN_KEYS
    } else {
        ITEM_KEYS
    };
    let key = if is_large(kind) {
        FIRST_ROOT + random.next_u64() % LARGE_KEYS
    } else {
        random.next_u64() % keys
    };
    let deadline = match (random.next_u64() % 5) as u32 {
        0 => 0,
        left => time.saturating_add(left).saturating_sub(2),
    };
    Call {
        kind,
        key,
        time,
        deadline,
        by: random.next_u64() >> (random.next_u64() % 64),
    }
}

/// Puts n letters behind the bytes.
fn put_letters(into: &mut Vec<u8>, seed: u64, count: u64) -> Result<(), AllocError> {
    for place in 0..count {
        into.push(b'a' + (seed.wrapping_add(place) % 26) as u8)?;
    }
    Ok(())
}

/// A number of bytes for a large value: few, around the most of a root, or of up to five parts.
fn drawn_length(random: &mut Pcg32) -> u64 {
    match random.next_u64() % 3 {
        0 => random.next_u64() % 20,
        1 => 970 + random.next_u64() % 12,
        _ => random.next_u64() % (PARTS * MOST_VALUE as u64),
    }
}

/// Puts a drawn value in the place of the bytes: a number, a root of a small value, or letters, up to 989 of them.
pub fn put_value(random: &mut Pcg32, kind: Kind, into: &mut Vec<u8>) -> Result<(), AllocError> {
    into.clear();
    let seed = random.next_u64();
    if kind == Kind::SetLarge {
        return put_letters(into, seed, drawn_length(random));
    }
    match random.next_u64() % 10 {
        0 | 1 => into.extend_from_slice(&[b'0' + (seed % 10) as u8]),
        2 => into.extend_from_slice(b"18446744073709551615"),
        3 => into.extend_from_slice(b"18446744073709551616"),
        4 => Ok(()),
        5 => {
            into.extend_from_slice(&[0])?;
            put_letters(into, seed, seed % 9)
        }
        6 => put_letters(into, seed, seed % 12),
        7 => put_letters(into, seed, seed % 300),
        _ => put_letters(into, seed, 960 + seed % 30),
    }
}

/// Puts the bytes of the item's key of this number in the place of those that are there. Each worker has a first letter of its own.
pub fn put_key(first: u8, number: u64, into: &mut Vec<u8>) -> Result<(), AllocError> {
    into.clear();
    if number < FIRST_ROOT {
        return into.extend_from_slice(&[first.wrapping_add(number as u8)]);
    }
    if number < FIRST_PART {
        return into.extend_from_slice(&[0, first.wrapping_add(number as u8)]);
    }
    let place = number - FIRST_PART;
    let part = (place / LARGE_KEYS % 256) as u8;
    let last = first.wrapping_add((FIRST_ROOT + place % LARGE_KEYS) as u8);
    into.extend_from_slice(&[1, part, 0, 0, 0, last])
}
