//! A plain model of a cache: the bytes of each item's key, and what each call returns.
use super::call::{
    Call, End, FIRST_PART, FIRST_ROOT, ITEM_KEYS, Kind, LARGE_KEYS, MOST_VALUE, PLAIN_KEYS, Reply,
};
use itoa::Buffer;
use std::alloc::{AllocError, Global};

/// What a key has.
#[derive(Drop)]
pub struct Entry {
    is_there: bool,
    bytes: Vec<u8>,
    /// Which store of the model put the bytes there.
    store: u64,
    /// The last version that a call returned, and the store that it was of.
    version: u64,
    seen: u64,
}

/// All keys, the stores so far, how many values lapsed, and the bytes that come with a reply.
#[derive(Drop)]
pub struct Model {
    pub entries: Vec<Entry>,
    stores: u64,
    pub lapsed: u64,
    pub wanted: Vec<u8>,
}

/// Whether the item's value isn't expired at this time: fewer than four bytes always are.
fn is_unexpired(bytes: &[u8], time: u32) -> bool {
    match bytes.split_first_chunk::<4>() {
        Some((deadline, _value)) => {
            let deadline = u32::from_le_bytes(*deadline);
            deadline == 0 || time < deadline
        }
        None => false,
    }
}

/// The number of up to 20 digits.
fn number_of(bytes: &[u8]) -> Option<u64> {
    if bytes.is_empty() || bytes.len() > 20 {
        return None;
    }
    let mut number: u64 = 0;
    for byte in bytes {
        if !byte.is_ascii_digit() {
            return None;
        }
        number = number.checked_mul(10)?.checked_add((*byte - b'0') as u64)?;
    }
    Some(number)
}

/// Puts the bytes in the place of those that are there. A want of memory leaves other bytes, which a reply then differs from.
fn put(into: &mut Vec<u8>, bytes: &[u8]) {
    into.clear();
    _ = into.extend_from_slice(bytes);
}

impl Entry {
    fn new(alloc: Global) -> Entry {
        Entry {
            is_there: false,
            bytes: Vec::new(alloc),
            store: 0,
            version: u64::MAX,
            seen: u64::MAX,
        }
    }

    /// The bytes are these. It is refused where they are too many.
    fn put(&mut self, stores: &mut u64, bytes: &[u8]) -> Reply {
        if bytes.len() > MOST_VALUE {
            return (End::TooLarge, 0);
        }
        *stores = stores.wrapping_add(1);
        self.store = *stores;
        self.is_there = true;
        put(&mut self.bytes, bytes);
        (End::Done, 0)
    }

    /// The same, and it returned this version.
    fn put_version(&mut self, stores: &mut u64, bytes: &[u8], version: u64) -> Reply {
        let (end, _none) = self.put(stores, bytes);
        if end != End::Done {
            return (end, 0);
        }
        if self.version == version {
            return (End::Wrong, 0); // a version is given out once
        }
        self.version = version;
        self.seen = self.store;
        (end, version)
    }

    /// The version that a look returns: the one that is known, or else this one.
    fn learn(&mut self, version: u64) -> Reply {
        if self.seen != self.store {
            self.version = version;
            self.seen = self.store;
        }
        (End::Done, self.version)
    }

    /// Nothing is there. The reply says whether something was.
    fn remove(&mut self) -> Reply {
        let end = if self.is_there {
            End::Done
        } else {
            End::Absent
        };
        self.is_there = false;
        (end, 0)
    }

    /// Whether it has this version.
    fn is_version(&self, version: u64) -> bool {
        self.is_there && self.seen == self.store && self.version == version
    }

    fn is_unexpired(&self, time: u32) -> bool {
        self.is_there && is_unexpired(self.bytes.as_slice(), time)
    }

    /// A set of a value, on a condition or on none.
    fn set(&mut self, stores: &mut u64, kind: Kind, value: &[u8], version: u64) -> Reply {
        match kind {
            Kind::Add if self.is_there => (End::Exists, 0),
            Kind::Replace | Kind::CompareAndSet if !self.is_there => (End::Absent, 0),
            Kind::CompareAndSet if self.seen != self.store => (End::Exists, 0),
            Kind::Add | Kind::Replace | Kind::CompareAndSet => {
                self.put_version(stores, value, version)
            }
            _ => self.put(stores, value),
        }
    }

    /// A look, or a delete.
    fn look(&mut self, kind: Kind, version: u64, wanted: &mut Vec<u8>) -> Reply {
        if !self.is_there {
            return (End::Absent, 0);
        }
        match kind {
            Kind::Get | Kind::Peek => {
                put(wanted, self.bytes.as_slice());
                (End::Done, 0)
            }
            Kind::GetWithVersion => {
                put(wanted, self.bytes.as_slice());
                self.learn(version)
            }
            Kind::Delete => self.remove(),
            Kind::DeleteVersion if self.seen != self.store => (End::Exists, 0),
            Kind::DeleteVersion => self.remove(),
            _ => (End::Done, 0),
        }
    }

    /// A count, up or down.
    fn count(&mut self, stores: &mut u64, kind: Kind, by: u64, wanted: &mut Vec<u8>) -> Reply {
        if !self.is_there {
            return (End::Absent, 0);
        }
        let Some(number) = number_of(self.bytes.as_slice()) else {
            return (End::NotNumber, 0);
        };
        let number = if kind == Kind::Increment {
            number.wrapping_add(by)
        } else {
            number.saturating_sub(by)
        };
        let mut digits = Buffer::new();
        put(wanted, digits.format(number).as_bytes());
        let _stored = self.put(stores, wanted.as_slice());
        (End::Done, number)
    }

    /// More bytes at an end.
    fn join(
        &mut self,
        stores: &mut u64,
        kind: Kind,
        more: &[u8],
        version: u64,
        wanted: &mut Vec<u8>,
    ) -> Reply {
        if !self.is_there {
            return (End::Absent, 0);
        }
        if kind == Kind::Append {
            put(wanted, self.bytes.as_slice());
            _ = wanted.extend_from_slice(more);
        } else {
            put(wanted, more);
            _ = wanted.extend_from_slice(self.bytes.as_slice());
        }
        let reply = self.put_version(stores, wanted.as_slice(), version);
        if reply.0 != End::Done {
            wanted.clear();
        }
        reply
    }

    /// A get, or else an add.
    fn get_or_add(
        &mut self,
        stores: &mut u64,
        value: &[u8],
        version: u64,
        wanted: &mut Vec<u8>,
    ) -> Reply {
        if self.is_there {
            put(wanted, self.bytes.as_slice());
            return (End::Exists, 0);
        }
        put(wanted, value);
        self.put_version(stores, value, version)
    }

    /// A store of a value with a deadline. `room` is left empty.
    fn store_until(
        &mut self,
        stores: &mut u64,
        call: &Call,
        value: &[u8],
        version: u64,
        room: &mut Vec<u8>,
    ) -> Reply {
        let wants_one = call.kind == Kind::ReplaceUntil || call.kind == Kind::TouchUntil;
        if call.kind != Kind::SetUntil && self.is_unexpired(call.time) != wants_one {
            return (End::Absent, 0);
        }
        put(room, &call.deadline.to_le_bytes());
        _ = if call.kind == Kind::TouchUntil {
            room.extend_from_slice(self.bytes.get(4..).unwrap_or(b""))
        } else {
            room.extend_from_slice(value)
        };
        let reply = if call.kind == Kind::SetUntil {
            self.put(stores, room.as_slice())
        } else {
            self.put_version(stores, room.as_slice(), version)
        };
        room.clear();
        reply
    }

    /// A get at this time. A value that is expired goes, and is counted.
    fn get_unexpired(&mut self, lapsed: &mut u64, time: u32, wanted: &mut Vec<u8>) -> Reply {
        if self.is_unexpired(time) {
            put(wanted, self.bytes.get(4..).unwrap_or(b""));
            return (End::Done, *lapsed);
        }
        if self.is_there {
            *lapsed = lapsed.wrapping_add(1);
        }
        self.is_there = false;
        (End::Absent, *lapsed)
    }

    /// The bytes that its item takes of a chunk, beside a key of up to eight bytes.
    fn item_bytes(&self) -> u64 {
        (24 + 8 * 3 + self.bytes.len().div_ceil(8).wrapping_mul(8)) as u64
    }
}

impl Model {
    /// No key has a value.
    pub fn new(alloc: Global) -> Result<Model, AllocError> {
        let mut entries = Vec::new(alloc);
        for _ in 0..ITEM_KEYS {
            entries.push(Entry::new(alloc))?;
        }
        Ok(Model {
            entries,
            stores: 0,
            lapsed: 0,
            wanted: Vec::new(alloc),
        })
    }

    /// The version by which a call asks for the key's value.
    pub fn version(&self, key: u64) -> u64 {
        match self.entries.get(key as usize) {
            Some(entry) => entry.version,
            None => u64::MAX,
        }
    }

    /// The key has no value any more.
    pub fn lose(&mut self, key: u64) {
        if let Some(entry) = self.entries.get_mut(key as usize) {
            entry.is_there = false;
        }
    }

    /// What a call returns that returned `number`, and found `got`. The bytes that come with it are `wanted`.
    pub fn step(&mut self, call: &Call, value: &[u8], number: u64, got: &[u8]) -> Reply {
        self.wanted.clear();
        match call.kind {
            Kind::SetLarge => {
                return set_large(
                    &mut self.entries,
                    &mut self.stores,
                    call.key,
                    value,
                    got,
                    &mut self.wanted,
                );
            }
            Kind::GetLarge => return get_large(&self.entries, call.key, &mut self.wanted),
            Kind::DeleteLarge => {
                return delete_large(&mut self.entries, call.key, &mut self.wanted);
            }
            Kind::Clear | Kind::Len | Kind::Keys | Kind::ClassItems => {
                return step_whole(&mut self.entries, call.kind, &mut self.wanted);
            }
            _ => {}
        }
        match self.entries.get_mut(call.key as usize) {
            Some(entry) => step_entry(
                entry,
                &mut self.stores,
                &mut self.lapsed,
                call,
                value,
                number,
                &mut self.wanted,
            ),
            None => (End::Wrong, 0),
        }
    }
}

/// A call on the key of an item.
fn step_entry(
    entry: &mut Entry,
    stores: &mut u64,
    lapsed: &mut u64,
    call: &Call,
    value: &[u8],
    number: u64,
    wanted: &mut Vec<u8>,
) -> Reply {
    match call.kind {
        Kind::Set => {
            let reply = entry.put(stores, value);
            if reply.0 != End::Done {
                entry.is_there = false;
            }
            reply
        }
        Kind::SetOrKeep | Kind::Add | Kind::Replace | Kind::CompareAndSet => {
            entry.set(stores, call.kind, value, number)
        }
        Kind::Increment | Kind::Decrement => entry.count(stores, call.kind, call.by, wanted),
        Kind::Append | Kind::Prepend => entry.join(stores, call.kind, value, number, wanted),
        Kind::GetOrAdd => entry.get_or_add(stores, value, number, wanted),
        Kind::SetUntil => {
            let reply = entry.store_until(stores, call, value, number, wanted);
            if reply.0 != End::Done {
                entry.is_there = false;
            }
            reply
        }
        Kind::AddUntil | Kind::ReplaceUntil | Kind::TouchUntil => {
            entry.store_until(stores, call, value, number, wanted)
        }
        Kind::GetUnexpired => entry.get_unexpired(lapsed, call.time, wanted),
        _ => entry.look(call.kind, number, wanted),
    }
}

/// The key of a part of the value whose root has this key.
pub fn part_of(root: u64, part: u64) -> u64 {
    FIRST_PART
        .wrapping_add(part.wrapping_mul(LARGE_KEYS))
        .wrapping_add(root.wrapping_sub(PLAIN_KEYS))
}

/// The number in eight bytes from this place on.
fn number_at(bytes: &[u8], place: u64) -> Option<u64> {
    let (number, _rest) = bytes.get(place as usize..)?.split_first_chunk::<8>()?;
    Some(u64::from_le_bytes(*number))
}

/// How many versions the bytes of a root have, if they are those of a value in parts.
fn versions_in(root: &[u8]) -> Option<u64> {
    let len = number_at(root, 1)?;
    let count = (root.len() as u64).checked_sub(9)?;
    if root.first() != Some(&1) || count % 8 != 0 || count / 8 > len {
        return None;
    }
    Some(count / 8)
}

/// The part's entry, where it has the version that the root has of it.
fn part_in<'a>(entries: &'a [Entry], key: u64, root: &[u8], part: u64) -> Option<&'a Entry> {
    let version = number_at(root, part.wrapping_mul(8).wrapping_add(9))?;
    let entry = entries.get(part_of(key, part) as usize)?;
    if entry.is_version(version) {
        Some(entry)
    } else {
        None
    }
}

/// A set of a large value, whose root is `got` if the value is in parts.
fn set_large(
    entries: &mut Vec<Entry>,
    stores: &mut u64,
    key: u64,
    value: &[u8],
    got: &[u8],
    wanted: &mut Vec<u8>,
) -> Reply {
    let is_small = value.len() < MOST_VALUE;
    if is_small {
        put(wanted, &[0]);
        _ = wanted.extend_from_slice(value);
    } else {
        let mut parts: u64 = 0;
        for piece in value.chunks(MOST_VALUE) {
            let version = number_at(got, parts.wrapping_mul(8).wrapping_add(9));
            if let Some(entry) = entries.get_mut(part_of(key, parts) as usize) {
                let _end = entry.put_version(stores, piece, version.unwrap_or(u64::MAX));
            }
            parts = parts.wrapping_add(1);
        }
        if versions_in(got) != Some(parts) || number_at(got, 1) != Some(value.len() as u64) {
            return (End::Wrong, 0);
        }
        put(wanted, got);
    }
    let Some(root) = entries.get_mut(key as usize) else {
        return (End::Wrong, 0);
    };
    let reply = root.put(stores, wanted.as_slice());
    if is_small {
        wanted.clear();
    }
    (reply.0, wanted.len() as u64)
}

/// A get of a large value.
fn get_large(entries: &[Entry], key: u64, wanted: &mut Vec<u8>) -> Reply {
    let root = match entries.get(key as usize) {
        Some(entry) if entry.is_there => entry.bytes.as_slice(),
        _ => return (End::Absent, 0),
    };
    if let Some((0, value)) = root.split_first() {
        put(wanted, value);
        return (End::Done, 0);
    }
    let Some(parts) = versions_in(root) else {
        return (End::Absent, 0);
    };
    for part in 0..parts {
        match part_in(entries, key, root, part) {
            Some(entry) => _ = wanted.extend_from_slice(entry.bytes.as_slice()),
            None => {
                wanted.clear();
                return (End::Absent, 0);
            }
        }
    }
    if number_at(root, 1) == Some(wanted.len() as u64) {
        return (End::Done, 0);
    }
    wanted.clear();
    (End::Absent, 0)
}

/// A delete of a large value: its root goes, and the parts that it has versions of.
fn delete_large(entries: &mut Vec<Entry>, key: u64, root: &mut Vec<u8>) -> Reply {
    match entries.get_mut(key as usize) {
        Some(entry) if entry.is_there => {
            put(root, entry.bytes.as_slice());
            entry.is_there = false;
        }
        _ => return (End::Absent, 0),
    }
    for part in 0..versions_in(root.as_slice()).unwrap_or(0) {
        let is_its = part_in(entries, key, root.as_slice(), part).is_some();
        if let Some(entry) = entries.get_mut(part_of(key, part) as usize) {
            entry.is_there = entry.is_there && !is_its;
        }
    }
    root.clear();
    (End::Done, 0)
}

/// How many keys have a value.
fn count_there(entries: &[Entry]) -> u64 {
    entries.iter().filter(|entry| entry.is_there).count() as u64
}

/// The chunks of the classes.
const CHUNKS: [u64; 4] = [64, 128, 256, 1024];

/// Puts the items and bytes of the class whose chunks have more than `below` bytes, and up to `most`.
fn put_row(entries: &[Entry], below: u64, most: u64, wanted: &mut Vec<u8>) {
    let mut items: u64 = 0;
    let mut bytes: u64 = 0;
    for (key, entry) in entries.iter().enumerate() {
        let size = entry.item_bytes();
        if entry.is_there && below < size && size <= most {
            items = items.wrapping_add(1);
            bytes = bytes.wrapping_add(
                (entry.bytes.len() as u64).wrapping_add(key_bytes(key as u64)),
            );
        }
    }
    _ = wanted.extend_from_slice(&items.to_le_bytes());
    _ = wanted.extend_from_slice(&bytes.to_le_bytes());
}

/// How many bytes the key of this number has.
fn key_bytes(key: u64) -> u64 {
    if key < FIRST_ROOT {
        1
    } else if key < FIRST_PART {
        2
    } else {
        6
    }
}

/// A call on all keys.
fn step_whole(entries: &mut Vec<Entry>, kind: Kind, wanted: &mut Vec<u8>) -> Reply {
    let count = count_there(entries);
    if kind == Kind::ClassItems {
        let mut below: u64 = 0;
        for most in &CHUNKS {
            put_row(entries, below, *most, wanted);
            below = *most;
        }
    }
    for entry in entries.iter_mut() {
        if kind == Kind::Keys {
            _ = wanted.push(entry.is_there as u8);
        }
        entry.is_there = entry.is_there && kind != Kind::Clear;
    }
    (End::Done, count)
}
