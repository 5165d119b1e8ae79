//! The histories and the ledger of a closed arena, played from their beginning.
use crate::races::words::KEYS;
use mc_pages::{Entry, Owner};
use mc_stripe::{Call, HandId, Key, Stamp, Stripe};
use mc_words::Final;
use std::alloc::{AllocError, Global};

/// The stamp with which the key's item was stored, if it has one.
fn stamp_at(stamps: &[Option<Stamp>], key: Key) -> Option<Stamp> {
    let place = key as usize;
    if place < stamps.len() {
        stamps[place]
    } else {
        None
    }
}

/// The key has this stamp from now on. False where there is no such key.
fn put(stamps: &mut [Option<Stamp>], key: Key, stamp: Option<Stamp>) -> bool {
    let place = key as usize;
    if place >= stamps.len() {
        return false;
    }
    stamps[place] = stamp;
    true
}

/// Plays a call. False where its reply isn't right: a get has to have the stamp of a set before it.
fn play(stamps: &mut [Option<Stamp>], call: Call) -> bool {
    match call {
        Call::Set(_, key, stamp) => put(stamps, key, Some(stamp)),
        Call::Get(_, key, found) => stamp_at(stamps, key) == found,
        Call::Delete(_, key, there) => {
            stamp_at(stamps, key).is_some() == there && put(stamps, key, None)
        }
        Call::Evict(_, key) => stamp_at(stamps, key).is_some() && put(stamps, key, None),
        Call::Rescue(_, key) => stamp_at(stamps, key).is_some(),
    }
}

/// Whether the index of a stripe has each of these stamps, and no other.
fn are_indexed(stripe: &Stripe, stamps: &[Option<Stamp>]) -> bool {
    for place in 0..stamps.len() {
        let found = match stripe.find(place as Key) {
            Some((_, stamp)) => Some(stamp),
            None => None,
        };
        if found != stamps[place] {
            return false;
        }
    }
    true
}

/// Whether each reply of a stripe's history is right, and it leads to the index.
pub fn is_stripe_legal(alloc: Global, stripe: &Stripe) -> Result<bool, AllocError> {
    let mut stamps = Vec::new(alloc);
    stamps.resize(KEYS as usize, None)?;
    for call in stripe.history().iter() {
        if !play(&mut stamps, *call) {
            return Ok(false);
        }
    }
    Ok(are_indexed(stripe, &stamps))
}

/// Whether the replies of each stripe's history are right and lead to its index, and no hand has a stripe.
pub fn are_legal(alloc: Global, left: &Final) -> Result<bool, AllocError> {
    for number in 0..left.config().stripes {
        let Some(stripe) = left.stripe(number) else {
            return Ok(false);
        };
        if !is_stripe_legal(alloc, stripe)? {
            return Ok(false);
        }
    }
    Ok(true)
}

/// How many calls of each kind a hand made.
#[derive(Clone, Copy, PartialEq, Eq)]
pub struct Calls {
    pub sets: u64,
    pub gets: u64,
    pub deletes: u64,
    pub evicts: u64,
    pub rescues: u64,
}

/// No calls.
pub const NO_CALLS: Calls = Calls {
    sets: 0,
    gets: 0,
    deletes: 0,
    evicts: 0,
    rescues: 0,
};

impl Calls {
    /// Counts a call, if it is this hand's.
    fn count(&mut self, hand: HandId, call: Call) {
        match call {
            Call::Set(by, _, _) => self.sets = counted(self.sets, by == hand),
            Call::Get(by, _, _) => self.gets = counted(self.gets, by == hand),
            Call::Delete(by, _, _) => self.deletes = counted(self.deletes, by == hand),
            Call::Evict(by, _) => self.evicts = counted(self.evicts, by == hand),
            Call::Rescue(by, _) => self.rescues = counted(self.rescues, by == hand),
        }
    }
}

/// One more, if that is so.
fn counted(count: u64, is_so: bool) -> u64 {
    count.saturating_add(is_so as u64)
}

/// The calls of a hand in a stripe, and others.
fn calls_in(stripe: &Stripe, hand: HandId, others: Calls) -> Calls {
    let mut calls = others;
    for call in stripe.history().iter() {
        calls.count(hand, *call);
    }
    calls
}

/// The calls of a hand in all stripes. None where a hand has one of these.
pub fn calls_of(left: &Final, hand: HandId) -> Option<Calls> {
    let mut calls = NO_CALLS;
    for number in 0..left.config().stripes {
        calls = calls_in(left.stripe(number)?, hand, calls);
    }
    Some(calls)
}

/// Notes the stamp of a call, if it is a set of this hand. False where it is none of the hand's first ones, or was noted before.
fn note_stamp(noted: &mut [bool], hand: HandId, call: Call) -> bool {
    let Call::Set(by, _, stamp) = call else {
        return true;
    };
    let place = stamp
        .wrapping_sub(hand.wrapping_mul(1 << 48))
        .wrapping_sub(1);
    if by != hand {
        return true;
    }
    if place >= noted.len() as u64 || noted[place as usize] {
        return false;
    }
    noted[place as usize] = true;
    true
}

/// Notes the stamps of a hand in a stripe. False where one is none of its first ones, or was noted before.
fn note_stamps(noted: &mut [bool], stripe: &Stripe, hand: HandId) -> bool {
    for call in stripe.history().iter() {
        if !note_stamp(noted, hand, *call) {
            return false;
        }
    }
    true
}

/// Whether the stamps of a hand that set n items are those from 1 on, each once.
pub fn are_first_stamps(
    alloc: Global,
    left: &Final,
    hand: HandId,
    sets: u64,
) -> Result<bool, AllocError> {
    let mut noted = Vec::new(alloc);
    noted.resize(sets as usize, false)?;
    for number in 0..left.config().stripes {
        let Some(stripe) = left.stripe(number) else {
            return Ok(false);
        };
        if !note_stamps(&mut noted, stripe, hand) {
            return Ok(false);
        }
    }
    Ok(noted.iter().all(|it| *it))
}

/// The page's owner from now on. False where it had another one than this before.
fn change(owners: &mut [Owner], page: u64, from: Owner, to: Owner) -> bool {
    let place = page as usize;
    if place >= owners.len() || owners[place] != from {
        return false;
    }
    owners[place] = to;
    true
}

/// The class that the page leaves, or 0 where it doesn't move.
fn leaves(owners: &[Owner], page: u64) -> u64 {
    match owners.get(page as usize) {
        Some(Owner::Moving { src, dst: _ }) => *src,
        _ => 0,
    }
}

/// Plays an entry of the ledger. False where the page had another owner than the entry records.
fn hand_over(owners: &mut [Owner], entry: Entry) -> bool {
    match entry {
        Entry::Granted(page, class, _) => change(
            owners,
            page,
            Owner::Untouched,
            Owner::Class(class),
        ),
        Entry::Taken(page, class) => change(owners, page, Owner::Pool, Owner::Class(class)),
        Entry::Began(page, src, dst) => {
            change(owners, page, Owner::Class(src), Owner::Moving { src, dst })
        }
        Entry::Ended(page, dst) => {
            let src = leaves(owners, page);
            let to = if dst == 0 {
                Owner::Pool
            } else {
                Owner::Class(dst)
            };
            change(owners, page, Owner::Moving { src, dst }, to)
        }
    }
}

/// Whether each page has this owner.
fn are_owners(left: &Final, owners: &[Owner]) -> bool {
    for page in 0..left.classes().arena_pages() {
        if left.owner(page) != owners.get(page as usize).copied() {
            return false;
        }
    }
    true
}

/// Whether the ledger leads from the owners of its base to those of now.
pub fn is_ledger_right(alloc: Global, left: &Final) -> Result<bool, AllocError> {
    let Some(slabs) = left.slabs() else {
        return Ok(false);
    };
    let mut owners = Vec::new(alloc);
    for page in slabs.base() {
        owners.push(page.owner)?;
    }
    for entry in slabs.ledger().iter() {
        if !hand_over(&mut owners, *entry) {
            return Ok(false);
        }
    }
    Ok(are_owners(left, &owners))
}
