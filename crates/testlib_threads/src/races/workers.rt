//! Workers: each keeps up to 255 references over its own calls, most of which it got by old hints.
ghost use Rattle.std.specs.Prelude.{IfOk, IfSome};
ghost use Rattle.testlib_hands.specs.Hands.{IsEmptyHandOf};
ghost use Rattle.testlib_threads.specs.Keepers.{AreNear, IsKeeperOf, IsNear};

use crate::races::calls::{delete_key, set_key, touch_key};
use crate::races::holding::{give_all_back, give_back, is_own, keep_again, keep_key};
use crate::races::replays::{Calls, NO_CALLS};
use crate::races::words::{KEYS, draw};
use mc_items::Ref;
use mc_stripe::{Key, Stamp};
use mc_words::{Again, Arena, Hand, Hint};
use std::alloc::{AllocError, Global};
use std::sync::Wait;
use testlib_hands::{Job, Worked};

/// How many rounds a worker has.
const ROUNDS: u64 = 49_152;

/// How many references a worker keeps in most of its rounds.
const FEW: u64 = 3;

/// How many references a worker keeps in a round: for a while as many as it may.
fn most_kept(thread: u64, round: u64) -> u64 {
    if (round / 1024).wrapping_add(thread.wrapping_mul(4)) % 16 == 0 {
        255
    } else {
        FEW
    }
}

/// What a worker's rounds counted.
#[derive(Clone, Copy)]
pub struct Told {
    /// The calls that were done.
    pub calls: Calls,
    /// How often an item had other words than its own, or wasn't the one of its hint.
    pub wrong: u64,
}

/// The counts before the first round.
pub const NOTHING: Told = Told {
    calls: NO_CALLS,
    wrong: 0,
};

impl Told {
    /// Counts what is wrong.
    pub fn note(&mut self, is_right: bool) {
        if !is_right {
            self.wrong = self.wrong.saturating_add(1);
        }
    }

    /// Counts a set, if it was done.
    fn set(&mut self, done: bool) {
        self.calls.sets = self.calls.sets.saturating_add(done as u64);
    }

    /// Counts a get, if it was done.
    fn got(&mut self, done: bool) {
        self.calls.gets = self.calls.gets.saturating_add(done as u64);
    }

    /// Counts a delete, if it was done.
    fn deleted(&mut self, done: bool) {
        self.calls.deletes = self.calls.deletes.saturating_add(done as u64);
    }
}

/// Hints of the keys' items, each with the item's stamp.
pub type Hints = Vec<Option<(Hint, Stamp)>>;

/// The hint of a key.
fn hint_of(_arena: &Arena, hints: &Hints, key: Key) -> Option<(Hint, Stamp)>
    requires in_range { AreNear _arena.now hints.now.items }
    ensures in_range { IfSome result (λ note. IsNear _arena.now note.0) }
{
    let place = key as usize;
    if place < hints.len() {
        hints[place]
    } else {
        None
    }
}

/// Makes this the hint of a key from now on.
fn note_hint(_arena: &Arena, hints: &mut Hints, key: Key, note: (Hint, Stamp))
    requires in_range { AreNear _arena.now hints.old.items }
    requires note { IsNear _arena.now note.0 }
    ensures in_range { AreNear _arena.now hints.new.items }
{
    let place = key as usize;
    if place < hints.len() {
        hints[place] = Some(note);
    }
}

/// A hand with the references that it keeps, hints of the keys' items, and what its rounds counted.
#[derive(Drop)]
pub struct Keeper {
    pub hand: Hand,
    pub kept: Vec<Ref>,
    pub hints: Hints,
    pub told: Told,
}

/// Gets and keeps the key's item, and notes a hint of it.
fn keep_fresh<R: Wait>(rt: &R, arena: &Arena, keeper: &mut Keeper, key: Key, waits: bool)
    requires keeper { IsKeeperOf arena.now keeper.old.hand keeper.old.kept.items
        × AreNear arena.now keeper.old.hints.items }
    ensures keeper { IsKeeperOf arena.now keeper.new.hand keeper.new.kept.items
        × AreNear arena.now keeper.new.hints.items }
{
    match keep_key(rt, arena, &mut keeper.hand, &mut keeper.kept, key, waits) {
        Ok(Some(note)) => {
            keeper.told.got(true);
            note_hint(arena, &mut keeper.hints, key, note);
        }
        Ok(None) => keeper.told.got(true),
        Err(_) => {}
    }
}

/// Keeps the key's item by its hint; where it is gone, by a get.
fn keep<R: Wait>(rt: &R, arena: &Arena, keeper: &mut Keeper, key: Key, waits: bool)
    requires keeper { IsKeeperOf arena.now keeper.old.hand keeper.old.kept.items
        × AreNear arena.now keeper.old.hints.items }
    ensures keeper { IsKeeperOf arena.now keeper.new.hand keeper.new.kept.items
        × AreNear arena.now keeper.new.hints.items }
{
    let Some(note) = hint_of(arena, &keeper.hints, key) else {
        return keep_fresh(rt, arena, keeper, key, waits);
    };
    match keep_again(arena, &mut keeper.hand, &mut keeper.kept, note) {
        Ok(is_right) => keeper.told.note(is_right),
        Err(Again::Gone) => keep_fresh(rt, arena, keeper, key, waits),
        Err(_) => {}
    }
}

/// Changes what the key leads to, or how old its item is.
fn change<R: Wait>(
    rt: &R,
    alloc: Global,
    arena: &Arena,
    hand: &mut Hand,
    _kept: &[Ref],
    told: &mut Told,
    drawn: u64,
)
    requires keeper { IsKeeperOf arena.now hand.old _kept.now }
    ensures keeper { IsKeeperOf arena.now hand.new _kept.now }
{
    let key = drawn / 256 % KEYS;
    match drawn / 16 % 16 {
        0 => told.deleted(delete_key(rt, arena, hand, key)),
        1..=4 => told.got(touch_key(rt, arena, hand, key)),
        _ => told.set(set_key(rt, alloc, arena, hand, key)),
    }
}

/// Reads an item that is kept.
pub fn read_one(alloc: Global, arena: &Arena, keeper: &mut Keeper, place: usize)
    requires keeper { IsKeeperOf arena.now keeper.old.hand keeper.old.kept.items
        × AreNear arena.now keeper.old.hints.items }
    ensures keeper { IsKeeperOf arena.now keeper.new.hand keeper.new.kept.items
        × AreNear arena.now keeper.new.hints.items }
{
    let own = is_own(alloc, arena, &mut keeper.hand, &keeper.kept, place);
    keeper.told.note(matches!(own, Ok(true)));
}

/// A place among n, or 0 where there is none.
pub fn place_in(count: usize, drawn: u64) -> usize {
    if count == 0 {
        0
    } else {
        (drawn >> 24) as usize % count
    }
}

/// What a round does where there is room for one more reference: it is kept, and read at once.
pub fn keep_and_read<R: Wait>(
    rt: &R,
    alloc: Global,
    arena: &Arena,
    keeper: &mut Keeper,
    key: Key,
    waits: bool,
)
    requires keeper { IsKeeperOf arena.now keeper.old.hand keeper.old.kept.items
        × AreNear arena.now keeper.old.hints.items }
    ensures keeper { IsKeeperOf arena.now keeper.new.hand keeper.new.kept.items
        × AreNear arena.now keeper.new.hints.items }
{
    keep(rt, arena, keeper, key, waits);
    let last = keeper.kept.len().saturating_sub(1);
    read_one(alloc, arena, keeper, last);
}

/// Gives back a reference that is kept.
pub fn give_one_back(arena: &Arena, keeper: &mut Keeper, place: usize)
    requires keeper { IsKeeperOf arena.now keeper.old.hand keeper.old.kept.items
        × AreNear arena.now keeper.old.hints.items }
    ensures keeper { IsKeeperOf arena.now keeper.new.hand keeper.new.kept.items
        × AreNear arena.now keeper.new.hints.items }
{
    give_back(arena, &mut keeper.hand, &mut keeper.kept, place);
}

/// One round.
fn act<R: Wait>(rt: &R, alloc: Global, arena: &Arena, keeper: &mut Keeper, drawn: u64)
    requires keeper { IsKeeperOf arena.now keeper.old.hand keeper.old.kept.items
        × AreNear arena.now keeper.old.hints.items }
    ensures keeper { IsKeeperOf arena.now keeper.new.hand keeper.new.kept.items
        × AreNear arena.now keeper.new.hints.items }
{
    let place = place_in(keeper.kept.len(), drawn);
    let (key, waits) = (drawn % KEYS, drawn / 65_536 % 4 != 0);
    match drawn / 4096 % 16 {
        0..=8 => keep_and_read(rt, alloc, arena, keeper, key, waits),
        9..=11 => change(
            rt,
            alloc,
            arena,
            &mut keeper.hand,
            &keeper.kept,
            &mut keeper.told,
            drawn,
        ),
        12 | 13 => read_one(alloc, arena, keeper, place),
        _ => give_one_back(arena, keeper, place),
    }
}

/// Gives a reference back where there are more than n.
pub fn make_room(arena: &Arena, keeper: &mut Keeper, most: u64, drawn: u64)
    requires keeper { IsKeeperOf arena.now keeper.old.hand keeper.old.kept.items
        × AreNear arena.now keeper.old.hints.items }
    ensures keeper { IsKeeperOf arena.now keeper.new.hand keeper.new.kept.items
        × AreNear arena.now keeper.new.hints.items }
{
    let count = keeper.kept.len();
    if count as u64 > most {
        give_one_back(arena, keeper, place_in(count, drawn));
    }
}

/// One round, before which a reference is given back where there are more than there are to be.
fn do_round<R: Wait>(rt: &R, alloc: Global, arena: &Arena, keeper: &mut Keeper, place: (u64, u64))
    requires keeper { IsKeeperOf arena.now keeper.old.hand keeper.old.kept.items
        × AreNear arena.now keeper.old.hints.items }
    ensures keeper { IsKeeperOf arena.now keeper.new.hand keeper.new.kept.items
        × AreNear arena.now keeper.new.hints.items }
{
    let (thread, round) = place;
    let drawn = draw(thread, round);
    make_room(arena, keeper, most_kept(thread, round), drawn);
    act(rt, alloc, arena, keeper, drawn);
}

/// No hints.
pub fn no_hints(alloc: Global, _arena: &Arena) -> Result<Hints, AllocError>
    ensures in_range { IfOk result (λ hints. AreNear _arena.now hints.items) }
{
    let mut hints = Vec::new(alloc);
    hints.resize(KEYS as usize, None)?;
    Ok(hints)
}

/// A worker's thread: its number, and its hand.
#[derive(Drop)]
pub struct Worker(pub u64, pub Hand);

impl Job for Worker {
    type Told = Told;

    ghost is_ready = { λ arena job. IsEmptyHandOf arena job.1 };

    /// The worker's rounds: what they counted.
    fn work<R: Wait>(self, rt: &R, alloc: Global, arena: &Arena) -> Worked<Told> {
        let Worker(thread, hand) = self;
        let mut told = NOTHING;
        let Ok(hints) = no_hints(alloc, arena) else {
            told.note(false);
            return Worked { hand, told };
        };
        let mut keeper = Keeper {
            hand,
            kept: Vec::new(alloc),
            hints,
            told,
        };
        for round in 0..ROUNDS {
            do_round(rt, alloc, arena, &mut keeper, (thread, round));
        }
        let hand = give_all_back(arena, keeper.hand, keeper.kept);
        Worked {
            hand,
            told: keeper.told,
        }
    }
}
