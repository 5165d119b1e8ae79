//! A call of a hand with what it is to give.
ghost use Rattle.mc_words.specs.hand.Ready.{IsReadyHandOf};
ghost use Rattle.mc_items.specs.ItemRefs.{IsItemRef};
ghost use Rattle.mc_words.specs.hand.Arenas.{view};

use super::rooms::makes;
use mc_classes::ClassId;
use mc_items::{Ref, Room, TryGetError, read, release, try_get};
use mc_mover::{Counts, Turn, forget, reassign, trim};
use mc_pages::{ChunkId, Reassign};
use mc_stripe::Key;
use mc_words::{Arena, Hand};
use std::alloc::Global;
use std::sync::Wait;
use testlib_hands::{
    Chunks, Played, are_from, delete_key, get_key, header, set_mode_by, stats_of, store_all,
    touch_key, turn_by,
};

/// A call, and what it is to give.
#[derive(Drop)]
pub enum Step {
    /// Items of n words, from the first key's number on, for the keys from the first on, before the second. Each is stored.
    Sets(Key, Key, u64),
    /// The key's item is deleted, which is there.
    Deletes(Key),
    /// The key's item is touched, if it is there.
    Touches(Key, bool),
    /// The key's item has n words, from a first one on.
    Reads(Key, u64, u64),
    /// A get that waits for nobody is refused so, or not at all. A reference that it gives counts for good.
    TryGets(Key, Option<TryGetError>),
    /// The chunk's header.
    Head(ChunkId, u64),
    /// A move is asked for, from a class or any to a class or the pool.
    Reassigns(Option<ClassId>, ClassId, Result<(), Reassign>),
    /// A turn finds that no page moves.
    Idles,
    /// A turn goes on, with this many chunks cleared, rescued, evicted, busy and locked.
    Goes(u64, u64, u64, u64, u64),
    /// A turn finishes the move, with the same counts.
    Finishes(u64, u64, u64, u64, u64),
    /// Each stripe is trimmed, at the second try where memory was refused at the first.
    Trims,
    /// Each stripe forgets its calls.
    Forgets,
    /// Room is made for items of 61 words, where keys below this one are marked: how.
    Makes(Key, Room),
    /// The automover's mode is set, and a survey has it.
    Modes(u64),
    /// This many pages are granted, and in the pool, and one moves or none does.
    Pages(u64, u64, bool),
    /// This many moves ended, items were rescued, and evicted, and chunks held up a move.
    Moved(u64, u64, u64, u64),
    /// The class has this many pages, used chunks and free ones.
    Has(ClassId, u64, u64, u64),
}

/// The counts of a turn.
fn counts(cleared: u64, rescued: u64, evicted: u64, busy: u64, locked: u64) -> Counts {
    Counts {
        cleared,
        rescued,
        evicted,
        busy,
        locked,
    }
}

/// Whether the key has an item of n words, from the first on.
fn reads<R: Wait>(
    rt: &R,
    alloc: Global,
    arena: &Arena,
    hand: &mut Hand,
    key: Key,
    words: (u64, u64),
) -> Played
    requires arena { IsReadyHandOf arena.now hand.old }
    ensures arena { IsReadyHandOf arena.now hand.new }
{
    match get_key(rt, arena, hand, key) {
        Some(item) => reads_held(alloc, arena, hand, item, words),
        None => Ok(false),
    }
}

/// Whether the item that is held has n words, from the first on. It is released.
pub fn reads_held(
    alloc: Global,
    arena: &Arena,
    hand: &mut Hand,
    item: Ref,
    words: (u64, u64),
) -> Played
    requires arena { IsReadyHandOf arena.now hand.old }
    requires item { IsItemRef (view hand.old) item }
    ensures arena { IsReadyHandOf arena.now hand.new }
{
    let found = read(alloc, arena, hand, &item);
    release(arena, hand, item);
    let (first, len) = words;
    Ok(are_from(&found?, first, len))
}

/// Whether the mode is set, and a survey has it.
fn has_mode<R: Wait>(rt: &R, alloc: Global, arena: &Arena, hand: &mut Hand, mode: u64) -> bool
    requires arena { IsReadyHandOf arena.now hand.old }
    ensures arena { IsReadyHandOf arena.now hand.new }
{
    if !set_mode_by(rt, arena, hand, mode) {
        return false;
    }
    match stats_of(rt, alloc, arena, hand, false) {
        Some(stats) => stats.mode == mode,
        None => false,
    }
}

/// Whether this many pages are granted, and in the pool, and one moves or none does.
fn has_pages<R: Wait>(
    rt: &R,
    alloc: Global,
    arena: &Arena,
    hand: &mut Hand,
    wanted: (u64, u64, bool),
) -> bool
    requires arena { IsReadyHandOf arena.now hand.old }
    ensures arena { IsReadyHandOf arena.now hand.new }
{
    match stats_of(rt, alloc, arena, hand, true) {
        Some(stats) => (stats.totals.granted, stats.totals.pool, stats.running) == wanted,
        None => false,
    }
}

/// Whether this many moves ended, items were rescued, and evicted, and chunks held up a move.
fn has_moved<R: Wait>(
    rt: &R,
    alloc: Global,
    arena: &Arena,
    hand: &mut Hand,
    wanted: (u64, u64, u64, u64),
) -> bool
    requires arena { IsReadyHandOf arena.now hand.old }
    ensures arena { IsReadyHandOf arena.now hand.new }
{
    let Some(stats) = stats_of(rt, alloc, arena, hand, true) else {
        return false;
    };
    let totals = stats.totals;
    (
        totals.moved,
        totals.rescues,
        totals.evictions_nomem,
        totals.busy,
    ) == wanted
}

/// Whether the class has these chunks, once the dead were put back, where that is asked for.
pub fn has_chunks<R: Wait>(
    rt: &R,
    alloc: Global,
    arena: &Arena,
    hand: &mut Hand,
    sweep: bool,
    class: ClassId,
    chunks: Chunks,
) -> bool
    requires arena { IsReadyHandOf arena.now hand.old }
    ensures arena { IsReadyHandOf arena.now hand.new }
{
    match stats_of(rt, alloc, arena, hand, sweep) {
        Some(stats) => stats.class(arena.classes(), class) == Some(chunks),
        None => false,
    }
}

impl testlib_hands::Step for Step {
    fn plays<R: Wait>(&self, rt: &R, alloc: Global, arena: &Arena, hand: &mut Hand) -> Played {
        match self {
            Step::Sets(first, end, len) => store_all(
                rt,
                alloc,
                arena,
                hand,
                (*first, *end),
                *first,
                *len,
            ),
            Step::Reads(key, first, len) => { reads(rt, alloc, arena, hand, *key, (*first, *len)) }
            Step::Modes(mode) => Ok(has_mode(rt, alloc, arena, hand, *mode)),
            Step::Pages(granted, pool, running) => {
                Ok(has_pages(rt, alloc, arena, hand, (*granted, *pool, *running)))
            }
            Step::Moved(moved, rescues, evictions_nomem, busy) => {
                let wanted = (*moved, *rescues, *evictions_nomem, *busy);
                Ok(has_moved(rt, alloc, arena, hand, wanted))
            }
            Step::Has(class, pages, used, free) => {
                let chunks = Chunks {
                    pages: *pages,
                    used: *used,
                    free: *free,
                };
                Ok(has_chunks(rt, alloc, arena, hand, true, *class, chunks))
            }
            _ => Ok(acts(rt, arena, hand, self)),
        }
    }
}

/// Whether a call that takes no memory of its own gives what it is to.
fn acts<R: Wait>(rt: &R, arena: &Arena, hand: &mut Hand, step: &Step) -> bool
    requires arena { IsReadyHandOf arena.now hand.old }
    ensures arena { IsReadyHandOf arena.now hand.new }
{
    match step {
        Step::Deletes(key) => delete_key(rt, arena, hand, *key) == Some(true),
        Step::Touches(key, there) => touch_key(rt, arena, hand, *key) == Some(*there),
        Step::TryGets(key, refused) => try_get(arena, hand, *key).err() == *refused,
        Step::Head(chunk, head) => header(arena, hand, *chunk) == Some(*head),
        Step::Reassigns(src, dst, answer) => reassign(rt, arena, hand, *src, *dst) == *answer,
        Step::Trims => trim(rt, arena, hand).is_ok() || trim(rt, arena, hand).is_ok(),
        Step::Forgets => {
            forget(rt, arena, hand);
            true
        }
        Step::Makes(below, room) => makes(rt, arena, hand, *below, *room),
        _ => match turn_of(step) {
            Some(wanted) => turn_by(rt, arena, hand) == Some(wanted),
            None => false,
        },
    }
}

/// What a turn is to do, where the step is one.
fn turn_of(step: &Step) -> Option<Turn> {
    match step {
        Step::Idles => Some(Turn::Idle),
        Step::Goes(cleared, rescued, evicted, busy, locked) => {
            let went = counts(*cleared, *rescued, *evicted, *busy, *locked);
            Some(Turn::Went(went))
        }
        Step::Finishes(cleared, rescued, evicted, busy, locked) => {
            let finished = counts(*cleared, *rescued, *evicted, *busy, *locked);
            Some(Turn::Finished(finished))
        }
        _ => None,
    }
}
