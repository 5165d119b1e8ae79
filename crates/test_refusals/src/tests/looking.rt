//! A hand that takes snapshots for another one, in room that was made before.
ghost use Rattle.mc_words.specs.hand.Ready.{IsReadyHandOf};

use super::lists::see_slabs;
use super::snapshot::{LENGTH, MOST, PAGES, note};
use super::stripes::see_stripes;
use mc_pages::ChunkId;
use mc_words::{Arena, Hand};
use std::alloc::{AllocError, Global};

/// Who takes snapshots, the last two of them, and words for items.
#[derive(Drop)]
pub struct Looker {
    pub hand: Hand,
    pub before: Vec<u64>,
    pub after: Vec<u64>,
    pub words: Vec<u64>,
}

/// Room for n numbers. Where it is refused once, it is asked for again.
pub fn room(alloc: Global, count: usize) -> Result<Vec<u64>, AllocError> {
    match Vec::with_capacity(alloc, count) {
        Ok(room) => Ok(room),
        Err(_) => Vec::with_capacity(alloc, count),
    }
}

// Takes a snapshot of the arena and of a hand that acts. False where something can't be seen.
fn see(arena: &Arena, looker: &mut Hand, acting: &Hand, seen: &mut Vec<u64>) -> bool
    requires looker { IsReadyHandOf arena.now looker.old }
    ensures looker { IsReadyHandOf arena.now looker.new }
{
    seen.clear();
    note(seen, acting.refs());
    note(seen, acting.next_stamp().unwrap_or(0));
    for page in 0..PAGES {
        see_page(arena, looker, page, seen);
    }
    let slabs = see_slabs(arena, looker, seen);
    let stripes = see_stripes(arena, looker, seen);
    slabs && stripes && seen.len() == LENGTH
}

// The headers of a page.
fn see_page(arena: &Arena, looker: &mut Hand, page: u64, seen: &mut Vec<u64>)
    requires looker { IsReadyHandOf arena.now looker.old }
    ensures looker { IsReadyHandOf arena.now looker.new }
{
    for index in 0..MOST {
        see_head(arena, looker, ChunkId { page, index }, seen);
    }
}

#[tactic(auto, using(crate::proofs::Kept::ready_behind_head))]
fn see_head(arena: &Arena, looker: &mut Hand, chunk: ChunkId, seen: &mut Vec<u64>)
    requires looker { IsReadyHandOf arena.now looker.old }
    ensures looker { IsReadyHandOf arena.now looker.new }
{
    let classes = arena.classes();
    if chunk.page < classes.arena_pages() && chunk.index < classes.per_page(1) {
        let head = arena.head(looker, chunk);
        note(seen, head);
    }
}

/// Takes a snapshot before a call of the hand that acts. False where something can't be seen.
pub fn look_before(arena: &Arena, looker: &mut Looker, acting: &Hand) -> bool
    requires looker { IsReadyHandOf arena.now looker.old.hand }
    ensures looker { IsReadyHandOf arena.now looker.new.hand }
{
    see(arena, &mut looker.hand, acting, &mut looker.before)
}

/// Takes a snapshot after the call.
pub fn look_after(arena: &Arena, looker: &mut Looker, acting: &Hand) -> bool
    requires looker { IsReadyHandOf arena.now looker.old.hand }
    ensures looker { IsReadyHandOf arena.now looker.new.hand }
{
    see(arena, &mut looker.hand, acting, &mut looker.after)
}
