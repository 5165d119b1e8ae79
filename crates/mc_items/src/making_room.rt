//! Room that is made in a class without a sweep, under one hold of the slabs lock.
ghost use Rattle.std.specs.Prelude.{◌≡◌, ◌+◌, ◌≤◌, IfOk, None, OnErr, false, is_some, true};
ghost use Rattle.mc_pages.specs.ClassState.{first_free};
ghost use Rattle.mc_pages.specs.SlabState.{class_at};
ghost use Rattle.mc_core.specs.model.Holdings.{has_fresh};
ghost use Rattle.mc_core.specs.model.State.{is_class};
ghost use Rattle.mc_words.specs.hand.Arenas.{IsHandOf, setup_of, view};
ghost use Rattle.mc_words.specs.hand.Idle.{has_no_stripes};
ghost use Rattle.mc_words.specs.hand.Observers.{HasSlabs, hand_number, locks_of, slabs_lent};
ghost use Rattle.mc_words.specs.hand.Ready.{IsReady, StaysReady};
ghost use Rattle.mc_words.specs.item.Refs.{KeepsHoldings};
ghost use Rattle.mc_items.specs.Keeping.{StoresNothing};
ghost use Rattle.mc_items.specs.MakingRoom.{EvictsOldestFor, LacksRoomMemory, MakesRoom, PutsBackDead, RecordsSomeDeletes, evicted_for, room_by, supply_by};
ghost use Rattle.mc_items.specs.OnKeys.{Acts, ActsOnce, SeesMore};
ghost use Rattle.mc_items.specs.Visiting.{LacksCallAtOldest, RecordsDeletes};

use crate::evicting::Supply;
use crate::marks::Marks;
use crate::supplying::{ask_move, grow_for};
use crate::visiting::{Tally, visit_oldest};
use mc_classes::ClassId;
use mc_stripe::NoMemory;
use mc_words::{Arena, Hand, SlabsHeld};
use std::sync::Wait;

/// How room was made in a class.
#[derive(Clone, Copy, PartialEq, Eq)]
pub enum Room {
    /// The class had a free chunk, at once or after dead ones were put back.
    Had,
    /// The class was given the next page.
    Page,
    /// Items were evicted, and chunks put back: how many of each, of which one at least isn't 0. An evicted item that somebody reads
    /// still gives its chunk once it is released.
    Freed { evicted: u64, freed: u64 },
    /// No page was left, and none of the class's oldest items could be evicted.
    Full,
}

/// Makes room in a class, if it has no free chunk, so that the next `set` finds one and sweeps nothing. It puts back the chunk that the
/// hand left dead when it last stored over an item, or dead chunks that hints name; else it gives the class the next page; else it evicts some of the class's oldest items that nobody holds, of which each
/// that is marked gets a second chance. It waits for the lock of the slabs alone. (memcached's items.c `lru_pull_tail`, with a second
/// chance as its `ITEM_ACTIVE` items get; unlink in place of condemn: own)
pub fn make_room<R: Wait, M: Marks>(
    rt: &R,
    arena: &Arena,
    hand: &mut Hand,
    class: ClassId,
    marks: &M,
) -> Result<Room, NoMemory>
    requires arena { IsHandOf arena.now hand.old }
    requires ready { IsReady (view hand.old) }
    requires class { is_class (setup_of arena.now).table class ≡ true }
    ensures makes { IfOk result (λ room. ActsOnce (MakesRoom (hand_number hand.old) class room)
        hand.old hand.new) }
    ensures calls { IfOk result (λ room.
        RecordsDeletes (hand_number hand.old) (evicted_for room) (view hand.old) (view hand.new)) }
    ensures refused { OnErr result (ActsOnce (LacksRoomMemory (hand_number hand.old) class)
        hand.old hand.new) }
    ensures refused_calls { OnErr result (RecordsSomeDeletes (hand_number hand.old)
        (view hand.old) (view hand.new)) }
    ensures stores_nothing { StoresNothing (view hand.old) (view hand.new) }
    ensures holdings { KeepsHoldings (view hand.old) (view hand.new) }
    ensures hand { StaysReady arena.now hand.old hand.new }
{
    let mut slabs = arena.lock_slabs(rt, hand);
    let made = make_room_held(arena, hand, &mut slabs, class, marks);
    arena.give_slabs(hand, slabs);
    made
}

// Makes room in a class, if it has no free chunk, under the lock of the slabs.
pub(crate) fn make_room_held<M: Marks>(
    arena: &Arena,
    hand: &mut Hand,
    slabs: &mut SlabsHeld,
    class: ClassId,
    marks: &M,
) -> Result<Room, NoMemory>
    requires arena { IsHandOf arena.now hand.old }
    requires class { is_class (setup_of arena.now).table class ≡ true }
    requires slabs { HasSlabs hand.old slabs.old }
    requires one { has_no_stripes (view hand.old) ≡ true }
    requires fresh { has_fresh (view hand.old).row.holdings ≡ false }
    requires whole { (slabs_lent slabs.old).uncut ≡ None }
    ensures arena { IsHandOf arena.now hand.new }
    ensures locks { locks_of hand.new ≡ locks_of hand.old }
    ensures slabs { HasSlabs hand.new slabs.new }
    ensures makes { IfOk result (λ room. Acts (MakesRoom (hand_number hand.old) class room)
        hand.old slabs.old hand.new slabs.new) }
    ensures refused { OnErr result (Acts (LacksRoomMemory (hand_number hand.old) class) hand.old
        slabs.old hand.new slabs.new) }
    ensures whole { (slabs_lent slabs.new).uncut ≡ None }
{
    if find_free(arena, hand, slabs, class) {
        return Ok(Room::Had);
    }
    match grow_for(arena, hand, slabs, class) {
        Ok(true) => Ok(Room::Page),
        Ok(false) => evict_oldest(arena, hand, slabs, class, marks),
        Err(error) => Err(error),
    }
}

// Whether the class has a free chunk, once the dead chunk that the hand remembers was put back. Where the hand remembers none of the class, and
// none is free, dead chunks that hints name are put back first.
fn find_free(arena: &Arena, hand: &mut Hand, slabs: &mut SlabsHeld, class: ClassId) -> bool
    requires arena { IsHandOf arena.now hand.old }
    requires class { is_class (setup_of arena.now).table class ≡ true }
    requires slabs { HasSlabs hand.old slabs.old }
    ensures arena { IsHandOf arena.now hand.new }
    ensures locks { locks_of hand.new ≡ locks_of hand.old }
    ensures slabs { HasSlabs hand.new slabs.new }
    ensures puts_back { Acts (PutsBackDead class) hand.old slabs.old hand.new slabs.new }
    ensures free { result ≡ is_some (first_free (class_at (slabs_lent slabs.new) class)) }
    ensures seen { SeesMore hand.old hand.new }
    ensures uncut { (slabs_lent slabs.new).uncut ≡ (slabs_lent slabs.old).uncut }
{
    if arena.recover_own(hand, slabs, class) {
        return slabs.slabs().first_free(class).is_some();
    }
    if slabs.slabs().first_free(class).is_some() {
        return true;
    }
    arena.recover(hand, slabs, class);
    slabs.slabs().first_free(class).is_some()
}

// Evicts some of the class's oldest items, and asks for a move of a page to the class, if one was evicted and the automover's mode
// is 2.
fn evict_oldest<M: Marks>(
    arena: &Arena,
    hand: &mut Hand,
    slabs: &mut SlabsHeld,
    class: ClassId,
    marks: &M,
) -> Result<Room, NoMemory>
    requires arena { IsHandOf arena.now hand.old }
    requires class { is_class (setup_of arena.now).table class ≡ true }
    requires slabs { HasSlabs hand.old slabs.old }
    requires one { has_no_stripes (view hand.old) ≡ true }
    requires fresh { has_fresh (view hand.old).row.holdings ≡ false }
    ensures arena { IsHandOf arena.now hand.new }
    ensures locks { locks_of hand.new ≡ locks_of hand.old }
    ensures slabs { HasSlabs hand.new slabs.new }
    ensures evicts { IfOk result (λ room. Acts (EvictsOldestFor (hand_number hand.old) class room)
        hand.old slabs.old hand.new slabs.new) }
    ensures no_memory { OnErr result (Acts (LacksCallAtOldest (hand_number hand.old) class)
        hand.old slabs.old hand.new slabs.new) }
    ensures uncut { (slabs_lent slabs.new).uncut ≡ (slabs_lent slabs.old).uncut }
{
    let tally = match visit_oldest(arena, hand, slabs, class, marks) {
        Ok(tally) => tally,
        Err(error) => return Err(error),
    };
    ask_move(arena, hand, slabs, class, supply_of(tally));
    Ok(room_of(tally))
}

// What a move is asked for by.
fn supply_of(tally: Tally) -> Supply
    ensures supply { result ≡ supply_by tally.evicted }
{
    if tally.evicted == 0 {
        Supply::Dead
    } else {
        Supply::Evicted
    }
}

// The answer of the call.
fn room_of(tally: Tally) -> Room
    ensures room { result ≡ room_by tally.evicted tally.freed }
{
    if tally.evicted == 0 && tally.freed == 0 {
        return Room::Full;
    }
    Room::Freed {
        evicted: tally.evicted,
        freed: tally.freed,
    }
}
