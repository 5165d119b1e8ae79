//! Surveys of the slab memory, for statistics and for the automover.
ghost use Rattle.std.specs.Prelude.{◌≡◌, ◌≤◌, [], length, map, vec_capacity, IfOk, OnErr};
ghost use Rattle.mc_pages.specs.ClassState.{numbers_of};
ghost use Rattle.mc_words.specs.hand.Arenas.{IsHandOf, setup_of, view};
ghost use Rattle.mc_words.specs.hand.Observers.{HasSlabs, locks_of, slabs_lent};
ghost use Rattle.mc_words.specs.hand.Ready.{IsReady, StaysReady};
ghost use Rattle.mc_words.specs.item.Refs.{KeepsHoldings};
ghost use Rattle.mc_words.specs.chunk.Sweeps.{with_seen};
ghost use Rattle.mc_mover.specs.Acting.{ActsByNumber, ActsOnceByNumber};
ghost use Rattle.mc_mover.specs.Surveying.{IsSurvey, Surveys, SweepsClasses, classes_swept};

use crate::numbers::Survey;
use mc_memory::with_capacity;
use mc_pages::{Numbers, Slabs};
use mc_stripe::NoMemory;
use mc_words::{Arena, Hand, SlabsHeld};
use std::alloc::Global;
use std::sync::Wait;

/// What the classes and the whole have in one hold of the lock of the slabs, for which it waits. With `sweep` each chunk that is handed
/// out is looked at first, and the dead ones are put back, so that they count as free; without, nothing is looked at or changed. At want
/// of memory nothing is done. It records no call of this hand, and stores nothing. (memcached's `fill_slab_stats_automove`; the sweep is own)
pub fn survey<R: Wait>(
    rt: &R,
    alloc: Global,
    arena: &Arena,
    hand: &mut Hand,
    sweep: bool,
) -> Result<Survey, NoMemory>
    requires arena { IsHandOf arena.now hand.old }
    requires ready { IsReady (view hand.old) }
    ensures surveys { IfOk result (λ survey. ActsOnceByNumber (λ number.
        Surveys sweep survey) hand.old hand.new) }
    ensures no_memory { OnErr result (view hand.new ≡ view hand.old) }
    ensures stores_nothing { (view hand.new).row.knows.stored ≡ (view hand.old).row.knows.stored }
    ensures records_nothing { (view hand.new).row.knows.mine ≡ (view hand.old).row.knows.mine }
    ensures holdings { KeepsHoldings (view hand.old) (view hand.new) }
    ensures hand { StaysReady arena.now hand.old hand.new }
{
    let count = arena.classes().count();
    let room = with_capacity(alloc, count as usize)?;
    let mut held = arena.lock_slabs(rt, hand);
    let numbers = survey_held(arena, hand, &mut held, sweep, room);
    arena.give_slabs(hand, held);
    Ok(numbers)
}

// A survey, under one hold of the lock of the slabs. The room for the list of classes was made before.
pub(crate) fn survey_held(
    arena: &Arena,
    hand: &mut Hand,
    held: &mut SlabsHeld,
    sweep: bool,
    room: Vec<Numbers>,
) -> Survey
    requires arena { IsHandOf arena.now hand.old }
    requires held { HasSlabs hand.old held.old }
    requires empty { room.items ≡ [] }
    requires room { length (setup_of arena.now).table.sizes ≤ vec_capacity room }
    ensures arena { IsHandOf arena.now hand.new }
    ensures locks { locks_of hand.new ≡ locks_of hand.old }
    ensures held { HasSlabs hand.new held.new }
    ensures surveys { ActsByNumber (λ number. Surveys sweep result) hand.old held.old hand.new
        held.new }
    ensures view { view hand.new ≡ with_seen (view hand.old) (view hand.new) }
    ensures whole { (slabs_lent held.new).uncut ≡ (slabs_lent held.old).uncut }
{
    sweep_classes(arena, hand, held, sweep);
    read_slabs(held.slabs(), arena.classes().count(), room)
}

// Puts the dead chunks of all classes back, if that is asked for.
fn sweep_classes(arena: &Arena, hand: &mut Hand, held: &mut SlabsHeld, sweep: bool)
    requires arena { IsHandOf arena.now hand.old }
    requires held { HasSlabs hand.old held.old }
    ensures arena { IsHandOf arena.now hand.new }
    ensures locks { locks_of hand.new ≡ locks_of hand.old }
    ensures held { HasSlabs hand.new held.new }
    ensures swept { ActsByNumber (λ number. SweepsClasses
        (classes_swept sweep (slabs_lent held.old))) hand.old held.old hand.new held.new }
    ensures view { view hand.new ≡ with_seen (view hand.old) (view hand.new) }
    ensures whole { (slabs_lent held.new).uncut ≡ (slabs_lent held.old).uncut }
{
    let count = arena.classes().count();
    let most = if sweep { count } else { 0 };
    for place in 0..most {
        arena.sweep(hand, held, place + 1);
    }
}

// Reads the numbers of pages and lists. The room for the list of classes was made before.
fn read_slabs(slabs: &Slabs, count: u64, room: Vec<Numbers>) -> Survey
    requires count { count ≡ length slabs.now.state.classes }
    requires empty { room.items ≡ [] }
    requires room { count ≤ vec_capacity room }
    ensures survey { IsSurvey slabs.now.state result }
{
    Survey {
        classes: read_classes(slabs, count, room),
        totals: slabs.totals(),
        running: slabs.moving().is_some(),
        mode: slabs.automove(),
    }
}

// What each class has.
fn read_classes(slabs: &Slabs, count: u64, room: Vec<Numbers>) -> Vec<Numbers>
    requires count { count ≡ length slabs.now.state.classes }
    requires empty { room.items ≡ [] }
    requires room { count ≤ vec_capacity room }
    ensures numbers { result.items ≡ map numbers_of slabs.now.state.classes }
{
    let mut classes = room;
    for place in 0..count {
        classes.push_reserved(slabs.numbers(place + 1));
    }
    classes
}
