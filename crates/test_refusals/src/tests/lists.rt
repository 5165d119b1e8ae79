//! The numbers of a snapshot that are behind the slabs lock.
ghost use Rattle.std.specs.Prelude.{◌≡◌, Some};
ghost use Rattle.mc_pages.specs.SlabState.{HasClass};
ghost use Rattle.mc_core.specs.model.State.{is_class};
ghost use Rattle.mc_words.specs.hand.Arenas.{IsHandOf, setup_of, view};
ghost use Rattle.mc_words.specs.hand.Ready.{IsReadyHandOf};

use super::snapshot::{CLASSES, ENTRIES, LISTED, chunk_number, entry_number, note, note_move};
use mc_classes::ClassId;
use mc_pages::Slabs;
use mc_words::{Arena, Hand, SlabsHeld};

/// Adds pages and lists. False where another hand has them.
#[tactic(auto, using(crate::proofs::Kept::ready_behind_slabs))]
pub fn see_slabs(arena: &Arena, looker: &mut Hand, seen: &mut Vec<u64>) -> bool
    requires looker { IsReadyHandOf arena.now looker.old }
    ensures looker { IsReadyHandOf arena.now looker.new }
{
    let Ok(held) = arena.try_slabs(looker) else {
        return false;
    };
    see_whole(held.slabs(), seen);
    see_classes(arena, looker, &held, seen);
    arena.give_slabs(looker, held);
    true
}

/// What all classes have together: totals, mode, the move, and the ledger.
pub fn see_whole(slabs: &Slabs, seen: &mut Vec<u64>) {
    let totals = slabs.totals();
    note(seen, totals.granted);
    note(seen, totals.pool);
    note(seen, totals.moved);
    note(seen, totals.rescues);
    note(seen, totals.evictions_nomem);
    note(seen, totals.busy);
    note(seen, slabs.automove());
    note_move(seen, slabs.moving());
    note(seen, slabs.ledger().len() as u64);
    for place in 0..ENTRIES {
        note(seen, entry_number(slabs.ledger().get(place).copied()));
    }
}

// Each class. One that isn't there adds nothing.
fn see_classes(arena: &Arena, looker: &Hand, held: &SlabsHeld, seen: &mut Vec<u64>)
    requires arena { IsHandOf arena.now looker.now }
    requires held { (view looker.now).slabs ≡ Some held.now.shared }
{
    for class in 1..=CLASSES {
        if is_class(arena, class) {
            see_class(held.slabs(), class, seen);
        }
    }
}

fn is_class(arena: &Arena, class: ClassId) -> bool
    ensures { result ≡ is_class (setup_of arena.now).table class }
{
    class >= 1 && class <= arena.classes().count()
}

/// A class's numbers, its free list, and its hand-out order.
pub fn see_class(slabs: &Slabs, class: ClassId, seen: &mut Vec<u64>)
    requires class { HasClass slabs.now.state class }
{
    let numbers = slabs.numbers(class);
    note(seen, numbers.pages);
    note(seen, numbers.free);
    note(seen, numbers.evictions);
    for place in 0..LISTED {
        note(seen, chunk_number(slabs.free_at(class, place)));
        note(seen, chunk_number(slabs.order_at(class, place)));
    }
}
