//! The end of a turn: at the page's end the pass begins anew, or the move ends.
ghost use Rattle.std.specs.Prelude.{◌≡◌, is_some, true, None, Some};
ghost use Rattle.mc_words.specs.hand.Arenas.{IsHandOf, view};
ghost use Rattle.mc_words.specs.hand.Observers.{HasSlabs, locks_of, slabs_lent};
ghost use Rattle.mc_mover.specs.Acting.{ActsByNumber};
ghost use Rattle.mc_mover.specs.Turning.{EndsTurn, Finishes, IsAtEnd};

use crate::counts::{Counts, Turn};
use mc_pages::Moving;
use mc_words::{Arena, Hand, SlabsHeld};

// At the page's end begins the pass anew, if something held it up, and else ends the move. Before that nothing is done.
pub(crate) fn end_turn(arena: &Arena, hand: &mut Hand, held: &mut SlabsHeld, counts: Counts) -> Turn
    requires arena { IsHandOf arena.now hand.old }
    requires held { HasSlabs hand.old held.old }
    requires runs { is_some (slabs_lent held.old).moving ≡ true }
    requires whole { (slabs_lent held.old).uncut ≡ None }
    ensures arena { IsHandOf arena.now hand.new }
    ensures locks { locks_of hand.new ≡ locks_of hand.old }
    ensures held { HasSlabs hand.new held.new }
    ensures ends { ActsByNumber (λ number. EndsTurn number counts result) hand.old held.old hand.new
        held.new }
    ensures whole { (slabs_lent held.new).uncut ≡ None }
    ensures holdings { (view hand.new).row.holdings ≡ (view hand.old).row.holdings }
    ensures ids { (view hand.new).row.ids ≡ (view hand.old).row.ids }
{
    let Some(moving) = held.moving() else {
        return Turn::Idle;
    };
    if moving.at < held.slabs().per_page(moving.src) {
        return Turn::Went(counts);
    }
    if moving.busy > 0 {
        arena.wrap(hand, held);
        return Turn::Went(counts);
    }
    finish(arena, hand, held, moving);
    Turn::Finished(counts)
}

// Ends the move, and cuts the page for its class, if it has one. (slabs.c's `slab_rebalance_finish`)
fn finish(arena: &Arena, hand: &mut Hand, held: &mut SlabsHeld, moving: Moving)
    requires arena { IsHandOf arena.now hand.old }
    requires held { HasSlabs hand.old held.old }
    requires at_end { IsAtEnd (slabs_lent held.old) moving }
    requires none { moving.busy ≡ 0 }
    requires whole { (slabs_lent held.old).uncut ≡ None }
    ensures arena { IsHandOf arena.now hand.new }
    ensures locks { locks_of hand.new ≡ locks_of hand.old }
    ensures held { HasSlabs hand.new held.new }
    ensures finishes { ActsByNumber Finishes hand.old held.old hand.new held.new }
    ensures whole { (slabs_lent held.new).uncut ≡ None }
    ensures holdings { (view hand.new).row.holdings ≡ (view hand.old).row.holdings }
    ensures ids { (view hand.new).row.ids ≡ (view hand.old).row.ids }
{
    arena.finish_move(hand, held);
    if moving.dst != 0 {
        let chunks = held.slabs().per_page(moving.dst);
        arena.cut_page(hand, held, moving.page, chunks);
    }
}
