//! Items of the moving page that are taken to another chunk of their class, or evicted where there is none.
ghost use Rattle.std.specs.Prelude.{◌≡◌, ◌<◌, true, false, None, Some, OnOk, OnErr};
ghost use Rattle.mc_pages.specs.Moves.{is_held_up};
ghost use Rattle.mc_pages.specs.Pages.{is_on_the_move};
ghost use Rattle.mc_pages.specs.SlabState.{class_of_page};
ghost use Rattle.mc_core.specs.run.Evictions.{has_copy};
ghost use Rattle.mc_core.specs.model.Holdings.{holding_of, is_of_chunk, without_first};
ghost use Rattle.mc_core.specs.model.Looks.{was_linked};
ghost use Rattle.mc_core.specs.model.State.{has_chunk, room_in};
ghost use Rattle.mc_words.specs.hand.Arenas.{IsHandOf, setup_of, view};
ghost use Rattle.mc_words.specs.item.Removal.{stripe_read};
ghost use Rattle.mc_words.specs.item.Fresh.{IsFreshOf};
ghost use Rattle.mc_words.specs.hand.Observers.{HasSlabs, HasStripe, fresh_chunk, fresh_room, locks_of, slabs_lent, stripe_lent, stripe_number};
ghost use Rattle.mc_words.specs.lock.Out.{without_stripe};
ghost use Rattle.mc_mover.specs.Acting.{ActsOnStripe, EvictsAs, HasBlankCopy, KnowsReason, MovesInto, RescuesAs, SeesDead};
ghost use Rattle.mc_mover.specs.Saving.{FailsToMove};

use crate::copying::copy_item;
use mc_pages::{ChunkId, Found};
use mc_words::{Arena, Fresh, Hand, Moved, SlabsHeld, StripeHeld};

// Takes the item of a chunk away, for which there is no other chunk, and gives the lock of its key's stripe back. It holds up the move
// where it is held by then.
pub(crate) fn evict(
    arena: &Arena,
    hand: &mut Hand,
    slabs: &mut SlabsHeld,
    stripe: StripeHeld,
    chunk: ChunkId,
) -> Found
    requires arena { IsHandOf arena.now hand.old }
    requires in_range { has_chunk (setup_of arena.now).table chunk ≡ true }
    requires slabs { HasSlabs hand.old slabs.old }
    requires inside { stripe_number stripe < (setup_of arena.now).config.stripes }
    requires stripe { HasStripe hand.old stripe }
    requires ready { (stripe_lent stripe).ready ≡ true }
    requires empty { (stripe_lent stripe).state.aside ≡ None }
    requires key { stripe_read (view hand.old) chunk ≡ Some (stripe_number stripe) }
    requires reason { KnowsReason (setup_of arena.now) hand.old slabs.old chunk }
    requires no_copy { has_copy (view hand.old).row.holdings chunk ≡ false }
    ensures arena { IsHandOf arena.now hand.new }
    ensures locks { locks_of hand.new ≡ without_stripe (locks_of hand.old) }
    ensures slabs { HasSlabs hand.new slabs.new }
    ensures same_slabs { slabs.new ≡ slabs.old }
    ensures evicts { ActsOnStripe (EvictsAs chunk result) hand.old stripe slabs.old hand.new
        slabs.new }
    ensures dead { is_held_up result ≡ false → SeesDead hand.new chunk }
    ensures holdings { (view hand.new).row.holdings ≡ (view hand.old).row.holdings }
    ensures ids { (view hand.new).row.ids ≡ (view hand.old).row.ids }
{
    let mut stripe = stripe;
    let condemned = arena.condemn(hand, slabs, &mut stripe, chunk);
    arena.give_stripe(hand, stripe);
    match condemned {
        Ok(()) => Found::Evicted,
        Err(_) => Found::Busy,
    }
}

// Takes the item of a chunk to the fresh chunk that was got for it, and gives the lock of its key's stripe back. It holds up the move
// where it is held by then, and the copy's chunk is put back.
pub(crate) fn rescue(
    arena: &Arena,
    hand: &mut Hand,
    slabs: &mut SlabsHeld,
    stripe: StripeHeld,
    fresh: Fresh,
    chunk: ChunkId,
) -> Found
    requires arena { IsHandOf arena.now hand.old }
    requires in_range { has_chunk (setup_of arena.now).table chunk ≡ true }
    requires near_copy { has_chunk (setup_of arena.now).table (fresh_chunk fresh) ≡ true }
    requires slabs { HasSlabs hand.old slabs.old }
    requires inside { stripe_number stripe < (setup_of arena.now).config.stripes }
    requires stripe { HasStripe hand.old stripe }
    requires ready { (stripe_lent stripe).ready ≡ true }
    requires entry { (stripe_lent stripe).entry ≡ true }
    requires empty { (stripe_lent stripe).state.aside ≡ None }
    requires key { stripe_read (view hand.old) chunk ≡ Some (stripe_number stripe) }
    requires moving { is_on_the_move (slabs_lent slabs.old) chunk.page ≡ true }
    requires linked { was_linked (view hand.old).row.looks chunk ≡ true }
    requires fresh { IsFreshOf (view hand.old) (fresh_chunk fresh) (fresh_room fresh) }
    requires copy { HasBlankCopy hand.old chunk fresh }
    requires alone { holding_of (fresh_chunk fresh)
        (without_first (is_of_chunk (fresh_chunk fresh)) (view hand.old).row.holdings) ≡ None }
    requires only { has_copy (without_first (is_of_chunk (fresh_chunk fresh))
        (view hand.old).row.holdings) chunk ≡ false }
    requires room { fresh_room fresh ≡ room_in (setup_of arena.now).table
        (class_of_page (slabs_lent slabs.old) chunk.page) }
    ensures arena { IsHandOf arena.now hand.new }
    ensures locks { locks_of hand.new ≡ without_stripe (locks_of hand.old) }
    ensures slabs { HasSlabs hand.new slabs.new }
    ensures rescues { ActsOnStripe (RescuesAs chunk fresh result) hand.old stripe slabs.old hand.new
        slabs.new }
    ensures dead { is_held_up result ≡ false → SeesDead hand.new chunk }
    ensures holdings { (view hand.new).row.holdings
        ≡ without_first (is_of_chunk (fresh_chunk fresh)) (view hand.old).row.holdings }
    ensures ids { (view hand.new).row.ids ≡ (view hand.old).row.ids }
{
    let copy = fresh.chunk();
    let mut stripe = stripe;
    let moved = move_item(arena, hand, slabs, &mut stripe, fresh, chunk);
    arena.give_stripe(hand, stripe);
    match moved {
        Ok(()) => Found::Rescued,
        Err(_) => {
            let _ = arena.put_back(hand, slabs, copy);
            Found::Busy
        }
    }
}

// Takes the item of a chunk to the fresh chunk that was got for it: copies it, takes it away, and links the copy. `Moved` where
// somebody holds it by then, or it is unlinked: the copy is given up, and is dead. (slabs.c's `slab_rebalance_move`, with
// `do_item_replace`)
pub(crate) fn move_item(
    arena: &Arena,
    hand: &mut Hand,
    slabs: &mut SlabsHeld,
    stripe: &mut StripeHeld,
    fresh: Fresh,
    chunk: ChunkId,
) -> Result<(), Moved>
    requires arena { IsHandOf arena.now hand.old }
    requires in_range { has_chunk (setup_of arena.now).table chunk ≡ true }
    requires slabs { HasSlabs hand.old slabs.old }
    requires stripe { HasStripe hand.old stripe.old }
    requires ready { (stripe_lent stripe.old).ready ≡ true }
    requires entry { (stripe_lent stripe.old).entry ≡ true }
    requires empty { (stripe_lent stripe.old).state.aside ≡ None }
    requires key { stripe_read (view hand.old) chunk ≡ Some (stripe_number stripe.old) }
    requires moving { is_on_the_move (slabs_lent slabs.old) chunk.page ≡ true }
    requires linked { was_linked (view hand.old).row.looks chunk ≡ true }
    requires fresh { IsFreshOf (view hand.old) (fresh_chunk fresh) (fresh_room fresh) }
    requires copy { HasBlankCopy hand.old chunk fresh }
    requires alone { holding_of (fresh_chunk fresh)
        (without_first (is_of_chunk (fresh_chunk fresh)) (view hand.old).row.holdings) ≡ None }
    requires only { has_copy (without_first (is_of_chunk (fresh_chunk fresh))
        (view hand.old).row.holdings) chunk ≡ false }
    requires room { fresh_room fresh ≡ room_in (setup_of arena.now).table
        (class_of_page (slabs_lent slabs.old) chunk.page) }
    ensures arena { IsHandOf arena.now hand.new }
    ensures locks { locks_of hand.new ≡ locks_of hand.old }
    ensures slabs { HasSlabs hand.new slabs.new }
    ensures same_slabs { slabs.new ≡ slabs.old }
    ensures stripe { HasStripe hand.new stripe.new }
    ensures number { stripe_number stripe.new ≡ stripe_number stripe.old }
    ensures empty { (stripe_lent stripe.new).state.aside ≡ None }
    ensures moves { OnOk result (MovesInto chunk fresh hand.old stripe.old hand.new stripe.new) }
    ensures dead { OnOk result (SeesDead hand.new chunk) }
    ensures fails { OnErr result (FailsToMove chunk (fresh_chunk fresh) (view hand.old)
        (view hand.new) × (stripe.new ≡ stripe.old)) }
    ensures holdings { (view hand.new).row.holdings
        ≡ without_first (is_of_chunk (fresh_chunk fresh)) (view hand.old).row.holdings }
    ensures ids { (view hand.new).row.ids ≡ (view hand.old).row.ids }
{
    let mut fresh = fresh;
    copy_item(arena, hand, slabs, &mut fresh, chunk);
    match arena.condemn_original(hand, slabs, stripe, chunk) {
        Ok(()) => {
            let reference = arena.link_copy(hand, stripe, fresh);
            arena.release(hand, reference);
            Ok(())
        }
        Err(moved) => {
            arena.discard(hand, fresh);
            Err(moved)
        }
    }
}
