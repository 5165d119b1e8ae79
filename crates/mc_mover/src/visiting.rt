//! One chunk of the moving page: what the mover sees there, and what it does.
ghost use Rattle.std.specs.Prelude.{◌≡◌, ◌≤◌, true, false, length, IfOk, OnErr};
ghost use Rattle.mc_classes.specs.Limits.{most_refs};
ghost use Rattle.mc_pages.specs.Accounted.{is_cleared, is_cut};
ghost use Rattle.mc_pages.specs.Moves.{is_held_up};
ghost use Rattle.mc_pages.specs.Pages.{is_on_the_move};
ghost use Rattle.mc_pages.specs.SlabState.{class_at, class_of_page};
ghost use Rattle.mc_core.specs.model.Holdings.{has_fresh};
ghost use Rattle.mc_core.specs.model.State.{has_chunk, is_class};
ghost use Rattle.mc_words.specs.hand.Arenas.{IsHandOf, setup_of, view};
ghost use Rattle.mc_words.specs.hand.Idle.{has_no_stripes};
ghost use Rattle.mc_words.specs.hand.Observers.{HasSlabs, locks_of, slabs_lent};
ghost use Rattle.mc_mover.specs.Acting.{ActsByNumber};
ghost use Rattle.mc_mover.specs.Visiting.{LacksCallToSave, Visits};

use crate::linked::visit_linked;
use crate::sweep::Sweep;
use mc_classes::ClassId;
use mc_pages::{ChunkId, Found};
use mc_stripe::NoMemory;
use mc_words::{Arena, Hand, SlabsHeld, header};

// Looks at a chunk of the moving page, and clears it where it can: a free or dead one at once, and a linked one that nobody holds once its
// item was taken to another chunk of the class, or else evicted. The turn's sweep is done before that, if it is due. At want of memory the
// chunk is as before. (slabs.c's `slab_rebalance_move`, for one chunk)
pub(crate) fn visit(
    arena: &Arena,
    hand: &mut Hand,
    held: &mut SlabsHeld,
    class: ClassId,
    chunk: ChunkId,
    sweep: &mut Sweep,
) -> Result<Found, NoMemory>
    requires arena { IsHandOf arena.now hand.old }
    requires in_range { has_chunk (setup_of arena.now).table chunk ≡ true }
    requires class { is_class (setup_of arena.now).table class ≡ true }
    requires held { HasSlabs hand.old held.old }
    requires own { class_of_page (slabs_lent held.old) chunk.page ≡ class }
    requires moving { is_on_the_move (slabs_lent held.old) chunk.page ≡ true }
    requires cut { is_cut (slabs_lent held.old) class chunk ≡ true }
    requires one { has_no_stripes (view hand.old) ≡ true }
    requires fresh { has_fresh (view hand.old).row.holdings ≡ false }
    requires within_limit { length (view hand.old).row.holdings ≤ most_refs }
    ensures arena { IsHandOf arena.now hand.new }
    ensures locks { locks_of hand.new ≡ locks_of hand.old }
    ensures held { HasSlabs hand.new held.new }
    ensures visits { IfOk result (λ found. ActsByNumber (λ number.
        Visits number class chunk sweep.old found sweep.new) hand.old held.old hand.new held.new) }
    ensures clears { IfOk result (λ found. is_held_up found ≡ false →
        is_cleared (slabs_lent held.new) class chunk ≡ true) }
    ensures lacks { OnErr result (ActsByNumber (λ number.
        LacksCallToSave chunk) hand.old held.old hand.new held.new) }
    ensures moving { (slabs_lent held.new).moving ≡ (slabs_lent held.old).moving }
    ensures uncut { (slabs_lent held.new).uncut ≡ (slabs_lent held.old).uncut }
    ensures per_page { (class_at (slabs_lent held.new) class).per_page
        ≡ (class_at (slabs_lent held.old) class).per_page }
    ensures holdings { (view hand.new).row.holdings ≡ (view hand.old).row.holdings }
    ensures ids { (view hand.new).row.ids ≡ (view hand.old).row.ids }
{
    let head = arena.head(hand, chunk);
    if header::is_linked(head) {
        return visit_linked(
            arena,
            hand,
            held,
            class,
            chunk,
            header::is_unheld(head),
            sweep,
        );
    }
    if header::is_out(head) {
        return Ok(Found::Already);
    }
    match arena.clear(hand, held, chunk) {
        Ok(()) => Ok(Found::Cleared),
        Err(_) => Ok(Found::Busy),
    }
}
