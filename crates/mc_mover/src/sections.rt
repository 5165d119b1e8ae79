//! The sections of a turn: one for each chunk that it looks at.
ghost use Rattle.std.specs.Prelude.{◌≡◌, ◌<◌, ◌≤◌, true, false, is_some, length, None, Some, IfOk, OnErr};
ghost use Rattle.mc_classes.specs.Limits.{most_refs};
ghost use Rattle.mc_pages.specs.Moves.{chunk_at_position, moved_on};
ghost use Rattle.mc_pages.specs.SlabState.{class_at};
ghost use Rattle.mc_core.specs.model.Holdings.{has_fresh};
ghost use Rattle.mc_words.specs.hand.Arenas.{IsHandOf, view};
ghost use Rattle.mc_words.specs.hand.Idle.{has_no_stripes};
ghost use Rattle.mc_words.specs.hand.Observers.{HasSlabs, locks_of, slabs_lent};
ghost use Rattle.mc_mover.specs.Acting.{ActsByNumber};
ghost use Rattle.mc_mover.specs.Answering.{RunsStill};
ghost use Rattle.mc_mover.specs.Turning.{TurnLacksMemory, LooksFrom, Section};
ghost use Rattle.mc_mover.specs.Visiting.{LacksCallToSave};

use crate::counts::Counts;
use crate::sweep::Sweep;
use crate::visiting::visit;
use mc_pages::{ChunkId, Found, Moving};
use mc_stripe::NoMemory;
use mc_words::{Arena, Hand, SlabsHeld};

// Deals with the chunk at the move's position, and goes on from there. At want of memory the position stays at it.
fn section(
    arena: &Arena,
    hand: &mut Hand,
    held: &mut SlabsHeld,
    moving: Moving,
    sweep: &mut Sweep,
) -> Result<Found, NoMemory>
    requires arena { IsHandOf arena.now hand.old }
    requires held { HasSlabs hand.old held.old }
    requires runs { (slabs_lent held.old).moving ≡ Some moving }
    requires within { moving.at < (class_at (slabs_lent held.old) moving.src).per_page }
    requires whole { (slabs_lent held.old).uncut ≡ None }
    requires one { has_no_stripes (view hand.old) ≡ true }
    requires fresh { has_fresh (view hand.old).row.holdings ≡ false }
    requires within_limit { length (view hand.old).row.holdings ≤ most_refs }
    ensures arena { IsHandOf arena.now hand.new }
    ensures locks { locks_of hand.new ≡ locks_of hand.old }
    ensures held { HasSlabs hand.new held.new }
    ensures section { IfOk result (λ found. ActsByNumber (λ number.
        Section number sweep.old found sweep.new) hand.old held.old hand.new held.new) }
    ensures lacks { OnErr result (ActsByNumber (λ number.
        LacksCallToSave (chunk_at_position moving)) hand.old held.old hand.new held.new) }
    ensures moves { IfOk result (λ found. (slabs_lent held.new).moving
        ≡ Some (moved_on moving found)) }
    ensures uncut { (slabs_lent held.new).uncut ≡ (slabs_lent held.old).uncut }
    ensures holdings { (view hand.new).row.holdings ≡ (view hand.old).row.holdings }
    ensures ids { (view hand.new).row.ids ≡ (view hand.old).row.ids }
{
    let chunk = ChunkId {
        page: moving.page,
        index: moving.at,
    };
    let found = visit(arena, hand, held, moving.src, chunk, sweep)?;
    arena.passed(hand, held, found);
    Ok(found)
}

// Deals with up to `bulk` chunks from the move's position on, or as many as are left on the page. The dead of the class are put back before
// the first item that is to be saved, and again only where a later one finds no free chunk.
pub(crate) fn sections(
    arena: &Arena,
    hand: &mut Hand,
    held: &mut SlabsHeld,
) -> Result<Counts, NoMemory>
    requires arena { IsHandOf arena.now hand.old }
    requires held { HasSlabs hand.old held.old }
    requires runs { is_some (slabs_lent held.old).moving ≡ true }
    requires whole { (slabs_lent held.old).uncut ≡ None }
    requires one { has_no_stripes (view hand.old) ≡ true }
    requires fresh { has_fresh (view hand.old).row.holdings ≡ false }
    requires within_limit { length (view hand.old).row.holdings ≤ most_refs }
    ensures arena { IsHandOf arena.now hand.new }
    ensures locks { locks_of hand.new ≡ locks_of hand.old }
    ensures held { HasSlabs hand.new held.new }
    ensures looks { IfOk result (λ counts. ActsByNumber (λ number.
        LooksFrom number counts) hand.old held.old hand.new held.new) }
    ensures runs { IfOk result (λ counts. is_some (slabs_lent held.new).moving ≡ true) }
    ensures same_move { IfOk result (λ counts. RunsStill (slabs_lent held.old).moving
        (slabs_lent held.new).moving) }
    ensures lacks { OnErr result (ActsByNumber TurnLacksMemory hand.old held.old hand.new
        held.new) }
    ensures uncut { (slabs_lent held.new).uncut ≡ (slabs_lent held.old).uncut }
    ensures holdings { (view hand.new).row.holdings ≡ (view hand.old).row.holdings }
    ensures ids { (view hand.new).row.ids ≡ (view hand.old).row.ids }
{
    let mut counts = Counts::new();
    let mut sweep = Sweep::Due;
    for _ in 0..arena.config().bulk {
        let Some(moving) = held.moving() else {
            return Ok(counts);
        };
        if moving.at >= held.slabs().per_page(moving.src) {
            return Ok(counts);
        }
        let found = section(arena, hand, held, moving, &mut sweep)?;
        counts.count(found);
    }
    Ok(counts)
}
