//! Linked chunks of the moving page, whose items are saved under the lock of their key's stripe.
ghost use Rattle.std.specs.Prelude.{◌≡◌, ◌≢◌, ◌<◌, ◌≤◌, ℕ, true, false, length, None, Some, IfErr, IfOk, OnErr};
ghost use Rattle.std.specs.Option.{option_map};
ghost use Rattle.mc_classes.specs.Limits.{most_refs};
ghost use Rattle.mc_pages.specs.Accounted.{is_cleared, is_cut};
ghost use Rattle.mc_pages.specs.Moves.{is_held_up};
ghost use Rattle.mc_pages.specs.Pages.{is_on_the_move};
ghost use Rattle.mc_pages.specs.SlabState.{class_at, class_of_page};
ghost use Rattle.mc_stripe.specs.StripeState.{chunk_and_stamp, can_store};
ghost use Rattle.mc_core.specs.model.Holdings.{has_fresh};
ghost use Rattle.mc_core.specs.law.Judged.{sees_no_target};
ghost use Rattle.mc_core.specs.model.Looks.{was_linked};
ghost use Rattle.mc_core.specs.model.State.{has_chunk, is_class};
ghost use Rattle.mc_words.specs.hand.Arenas.{IsHandOf, setup_of, view};
ghost use Rattle.mc_words.specs.item.Removal.{stripe_read};
ghost use Rattle.mc_words.specs.hand.Idle.{has_no_stripes};
ghost use Rattle.mc_words.specs.lock.Lent.{IsLentStripe};
ghost use Rattle.mc_words.specs.hand.Observers.{HasSlabs, HasStripe, locks_of, slabs_lent, stripe_lent, stripe_number};
ghost use Rattle.mc_words.specs.lock.Out.{without_stripe};
ghost use Rattle.mc_mover.specs.declared.sweep.Sweep.TheVariants.{Done};
ghost use Rattle.mc_mover.specs.Acting.{ActsByNumber, ActsOnStripe, IsLedTo, SeesDead};
ghost use Rattle.mc_mover.specs.Linked.{LacksCallOnKey, OnlyGives, SavesAs, VisitsLinked};
ghost use Rattle.mc_mover.specs.Saving.{FindsNoTarget, RescuesToTarget, SweepsAndSaves};

use crate::saving::{evict, rescue};
use crate::sweep::Sweep;
use mc_classes::ClassId;
use mc_pages::{ChunkId, Found};
use mc_stripe::{Key, NoMemory};
use mc_words::{Arena, Hand, SlabsHeld, StripeHeld};

// What becomes of a linked chunk of the moving page, which the hand has just looked at and found held or not. The lock of its key's
// stripe is tried first. An item that nobody holds is saved, and the chunk cleared. At want of memory nothing is changed. (slabs.c's
// `slab_rebalance_move`, from `item_trylock` on)
pub(crate) fn visit_linked(
    arena: &Arena,
    hand: &mut Hand,
    held: &mut SlabsHeld,
    class: ClassId,
    chunk: ChunkId,
    unheld: bool,
    sweep: &mut Sweep,
) -> Result<Found, NoMemory>
    requires arena { IsHandOf arena.now hand.old }
    requires in_range { has_chunk (setup_of arena.now).table chunk ≡ true }
    requires class { is_class (setup_of arena.now).table class ≡ true }
    requires held { HasSlabs hand.old held.old }
    requires own { class_of_page (slabs_lent held.old) chunk.page ≡ class }
    requires moving { is_on_the_move (slabs_lent held.old) chunk.page ≡ true }
    requires cut { is_cut (slabs_lent held.old) class chunk ≡ true }
    requires linked { was_linked (view hand.old).row.looks chunk ≡ true }
    requires one { has_no_stripes (view hand.old) ≡ true }
    requires fresh { has_fresh (view hand.old).row.holdings ≡ false }
    requires within_limit { length (view hand.old).row.holdings ≤ most_refs }
    ensures arena { IsHandOf arena.now hand.new }
    ensures locks { locks_of hand.new ≡ locks_of hand.old }
    ensures held { HasSlabs hand.new held.new }
    ensures visits { IfOk result (λ found. ActsByNumber (λ n.
        VisitsLinked n class chunk sweep.old unheld found sweep.new) hand.old held.old hand.new
        held.new) }
    ensures clears { IfOk result (λ found. is_held_up found ≡ false →
        is_cleared (slabs_lent held.new) class chunk ≡ true) }
    ensures lacks { OnErr result (ActsByNumber (λ number.
        LacksCallOnKey chunk unheld) hand.old held.old hand.new held.new) }
    ensures moving { (slabs_lent held.new).moving ≡ (slabs_lent held.old).moving }
    ensures uncut { (slabs_lent held.new).uncut ≡ (slabs_lent held.old).uncut }
    ensures per_page { (class_at (slabs_lent held.new) class).per_page
        ≡ (class_at (slabs_lent held.old) class).per_page }
    ensures holdings { (view hand.new).row.holdings ≡ (view hand.old).row.holdings }
    ensures ids { (view hand.new).row.ids ≡ (view hand.old).row.ids }
{
    let key = arena.word_held(hand, held, chunk, 0);
    let Ok(stripe) = arena.try_stripe(hand, key % arena.config().stripes) else {
        return Ok(Found::Locked);
    };
    if !unheld || !leads_to(&stripe, key, chunk) {
        arena.give_stripe(hand, stripe);
        return Ok(Found::Busy);
    }
    let found = save(arena, hand, held, stripe, class, chunk, sweep)?;
    if found == Found::Busy {
        return Ok(found);
    }
    let _ = arena.clear(hand, held, chunk);
    Ok(found)
}

// Whether the key leads to the chunk.
fn leads_to(held: &StripeHeld, key: Key, chunk: ChunkId) -> bool
    ensures leads { result ≡ true → (stamp : ℕ)
        × (chunk_and_stamp (stripe_lent held.now).state key ≡ Some (chunk, stamp)) }
    ensures other { result ≡ false → option_map (λ place.
        place.0) (chunk_and_stamp (stripe_lent held.now).state key) ≢ Some chunk }
{
    match held.stripe().find(key) {
        Some((found, _)) => found == chunk,
        None => false,
    }
}

// Saves the item of a chunk under the lock of its key's stripe, and gives that back: the item goes to a free chunk off the page, or is
// evicted where there is none. It holds up the move where it is held by then. The dead of the class are put back before a turn's first
// such item, and again where a later one finds no free chunk. At want of memory nothing is changed.
fn save(
    arena: &Arena,
    hand: &mut Hand,
    slabs: &mut SlabsHeld,
    stripe: StripeHeld,
    class: ClassId,
    chunk: ChunkId,
    sweep: &mut Sweep,
) -> Result<Found, NoMemory>
    requires arena { IsHandOf arena.now hand.old }
    requires in_range { has_chunk (setup_of arena.now).table chunk ≡ true }
    requires class { is_class (setup_of arena.now).table class ≡ true }
    requires slabs { HasSlabs hand.old slabs.old }
    requires lent { IsLentStripe (view hand.old) (stripe_number stripe) (stripe_lent stripe) }
    requires inside { stripe_number stripe < (setup_of arena.now).config.stripes }
    requires key { stripe_read (view hand.old) chunk ≡ Some (stripe_number stripe) }
    requires leads { (key : ℕ) × (stamp : ℕ) × (chunk_and_stamp (stripe_lent stripe).state key
        ≡ Some (chunk, stamp)) }
    requires own { class_of_page (slabs_lent slabs.old) chunk.page ≡ class }
    requires moving { is_on_the_move (slabs_lent slabs.old) chunk.page ≡ true }
    requires linked { was_linked (view hand.old).row.looks chunk ≡ true }
    requires fresh { has_fresh (view hand.old).row.holdings ≡ false }
    requires within_limit { length (view hand.old).row.holdings ≤ most_refs }
    ensures arena { IsHandOf arena.now hand.new }
    ensures locks { locks_of hand.new ≡ without_stripe (locks_of hand.old) }
    ensures slabs { HasSlabs hand.new slabs.new }
    ensures saves { IfOk result (λ found. ActsOnStripe (λ number.
        SavesAs number class chunk sweep.old found) hand.old stripe slabs.old hand.new slabs.new) }
    ensures done { IfOk result (λ found. sweep.new ≡ Done) }
    ensures dead { IfOk result (λ found. is_held_up found ≡ false → SeesDead hand.new chunk) }
    ensures lacks { OnErr result (ActsOnStripe (λ number.
        OnlyGives) hand.old stripe slabs.old hand.new slabs.new) }
    ensures unready { OnErr result (can_store (stripe_lent stripe) ≡ false) }
    ensures moving { (slabs_lent slabs.new).moving ≡ (slabs_lent slabs.old).moving }
    ensures owners { (slabs_lent slabs.new).owners ≡ (slabs_lent slabs.old).owners }
    ensures uncut { (slabs_lent slabs.new).uncut ≡ (slabs_lent slabs.old).uncut }
    ensures per_page { (class_at (slabs_lent slabs.new) class).per_page
        ≡ (class_at (slabs_lent slabs.old) class).per_page }
    ensures holdings { (view hand.new).row.holdings ≡ (view hand.old).row.holdings }
    ensures ids { (view hand.new).row.ids ≡ (view hand.old).row.ids }
{
    let mut stripe = stripe;
    if let Err(error) = arena.reserve(hand, &mut stripe) {
        arena.give_stripe(hand, stripe);
        return Err(error);
    }
    match *sweep {
        Sweep::Due => {
            *sweep = Sweep::Done;
            Ok(sweep_and_save(arena, hand, slabs, stripe, class, chunk))
        }
        Sweep::Done => match rescue_to_target(arena, hand, slabs, stripe, chunk) {
            Ok(found) => Ok(found),
            Err(stripe) => Ok(sweep_and_save(arena, hand, slabs, stripe, class, chunk)),
        },
    }
}

// Puts back the dead of the class, and then saves the item, on whose key there is room for a call: it goes to a free chunk off the page,
// or is evicted where there is none. The stripe's lock is given back.
fn sweep_and_save(
    arena: &Arena,
    hand: &mut Hand,
    slabs: &mut SlabsHeld,
    stripe: StripeHeld,
    class: ClassId,
    chunk: ChunkId,
) -> Found
    requires arena { IsHandOf arena.now hand.old }
    requires in_range { has_chunk (setup_of arena.now).table chunk ≡ true }
    requires class { is_class (setup_of arena.now).table class ≡ true }
    requires slabs { HasSlabs hand.old slabs.old }
    requires stripe { HasStripe hand.old stripe }
    requires ready { (stripe_lent stripe).ready ≡ true }
    requires entry { (stripe_lent stripe).entry ≡ true }
    requires empty { (stripe_lent stripe).state.aside ≡ None }
    requires leads { IsLedTo hand.old stripe chunk }
    requires inside { stripe_number stripe < (setup_of arena.now).config.stripes }
    requires key { stripe_read (view hand.old) chunk ≡ Some (stripe_number stripe) }
    requires own { class_of_page (slabs_lent slabs.old) chunk.page ≡ class }
    requires moving { is_on_the_move (slabs_lent slabs.old) chunk.page ≡ true }
    requires linked { was_linked (view hand.old).row.looks chunk ≡ true }
    requires fresh { has_fresh (view hand.old).row.holdings ≡ false }
    requires within_limit { length (view hand.old).row.holdings ≤ most_refs }
    ensures arena { IsHandOf arena.now hand.new }
    ensures locks { locks_of hand.new ≡ without_stripe (locks_of hand.old) }
    ensures slabs { HasSlabs hand.new slabs.new }
    ensures saves { ActsOnStripe (λ number. SweepsAndSaves number class chunk result) hand.old
        stripe slabs.old hand.new slabs.new }
    ensures dead { is_held_up result ≡ false → SeesDead hand.new chunk }
    ensures holdings { (view hand.new).row.holdings ≡ (view hand.old).row.holdings }
    ensures ids { (view hand.new).row.ids ≡ (view hand.old).row.ids }
{
    arena.sweep(hand, slabs, class);
    match rescue_to_target(arena, hand, slabs, stripe, chunk) {
        Ok(found) => found,
        Err(stripe) => evict(arena, hand, slabs, stripe, chunk),
    }
}

// Takes the item, on whose key there is room for a call, to a free chunk off the page, and gives the stripe's lock back. Where there is no
// such chunk the lock goes to the caller.
fn rescue_to_target(
    arena: &Arena,
    hand: &mut Hand,
    slabs: &mut SlabsHeld,
    stripe: StripeHeld,
    chunk: ChunkId,
) -> Result<Found, StripeHeld>
    requires arena { IsHandOf arena.now hand.old }
    requires in_range { has_chunk (setup_of arena.now).table chunk ≡ true }
    requires slabs { HasSlabs hand.old slabs.old }
    requires stripe { HasStripe hand.old stripe }
    requires ready { (stripe_lent stripe).ready ≡ true }
    requires entry { (stripe_lent stripe).entry ≡ true }
    requires empty { (stripe_lent stripe).state.aside ≡ None }
    requires leads { IsLedTo hand.old stripe chunk }
    requires inside { stripe_number stripe < (setup_of arena.now).config.stripes }
    requires key { stripe_read (view hand.old) chunk ≡ Some (stripe_number stripe) }
    requires moving { is_on_the_move (slabs_lent slabs.old) chunk.page ≡ true }
    requires linked { was_linked (view hand.old).row.looks chunk ≡ true }
    requires fresh { has_fresh (view hand.old).row.holdings ≡ false }
    requires within_limit { length (view hand.old).row.holdings ≤ most_refs }
    ensures arena { IsHandOf arena.now hand.new }
    ensures slabs { HasSlabs hand.new slabs.new }
    ensures locks { IfOk result (λ found. locks_of hand.new ≡ without_stripe (locks_of hand.old)) }
    ensures rescues { IfOk result (λ found. ActsOnStripe (λ number.
        RescuesToTarget number chunk found) hand.old stripe slabs.old hand.new slabs.new) }
    ensures dead { IfOk result (λ found. is_held_up found ≡ false → SeesDead hand.new chunk) }
    ensures back { IfErr result (λ back. back ≡ stripe) }
    ensures lacks { OnErr result (FindsNoTarget chunk (slabs_lent slabs.old) (view hand.old)
        (view hand.new)) }
    ensures no_target { OnErr result (sees_no_target (slabs_lent slabs.old)
        (view hand.new).row.looks chunk.page ≡ true) }
    ensures same_slabs { OnErr result (slabs_lent slabs.new ≡ slabs_lent slabs.old) }
    ensures same_locks { OnErr result (locks_of hand.new ≡ locks_of hand.old) }
    ensures holdings { (view hand.new).row.holdings ≡ (view hand.old).row.holdings }
    ensures ids { (view hand.new).row.ids ≡ (view hand.old).row.ids }
{
    match arena.pop_off(hand, slabs, chunk) {
        Some(fresh) => Ok(rescue(arena, hand, slabs, stripe, fresh, chunk)),
        None => Err(stripe),
    }
}
