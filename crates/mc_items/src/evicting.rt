//! Items that are evicted, under one hold of the slabs lock.
ghost use Rattle.std.specs.List.{list_all};
ghost use Rattle.std.specs.Option.{option_map};
ghost use Rattle.std.specs.Prelude.{◌<◌, ◌≡◌, Contains, IfOk, IfSome, None, Ok, OnErr, Some, false, is_some, true};
ghost use Rattle.mc_pages.specs.Changes.{next_page};
ghost use Rattle.mc_pages.specs.ClassState.{first_free};
ghost use Rattle.mc_pages.specs.SlabState.{class_at};
ghost use Rattle.mc_core.specs.run.Evictions.{has_copy};
ghost use Rattle.mc_core.specs.model.Head.{is_dead};
ghost use Rattle.mc_core.specs.model.Holdings.{has_fresh};
ghost use Rattle.mc_core.specs.model.Looks.{is_found_alive};
ghost use Rattle.mc_core.specs.law.Seen.{seen_head};
ghost use Rattle.mc_core.specs.model.State.{has_chunk, is_class};
ghost use Rattle.mc_words.specs.hand.Arenas.{IsHandOf, setup_of, view};
ghost use Rattle.mc_words.specs.item.Removal.{Condemns, knows_reason, stripe_read};
ghost use Rattle.mc_words.specs.hand.Idle.{has_no_stripes};
ghost use Rattle.mc_words.specs.lock.Lent.{IsLentStripe};
ghost use Rattle.mc_words.specs.hand.Observers.{HasSlabs, locks_of, hand_number, slabs_lent, stripe_lent, stripe_number};
ghost use Rattle.mc_words.specs.lock.Out.{without_stripe};
ghost use Rattle.mc_items.specs.Calls.{IsFull};
ghost use Rattle.mc_items.specs.Evicting.{FreesChunk, FreesOneCandidate, LacksEntryAtCandidate, PassesCandidates, PassesOne};
ghost use Rattle.mc_items.specs.OnKeys.{Acts, AreUnchanged, DoesOn, GivesBack};
ghost use Rattle.mc_items.specs.Supplying.{FindsItemHeld, FreesEvicted, LacksCall, PassesItem, TakesAtOnce};

use mc_classes::ClassId;
use mc_pages::{ChunkId, EVICTION_TRIES};
use mc_stripe::NoMemory;
use mc_words::{Arena, Hand, SlabsHeld, StripeHeld, header};

// Takes the chunk's item away where it is linked and nobody holds it, and gives the stripe's lock back. At want of memory the stripe
// is as before.
pub(crate) fn condemn_at(
    arena: &Arena,
    hand: &mut Hand,
    slabs: &mut SlabsHeld,
    held: StripeHeld,
    chunk: ChunkId,
) -> Result<bool, NoMemory>
    requires arena { IsHandOf arena.now hand.old }
    requires in_range { has_chunk (setup_of arena.now).table chunk ≡ true }
    requires slabs { HasSlabs hand.old slabs.old }
    requires lent { IsLentStripe (view hand.old) (stripe_number held) (stripe_lent held) }
    requires inside { (stripe_number held) < (setup_of arena.now).config.stripes }
    requires key { stripe_read (view hand.old) chunk ≡ Some (stripe_number held) }
    requires reason { knows_reason (slabs_lent slabs.old) (view hand.old).row.looks
        (view hand.old).row.holdings chunk ≡ true }
    requires no_copy { has_copy (view hand.old).row.holdings chunk ≡ false }
    ensures arena { IsHandOf arena.now hand.new }
    ensures locks { locks_of hand.new ≡ without_stripe (locks_of hand.old) }
    ensures slabs { HasSlabs hand.new slabs.new }
    ensures same_slabs { slabs.new ≡ slabs.old }
    ensures taken { result ≡ Ok true → DoesOn (λ number stripe.
        Condemns number stripe chunk) hand.old held hand.new }
    ensures dead { result ≡ Ok true → option_map is_dead (seen_head (view hand.new).row.looks chunk)
        ≡ Some true }
    ensures moved { result ≡ Ok false → DoesOn (λ number stripe.
        FindsItemHeld chunk) hand.old held hand.new }
    ensures no_memory { OnErr result (GivesBack hand.old held hand.new) }
    ensures full { OnErr result (IsFull (stripe_lent held)) }
{
    let mut held = held;
    if let Err(error) = arena.reserve_call(hand, &mut held) {
        arena.give_stripe(hand, held);
        return Err(error);
    }
    match arena.condemn(hand, slabs, &mut held, chunk) {
        Ok(()) => {
            arena.give_stripe(hand, held);
            Ok(true)
        }
        Err(_) => {
            arena.give_stripe(hand, held);
            Ok(false)
        }
    }
}

// Takes the item of a chunk away that the class handed out, if it is linked and held by nobody, and its key's stripe is free. It
// waits for no lock.
pub(crate) fn condemn_if_free(
    arena: &Arena,
    hand: &mut Hand,
    slabs: &mut SlabsHeld,
    class: ClassId,
    chunk: ChunkId,
) -> Result<bool, NoMemory>
    requires arena { IsHandOf arena.now hand.old }
    requires class { is_class (setup_of arena.now).table class ≡ true }
    requires slabs { HasSlabs hand.old slabs.old }
    requires one { has_no_stripes (view hand.old) ≡ true }
    requires fresh { has_fresh (view hand.old).row.holdings ≡ false }
    requires out { Contains (class_at (slabs_lent slabs.old) class).order chunk }
    requires empty { first_free (class_at (slabs_lent slabs.old) class) ≡ None }
    requires alive { list_all (is_found_alive (view hand.old).row.looks)
        (class_at (slabs_lent slabs.old) class).order ≡ true }
    requires page { next_page (slabs_lent slabs.old) class ≡ None }
    requires whole { (slabs_lent slabs.old).uncut ≡ None }
    ensures arena { IsHandOf arena.now hand.new }
    ensures locks { locks_of hand.new ≡ locks_of hand.old }
    ensures slabs { HasSlabs hand.new slabs.new }
    ensures same_slabs { slabs.new ≡ slabs.old }
    ensures taken { result ≡ Ok true →
        TakesAtOnce (hand_number hand.old) chunk (view hand.old) (view hand.new) }
    ensures dead { result ≡ Ok true → option_map is_dead (seen_head (view hand.new).row.looks chunk)
        ≡ Some true }
    ensures no_memory { OnErr result (LacksCall chunk (view hand.old) (view hand.new)) }
    ensures passed { result ≡ Ok false →
        PassesItem (hand_number hand.old) chunk (view hand.old) (view hand.new) }
{
    let head = arena.head(hand, chunk);
    if !header::is_unheld(head) {
        return Ok(false);
    }
    let key = arena.word_held(hand, slabs, chunk, 0);
    let stripe = key % arena.config().stripes;
    let Ok(held) = arena.try_stripe(hand, stripe) else {
        return Ok(false);
    };
    condemn_at(arena, hand, slabs, held, chunk)
}

// Counts that an item of the class was evicted, and puts its chunk back, which was seen dead under this hold of the slabs lock.
pub(crate) fn free_evicted(
    arena: &Arena,
    hand: &mut Hand,
    slabs: &mut SlabsHeld,
    class: ClassId,
    chunk: ChunkId,
)
    requires arena { IsHandOf arena.now hand.old }
    requires class { is_class (setup_of arena.now).table class ≡ true }
    requires in_range { has_chunk (setup_of arena.now).table chunk ≡ true }
    requires slabs { HasSlabs hand.old slabs.old }
    requires dead { option_map is_dead (seen_head (view hand.old).row.looks chunk) ≡ Some true }
    ensures arena { IsHandOf arena.now hand.new }
    ensures locks { locks_of hand.new ≡ locks_of hand.old }
    ensures slabs { HasSlabs hand.new slabs.new }
    ensures freed { Acts (FreesEvicted (hand_number hand.old) class chunk) hand.old slabs.old
        hand.new slabs.new }
{
    arena.evicted(hand, slabs, class);
    let _ = arena.put_back(hand, slabs, chunk);
}

/// How a class without a free chunk came to one.
#[derive(Clone, Copy)]
pub enum Supply {
    /// The class was given the next page.
    Page,
    /// One of its chunks had died, and was put back.
    Dead,
    /// An item was evicted.
    Evicted,
}

// Frees a chunk for its class: evicts its item, if nobody holds it and its key's stripe is free; or puts it back where it died
// meanwhile. Returns which, if it did.
fn free_one(
    arena: &Arena,
    hand: &mut Hand,
    slabs: &mut SlabsHeld,
    class: ClassId,
    chunk: ChunkId,
) -> Result<Option<Supply>, NoMemory>
    requires arena { IsHandOf arena.now hand.old }
    requires class { is_class (setup_of arena.now).table class ≡ true }
    requires slabs { HasSlabs hand.old slabs.old }
    requires one { has_no_stripes (view hand.old) ≡ true }
    requires fresh { has_fresh (view hand.old).row.holdings ≡ false }
    requires out { Contains (class_at (slabs_lent slabs.old) class).order chunk }
    requires empty { first_free (class_at (slabs_lent slabs.old) class) ≡ None }
    requires alive { list_all (is_found_alive (view hand.old).row.looks)
        (class_at (slabs_lent slabs.old) class).order ≡ true }
    requires page { next_page (slabs_lent slabs.old) class ≡ None }
    requires whole { (slabs_lent slabs.old).uncut ≡ None }
    ensures arena { IsHandOf arena.now hand.new }
    ensures locks { locks_of hand.new ≡ locks_of hand.old }
    ensures slabs { HasSlabs hand.new slabs.new }
    ensures frees { IfOk result (λ freed. IfSome freed (λ supply.
        Acts (FreesChunk (hand_number hand.old) class chunk supply) hand.old slabs.old hand.new
        slabs.new)) }
    ensures free { IfOk result (λ freed. IfSome freed (λ supply.
        is_some (first_free (class_at (slabs_lent slabs.new) class)) ≡ true)) }
    ensures passes { result ≡ Ok None →
        PassesOne (hand_number hand.old) chunk (view hand.old) (view hand.new)
        × AreUnchanged slabs.old slabs.new }
    ensures no_memory { OnErr result (LacksCall chunk (view hand.old) (view hand.new)
        × AreUnchanged slabs.old slabs.new) }
{
    if condemn_if_free(arena, hand, slabs, class, chunk)? {
        free_evicted(arena, hand, slabs, class, chunk);
        return Ok(Some(Supply::Evicted));
    }
    match arena.put_back(hand, slabs, chunk) {
        Ok(()) => Ok(Some(Supply::Dead)),
        Err(_) => Ok(None),
    }
}

// Frees the first of the class's oldest `EVICTION_TRIES` chunks that is to be had, and returns how, if there was one. (after
// items.c's `lru_pull_tail`)
pub(crate) fn evict_one(
    arena: &Arena,
    hand: &mut Hand,
    slabs: &mut SlabsHeld,
    class: ClassId,
) -> Result<Option<Supply>, NoMemory>
    requires arena { IsHandOf arena.now hand.old }
    requires class { is_class (setup_of arena.now).table class ≡ true }
    requires slabs { HasSlabs hand.old slabs.old }
    requires one { has_no_stripes (view hand.old) ≡ true }
    requires fresh { has_fresh (view hand.old).row.holdings ≡ false }
    requires empty { first_free (class_at (slabs_lent slabs.old) class) ≡ None }
    requires alive { list_all (is_found_alive (view hand.old).row.looks)
        (class_at (slabs_lent slabs.old) class).order ≡ true }
    requires page { next_page (slabs_lent slabs.old) class ≡ None }
    requires whole { (slabs_lent slabs.old).uncut ≡ None }
    ensures arena { IsHandOf arena.now hand.new }
    ensures locks { locks_of hand.new ≡ locks_of hand.old }
    ensures slabs { HasSlabs hand.new slabs.new }
    ensures frees { IfOk result (λ freed. IfSome freed (λ supply.
        Acts (FreesOneCandidate (hand_number hand.old) class supply) hand.old slabs.old hand.new
        slabs.new)) }
    ensures free { IfOk result (λ freed. IfSome freed (λ supply.
        is_some (first_free (class_at (slabs_lent slabs.new) class)) ≡ true)) }
    ensures none { result ≡ Ok None →
        Acts (PassesCandidates (hand_number hand.old) class) hand.old slabs.old hand.new slabs.new }
    ensures alive { result ≡ Ok None →
        list_all (is_found_alive (view hand.new).row.looks)
        (class_at (slabs_lent slabs.old) class).order ≡ true }
    ensures whole { (slabs_lent slabs.new).uncut ≡ None }
    ensures no_memory { OnErr result (Acts (LacksEntryAtCandidate (hand_number hand.old) class)
        hand.old slabs.old hand.new slabs.new) }
{
    let mut next = slabs.slabs().first_out(class);
    for _ in 0..EVICTION_TRIES {
        let Some(chunk) = next else {
            return Ok(None);
        };
        next = slabs.slabs().next_out(chunk);
        if let Some(supply) = free_one(arena, hand, slabs, class, chunk)? {
            return Ok(Some(supply));
        }
    }
    Ok(None)
}
