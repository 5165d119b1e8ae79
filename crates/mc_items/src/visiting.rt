//! Visits of a class's oldest chunks: an item that nobody used lately is deleted, and its chunk put back.
ghost use Rattle.std.specs.Prelude.{◌<◌, ◌≡◌, ◌≢◌, ◌≤◌, ◌+◌, ℕ, Contains, IfOk, IfSome, None, Ok, OnErr, Some, false, length, slice_get, true};
ghost use Rattle.mc_pages.specs.SlabState.{class_at};
ghost use Rattle.mc_stripe.specs.StripeState.{chunk_and_stamp};
ghost use Rattle.mc_core.specs.model.Holdings.{has_fresh};
ghost use Rattle.mc_core.specs.model.State.{has_chunk, is_class};
ghost use Rattle.mc_core.specs.run.Silent.{is_handed_out};
ghost use Rattle.mc_words.specs.hand.Arenas.{IsHandOf, setup_of, view};
ghost use Rattle.mc_words.specs.hand.Idle.{has_no_stripes};
ghost use Rattle.mc_words.specs.hand.Observers.{HasSlabs, hand_number, locks_of, slabs_lent, stripe_lent, stripe_number};
ghost use Rattle.mc_words.specs.item.Removal.{key_read};
ghost use Rattle.mc_words.specs.lock.Lent.{IsLentStripe};
ghost use Rattle.mc_words.specs.lock.Out.{without_stripe};
ghost use Rattle.mc_items.specs.Calls.{IsFull};
ghost use Rattle.mc_items.specs.OnKeys.{Acts, AreUnchanged, DoesOn, GivesBack, stripe_of_key};
ghost use Rattle.mc_items.specs.Supplying.{LacksCall};
ghost use Rattle.mc_items.specs.Visiting.{EndsUnlinked, LacksCallAtFirst, LacksCallAtOldest, LeadsElsewhere, PutsBackOrPasses, SparesItem, Unlinks, UnlinksAtOnce, VisitsFirst, VisitsOldest, evicted_by, freed_by, room_tries};

use crate::marks::Marks;
use crate::stripes::stripe_of;
use mc_classes::ClassId;
use mc_pages::ChunkId;
use mc_stripe::{Key, NoMemory};
use mc_words::{Arena, Hand, SlabsHeld, StripeHeld, header};

/// How many of a class's oldest chunks a call visits at most.
pub const ROOM_TRIES: u64 = 16;

/// How many items a call evicts at most to make room.
pub const ROOM_ITEMS: u64 = 4;

/// What was done with the oldest chunk of a class.
#[derive(Clone, Copy)]
pub enum Visit {
    /// Its item stayed, and the chunk became the newest of its class.
    Passed,
    /// The chunk was dead, and was put back.
    Dead,
    /// Its item was evicted, and the chunk was put back.
    Evicted,
    /// Its item was evicted. A reader got it meanwhile, and its chunk is put back later, once it is released.
    EvictedHeld,
}

/// How many items were evicted, and how many chunks were put back.
#[derive(Clone, Copy)]
pub(crate) struct Tally {
    pub(crate) evicted: u64,
    pub(crate) freed: u64,
}

impl Tally {
    // The tally with one more visit.
    fn with(self, visit: Visit) -> Tally
        requires within_limit { self.evicted ≤ room_tries }
        requires freed_within_limit { self.freed ≤ room_tries }
        ensures evicted { result.evicted ≡ self.evicted + evicted_by visit }
        ensures freed { result.freed ≡ self.freed + freed_by visit }
    {
        match visit {
            Visit::Passed => self,
            Visit::Dead => Tally {
                evicted: self.evicted,
                freed: self.freed + 1,
            },
            Visit::Evicted => Tally {
                evicted: self.evicted + 1,
                freed: self.freed + 1,
            },
            Visit::EvictedHeld => Tally {
                evicted: self.evicted + 1,
                freed: self.freed,
            },
        }
    }
}

// Whether the key leads to the chunk.
fn leads_to(held: &StripeHeld, key: Key, chunk: ChunkId) -> bool
    ensures leads { result ≡ true → (stamp : ℕ)
        × (chunk_and_stamp (stripe_lent held.now).state key ≡ Some (chunk, stamp)) }
    ensures other { result ≡ false → LeadsElsewhere (stripe_lent held.now) key chunk }
{
    match held.stripe().find(key) {
        Some((found, _)) => found == chunk,
        None => false,
    }
}

// Deletes the key in its stripe, if it leads to the chunk still, and gives the stripe's lock back. At want of memory the stripe is as
// before.
fn unlink_at(
    arena: &Arena,
    hand: &mut Hand,
    held: StripeHeld,
    chunk: ChunkId,
    key: Key,
) -> Result<bool, NoMemory>
    requires arena { IsHandOf arena.now hand.old }
    requires lent { IsLentStripe (view hand.old) (stripe_number held) (stripe_lent held) }
    requires in_range { stripe_number held ≡ stripe_of_key (setup_of arena.now) key }
    requires fresh { has_fresh (view hand.old).row.holdings ≡ false }
    requires key { key_read (view hand.old) chunk ≡ Some key }
    ensures arena { IsHandOf arena.now hand.new }
    ensures locks { locks_of hand.new ≡ without_stripe (locks_of hand.old) }
    ensures slabs { (view hand.new).slabs ≡ (view hand.old).slabs }
    ensures unlinks { result ≡ Ok true → DoesOn (λ number stripe.
        Unlinks number stripe chunk) hand.old held hand.new }
    ensures given { result ≡ Ok false → GivesBack hand.old held hand.new }
    ensures elsewhere { result ≡ Ok false → LeadsElsewhere (stripe_lent held) key chunk }
    ensures no_memory { OnErr result (GivesBack hand.old held hand.new) }
    ensures full { OnErr result (IsFull (stripe_lent held)) }
{
    let mut held = held;
    if !leads_to(&held, key, chunk) {
        arena.give_stripe(hand, held);
        return Ok(false);
    }
    if let Err(error) = arena.reserve_call(hand, &mut held) {
        arena.give_stripe(hand, held);
        return Err(error);
    }
    let _ = arena.unlink(hand, &mut held, key);
    arena.give_stripe(hand, held);
    Ok(true)
}

// Deletes the item of a chunk that the class handed out, if it is linked and held by nobody, its key isn't marked, and its key's stripe
// is free. It waits for no lock.
fn unlink_if_old<M: Marks>(
    arena: &Arena,
    hand: &mut Hand,
    slabs: &SlabsHeld,
    class: ClassId,
    chunk: ChunkId,
    marks: &M,
) -> Result<bool, NoMemory>
    requires arena { IsHandOf arena.now hand.old }
    requires class { is_class (setup_of arena.now).table class ≡ true }
    requires slabs { HasSlabs hand.old slabs.now }
    requires one { has_no_stripes (view hand.old) ≡ true }
    requires fresh { has_fresh (view hand.old).row.holdings ≡ false }
    requires out { Contains (class_at (slabs_lent slabs.now) class).order chunk }
    ensures arena { IsHandOf arena.now hand.new }
    ensures locks { locks_of hand.new ≡ locks_of hand.old }
    ensures slabs { HasSlabs hand.new slabs.now }
    ensures unlinks { result ≡ Ok true →
        UnlinksAtOnce (hand_number hand.old) chunk (view hand.old) (view hand.new) }
    ensures spares { result ≡ Ok false → SparesItem chunk (view hand.old) (view hand.new) }
    ensures no_memory { OnErr result (LacksCall chunk (view hand.old) (view hand.new)) }
{
    let head = arena.head(hand, chunk);
    if !header::is_unheld(head) {
        return Ok(false);
    }
    let key = arena.word_held(hand, slabs, chunk, 0);
    if marks.take(key) {
        return Ok(false);
    }
    let stripe = stripe_of(key, arena.config().stripes);
    let Ok(held) = arena.try_stripe(hand, stripe) else {
        return Ok(false);
    };
    unlink_at(arena, hand, held, chunk, key)
}

// Counts that an item of the class was evicted, and puts its chunk back, unless a reader got it meanwhile.
fn free_unlinked(
    arena: &Arena,
    hand: &mut Hand,
    slabs: &mut SlabsHeld,
    class: ClassId,
    chunk: ChunkId,
) -> Visit
    requires arena { IsHandOf arena.now hand.old }
    requires class { is_class (setup_of arena.now).table class ≡ true }
    requires in_range { has_chunk (setup_of arena.now).table chunk ≡ true }
    requires slabs { HasSlabs hand.old slabs.old }
    ensures arena { IsHandOf arena.now hand.new }
    ensures locks { locks_of hand.new ≡ locks_of hand.old }
    ensures slabs { HasSlabs hand.new slabs.new }
    ensures ends { Acts (EndsUnlinked (hand_number hand.old) class result chunk) hand.old slabs.old
        hand.new slabs.new }
{
    arena.evicted(hand, slabs, class);
    match arena.put_back(hand, slabs, chunk) {
        Ok(()) => Visit::Evicted,
        Err(_) => Visit::EvictedHeld,
    }
}

// Puts the chunk back, if it is dead, and otherwise makes it the newest of its class.
fn put_back_or_pass(arena: &Arena, hand: &mut Hand, slabs: &mut SlabsHeld, chunk: ChunkId) -> Visit
    requires arena { IsHandOf arena.now hand.old }
    requires in_range { has_chunk (setup_of arena.now).table chunk ≡ true }
    requires out { is_handed_out (slabs_lent slabs.old) chunk ≡ true }
    requires slabs { HasSlabs hand.old slabs.old }
    ensures arena { IsHandOf arena.now hand.new }
    ensures locks { locks_of hand.new ≡ locks_of hand.old }
    ensures slabs { HasSlabs hand.new slabs.new }
    ensures ends { Acts (PutsBackOrPasses (hand_number hand.old) result chunk) hand.old slabs.old
        hand.new slabs.new }
{
    match arena.put_back(hand, slabs, chunk) {
        Ok(()) => Visit::Dead,
        Err(_) => {
            arena.touch(hand, slabs, chunk);
            Visit::Passed
        }
    }
}

// Visits the oldest chunk of the class, if there is one.
fn visit_first<M: Marks>(
    arena: &Arena,
    hand: &mut Hand,
    slabs: &mut SlabsHeld,
    class: ClassId,
    marks: &M,
) -> Result<Option<Visit>, NoMemory>
    requires arena { IsHandOf arena.now hand.old }
    requires class { is_class (setup_of arena.now).table class ≡ true }
    requires slabs { HasSlabs hand.old slabs.old }
    requires one { has_no_stripes (view hand.old) ≡ true }
    requires fresh { has_fresh (view hand.old).row.holdings ≡ false }
    ensures arena { IsHandOf arena.now hand.new }
    ensures locks { locks_of hand.new ≡ locks_of hand.old }
    ensures slabs { HasSlabs hand.new slabs.new }
    ensures visits { IfOk result (λ visited. IfSome visited (λ visit.
        Acts (VisitsFirst (hand_number hand.old) class visit) hand.old slabs.old hand.new
        slabs.new)) }
    ensures none { result ≡ Ok None →
        slice_get (class_at (slabs_lent slabs.old) class).order 0 ≡ None }
    ensures same { result ≡ Ok None →
        (view hand.new ≡ view hand.old) × AreUnchanged slabs.old slabs.new }
    ensures no_memory { OnErr result (Acts (LacksCallAtFirst class) hand.old slabs.old hand.new
        slabs.new) }
{
    let Some(chunk) = slabs.slabs().first_out(class) else {
        return Ok(None);
    };
    if unlink_if_old(arena, hand, slabs, class, chunk, marks)? {
        return Ok(Some(free_unlinked(arena, hand, slabs, class, chunk)));
    }
    Ok(Some(put_back_or_pass(arena, hand, slabs, chunk)))
}

// Visits the oldest chunks of the class, at most `ROOM_TRIES`, until `ROOM_ITEMS` items are evicted. (after items.c's
// `lru_pull_tail`)
pub(crate) fn visit_oldest<M: Marks>(
    arena: &Arena,
    hand: &mut Hand,
    slabs: &mut SlabsHeld,
    class: ClassId,
    marks: &M,
) -> Result<Tally, NoMemory>
    requires arena { IsHandOf arena.now hand.old }
    requires class { is_class (setup_of arena.now).table class ≡ true }
    requires slabs { HasSlabs hand.old slabs.old }
    requires one { has_no_stripes (view hand.old) ≡ true }
    requires fresh { has_fresh (view hand.old).row.holdings ≡ false }
    ensures arena { IsHandOf arena.now hand.new }
    ensures locks { locks_of hand.new ≡ locks_of hand.old }
    ensures slabs { HasSlabs hand.new slabs.new }
    ensures visits { IfOk result (λ tally. Acts
        (VisitsOldest (hand_number hand.old) class tally.evicted tally.freed) hand.old slabs.old
        hand.new slabs.new) }
    ensures no_memory { OnErr result (Acts (LacksCallAtOldest (hand_number hand.old) class)
        hand.old slabs.old hand.new slabs.new) }
{
    let mut tally = Tally {
        evicted: 0,
        freed: 0,
    };
    for _ in 0..ROOM_TRIES {
        if tally.evicted == ROOM_ITEMS {
            return Ok(tally);
        }
        let Some(visit) = visit_first(arena, hand, slabs, class, marks)? else {
            return Ok(tally);
        };
        tally = tally.with(visit);
    }
    Ok(tally)
}
