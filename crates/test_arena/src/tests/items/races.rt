//! A race step by step, on one thread: the mover's hand looks at an item, another hand has it again by a hint, and then the mover
//! takes it away, or doesn't. In each order one of the two is refused.
ghost use Rattle.std.specs.Prelude.{◌≡◌, ◌≤◌, ℕ, IfSome, Some, false, length, true};
ghost use Rattle.mc_stripe.specs.StripeState.{chunk_and_stamp};
ghost use Rattle.mc_pages.specs.Pages.{is_on_the_move};
ghost use Rattle.mc_pages.specs.SlabState.{class_of_page};
ghost use Rattle.mc_core.specs.run.Evictions.{has_copy};
ghost use Rattle.mc_core.specs.model.Holdings.{has_fresh};
ghost use Rattle.mc_core.specs.model.State.{has_chunk, is_class};
ghost use Rattle.mc_words.specs.hand.Arenas.{IsHandOf, setup_of, view};
ghost use Rattle.mc_words.specs.hand.Idle.{has_no_stripes};
ghost use Rattle.mc_words.specs.hand.Observers.{HasSlabs, fresh_chunk, fresh_room, slabs_lent, stripe_lent};
ghost use Rattle.mc_words.specs.item.Fresh.{IsFreshOf};
ghost use Rattle.mc_mover.specs.Acting.{HasBlankCopy, KnowsReason};
ghost use Rattle.test_arena.specs.Locked.{KeyLeadsTo, MayTakeAway};

use mc_classes::ClassId;
use mc_pages::ChunkId;
use mc_stripe::Key;
use mc_words::{Arena, Fresh, Hand, SlabsHeld, StripeHeld, header};
use std::process::Abort;

/// What became of an item that is to be taken away.
#[derive(Clone, Copy, PartialEq, Eq)]
pub enum Fate {
    /// The item was evicted: its key leads nowhere.
    Evicted,
    /// Somebody holds the item: its key leads to it as before.
    Stays,
}

/// An item that is to be taken away: its key, its chunk, and the lock of its key's stripe.
#[derive(Drop)]
pub struct Locked {
    stripe: StripeHeld,
    chunk: ChunkId,
    key: Key,
}

/// Whether the key leads to the chunk.
fn leads_to(held: &StripeHeld, key: Key, chunk: ChunkId) -> bool
    ensures leads { result ≡ true → (stamp : ℕ)
        × (chunk_and_stamp (stripe_lent held.now).state key ≡ Some (chunk, stamp)) }
{
    match held.stripe().find(key) {
        Some((found, _)) => found == chunk,
        None => false,
    }
}

/// The class of a chunk's page, if it moves.
fn class_on_move(arena: &Arena, _hand: &Hand, held: &SlabsHeld, chunk: ChunkId) -> Option<ClassId>
    requires arena { IsHandOf arena.now _hand.now }
    requires held { HasSlabs _hand.now held.now }
    requires in_range { has_chunk (setup_of arena.now).table chunk ≡ true }
    ensures own { IfSome result (λ class. class_of_page (slabs_lent held.now) chunk.page ≡ class) }
    ensures moving { IfSome result (λ class. is_on_the_move (slabs_lent held.now) chunk.page
        ≡ true) }
    ensures class { IfSome result (λ class. is_class (setup_of arena.now).table class ≡ true) }
{
    let moving = held.moving()?;
    if moving.page != chunk.page {
        return None;
    }
    let class = held.slabs().owner(chunk.page).class();
    if class >= 1 && class <= arena.classes().count() {
        Some(class)
    } else {
        None
    }
}

/// Looks at an item that nobody holds, and takes the lock of its key's stripe, which leads to it.
pub fn look_and_lock(
    arena: &Arena,
    hand: &mut Hand,
    held: &SlabsHeld,
    chunk: ChunkId,
) -> Option<Locked>
    requires arena { IsHandOf arena.now hand.old }
    requires in_range { has_chunk (setup_of arena.now).table chunk ≡ true }
    requires held { HasSlabs hand.old held.now }
    requires one { has_no_stripes (view hand.old) ≡ true }
    ensures arena { IsHandOf arena.now hand.new }
    ensures held { IfSome result (λ item. HasSlabs hand.new held.now) }
    ensures leads { IfSome result (λ item. KeyLeadsTo arena.now hand.new item.stripe item.chunk) }
    ensures holdings { (view hand.new).row.holdings ≡ (view hand.old).row.holdings }
{
    let head = arena.head(hand, chunk);
    if !header::is_linked(head) {
        return None;
    }
    if !header::is_unheld(head) {
        return None;
    }
    let key = arena.word_held(hand, held, chunk, 0);
    let Ok(stripe) = arena.try_stripe(hand, key % arena.config().stripes) else {
        return None;
    };
    if !leads_to(&stripe, key, chunk) {
        return None;
    }
    Some(Locked { stripe, chunk, key })
}

/// Takes an item away, for which there is no other chunk, if nobody holds it, and gives the stripe back.
fn evict(arena: &Arena, hand: &mut Hand, slabs: &mut SlabsHeld, item: Locked) -> Option<Fate>
    requires arena { IsHandOf arena.now hand.old }
    requires slabs { HasSlabs hand.old slabs.old }
    requires item { MayTakeAway arena.now hand.old item.stripe item.chunk }
    requires reason { KnowsReason (setup_of arena.now) hand.old slabs.old item.chunk }
    requires no_copy { has_copy (view hand.old).row.holdings item.chunk ≡ false }
    ensures arena { IsHandOf arena.now hand.new }
    ensures slabs { HasSlabs hand.new slabs.new }
{
    let mut stripe = item.stripe;
    let condemned = arena.condemn(hand, slabs, &mut stripe, item.chunk);
    let leads = leads_to(&stripe, item.key, item.chunk);
    arena.give_stripe(hand, stripe);
    match (condemned, leads) {
        (Ok(()), false) => Some(Fate::Evicted),
        (Err(_), true) => Some(Fate::Stays),
        _ => None,
    }
}

/// Takes an item away, for which this fresh chunk was got, and which somebody holds: it stays, and the chunk is given up. Gives the stripe
/// back, and puts that chunk back.
fn rescue<R: Abort>(
    rt: &R,
    arena: &Arena,
    hand: &mut Hand,
    slabs: &mut SlabsHeld,
    item: Locked,
    fresh: Fresh,
) -> Option<Fate>
    requires arena { IsHandOf arena.now hand.old }
    requires slabs { HasSlabs hand.old slabs.old }
    requires item { MayTakeAway arena.now hand.old item.stripe item.chunk }
    requires moving { is_on_the_move (slabs_lent slabs.old) item.chunk.page ≡ true }
    requires near_copy { has_chunk (setup_of arena.now).table (fresh_chunk fresh) ≡ true }
    requires fresh { IsFreshOf (view hand.old) (fresh_chunk fresh) (fresh_room fresh) }
    requires copy { HasBlankCopy hand.old item.chunk fresh }
    ensures arena { IsHandOf arena.now hand.new }
    ensures slabs { HasSlabs hand.new slabs.new }
{
    let copy = fresh.chunk();
    let mut stripe = item.stripe;
    let Err(_) = arena.condemn_original(hand, slabs, &mut stripe, item.chunk) else {
        panic!(rt; "what somebody holds was taken away");
    };
    arena.discard(hand, fresh);
    let leads = leads_to(&stripe, item.key, item.chunk);
    arena.give_stripe(hand, stripe);
    if arena.put_back(hand, slabs, copy).is_ok() && leads {
        Some(Fate::Stays)
    } else {
        None
    }
}

/// Takes an item of a moving page away: for a free chunk off the page, or else as there is none.
pub fn take_away<R: Abort>(
    rt: &R,
    arena: &Arena,
    hand: &mut Hand,
    slabs: &mut SlabsHeld,
    item: Locked,
) -> Option<Fate>
    requires arena { IsHandOf arena.now hand.old }
    requires slabs { HasSlabs hand.old slabs.old }
    requires leads { KeyLeadsTo arena.now hand.old item.stripe item.chunk }
    requires fresh { has_fresh (view hand.old).row.holdings ≡ false }
    requires within_limit { length (view hand.old).row.holdings ≤ 255 }
    ensures arena { IsHandOf arena.now hand.new }
    ensures slabs { HasSlabs hand.new slabs.new }
{
    let mut item = item;
    let class = class_on_move(arena, hand, slabs, item.chunk)?;
    if let Err(_) = arena.reserve(hand, &mut item.stripe) {
        return None;
    }
    arena.sweep(hand, slabs, class);
    match arena.pop_off(hand, slabs, item.chunk) {
        Some(fresh) => rescue(rt, arena, hand, slabs, item, fresh),
        None => evict(arena, hand, slabs, item),
    }
}
