//! Calls on the arena whose conditions are tested when they are made.
ghost use Rattle.std.specs.Prelude.{◌≡◌, Some, IfSome, true};
ghost use Rattle.mc_core.specs.model.State.{has_chunk, is_class};
ghost use Rattle.mc_words.specs.hand.Arenas.{IsHandOf, setup_of, view};
ghost use Rattle.mc_words.specs.item.Fresh.{IsFreshOf};

use mc_classes::{ClassId, PageId};
use mc_pages::{ChunkId, Grow, Numbers, Owner};
use mc_words::{Arena, Final, Fresh, Hand, SlabsHeld};

/// Whether the arena has such a chunk.
pub fn has_chunk(arena: &Arena, chunk: ChunkId) -> bool
    ensures { result ≡ has_chunk (setup_of arena.now).table chunk }
{
    let classes = arena.classes();
    chunk.page < classes.arena_pages() && chunk.index < classes.per_page(1)
}

/// Whether the arena has the class.
pub fn is_class(arena: &Arena, class: ClassId) -> bool
    ensures { result ≡ is_class (setup_of arena.now).table class }
{
    class >= 1 && class <= arena.classes().count()
}

/// The header of the chunk. None where there is no such chunk.
pub fn header(arena: &Arena, hand: &mut Hand, chunk: ChunkId) -> Option<u64>
    requires arena { IsHandOf arena.now hand.old }
    ensures arena { IsHandOf arena.now hand.new }
    ensures slabs { (view hand.new).slabs ≡ (view hand.old).slabs }
    ensures holdings { (view hand.new).row.holdings ≡ (view hand.old).row.holdings }
{
    if !has_chunk(arena, chunk) {
        return None;
    }
    Some(arena.head(hand, chunk))
}

/// A page for the class, which is cut. None where there is no such class, or a page isn't cut yet.
pub fn grow_page(
    arena: &Arena,
    hand: &mut Hand,
    held: &mut SlabsHeld,
    class: ClassId,
) -> Option<Result<PageId, Grow>>
    requires arena { IsHandOf arena.now hand.old }
    requires held { (view hand.old).slabs ≡ Some held.old.shared }
    ensures arena { IsHandOf arena.now hand.new }
    ensures held { (view hand.new).slabs ≡ Some held.new.shared }
{
    if !is_class(arena, class) || held.slabs().next_uncut().is_some() {
        return None;
    }
    let page = match arena.grow(hand, held, class) {
        Ok(page) => page,
        Err(error) => return Some(Err(error)),
    };
    cut_all(arena, hand, held);
    Some(Ok(page))
}

/// Cuts what is uncut.
fn cut_all(arena: &Arena, hand: &mut Hand, held: &mut SlabsHeld)
    requires arena { IsHandOf arena.now hand.old }
    requires held { (view hand.old).slabs ≡ Some held.old.shared }
    ensures arena { IsHandOf arena.now hand.new }
    ensures held { (view hand.new).slabs ≡ Some held.new.shared }
{
    for _chunk in 0..256 {
        let Some(next) = held.slabs().next_uncut() else {
            return;
        };
        arena.cut(hand, held, next.page, next.index);
    }
}

/// The next chunk of the class, which goes out. None where that can't be.
fn pop_next(arena: &Arena, hand: &mut Hand, held: &mut SlabsHeld, class: ClassId) -> Option<Fresh>
    requires arena { IsHandOf arena.now hand.old }
    requires held { (view hand.old).slabs ≡ Some held.old.shared }
    ensures arena { IsHandOf arena.now hand.new }
    ensures held { (view hand.new).slabs ≡ Some held.new.shared }
    ensures class { IfSome result (λ fresh. is_class (setup_of arena.now).table class ≡ true) }
    ensures fresh { IfSome result (λ fresh. IsFreshOf (view hand.new) fresh.chunk fresh.room) }
{
    if !is_class(arena, class) || hand.refs() > 255 {
        return None;
    }
    match arena.pop(hand, held, class) {
        Ok(Some(fresh)) => Some(fresh),
        Ok(None) => None,
        Err(_) => None,
    }
}

/// The headers of a chunk that goes out and comes back.
#[derive(Clone, Copy)]
pub struct Round {
    pub chunk: ChunkId,
    pub popped: Option<u64>,
    pub discarded: Option<u64>,
    pub back: Option<u64>,
}

/// The next chunk of the class goes out, is given up, and comes back. None where that can't be.
pub fn go_round(
    arena: &Arena,
    hand: &mut Hand,
    held: &mut SlabsHeld,
    class: ClassId,
) -> Option<Round>
    requires arena { IsHandOf arena.now hand.old }
    requires held { (view hand.old).slabs ≡ Some held.old.shared }
    ensures arena { IsHandOf arena.now hand.new }
    ensures held { (view hand.new).slabs ≡ Some held.new.shared }
{
    let fresh = pop_next(arena, hand, held, class)?;
    let chunk = fresh.chunk();
    let popped = header(arena, hand, chunk);
    arena.discard(hand, fresh);
    let discarded = header(arena, hand, chunk);
    if !has_chunk(arena, chunk) {
        return None;
    }
    if arena.put_back(hand, held, chunk).is_err() {
        return None;
    }
    let back = header(arena, hand, chunk);
    Some(Round {
        chunk,
        popped,
        discarded,
        back,
    })
}

/// Whether the chunk at the head of the class's free list is worn out. It is given up where it goes out. None where none is
/// free, or there is no such class.
pub fn is_worn(arena: &Arena, hand: &mut Hand, held: &mut SlabsHeld, class: ClassId) -> Option<bool>
    requires arena { IsHandOf arena.now hand.old }
    requires held { (view hand.old).slabs ≡ Some held.old.shared }
    ensures arena { IsHandOf arena.now hand.new }
    ensures held { (view hand.new).slabs ≡ Some held.new.shared }
{
    if !is_class(arena, class) || hand.refs() > 255 {
        return None;
    }
    match arena.pop(hand, held, class) {
        Ok(None) => None,
        Ok(Some(fresh)) => {
            arena.discard(hand, fresh);
            Some(false)
        }
        Err(_) => Some(true),
    }
}

/// The chunk at the head of the class's free list.
pub fn first_free(arena: &Arena, hand: &Hand, held: &SlabsHeld, class: ClassId) -> Option<ChunkId>
    requires arena { IsHandOf arena.now hand.now }
    requires held { (view hand.now).slabs ≡ Some held.now.shared }
{
    if !is_class(arena, class) {
        return None;
    }
    held.slabs().first_free(class)
}

/// The numbers of a class. None where there is no such class.
fn numbers(arena: &Arena, hand: &Hand, held: &SlabsHeld, class: ClassId) -> Option<Numbers>
    requires arena { IsHandOf arena.now hand.now }
    requires held { (view hand.now).slabs ≡ Some held.now.shared }
{
    if !is_class(arena, class) {
        return None;
    }
    Some(held.slabs().numbers(class))
}

/// The numbers of a class after a sweep around one of its chunks, which is out, and an eviction that was counted; and after
/// another sweep, once the chunk was given up. None where there is no such class, or none of its chunks is free.
pub fn sweep_around(
    arena: &Arena,
    hand: &mut Hand,
    held: &mut SlabsHeld,
    class: ClassId,
) -> Option<(Numbers, Numbers)>
    requires arena { IsHandOf arena.now hand.old }
    requires held { (view hand.old).slabs ≡ Some held.old.shared }
    ensures arena { IsHandOf arena.now hand.new }
    ensures held { (view hand.new).slabs ≡ Some held.new.shared }
{
    let fresh = pop_next(arena, hand, held, class)?;
    arena.sweep(hand, held, class);
    arena.evicted(hand, held, class);
    let around = numbers(arena, hand, held, class);
    arena.discard(hand, fresh);
    arena.sweep(hand, held, class);
    let behind = numbers(arena, hand, held, class);
    Some((around?, behind?))
}

/// Gives the lock of the slabs back. False where a page is half cut: then the lock stays held.
pub fn give(arena: &Arena, hand: &mut Hand, held: SlabsHeld) -> bool
    requires arena { IsHandOf arena.now hand.old }
    requires held { (view hand.old).slabs ≡ Some held.shared }
    ensures arena { IsHandOf arena.now hand.new }
{
    if held.slabs().next_uncut().is_some() {
        return false;
    }
    arena.give_slabs(hand, held);
    true
}

/// The header of a chunk of a closed arena. None where there is no such chunk.
pub fn head(left: &Final, chunk: ChunkId) -> Option<u64> {
    let classes = left.classes();
    if chunk.page < classes.arena_pages() && chunk.index < classes.per_page(1) {
        Some(left.head(chunk))
    } else {
        None
    }
}

/// How many chunks the free list of class 1 has. None where a hand has pages and lists.
pub fn listed_free(left: &Final) -> Option<u64> {
    Some(left.slabs()?.numbers(1).free)
}

/// Who owns a page of the closed arena. None where there is no such page, or a hand has pages and lists.
pub fn owner(left: &Final, page: PageId) -> Option<Owner> {
    if page < left.classes().arena_pages() {
        left.owner(page)
    } else {
        None
    }
}

/// Whether the stripe's value is there, in the closed arena.
pub fn is_stripe_left(left: &Final, stripe: u64) -> bool {
    stripe < left.config().stripes && left.stripe(stripe).is_some()
}

/// Whether the stripe's lock was taken, and given back.
pub fn has_lent_stripe(arena: &Arena, hand: &mut Hand, stripe: u64) -> bool
    requires arena { IsHandOf arena.now hand.old }
    ensures arena { IsHandOf arena.now hand.new }
{
    if stripe >= arena.config().stripes || !hand.unlocked() {
        return false;
    }
    let Ok(held) = arena.try_stripe(hand, stripe) else {
        return false;
    };
    arena.give_stripe(hand, held);
    true
}

/// Whether the stripe's lock was taken. Its value is lost.
pub fn lose_stripe(arena: &Arena, hand: &mut Hand, stripe: u64) -> bool
    requires arena { IsHandOf arena.now hand.old }
    ensures arena { IsHandOf arena.now hand.new }
{
    if stripe >= arena.config().stripes || !hand.unlocked() {
        return false;
    }
    arena.try_stripe(hand, stripe).is_ok()
}
