//! Chunks for items, under one hold of the slabs lock.
ghost use Rattle.std.specs.List.{list_all};
ghost use Rattle.std.specs.Prelude.{◌≡◌, ◌≤◌, IfErr, IfOk, IfSome, None, Ok, OnErr, false, is_some, length, true};
ghost use Rattle.mc_classes.specs.Limits.{most_refs};
ghost use Rattle.mc_pages.specs.Changes.{HasNoPageFor, next_page};
ghost use Rattle.mc_pages.specs.ClassState.{first_free, class_after_pop};
ghost use Rattle.mc_pages.specs.SlabState.{class_at};
ghost use Rattle.mc_core.specs.model.Holdings.{has_fresh};
ghost use Rattle.mc_core.specs.model.Looks.{is_found_alive};
ghost use Rattle.mc_core.specs.model.State.{is_class};
ghost use Rattle.mc_words.specs.hand.Arenas.{IsHandOf, setup_of, view};
ghost use Rattle.mc_words.specs.hand.Idle.{has_no_stripes};
ghost use Rattle.mc_words.specs.hand.Observers.{HasSlabs, fresh_chunk, fresh_room, locks_of, hand_number, slabs_lent};
ghost use Rattle.mc_items.specs.FreshChunks.{IsFreshFor};
ghost use Rattle.mc_items.specs.OnKeys.{Acts, AreUnchanged, SeesMore};
ghost use Rattle.mc_items.specs.Sources.{AsksMove, LacksMore, MakesFree, MakesNone, SuppliesChunk, SuppliesNone};
ghost use Rattle.mc_items.specs.Storing.{IsOwnItem};
ghost use Rattle.mc_items.specs.Supplying.{FindsNoFree, FindsWorn, GainsFresh, Grows, SuppliesFree};

use crate::evicting::{Supply, evict_one};
use crate::setting::SetError;
use mc_classes::{ClassId, PageId};
use mc_pages::Grow;
use mc_stripe::NoMemory;
use mc_words::{Arena, Fresh, Hand, SlabsHeld, WornOut};

// Hands out a free chunk of the class; where there is none, dead chunks of the class are put back first: those that hints name, and
// only where that gives none, whatever a look at each chunk finds.
pub(crate) fn pop_or_sweep(
    arena: &Arena,
    hand: &mut Hand,
    held: &mut SlabsHeld,
    class: ClassId,
) -> Result<Option<Fresh>, WornOut>
    requires arena { IsHandOf arena.now hand.old }
    requires class { is_class (setup_of arena.now).table class ≡ true }
    requires held { HasSlabs hand.old held.old }
    requires room { length (view hand.old).row.holdings ≤ most_refs }
    ensures arena { IsHandOf arena.now hand.new }
    ensures locks { locks_of hand.new ≡ locks_of hand.old }
    ensures held { HasSlabs hand.new held.new }
    ensures supplied { IfOk result (λ popped. IfSome popped (λ fresh.
        Acts (SuppliesFree class (fresh_chunk fresh)) hand.old held.old hand.new held.new)) }
    ensures fresh { IfOk result (λ popped. IfSome popped
        (IsFreshFor (setup_of arena.now) class (view hand.new))) }
    ensures gains { IfOk result (λ popped. IfSome popped (λ fresh.
        GainsFresh (view hand.old) (fresh_chunk fresh) (fresh_room fresh) (view hand.new))) }
    ensures none { result ≡ Ok None → Acts (FindsNoFree class) hand.old held.old hand.new held.new
        × SeesMore hand.old hand.new }
    ensures worn { OnErr result (Acts (FindsWorn class) hand.old held.old hand.new held.new
        × SeesMore hand.old hand.new) }
    ensures own { IfOk result (λ popped. IfSome popped (λ fresh.
        IsOwnItem (view hand.new) (fresh_chunk fresh))) }
    ensures uncut { (slabs_lent held.new).uncut ≡ (slabs_lent held.old).uncut }
{
    match arena.pop(hand, held, class) {
        Ok(Some(fresh)) => return Ok(Some(fresh)),
        Ok(None) => {}
        Err(error) => return Err(error),
    }
    arena.recover(hand, held, class);
    match arena.pop(hand, held, class) {
        Ok(Some(fresh)) => return Ok(Some(fresh)),
        Ok(None) => {}
        Err(error) => return Err(error),
    }
    arena.sweep(hand, held, class);
    arena.pop(hand, held, class)
}

// Gives the class the next page, if there is one, and cuts all its chunks.
pub(crate) fn grow_for(
    arena: &Arena,
    hand: &mut Hand,
    held: &mut SlabsHeld,
    class: ClassId,
) -> Result<bool, NoMemory>
    requires arena { IsHandOf arena.now hand.old }
    requires class { is_class (setup_of arena.now).table class ≡ true }
    requires held { HasSlabs hand.old held.old }
    requires whole { (slabs_lent held.old).uncut ≡ None }
    ensures arena { IsHandOf arena.now hand.new }
    ensures locks { locks_of hand.new ≡ locks_of hand.old }
    ensures held { HasSlabs hand.new held.new }
    ensures grows { result ≡ Ok true →
        Acts (Grows (hand_number hand.old) class) hand.old held.old hand.new held.new }
    ensures free { result ≡ Ok true → is_some (first_free (class_at (slabs_lent held.new) class))
        ≡ true }
    ensures whole { (slabs_lent held.new).uncut ≡ None }
    ensures seen { SeesMore hand.old hand.new }
    ensures none { result ≡ Ok false → (next_page (slabs_lent held.old) class ≡ None)
        × AreUnchanged held.old held.new × (view hand.new ≡ view hand.old) }
    ensures full { result ≡ Ok false → HasNoPageFor (slabs_lent held.old) class }
    ensures same { OnErr result (AreUnchanged held.old held.new × (view hand.new ≡ view hand.old)) }
    ensures page { OnErr result (is_some (next_page (slabs_lent held.old) class) ≡ true) }
{
    let per_page = held.slabs().per_page(class);
    match arena.grow(hand, held, class) {
        Ok(page) => {
            arena.cut_page(hand, held, page, per_page);
            Ok(true)
        }
        Err(Grow::NoRoom) => Ok(false),
        Err(Grow::NoMemory(refused)) => Err(refused),
    }
}

// Gives a class without a free chunk one: of the next page, or where no page is left, by an eviction. Returns how, if it did.
fn make_free(
    arena: &Arena,
    hand: &mut Hand,
    held: &mut SlabsHeld,
    class: ClassId,
) -> Result<Option<Supply>, NoMemory>
    requires arena { IsHandOf arena.now hand.old }
    requires class { is_class (setup_of arena.now).table class ≡ true }
    requires held { HasSlabs hand.old held.old }
    requires one { has_no_stripes (view hand.old) ≡ true }
    requires fresh { has_fresh (view hand.old).row.holdings ≡ false }
    requires empty { first_free (class_at (slabs_lent held.old) class) ≡ None }
    requires alive { list_all (is_found_alive (view hand.old).row.looks)
        (class_at (slabs_lent held.old) class).order ≡ true }
    requires whole { (slabs_lent held.old).uncut ≡ None }
    ensures arena { IsHandOf arena.now hand.new }
    ensures locks { locks_of hand.new ≡ locks_of hand.old }
    ensures held { HasSlabs hand.new held.new }
    ensures makes { IfOk result (λ made. IfSome made (λ supply.
        Acts (MakesFree (hand_number hand.old) class supply) hand.old held.old hand.new held.new)) }
    ensures free { IfOk result (λ made. IfSome made (λ supply.
        is_some (first_free (class_at (slabs_lent held.new) class)) ≡ true)) }
    ensures none { result ≡ Ok None →
        Acts (MakesNone (hand_number hand.old) class) hand.old held.old hand.new held.new }
    ensures whole { (slabs_lent held.new).uncut ≡ None }
    ensures no_memory { OnErr result (Acts (LacksMore (hand_number hand.old) class) hand.old
        held.old hand.new held.new) }
{
    match grow_for(arena, hand, held, class) {
        Ok(true) => Ok(Some(Supply::Page)),
        Ok(false) => evict_one(arena, hand, held, class),
        Err(error) => Err(error),
    }
}

// Asks for a move of any class's page to this one, if an item was evicted and the automover's mode is 2. Its answer is ignored, want of
// memory too. (after items.c's `lru_pull_tail`)
pub(crate) fn ask_move(
    arena: &Arena,
    hand: &mut Hand,
    held: &mut SlabsHeld,
    class: ClassId,
    supply: Supply,
)
    requires arena { IsHandOf arena.now hand.old }
    requires held { HasSlabs hand.old held.old }
    ensures arena { IsHandOf arena.now hand.new }
    ensures locks { locks_of hand.new ≡ locks_of hand.old }
    ensures held { HasSlabs hand.new held.new }
    ensures asks { Acts (AsksMove (hand_number hand.old) class supply) hand.old held.old hand.new
        held.new }
    ensures holdings { (view hand.new).row.holdings ≡ (view hand.old).row.holdings }
    ensures uncut { (slabs_lent held.new).uncut ≡ (slabs_lent held.old).uncut }
{
    if let Supply::Evicted = supply {
        if held.slabs().automove() == 2 {
            let _ = arena.begin_move(hand, held, None, class);
        }
    }
}

// Hands out a chunk of the class: a free one; else a dead one; else one of the next page; else one whose item was evicted, of the
// oldest, after which a move to the class is asked for in mode 2. (slabs.c's `do_slabs_alloc`, and then items.c's `lru_pull_tail`)
pub(crate) fn supply_chunk(
    arena: &Arena,
    hand: &mut Hand,
    held: &mut SlabsHeld,
    class: ClassId,
) -> Result<Fresh, SetError>
    requires arena { IsHandOf arena.now hand.old }
    requires class { is_class (setup_of arena.now).table class ≡ true }
    requires held { HasSlabs hand.old held.old }
    requires one { has_no_stripes (view hand.old) ≡ true }
    requires fresh { has_fresh (view hand.old).row.holdings ≡ false }
    requires within_limit { length (view hand.old).row.holdings ≤ most_refs }
    requires whole { (slabs_lent held.old).uncut ≡ None }
    ensures arena { IsHandOf arena.now hand.new }
    ensures locks { locks_of hand.new ≡ locks_of hand.old }
    ensures held { HasSlabs hand.new held.new }
    ensures supplies { IfOk result (λ fresh. Acts
        (SuppliesChunk (hand_number hand.old) class (fresh_chunk fresh)) hand.old held.old hand.new
        held.new) }
    ensures fresh { IfOk result (IsFreshFor (setup_of arena.now) class (view hand.new)) }
    ensures own { IfOk result (λ fresh. IsOwnItem (view hand.new) (fresh_chunk fresh)) }
    ensures none { IfErr result (λ error.
        Acts (SuppliesNone (hand_number hand.old) class error) hand.old held.old hand.new
        held.new) }
    ensures whole { (slabs_lent held.new).uncut ≡ None }
{
    match pop_or_sweep(arena, hand, held, class) {
        Ok(Some(fresh)) => return Ok(fresh),
        Ok(None) => {}
        Err(_) => return Err(SetError::WornOut),
    }
    let supply = match make_free(arena, hand, held, class) {
        Ok(Some(supply)) => supply,
        Ok(None) => return Err(SetError::NoRoom),
        Err(refused) => return Err(SetError::NoMemory(refused)),
    };
    match arena.pop(hand, held, class) {
        Ok(Some(fresh)) => {
            ask_move(arena, hand, held, class, supply);
            Ok(fresh)
        }
        Ok(None) => unreachable!(),
        Err(_) => Err(SetError::WornOut),
    }
}
