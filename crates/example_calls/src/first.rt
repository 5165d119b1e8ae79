//! The first chunk that a new arena hands out.
ghost use Rattle.std.specs.Prelude.{◌≡◌, ℕ, ◌<◌, ◌≤◌, ◌↔◌, [], length, nat_lt, if◌then◌else◌, is_some, IfErr, IfOk, None, OnErr, OnOk, Some, true};
ghost use Rattle.mc_classes.specs.Limits.{most_refs};
ghost use Rattle.mc_pages.specs.Changes.{next_page};
ghost use Rattle.mc_pages.specs.ClassState.{first_free};
ghost use Rattle.mc_pages.specs.SlabState.{class_at};
ghost use Rattle.mc_core.specs.run.Chunks.{most_issue};
ghost use Rattle.mc_core.specs.model.Head.{code};
ghost use Rattle.mc_core.specs.model.State.{is_class};
ghost use Rattle.mc_words.specs.hand.Arenas.{IsHandOf, setup_of, view};
ghost use Rattle.mc_words.specs.hand.Observers.{slabs_lent};
ghost use Rattle.mc_words.specs.hand.View.{new_view};
ghost use Rattle.mc_words.specs.declared.arena.refusal.NewError.TheVariants as refused;
ghost use Rattle.example_calls.specs.Preparing.{first_out, has_prepared};

use mc_classes::ClassId;
use mc_pages::{Grow, NoMemory};
use mc_words::{Arena, Hand, NewError, SlabsHeld, WornOut};
use std::alloc::Global;
use testlib_values::FOUR_CLASSES;

/// The greatest issue number, with which a chunk is used up.
const MOST_ISSUE: u64 = 70_368_744_177_663;

// Takes the lock of the slabs for the one hand of a new arena, who gets it at the first try. A page is left.
fn slabs_of_new(arena: &Arena, hand: &mut Hand) -> SlabsHeld
    requires arena { IsHandOf arena.now hand.old }
    requires alone { (setup_of arena.now).hands ≡ 1 }
    requires new { view hand.old ≡ new_view (setup_of arena.now) 0 0 }
    ensures arena { IsHandOf arena.now hand.new }
    ensures held { (view hand.new).slabs ≡ Some (slabs_lent result) }
    ensures holdings { (view hand.new).row.holdings ≡ [] }
    ensures after { has_prepared (view hand.new) ≡ true }
    ensures whole { (slabs_lent result).uncut ≡ None }
    ensures next { (class : ℕ) → is_some (next_page (slabs_lent result) class) ≡ true }
{
    match arena.try_slabs(hand) {
        Ok(held) => held,
        Err(_) => unreachable!(),
    }
}

// Gives the class the next page, and cuts all its chunks.
fn prepare_page(
    arena: &Arena,
    hand: &mut Hand,
    held: &mut SlabsHeld,
    class: ClassId,
) -> Result<(), NoMemory>
    requires arena { IsHandOf arena.now hand.old }
    requires class { is_class (setup_of arena.now).table class ≡ true }
    requires held { (view hand.old).slabs ≡ Some (slabs_lent held.old) }
    requires whole { (slabs_lent held.old).uncut ≡ None }
    requires next { is_some (next_page (slabs_lent held.old) class) ≡ true }
    requires before { has_prepared (view hand.old) ≡ true }
    ensures arena { IsHandOf arena.now hand.new }
    ensures held { (view hand.new).slabs ≡ Some (slabs_lent held.new) }
    ensures holdings { (view hand.new).row.holdings ≡ (view hand.old).row.holdings }
    ensures after { has_prepared (view hand.new) ≡ true }
    ensures whole { (slabs_lent held.new).uncut ≡ None }
    ensures free { OnOk result (is_some (first_free (class_at (slabs_lent held.new) class))
        ≡ true) }
{
    let per_page = held.slabs().per_page(class);
    match arena.grow(hand, held, class) {
        Ok(page) => {
            arena.cut_page(hand, held, page, per_page);
            Ok(())
        }
        Err(Grow::NoRoom) => unreachable!(),
        Err(Grow::NoMemory(refused)) => Err(refused),
    }
}

// Hands out the first free chunk of the class, reads its header, and gives the chunk up.
fn header_of_first(
    arena: &Arena,
    hand: &mut Hand,
    held: &mut SlabsHeld,
    class: ClassId,
) -> Result<u64, WornOut>
    requires arena { IsHandOf arena.now hand.old }
    requires class { is_class (setup_of arena.now).table class ≡ true }
    requires held { (view hand.old).slabs ≡ Some (slabs_lent held.old) }
    requires whole { (slabs_lent held.old).uncut ≡ None }
    requires free { is_some (first_free (class_at (slabs_lent held.old) class)) ≡ true }
    requires room { length (view hand.old).row.holdings ≤ most_refs }
    requires alone { (setup_of arena.now).hands ≡ 1 }
    requires before { has_prepared (view hand.old) ≡ true }
    ensures arena { IsHandOf arena.now hand.new }
    ensures held { (view hand.new).slabs ≡ Some (slabs_lent held.new) }
    ensures whole { (slabs_lent held.new).uncut ≡ None }
    ensures header { IfOk result (λ word. word ≡ code (first_out (setup_of arena.now).start)) }
    ensures unused { OnOk result ((setup_of arena.now).start < most_issue) }
    ensures worn { OnErr result (most_issue ≤ (setup_of arena.now).start) }
{
    match arena.pop(hand, held, class) {
        Ok(Some(fresh)) => {
            let word = arena.head(hand, fresh.chunk());
            arena.discard(hand, fresh);
            Ok(word)
        }
        Ok(None) => unreachable!(),
        Err(error) => Err(error),
    }
}

/// Asks for a chunk in an arena whose chunks are all used up from the beginning: the class has no free one, or the first is worn out,
/// whatever any hands did before.
pub fn pop_worn(
    arena: &Arena,
    hand: &mut Hand,
    held: &mut SlabsHeld,
    class: ClassId,
) -> Option<WornOut>
    requires arena { IsHandOf arena.now hand.old }
    requires class { is_class (setup_of arena.now).table class ≡ true }
    requires held { (view hand.old).slabs ≡ Some (slabs_lent held.old) }
    requires room { length (view hand.old).row.holdings ≤ most_refs }
    requires worn { (setup_of arena.now).start ≡ most_issue }
    ensures arena { IsHandOf arena.now hand.new }
    ensures held { (view hand.new).slabs ≡ Some (slabs_lent held.new) }
    ensures same { slabs_lent held.new ≡ slabs_lent held.old }
    ensures none { (result ≡ None) ↔ (first_free (class_at (slabs_lent held.old) class) ≡ None) }
{
    match arena.pop(hand, held, class) {
        Ok(Some(fresh)) => {
            // A chunk has to be spent, also where none is ever got.
            arena.discard(hand, fresh);
            unreachable!()
        }
        Ok(None) => None,
        Err(worn) => Some(worn),
    }
}

/// The header of the first chunk that an arena of one hand hands out, where issue numbers count on from this one. None where all
/// chunks are used up from the beginning.
pub fn header_from(alloc: Global, start: u64) -> Result<Option<u64>, NewError>
    requires begun { start ≤ most_issue }
    ensures header { IfOk result (λ found. found
        ≡ (if nat_lt start most_issue then Some (code (first_out start)) else None)) }
    ensures memory { IfErr result (λ error. error ≡ refused.NoMemory tt) }
{
    let (arena, mut hands) = match Arena::from_issue(alloc, &FOUR_CLASSES, 1, start) {
        Ok(made) => made,
        Err(error) => return Err(error),
    };
    let mut hand = hands.remove(0);
    let mut held = slabs_of_new(&arena, &mut hand);
    let class = arena.classes().count();
    if let Err(refused) = prepare_page(&arena, &mut hand, &mut held, class) {
        return Err(NewError::NoMemory(refused));
    }
    let header = header_of_first(&arena, &mut hand, &mut held, class);
    arena.give_slabs(&mut hand, held);
    Ok(header.ok())
}

/// The first chunk that a new arena hands out: its header records that it is unlinked, held once, and out for the first time.
pub fn first_header(alloc: Global) -> Result<Option<u64>, NewError>
    ensures header { IfOk result (λ found. found ≡ Some 393217) }
    ensures memory { IfErr result (λ error. error ≡ refused.NoMemory tt) }
{
    header_from(alloc, 0)
}

/// Where all chunks are used up from the beginning, none is ever handed out.
pub fn worn_out(alloc: Global) -> Result<Option<u64>, NewError>
    ensures never { IfOk result (λ found. found ≡ None) }
    ensures memory { IfErr result (λ error. error ≡ refused.NoMemory tt) }
{
    header_from(alloc, MOST_ISSUE)
}
