//! The words of an item, and references that are given up.
ghost use Rattle.std.specs.Prelude.{◌≡◌, ◌+◌, ◌<◌, [], IfOk, OnErr, slice_index};
ghost use Rattle.mc_words.specs.hand.Arenas.{IsHandOf, setup_of, view};
ghost use Rattle.mc_words.specs.rule.Happens.{Happens};
ghost use Rattle.mc_words.specs.item.Items.{item_with};
ghost use Rattle.mc_words.specs.hand.Ready.{IsReady, StaysReady};
ghost use Rattle.mc_words.specs.item.Refs.{KeepsHoldings, KeepsRemainingRefs};
ghost use Rattle.mc_words.specs.hand.Views.{chunk_released, word_seen};
ghost use Rattle.mc_items.specs.ItemRefs.{IsItemRef, item_chunk, item_key, item_len, item_place, item_stamp, item_words};
ghost use Rattle.mc_items.specs.Keeping.{HoldsLess, StoresNothing, WordsWereStored};
ghost use Rattle.mc_items.specs.Reading.{words_seen};
ghost use Rattle.mc_core.specs.declared.event.Step.TheVariants as step;

use crate::refs::Ref;
use mc_memory::{Refused, with_capacity};
use mc_words::{Arena, Hand};
use std::alloc::Global;

/// The item's words. It takes no lock, and the reference stays. At want of memory all is as before.
pub fn read(alloc: Global, arena: &Arena, hand: &mut Hand, item: &Ref) -> Result<Vec<u64>, Refused>
    requires arena { IsHandOf arena.now hand.old }
    requires ready { IsReady (view hand.old) }
    requires item { IsItemRef (view hand.old) item.now }
    ensures item { IsItemRef (view hand.new) item.now }
    ensures view { IfOk result (λ words. view hand.new
        ≡ words_seen (item_chunk item.now) 3 (item_len item.now) (view hand.old)) }
    ensures same { OnErr result (view hand.new ≡ view hand.old) }
    ensures words { IfOk result (λ words. words.items ≡ item_words (view hand.old) item.now) }
    ensures stores_words { IfOk result (λ words.
        WordsWereStored (view hand.new) (item_stamp item.now)
        (item_with (item_key item.now) (item_stamp item.now) words.items)) }
    ensures stores_nothing { StoresNothing (view hand.old) (view hand.new) }
    ensures holdings { KeepsHoldings (view hand.old) (view hand.new) }
    ensures hand { StaysReady arena.now hand.old hand.new }
{
    let mut words = with_capacity(alloc, item.len as usize)?;
    for place in 0..item.len {
        words.push_reserved(arena.word(hand, &item.reference, 3 + place));
    }
    Ok(words)
}

/// The item's word at this place, where 0 is the first behind key, stamp and length. It takes no lock and no memory, and the reference
/// stays.
#[inline(always)]
pub fn word(arena: &Arena, hand: &mut Hand, item: &Ref, place: u64) -> u64
    requires arena { IsHandOf arena.now hand.old }
    requires ready { IsReady (view hand.old) }
    requires item { IsItemRef (view hand.old) item.now }
    requires in_range { place < item_len item.now }
    ensures item { IsItemRef (view hand.new) item.now }
    ensures happens { Happens (view hand.old) [] (step.Word (item_chunk item.now) (3 + place))
        (view hand.new) }
    ensures view { view hand.new ≡ word_seen (item_chunk item.now) (3 + place) (view hand.old) }
    ensures word { result ≡ slice_index (item_words (view hand.old) item.now) place }
    ensures words { item_words (view hand.new) item.now ≡ item_words (view hand.old) item.now }
    ensures stores_words { WordsWereStored (view hand.new) (item_stamp item.now)
        (item_with (item_key item.now) (item_stamp item.now)
        (item_words (view hand.old) item.now)) }
    ensures stores_nothing { StoresNothing (view hand.old) (view hand.new) }
    ensures holdings { KeepsHoldings (view hand.old) (view hand.new) }
    ensures hand { StaysReady arena.now hand.old hand.new }
{
    let first = first_place(arena, hand, item);
    word_from(arena, hand, item, first, place)
}

/// The place in the arena's table where the item begins. A caller that reads several words of an item asks for it once, and reads each
/// word by [`word_from`]. It reads nothing. (own)
#[inline(always)]
pub fn first_place(arena: &Arena, hand: &Hand, item: &Ref) -> usize
    requires arena { IsHandOf arena.now hand.now }
    requires item { IsItemRef (view hand.now) item.now }
    ensures place { result ≡ item_place (setup_of arena.now) item.now }
{
    arena.first_place(hand, &item.reference)
}

/// The same as [`word`], by the place where the item begins. (own)
#[inline(always)]
pub fn word_from(arena: &Arena, hand: &mut Hand, item: &Ref, first: usize, place: u64) -> u64
    requires arena { IsHandOf arena.now hand.old }
    requires ready { IsReady (view hand.old) }
    requires item { IsItemRef (view hand.old) item.now }
    requires in_range { place < item_len item.now }
    requires first { first ≡ item_place (setup_of arena.now) item.now }
    ensures item { IsItemRef (view hand.new) item.now }
    ensures happens { Happens (view hand.old) [] (step.Word (item_chunk item.now) (3 + place))
        (view hand.new) }
    ensures view { view hand.new ≡ word_seen (item_chunk item.now) (3 + place) (view hand.old) }
    ensures word { result ≡ slice_index (item_words (view hand.old) item.now) place }
    ensures words { item_words (view hand.new) item.now ≡ item_words (view hand.old) item.now }
    ensures stores_words { WordsWereStored (view hand.new) (item_stamp item.now)
        (item_with (item_key item.now) (item_stamp item.now)
        (item_words (view hand.old) item.now)) }
    ensures stores_nothing { StoresNothing (view hand.old) (view hand.new) }
    ensures holdings { KeepsHoldings (view hand.old) (view hand.new) }
    ensures hand { StaysReady arena.now hand.old hand.new }
{
    arena.word_from(hand, &item.reference, first, 3 + place)
}

/// Gives a reference up, by one subtraction and no lock. The last reference of an item that no key leads to leaves its chunk dead.
/// (memcached's `do_item_remove`)
#[inline(always)]
pub fn release(arena: &Arena, hand: &mut Hand, item: Ref)
    requires arena { IsHandOf arena.now hand.old }
    requires ready { IsReady (view hand.old) }
    requires item { IsItemRef (view hand.old) item }
    ensures happens { Happens (view hand.old) [] (step.Release (item_chunk item)) (view hand.new) }
    ensures dropped { view hand.new ≡ chunk_released (item_chunk item) (view hand.old) }
    ensures holdings { HoldsLess item (view hand.old) (view hand.new) }
    ensures keeps { KeepsRemainingRefs (view hand.old) (view hand.new) }
    ensures stores_nothing { StoresNothing (view hand.old) (view hand.new) }
    ensures hand { StaysReady arena.now hand.old hand.new }
{
    let Ref { reference, .. } = item;
    arena.release(hand, reference);
}
