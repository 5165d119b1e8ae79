//! Reads of an item's words.
ghost use Rattle.std.specs.Prelude.{◌≡◌, ◌+◌, ◌<◌, ◌≤◌, [], true, length, slice_index, Some, IfSome};
ghost use Rattle.mc_pages.specs.SlabState.{class_of_page};
ghost use Rattle.mc_core.specs.model.Holdings.{key_of, stamp_in_words};
ghost use Rattle.mc_core.specs.model.Looks.{was_linked};
ghost use Rattle.mc_core.specs.model.State.{has_chunk, room_in};
ghost use Rattle.mc_core.specs.declared.event.Step.TheVariants as step;
ghost use Rattle.mc_words.specs.hand.Arenas.{IsHandOf, setup_of, view};
ghost use Rattle.mc_words.specs.rule.Happens.{Happens, LawfulView};
ghost use Rattle.mc_words.specs.item.Items.{IsWordOfItem, held_item, word_read};
ghost use Rattle.mc_words.specs.item.Refs.{IsRefOf, first_place};
ghost use Rattle.mc_words.specs.hand.Views.{fields_seen, held_word_seen, word_seen};
ghost use Rattle.mc_words.specs.rule.Layout.{data_word};

use crate::arena::Arena;
use crate::hand::Hand;
use crate::hand::held::SlabsHeld;
use crate::item::refs::Ref;
use mc_core::Step;
use mc_pages::ChunkId;

/// The fields of an item before its words.
#[derive(Clone, Copy)]
pub struct ItemFields {
    pub key: u64,
    /// The stamp with which it was stored.
    pub stamp: u64,
    /// How many words come after these three.
    pub len: u64,
}

impl Arena {
    /// A word of the item: 0 is its key, 1 its stamp, 2 how many words come after these three.
    #[inline(always)]
    pub fn word(&self, hand: &mut Hand, reference: &Ref, place: u64) -> u64
        requires arena { IsHandOf self.now hand.old }
        requires reference { IsRefOf (view hand.old) reference.now.chunk reference.now.room }
        requires in_range { place < length (held_item (view hand.old) reference.now.chunk) }
        ensures arena { IsHandOf self.now hand.new }
        ensures locks { hand.new.locks ≡ hand.old.locks }
        ensures happens { Happens (view hand.old) [] (step.Word reference.now.chunk place)
            (view hand.new) }
        ensures word { result ≡ slice_index (held_item (view hand.old) reference.now.chunk) place }
        ensures view { view hand.new ≡ word_seen reference.now.chunk place (view hand.old) }
        ensures reference { IsRefOf (view hand.new) reference.now.chunk reference.now.room }
    {
        let first = self.first_place(hand, reference);
        self.word_from(hand, reference, first, place)
    }

    /// The place in the arena's table where the item's words begin. A caller that reads several words of an item asks for it once,
    /// and reads each word by `word_from`. It reads nothing. (own)
    #[inline(always)]
    pub fn first_place(&self, hand: &Hand, reference: &Ref) -> usize
        requires arena { IsHandOf self.now hand.now }
        requires reference { IsRefOf (view hand.now) reference.now.chunk reference.now.room }
        ensures place { result ≡ first_place (setup_of self.now) reference.now }
    {
        self.data_word(reference.room, reference.chunk, 0)
    }

    /// The same as `word`, by the place where the item's words begin. (own)
    #[inline(always)]
    pub fn word_from(&self, hand: &mut Hand, reference: &Ref, first: usize, place: u64) -> u64
        requires arena { IsHandOf self.now hand.old }
        requires reference { IsRefOf (view hand.old) reference.now.chunk reference.now.room }
        requires in_range { place < length (held_item (view hand.old) reference.now.chunk) }
        requires first { first ≡ first_place (setup_of self.now) reference.now }
        ensures arena { IsHandOf self.now hand.new }
        ensures locks { hand.new.locks ≡ hand.old.locks }
        ensures happens { Happens (view hand.old) [] (step.Word reference.now.chunk place)
            (view hand.new) }
        ensures word { result ≡ slice_index (held_item (view hand.old) reference.now.chunk) place }
        ensures view { view hand.new ≡ word_seen reference.now.chunk place (view hand.old) }
        ensures reference { IsRefOf (view hand.new) reference.now.chunk reference.now.room }
    {
        self.word_at(hand, reference, place, first + place as usize)
    }

    /// Key, stamp and length of the item: its first three words, one after another.
    #[inline(always)]
    pub fn fields(&self, hand: &mut Hand, reference: &Ref) -> ItemFields
        requires arena { IsHandOf self.now hand.old }
        requires reference { IsRefOf (view hand.old) reference.now.chunk reference.now.room }
        ensures arena { IsHandOf self.now hand.new }
        ensures locks { hand.new.locks ≡ hand.old.locks }
        ensures view { view hand.new ≡ fields_seen reference.now.chunk (view hand.old) }
        ensures key { result.key ≡ key_of (held_item (view hand.old) reference.now.chunk) }
        ensures stamp { result.stamp ≡ stamp_in_words
            (held_item (view hand.old) reference.now.chunk) }
        ensures len { length (held_item (view hand.old) reference.now.chunk) ≡ 3 + result.len }
        ensures reference { IsRefOf (view hand.new) reference.now.chunk reference.now.room }
    {
        let first = self.first_place(hand, reference);
        let key = self.word_from(hand, reference, first, 0);
        let stamp = self.word_from(hand, reference, first, 1);
        let len = self.word_from(hand, reference, first, 2);
        ItemFields { key, stamp, len }
    }

    // The word of the item at this place of the table.
    #[inline(always)]
    fn word_at(&self, hand: &mut Hand, reference: &Ref, place: u64, at: usize) -> u64
        requires arena { IsHandOf self.now hand.old }
        requires reference { IsRefOf (view hand.old) reference.now.chunk reference.now.room }
        requires in_range { place < length (held_item (view hand.old) reference.now.chunk) }
        requires at { at ≡ data_word (setup_of self.now) reference.now.room reference.now.chunk
            place }
        requires inside { at < self.now.table.shared.table_id.words }
        ensures arena { IsHandOf self.now hand.new }
        ensures locks { hand.new.locks ≡ hand.old.locks }
        ensures happens { Happens (view hand.old) [] (step.Word reference.now.chunk place)
            (view hand.new) }
        ensures word { result ≡ slice_index (held_item (view hand.old) reference.now.chunk) place }
        ensures view { view hand.new ≡ word_seen reference.now.chunk place (view hand.old) }
        ensures reference { IsRefOf (view hand.new) reference.now.chunk reference.now.room }
    {
        let step = Step::Word(reference.chunk, place);
        self.look(&mut hand.seat, at, step)
    }

    /// A word of a chunk that this hand found linked under this hold of the slabs lock: 0 is the key of its item, 1 its stamp, and 2 how
    /// many words come after these three, which fit the chunk. It is a word of an item that some hand knows. The read counts as a look. (own, for the key that items.c's `do_item_alloc_pull` finds in an item)
    pub fn word_held(&self, hand: &mut Hand, held: &SlabsHeld, chunk: ChunkId, place: u64) -> u64
        requires arena { IsHandOf self.now hand.old }
        requires in_range { has_chunk (setup_of self.now).table chunk ≡ true }
        requires held { (view hand.old).slabs ≡ Some held.now.shared }
        requires linked { was_linked (view hand.old).row.looks chunk ≡ true }
        requires inside { place < room_in (setup_of self.now).table
            (class_of_page held.now.shared chunk.page) }
        ensures arena { IsHandOf self.now hand.new }
        ensures locks { hand.new.locks ≡ hand.old.locks }
        ensures held { (view hand.new).slabs ≡ Some held.now.shared }
        ensures happens { Happens (view hand.old) [] (step.WordHeld chunk place) (view hand.new) }
        ensures fits { place ≡ 2 →
            3 + result ≤ room_in (setup_of self.now).table
            (class_of_page held.now.shared chunk.page) }
        ensures known { (was : LawfulView (view hand.old))
            × IsWordOfItem was.moment chunk place result }
        ensures again { IfSome (word_read (view hand.old) chunk place) (λ before. result ≡ before) }
        ensures view { view hand.new ≡ held_word_seen chunk place result (view hand.old) }
    {
        let class = held.slabs().owner(chunk.page).class();
        let room = self.classes().size(class) / 8;
        let at = self.data_word(room, chunk, place);
        let step = Step::WordHeld(chunk, place);
        self.look(&mut hand.seat, at, step)
    }
}
