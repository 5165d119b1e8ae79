//! Fresh chunks that are filled and given up.
ghost use Rattle.std.specs.Prelude.{◌≡◌, ◌<◌, ◌==◌, [], if◌then◌else◌};
ghost use Rattle.mc_core.specs.declared.event.Step.TheVariants as step;
ghost use Rattle.mc_words.specs.hand.Arenas.{IsHandOf, setup_of, view};
ghost use Rattle.mc_words.specs.item.Fresh.{IsFreshOf, place_to_fill};
ghost use Rattle.mc_words.specs.rule.Happens.{Happens};
ghost use Rattle.mc_words.specs.hand.Views.{chunk_discarded, word_filled};

use crate::arena::Arena;
use crate::hand::Hand;
use crate::hand::held::Fresh;
use mc_core::Step;

impl Arena {
    /// Writes a word of a fresh chunk.
    #[inline(always)]
    pub fn fill(&self, hand: &mut Hand, fresh: &mut Fresh, place: u64, word: u64)
        requires arena { IsHandOf self.now hand.old }
        requires fresh { IsFreshOf (view hand.old) fresh.old.chunk fresh.old.room }
        requires in_range { place < fresh.old.room }
        ensures arena { IsHandOf self.now hand.new }
        ensures locks { hand.new.locks ≡ hand.old.locks }
        ensures same { (fresh.new.chunk ≡ fresh.old.chunk) × (fresh.new.room ≡ fresh.old.room) }
        ensures key { fresh.new.key ≡ (if place == 0 then word else fresh.old.key) }
        ensures stamp { fresh.new.stamp ≡ (if place == 1 then word else fresh.old.stamp) }
        ensures happens { Happens (view hand.old) [] (step.Fill fresh.old.chunk place word)
            (view hand.new) }
        ensures filled { view hand.new ≡ word_filled fresh.old.chunk place word (view hand.old) }
        ensures fresh { IsFreshOf (view hand.new) fresh.new.chunk fresh.new.room }
    {
        let at = self.data_word(fresh.room, fresh.chunk, place);
        let step = Step::Fill(fresh.chunk, place, word);
        self.write(&mut hand.seat, at, word, step);
        fresh.note(place, word);
    }

    /// The place in the arena's table where the words of a fresh chunk begin. A caller that writes several words asks for it once, and
    /// writes each word behind the second by `fill_from`. It reads nothing. (own)
    #[inline(always)]
    pub fn place_to_fill(&self, hand: &Hand, fresh: &Fresh) -> usize
        requires arena { IsHandOf self.now hand.now }
        requires fresh { IsFreshOf (view hand.now) fresh.now.chunk fresh.now.room }
        requires some { 0 < fresh.now.room }
        ensures place { result ≡ place_to_fill (setup_of self.now) fresh.now }
    {
        self.data_word(fresh.room, fresh.chunk, 0)
    }

    /// The same as `fill`, by the place where the chunk's words begin. A key or a stamp that it writes isn't noted in the chunk's `Fresh`, so
    /// it is for the words behind these two. (own)
    #[inline(always)]
    pub fn fill_from(&self, hand: &mut Hand, fresh: &Fresh, first: usize, place: u64, word: u64)
        requires arena { IsHandOf self.now hand.old }
        requires fresh { IsFreshOf (view hand.old) fresh.now.chunk fresh.now.room }
        requires in_range { place < fresh.now.room }
        requires first { first ≡ place_to_fill (setup_of self.now) fresh.now }
        ensures arena { IsHandOf self.now hand.new }
        ensures locks { hand.new.locks ≡ hand.old.locks }
        ensures happens { Happens (view hand.old) [] (step.Fill fresh.now.chunk place word)
            (view hand.new) }
        ensures filled { view hand.new ≡ word_filled fresh.now.chunk place word (view hand.old) }
        ensures fresh { IsFreshOf (view hand.new) fresh.now.chunk fresh.now.room }
    {
        let step = Step::Fill(fresh.chunk, place, word);
        self.write(&mut hand.seat, first + place as usize, word, step);
    }

    /// Gives a fresh chunk up, which is dead then, until somebody puts it back. It takes no lock.
    #[inline(always)]
    pub fn discard(&self, hand: &mut Hand, fresh: Fresh)
        requires arena { IsHandOf self.now hand.old }
        requires fresh { IsFreshOf (view hand.old) fresh.chunk fresh.room }
        ensures arena { IsHandOf self.now hand.new }
        ensures locks { hand.new.locks ≡ hand.old.locks }
        ensures happens { Happens (view hand.old) [] (step.Discard fresh.chunk) (view hand.new) }
        ensures dropped { view hand.new ≡ chunk_discarded fresh.chunk (view hand.old) }
    {
        let Fresh {
            chunk,
            room: _,
            key: _,
            stamp: _,
        } = fresh;
        let word = self.head_word(chunk);
        let found = self.subtract(&mut hand.seat, word, 1, Step::Discard(chunk));
        self.hints.note_if_dead(chunk, found.wrapping_sub(1));
        hand.chunks -= 1;
        hand.fresh -= 1;
    }
}
