//! Looks at headers.
ghost use Rattle.std.specs.Prelude.{◌≡◌, ◌<◌, true, []};
ghost use Rattle.mc_core.specs.model.Head.{decode};
ghost use Rattle.mc_core.specs.model.State.{has_chunk};
ghost use Rattle.mc_core.specs.declared.event.Step.TheVariants as step;
ghost use Rattle.mc_words.specs.hand.Arenas.{IsHandOf, setup_of, view};
ghost use Rattle.mc_words.specs.rule.Happens.{Happens};
ghost use Rattle.mc_words.specs.rule.Layout.{head_word};
ghost use Rattle.mc_words.specs.hand.Views.{head_seen};

use crate::arena::Arena;
use crate::hand::Hand;
use mc_core::Step;
use mc_pages::ChunkId;

impl Arena {
    /// The header of a chunk, as it is now. Under the slabs lock the look counts.
    #[inline(always)]
    pub fn head(&self, hand: &mut Hand, chunk: ChunkId) -> u64
        requires arena { IsHandOf self.now hand.old }
        requires in_range { has_chunk (setup_of self.now).table chunk ≡ true }
        ensures arena { IsHandOf self.now hand.new }
        ensures locks { hand.new.locks ≡ hand.old.locks }
        ensures happens { Happens (view hand.old) [] (step.Head chunk) (view hand.new) }
        ensures seen { view hand.new ≡ head_seen chunk (decode result) (view hand.old) }
    {
        let word = self.head_word(chunk);
        self.head_at(hand, word, chunk)
    }

    /// The header of a chunk, as it is now, from this word of the table. Under the slabs lock the look counts.
    #[inline(always)]
    pub(crate) fn head_at(&self, hand: &mut Hand, word: usize, chunk: ChunkId) -> u64
        requires arena { IsHandOf self.now hand.old }
        requires in_range { has_chunk (setup_of self.now).table chunk ≡ true }
        requires word { word ≡ head_word (setup_of self.now) chunk }
        requires within { word < self.now.table.shared.table_id.words }
        ensures arena { IsHandOf self.now hand.new }
        ensures locks { hand.new.locks ≡ hand.old.locks }
        ensures happens { Happens (view hand.old) [] (step.Head chunk) (view hand.new) }
        ensures seen { view hand.new ≡ head_seen chunk (decode result) (view hand.old) }
    {
        self.look(&mut hand.seat, word, Step::Head(chunk))
    }
}
