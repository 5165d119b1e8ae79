//! The number of words in the chunk of a reference.
ghost use Rattle.std.specs.Prelude.{◌≡◌, ℕ, ◌<◌};
ghost use Rattle.mc_words.specs.hand.Arenas.{IsHandOf, IsOfArena, view};
ghost use Rattle.mc_words.specs.item.Refs.{IsRefOf};
ghost use Rattle.mc_words.specs.rule.Shown.{IsShown};

use crate::arena::Arena;
use crate::hand::Hand;
use crate::rule::{HandSeat, ShownWord};
use mc_pages::ChunkId;

impl Arena {
    // The word as it is now, by a load that is no event.
    fn peek(&self, seat: &mut HandSeat, word: usize) -> u64
        requires in_range { word < self.now.table.shared.table_id.words }
        requires seat { IsOfArena self.now seat.old.table_id seat.old.me.0 }
        ensures table { seat.new.table_id ≡ seat.old.table_id }
        ensures same { seat.new.me ≡ seat.old.me }
        ensures shown { IsShown word result seat.old.me.0 }
    {
        self.table.shared.load::<ShownWord>(seat, word)
    }

    // How many words the chunk has, by the word of its page.
    #[inline(always)]
    pub(crate) fn room(&self, hand: &mut Hand, chunk: ChunkId) -> u64
        requires arena { IsHandOf self.now hand.old }
        requires reference { (room : ℕ) × IsRefOf (view hand.old) chunk room }
        ensures arena { IsHandOf self.now hand.new }
        ensures locks { hand.new.locks ≡ hand.old.locks }
        ensures same { view hand.new ≡ view hand.old }
        ensures room { IsRefOf (view hand.new) chunk result }
    {
        let word = self.page_word(chunk.page);
        let class = self.peek(&mut hand.seat, word);
        let size = self.classes().size(class);
        size / 8
    }
}
