//! References that are given up.
ghost use Rattle.std.specs.Prelude.{◌≡◌, []};
ghost use Rattle.mc_core.specs.declared.event.Step.TheVariants as step;
ghost use Rattle.mc_words.specs.hand.Arenas.{IsHandOf, view};
ghost use Rattle.mc_words.specs.rule.Happens.{Happens};
ghost use Rattle.mc_words.specs.item.Refs.{IsRefOf};
ghost use Rattle.mc_words.specs.hand.Views.{chunk_released};

use crate::arena::Arena;
use crate::hand::Hand;
use crate::item::refs::Ref;
use mc_core::Step;

impl Arena {
    /// Gives a reference up. It takes no lock. The last one of an unlinked item leaves its chunk dead. (memcached's
    /// `do_item_remove`)
    #[inline(always)]
    pub fn release(&self, hand: &mut Hand, reference: Ref)
        requires arena { IsHandOf self.now hand.old }
        requires reference { IsRefOf (view hand.old) reference.chunk reference.room }
        ensures arena { IsHandOf self.now hand.new }
        ensures locks { hand.new.locks ≡ hand.old.locks }
        ensures happens { Happens (view hand.old) [] (step.Release reference.chunk)
            (view hand.new) }
        ensures dropped { view hand.new ≡ chunk_released reference.chunk (view hand.old) }
    {
        let Ref {
            chunk,
            issue: _,
            room: _,
        } = reference;
        let word = self.head_word(chunk);
        let found = self.subtract(&mut hand.seat, word, 1, Step::Release(chunk));
        self.hints.note_if_dead(chunk, found.wrapping_sub(1));
        hand.chunks -= 1;
    }
}
