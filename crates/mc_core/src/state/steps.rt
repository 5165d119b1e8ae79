//! Events, played one after another: whether a step is allowed, and what it does.
ghost use Rattle.std.specs.Prelude.{◌≡◌, ◌<◌, true, length, IfOk, OnOk};
ghost use Rattle.mc_core.specs.run.Done.{IsResultOf};
ghost use Rattle.mc_core.specs.run.Run.{allows_step, after_step, is_allowed, state_after_event};

use super::State;
use crate::event::{Event, Step};
use mc_memory::Refused;
use mc_pages::ChunkId;

impl State {
    /// Whether the hand may do this.
    fn allows_step(&self, hand: u64, step: Step) -> Result<bool, Refused>
        requires { hand < length self.now.ids }
        ensures { IfOk result (λ allowed. allowed ≡ allows_step self.now hand step) }
    {
        match step {
            Step::TakeSlabs => Ok(self.can_take_slabs()),
            Step::TakeStripe(stripe) => Ok(self.can_take_stripe(stripe)),
            Step::MissSlabs => Ok(true),
            Step::MissStripe(stripe) => Ok(self.has_stripes(stripe)),
            Step::GiveSlabs => Ok(self.can_give_slabs(hand)),
            Step::GiveStripe(stripe) => Ok(self.can_give_stripe(hand, stripe)),
            Step::Head(chunk) => Ok(self.has_chunk(chunk)),
            Step::Pop(class) => Ok(self.can_pop(hand, class)),
            Step::PopOff(old) => self.can_pop_off(hand, old),
            Step::Fill(chunk, place, _) => Ok(self.can_fill(hand, chunk, place)),
            Step::Word(chunk, place) => Ok(self.can_word(hand, chunk, place)),
            Step::WordHeld(chunk, place) => Ok(self.can_word_held(hand, chunk, place)),
            Step::Link(chunk) => Ok(self.can_link(hand, chunk)),
            Step::Refer(key) => Ok(self.can_refer(hand, key)),
            Step::Unlink(key) => Ok(self.can_unlink(hand, key)),
            Step::Release(chunk) => Ok(self.can_release(hand, chunk)),
            Step::Discard(chunk) => Ok(self.can_discard(hand, chunk)),
            Step::Condemn(chunk) => self.can_condemn(hand, chunk),
            Step::PutBack(chunk) => self.can_put_back(hand, chunk),
            Step::Clear(chunk) => self.can_clear(hand, chunk),
            Step::Cut(page, index) => Ok(self.can_cut(hand, ChunkId { page, index })),
            Step::Again(chunk, issue) => Ok(self.can_again(hand, chunk, issue)),
            Step::Join(kept, spent) => Ok(self.can_join(hand, kept, spent)),
        }
    }

    /// The hand does what it may.
    fn do_step(&mut self, hand: u64, step: Step) -> Result<(), Refused>
        requires here { hand < length self.old.ids }
        requires allowed { allows_step self.old hand step ≡ true }
        ensures { OnOk result (self.new ≡ after_step self.old hand step) }
    {
        match step {
            Step::TakeSlabs => self.take_slabs(hand),
            Step::TakeStripe(stripe) => self.take_stripe(hand, stripe),
            Step::MissSlabs | Step::Word(_, _) => {}
            Step::MissStripe(stripe) => self.miss_stripe(hand, stripe)?,
            Step::GiveSlabs => self.give_slabs(),
            Step::GiveStripe(stripe) => self.give_stripe(stripe),
            Step::Head(chunk) => self.look(hand, chunk)?,
            Step::Pop(class) => self.pop(hand, class)?,
            Step::PopOff(old) => self.pop_off(hand, old)?,
            Step::Fill(chunk, place, word) => self.fill(hand, chunk, place, word),
            Step::WordHeld(chunk, place) => self.word_held(hand, chunk, place)?,
            Step::Link(chunk) => self.link(hand, chunk)?,
            Step::Refer(key) => self.refer(hand, key)?,
            Step::Unlink(key) => self.unlink(hand, key),
            Step::Release(chunk) | Step::Discard(chunk) => self.drop_holding(hand, chunk),
            Step::Condemn(chunk) => self.condemn(hand, chunk)?,
            Step::PutBack(chunk) => self.put_back(hand, chunk)?,
            Step::Clear(chunk) => self.clear(hand, chunk)?,
            Step::Cut(page, index) => self.cut(hand, ChunkId { page, index })?,
            Step::Again(chunk, issue) => self.again(hand, chunk, issue)?,
            Step::Join(_, spent) => self.join(spent),
        }
        Ok(())
    }

    /// Does the event, if it is allowed.
    pub(crate) fn play(&mut self, event: &Event) -> Result<bool, Refused>
        ensures { IfOk result (IsResultOf (is_allowed self.old event.now)
            (state_after_event self.old event.now) self.new) }
    {
        let is_hand = self.is_hand(event.hand);
        if !is_hand {
            return Ok(false);
        }
        let is_ready = self.change_all(event.hand, event.before.as_slice())?;
        if !is_ready {
            return Ok(false);
        }
        let is_allowed = self.allows_step(event.hand, event.step)?;
        if !is_allowed {
            return Ok(false);
        }
        self.do_step(event.hand, event.step)?;
        Ok(true)
    }
}
