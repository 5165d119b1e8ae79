//! Chunks that are handed out, filled, given up, put back, cleared and cut.
ghost use Rattle.std.specs.Prelude.{◌≡◌, ◌<◌, true, length, None, Some, IfOk, OnOk, replicate};
ghost use Rattle.std.specs.Option.{option_map};
ghost use Rattle.mc_pages.specs.Pages.{is_on_the_move};
ghost use Rattle.mc_core.specs.model.Holdings.{holding_of};
ghost use Rattle.mc_core.specs.model.State.{head_at, chunk_room, holdings_at};
ghost use Rattle.mc_core.specs.run.Chunks.{has_place, can_hand_out, with_fresh, next_free, can_pop, state_after_pop, target_of, can_pop_off, after_pop_off, can_fill, after_fill, holds_as, can_discard, can_release, after_drop, can_put_back, after_put_back, can_clear, state_after_clear, can_cut, state_after_cut, head_after_hand_out, head_after_release, with_tag_free, with_tag_out, most_issue};

use super::State;
use crate::head::{Head, Tag};
use crate::holding;
use crate::holding::{Holding, Kind, Purpose};
use crate::limits::MOST_HOLDINGS;
use crate::look::Look;
use crate::series::Series;
use mc_classes::{ClassId, PageId};
use mc_memory::Refused;
use mc_pages::ChunkId;

/// The greatest issue number, with which a chunk is used up.
const MOST_ISSUE: u64 = 70_368_744_177_663;

impl Head {
    /// The header after its chunk is handed out: the next issue, one holder.
    fn handed_out(self) -> Head
        requires { self.issue < most_issue }
        ensures { result ≡ head_after_hand_out self }
    {
        Head {
            issue: self.issue + 1,
            tag: Tag::Unlinked,
            count: 1,
        }
    }

    /// The header with one holder less.
    fn let_go(self) -> Head
        ensures { result ≡ head_after_release self }
    {
        Head {
            count: self.count.saturating_sub(1),
            ..self
        }
    }

    /// The chunk is free.
    fn with_tag_free(self) -> Head
        ensures { result ≡ with_tag_free self }
    {
        Head {
            tag: Tag::Free,
            ..self
        }
    }

    /// The chunk is out.
    fn with_tag_out(self) -> Head
        ensures { result ≡ with_tag_out self }
    {
        Head {
            tag: Tag::Out,
            ..self
        }
    }
}

impl State {
    /// Whether the hand may hold one more chunk.
    pub(super) fn has_place(&self, hand: u64) -> bool
        requires { hand < length self.now.ids }
        ensures { result ≡ has_place self.now hand }
    {
        (self.holdings(hand).len() as u64) < MOST_HOLDINGS
    }

    /// Whether the chunk is there, free and not used up.
    fn can_hand_out(&self, chunk: Option<ChunkId>) -> bool
        ensures { result ≡ can_hand_out self.now chunk }
    {
        match chunk {
            Some(chunk) => {
                let head = self.head(chunk);
                head.tag == Tag::Free && head.issue < MOST_ISSUE
            }
            None => false,
        }
    }

    /// The chunk is handed out to the hand.
    fn hand_out(&mut self, hand: u64, chunk: ChunkId, purpose: Purpose) -> Result<Head, Refused>
        requires here { hand < length self.old.ids }
        requires free { can_hand_out self.old (Some chunk) ≡ true }
        ensures head { IfOk result (λ head. head ≡ head_after_hand_out (head_at self.old chunk)) }
        ensures fresh { OnOk result (self.new ≡ with_fresh self.old hand chunk purpose) }
    {
        let head = self.head(chunk).handed_out();
        let words = self.blank(chunk)?;
        self.set_head(chunk, head);
        self.gain(
            hand,
            Holding {
                chunk,
                issue: head.issue,
                kind: Kind::Fresh(purpose, words),
            },
        )?;
        Ok(head)
    }

    /// No word of the chunk is filled.
    #[tactic(auto, using(crate::proofs::Steps::Lists::replicate_more))]
    fn blank(&self, chunk: ChunkId) -> Result<Series<Option<u64>>, Refused>
        ensures { IfOk result (λ words. words ≡ replicate (chunk_room self.now chunk) None) }
    {
        let mut words = Series::new(self.alloc);
        for _ in 0..self.room(chunk) {
            words.push(None)?;
        }
        Ok(words)
    }

    /// The chunk that the class hands out next.
    pub(super) fn next_free(&self, class: ClassId) -> Option<ChunkId>
        ensures { result ≡ next_free self.now class }
    {
        let class = class.max(1);
        if class <= self.table.count() {
            self.slabs.first_free(class)
        } else {
            None
        }
    }

    /// Whether the hand may be handed out the class's next free chunk.
    pub(super) fn can_pop(&self, hand: u64, class: ClassId) -> bool
        requires { hand < length self.now.ids }
        ensures { result ≡ can_pop self.now hand class }
    {
        self.has_slabs(hand)
            && self.is_class(class)
            && self.has_place(hand)
            && self.can_hand_out(self.next_free(class))
    }

    /// The class's next free chunk is handed out.
    pub(super) fn pop(&mut self, hand: u64, class: ClassId) -> Result<(), Refused>
        requires here { hand < length self.old.ids }
        requires allowed { can_pop self.old hand class ≡ true }
        ensures { OnOk result (self.new ≡ state_after_pop self.old hand class) }
    {
        if let Some(chunk) = self.list_pop(class) {
            let head = self.hand_out(hand, chunk, Purpose::Item)?;
            self.note(hand, Look::Popped(chunk, head))?;
        }
        Ok(())
    }

    /// Whether the page is on the move.
    pub(super) fn is_on_the_move(&self, page: PageId) -> bool
        ensures { result ≡ is_on_the_move self.now.slabs page }
    {
        self.slabs
            .moving()
            .is_some_and(|moving| moving.page == page)
    }

    /// The first free chunk that an item of the page can be taken to.
    pub(super) fn target(&self, page: PageId) -> Result<Option<ChunkId>, Refused>
        ensures { IfOk result (λ target.
            target ≡ target_of self.now.table self.now.heads self.now.slabs page) }
    {
        let free = self.free(self.class_of_page(page))?;
        Ok(
            free.iter().copied().find(|chunk| chunk.page != page
                && self.head(*chunk).issue < MOST_ISSUE),
        )
    }

    /// Whether the hand may be handed out a free chunk off the moving page, in the place of this one.
    pub(super) fn can_pop_off(&self, hand: u64, old: ChunkId) -> Result<bool, Refused>
        requires { hand < length self.now.ids }
        ensures { IfOk result (λ can. can ≡ can_pop_off self.now hand old) }
    {
        if !self.has_slabs(hand)
            || !self.is_on_the_move(old.page)
            || !self.is_handed_out(old)?
            || !self.has_place(hand)
        {
            return Ok(false);
        }
        let target = self.target(old.page)?;
        Ok(self.can_hand_out(target))
    }

    /// A free chunk off the moving page is handed out, and takes the place of this one.
    pub(super) fn pop_off(&mut self, hand: u64, old: ChunkId) -> Result<(), Refused>
        requires here { hand < length self.old.ids }
        requires allowed { can_pop_off self.old hand old ≡ true }
        ensures { OnOk result (self.new ≡ after_pop_off self.old hand old) }
    {
        if let Some(chunk) = self.target(old.page)? {
            self.list_replace(chunk, old);
            let head = self.hand_out(hand, chunk, Purpose::Copy(old))?;
            self.note(hand, Look::PoppedOff(chunk, old, head))?;
        }
        Ok(())
    }

    /// Whether the hand holds the chunk fresh, and it has such a place.
    pub(super) fn can_fill(&self, hand: u64, chunk: ChunkId, place: u64) -> bool
        requires { hand < length self.now.ids }
        ensures { result ≡ can_fill self.now hand chunk place }
    {
        match self.holding(hand, chunk) {
            Some(holding) => match &holding.kind {
                Kind::Fresh(_, words) => place < words.as_slice().len() as u64,
                Kind::Reference(_) => false,
            },
            None => false,
        }
    }

    /// A word of a fresh chunk is written.
    pub(super) fn fill(&mut self, hand: u64, chunk: ChunkId, place: u64, word: u64)
        requires { hand < length self.old.ids }
        ensures { self.new ≡ after_fill self.old hand chunk place word }
    {
        holding::fill_chunk(&mut self.holdings[hand as usize], chunk, place, word);
        self.set_word(chunk, place, word);
    }

    /// Whether the hand's first holding of the chunk is fresh, or isn't.
    fn holds_as(&self, hand: u64, chunk: ChunkId, fresh: bool) -> bool
        requires { hand < length self.now.ids }
        ensures { result ≡ holds_as fresh (holding_of chunk (holdings_at self.now hand)) }
    {
        match self.holding(hand, chunk) {
            Some(holding) => holding.is_fresh() == fresh,
            None => false,
        }
    }

    /// Whether the hand holds the chunk fresh.
    pub(super) fn can_discard(&self, hand: u64, chunk: ChunkId) -> bool
        requires { hand < length self.now.ids }
        ensures { result ≡ can_discard self.now hand chunk }
    {
        self.holds_as(hand, chunk, true)
    }

    /// Whether the hand has a reference to the chunk.
    pub(super) fn can_release(&self, hand: u64, chunk: ChunkId) -> bool
        requires { hand < length self.now.ids }
        ensures { result ≡ can_release self.now hand chunk }
    {
        self.holds_as(hand, chunk, false)
    }

    /// A holding is given up.
    pub(super) fn drop_holding(&mut self, hand: u64, chunk: ChunkId)
        requires { hand < length self.old.ids }
        ensures { self.new ≡ after_drop self.old hand chunk }
    {
        let head = self.head(chunk).let_go();
        self.set_head(chunk, head);
        self.take_holding(hand, chunk);
    }

    /// Whether the hand may put the chunk on its free list: it is dead.
    pub(super) fn can_put_back(&self, hand: u64, chunk: ChunkId) -> Result<bool, Refused>
        ensures { IfOk result (λ can. can ≡ can_put_back self.now hand chunk) }
    {
        if !self.has_slabs(hand) || !self.has_chunk(chunk) || !self.head(chunk).is_dead() {
            return Ok(false);
        }
        self.is_handed_out(chunk)
    }

    /// A dead chunk goes to its free list.
    pub(super) fn put_back(&mut self, hand: u64, chunk: ChunkId) -> Result<(), Refused>
        requires here { hand < length self.old.ids }
        requires allowed { can_put_back self.old hand chunk ≡ true }
        ensures { OnOk result (self.new ≡ after_put_back self.old hand chunk) }
    {
        let head = self.head(chunk).with_tag_free();
        self.list_back(chunk);
        self.set_noted_head(hand, chunk, head, Look::PutBack(chunk, head))
    }

    /// Whether the hand may clear the chunk: it is free or dead, and its page moves.
    pub(super) fn can_clear(&self, hand: u64, chunk: ChunkId) -> Result<bool, Refused>
        ensures { IfOk result (λ can. can ≡ can_clear self.now hand chunk) }
    {
        let head = self.head(chunk);
        let is_unused = head.tag == Tag::Free || head.is_dead();
        if !self.has_slabs(hand)
            || !self.has_chunk(chunk)
            || !self.is_on_the_move(chunk.page)
            || !is_unused
        {
            return Ok(false);
        }
        self.is_listed(self.class_of_page(chunk.page), chunk)
    }

    /// A free or dead chunk of the moving page is cleared.
    pub(super) fn clear(&mut self, hand: u64, chunk: ChunkId) -> Result<(), Refused>
        requires here { hand < length self.old.ids }
        requires allowed { can_clear self.old hand chunk ≡ true }
        ensures { OnOk result (self.new ≡ state_after_clear self.old hand chunk) }
    {
        let head = self.head(chunk).with_tag_out();
        self.list_clear(chunk);
        self.set_noted_head(hand, chunk, head, Look::Cleared(chunk, head))
    }

    /// Whether the hand may cut the chunk: it is the next of a page just given.
    pub(super) fn can_cut(&self, hand: u64, chunk: ChunkId) -> bool
        ensures { result ≡ can_cut self.now hand chunk }
    {
        self.has_slabs(hand)
            && self.has_chunk(chunk)
            && self.slabs.next_uncut() == Some(chunk)
            && self.head(chunk).tag == Tag::Out
    }

    /// A chunk of a page just given is cut.
    pub(super) fn cut(&mut self, hand: u64, chunk: ChunkId) -> Result<(), Refused>
        requires here { hand < length self.old.ids }
        requires allowed { can_cut self.old hand chunk ≡ true }
        ensures { OnOk result (self.new ≡ state_after_cut self.old hand chunk) }
    {
        let head = self.head(chunk).with_tag_free();
        self.list_cut(chunk);
        self.set_noted_head(hand, chunk, head, Look::Cut(chunk, head))
    }
}
