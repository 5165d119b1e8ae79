//! Items that are taken away from their chunks, to make room or since their page moves.
ghost use Rattle.std.specs.Prelude.{◌≡◌, ◌<◌, true, length, is_some, IfOk, OnOk};
ghost use Rattle.mc_pages.specs.Changes.{next_page};
ghost use Rattle.mc_pages.specs.SlabState.{class_of_page};
ghost use Rattle.mc_core.specs.model.State.{stripe_of, stripe_at, with_stripe, holdings_at, looks_at};
ghost use Rattle.mc_core.specs.run.Silent.{writer_of};
ghost use Rattle.mc_core.specs.run.Evictions.{has_copy, none_dead, must_leave, lacks_room, has_reason, is_linked_unheld, can_lose_entry, can_condemn, head_after_condemn, stripe_condemned, with_bound, after_condemn};

use super::State;
use crate::head::{Head, Tag};
use crate::look::Look;
use crate::{holding, look};
use mc_classes::PageId;
use mc_memory::Refused;
use mc_pages::ChunkId;

impl Head {
    /// Whether the chunk is linked and nobody holds it.
    fn is_linked_unheld(self) -> bool
        ensures { result ≡ is_linked_unheld self }
    {
        self.tag == Tag::Linked && self.count == 1
    }

    /// The header after its chunk's item was taken away.
    fn condemned(self) -> Head
        ensures { result ≡ head_after_condemn self }
    {
        Head {
            tag: Tag::Unlinked,
            count: 0,
            ..self
        }
    }
}

impl State {
    /// Whether the hand got a fresh chunk for a copy of this one.
    fn has_copy(&self, hand: u64, chunk: ChunkId) -> bool
        requires { hand < length self.now.ids }
        ensures { result ≡ has_copy (holdings_at self.now hand) chunk }
    {
        self.holdings(hand)
            .iter()
            .any(|holding| holding.is_copy_of(chunk))
    }

    /// Whether no handed-out chunk of the chunk's class is dead, as far as the hand saw.
    fn none_dead(&self, hand: u64, chunk: ChunkId) -> Result<bool, Refused>
        requires { hand < length self.now.ids }
        ensures { IfOk result (λ none. none ≡ none_dead self.now.slabs
            (looks_at self.now hand) chunk) }
    {
        let order = self.order(self.class_of_page(chunk.page))?;
        let looks = self.looks(hand);
        Ok(
            order
                .iter()
                .all(|other| look::is_found_alive(looks, *other)),
        )
    }

    /// Whether the page moves, and there is no other chunk for the item.
    fn must_leave(&self, hand: u64, chunk: ChunkId) -> Result<bool, Refused>
        requires { hand < length self.now.ids }
        ensures { IfOk result (λ must.
            must ≡ must_leave self.now.table self.now.heads self.now.slabs
            (looks_at self.now hand) chunk) }
    {
        if !self.is_on_the_move(chunk.page) || !self.none_dead(hand, chunk)? {
            return Ok(false);
        }
        Ok(self.target(chunk.page)?.is_none())
    }

    /// Whether a page is to be had for the class of this one.
    fn has_page_for(&self, page: PageId) -> bool
        ensures { result ≡ is_some (next_page self.now.slabs (class_of_page self.now.slabs page)) }
    {
        let class = self.class_of_page(page).max(1);
        self.slabs.has_page_for(class)
    }

    /// Whether the class has neither a free chunk nor a dead one, and no page is to be had.
    fn lacks_room(&self, hand: u64, chunk: ChunkId) -> Result<bool, Refused>
        requires { hand < length self.now.ids }
        ensures { IfOk result (λ lacks. lacks ≡ lacks_room self.now.slabs
            (looks_at self.now hand) chunk) }
    {
        let has_free = self.next_free(self.class_of_page(chunk.page)).is_some();
        if has_free || !self.none_dead(hand, chunk)? {
            return Ok(false);
        }
        Ok(!self.has_page_for(chunk.page) && self.none_half_cut())
    }

    /// Whether an item may be taken away for a reason.
    fn has_reason(&self, hand: u64, chunk: ChunkId) -> Result<bool, Refused>
        requires { hand < length self.now.ids }
        ensures { IfOk result (λ has. has ≡ has_reason self.now.table self.now.heads self.now.slabs
            (looks_at self.now hand) (holdings_at self.now hand) chunk) }
    {
        if self.is_on_the_move(chunk.page) && self.has_copy(hand, chunk) {
            return Ok(true);
        }
        if self.must_leave(hand, chunk)? {
            return Ok(true);
        }
        self.lacks_room(hand, chunk)
    }

    /// Whether the stripe has room for a call, the key is there, and its entry can be put aside where it must.
    fn can_lose_entry(&self, key: u64, rescues: bool) -> bool
        ensures { result ≡ can_lose_entry (stripe_at self.now (stripe_of self.now key)) key
            rescues }
    {
        let stripe = &self.stripes[self.stripe_of(key) as usize];
        stripe.is_ready() && stripe.find(key).is_some() && (!rescues || stripe.aside().is_none())
    }

    /// Whether the hand may take the item of the chunk away.
    pub(super) fn can_condemn(&self, hand: u64, chunk: ChunkId) -> Result<bool, Refused>
        requires { hand < length self.now.ids }
        ensures { IfOk result (λ can. can ≡ can_condemn self.now hand chunk) }
    {
        let key = self.word(chunk, 0);
        let is_open = self.has_slabs(hand)
            && self.has_chunk(chunk)
            && self.head(chunk).is_linked_unheld();
        if !is_open
            || !self.has_stripe(hand, self.stripe_of(key))
            || !self.can_lose_entry(key, self.has_copy(hand, chunk))
        {
            return Ok(false);
        }
        self.has_reason(hand, chunk)
    }

    /// The item of the chunk is taken away: it is evicted, or its copy is to have its words.
    pub(super) fn condemn(&mut self, hand: u64, chunk: ChunkId) -> Result<(), Refused>
        requires here { hand < length self.old.ids }
        requires allowed { can_condemn self.old hand chunk ≡ true }
        ensures { OnOk result (self.new ≡ after_condemn self.old hand chunk) }
    {
        let key = self.word(chunk, 0);
        let item = self.item(chunk)?;
        let head = self.head(chunk).condemned();
        let rescues = self.has_copy(hand, chunk);
        self.tell_condemn(hand, key, rescues);
        self.bind(hand, chunk, item.as_slice())?;
        self.set_noted_head(hand, chunk, head, Look::Condemned(chunk, head))
    }

    /// Each copy of this chunk that the hand holds is to have these words.
    fn bind(&mut self, hand: u64, chunk: ChunkId, item: &[u64]) -> Result<(), Refused>
        requires { hand < length self.old.ids }
        ensures { OnOk result (self.new ≡ with_bound self.old hand chunk item.now) }
    {
        holding::bind_copies(self.alloc, &mut self.holdings[hand as usize], chunk, item)
    }

    /// The stripe of the key comes to know: its entry is put aside, or evicted.
    fn tell_condemn(&mut self, hand: u64, key: u64, rescues: bool)
        requires { can_lose_entry (stripe_at self.old (stripe_of self.old key)) key rescues ≡ true }
        ensures { self.new ≡ with_stripe self.old (stripe_of self.old key)
            (stripe_condemned (stripe_at self.old (stripe_of self.old key)) rescues
            (writer_of self.old hand) key) }
    {
        let writer = self.writer(hand);
        let place = self.stripe_of(key);
        let stripe = &mut self.stripes[place as usize];
        if rescues {
            stripe.lift(key);
        } else {
            stripe.evict(writer, key);
        }
    }
}
