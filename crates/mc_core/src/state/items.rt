//! Items that are linked, referred to, read and unlinked.
ghost use Rattle.std.specs.Prelude.{◌≡◌, ◌<◌, true, length, Some, OnOk};
ghost use Rattle.mc_stripe.specs.StripeState.{key_aside};
ghost use Rattle.mc_core.specs.model.Holdings.{has_fresh, is_complete, known_key, holding_words};
ghost use Rattle.mc_core.specs.model.State.{head_at, holdings_at, ids_at, stripe_of, stripe_at};
ghost use Rattle.mc_core.specs.run.Items.{head_after_link, head_after_unlink, head_after_refer, can_count, is_next_stamp, is_allowed_for, can_link_key, can_link_holding, can_link, state_after_link, can_record_link, with_recorded_link, with_rescued, with_set, is_none_else_aside, most_stamps, with_reference, chunk_of_key, can_look_up, can_refer, after_refer, with_got, can_unlink, state_after_unlink, can_again, can_word, can_word_held, after_word_held};

use super::State;
use crate::head::{Head, Tag};
use crate::holding::{Holding, Kind, Purpose};
use crate::ids::Ids;
use crate::look::Look;
use crate::{look, words};
use mc_classes::MOST_REFS;
use mc_memory::Refused;
use mc_pages::ChunkId;

/// The most stamps of a hand.
const MOST_STAMPS: u64 = 281_474_976_710_655;

impl Head {
    /// The header after its chunk is linked: the link counts 1.
    fn linked(self) -> Head
        requires { can_count self ≡ true }
        ensures { result ≡ head_after_link self }
    {
        Head {
            tag: Tag::Linked,
            count: self.count + 1,
            ..self
        }
    }

    /// The header after its chunk is unlinked.
    fn unlinked(self) -> Head
        ensures { result ≡ head_after_unlink self }
    {
        Head {
            tag: Tag::Unlinked,
            count: self.count.saturating_sub(1),
            ..self
        }
    }

    /// The header with one holder more.
    fn referred(self) -> Head
        requires { can_count self ≡ true }
        ensures { result ≡ head_after_refer self }
    {
        Head {
            count: self.count + 1,
            ..self
        }
    }

    /// Whether one more fits into the count's 16 bits.
    fn can_count(self) -> bool
        ensures { result ≡ can_count self }
    {
        self.count < u16::MAX
    }
}

impl Ids {
    /// Whether the stamp is the hand's next: its number times 2^48, plus a count from 1.
    fn is_next_stamp(self, stamp: u64) -> bool
        ensures { result ≡ is_next_stamp self stamp }
    {
        self.stamps < MOST_STAMPS
            && self.number.map(u64::from) == Some(stamp / (MOST_STAMPS + 1))
            && stamp % (MOST_STAMPS + 1) == self.stamps + 1
    }
}

impl State {
    /// Whether the stripe of the key is the hand's, has room for a call and an entry, and the key leads nowhere.
    fn can_link_key(&self, hand: u64, key: u64) -> bool
        ensures { result ≡ can_link_key self.now hand key }
    {
        let place = self.stripe_of(key);
        let stripe = &self.stripes[place as usize];
        self.has_stripe(hand, place) && stripe.can_store() && stripe.find(key).is_none()
    }

    /// Whether words and purpose of a fresh chunk are such that it can be linked.
    fn suits(&self, hand: u64, holding: &Holding) -> bool
        requires here { hand < length self.now.ids }
        requires complete { is_complete (holding_words holding.now) ≡ true }
        ensures { result ≡ is_allowed_for self.now hand
            (holding_words holding.now) holding.now.kind }
    {
        let key = holding.word(0);
        let stamp = holding.word(1);
        let stripe = &self.stripes[self.stripe_of(key) as usize];
        match &holding.kind {
            Kind::Reference(_) => false,
            Kind::Fresh(Purpose::Rescue(old, item), words) => {
                words::are_same(words::item_in(words.as_slice()), item.as_slice())
                    && stripe.entry_aside() == Some((key, (*old, stamp)))
            }
            Kind::Fresh(_, _) => {
                self.ids[hand as usize].is_next_stamp(stamp)
                    && stripe.aside().is_none_or(|other| other == key)
            }
        }
    }

    /// Whether the hand may link its fresh chunk.
    pub(super) fn can_link(&self, hand: u64, chunk: ChunkId) -> bool
        requires { hand < length self.now.ids }
        ensures { result ≡ can_link self.now hand chunk }
    {
        let Some(holding) = self.holding(hand, chunk) else {
            return false;
        };
        let Kind::Fresh(_, words) = &holding.kind else {
            return false;
        };
        let head = self.head(chunk);
        words::is_complete(words.as_slice())
            && (self.can_link_key(hand, holding.word(0)) && self.suits(hand, holding))
            && head.tag == Tag::Unlinked
            && head.can_count()
    }

    /// A fresh chunk is linked, under the key in its first word, and the hand refers to it.
    pub(super) fn link(&mut self, hand: u64, chunk: ChunkId) -> Result<(), Refused>
        requires here { hand < length self.old.ids }
        requires allowed { can_link self.old hand chunk ≡ true }
        ensures { OnOk result (self.new ≡ state_after_link self.old hand chunk) }
    {
        let Some(holding) = self.take_holding(hand, chunk) else {
            return Ok(());
        };
        let head = self.head(chunk).linked();
        self.tell_link(hand, &holding);
        self.set_head(chunk, head);
        let reference = holding.as_reference(self.alloc)?;
        self.gain(hand, reference)
    }

    /// The stripe of the key comes to know of the link, and a stamp is given out, but for a rescue.
    fn tell_link(&mut self, hand: u64, holding: &Holding)
        requires here { hand < length self.old.ids }
        requires allowed { can_record_link self.old hand holding.now ≡ true }
        ensures { self.new ≡ with_recorded_link self.old hand holding.now }
    {
        if let Kind::Fresh(Purpose::Rescue(_, _), _) = &holding.kind {
            self.tell_rescue(hand, holding);
        } else {
            self.tell_set(hand, holding);
        }
    }

    /// The stripe of the key comes to know of a rescue.
    fn tell_rescue(&mut self, hand: u64, holding: &Holding)
        requires key { can_link_key self.old hand (known_key (holding_words holding.now)) ≡ true }
        requires aside { key_aside (stripe_at self.old
            (stripe_of self.old (known_key (holding_words holding.now)))).state
            ≡ Some (known_key (holding_words holding.now)) }
        ensures { self.new ≡ with_rescued self.old hand holding.now }
    {
        let key = holding.word(0);
        let writer = self.writer(hand);
        let place = self.stripe_of(key);
        let stripe = &mut self.stripes[place as usize];
        stripe.rescue(writer, key, holding.chunk);
    }

    /// The stripe of the key comes to know of an item that is stored, and a stamp is given out.
    fn tell_set(&mut self, hand: u64, holding: &Holding)
        requires here { hand < length self.old.ids }
        requires key { can_link_key self.old hand (known_key (holding_words holding.now)) ≡ true }
        requires aside { is_none_else_aside (stripe_at self.old
            (stripe_of self.old (known_key (holding_words holding.now)))).state
            (known_key (holding_words holding.now)) ≡ true }
        requires stamps { (ids_at self.old hand).stamps < most_stamps }
        ensures { self.new ≡ with_set self.old hand holding.now }
    {
        let key = holding.word(0);
        let stamp = holding.word(1);
        let writer = self.writer(hand);
        let place = self.stripe_of(key);
        let stripe = &mut self.stripes[place as usize];
        stripe.link(writer, key, holding.chunk, stamp);
        let ids = &mut self.ids[hand as usize];
        ids.stamps += 1;
    }

    /// The hand refers to the item in the chunk.
    fn gain_reference(&mut self, hand: u64, chunk: ChunkId) -> Result<(), Refused>
        requires here { hand < length self.old.ids }
        requires room { can_count (head_at self.old chunk) ≡ true }
        ensures { OnOk result (self.new ≡ with_reference self.old hand chunk) }
    {
        let head = self.head(chunk);
        let words = self.item(chunk)?;
        self.set_head(chunk, head.referred());
        self.gain(
            hand,
            Holding {
                chunk,
                issue: head.issue,
                kind: Kind::Reference(words),
            },
        )
    }

    /// The chunk to which the key leads, and the stamp.
    fn chunk_of(&self, key: u64) -> Option<(ChunkId, u64)>
        ensures { result ≡ chunk_of_key self.now key }
    {
        let stripe = &self.stripes[self.stripe_of(key) as usize];
        stripe.find(key)
    }

    /// Whether the stripe of the key is the hand's, has room for a call, and the key isn't aside.
    fn can_look_up(&self, hand: u64, key: u64) -> bool
        ensures { result ≡ can_look_up self.now hand key }
    {
        let place = self.stripe_of(key);
        let stripe = &self.stripes[place as usize];
        self.has_stripe(hand, place) && stripe.is_ready() && stripe.aside() != Some(key)
    }

    /// Whether the hand may get a reference to the key's item.
    pub(super) fn can_refer(&self, hand: u64, key: u64) -> bool
        requires { hand < length self.now.ids }
        ensures { result ≡ can_refer self.now hand key }
    {
        if !self.can_look_up(hand, key) || !self.has_place(hand) {
            return false;
        }
        match self.chunk_of(key) {
            Some((chunk, _)) => {
                let head = self.head(chunk);
                head.tag == Tag::Linked && head.can_count()
            }
            None => false,
        }
    }

    /// The hand gets a reference to the key's item.
    pub(super) fn refer(&mut self, hand: u64, key: u64) -> Result<(), Refused>
        requires here { hand < length self.old.ids }
        requires allowed { can_refer self.old hand key ≡ true }
        ensures { OnOk result (self.new ≡ after_refer self.old hand key) }
    {
        let found = self.chunk_of(key);
        self.tell_got(hand, key, found);
        match found {
            Some((chunk, _)) => self.gain_reference(hand, chunk),
            None => Ok(()),
        }
    }

    /// The stripe of the key comes to know that the key was looked up, which found this.
    fn tell_got(&mut self, hand: u64, key: u64, found: Option<(ChunkId, u64)>)
        requires allowed { can_look_up self.old hand key ≡ true }
        requires found { found ≡ chunk_of_key self.old key }
        ensures { self.new ≡ with_got self.old hand key }
    {
        let writer = self.writer(hand);
        let place = self.stripe_of(key);
        let stripe = &mut self.stripes[place as usize];
        stripe.got(writer, key, found);
    }

    /// Whether the hand holds a fresh chunk.
    fn has_fresh(&self, hand: u64) -> bool
        requires { hand < length self.now.ids }
        ensures { result ≡ has_fresh (holdings_at self.now hand) }
    {
        self.holdings(hand).iter().any(|holding| holding.is_fresh())
    }

    /// Whether the hand may unlink the key.
    pub(super) fn can_unlink(&self, hand: u64, key: u64) -> bool
        requires { hand < length self.now.ids }
        ensures { result ≡ can_unlink self.now hand key }
    {
        if !self.can_look_up(hand, key) {
            return false;
        }
        if self.has_fresh(hand) && !self.has_none_aside(self.stripe_of(key)) {
            return false;
        }
        match self.chunk_of(key) {
            Some((chunk, _)) => self.head(chunk).tag == Tag::Linked,
            None => false,
        }
    }

    /// The key leads nowhere any more. A hand with a fresh chunk puts the entry aside.
    pub(super) fn unlink(&mut self, hand: u64, key: u64)
        requires here { hand < length self.old.ids }
        requires allowed { can_unlink self.old hand key ≡ true }
        ensures { self.new ≡ state_after_unlink self.old hand key }
    {
        let found = self.chunk_of(key);
        let lifts = self.has_fresh(hand);
        let writer = self.writer(hand);
        let place = self.stripe_of(key);
        let stripe = &mut self.stripes[place as usize];
        if lifts {
            stripe.lift(key);
        } else {
            stripe.unlink(writer, key);
        }
        if let Some((chunk, _)) = found {
            let head = self.head(chunk).unlinked();
            self.set_head(chunk, head);
        }
    }

    /// Whether the hand may get a reference to the chunk without a lock.
    pub(super) fn can_again(&self, hand: u64, chunk: ChunkId, issue: u64) -> bool
        requires { hand < length self.now.ids }
        ensures { result ≡ can_again self.now hand chunk issue }
    {
        let head = self.head(chunk);
        self.has_chunk(chunk)
            && (self.holdings(hand).len() as u64) < MOST_REFS
            && head.tag == Tag::Linked
            && head.issue == issue
            && head.can_count()
    }

    /// The hand gets a reference to the chunk.
    pub(super) fn again(&mut self, hand: u64, chunk: ChunkId, issue: u64) -> Result<(), Refused>
        requires here { hand < length self.old.ids }
        requires allowed { can_again self.old hand chunk issue ≡ true }
        ensures { OnOk result (self.new ≡ with_reference self.old hand chunk) }
    {
        self.gain_reference(hand, chunk)
    }

    /// Whether the hand may read such a word of an item that it refers to.
    pub(super) fn can_word(&self, hand: u64, chunk: ChunkId, place: u64) -> bool
        requires { hand < length self.now.ids }
        ensures { result ≡ can_word self.now hand chunk place }
    {
        match self.holding(hand, chunk) {
            Some(holding) => match &holding.kind {
                Kind::Reference(item) => place < item.as_slice().len() as u64,
                Kind::Fresh(_, _) => false,
            },
            None => false,
        }
    }

    /// Whether the hand may read such a word of a chunk that it found linked under the slabs lock.
    pub(super) fn can_word_held(&self, hand: u64, chunk: ChunkId, place: u64) -> bool
        requires { hand < length self.now.ids }
        ensures { result ≡ can_word_held self.now hand chunk place }
    {
        self.has_slabs(hand)
            && self.has_chunk(chunk)
            && look::was_linked(self.looks(hand), chunk)
            && place < self.room(chunk)
    }

    /// The hand reads a word of a chunk under the slabs lock.
    pub(super) fn word_held(&mut self, hand: u64, chunk: ChunkId, place: u64) -> Result<(), Refused>
        requires { hand < length self.old.ids }
        ensures { OnOk result (self.new ≡ after_word_held self.old hand chunk place) }
    {
        let word = self.word(chunk, place);
        self.note(hand, Look::Read(chunk, place, word))
    }
}
