//! The columns of the state: headers, words, hands and holdings, read and written.
ghost use Rattle.std.specs.Prelude.{◌≡◌, ◌^◌, ◌<◌, [], length, slice_index, IfOk, OnOk};
ghost use Rattle.std.specs.List.{position};
ghost use Rattle.std.specs.Option.{option_map};
ghost use Rattle.mc_core.specs.model.Holdings.{is_of_chunk, holding_of, without_first};
ghost use Rattle.mc_core.specs.model.State.{with_head, word_at, with_word, item_at, number_at, is_hand, is_held_by, has_slabs, has_stripe, stripe_of, holdings_at, with_holding, without_holding, looks_at, with_look, with_looks};
ghost use Rattle.mc_core.specs.run.Silent.{writer_of};
ghost use Rattle.mc_core.specs.run.Locks.{lock_word, state_after_look};

use super::State;
use crate::head::Head;
use crate::holding::Holding;
use crate::look::Look;
use crate::series::Series;
use mc_memory::Refused;
use mc_pages::ChunkId;

/// The word of a lock records that the hand of this number has the lock.
pub(super) fn is_held_by(word: u64, number: Option<u8>) -> bool
    ensures { result ≡ is_held_by word number }
{
    match number {
        Some(number) => word == u64::from(number) + 1,
        None => false,
    }
}

/// The place of the first holding of the chunk.
fn place_of(holdings: &[Holding], chunk: ChunkId) -> Option<usize>
    ensures { result ≡ position (is_of_chunk chunk) holdings.now }
{
    holdings.iter().position(|holding| holding.chunk == chunk)
}

/// Takes the first holding of the chunk.
fn take_of(holdings: &mut Series<Holding>, chunk: ChunkId) -> Option<Holding>
    ensures holding { result ≡ holding_of chunk holdings.old }
    ensures without { holdings.new ≡ without_first (is_of_chunk chunk) holdings.old }
{
    match place_of(holdings.as_slice(), chunk) {
        Some(place) => Some(holdings.remove(place)),
        None => None,
    }
}

impl State {
    /// Writes a header.
    pub(super) fn set_head(&mut self, chunk: ChunkId, head: Head)
        requires { head.issue < 2 ^ 46 }
        ensures { self.new ≡ with_head self.old chunk head }
    {
        if let Some(place) = self.head_place(chunk) {
            self.heads[place] = head;
        }
    }

    /// A word of a chunk.
    pub(super) fn word(&self, chunk: ChunkId, place: u64) -> u64
        ensures { result ≡ word_at self.now chunk place }
    {
        match self.word_place(chunk, place) {
            Some(found) => self.words[found],
            None => 0,
        }
    }

    /// Writes a word of a chunk.
    pub(super) fn set_word(&mut self, chunk: ChunkId, place: u64, word: u64)
        ensures { self.new ≡ with_word self.old chunk place word }
    {
        if let Some(found) = self.word_place(chunk, place) {
            self.words[found] = word;
        }
    }

    /// The words of the item in a chunk.
    #[tactic(auto, using(crate::proofs::Steps::Lists::map_range_more))]
    pub(super) fn item(&self, chunk: ChunkId) -> Result<Series<u64>, Refused>
        ensures { IfOk result (λ words. words ≡ item_at self.now chunk) }
    {
        let length = self.word(chunk, 2).saturating_add(3).min(self.room(chunk));
        let mut words = Series::new(self.alloc);
        for place in 0..length {
            words.push(self.word(chunk, place))?;
        }
        Ok(words)
    }

    /// The number of a hand.
    pub(super) fn number(&self, hand: u64) -> Option<u8>
        ensures { result ≡ number_at self.now hand }
    {
        if hand < self.ids.len() as u64 {
            self.ids[hand as usize].number
        } else {
            None
        }
    }

    /// Whether the hand is there.
    pub(super) fn is_hand(&self, hand: u64) -> bool
        ensures { result ≡ is_hand self.now hand }
    {
        self.number(hand).is_some()
    }

    /// The number that the hand writes into histories.
    pub(super) fn writer(&self, hand: u64) -> u64
        ensures { result ≡ writer_of self.now hand }
    {
        u64::from(self.number(hand).unwrap_or(0))
    }

    /// The word of a lock that the hand has.
    pub(super) fn lock_word(&self, hand: u64) -> u64
        ensures { result ≡ lock_word self.now hand }
    {
        match self.number(hand) {
            Some(number) => u64::from(number) + 1,
            None => 0,
        }
    }

    /// Whether the hand has the slabs lock.
    pub(super) fn has_slabs(&self, hand: u64) -> bool
        ensures { result ≡ has_slabs self.now hand }
    {
        is_held_by(self.slabs_lock, self.number(hand))
    }

    /// The word of a stripe's lock.
    pub(super) fn stripe_lock(&self, stripe: u64) -> u64
        ensures { result ≡ slice_index self.now.stripe_locks stripe }
    {
        if stripe < self.stripe_locks.len() as u64 {
            self.stripe_locks[stripe as usize]
        } else {
            0
        }
    }

    /// Whether the hand has the lock of the stripe.
    pub(super) fn has_stripe(&self, hand: u64, stripe: u64) -> bool
        ensures { result ≡ has_stripe self.now hand stripe }
    {
        is_held_by(self.stripe_lock(stripe), self.number(hand))
    }

    /// The stripe of a key.
    pub(super) fn stripe_of(&self, key: u64) -> u64
        ensures stripe { result ≡ stripe_of self.now key }
        ensures there { result < length self.now.stripes }
    {
        key % self.stripes.len() as u64
    }

    /// What the hand holds.
    pub(super) fn holdings(&self, hand: u64) -> &[Holding]
        requires { hand < length self.now.ids }
        ensures { result.now ≡ holdings_at self.now hand }
    {
        self.holdings[hand as usize].as_slice()
    }

    /// The first holding of the chunk.
    pub(super) fn holding(&self, hand: u64, chunk: ChunkId) -> Option<&Holding>
        requires { hand < length self.now.ids }
        ensures { option_map (λ holding. holding.now) result
            ≡ holding_of chunk (holdings_at self.now hand) }
    {
        self.holdings(hand)
            .iter()
            .find(|holding| holding.chunk == chunk)
    }

    /// The hand holds one more chunk.
    pub(super) fn gain(&mut self, hand: u64, holding: Holding) -> Result<(), Refused>
        requires { hand < length self.old.ids }
        ensures { OnOk result (self.new ≡ with_holding self.old hand holding) }
    {
        let holdings = &mut self.holdings[hand as usize];
        holdings.push(holding)
    }

    /// Takes the hand's first holding of the chunk away from it.
    pub(super) fn take_holding(&mut self, hand: u64, chunk: ChunkId) -> Option<Holding>
        requires { hand < length self.old.ids }
        ensures holding { result ≡ holding_of chunk (holdings_at self.old hand) }
        ensures without { self.new ≡ without_holding self.old hand (is_of_chunk chunk) }
    {
        take_of(&mut self.holdings[hand as usize], chunk)
    }

    /// What the hand saw under the slabs lock.
    pub(super) fn looks(&self, hand: u64) -> &[Look]
        requires { hand < length self.now.ids }
        ensures { result.now ≡ looks_at self.now hand }
    {
        self.looks[hand as usize].as_slice()
    }

    /// Notes what the hand saw or did.
    pub(super) fn note(&mut self, hand: u64, look: Look) -> Result<(), Refused>
        requires { hand < length self.old.ids }
        ensures { OnOk result (self.new ≡ with_look self.old hand look) }
    {
        let looks = &mut self.looks[hand as usize];
        looks.push(look)
    }

    /// Writes a header, and notes what the hand did by that.
    pub(super) fn set_noted_head(
        &mut self,
        hand: u64,
        chunk: ChunkId,
        head: Head,
        look: Look,
    ) -> Result<(), Refused>
        requires here { hand < length self.old.ids }
        requires issue { head.issue < 2 ^ 46 }
        ensures { OnOk result (self.new ≡ with_look (with_head self.old chunk head) hand look) }
    {
        self.set_head(chunk, head);
        self.note(hand, look)
    }

    /// Notes what the hand saw, if it has the slabs lock.
    pub(super) fn note_if_held(&mut self, hand: u64, look: Look) -> Result<(), Refused>
        requires { hand < length self.old.ids }
        ensures { OnOk result (self.new ≡ state_after_look self.old hand look) }
    {
        if self.has_slabs(hand) {
            self.note(hand, look)?;
        }
        Ok(())
    }

    /// Forgets all that the hand saw.
    pub(super) fn forget(&mut self, hand: u64)
        requires { hand < length self.old.ids }
        ensures { self.new ≡ with_looks self.old hand [] }
    {
        self.looks[hand as usize] = Series::new(self.alloc);
    }
}
