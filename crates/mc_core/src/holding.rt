//! The holdings of a hand: references, and fresh chunks that it fills.
ghost use Rattle.std.specs.Prelude.{◌≡◌, true, if◌then◌else◌, IfOk, OnOk};
ghost use Rattle.mc_core.specs.model.Holdings.{is_of_chunk, is_copy_of, change_each};
ghost use Rattle.mc_core.specs.run.Chunks.{holding_with_word};
ghost use Rattle.mc_core.specs.run.Evictions.{as_rescue};

use crate::series::Series;
use crate::words;
use mc_memory::Refused;
use mc_pages::ChunkId;
use std::alloc::Global;

/// One holding of a chunk, by one hand.
#[derive(Drop)]
pub struct Holding {
    pub chunk: ChunkId,
    /// The chunk's issue number as it was handed out.
    pub issue: u64,
    pub kind: Kind,
}

/// Whether the chunk was linked yet.
#[derive(Drop)]
pub enum Kind {
    /// A reference to an item: its words, which are key, stamp, length and then the words proper.
    Reference(Series<u64>),
    /// The hand got the chunk and fills it: what for, and the words that it filled so far, one place for each word that
    /// the chunk has room for.
    Fresh(Purpose, Series<Option<u64>>),
}

/// What a fresh chunk is for.
#[derive(Drop)]
pub enum Purpose {
    /// An item of the hand's own.
    Item,
    /// A copy of the item in this chunk of the moving page.
    Copy(ChunkId),
    /// A copy of the item in this chunk of the moving page, after the chunk was condemned: with the item's words as they were.
    Rescue(ChunkId, Series<u64>),
}

impl Holding {
    ghost use Rattle.mc_core.specs.model.Holdings.{is_fresh, is_of_chunk, is_copy_of, is_complete, word_in, holding_words};
    ghost use Rattle.mc_core.specs.run.Items.{as_reference};
    ghost use Rattle.mc_core.specs.run.Chunks.{holding_with_word};
    ghost use Rattle.mc_core.specs.run.Evictions.{as_rescue};

    /// Whether the chunk wasn't linked yet.
    pub fn is_fresh(&self) -> bool
        ensures { result ≡ is_fresh self.now }
    {
        match self.kind {
            Kind::Reference(_) => false,
            Kind::Fresh(_, _) => true,
        }
    }

    /// Whether the chunk is to be a copy of the item in this one, which wasn't condemned yet.
    pub(crate) fn is_copy_of(&self, old: ChunkId) -> bool
        ensures { result ≡ is_copy_of old self.now }
    {
        match &self.kind {
            Kind::Fresh(Purpose::Copy(chunk), _) => *chunk == old,
            _ => false,
        }
    }

    /// A word by its place, 0 where it isn't known.
    pub(crate) fn word(&self, place: usize) -> u64
        ensures { result ≡ word_in (holding_words self.now) place }
    {
        match &self.kind {
            Kind::Reference(item) => words::number_in(item.as_slice(), place),
            Kind::Fresh(_, words) => words::word_in(words.as_slice(), place),
        }
    }

    /// The item was linked: the hand refers to it.
    pub(crate) fn as_reference(&self, alloc: Global) -> Result<Holding, Refused>
        requires fresh { is_fresh self.now ≡ true }
        requires complete { is_complete (holding_words self.now) ≡ true }
        ensures { IfOk result (λ holding. holding ≡ as_reference self.now) }
    {
        let item = match &self.kind {
            Kind::Reference(item) => Series::copy_of(alloc, item.as_slice())?,
            Kind::Fresh(_, words) => { words::numbers_of(alloc, words::item_in(words.as_slice()))? }
        };
        Ok(Holding {
            chunk: self.chunk,
            issue: self.issue,
            kind: Kind::Reference(item),
        })
    }

    /// A word of this chunk is written, if the holding is of it.
    fn fill(&mut self, chunk: ChunkId, place: u64, word: u64)
        ensures { self.new ≡ (if is_of_chunk chunk self.old then holding_with_word place word
            self.old else self.old) }
    {
        if self.chunk == chunk {
            if let Kind::Fresh(_, words) = &mut self.kind {
                words.set(place as usize, Some(word));
            }
        }
    }

    /// The item of this chunk was condemned: if the holding is to be a copy of it, it is to have these words, and no others.
    fn bind(&mut self, alloc: Global, old: ChunkId, item: &[u64]) -> Result<(), Refused>
        ensures { OnOk result (self.new
            ≡ (if is_copy_of old self.old then as_rescue old item.now self.old else self.old)) }
    {
        if self.is_copy_of(old) {
            let item = Series::copy_of(alloc, item)?;
            if let Kind::Fresh(purpose, _) = &mut self.kind {
                *purpose = Purpose::Rescue(old, item);
            }
        }
        Ok(())
    }
}

/// A word of this chunk is written, if it is among what a hand holds.
pub(crate) fn fill_chunk(holdings: &mut Series<Holding>, chunk: ChunkId, place: u64, word: u64)
    ensures { holdings.new ≡ change_each (is_of_chunk chunk)
        (holding_with_word place word) holdings.old }
{
    for holding in holdings.items.iter_mut() {
        holding.fill(chunk, place, word);
    }
}

/// The item of this chunk was condemned: each copy of it that a hand holds is to have these words.
pub(crate) fn bind_copies(
    alloc: Global,
    holdings: &mut Series<Holding>,
    chunk: ChunkId,
    item: &[u64],
) -> Result<(), Refused>
    ensures { OnOk result (holdings.new ≡ change_each (is_copy_of chunk)
        (as_rescue chunk item.now) holdings.old) }
{
    for holding in holdings.items.iter_mut() {
        holding.bind(alloc, chunk, item)?;
    }
    Ok(())
}
