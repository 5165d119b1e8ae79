//! An item of the keeper, and the words of one that comes.
ghost use Rattle.std.specs.Prelude.{◌≡◌, ◌≤◌, ◌^◌, length, OnOk, OnErr};
ghost use Rattle.mc_serial_spec.specs.Item.{new_item, item_after_unlink, counting_words};
ghost use Rattle.mc_serial_parts.specs.NewWords.{words_of_new};

use mc_memory::{Refused, filled, from_slice};
use std::alloc::Global;
use std::marker::Model;

/// The words of an item that comes.
#[derive(Clone, Copy)]
pub enum NewWords<'a> {
    /// The words are copied from these.
    Copied(&'a [u64]),
    /// The words count up: base, base + 1 and so on, modulo 2^64.
    Counted { base: u64, count: u64 },
}

impl NewWords<'_> {
    /// How many words they are.
    pub fn count(&self) -> u64
        ensures count { result ≡ length (words_of_new self.now) }
    {
        match self {
            NewWords::Copied(words) => words.len() as u64,
            NewWords::Counted { base: _, count } => *count,
        }
    }
}

/// A key with its words, and whether the key still leads to it.
#[derive(Drop)]
pub struct Item {
    key: u64,
    words: Vec<u64>,
    linked: bool,
}

impl Model for Item {
    ghost use Rattle.mc_serial_spec.specs.Item.{Item};

    ghost Value = { Item };

    ghost view = { λ i. record { key = i.key; words = i.words.items; linked = i.linked } };
}

impl Item {
    /// An item without words, which takes no memory.
    pub(crate) fn empty(alloc: Global) -> Item {
        Item {
            key: 0,
            words: Vec::new(alloc),
            linked: false,
        }
    }

    /// Becomes a new item with these words, to which its key leads. The room of the old words is used again where it suffices.
    pub(crate) fn renew(&mut self, alloc: Global, key: u64, words: NewWords) -> Result<(), Refused>
        ensures new { OnOk result (self.new ≡ new_item key (words_of_new words.entry)) }
        ensures unchanged { OnErr result (self.new ≡ self.old) }
    {
        match words {
            NewWords::Copied(words) => copy_words(alloc, &mut self.words, words)?,
            NewWords::Counted { base, count } => write_words(alloc, &mut self.words, base, count)?,
        }
        self.key = key;
        self.linked = true;
        Ok(())
    }

    /// The key of the item.
    pub fn key(&self) -> u64
        ensures key { result ≡ self.now.key }
    {
        self.key
    }

    /// The words of the item.
    pub fn words(&self) -> &[u64]
        ensures words { result.now ≡ self.now.words }
    {
        self.words.as_slice()
    }

    /// Whether the item's key leads to it.
    pub fn is_linked(&self) -> bool
        ensures linked { result ≡ self.now.linked }
    {
        self.linked
    }

    /// The item's key leads to it no more.
    pub(crate) fn unlink(&mut self)
        ensures unlinked { self.new ≡ item_after_unlink self.old }
    {
        self.linked = false;
    }
}

/// Writes these words in the place of what was there.
fn copy_words(alloc: Global, all: &mut Vec<u64>, words: &[u64]) -> Result<(), Refused>
    ensures words { OnOk result (all.new.items ≡ words.now) }
    ensures unchanged { OnErr result (all.new.items ≡ all.old.items) }
{
    if all.capacity() < words.len() {
        *all = from_slice(alloc, words)?;
        return Ok(());
    }
    all.clear();
    all.extend_from_slice(words).unwrap();
    Ok(())
}

/// Writes n words, base, base + 1 and so on, modulo 2^64, in the place of what was there.
fn write_words(alloc: Global, all: &mut Vec<u64>, base: u64, words: u64) -> Result<(), Refused>
    ensures words { OnOk result (all.new.items ≡ counting_words base words) }
    ensures unchanged { OnErr result (all.new.items ≡ all.old.items) }
{
    if all.capacity() < words as usize {
        *all = filled(alloc, 0, words as usize)?;
    } else {
        all.resize(words as usize, 0).unwrap();
    }
    count_up(all, base);
    Ok(())
}

/// Writes base, base + 1 and so on, modulo 2^64.
fn count_up(all: &mut [u64], base: u64)
    ensures words { all.new ≡ counting_words base (length all.old) }
{
    let mut next = base;
    for word in all.iter_mut() {
        *word = next;
        next = next.wrapping_add(1);
    }
}
