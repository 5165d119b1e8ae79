//! The same stripe by a plain list of items, each of which is looked for from the front.
use super::Try;
use mc_pages::ChunkId;
use mc_stripe::{Call, HandId, Key, Stamp};
use std::alloc::{AllocError, Global};

/// An item: its key, its chunk and its stamp.
#[derive(Clone, Copy)]
pub(super) struct Item {
    pub(super) key: Key,
    pub(super) chunk: ChunkId,
    pub(super) stamp: Stamp,
}

#[derive(Drop)]
pub(super) struct Plain {
    pub(super) items: Vec<Item>,
    pub(super) aside: Option<Item>,
    pub(super) history: Vec<Call>,
    pub(super) ready: bool,
}

impl Plain {
    pub(super) fn new(alloc: Global) -> Plain {
        Plain {
            items: Vec::new(alloc),
            aside: None,
            history: Vec::new(alloc),
            ready: false,
        }
    }

    /// Where the key's item is, and its stamp.
    pub(super) fn find(&self, key: Key) -> Option<(ChunkId, Stamp)> {
        self.items
            .iter()
            .find(|item| item.key == key)
            .map(|item| (item.chunk, item.stamp))
    }

    /// The stamp of the key's item, which may be aside.
    pub(super) fn stamp(&self, key: Key) -> Option<Stamp> {
        match (self.find(key), self.aside) {
            (Some((_, stamp)), _) => Some(stamp),
            (None, Some(item)) if item.key == key => Some(item.stamp),
            _ => None,
        }
    }

    fn take(&mut self, key: Key) -> Option<Item> {
        let place = self.items.iter().position(|item| item.key == key)?;
        if place < self.items.len() {
            Some(self.items.remove(place))
        } else {
            None
        }
    }

    /// The key whose item is aside.
    pub(super) fn aside(&self) -> Option<Key> {
        self.aside.map(|item| item.key)
    }

    fn tell(&mut self, call: Call) -> Result<bool, AllocError> {
        self.history.push(call)?;
        self.ready = false;
        Ok(true)
    }

    /// Makes the call where its conditions hold, and returns whether they did.
    pub(super) fn made(&mut self, call: Try) -> Result<bool, AllocError> {
        match call {
            Try::Lift(key) => Ok(self.lift(key)),
            Try::LiftFound(key) => Ok(self.lift(key)),
            _ => {
                if self.ready {
                    self.told(call)
                } else {
                    Ok(false)
                }
            }
        }
    }

    /// The key's item is put aside, if it is there and none is aside.
    fn lift(&mut self, key: Key) -> bool {
        if self.aside.is_some() || self.find(key).is_none() {
            return false;
        }
        self.aside = self.take(key);
        true
    }

    /// A call that writes an entry of the history.
    fn told(&mut self, call: Try) -> Result<bool, AllocError> {
        match call {
            Try::Link(hand, key, chunk, stamp) => self.link(hand, Item { key, chunk, stamp }),
            Try::Unlink(hand, key) => {
                if self.aside() == Some(key) {
                    return Ok(false);
                }
                let was_there = self.take(key).is_some();
                self.tell(Call::Delete(hand, key, was_there))
            }
            Try::Got(hand, key) => {
                if self.aside() == Some(key) {
                    return Ok(false);
                }
                let stamp = self.find(key).map(|place| place.1);
                self.tell(Call::Get(hand, key, stamp))
            }
            Try::Evict(hand, key) => match self.take(key) {
                Some(_) => self.tell(Call::Evict(hand, key)),
                None => Ok(false),
            },
            Try::Rescue(hand, key, chunk) => self.come_back(hand, key, chunk),
            Try::Lift(_) => Ok(false),
            Try::LiftFound(_) => Ok(false),
        }
    }

    fn link(&mut self, hand: HandId, item: Item) -> Result<bool, AllocError> {
        let free = self.aside.is_none() || self.aside() == Some(item.key);
        if self.find(item.key).is_some() || !free {
            return Ok(false);
        }
        self.aside = None;
        self.items.push(item)?;
        self.tell(Call::Set(hand, item.key, item.stamp))
    }

    fn come_back(&mut self, hand: HandId, key: Key, chunk: ChunkId) -> Result<bool, AllocError> {
        let Some(item) = self.aside else {
            return Ok(false);
        };
        if item.key != key {
            return Ok(false);
        }
        self.aside = None;
        self.items.push(Item { chunk, ..item })?;
        self.tell(Call::Rescue(hand, key))
    }
}
