//! Which items were stored, and who holds which, as the answers of calls show it.
ghost use Rattle.std.specs.Prelude.{◌≡◌};

use crate::map::MapError;
use mc_classes::{ClassId, ClassTable};
use mc_keeper::Keeper;
use mc_memory::{Refused, push, reserve_entries};
use std::alloc::Global;
use std::collections::HashMap;

/// The item that was stored under a key last.
#[derive(Clone, Copy, PartialEq, Eq)]
struct Stored {
    /// Items are numbered as they are stored.
    item: u64,
    /// The bytes that it asks for.
    bytes: u64,
}

/// An item that somebody holds.
#[derive(Drop)]
pub(crate) struct HeldItem {
    pub key: u64,
    /// The number of the item: items are numbered as they are stored.
    pub item: u64,
    /// The bytes that it asks for.
    pub bytes: u64,
    /// The workers that hold the item, once for each hold, in the order in which they were taken.
    pub workers: Vec<u64>,
}

impl HeldItem {
    /// Whether the item is in a chunk of the class.
    pub(crate) fn is_of(&self, table: &ClassTable, class: ClassId) -> bool {
        table.class_for(self.bytes) == Some(class)
    }
}

/// The keys that were ever stored, each one's last item, and all items that somebody holds.
#[derive(Drop)]
pub(crate) struct Items {
    alloc: Global,
    pub(crate) keys: Vec<u64>,
    last: HashMap<u64, Stored>,
    count: u64,
    held: Vec<HeldItem>,
}

impl Items {
    /// Nothing was stored yet.
    pub(crate) fn new(alloc: Global) -> Items {
        Items {
            alloc,
            keys: Vec::new(alloc),
            last: HashMap::new(alloc),
            count: 0,
            held: Vec::new(alloc),
        }
    }

    /// The keys that were ever stored, each once.
    pub(crate) fn keys(&self) -> &[u64]
        ensures { result.now ≡ self.now.keys.items }
    {
        &self.keys
    }

    /// The items that somebody holds, in the order in which they were held first.
    pub(crate) fn held(&self) -> &[HeldItem]
        ensures { result.now ≡ self.now.held.items }
    {
        &self.held
    }

    /// Whether the item's key leads to it: the key has an item, and this is the one that was stored under it last.
    pub(crate) fn is_linked(&self, keeper: &Keeper, held: &HeldItem) -> Result<bool, MapError> {
        match keeper.get(0, held.key) {
            Ok(Some(_words)) => Ok(self.is_last(held)),
            Ok(None) => Ok(false),
            Err(_full) => Err(MapError::Refs),
        }
    }

    /// Whether this is the item that was stored last under its key.
    fn is_last(&self, held: &HeldItem) -> bool {
        match self.last.get(&held.key) {
            Some(stored) => stored.item == held.item,
            None => false,
        }
    }

    /// An item of n bytes was stored under the key.
    fn store(&mut self, key: u64, bytes: u64) -> Result<(), Refused> {
        reserve_entries(&mut self.last, 1)?;
        if !self.last.contains_key(&key) {
            push(&mut self.keys, key)?;
        }
        self.count = self.count.saturating_add(1);
        let stored = Stored {
            item: self.count,
            bytes,
        };
        let _before: Result<_, _> = self.last.insert(key, stored);
        Ok(())
    }

    /// An item of n bytes was stored under the key, or it wasn't.
    pub(crate) fn note_set(&mut self, stored: bool, key: u64, bytes: u64) -> Result<(), Refused> {
        if stored {
            self.store(key, bytes)?;
        }
        Ok(())
    }

    /// The worker holds the item that was stored last under the key.
    pub(crate) fn hold(&mut self, worker: u64, key: u64) -> Result<(), Refused> {
        let Some(stored) = self.last.get(&key).copied() else {
            return Ok(());
        };
        if let Some(place) = self.held.iter().position(|held| held.item == stored.item) {
            return push(&mut self.held[place].workers, worker);
        }
        let mut workers = Vec::new(self.alloc);
        push(&mut workers, worker)?;
        push(
            &mut self.held,
            HeldItem {
                key,
                item: stored.item,
                bytes: stored.bytes,
                workers,
            },
        )
    }

    /// The worker gave back its last hold of the key.
    pub(crate) fn give_back(&mut self, worker: u64, key: u64) {
        let found = self
            .held
            .iter()
            .rposition(|held| held.key == key && held.workers.contains(&worker));
        let Some(place) = found else {
            return;
        };
        let workers = &mut self.held[place].workers;
        if let Some(hold) = workers.iter().position(|it| *it == worker) {
            let _worker = workers.remove(hold);
        }
        if workers.is_empty() {
            let _held = self.held.remove(place);
        }
    }
}
