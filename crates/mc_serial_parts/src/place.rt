//! The place of one chunk's item.
ghost use Rattle.std.specs.Prelude.{◌≡◌, None, Some, OnOk, OnErr};
ghost use Rattle.std.specs.Option.{option_copied, option_map};
ghost use Rattle.mc_serial_spec.specs.Item.{new_item, item_after_unlink};
ghost use Rattle.mc_serial_parts.specs.NewWords.{words_of_new};

use crate::item::{Item, NewWords};
use mc_memory::Refused;
use std::alloc::Global;
use std::marker::Model;
use std::mem;

/// An item, or none. An empty place keeps the room of the words that it had, for the next item.
#[derive(Drop)]
pub(crate) struct Place {
    item: Item,
    filled: bool,
}

impl Model for Place {
    ghost use Rattle.std.specs.Prelude.{Option};
    ghost use Rattle.mc_serial_spec.specs.Item.{Item};
    ghost use Rattle.mc_serial_parts.specs.ItemInPlace.{item_in_place};

    ghost Value = { Option Item };

    ghost view = { item_in_place };
}

impl Place {
    /// A place without an item, and without room for one.
    pub(crate) fn empty(alloc: Global) -> Place
        ensures empty { result ≡ None }
    {
        Place {
            item: Item::empty(alloc),
            filled: false,
        }
    }

    /// The item, if there is one.
    pub(crate) fn item(&self) -> Option<&Item>
        ensures item { option_copied result ≡ self.now }
    {
        if self.filled { Some(&self.item) } else { None }
    }

    /// A new item comes here, in the place of what was here.
    pub(crate) fn fill(&mut self, alloc: Global, key: u64, words: NewWords) -> Result<(), Refused>
        ensures filled { OnOk result (self.new ≡ Some (new_item key (words_of_new words.entry))) }
        ensures unchanged { OnErr result (self.new ≡ self.old) }
    {
        self.item.renew(alloc, key, words)?;
        self.filled = true;
        Ok(())
    }

    /// The item goes, if there is one. Gives its key.
    pub(crate) fn clear(&mut self) -> Option<u64>
        ensures key { result ≡ option_map (λ item. item.key) self.old }
        ensures cleared { self.new ≡ None }
    {
        if !self.filled {
            return None;
        }
        self.filled = false;
        Some(self.item.key())
    }

    /// Takes the item out, with its room.
    pub(crate) fn take(&mut self, alloc: Global) -> Option<Item>
        ensures item { result ≡ self.old }
        ensures taken { self.new ≡ None }
    {
        if !self.filled {
            return None;
        }
        self.filled = false;
        Some(mem::replace(&mut self.item, Item::empty(alloc)))
    }

    /// An item that was taken out comes here, in the place of what was here.
    pub(crate) fn put(&mut self, item: Item)
        ensures put { self.new ≡ Some item }
    {
        self.item = item;
        self.filled = true;
    }

    /// The item, if there is one, is linked no more.
    pub(crate) fn unlink(&mut self)
        ensures unlinked { self.new ≡ option_map item_after_unlink self.old }
    {
        self.item.unlink();
    }
}
