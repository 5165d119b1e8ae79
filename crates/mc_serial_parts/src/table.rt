//! The items by place: for each page, an item or none at each index.
ghost use Rattle.std.specs.Prelude.{◌≡◌, ◌<◌, true, false, [], length, slice_index_or, None, IfOk, OnOk, OnErr};
ghost use Rattle.std.specs.Option.{option_copied, option_map};
ghost use Rattle.mc_serial_spec.specs.Item.{new_item};
ghost use Rattle.mc_serial_spec.specs.Items.{item_in_chunk, unlinked_in, with_item, with_moved_item, without_item};
ghost use Rattle.mc_serial_parts.specs.ItemsByPlace.{AreAlike, HasPlace, items_from, table_places};
ghost use Rattle.mc_serial_parts.specs.NewWords.{words_of_new};

use crate::item::{Item, NewWords};
use crate::place::Place;
use mc_memory::{Refused, push};
use mc_pages::ChunkId;
use std::alloc::Global;
use std::marker::Model;

/// The item of each chunk that has one.
#[derive(Drop)]
pub struct ItemTable {
    alloc: Global,
    /// For each page, from page 0, a place for each of its chunks up to the last that had an item.
    pages: Vec<Vec<Place>>,
}

impl Model for ItemTable {
    ghost use Rattle.mc_serial_spec.specs.Items.{Items};
    ghost use Rattle.mc_serial_parts.specs.ItemsByPlace.{items_of};

    ghost Value = { Items };

    ghost view = { items_of };
}

impl ItemTable {
    /// A table in which no chunk has an item.
    pub fn new(alloc: Global) -> ItemTable
        ensures empty { result ≡ [] }
    {
        ItemTable {
            alloc,
            pages: Vec::new(alloc),
        }
    }

    /// The chunk's item, if it has one.
    pub fn get(&self, chunk: ChunkId) -> Option<&Item>
        ensures value { option_copied result ≡ item_in_chunk self.now chunk }
    {
        if !has_place(&self.pages, chunk) {
            return None;
        }
        self.pages[chunk.page as usize][chunk.index as usize].item()
    }

    /// A new item comes into the chunk, in the place of what was there: a key with these words. They are written where the
    /// chunk's last item had its words, so that no memory is taken where there is room for them.
    pub fn store(&mut self, chunk: ChunkId, key: u64, words: NewWords) -> Result<(), Refused>
        ensures entries { OnOk result (self.new ≡ with_item self.old chunk
            (new_item key (words_of_new words.entry))) }
        ensures unchanged { OnErr result (self.new ≡ self.old) }
    {
        reach(self.alloc, &mut self.pages, chunk)?;
        self.pages[chunk.page as usize][chunk.index as usize].fill(self.alloc, key, words)?;
        Ok(())
    }

    /// The chunk's item goes, if it has one. Gives its key.
    pub fn remove(&mut self, chunk: ChunkId) -> Option<u64>
        ensures key { result ≡ option_map (λ item. item.key) (item_in_chunk self.old chunk) }
        ensures entries { self.new ≡ without_item self.old chunk }
    {
        if !has_place(&self.pages, chunk) {
            return None;
        }
        self.pages[chunk.page as usize][chunk.index as usize].clear()
    }

    /// The item of a chunk comes into another, in the place of what was there. Gives its key. Nothing happens where there is
    /// no item.
    pub fn relocate(&mut self, old: ChunkId, new: ChunkId) -> Result<Option<u64>, Refused>
        ensures key { IfOk result (λ key. key ≡ option_map (λ item.
            item.key) (item_in_chunk self.old old)) }
        ensures moved { OnOk result (self.new ≡ with_moved_item self.old old new) }
        ensures unchanged { OnErr result (self.new ≡ self.old) }
    {
        reach(self.alloc, &mut self.pages, new)?;
        Ok(relocate(self.alloc, &mut self.pages, old, new))
    }

    /// The chunk's item, if it has one, is linked no more.
    pub fn unlink(&mut self, chunk: ChunkId)
        ensures unlinked { self.new ≡ unlinked_in self.old chunk (item_in_chunk self.old chunk) }
    {
        if !has_place(&self.pages, chunk) {
            return;
        }
        self.pages[chunk.page as usize][chunk.index as usize].unlink();
    }
}

/// Whether the table has a place for the chunk.
fn has_place(pages: &[Vec<Place>], chunk: ChunkId) -> bool
    ensures yes { result ≡ true → HasPlace (table_places pages.now) chunk }
    ensures no { result ≡ false →
        slice_index_or (slice_index_or (table_places pages.now) chunk.page []) chunk.index None
        ≡ None }
{
    match pages.get(chunk.page as usize) {
        Some(places) => chunk.index < places.len() as u64,
        None => false,
    }
}

/// The item of a chunk comes into another, which has a place.
fn relocate(alloc: Global, pages: &mut Vec<Vec<Place>>, old: ChunkId, new: ChunkId) -> Option<u64>
    requires { HasPlace (table_places pages.old.items) new }
    ensures key { result ≡ option_map (λ item. item.key)
        (item_in_chunk (items_from 0 (table_places pages.old.items)) old) }
    ensures moved { items_from 0 (table_places pages.new.items)
        ≡ with_moved_item (items_from 0 (table_places pages.old.items)) old new }
{
    if !has_place(pages, old) {
        return None;
    }
    match pages[old.page as usize][old.index as usize].take(alloc) {
        Some(item) => {
            let key = item.key();
            pages[new.page as usize][new.index as usize].put(item);
            Some(key)
        }
        None => None,
    }
}

/// Makes a place for the chunk, if the table has none.
fn reach(alloc: Global, pages: &mut Vec<Vec<Place>>, chunk: ChunkId) -> Result<(), Refused>
    ensures there { OnOk result (HasPlace (table_places pages.new.items) chunk) }
    ensures same { items_from 0 (table_places pages.new.items)
        ≡ items_from 0 (table_places pages.old.items) }
{
    reach_page(alloc, pages, chunk.page)?;
    reach_index(alloc, &mut pages[chunk.page as usize], chunk.index)?;
    Ok(())
}

/// Makes places for the page, if the table has none.
fn reach_page(alloc: Global, pages: &mut Vec<Vec<Place>>, page: u64) -> Result<(), Refused>
    ensures there { OnOk result (page < length pages.new.items) }
    ensures same { items_from 0 (table_places pages.new.items)
        ≡ items_from 0 (table_places pages.old.items) }
{
    while pages.len() as u64 <= page {
        push(pages, Vec::new(alloc))?;
    }
    Ok(())
}

/// Makes a place of the page at the index, if it has none.
fn reach_index(alloc: Global, places: &mut Vec<Place>, index: u64) -> Result<(), Refused>
    ensures there { OnOk result (index < length places.new.items) }
    ensures same { AreAlike places.old.items places.new.items }
{
    while places.len() as u64 <= index {
        push(places, Place::empty(alloc))?;
    }
    Ok(())
}
