//! One size class: the pages it has. Its free list and its hand-out order are rows.
ghost use Rattle.std.specs.Prelude.{◌≡◌, ◌<◌, ◌≤◌, length, slice_index_or, OnOk};
ghost use Rattle.mc_classes.specs.Limits.{most_page_chunks};
ghost use Rattle.mc_pages.specs.ClassState.{new_class, class_after_eviction, with_page, without_page};
ghost use Rattle.mc_pages.specs.Room.{in_state};

use mc_classes::PageId;
use mc_memory::{Refused, reserve};
use std::alloc::Global;
use std::marker::Model;

/// A size class without its lists. The page list has room for `room` pages.
#[derive(Drop)]
pub(crate) struct SlabClass {
    size: u64,
    per_page: u64,
    pages: Vec<PageId>,
    evictions: u64,
    room: usize,
}

impl Model for SlabClass {
    ghost use Rattle.mc_pages.specs.Room.{RoomyClass, roomy_of, HasRoom};

    ghost Value = { RoomyClass };

    ghost view = { roomy_of };

    ghost invariant = { HasRoom };
}

impl SlabClass {
    /// A class without pages.
    pub(crate) fn new(alloc: Global, size: u64, per_page: u64) -> SlabClass
        requires { per_page ≤ most_page_chunks }
        ensures { result ≡ record { state = new_class size per_page; room = 0 } }
    {
        SlabClass {
            size,
            per_page,
            pages: Vec::new(alloc),
            evictions: 0,
            room: 0,
        }
    }

    /// How many chunks a page of the class has.
    pub(crate) fn per_page(&self) -> u64
        ensures { result ≡ self.now.state.per_page }
    {
        self.per_page
    }

    /// How many pages the class has.
    pub(crate) fn page_count(&self) -> usize
        ensures { result ≡ length self.now.state.pages }
    {
        self.pages.len()
    }

    /// The class's first page.
    pub(crate) fn first_page(&self) -> PageId
        requires { 1 ≤ length self.now.state.pages }
        ensures { result ≡ slice_index_or self.now.state.pages 0 0 }
    {
        self.pages[0]
    }

    /// Makes room for n pages.
    pub(crate) fn make_room(&mut self, pages: usize) -> Result<(), Refused>
        requires { pages ≤ 129 }
        ensures state { self.new.state ≡ self.old.state }
        ensures kept { self.old.room ≤ self.new.room }
        ensures ok { OnOk result (pages ≤ self.new.room) }
    {
        if pages <= self.room {
            return Ok(());
        }
        let more = pages.saturating_sub(self.pages.len());
        reserve(&mut self.pages, more)?;
        self.room = pages;
        Ok(())
    }

    /// Adds a page.
    pub(crate) fn add_page(&mut self, page: PageId)
        requires { length self.old.state.pages < self.old.room }
        ensures { self.new ≡ in_state self.old (with_page self.old.state page) }
    {
        self.pages.push(page).unwrap();
    }

    /// Gives up a page.
    pub(crate) fn remove_page(&mut self, page: PageId)
        ensures { self.new ≡ in_state self.old (without_page self.old.state page) }
    {
        self.pages.retain(|p| *p != page);
    }

    /// Counts an eviction.
    pub(crate) fn count_eviction(&mut self)
        ensures { self.new ≡ in_state self.old (class_after_eviction self.old.state) }
    {
        self.evictions = self.evictions.saturating_add(1);
    }

    /// How many of its items were evicted to make room.
    pub(crate) fn evictions(&self) -> u64
        ensures { result ≡ self.now.state.evictions }
    {
        self.evictions
    }
}
