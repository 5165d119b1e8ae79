//! The entries of the ledger: those that are recorded, and what the others left of each page.
ghost use Rattle.std.specs.Prelude.{◌≡◌, ◌≤◌, ◌+◌, ◌-◌, ◌^◌, ◌++◌, [], ◌∷◌, length, replicate, take, vec_len, min, IfOk, OnErr, OnOk};
ghost use Rattle.mc_pages.specs.Base.{Entries, pages_after_entries, recorded_entries, never_granted};

use crate::ledger::{BasePage, Entry};
use crate::past::Past;
use mc_memory::{Refused, filled, reserve};
use std::alloc::Global;
use std::marker::Model;

/// All entries of the ledger. The newest are in memory.
#[derive(Drop)]
pub(crate) struct Recorded {
    /// The entries that aren't in memory.
    past: Past,
    /// How many these are, or the greatest number if they are more.
    trimmed: u64,
    /// What the entries that aren't recorded left of each page.
    base: Vec<BasePage>,
    /// The entries behind them.
    tail: Vec<Entry>,
}

impl Model for Recorded {
    ghost use Rattle.mc_pages.specs.Base.{Entries};

    ghost Value = { Entries };

    ghost use Rattle.mc_pages.specs.RecordedInside.{entries_of, AreEntriesRecorded};

    ghost view = { entries_of };

    ghost invariant = { AreEntriesRecorded };
}

impl Recorded {
    /// No entry yet, of n pages.
    pub(crate) fn new(alloc: Global, pages: usize) -> Result<Recorded, Refused>
        ensures none { IfOk result (λ entries. entries
            ≡ record { all = []; trimmed = 0; pages = pages; room = entries.room }) }
    {
        Ok(Recorded {
            past: Past::new(),
            trimmed: 0,
            base: filled(alloc, BasePage::never_granted(), pages)?,
            tail: Vec::new(alloc),
        })
    }

    /// Makes room for n more entries.
    pub(crate) fn reserve(&mut self, additional: usize) -> Result<(), Refused>
        ensures same { self.new ≡ record self.old { room = self.new.room } }
        ensures room { OnOk result (additional ≤ self.new.room) }
        ensures kept { self.old.room ≤ self.new.room }
    {
        reserve(&mut self.tail, additional)
    }

    /// The entry comes behind the others.
    pub(crate) fn tell(&mut self, entry: Entry)
        requires { 1 ≤ self.old.room }
        ensures records { self.new ≡ record self.old {
          all = self.old.all
              ++ entry ∷ [];
          room = self.new.room;
        } }
        ensures room { self.old.room ≤ self.new.room + 1 }
    {
        self.tail.push(entry).unwrap();
    }

    /// The entries so far aren't recorded any more. The room for more stays.
    pub(crate) fn trim(&mut self)
        ensures trimmed { self.new ≡ record self.old
            { trimmed = length self.old.all; room = self.new.room } }
        ensures kept { self.old.room ≤ self.new.room }
    {
        apply(&mut self.base, self.tail.as_slice());
        self.past = self.past.and(self.tail.as_slice());
        self.trimmed = self.trimmed.saturating_add(self.tail.len() as u64);
        self.tail.clear();
    }

    /// How many entries aren't recorded, or the greatest number if they are more.
    pub(crate) fn trimmed(&self) -> u64
        ensures trimmed { result ≡ min self.now.trimmed (2 ^ 64 - 1) }
        ensures within { self.now.trimmed ≤ length self.now.all }
    {
        self.trimmed
    }

    /// What the entries that aren't recorded left of each page, page 0 first.
    pub(crate) fn base(&self) -> &[BasePage]
        ensures { result.now ≡ pages_after_entries (replicate self.now.pages never_granted)
            (take self.now.trimmed self.now.all) }
    {
        self.base.as_slice()
    }

    /// The entries that are recorded, the oldest first.
    pub(crate) fn tail(&self) -> &[Entry]
        ensures { result.now ≡ recorded_entries self.now.all self.now.trimmed }
    {
        self.tail.as_slice()
    }
}

// Makes of the pages what these entries leave of them.
fn apply(pages: &mut Vec<BasePage>, entries: &[Entry])
    ensures left { pages.new.items ≡ pages_after_entries pages.old.items entries.now }
    ensures len { vec_len pages.new ≡ vec_len pages.old }
{
    for entry in entries {
        let page = entry.page();
        if page < pages.len() as u64 {
            pages[page as usize] = pages[page as usize].after(*entry);
        }
    }
}
