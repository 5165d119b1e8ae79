//! The end of an arena: `close`, and what is left.
ghost use Rattle.std.specs.Prelude.{◌≡◌, ◌<◌, None, true, length, slice_index, slice_index_or, IfSome};
ghost use Rattle.std.specs.Option.{option_map};
ghost use Rattle.std.specs.Slots.{IsFull, slots_items, slots_len};
ghost use Rattle.mc_classes.specs.Classes.{arena_pages_of};
ghost use Rattle.mc_pages.specs.Accounted.{IsAccounted};
ghost use Rattle.mc_pages.specs.Ledger.{owner_at};
ghost use Rattle.mc_core.specs.model.InOrder.{IsOfTable};
ghost use Rattle.mc_core.specs.model.State.{has_chunk, head_place};
ghost use Rattle.mc_words.specs.hand.Arenas.{IsHandOf, view};
ghost use Rattle.mc_words.specs.rule.End.{Closes};

use crate::arena::Arena;
use crate::arena::plan::Plan;
use crate::hand::Hand;
use crate::lock::locks::{Lock, SLABS_WORD};
use crate::lock::slot::Slot;
use atomic_table::Closed;
use mc_classes::{ClassTable, Config, PageId};
use mc_pages::{ChunkId, Owner, Slabs};
use mc_stripe::Stripe;
use std::alloc::Global;
use std::marker::Model;

/// An arena that no hand uses any more: its headers and its values can be read. A value that a hand had when the arena was
/// closed, or that was lost with a hand, isn't there.
pub struct Final {
    plan: Plan,
    closed: Closed<Slot, Global>,
    /// The word of the header of chunk 0 of page 0.
    first_head: usize,
    /// The most chunks of a page.
    most: usize,
}

impl Model for Final {
    ghost use Rattle.std.specs.Prelude.{◌≡◌};
    ghost use Rattle.std.specs.Slots.{IsFull, slots_items};
    ghost use Rattle.mc_core.specs.model.State.{most_of};
    ghost use Rattle.mc_words.specs.rule.Layout.{heads_from};
    ghost use Rattle.mc_words.specs.rule.End.{IsLeftOf, ArenaEnd, left_of};

    ghost Value = { ArenaEnd };

    ghost view = { λ f. left_of f.plan (slots_items f.closed.words) (slots_items f.closed.slots) };

    ghost invariant = { λ f. IsFull f.closed.words × IsFull f.closed.slots × IsLeftOf f.plan (slots_items f.closed.words) (slots_items f.closed.slots) × (f.first_head ≡ heads_from f.plan) × (f.most ≡ most_of f.plan.table) };
}

impl Arena {
    /// Ends the arena: no hand can step any more. It takes no memory. The promise holds of the last moment, as `closes` states in
    /// its `headline`: of each page, granted byte, chunk and reference. (own)
    pub fn close(self, hand: Hand) -> Final
        requires arena { IsHandOf self hand }
        ensures closes { Closes (view hand) result }
    {
        let Arena {
            table,
            plan,
            first_head,
            most,
            ..
        } = self;
        let Hand { seat, .. } = hand;
        Final {
            plan,
            closed: table.close_with(seat),
            first_head,
            most,
        }
    }
}

impl Final {
    /// The configuration of the arena.
    pub fn config(&self) -> &Config
        ensures config { result.now ≡ self.now.setup.config }
    {
        self.plan.config()
    }

    /// The size classes of the arena.
    pub fn classes(&self) -> &ClassTable
        ensures classes { result.now ≡ self.now.setup.table }
    {
        self.plan.classes()
    }

    /// The word of a chunk's header.
    pub fn head(&self, chunk: ChunkId) -> u64
        requires in_range { has_chunk self.now.setup.table chunk ≡ true }
        ensures word { result ≡ slice_index self.now.heads (head_place self.now.setup.table chunk) }
    {
        let word = self.first_head + chunk.page as usize * self.most + chunk.index as usize;
        self.closed.word(word)
    }

    /// Pages and lists, unless a hand has them.
    pub fn slabs(&self) -> Option<&Slabs>
        ensures slabs { option_map (λ slabs. slabs.now.state) result ≡ self.now.slabs }
        ensures accounted { IfSome result (λ slabs.
            IsOfTable self.now.setup.table slabs.now.state) }
    {
        if self.closed.word(SLABS_WORD) != 0 {
            return None;
        }
        match self.closed.slots.get(0) {
            Slot::OfSlabs(shared) => Some(shared.slabs()),
            _ => None,
        }
    }

    /// Index and history of a stripe, unless a hand has them.
    pub fn stripe(&self, stripe: u64) -> Option<&Stripe>
        requires in_range { stripe < self.now.setup.config.stripes }
        ensures stripe { option_map (λ value. value.now) result
            ≡ slice_index_or self.now.stripes stripe None }
    {
        let closed = &self.closed;
        let lock = Lock::StripeLock(stripe);
        let place = lock.word();
        if closed.word(place) != 0 {
            return None;
        }
        let slot = lock.slot();
        match closed.slots.get(slot) {
            Slot::OfStripe(value) => Some(value.stripe()),
            _ => None,
        }
    }

    /// Who owns a page, as the ledger's entries make it; None where a hand has pages and lists.
    pub fn owner(&self, page: PageId) -> Option<Owner>
        requires in_range { page < arena_pages_of self.now.setup.table }
        ensures owner { result ≡ option_map (λ slabs. owner_at slabs.owners page) self.now.slabs }
        ensures accounted { IfSome self.now.slabs (λ slabs. IsAccounted slabs) }
    {
        let Some(slabs) = self.slabs() else {
            return None;
        };
        Some(slabs.owner(page))
    }
}

impl Drop for Final {
    fn drop(self) {
        let Final {
            plan: _,
            mut closed,
            first_head: _,
            most: _,
        } = self;
        for slot in 0..closed.slot_count() {
            drop(closed.take(slot));
        }
        closed.free();
    }
}
