//! Changes of pages and lists, and of stripes, that write no header. Each is recorded at once.
ghost use Rattle.std.specs.Prelude.{◌≡◌, ℕ, ◌+◌, ◌%◌, ◌<◌, ◌≤◌, ◌↔◌, Bool, if◌then◌else◌, [], ◌∷◌, true, false, slice_index_or, None, Some, Err, IfOk, OnOk, OnErr};
ghost use Rattle.mc_classes.specs.Classes.{arena_pages_of};
ghost use Rattle.mc_pages.specs.Changes.{HasNoPageFor, after_evicted, after_grow, after_touch, after_trim, next_page};
ghost use Rattle.mc_stripe.specs.StripeState.{chunk_and_stamp};
ghost use Rattle.mc_core.specs.run.Silent.{call_of, is_aside, is_handed_out};
ghost use Rattle.mc_core.specs.model.State.{is_class};
ghost use Rattle.mc_core.specs.declared.event.Change.TheVariants as change;
ghost use Rattle.mc_core.specs.declared.event.Step.TheVariants as step;
ghost use Rattle.mc_words.specs.hand.Arenas.{IsHandOf, setup_of, view};
ghost use Rattle.mc_words.specs.item.Calls.{key_missed, key_not_deleted};
ghost use Rattle.mc_words.specs.rule.Happens.{Happens};
ghost use Rattle.mc_words.specs.hand.Views.{slabs_changed};

use crate::arena::Arena;
use crate::hand::Hand;
use crate::hand::held::{SlabsHeld, StripeHeld};
use crate::lock::locks::{Lock, SLABS_WORD};
use mc_classes::{ClassId, PageId};
use mc_core::{Change, Step};
use mc_pages::{ChunkId, Grow};
use mc_stripe::Key;

impl Arena {
    /// Sets the automover's mode, which is 0, 1 or 2.
    pub fn set_automove(&self, hand: &mut Hand, held: &mut SlabsHeld, mode: u64)
        requires arena { IsHandOf self.now hand.old }
        requires mode { mode ≤ 2 }
        requires held { (view hand.old).slabs ≡ Some held.old.shared }
        ensures arena { IsHandOf self.now hand.new }
        ensures locks { hand.new.locks ≡ hand.old.locks }
        ensures held { (view hand.new).slabs ≡ Some held.new.shared }
        ensures set { held.new.shared ≡ record held.old.shared { automove = mode } }
        ensures happens { Happens (view hand.old) (change.SetAutomove mode ∷ []) step.MissSlabs
            (view hand.new) }
        ensures view { view hand.new ≡ slabs_changed held.old.shared (change.SetAutomove mode)
            (hand.old.number + 1) (view hand.old) }
    {
        held.shared.slabs_mut().set_automove(mode);
        let change = Change::SetAutomove(mode);
        self.tell(&mut hand.seat, SLABS_WORD, change, Step::MissSlabs);
    }

    /// The entries of the ledger so far aren't recorded any more: what they left of each page is, in their stead. (see
    /// `Slabs::trim`)
    pub fn trim_ledger(&self, hand: &mut Hand, held: &mut SlabsHeld)
        requires arena { IsHandOf self.now hand.old }
        requires held { (view hand.old).slabs ≡ Some held.old.shared }
        ensures arena { IsHandOf self.now hand.new }
        ensures locks { hand.new.locks ≡ hand.old.locks }
        ensures held { (view hand.new).slabs ≡ Some held.new.shared }
        ensures trimmed { held.new.shared ≡ after_trim held.old.shared }
        ensures happens { Happens (view hand.old) (change.TrimLedger ∷ []) step.MissSlabs
            (view hand.new) }
        ensures view { view hand.new ≡ slabs_changed held.old.shared change.TrimLedger
            (hand.old.number + 1) (view hand.old) }
    {
        held.shared.slabs_mut().trim();
        let change = Change::TrimLedger;
        self.tell(&mut hand.seat, SLABS_WORD, change, Step::MissSlabs);
    }

    /// A chunk that is handed out goes to the back of its class's hand-out order, as if it had just been handed out. (own,
    /// for items.c's `do_item_bump`)
    pub fn touch(&self, hand: &mut Hand, held: &mut SlabsHeld, chunk: ChunkId)
        requires arena { IsHandOf self.now hand.old }
        requires out { is_handed_out held.old.shared chunk ≡ true }
        requires held { (view hand.old).slabs ≡ Some held.old.shared }
        ensures arena { IsHandOf self.now hand.new }
        ensures locks { hand.new.locks ≡ hand.old.locks }
        ensures held { (view hand.new).slabs ≡ Some held.new.shared }
        ensures touched { held.new.shared ≡ after_touch held.old.shared chunk }
        ensures happens { Happens (view hand.old) (change.Touch chunk ∷ []) step.MissSlabs
            (view hand.new) }
        ensures view { view hand.new ≡ slabs_changed held.old.shared (change.Touch chunk)
            (hand.old.number + 1) (view hand.old) }
    {
        held.shared.slabs_mut().touch(chunk);
        let change = Change::Touch(chunk);
        self.tell(&mut hand.seat, SLABS_WORD, change, Step::MissSlabs);
    }

    /// Counts that an item of the class was evicted. (`evicted` of items.c's `itemstats`)
    pub fn evicted(&self, hand: &mut Hand, held: &mut SlabsHeld, class: ClassId)
        requires arena { IsHandOf self.now hand.old }
        requires class { is_class (setup_of self.now).table class ≡ true }
        requires held { (view hand.old).slabs ≡ Some held.old.shared }
        ensures arena { IsHandOf self.now hand.new }
        ensures locks { hand.new.locks ≡ hand.old.locks }
        ensures held { (view hand.new).slabs ≡ Some held.new.shared }
        ensures counted { held.new.shared ≡ after_evicted held.old.shared class }
        ensures happens { Happens (view hand.old) (change.Evicted class ∷ []) step.MissSlabs
            (view hand.new) }
        ensures view { view hand.new ≡ slabs_changed held.old.shared (change.Evicted class)
            (hand.old.number + 1) (view hand.old) }
    {
        held.shared.slabs_mut().evicted(class);
        let change = Change::Evicted(class);
        self.tell(&mut hand.seat, SLABS_WORD, change, Step::MissSlabs);
    }

    /// The class gets the next page, the one that came last into the pool or else the lowest that was never granted, to be
    /// cut. (slabs.c's `do_slabs_newslab`)
    pub fn grow(
        &self,
        hand: &mut Hand,
        held: &mut SlabsHeld,
        class: ClassId,
    ) -> Result<PageId, Grow>
        requires arena { IsHandOf self.now hand.old }
        requires class { is_class (setup_of self.now).table class ≡ true }
        requires whole { held.old.shared.uncut ≡ None }
        requires held { (view hand.old).slabs ≡ Some held.old.shared }
        ensures arena { IsHandOf self.now hand.new }
        ensures locks { hand.new.locks ≡ hand.old.locks }
        ensures held { (view hand.new).slabs ≡ Some held.new.shared }
        ensures given { IfOk result (λ page. (next_page held.old.shared class ≡ Some page)
            × (held.new.shared ≡ after_grow held.old.shared class page)) }
        ensures happens { IfOk result (λ page. Happens (view hand.old)
            (change.Grow class ∷ []) step.MissSlabs (view hand.new)) }
        ensures view { IfOk result (λ page. view hand.new
            ≡ slabs_changed held.old.shared (change.Grow class) (hand.old.number + 1)
            (view hand.old)) }
        ensures no_room { (result ≡ Err Grow.NoRoom) ↔ (next_page held.old.shared class ≡ None) }
        ensures full { result ≡ Err Grow.NoRoom → HasNoPageFor held.old.shared class }
        ensures refused { OnErr result ((held.new.shared ≡ held.old.shared)
            × (view hand.new ≡ view hand.old)) }
    {
        let page = held.shared.slabs_mut().grow(class)?;
        let word = self.page_word(page);
        let change = Change::Grow(class);
        self.tell_page(&mut hand.seat, word, class, change, Step::MissSlabs);
        Ok(page)
    }

    // Records in the stripe of a key that leads nowhere that the key was looked up, or deleted.
    pub(crate) fn tell_none(&self, hand: &mut Hand, held: &StripeHeld, key: Key, change: Change)
        ghost deletes: { Bool }
        requires is { change ≡ call_of deletes key }
        requires arena { IsHandOf self.now hand.old }
        requires of_key { key % (setup_of self.now).config.stripes ≡ held.now.number }
        requires held { slice_index_or (view hand.old).stripes held.now.number None
            ≡ Some held.now.stripe }
        requires ready { held.now.stripe.ready ≡ true }
        requires inside { is_aside held.now.stripe.state key ≡ false }
        requires none { chunk_and_stamp held.now.stripe.state key ≡ None }
        ensures arena { IsHandOf self.now hand.new }
        ensures locks { hand.new.locks ≡ hand.old.locks }
        ensures number { hand.new.number ≡ hand.old.number }
        ensures happens { Happens (view hand.old) (call_of deletes key ∷ [])
            (step.MissStripe held.now.number) (view hand.new) }
        ensures view { view hand.new
            ≡ (if deletes then key_not_deleted hand.old.number held.now.number held.now.stripe key
            (view hand.old) else key_missed hand.old.number held.now.number held.now.stripe key
            (view hand.old)) }
    {
        let stripe = held.number;
        let word = Lock::StripeLock(stripe).word();
        self.tell(&mut hand.seat, word, change, Step::MissStripe(stripe));
    }
}
