//! Sweeps: the dead chunks of a class are put back.
ghost use Rattle.std.specs.Prelude.{◌≡◌, Contains, List, Some, true};
ghost use Rattle.std.specs.List.{list_all};
ghost use Rattle.mc_pages.specs.declared.ids.ChunkId.{ChunkId};
ghost use Rattle.mc_pages.specs.SlabState.{class_at};
ghost use Rattle.mc_core.specs.model.Looks.{is_found_alive};
ghost use Rattle.mc_core.specs.model.State.{has_chunk, is_class};
ghost use Rattle.mc_words.specs.hand.Arenas.{IsHandOf, setup_of, view};
ghost use Rattle.mc_words.specs.chunk.Dead.{AreHandedOut, IsAliveOrNoted};
ghost use Rattle.mc_words.specs.chunk.Sweeps.{Sweeps, SweepsEach, is_in_sequence, with_seen};

use crate::arena::Arena;
use crate::chunk::dead::DeadChunks;
use crate::hand::Hand;
use crate::hand::held::SlabsHeld;
use mc_classes::ClassId;
use mc_pages::ChunkId;

impl Arena {
    /// Looks at each chunk that the class handed out, and puts back the dead ones, the oldest first. Afterwards none of the class
    /// is dead, as far as the hand saw, and where the class lacks room an item may be evicted. The call looks along the pages,
    /// where the headers are side by side. It walks along the hand-out order only where more than sixteen chunks are dead, or two
    /// of the same age. (own, as slabs.c frees a chunk when its last reference goes)
    pub fn sweep(&self, hand: &mut Hand, held: &mut SlabsHeld, class: ClassId)
        requires arena { IsHandOf self.now hand.old }
        requires class { is_class (setup_of self.now).table class ≡ true }
        requires held { (view hand.old).slabs ≡ Some held.old.shared }
        ensures arena { IsHandOf self.now hand.new }
        ensures locks { hand.new.locks ≡ hand.old.locks }
        ensures held { (view hand.new).slabs ≡ Some held.new.shared }
        ensures swept { Sweeps (class_at held.old.shared class).order
            (view hand.old) held.old.shared (view hand.new) held.new.shared }
        ensures view { view hand.new ≡ with_seen (view hand.old) (view hand.new) }
        ensures alive { list_all (is_found_alive (view hand.new).row.looks)
            (class_at held.new.shared class).order ≡ true }
    {
        let mut dead = DeadChunks::new();
        self.look_over(hand, held, class, &mut dead);
        self.put_back_dead(hand, held, class, &mut dead);
    }

    // Puts back the dead chunks that were noted, where they still are dead, the oldest first. Where that order isn't known, it walks.
    pub(crate) fn put_back_dead(
        &self,
        hand: &mut Hand,
        held: &mut SlabsHeld,
        class: ClassId,
        dead: &mut DeadChunks,
    )
        requires arena { IsHandOf self.now hand.old }
        requires class { is_class (setup_of self.now).table class ≡ true }
        requires out { AreHandedOut (setup_of self.now).table held.old.shared class dead.old }
        requires held { (view hand.old).slabs ≡ Some held.old.shared }
        ensures arena { IsHandOf self.now hand.new }
        ensures locks { hand.new.locks ≡ hand.old.locks }
        ensures held { (view hand.new).slabs ≡ Some held.new.shared }
        ensures each { (again : List ChunkId)
            × (is_in_sequence (class_at held.old.shared class).order again ≡ true)
            × SweepsEach again (view hand.old) held.old.shared (view hand.new) held.new.shared }
        ensures alive { (chunk : ChunkId) → (Contains (class_at held.old.shared class).order chunk →
            IsAliveOrNoted (view hand.old).row.looks dead.old chunk) →
            Contains (class_at held.new.shared class).order chunk →
            is_found_alive (view hand.new).row.looks chunk ≡ true }
    {
        if dead.put_in_order(held.slabs()) {
            self.put_back_each(hand, held, dead.as_slice());
        } else {
            self.walk(hand, held, class);
        }
    }

    // Puts back these chunks, where they are dead.
    fn put_back_each(&self, hand: &mut Hand, held: &mut SlabsHeld, chunks: &[ChunkId])
        requires arena { IsHandOf self.now hand.old }
        requires in_range { (chunk : ChunkId) → Contains chunks.now chunk →
            has_chunk (setup_of self.now).table chunk ≡ true }
        requires held { (view hand.old).slabs ≡ Some held.old.shared }
        ensures arena { IsHandOf self.now hand.new }
        ensures locks { hand.new.locks ≡ hand.old.locks }
        ensures held { (view hand.new).slabs ≡ Some held.new.shared }
        ensures each { SweepsEach chunks.now (view hand.old) held.old.shared
            (view hand.new) held.new.shared }
    {
        for chunk in chunks {
            let _ = self.put_back(hand, held, *chunk);
        }
    }

    // Walks along the class's hand-out order, the oldest chunk first, and puts back the dead ones.
    pub(crate) fn walk(&self, hand: &mut Hand, held: &mut SlabsHeld, class: ClassId)
        requires arena { IsHandOf self.now hand.old }
        requires class { is_class (setup_of self.now).table class ≡ true }
        requires held { (view hand.old).slabs ≡ Some held.old.shared }
        ensures arena { IsHandOf self.now hand.new }
        ensures locks { hand.new.locks ≡ hand.old.locks }
        ensures held { (view hand.new).slabs ≡ Some held.new.shared }
        ensures each { SweepsEach (class_at held.old.shared class).order
            (view hand.old) held.old.shared (view hand.new) held.new.shared }
        ensures alive { list_all (is_found_alive (view hand.new).row.looks)
            (class_at held.new.shared class).order ≡ true }
    {
        let mut next = held.slabs().first_out(class);
        while let Some(chunk) = next {
            next = held.slabs().next_out(chunk);
            let _ = self.put_back(hand, held, chunk);
        }
    }
}
