//! Chunks that are handed out, put back and cut, under the slabs lock.
ghost use Rattle.std.specs.Prelude.{◌≡◌, ℕ, ◌<◌, ◌≤◌, [], true, false, length, None, Some, Ok, IfOk, IfSome, IsOk, OnOk, OnErr};
ghost use Rattle.std.specs.Option.{option_map};
ghost use Rattle.mc_classes.specs.Limits.{most_refs};
ghost use Rattle.mc_pages.specs.ClassState.{first_free};
ghost use Rattle.mc_pages.specs.SlabState.{class_at, class_of_chunk};
ghost use Rattle.mc_pages.specs.Changes.{after_back, after_cut, after_pop};
ghost use Rattle.mc_core.specs.run.Chunks.{most_issue};
ghost use Rattle.mc_core.specs.model.Head.{is_dead};
ghost use Rattle.mc_core.specs.law.Seen.{seen_head};
ghost use Rattle.mc_core.specs.run.Silent.{is_handed_out};
ghost use Rattle.mc_core.specs.model.State.{has_chunk, is_class, room_in};
ghost use Rattle.mc_core.specs.declared.head.Head.{Head};
ghost use Rattle.mc_core.specs.declared.event.Step.TheVariants as step;
ghost use Rattle.mc_words.specs.hand.Arenas.{IsHandOf, setup_of, view};
ghost use Rattle.mc_words.specs.item.Fresh.{IsFreshOf};
ghost use Rattle.mc_words.specs.rule.Happens.{Happens};
ghost use Rattle.mc_words.specs.page.Owner.{Cuts, PopsFirst, PutsBack, SeesOther};

use crate::arena::Arena;
use crate::hand::Hand;
use crate::hand::held::{Fresh, Moved, SlabsHeld, WornOut};
use crate::header::{DEAD, HANDED_OUT, ISSUE_UNIT, MOST_ISSUE, TAG_UNIT};
use mc_classes::{ClassId, PageId};
use mc_core::Step;
use mc_pages::ChunkId;

impl Arena {
    /// Hands out the chunk at the head of the class's free list. None where that is empty; and a chunk with the greatest
    /// issue number stays. (slabs.c's `do_slabs_alloc`)
    #[inline(always)]
    pub fn pop(
        &self,
        hand: &mut Hand,
        held: &mut SlabsHeld,
        class: ClassId,
    ) -> Result<Option<Fresh>, WornOut>
        requires arena { IsHandOf self.now hand.old }
        requires class { is_class (setup_of self.now).table class ≡ true }
        requires held { (view hand.old).slabs ≡ Some held.old.shared }
        requires room { length (view hand.old).row.holdings ≤ most_refs }
        ensures arena { IsHandOf self.now hand.new }
        ensures locks { hand.new.locks ≡ hand.old.locks }
        ensures held { (view hand.new).slabs ≡ Some held.new.shared }
        ensures none { result ≡ Ok None → (first_free (class_at held.old.shared class) ≡ None)
            × (held.new.shared ≡ held.old.shared) × (view hand.new ≡ view hand.old) }
        ensures popped { IfOk result (λ popped. IfSome popped (λ fresh.
            PopsFirst (view hand.old) held.old.shared class fresh.chunk (view hand.new)
            × (held.new.shared ≡ after_pop held.old.shared class))) }
        ensures fresh { IfOk result (λ popped. IfSome popped (λ fresh.
            (fresh.room ≡ room_in (setup_of self.now).table class)
            × IsFreshOf (view hand.new) fresh.chunk fresh.room)) }
        ensures worn { OnErr result (SeesOther (view hand.old)
            (first_free (class_at held.old.shared class)) (λ head. most_issue
            ≤ head.issue) (view hand.new) × (held.new.shared ≡ held.old.shared)) }
    {
        let Some(chunk) = held.slabs().first_free(class) else {
            return Ok(None);
        };
        let head = self.head(hand, chunk);
        if head / ISSUE_UNIT >= MOST_ISSUE {
            return Err(WornOut);
        }
        let word = self.head_word(chunk);
        self.add(&mut hand.seat, word, HANDED_OUT, Step::Pop(class));
        hand.chunks += 1;
        hand.fresh += 1;
        held.shared.slabs_mut().pop(class);
        let room = self.plan.classes().size(class) / 8;
        Ok(Some(Fresh {
            chunk,
            room,
            key: 0,
            stamp: 0,
        }))
    }

    /// Puts a dead chunk at the head of its free list. One that isn't dead stays; but what the hand last saw dead under this hold
    /// of the slabs lock is so still. (slabs.c's `do_slabs_free`)
    pub fn put_back(
        &self,
        hand: &mut Hand,
        held: &mut SlabsHeld,
        chunk: ChunkId,
    ) -> Result<(), Moved>
        requires arena { IsHandOf self.now hand.old }
        requires in_range { has_chunk (setup_of self.now).table chunk ≡ true }
        requires held { (view hand.old).slabs ≡ Some held.old.shared }
        ensures arena { IsHandOf self.now hand.new }
        ensures locks { hand.new.locks ≡ hand.old.locks }
        ensures held { (view hand.new).slabs ≡ Some held.new.shared }
        ensures back { OnOk result (PutsBack (view hand.old) held.old.shared chunk (view hand.new)
            × (held.new.shared ≡ after_back held.old.shared chunk)) }
        ensures moved { OnErr result (SeesOther (view hand.old) (Some chunk) (λ head.
            is_dead head ≡ false) (view hand.new) × (held.new.shared ≡ held.old.shared)) }
        ensures succeeds { option_map is_dead (seen_head (view hand.old).row.looks chunk)
            ≡ Some true → IsOk result }
    {
        let head = self.head(hand, chunk);
        if head % ISSUE_UNIT != DEAD {
            return Err(Moved);
        }
        let word = self.head_word(chunk);
        let _ = self.subtract(&mut hand.seat, word, TAG_UNIT, Step::PutBack(chunk));
        held.shared.slabs_mut().back(chunk);
        Ok(())
    }

    /// Cuts the lowest uncut chunk of the page that was given last.
    pub fn cut(&self, hand: &mut Hand, held: &mut SlabsHeld, page: PageId, index: u64)
        requires arena { IsHandOf self.now hand.old }
        requires next { held.old.shared.uncut ≡ Some (record { page = page; index = index }) }
        requires held { (view hand.old).slabs ≡ Some held.old.shared }
        ensures arena { IsHandOf self.now hand.new }
        ensures locks { hand.new.locks ≡ hand.old.locks }
        ensures held { (view hand.new).slabs ≡ Some held.new.shared }
        ensures cut { Cuts (view hand.old) held.old.shared (record { page = page; index = index })
            (view hand.new) }
        ensures shared { held.new.shared ≡ after_cut held.old.shared
            (record { page = page; index = index }) }
    {
        let word = self.head_word(ChunkId { page, index });
        self.add(&mut hand.seat, word, TAG_UNIT, Step::Cut(page, index));
        held.shared.slabs_mut().cut(page, index);
    }
}
