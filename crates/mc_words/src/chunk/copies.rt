//! Chunks that are handed out for copies of items on the moving page.
ghost use Rattle.std.specs.Prelude.{◌≡◌, ◌≤◌, true, false, length, None, Some, IfSome};
ghost use Rattle.mc_classes.specs.Limits.{most_refs};
ghost use Rattle.mc_pages.specs.Changes.{after_replace};
ghost use Rattle.mc_pages.specs.Pages.{is_on_the_move};
ghost use Rattle.mc_pages.specs.SlabState.{class_at, class_of_page};
ghost use Rattle.mc_core.specs.law.Judged.{sees_no_target};
ghost use Rattle.mc_core.specs.run.Silent.{is_handed_out};
ghost use Rattle.mc_core.specs.model.State.{has_chunk, is_class, room_in};
ghost use Rattle.mc_words.specs.hand.Arenas.{IsHandOf, setup_of, view};
ghost use Rattle.mc_words.specs.item.Fresh.{IsFreshOf};
ghost use Rattle.mc_words.specs.chunk.Copies.{FindsFit, PassesAll, PassesOver, PopsOff, SeesFit};

use crate::arena::Arena;
use crate::hand::Hand;
use crate::hand::held::{Fresh, SlabsHeld};
use crate::header::{HANDED_OUT, ISSUE_UNIT, MOST_ISSUE};
use mc_classes::{ClassId, PageId};
use mc_core::Step;
use mc_pages::ChunkId;

impl Arena {
    /// Hands out a chunk for a copy of the item in the old chunk of the moving page. It is the first of the class's free list
    /// that is off that page and whose issue number isn't used up. The new chunk takes the old one's place in the hand-out order,
    /// and the old one is directly behind it. None where there is no such chunk. (slabs.c's `slab_rebalance_alloc`)
    pub fn pop_off(&self, hand: &mut Hand, held: &mut SlabsHeld, old: ChunkId) -> Option<Fresh>
        requires arena { IsHandOf self.now hand.old }
        requires held { (view hand.old).slabs ≡ Some held.old.shared }
        requires moving { is_on_the_move held.old.shared old.page ≡ true }
        requires out { is_handed_out held.old.shared old ≡ true }
        requires room { length (view hand.old).row.holdings ≤ most_refs }
        ensures arena { IsHandOf self.now hand.new }
        ensures locks { hand.new.locks ≡ hand.old.locks }
        ensures held { (view hand.new).slabs ≡ Some held.new.shared }
        ensures none { result ≡ None →
            PassesAll old.page (class_at held.old.shared
            (class_of_page held.old.shared old.page)).free (view hand.old) (view hand.new)
            × (held.new.shared ≡ held.old.shared) }
        ensures no_target { result ≡ None →
            sees_no_target held.old.shared (view hand.new).row.looks old.page ≡ true }
        ensures popped { IfSome result (λ fresh. PopsOff
            (view hand.old) held.old.shared old fresh.chunk (view hand.new)
            × (held.new.shared ≡ after_replace held.old.shared fresh.chunk old)) }
        ensures fresh { IfSome result (λ fresh. (fresh.room
            ≡ room_in (setup_of self.now).table (class_of_page held.old.shared old.page))
            × IsFreshOf (view hand.new) fresh.chunk fresh.room) }
    {
        let class = held.slabs().owner(old.page).class();
        let Some(chunk) = self.find_fit(hand, held, class, old.page) else {
            return None;
        };
        let word = self.head_word(chunk);
        self.add(&mut hand.seat, word, HANDED_OUT, Step::PopOff(old));
        hand.chunks += 1;
        hand.fresh += 1;
        held.shared.slabs_mut().replace(chunk, old);
        let room = self.plan.classes().size(class) / 8;
        Some(Fresh {
            chunk,
            room,
            key: 0,
            stamp: 0,
        })
    }

    // The first free chunk of the class that is off the page and isn't used up.
    fn find_fit(
        &self,
        hand: &mut Hand,
        held: &SlabsHeld,
        class: ClassId,
        page: PageId,
    ) -> Option<ChunkId>
        requires arena { IsHandOf self.now hand.old }
        requires class { is_class (setup_of self.now).table class ≡ true }
        requires held { (view hand.old).slabs ≡ Some held.now.shared }
        ensures arena { IsHandOf self.now hand.new }
        ensures locks { hand.new.locks ≡ hand.old.locks }
        ensures held { (view hand.new).slabs ≡ Some held.now.shared }
        ensures found { IfSome result (λ chunk. FindsFit held.now.shared class page chunk
            (view hand.old) (view hand.new)) }
        ensures none { result ≡ None →
            PassesAll page (class_at held.now.shared class).free (view hand.old) (view hand.new) }
    {
        let mut next = held.slabs().first_free(class);
        while let Some(chunk) = next {
            if self.is_fit(hand, held, page, chunk) {
                return Some(chunk);
            }
            next = held.slabs().next_free(chunk);
        }
        None
    }

    // Whether the chunk is off the page and isn't used up.
    fn is_fit(&self, hand: &mut Hand, held: &SlabsHeld, page: PageId, chunk: ChunkId) -> bool
        requires arena { IsHandOf self.now hand.old }
        requires in_range { has_chunk (setup_of self.now).table chunk ≡ true }
        requires held { (view hand.old).slabs ≡ Some held.now.shared }
        ensures arena { IsHandOf self.now hand.new }
        ensures locks { hand.new.locks ≡ hand.old.locks }
        ensures held { (view hand.new).slabs ≡ Some held.now.shared }
        ensures fit { result ≡ true → SeesFit page chunk (view hand.old) (view hand.new) }
        ensures over { result ≡ false → PassesOver page chunk (view hand.old) (view hand.new) }
    {
        if chunk.page == page {
            return false;
        }
        self.head(hand, chunk) / ISSUE_UNIT < MOST_ISSUE
    }
}
