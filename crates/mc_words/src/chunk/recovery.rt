//! Dead chunks that are found by hints, and put back.
ghost use Rattle.std.specs.Prelude.{◌≡◌, ◌<◌, ◌≤◌, List, [], Some, false, true};
ghost use Rattle.mc_classes.specs.Limits.{most_page_chunks};
ghost use Rattle.mc_classes.specs.Classes.{arena_pages_of};
ghost use Rattle.mc_pages.specs.declared.ids.ChunkId.{ChunkId};
ghost use Rattle.mc_pages.specs.SlabState.{class_at, class_of_page};
ghost use Rattle.mc_core.specs.model.State.{has_chunk, is_class, most_of};
ghost use Rattle.mc_words.specs.hand.Arenas.{IsHandOf, setup_of, view};
ghost use Rattle.mc_words.specs.chunk.Dead.{AreHandedOut, AreJudged, IsAliveOrNoted};
ghost use Rattle.mc_words.specs.chunk.Sweeps.{Recovers, SeesHeaders, SweepsOneOf, with_seen};

use crate::arena::Arena;
use crate::chunk::dead::DeadChunks;
use crate::chunk::hints::{BITS, WORDS_A_PAGE};
use crate::hand::Hand;
use crate::hand::held::SlabsHeld;
use mc_classes::{ClassId, PageId};
use mc_pages::ChunkId;

impl Arena {
    /// Puts the chunk back that the hand left dead when it last stored over an item, if the class handed that one out and it is dead still. It
    /// follows no other hint, and puts nothing else back. False where the hand remembers no such chunk: nothing is done then. A hand remembers
    /// chunks from its first such call on. (own, as slabs.c frees a chunk when its last reference goes)
    pub fn recover_own(&self, hand: &mut Hand, held: &mut SlabsHeld, class: ClassId) -> bool
        requires arena { IsHandOf self.now hand.old }
        requires class { is_class (setup_of self.now).table class ≡ true }
        requires held { (view hand.old).slabs ≡ Some held.old.shared }
        ensures arena { IsHandOf self.now hand.new }
        ensures locks { hand.new.locks ≡ hand.old.locks }
        ensures held { (view hand.new).slabs ≡ Some held.new.shared }
        ensures recovers { result ≡ true → Recovers (class_at held.old.shared class).order
            (view hand.old) held.old.shared (view hand.new) held.new.shared }
        ensures one { result ≡ true → SweepsOneOf class
            (view hand.old) held.old.shared (view hand.new) held.new.shared }
        ensures view { view hand.new ≡ with_seen (view hand.old) (view hand.new) }
        ensures none { result ≡ false →
            (view hand.new ≡ view hand.old) × (held.new.shared ≡ held.old.shared) }
    {
        let Some(chunk) = hand.dead.take() else {
            return false;
        };
        if !self.is_of_class(hand, held, class, chunk) {
            self.hints.note(chunk);
            return false;
        }
        let _ = self.put_back(hand, held, chunk);
        true
    }

    // Whether the chunk is one of the arena's, on a page of the class.
    fn is_of_class(&self, hand: &Hand, held: &SlabsHeld, class: ClassId, chunk: ChunkId) -> bool
        requires arena { IsHandOf self.now hand.now }
        requires held { (view hand.now).slabs ≡ Some held.now.shared }
        ensures in_range { result ≡ true → has_chunk (setup_of self.now).table chunk ≡ true }
        ensures own { result ≡ true → class_of_page held.now.shared chunk.page ≡ class }
    {
        self.has_chunk(chunk) && held.slabs().owner(chunk.page).class() == class
    }

    /// Looks at those chunks of the class that hints name as perhaps dead, and puts back the dead ones, the oldest first. The
    /// call that leaves a chunk dead gives a hint of it, or its hand remembers it; but one that dies meanwhile may be missed. Where there is no
    /// hint at all, nothing is done. (own, as slabs.c frees a chunk when its last reference goes)
    pub fn recover(&self, hand: &mut Hand, held: &mut SlabsHeld, class: ClassId)
        requires arena { IsHandOf self.now hand.old }
        requires class { is_class (setup_of self.now).table class ≡ true }
        requires held { (view hand.old).slabs ≡ Some held.old.shared }
        ensures arena { IsHandOf self.now hand.new }
        ensures locks { hand.new.locks ≡ hand.old.locks }
        ensures held { (view hand.new).slabs ≡ Some held.new.shared }
        ensures recovers { Recovers (class_at held.old.shared class).order
            (view hand.old) held.old.shared (view hand.new) held.new.shared }
        ensures view { view hand.new ≡ with_seen (view hand.old) (view hand.new) }
    {
        self.hints.note_kept(hand.dead);
        hand.dead = hand.dead.without_chunk();
        if self.hints.pages() == 0 {
            return;
        }
        self.recover_hinted(hand, held, class);
    }

    // The same where there is a hint. It isn't inlined, so that a call without a hint makes no room for what it notes.
    #[inline(never)]
    fn recover_hinted(&self, hand: &mut Hand, held: &mut SlabsHeld, class: ClassId)
        requires arena { IsHandOf self.now hand.old }
        requires class { is_class (setup_of self.now).table class ≡ true }
        requires held { (view hand.old).slabs ≡ Some held.old.shared }
        ensures arena { IsHandOf self.now hand.new }
        ensures locks { hand.new.locks ≡ hand.old.locks }
        ensures held { (view hand.new).slabs ≡ Some held.new.shared }
        ensures recovers { Recovers (class_at held.old.shared class).order
            (view hand.old) held.old.shared (view hand.new) held.new.shared }
        ensures view { view hand.new ≡ with_seen (view hand.old) (view hand.new) }
    {
        let mut dead = DeadChunks::new();
        self.look_at_hints(hand, held, class, &mut dead);
        self.put_back_dead(hand, held, class, &mut dead);
    }

    // Follows the hints on the class's pages, and notes which chunks are dead.
    fn look_at_hints(
        &self,
        hand: &mut Hand,
        held: &SlabsHeld,
        class: ClassId,
        dead: &mut DeadChunks,
    )
        requires arena { IsHandOf self.now hand.old }
        requires class { is_class (setup_of self.now).table class ≡ true }
        requires held { (view hand.old).slabs ≡ Some held.now.shared }
        requires none { dead.old.chunks ≡ [] }
        ensures arena { IsHandOf self.now hand.new }
        ensures locks { hand.new.locks ≡ hand.old.locks }
        ensures held { (view hand.new).slabs ≡ Some held.now.shared }
        ensures sees { (looked : List ChunkId) × SeesHeaders looked (view hand.old) (view hand.new)
            × AreJudged looked (view hand.new).row.looks dead.new }
        ensures out { AreHandedOut (setup_of self.now).table held.now.shared class dead.new }
    {
        let per_page = held.slabs().per_page(class);
        let mut pages = self.hints.pages();
        for _ in 0..u128::BITS {
            let page = u64::from(pages.trailing_zeros());
            if page >= self.page_count() {
                return;
            }
            pages &= pages.wrapping_sub(1);
            if held.slabs().owner(page).class() != class {
                continue;
            }
            self.hints.take_page(page);
            self.look_at_page(hand, held, page, per_page, dead);
        }
    }

    // Follows the hints on a page, which has `count` chunks.
    fn look_at_page(
        &self,
        hand: &mut Hand,
        held: &SlabsHeld,
        page: PageId,
        per_page: u64,
        dead: &mut DeadChunks,
    )
        requires arena { IsHandOf self.now hand.old }
        requires page { page < arena_pages_of (setup_of self.now).table }
        requires most { per_page ≤ most_of (setup_of self.now).table }
        requires held { (view hand.old).slabs ≡ Some held.now.shared }
        requires out { AreHandedOut (setup_of self.now).table held.now.shared
            (class_of_page held.now.shared page) dead.old }
        ensures arena { IsHandOf self.now hand.new }
        ensures locks { hand.new.locks ≡ hand.old.locks }
        ensures held { (view hand.new).slabs ≡ Some held.now.shared }
        ensures sees { (looked : List ChunkId) × SeesHeaders looked (view hand.old) (view hand.new)
            × AreJudged looked (view hand.new).row.looks dead.new }
        ensures kept { (other : ChunkId) → IsAliveOrNoted (view hand.old).row.looks dead.old other →
            IsAliveOrNoted (view hand.new).row.looks dead.new other }
        ensures out { AreHandedOut (setup_of self.now).table held.now.shared
            (class_of_page held.now.shared page) dead.new }
    {
        for word in 0..WORDS_A_PAGE {
            let first = ChunkId {
                page,
                index: word * BITS,
            };
            let hinted = self.hints.take_chunks(page, word);
            self.look_at_each(hand, held, first, hinted, per_page, dead);
        }
    }

    // Looks at those of 64 chunks of a page, from the first on, of which a bit is set. The page has `count` chunks.
    fn look_at_each(
        &self,
        hand: &mut Hand,
        held: &SlabsHeld,
        first: ChunkId,
        hinted: u64,
        per_page: u64,
        dead: &mut DeadChunks,
    )
        requires arena { IsHandOf self.now hand.old }
        requires page { first.page < arena_pages_of (setup_of self.now).table }
        requires within_limit { first.index ≤ most_page_chunks }
        requires most { per_page ≤ most_of (setup_of self.now).table }
        requires held { (view hand.old).slabs ≡ Some held.now.shared }
        requires out { AreHandedOut (setup_of self.now).table held.now.shared
            (class_of_page held.now.shared first.page) dead.old }
        ensures arena { IsHandOf self.now hand.new }
        ensures locks { hand.new.locks ≡ hand.old.locks }
        ensures held { (view hand.new).slabs ≡ Some held.now.shared }
        ensures sees { (looked : List ChunkId) × SeesHeaders looked (view hand.old) (view hand.new)
            × AreJudged looked (view hand.new).row.looks dead.new }
        ensures kept { (other : ChunkId) → IsAliveOrNoted (view hand.old).row.looks dead.old other →
            IsAliveOrNoted (view hand.new).row.looks dead.new other }
        ensures out { AreHandedOut (setup_of self.now).table held.now.shared
            (class_of_page held.now.shared first.page) dead.new }
    {
        let mut hinted = hinted;
        for _ in 0..BITS {
            let index = first.index + u64::from(hinted.trailing_zeros());
            if hinted == 0 || index >= per_page {
                return;
            }
            hinted &= hinted.wrapping_sub(1);
            let chunk = ChunkId { index, ..first };
            self.judge(hand, held, self.head_word(chunk), chunk, dead);
        }
    }
}
