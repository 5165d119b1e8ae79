//! Looks along the pages of a class, on which the headers of chunks are side by side.
ghost use Rattle.std.specs.List.{list_all};
ghost use Rattle.std.specs.Prelude.{◌≡◌, ℕ, ◌+◌, ◌<◌, ◌≤◌, Contains, List, [], Some, true};
ghost use Rattle.mc_classes.specs.Classes.{arena_pages_of};
ghost use Rattle.mc_pages.specs.declared.ids.ChunkId.{ChunkId};
ghost use Rattle.mc_pages.specs.SlabState.{class_at, class_of_page};
ghost use Rattle.mc_core.specs.model.Looks.{is_found_alive};
ghost use Rattle.mc_core.specs.run.Silent.{is_among};
ghost use Rattle.mc_core.specs.model.State.{has_chunk, is_class, most_of};
ghost use Rattle.mc_words.specs.hand.Arenas.{IsHandOf, setup_of, view};
ghost use Rattle.mc_words.specs.chunk.Dead.{AreHandedOut, IsAliveOrNoted, IsOutside, NotedChunks};
ghost use Rattle.mc_words.specs.rule.Layout.{head_word};
ghost use Rattle.mc_words.specs.chunk.Sweeps.{LooksAlong, SeesHeader, SeesHeaders};

use crate::arena::Arena;
use crate::chunk::dead::DeadChunks;
use crate::hand::Hand;
use crate::hand::held::SlabsHeld;
use crate::header::{DEAD, ISSUE_UNIT, TAG_UNIT};
use mc_classes::{ClassId, PageId};
use mc_pages::ChunkId;

impl Arena {
    // Looks at each chunk of the class's pages, free ones too, and notes which are dead.
    pub(crate) fn look_over(
        &self,
        hand: &mut Hand,
        held: &SlabsHeld,
        class: ClassId,
        dead: &mut DeadChunks,
    )
        requires arena { IsHandOf self.now hand.old }
        requires class { is_class (setup_of self.now).table class ≡ true }
        requires held { (view hand.old).slabs ≡ Some held.now.shared }
        requires none { dead.old.chunks ≡ [] }
        ensures arena { IsHandOf self.now hand.new }
        ensures locks { hand.new.locks ≡ hand.old.locks }
        ensures held { (view hand.new).slabs ≡ Some held.now.shared }
        ensures sees { (looked : List ChunkId) × SeesHeaders looked (view hand.old) (view hand.new)
            × (list_all (is_among looked) (class_at held.now.shared class).order ≡ true) }
        ensures judged { (chunk : ChunkId) → Contains (class_at held.now.shared class).order chunk →
            IsAliveOrNoted (view hand.new).row.looks dead.new chunk }
        ensures out { AreHandedOut (setup_of self.now).table held.now.shared class dead.new }
    {
        let per_page = held.slabs().per_page(class);
        for page in 0..self.classes().arena_pages() {
            if held.slabs().owner(page).class() != class {
                continue;
            }
            self.look_along(hand, held, page, per_page, dead);
        }
    }

    // Looks at n chunks of a page, from its first on. It looks at four at a time, and once more at each of four where one may be
    // dead: so a header costs little more than its load.
    fn look_along(
        &self,
        hand: &mut Hand,
        held: &SlabsHeld,
        page: PageId,
        per_page: u64,
        dead: &mut DeadChunks,
    )
        requires arena { IsHandOf self.now hand.old }
        requires page { page < arena_pages_of (setup_of self.now).table }
        requires most { per_page ≤ most_of (setup_of self.now).table }
        requires held { (view hand.old).slabs ≡ Some held.now.shared }
        requires out { AreHandedOut (setup_of self.now).table held.now.shared
            (class_of_page held.now.shared page) dead.old }
        ensures arena { IsHandOf self.now hand.new }
        ensures locks { hand.new.locks ≡ hand.old.locks }
        ensures held { (view hand.new).slabs ≡ Some held.now.shared }
        ensures sees { LooksAlong page 0 per_page (view hand.old) (view hand.new) }
        ensures out { AreHandedOut (setup_of self.now).table held.now.shared
            (class_of_page held.now.shared page) dead.new }
        ensures judged { (index : ℕ) → index < per_page →
            IsAliveOrNoted (view hand.new).row.looks dead.new
            (record { page = page; index = index }) }
        ensures kept { (other : ChunkId) → IsAliveOrNoted (view hand.old).row.looks dead.old other →
            IsAliveOrNoted (view hand.new).row.looks dead.new other }
    {
        let heads = self.heads_of_page(page);
        let fours = per_page / 4;
        for four in 0..fours {
            let first = ChunkId {
                page,
                index: 4 * four,
            };
            if self.are_linked_or_free(hand, held, heads, first) {
                continue;
            }
            self.look_from(hand, held, heads, first, 4, dead);
        }
        let first = ChunkId {
            page,
            index: 4 * fours,
        };
        self.look_from(hand, held, heads, first, per_page % 4, dead);
    }

    // Looks at four chunks of a page, from one on. Returns whether each is linked or free, which the lowest bit of its tag shows:
    // then none is dead. There is one test for all four, and no branch between the loads.
    #[inline(always)]
    fn are_linked_or_free(
        &self,
        hand: &mut Hand,
        held: &SlabsHeld,
        heads: usize,
        first: ChunkId,
    ) -> bool
        requires arena { IsHandOf self.now hand.old }
        requires page { first.page < arena_pages_of (setup_of self.now).table }
        requires most { first.index + 4 ≤ most_of (setup_of self.now).table }
        requires words { (index : ℕ) →
            head_word (setup_of self.now) (record { page = first.page; index = index })
            ≡ heads + index }
        requires within { heads + most_of (setup_of self.now).table
            ≤ self.now.table.shared.table_id.words }
        requires held { (view hand.old).slabs ≡ Some held.now.shared }
        ensures arena { IsHandOf self.now hand.new }
        ensures locks { hand.new.locks ≡ hand.old.locks }
        ensures held { (view hand.new).slabs ≡ Some held.now.shared }
        ensures sees { LooksAlong first.page first.index (first.index + 4) (view hand.old)
            (view hand.new) }
        ensures alive { result ≡ true → (index : ℕ) → first.index ≤ index →
            index < first.index + 4 →
            is_found_alive (view hand.new).row.looks (record { page = first.page; index = index })
            ≡ true }
        ensures kept { (dead : NotedChunks) (other : ChunkId) →
            IsOutside first.page first.index (first.index + 4) other →
            IsAliveOrNoted (view hand.old).row.looks dead other →
            IsAliveOrNoted (view hand.new).row.looks dead other }
    {
        let mut common = u64::MAX;
        for offset in 0..4 {
            let index = first.index + offset;
            let chunk = ChunkId { index, ..first };
            common &= self.head_at(hand, heads + index as usize, chunk);
        }
        common / TAG_UNIT % 2 == 1
    }

    // Looks at n chunks of a page, from one on, and notes the dead ones. The header of the page's first chunk is the word
    // `heads`.
    #[inline(never)]
    fn look_from(
        &self,
        hand: &mut Hand,
        held: &SlabsHeld,
        heads: usize,
        first: ChunkId,
        count: u64,
        dead: &mut DeadChunks,
    )
        requires arena { IsHandOf self.now hand.old }
        requires page { first.page < arena_pages_of (setup_of self.now).table }
        requires most { first.index + count ≤ most_of (setup_of self.now).table }
        requires words { (index : ℕ) →
            head_word (setup_of self.now) (record { page = first.page; index = index })
            ≡ heads + index }
        requires within { heads + most_of (setup_of self.now).table
            ≤ self.now.table.shared.table_id.words }
        requires held { (view hand.old).slabs ≡ Some held.now.shared }
        requires out { AreHandedOut (setup_of self.now).table held.now.shared
            (class_of_page held.now.shared first.page) dead.old }
        ensures arena { IsHandOf self.now hand.new }
        ensures locks { hand.new.locks ≡ hand.old.locks }
        ensures held { (view hand.new).slabs ≡ Some held.now.shared }
        ensures sees { LooksAlong first.page first.index (first.index + count) (view hand.old)
            (view hand.new) }
        ensures out { AreHandedOut (setup_of self.now).table held.now.shared
            (class_of_page held.now.shared first.page) dead.new }
        ensures judged { (index : ℕ) → first.index ≤ index → index < first.index + count →
            IsAliveOrNoted (view hand.new).row.looks dead.new
            (record { page = first.page; index = index }) }
        ensures kept { (other : ChunkId) → IsAliveOrNoted (view hand.old).row.looks dead.old other →
            IsAliveOrNoted (view hand.new).row.looks dead.new other }
    {
        for offset in 0..count {
            let index = first.index + offset;
            let chunk = ChunkId { index, ..first };
            self.judge(hand, held, heads + index as usize, chunk, dead);
        }
    }

    // Looks at a chunk, whose header is this word, and notes it where it is dead.
    #[inline(always)]
    pub(crate) fn judge(
        &self,
        hand: &mut Hand,
        held: &SlabsHeld,
        word: usize,
        chunk: ChunkId,
        dead: &mut DeadChunks,
    )
        requires arena { IsHandOf self.now hand.old }
        requires in_range { has_chunk (setup_of self.now).table chunk ≡ true }
        requires word { word ≡ head_word (setup_of self.now) chunk }
        requires within { word < self.now.table.shared.table_id.words }
        requires held { (view hand.old).slabs ≡ Some held.now.shared }
        requires out { AreHandedOut (setup_of self.now).table held.now.shared
            (class_of_page held.now.shared chunk.page) dead.old }
        ensures arena { IsHandOf self.now hand.new }
        ensures locks { hand.new.locks ≡ hand.old.locks }
        ensures held { (view hand.new).slabs ≡ Some held.now.shared }
        ensures out { AreHandedOut (setup_of self.now).table held.now.shared
            (class_of_page held.now.shared chunk.page) dead.new }
        ensures sees { SeesHeader (view hand.old) chunk (view hand.new) }
        ensures judged { IsAliveOrNoted (view hand.new).row.looks dead.new chunk }
        ensures kept { (other : ChunkId) → IsAliveOrNoted (view hand.old).row.looks dead.old other →
            IsAliveOrNoted (view hand.new).row.looks dead.new other }
    {
        let head = self.head_at(hand, word, chunk);
        if head % ISSUE_UNIT == DEAD {
            dead.note(chunk);
        }
    }
}
