//! The calls on pages and lists, each as a change of the state.
ghost use Rattle.std.specs.Prelude.{◌≡◌, true};
ghost use Rattle.mc_pages.specs.SlabState.{class_of_page, class_of_chunk};
ghost use Rattle.mc_pages.specs.Changes.{after_pop, after_back, after_touch, after_replace, after_clear, after_cut};
ghost use Rattle.mc_pages.specs.Moves.{after_finish, after_passed, after_wrap};
ghost use Rattle.mc_pages.specs.Pages.{is_on_the_move};
ghost use Rattle.mc_core.specs.model.State.{is_class, with_slabs};
ghost use Rattle.mc_core.specs.run.Silent.{is_among, is_handed_out, is_listed, run_of, can_finish, can_pass, can_wrap};
ghost use Rattle.mc_core.specs.run.Chunks.{next_free, is_next_uncut};

use super::State;
use mc_classes::ClassId;
use mc_pages::{ChunkId, Found};

impl State {
    /// The class's next free chunk leaves the free list.
    pub(super) fn list_pop(&mut self, class: ClassId) -> Option<ChunkId>
        requires { is_class self.old.table class ≡ true }
        ensures chunk { result ≡ next_free self.old class }
        ensures popped { self.new ≡ with_slabs self.old (after_pop self.old.slabs class) }
    {
        self.slabs.pop(class)
    }

    /// A handed-out chunk goes to its free list.
    pub(super) fn list_back(&mut self, chunk: ChunkId)
        requires { is_handed_out self.old.slabs chunk ≡ true }
        ensures { self.new ≡ with_slabs self.old (after_back self.old.slabs chunk) }
    {
        self.slabs.back(chunk);
    }

    /// A handed-out chunk goes to the back of its hand-out order.
    pub(super) fn list_touch(&mut self, chunk: ChunkId)
        requires { is_handed_out self.old.slabs chunk ≡ true }
        ensures { self.new ≡ with_slabs self.old (after_touch self.old.slabs chunk) }
    {
        self.slabs.touch(chunk);
    }

    /// A free chunk takes the place of a handed-out one.
    pub(super) fn list_replace(&mut self, chunk: ChunkId, old: ChunkId)
        requires free { is_among (class_of_chunk self.old.slabs old).free chunk ≡ true }
        requires handed_out { is_handed_out self.old.slabs old ≡ true }
        ensures { self.new ≡ with_slabs self.old (after_replace self.old.slabs chunk old) }
    {
        self.slabs.replace(chunk, old);
    }

    /// A chunk of the moving page leaves the list that it is in.
    pub(super) fn list_clear(&mut self, chunk: ChunkId)
        requires moving { is_on_the_move self.old.slabs chunk.page ≡ true }
        requires listed { is_listed self.old.slabs (class_of_page self.old.slabs chunk.page) chunk
            ≡ true }
        ensures { self.new ≡ with_slabs self.old (after_clear self.old.slabs chunk) }
    {
        self.slabs.clear(chunk);
    }

    /// The next uncut chunk comes to the free list.
    pub(super) fn list_cut(&mut self, chunk: ChunkId)
        requires { is_next_uncut self.old.slabs chunk ≡ true }
        ensures { self.new ≡ with_slabs self.old (after_cut self.old.slabs chunk) }
    {
        self.slabs.cut(chunk.page, chunk.index);
    }

    /// The move ends.
    pub(super) fn list_finish(&mut self)
        requires { can_finish self.old.slabs self.old.slabs.moving ≡ true }
        ensures { self.new ≡ with_slabs self.old (after_finish self.old.slabs
            self.old.slabs.moving) }
    {
        self.slabs.finish_move();
    }

    /// The mover goes on behind the chunk at its position.
    pub(super) fn list_pass(&mut self, found: Found)
        requires { can_pass self.old.slabs found (run_of self.old.table self.old.slabs.moving)
            ≡ true }
        ensures { self.new ≡ with_slabs self.old (after_passed self.old.slabs found) }
    {
        self.slabs.passed(found);
    }

    /// The mover begins its pass anew.
    pub(super) fn list_wrap(&mut self)
        requires { can_wrap (run_of self.old.table self.old.slabs.moving) ≡ true }
        ensures { self.new ≡ with_slabs self.old (after_wrap self.old.slabs) }
    {
        self.slabs.wrap();
    }
}
