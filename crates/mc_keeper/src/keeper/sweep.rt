//! Dead chunks are put back: those that neither a key leads to nor anybody holds.
ghost use Rattle.std.specs.Prelude.{◌≡◌, nat_lt, true, [], ◌∷◌, Contains, IfSome, length};
ghost use Rattle.mc_pages.specs.SlabState.{HasClass, class_at, class_of_page, class_of_chunk};
ghost use Rattle.mc_serial_spec.specs.Machine.{dead_chunks, is_dead_in, has_unheld_linked_item, machine_after_sweep, all_swept, after_reclaim};

use super::Keeper;
use super::noted::DeadNotes;
use mc_classes::ClassId;
use mc_pages::ChunkId;
use mc_serial_parts::class_of;
use std::mem;

impl Keeper {
    /// Puts back the dead chunks of a class, the one that was handed out first of all first.
    pub(super) fn sweep_class(&mut self, class: ClassId)
        requires { HasClass self.old.slabs class }
        ensures swept { self.new ≡ machine_after_sweep self.old class }
    {
        match self.only_dead(class) {
            Some(chunk) => self.reclaim_only(class, chunk),
            None => self.sweep_several(class),
        }
    }

    /// Puts back the only dead chunk of the class.
    fn reclaim_only(&mut self, class: ClassId, chunk: ChunkId)
        requires class { HasClass self.old.slabs class }
        requires own { class_of_page self.old.slabs chunk.page ≡ class }
        requires dead { is_dead_in self.old chunk ≡ true }
        requires listed { Contains (class_at self.old.slabs class).order chunk }
        ensures reclaimed { self.new ≡ after_reclaim self.old chunk }
    {
        self.reclaim(chunk);
        self.hints.noted.forget(class);
    }

    /// Puts back the dead chunks of a class, as they are noted where those are all, else on a walk.
    fn sweep_several(&mut self, class: ClassId)
        requires { HasClass self.old.slabs class }
        ensures swept { self.new ≡ machine_after_sweep self.old class }
    {
        let mut noted = mem::replace(&mut self.hints.noted, DeadNotes::none(self.alloc));
        match noted.of_mut(class) {
            Some(chunks) => self.sweep_noted(class, chunks),
            None => self.sweep_order(class),
        }
        noted.forget(class);
        self.hints.noted = noted;
    }

    /// Puts back the dead chunks of a class, these where they are all, else on a walk.
    fn sweep_noted(&mut self, class: ClassId, chunks: &mut [ChunkId])
        requires { HasClass self.old.slabs class }
        ensures swept { self.new ≡ machine_after_sweep self.old class }
    {
        self.sort_dead(class, chunks);
        if self.is_dead_order(class, chunks) {
            self.reclaim_each(class, chunks);
        } else {
            self.sweep_order(class);
        }
    }

    /// Puts back the dead chunks of a class, which these are.
    fn reclaim_each(&mut self, class: ClassId, chunks: &[ChunkId])
        requires class { HasClass self.old.slabs class }
        requires all { dead_chunks self.old class ≡ chunks.now }
        ensures swept { self.new ≡ machine_after_sweep self.old class }
    {
        for place in 0..chunks.len() {
            // a look at one of the keeper's fields makes it known that the keeper is consistent
            let _ = &self.slabs;
            self.reclaim(chunks[place]);
        }
    }

    /// The only dead chunk of the class, where it has one alone and that is the one which came last.
    fn only_dead(&self, class: ClassId) -> Option<ChunkId>
        requires { HasClass self.now.slabs class }
        ensures only { IfSome result (λ chunk. dead_chunks self.now class ≡ chunk ∷ []) }
        ensures dead { IfSome result (λ chunk. is_dead_in self.now chunk ≡ true) }
        ensures own { IfSome result (λ chunk. class_of_page self.now.slabs chunk.page ≡ class) }
        ensures listed { IfSome result (λ chunk. Contains
            (class_at self.now.slabs class).order chunk) }
    {
        if self.dead.of(class) != 1 {
            return None;
        }
        let chunk = self.hints.last.of(class)?;
        if self.is_dead(chunk) && class_of(&self.slabs, chunk) == class {
            return Some(chunk);
        }
        None
    }

    /// Puts back the dead chunks of a class, on a walk along the hand-out order as far as the last of them.
    fn sweep_order(&mut self, class: ClassId)
        requires { HasClass self.old.slabs class }
        ensures swept { self.new ≡ machine_after_sweep self.old class }
    {
        let mut next = self.slabs.first_out(class);
        while let Some(chunk) = next {
            if !self.has_dead(class) {
                return;
            }
            next = self.slabs.next_out(chunk);
            if self.is_dead(chunk) {
                self.reclaim(chunk);
            }
        }
    }

    /// Puts back the dead chunks of all classes, class 1 first, and in each the one handed out first of all first: chunks whose item no
    /// key leads to and nobody holds. The items are gone then, and the chunks free. It takes no memory. (own: memcached puts a
    /// chunk back where its last reference goes)
    pub fn sweep(&mut self)
        ensures swept { self.new ≡ all_swept self.old }
    {
        for place in 0..self.table.count() {
            self.sweep_class(place + 1);
        }
    }

    /// Whether a handed-out chunk of the class is dead.
    fn has_dead(&self, class: ClassId) -> bool
        requires { HasClass self.now.slabs class }
        ensures some { result ≡ nat_lt 0 (length (dead_chunks self.now class)) }
    {
        self.dead.of(class) > 0
    }

    /// Whether neither a key leads to the chunk's item nor anybody holds it.
    pub(super) fn is_dead(&self, chunk: ChunkId) -> bool
        ensures dead { result ≡ is_dead_in self.now chunk }
    {
        match self.items.get(chunk) {
            Some(item) => !item.is_linked() && !self.holds.is_held(chunk),
            None => false,
        }
    }

    /// Whether a key leads to the chunk's item, and nobody holds it.
    pub(super) fn is_linked_unheld(&self, chunk: ChunkId) -> bool
        ensures unheld { result ≡ has_unheld_linked_item self.now chunk }
    {
        match self.items.get(chunk) {
            Some(item) => item.is_linked() && !self.holds.is_held(chunk),
            None => false,
        }
    }

    /// Puts a dead chunk back, and its item is gone.
    fn reclaim(&mut self, chunk: ChunkId)
        requires dead { is_dead_in self.old chunk ≡ true }
        requires class { HasClass self.old.slabs (class_of_page self.old.slabs chunk.page) }
        requires listed { Contains (class_of_chunk self.old.slabs chunk).order chunk }
        ensures reclaimed { self.new ≡ after_reclaim self.old chunk }
    {
        let class = class_of(&self.slabs, chunk);
        self.slabs.back(chunk);
        self.items.remove(chunk);
        self.dead.decrement(class);
    }
}
