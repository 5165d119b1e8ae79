//! The mover: it looks at the chunks of the page on the move, and clears them.
ghost use Rattle.std.specs.Prelude.{◌≡◌, ◌≢◌, ◌*◌, ◌<◌, ◌≤◌, true, false, IfOk, OnOk, OnErr, Contains, Some, None, Ok, Err};
ghost use Rattle.std.specs.Option.{option_map};
ghost use Rattle.mc_pages.specs.SlabState.{HasClass, class_of_page, class_of_chunk};
ghost use Rattle.mc_pages.specs.Accounted.{is_cleared, is_cut};
ghost use Rattle.mc_pages.specs.Moves.{CanFinish, is_held_up};
ghost use Rattle.mc_serial_spec.specs.declared.turn.Counts.{Counts};
ghost use Rattle.mc_serial_spec.specs.Items.{item_in_chunk};
ghost use Rattle.mc_serial_spec.specs.Machine.{is_dead_in, has_unheld_linked_item, machine_after_sweep};
ghost use Rattle.mc_serial_spec.specs.Mover.{AreAtMost, after_turns, is_at_end, looked_at, zero_counts, machine_after_save, target, turns_after_one, with_chunk, with_chunks, with_cleared, with_end, with_finish, with_saved};
ghost use Rattle.mc_keeper.specs.Stages.{look_stages, turn_stages, turns_stages, with_source_swept};

use super::Keeper;
use super::pages::cut_page;
use super::serve::Stop;
use mc_classes::{ClassId, PageId};
use mc_memory::Refused;
use mc_pages::{ChunkId, Found, Moving};
use mc_serial_parts::class_of;
use mc_serial_spec::{Counts, Ending};

/// The most turns of a run (own).
const MAX_TURNS: u64 = 1_000_000;

impl Keeper {
    /// One turn of the mover: looks at up to `bulk` chunks of the page on the move, and at the page's end begins anew or ends the
    /// move. Returns how it ended and how many chunks it cleared, of how many it rescued and evicted the item, and how many
    /// somebody holds. (slabs.c's `slab_rebalance_move` and `slab_rebalance_finish`; that a rescue keeps an item's age is own.)
    ///
    /// A keeper does 1,000,000 turns and no more: then it answers `Turns`, and all is as before (own). Where memory runs out, the turn is
    /// begun, and each chunk up to one was looked at, the dead of whose class were put back.
    pub fn turn(&mut self) -> Result<(Ending, Counts), Stop>
        ensures done { IfOk result (λ done. turns_after_one self.old zero_counts
            ≡ record { machine = self.new; counts = done.1; ending = done.0 }) }
        ensures some { OnOk result (self.old.turns < 1000000) }
        ensures stopped { result ≡ Err Stop.Turns →
            (1000000 ≤ self.old.turns) × (self.new ≡ self.old) }
        ensures refused { result ≡ Err (Stop.NoMemory tt) →
            Contains (turn_stages self.old zero_counts) self.new }
    {
        if self.turns >= MAX_TURNS {
            return Err(Stop::Turns);
        }
        let mut counts = Counts::new();
        match self.turn_on(&mut counts) {
            Ok(ending) => Ok((ending, counts)),
            Err(refused) => Err(Stop::NoMemory(refused)),
        }
    }

    /// Does n turns, or fewer where one finds no move or ends one. Returns what they did in all, and how the last one ended; none
    /// of 0 turns, which end idle. Where the keeper has no turns left for one of them, those before stay done.
    pub fn turns(&mut self, count: u64) -> Result<(Ending, Counts), Stop>
        requires { count ≤ 1000000 }
        ensures done { IfOk result (λ done. after_turns self.old count
            ≡ Some (record { machine = self.new; counts = done.1; ending = done.0 })) }
        ensures stopped { result ≡ Err Stop.Turns → after_turns self.old count ≡ None }
        ensures refused { OnErr result (Contains (turns_stages self.old count) self.new) }
    {
        let mut ending = Ending::Idle;
        let mut counts = Counts::new();
        for _ in 0..count {
            if self.turns >= MAX_TURNS {
                return Err(Stop::Turns);
            }
            ending = self.turn_on(&mut counts)?;
            if ending != Ending::Went {
                return Ok((ending, counts));
            }
        }
        Ok((ending, counts))
    }

    /// One turn, which goes on counting from these counts.
    fn turn_on(&mut self, counts: &mut Counts) -> Result<Ending, Refused>
        requires turns { self.old.turns < 1000000 }
        requires counts { AreAtMost (256 * 999999) counts.old }
        ensures refused { OnErr result (Contains (turn_stages self.old counts.old) self.new) }
        ensures done { IfOk result (λ ending. turns_after_one self.old counts.old
            ≡ record { machine = self.new; counts = counts.new; ending = ending }) }
    {
        self.turns += 1;
        self.steps(counts)?;
        Ok(self.end_turn())
    }

    /// Looks at as many chunks as a turn may, or fewer where no page moves or all of it was looked at.
    fn steps(&mut self, counts: &mut Counts) -> Result<(), Refused>
        requires { AreAtMost (256 * 999999) counts.old }
        ensures refused { OnErr result
            (Contains (look_stages self.old.bulk
            (record { machine = self.old; counts = counts.old })) self.new) }
        ensures done { OnOk result (with_chunks self.old.bulk
            (record { machine = self.old; counts = counts.old })
            ≡ record { machine = self.new; counts = counts.new }) }
    {
        for _ in 0..self.bulk {
            if !self.step(counts)? {
                return Ok(());
            }
        }
        Ok(())
    }

    /// Looks at the chunk at the move's position, and goes on from there. Returns whether there was one: nothing happens where no
    /// page moves or all of it was looked at.
    fn step(&mut self, counts: &mut Counts) -> Result<bool, Refused>
        requires { AreAtMost 256000000 counts.old }
        ensures looked { OnOk result
            (with_chunk (record { machine = self.old; counts = counts.old }) self.old.slabs.moving
            ≡ record { machine = self.new; counts = counts.new }) }
        ensures refused { OnErr result (self.new ≡ with_source_swept self.old
            self.old.slabs.moving) }
        ensures nothing { result ≡ Ok false → (self.new ≡ self.old) × (counts.new ≡ counts.old) }
    {
        let Some(moving) = self.slabs.moving() else {
            return Ok(false);
        };
        if self.is_at_end(moving) {
            return Ok(false);
        }
        let chunk = ChunkId {
            page: moving.page,
            index: moving.at,
        };
        let found = self.look(moving.src, chunk)?;
        self.slabs.passed(found);
        counts.count(found);
        Ok(true)
    }

    /// Whether all chunks of the page were looked at.
    fn is_at_end(&self, moving: Moving) -> bool
        requires { HasClass self.now.slabs moving.src }
        ensures at_end { result ≡ is_at_end self.now moving }
    {
        moving.at >= self.slabs.per_page(moving.src)
    }

    /// At the page's end the pass begins anew, or the move ends where nothing held it up.
    fn end_turn(&mut self) -> Ending
        ensures ended { (counts : Counts) →
            with_end (record { machine = self.old; counts = counts }) self.old.slabs.moving
            ≡ record { machine = self.new; counts = counts; ending = result } }
    {
        let Some(moving) = self.slabs.moving() else {
            return Ending::Idle;
        };
        if !self.is_at_end(moving) {
            return Ending::Went;
        }
        if moving.busy > 0 {
            self.slabs.wrap();
            return Ending::Went;
        }
        self.finish(moving);
        Ending::Finished
    }

    /// Ends the move, and cuts the page for its class.
    fn finish(&mut self, moving: Moving)
        requires { CanFinish self.old.slabs moving }
        ensures finished { self.new ≡ with_finish self.old moving }
    {
        self.slabs.finish_move();
        if moving.dst != 0 {
            cut_page(
                &mut self.slabs,
                moving.page,
                self.table.per_page(moving.dst),
            );
        }
    }

    /// Looks at a chunk of the moving page, and clears it where it can.
    fn look(&mut self, class: ClassId, chunk: ChunkId) -> Result<Found, Refused>
        requires class { HasClass self.old.slabs class }
        requires moving { option_map (λ move. move.page) self.old.slabs.moving ≡ Some chunk.page }
        requires cut { is_cut self.old.slabs class chunk ≡ true }
        ensures refused { OnErr result (self.new ≡ machine_after_sweep self.old class) }
        ensures looked { IfOk result (λ found. looked_at self.old class chunk
            ≡ record { machine = self.new; found = found }) }
        ensures clears { IfOk result (λ found. is_held_up found ≡ false →
            is_cleared self.new.slabs class chunk ≡ true) }
    {
        let Some(item) = self.items.get(chunk) else {
            return Ok(self.clear_free(class, chunk));
        };
        let is_linked = item.is_linked();
        if self.holds.is_held(chunk) {
            return Ok(Found::Busy);
        }
        if is_linked {
            return self.save(class, chunk);
        }
        self.clear(chunk);
        Ok(Found::Cleared)
    }

    /// Clears the chunk, which has no item, if it is free.
    fn clear_free(&mut self, class: ClassId, chunk: ChunkId) -> Found
        requires class { HasClass self.old.slabs class }
        requires moving { option_map (λ move. move.page) self.old.slabs.moving ≡ Some chunk.page }
        requires cut { is_cut self.old.slabs class chunk ≡ true }
        requires empty { item_in_chunk self.old.items chunk ≡ None }
        ensures looked { looked_at self.old class chunk
            ≡ record { machine = self.new; found = result } }
        ensures clears { is_cleared self.new.slabs class chunk ≡ true }
    {
        if self.slabs.is_free(chunk) {
            self.slabs.clear(chunk);
            Found::Cleared
        } else {
            Found::Already
        }
    }

    /// Clears the chunk, and its item is gone.
    fn clear(&mut self, chunk: ChunkId)
        requires moving { option_map (λ move. move.page) self.old.slabs.moving ≡ Some chunk.page }
        requires dead { is_dead_in self.old chunk ≡ true }
        ensures cleared { self.new ≡ with_cleared self.old chunk }
        ensures clears { is_cleared self.new.slabs (class_of_page self.old.slabs chunk.page) chunk
            ≡ true }
    {
        let class = class_of(&self.slabs, chunk);
        self.slabs.clear(chunk);
        self.items.remove(chunk);
        self.dead.decrement(class);
        self.hints.noted.omit(class, chunk);
    }

    /// Takes the chunk's item, which nobody holds, to a free chunk off the page, or else evicts it.
    fn save(&mut self, class: ClassId, chunk: ChunkId) -> Result<Found, Refused>
        requires class { HasClass self.old.slabs class }
        requires moving { option_map (λ move. move.page) self.old.slabs.moving ≡ Some chunk.page }
        requires own { class_of_page self.old.slabs chunk.page ≡ class }
        requires unheld { has_unheld_linked_item self.old chunk ≡ true }
        ensures refused { OnErr result (self.new ≡ machine_after_sweep self.old class) }
        ensures saved { IfOk result (λ found. machine_after_save self.old class chunk
            ≡ record { machine = self.new; found = found }) }
        ensures clears { IfOk result (λ found. is_held_up found ≡ false →
            is_cleared self.new.slabs class chunk ≡ true) }
    {
        self.sweep_class(class);
        match self.target(class, chunk.page) {
            Some(new) => {
                self.rescue(chunk, new)?;
                Ok(Found::Rescued)
            }
            None => {
                self.evict_moving(chunk);
                Ok(Found::Evicted)
            }
        }
    }

    /// The class's first free chunk off the page.
    fn target(&self, class: ClassId, page: PageId) -> Option<ChunkId>
        requires { HasClass self.now.slabs class }
        ensures target { result ≡ target self.now class page }
    {
        let mut next = self.slabs.first_free(class);
        while let Some(free) = next {
            if free.page != page {
                return Some(free);
            }
            next = self.slabs.next_free(free);
        }
        None
    }

    /// Takes the item of a chunk to a free one, which gets the old one's place in the hand-out order.
    fn rescue(&mut self, old: ChunkId, new: ChunkId) -> Result<(), Refused>
        requires moving { option_map (λ move. move.page) self.old.slabs.moving ≡ Some old.page }
        requires unheld { has_unheld_linked_item self.old old ≡ true }
        requires free { Contains (class_of_chunk self.old.slabs old).free new }
        requires off { new.page ≢ old.page }
        ensures rescued { OnOk result (self.new ≡ (with_saved self.old old (Some new)).machine) }
        ensures refused { OnErr result (self.new ≡ self.old) }
        ensures clears { OnOk result (is_cleared self.new.slabs
            (class_of_page self.old.slabs old.page) old ≡ true) }
    {
        let Some(key) = self.items.relocate(old, new)? else {
            return Ok(());
        };
        self.index.lead(key, new);
        self.slabs.replace(new, old);
        self.slabs.clear(old);
        Ok(())
    }

    /// Evicts the chunk's item, and clears the chunk.
    fn evict_moving(&mut self, chunk: ChunkId)
        requires moving { option_map (λ move. move.page) self.old.slabs.moving ≡ Some chunk.page }
        requires unheld { has_unheld_linked_item self.old chunk ≡ true }
        ensures evicted { self.new ≡ (with_saved self.old chunk None).machine }
        ensures clears { is_cleared self.new.slabs (class_of_page self.old.slabs chunk.page) chunk
            ≡ true }
    {
        if let Some(key) = self.items.remove(chunk) {
            self.index.remove(key);
        }
        self.slabs.clear(chunk);
    }
}
