//! A page on its way from one class to another, or to the pool.
ghost use Rattle.std.specs.Prelude.{◌≡◌, ◌^◌, ◌<◌, ◌≤◌, length, nat_lt, IfOk, OnOk, OnErr, None};
ghost use Rattle.std.specs.Option.{ForSome};
ghost use Rattle.mc_pages.specs.declared.ids.Moving.{Moving};
ghost use Rattle.mc_pages.specs.SlabState.{HasClass, class_at};
ghost use Rattle.mc_pages.specs.Answer.{answer_of, cursor_after, picked_class, MayAnswer};
ghost use Rattle.mc_pages.specs.Moves.{first_page, after_begin, after_finish, after_passed, after_wrap, CanPass, CanWrap, CanFinish};
ghost use Rattle.mc_pages.specs.Accounted.{IsAccounted, IsMove};

use super::Slabs;
use crate::ids::{ChunkId, Moving};
use crate::ledger::{Entry, Owner};
use crate::moves::{Found, Reassign};
use mc_classes::{ClassId, PageId};
use mc_memory::reserve;

impl Slabs {
    /// The move that runs, if one does.
    pub fn moving(&self) -> Option<Moving>
        ensures moving { result ≡ self.now.state.moving }
        ensures is_move { ForSome result (λ move. IsMove self.now.state move) }
        ensures accounted { IsAccounted self.now.state }
    {
        self.moving
    }

    /// Begins to move the first page of a class to another class, or to the pool where `dst` is 0. Where no source is
    /// named, one is picked: the first class behind the cursor with more than one page. The page stays in its class's
    /// page list until `finish_move`, for which all room is made here. The tests come in the order of [`Reassign`], and
    /// what is refused changes nothing. (slabs.c's `do_slabs_reassign`; the order of the tests is own)
    pub fn begin_move(&mut self, src: Option<u64>, dst: u64) -> Result<(), Reassign>
        ensures answer { MayAnswer (answer_of self.old.state src dst) result }
        ensures began { OnOk result (IfOk (answer_of self.old.state src dst) (λ source.
            self.new.state ≡ after_begin self.old.state src source dst)) }
        ensures refused { OnErr result (self.new.state ≡ self.old.state) }
        ensures accounted { IsAccounted self.new.state }
        ensures writes { self.new.writes ≡ self.old.writes }
    {
        let source = self.source(src, dst)?;
        let page = self.first_page(source);
        let cursor = self.cursor_after(src, source);
        // One entry for the beginning, and one for the end.
        self.ledger.reserve(2)?;
        if dst == 0 {
            reserve(&mut self.pool, 1)?;
        } else {
            let slab = &mut self.classes[dst as usize - 1];
            slab.make_room(slab.page_count() + 1)?;
        }
        self.ledger.tell(Entry::Began(page, source, dst));
        self.owners[page as usize] = Owner::Moving { src: source, dst };
        self.moving = Some(Moving {
            page,
            src: source,
            dst,
            at: 0,
            busy: 0,
        });
        self.cursor = cursor;
        Ok(())
    }

    /// Ends the move: the page leaves its class and goes uncut into the pool, or joins its destination, and then its
    /// chunks are to be cut next. All of its chunks must be cleared. (slabs.c's `slab_rebalance_finish`)
    pub fn finish_move(&mut self)
        requires whole { self.old.state.uncut ≡ None }
        requires cleared { (move : Moving) × CanFinish self.old.state move }
        ensures finished { self.new.state ≡ after_finish self.old.state self.old.state.moving }
        ensures accounted { IsAccounted self.new.state }
        ensures writes { self.new.writes ≡ self.old.writes }
    {
        let Some(moving) = self.moving else {
            return;
        };
        let Moving { page, src, dst, .. } = moving;
        self.classes[src as usize - 1].remove_page(page);
        self.ledger.tell(Entry::Ended(page, dst));
        self.moved = self.moved.saturating_add(1);
        self.moving = None;
        if dst == 0 {
            self.pool.push(page).unwrap();
            self.owners[page as usize] = Owner::Pool;
        } else {
            self.classes[dst as usize - 1].add_page(page);
            self.owners[page as usize] = Owner::Class(dst);
            self.uncut = Some(ChunkId { page, index: 0 });
        }
    }

    /// Goes on from the chunk at the move's position, and counts what was found there. Unless it is busy or locked, it
    /// must be cleared. The counters stay at 2^64 - 1 once there (own).
    pub fn passed(&mut self, found: Found)
        requires { (move : Moving) × CanPass self.old.state found move }
        ensures passed { self.new.state ≡ after_passed self.old.state found }
        ensures accounted { IsAccounted self.new.state }
        ensures writes { self.new.writes ≡ self.old.writes }
    {
        self.rescues = self.rescues.saturating_add(found.rescued());
        self.evictions_nomem = self.evictions_nomem.saturating_add(found.evicted());
        if let Some(moving) = &mut self.moving {
            moving.at += 1;
            moving.busy += found.held_up();
        }
    }

    /// Begins the pass anew from the page's top, and counts the chunks that held it up. The counter stays at 2^64 - 1
    /// once there (own).
    pub fn wrap(&mut self)
        requires { (move : Moving) × CanWrap self.old.state move }
        ensures wrapped { self.new.state ≡ after_wrap self.old.state }
        ensures accounted { IsAccounted self.new.state }
        ensures writes { self.new.writes ≡ self.old.writes }
    {
        if let Some(moving) = &mut self.moving {
            self.busy = self.busy.saturating_add(moving.busy);
            moving.at = 0;
            moving.busy = 0;
        }
    }

    /// The class that gives a page, or why none does, memory aside.
    fn source(&self, src: Option<u64>, dst: u64) -> Result<ClassId, Reassign>
        ensures { result ≡ answer_of self.now.state src dst }
    {
        if self.moving.is_some() {
            return Err(Reassign::Busy);
        }
        if src == Some(dst) {
            return Err(Reassign::Same);
        }
        let source = match src {
            Some(src) => src,
            None => self.pick(dst).ok_or(Reassign::BadClass)?,
        };
        let count = self.class_count();
        if source == 0 || source > count || dst > count {
            return Err(Reassign::BadClass);
        }
        if !self.has_spare(source) {
            return Err(Reassign::NoSpare);
        }
        Ok(source)
    }

    /// The first class behind the cursor, class 1 after the last, that isn't the destination and has more than one page.
    fn pick(&self, dst: u64) -> Option<ClassId>
        ensures { result ≡ picked_class self.now.state dst }
    {
        let count = self.class_count();
        (self.cursor + 1..count + 1)
            .chain(1..self.cursor + 1)
            .find(|class| *class != dst && self.has_spare(*class))
    }

    /// Where the pick goes on after a page of this source has begun to move: there, unless the source was named.
    fn cursor_after(&self, src: Option<u64>, source: ClassId) -> ClassId
        ensures { result ≡ cursor_after self.now.state src source }
    {
        match src {
            Some(_) => self.cursor,
            None => source,
        }
    }

    /// The first page of the class.
    fn first_page(&self, class: ClassId) -> PageId
        requires class { HasClass self.now.state class }
        requires some { 1 ≤ length (class_at self.now.state class).pages }
        ensures { result ≡ first_page self.now.state class }
    {
        self.classes[class as usize - 1].first_page()
    }

    /// The class has more than one page.
    fn has_spare(&self, class: ClassId) -> bool
        ensures { result ≡ nat_lt 1 (length (class_at self.now.state class).pages) }
    {
        let place = (class as usize).saturating_sub(1);
        place < self.classes.len() && self.classes[place].page_count() > 1
    }

    /// How many classes the memory has.
    fn class_count(&self) -> u64
        ensures count { result ≡ length self.now.state.classes }
        ensures below { result < 2 ^ 63 }
    {
        self.classes.len() as u64
    }
}
