//! Pages that move from class to class. Each change of a move is recorded at once.
ghost use Rattle.std.specs.Prelude.{◌≡◌, ◌+◌, [], ◌∷◌, true, None, Some, IfOk, OnOk, OnErr};
ghost use Rattle.mc_pages.specs.declared.ids.Moving.{Moving};
ghost use Rattle.mc_pages.specs.Answer.{MayAnswer, answer_of};
ghost use Rattle.mc_pages.specs.Moves.{CanFinish, CanPass, CanWrap, after_begin, after_finish, after_passed, after_wrap};
ghost use Rattle.mc_core.specs.declared.event.Change.TheVariants as change;
ghost use Rattle.mc_core.specs.declared.event.Step.TheVariants as step;
ghost use Rattle.mc_words.specs.hand.Arenas.{IsHandOf, view};
ghost use Rattle.mc_words.specs.rule.Happens.{Happens};
ghost use Rattle.mc_words.specs.hand.Views.{slabs_changed};

use crate::arena::Arena;
use crate::hand::Hand;
use crate::hand::held::SlabsHeld;
use crate::lock::locks::SLABS_WORD;
use mc_core::{Change, Step};
use mc_pages::{Found, Reassign};

impl Arena {
    /// The first page of the source begins to move to the destination, 0 for the pool. Where no source is named, a class is
    /// picked. Memory may run out only where the answer would be OK. (slabs.c's `do_slabs_reassign` and `slab_rebalance_start`)
    pub fn begin_move(
        &self,
        hand: &mut Hand,
        held: &mut SlabsHeld,
        src: Option<u64>,
        dst: u64,
    ) -> Result<(), Reassign>
        requires arena { IsHandOf self.now hand.old }
        requires held { (view hand.old).slabs ≡ Some held.old.shared }
        ensures arena { IsHandOf self.now hand.new }
        ensures locks { hand.new.locks ≡ hand.old.locks }
        ensures held { (view hand.new).slabs ≡ Some held.new.shared }
        ensures answer { MayAnswer (answer_of held.old.shared src dst) result }
        ensures began { OnOk result (IfOk (answer_of held.old.shared src dst) (λ source.
            held.new.shared ≡ after_begin held.old.shared src source dst)) }
        ensures happens { OnOk result (Happens (view hand.old)
            (change.BeginMove src dst ∷ []) step.MissSlabs (view hand.new)) }
        ensures view { OnOk result (view hand.new
            ≡ slabs_changed held.old.shared (change.BeginMove src dst) (hand.old.number + 1)
            (view hand.old)) }
        ensures refused { OnErr result ((held.new.shared ≡ held.old.shared)
            × (view hand.new ≡ view hand.old)) }
    {
        match held.shared.slabs_mut().begin_move(src, dst) {
            Ok(()) => {
                let change = Change::BeginMove(src, dst);
                self.tell(&mut hand.seat, SLABS_WORD, change, Step::MissSlabs);
                Ok(())
            }
            Err(refusal) => Err(refusal),
        }
    }

    /// Goes on from the chunk at the move's position, which is cleared, or else holds up the move. What was found there is
    /// counted. (own, as slabs.c's `slab_rebalance_move` goes on)
    pub fn passed(&self, hand: &mut Hand, held: &mut SlabsHeld, found: Found)
        requires arena { IsHandOf self.now hand.old }
        requires held { (view hand.old).slabs ≡ Some held.old.shared }
        requires done { (move : Moving) × CanPass held.old.shared found move }
        ensures arena { IsHandOf self.now hand.new }
        ensures locks { hand.new.locks ≡ hand.old.locks }
        ensures held { (view hand.new).slabs ≡ Some held.new.shared }
        ensures passed { held.new.shared ≡ after_passed held.old.shared found }
        ensures happens { Happens (view hand.old) (change.Passed found ∷ []) step.MissSlabs
            (view hand.new) }
        ensures view { view hand.new ≡ slabs_changed held.old.shared (change.Passed found)
            (hand.old.number + 1) (view hand.old) }
    {
        held.shared.slabs_mut().passed(found);
        let change = Change::Passed(found);
        self.tell(&mut hand.seat, SLABS_WORD, change, Step::MissSlabs);
    }

    /// Begins the pass anew from the page's top, as some chunks of it held up the move, and counts them. (own, as slabs.c's
    /// `slab_rebalance_move` does where `busy_items` is left)
    pub fn wrap(&self, hand: &mut Hand, held: &mut SlabsHeld)
        requires arena { IsHandOf self.now hand.old }
        requires held { (view hand.old).slabs ≡ Some held.old.shared }
        requires busy { (move : Moving) × CanWrap held.old.shared move }
        ensures arena { IsHandOf self.now hand.new }
        ensures locks { hand.new.locks ≡ hand.old.locks }
        ensures held { (view hand.new).slabs ≡ Some held.new.shared }
        ensures wrapped { held.new.shared ≡ after_wrap held.old.shared }
        ensures happens { Happens (view hand.old) (change.Wrap ∷ []) step.MissSlabs
            (view hand.new) }
        ensures view { view hand.new ≡ slabs_changed held.old.shared change.Wrap
            (hand.old.number + 1) (view hand.old) }
    {
        held.shared.slabs_mut().wrap();
        self.tell(&mut hand.seat, SLABS_WORD, Change::Wrap, Step::MissSlabs);
    }

    /// Ends the move, each chunk of whose page is cleared: the page leaves its class and goes uncut into the pool, or joins its
    /// destination, and then its chunks are to be cut next. It takes no memory. (slabs.c's `slab_rebalance_finish`)
    pub fn finish_move(&self, hand: &mut Hand, held: &mut SlabsHeld)
        requires arena { IsHandOf self.now hand.old }
        requires held { (view hand.old).slabs ≡ Some held.old.shared }
        requires whole { held.old.shared.uncut ≡ None }
        requires cleared { (move : Moving) × CanFinish held.old.shared move }
        ensures arena { IsHandOf self.now hand.new }
        ensures locks { hand.new.locks ≡ hand.old.locks }
        ensures held { (view hand.new).slabs ≡ Some held.new.shared }
        ensures finished { held.new.shared ≡ after_finish held.old.shared held.old.shared.moving }
        ensures happens { Happens (view hand.old) (change.FinishMove ∷ []) step.MissSlabs
            (view hand.new) }
        ensures view { view hand.new ≡ slabs_changed held.old.shared change.FinishMove
            (hand.old.number + 1) (view hand.old) }
    {
        let Some(moving) = held.moving() else {
            unreachable!()
        };
        let word = self.page_word(moving.page);
        held.shared.slabs_mut().finish_move();
        // The pool is no class, so that the word of a page that goes there may be any.
        let change = Change::FinishMove;
        self.tell_page(&mut hand.seat, word, moving.dst, change, Step::MissSlabs);
    }
}
