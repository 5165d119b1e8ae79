//! One operation on one word, which is one event of the core.
ghost use Rattle.std.specs.Prelude.{◌≡◌, ◌≢◌, ◌<◌, ◌∷◌, true, []};
ghost use Rattle.mc_core.specs.declared.event.Change.{Change};
ghost use Rattle.mc_core.specs.declared.event.Step.{Step};
ghost use Rattle.mc_core.specs.model.Codes.{word_plus, word_minus};
ghost use Rattle.mc_words.specs.hand.Arenas.{IsOfArena};
ghost use Rattle.mc_words.specs.rule.Happens.{Happens, HappensAt, IsSameHand, MayExchange, AllowsStep, MayWrite, keeps_locks_and_hands};

use crate::arena::Arena;
use crate::rule::HandSeat;
use mc_core::{Change, Step};
use std::marker::Brand;

impl Arena {
    // The event looks at this word.
    #[inline(always)]
    pub(crate) fn look(&self, seat: &mut HandSeat, word: usize, step: Step) -> u64
        ghost told: { Step }
        requires is { told ≡ step }
        requires still { keeps_locks_and_hands told ≡ true }
        requires in_range { word < self.now.table.shared.table_id.words }
        requires seat { IsOfArena self.now seat.old.table_id seat.old.me.0 }
        requires may { MayWrite seat.old.me.0 told word (λ found. found) }
        ensures seat { IsOfArena self.now seat.new.table_id seat.new.me.0 }
        ensures out { seat.new.me.1 ≡ seat.old.me.1 }
        ensures hand { IsSameHand seat.old.me.0 seat.new.me.0 }
        ensures happens { HappensAt word result seat.old.me.0 [] told seat.new.me.0 }
    {
        self.table.shared.load::<Brand>(seat, word)
    }

    // The event writes this word.
    #[inline(always)]
    pub(crate) fn write(&self, seat: &mut HandSeat, word: usize, new: u64, step: Step)
        ghost told: { Step }
        requires is { told ≡ step }
        requires still { keeps_locks_and_hands told ≡ true }
        requires in_range { word < self.now.table.shared.table_id.words }
        requires seat { IsOfArena self.now seat.old.table_id seat.old.me.0 }
        requires may { MayWrite seat.old.me.0 told word (λ found. new) }
        ensures seat { IsOfArena self.now seat.new.table_id seat.new.me.0 }
        ensures out { seat.new.me.1 ≡ seat.old.me.1 }
        ensures hand { IsSameHand seat.old.me.0 seat.new.me.0 }
        ensures happens { Happens seat.old.me.0 [] told seat.new.me.0 }
    {
        self.table.shared.store::<Brand>(seat, word, new)
    }

    // The event adds to this word.
    #[inline(always)]
    pub(crate) fn add(&self, seat: &mut HandSeat, word: usize, more: u64, step: Step)
        ghost told: { Step }
        requires is { told ≡ step }
        requires still { keeps_locks_and_hands told ≡ true }
        requires in_range { word < self.now.table.shared.table_id.words }
        requires seat { IsOfArena self.now seat.old.table_id seat.old.me.0 }
        requires may { MayWrite seat.old.me.0 told word (word_plus more) }
        ensures seat { IsOfArena self.now seat.new.table_id seat.new.me.0 }
        ensures out { seat.new.me.1 ≡ seat.old.me.1 }
        ensures hand { IsSameHand seat.old.me.0 seat.new.me.0 }
        ensures happens { Happens seat.old.me.0 [] told seat.new.me.0 }
    {
        self.table.shared.fetch_add::<Brand>(seat, word, more);
    }

    // The event adds to this word, which is found as it was.
    #[inline(always)]
    pub(crate) fn fetch_add(&self, seat: &mut HandSeat, word: usize, more: u64, step: Step) -> u64
        ghost told: { Step }
        requires is { told ≡ step }
        requires still { keeps_locks_and_hands told ≡ true }
        requires in_range { word < self.now.table.shared.table_id.words }
        requires seat { IsOfArena self.now seat.old.table_id seat.old.me.0 }
        requires may { MayWrite seat.old.me.0 told word (word_plus more) }
        ensures seat { IsOfArena self.now seat.new.table_id seat.new.me.0 }
        ensures out { seat.new.me.1 ≡ seat.old.me.1 }
        ensures hand { IsSameHand seat.old.me.0 seat.new.me.0 }
        ensures happens { HappensAt word result seat.old.me.0 [] told seat.new.me.0 }
    {
        self.table.shared.fetch_add::<Brand>(seat, word, more)
    }

    // The event takes from this word. The answer is the word found.
    #[inline(always)]
    pub(crate) fn subtract(&self, seat: &mut HandSeat, word: usize, less: u64, step: Step) -> u64
        ghost told: { Step }
        requires is { told ≡ step }
        requires still { keeps_locks_and_hands told ≡ true }
        requires in_range { word < self.now.table.shared.table_id.words }
        requires seat { IsOfArena self.now seat.old.table_id seat.old.me.0 }
        requires may { MayWrite seat.old.me.0 told word (word_minus less) }
        ensures seat { IsOfArena self.now seat.new.table_id seat.new.me.0 }
        ensures out { seat.new.me.1 ≡ seat.old.me.1 }
        ensures hand { IsSameHand seat.old.me.0 seat.new.me.0 }
        ensures happens { Happens seat.old.me.0 [] told seat.new.me.0 }
    {
        self.table.shared.fetch_sub::<Brand>(seat, word, less)
    }

    // The event exchanges this word where it is as expected. Where it isn't, the event is a look at it. The answer is the word found.
    #[inline(always)]
    pub(crate) fn exchange(
        &self,
        seat: &mut HandSeat,
        word: usize,
        expected: u64,
        new: u64,
        step: Step,
        look: Step,
    ) -> u64
        ghost told: { Step × Step }
        requires is { told ≡ (step, look) }
        requires still { (keeps_locks_and_hands told.0 ≡ true)
            × (keeps_locks_and_hands told.1 ≡ true) }
        requires in_range { word < self.now.table.shared.table_id.words }
        requires seat { IsOfArena self.now seat.old.table_id seat.old.me.0 }
        requires may { MayExchange seat.old.me.0 told.0 word expected new }
        requires may_look { MayWrite seat.old.me.0 told.1 word (λ found. found) }
        ensures seat { IsOfArena self.now seat.new.table_id seat.new.me.0 }
        ensures out { seat.new.me.1 ≡ seat.old.me.1 }
        ensures hand { IsSameHand seat.old.me.0 seat.new.me.0 }
        ensures happens { result ≡ expected →
            HappensAt word result seat.old.me.0 [] told.0 seat.new.me.0 }
        ensures missed { result ≢ expected →
            HappensAt word result seat.old.me.0 [] told.1 seat.new.me.0 }
    {
        self.table
            .shared
            .compare_exchange::<Brand>(seat, word, expected, new)
    }

    // The event is a change of a value behind a lock that the hand has. A look at this word records it.
    #[inline(always)]
    pub(crate) fn tell(&self, seat: &mut HandSeat, word: usize, change: Change, step: Step)
        ghost told: { Change × Step }
        requires is { told ≡ (change, step) }
        requires still { keeps_locks_and_hands told.1 ≡ true }
        requires in_range { word < self.now.table.shared.table_id.words }
        requires seat { IsOfArena self.now seat.old.table_id seat.old.me.0 }
        requires may { AllowsStep seat.old.me.0 told.0 told.1 word (λ found. found) }
        ensures seat { IsOfArena self.now seat.new.table_id seat.new.me.0 }
        ensures out { seat.new.me.1 ≡ seat.old.me.1 }
        ensures hand { IsSameHand seat.old.me.0 seat.new.me.0 }
        ensures happens { Happens seat.old.me.0 (told.0 ∷ []) told.1 seat.new.me.0 }
    {
        self.table.shared.load::<Brand>(seat, word);
    }

    // The event gives a page to a class, which is stored in the page's word. A look at this word records it.
    #[inline(always)]
    pub(crate) fn tell_page(
        &self,
        seat: &mut HandSeat,
        word: usize,
        class: u64,
        change: Change,
        step: Step,
    )
        ghost told: { Change × Step }
        requires is { told ≡ (change, step) }
        requires still { keeps_locks_and_hands told.1 ≡ true }
        requires in_range { word < self.now.table.shared.table_id.words }
        requires seat { IsOfArena self.now seat.old.table_id seat.old.me.0 }
        requires may { AllowsStep seat.old.me.0 told.0 told.1 word (λ found. class) }
        ensures seat { IsOfArena self.now seat.new.table_id seat.new.me.0 }
        ensures out { seat.new.me.1 ≡ seat.old.me.1 }
        ensures hand { IsSameHand seat.old.me.0 seat.new.me.0 }
        ensures happens { Happens seat.old.me.0 (told.0 ∷ []) told.1 seat.new.me.0 }
    {
        self.table.shared.store::<Brand>(seat, word, class)
    }
}
