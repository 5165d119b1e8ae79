//! Pages that begin to move: as is asked, as an eviction asks, and as the automover decides at a window's end.
ghost use Rattle.std.specs.Prelude.{◌≡◌, ◌≤◌, IfOk, OnErr, OnOk, None, Some, Contains};
ghost use Rattle.mc_pages.specs.Answer.{answer_of, MayAnswer};
ghost use Rattle.mc_serial_spec.specs.Automove.{machine_after_begin, decision, with_asked_page, with_window};
ghost use Rattle.mc_serial_spec.specs.Lines.{decision_outcome};
ghost use Rattle.mc_serial_spec.specs.Machine.{all_swept, with_mode};
ghost use Rattle.mc_keeper.specs.Calls.{acted_answer, reassign_answer};
ghost use Rattle.mc_keeper.specs.Stages.{reassign_stages, window_stages};

use super::Keeper;
use mc_classes::ClassId;
use mc_memory::Refused;
use mc_pages::Reassign;
use mc_watch::Decision;

/// What became of a decision of the automover.
#[derive(PartialEq, Eq, Drop)]
pub struct Acted {
    /// From which class a page was to go to which, or to the pool.
    pub decision: Decision,
    /// Whether a page of that class began to move, or why not.
    pub answer: Result<(), Reassign>,
}

impl Keeper {
    /// Begins to move the first page of the class `src` to another class, or to the pool where `dst` is 0. Where no source is named, the
    /// first class behind the cursor gives it that has more than one page. Turns of the mover take it there. (slabs.c's
    /// `do_slabs_reassign`; the order of the tests is own.)
    ///
    /// Where it is refused, all is as before; memory can run out only where the answer would be `Ok`.
    pub fn reassign(&mut self, src: Option<u64>, dst: u64) -> Result<(), Reassign>
        ensures answer { MayAnswer (answer_of self.old.slabs src dst) result }
        ensures after { OnOk result (self.new ≡ machine_after_begin self.old src dst
            (answer_of self.old.slabs src dst)) }
        ensures refused { OnErr result (self.new ≡ self.old) }
    {
        self.slabs.begin_move(src, dst)
    }

    /// Asks for a page for this class, from any other. The answer doesn't matter.
    pub(super) fn ask_for_page(&mut self, class: ClassId) -> Result<(), Refused>
        ensures after { OnOk result (self.new ≡ with_asked_page self.old class) }
        ensures refused { OnErr result (self.new ≡ self.old) }
    {
        let _answer = self.begin(None, class)?;
        Ok(())
    }

    /// Sets the automover's mode: 0 is off, 1 acts on windows, 2 on evictions. It takes no memory. (`slabs automove`)
    pub fn set_automove(&mut self, mode: u64)
        requires { mode ≤ 2 }
        ensures after { self.new ≡ record self.old { slabs = with_mode self.old.slabs mode } }
    {
        self.slabs.set_automove(mode);
    }

    /// Ends a window, which is as long as the caller likes: the dead of all classes are put back, and the automover learns each
    /// class's evictions, pages and free chunks. In mode 1 a page begins to move as the automover decides then, if it does, and
    /// the answer reports what became of that. (slabs.c's automover of 1.4, which judges three windows; to the pool after 1.6's
    /// page mover.)
    ///
    /// Where memory runs out, what was done before stays: the dead that were put back, and then the window.
    pub fn window(&mut self) -> Result<Option<Acted>, Refused>
        ensures answer { IfOk result (λ answer. answer
            ≡ acted_answer (with_window (all_swept self.old))
            (decision (with_window (all_swept self.old)))) }
        ensures after { OnOk result (self.new
            ≡ (decision_outcome (with_window (all_swept self.old))
            (decision (with_window (all_swept self.old)))).machine) }
        ensures refused { OnErr result (Contains (window_stages self.old) self.new) }
    {
        self.sweep();
        match self.decide()? {
            Some(decision) => self.act(decision),
            None => Ok(None),
        }
    }

    /// Lets the decider learn the numbers of a window. Gives the decision to act on, if there is one.
    fn decide(&mut self) -> Result<Option<Decision>, Refused>
        ensures after { OnOk result (self.new ≡ with_window self.old) }
        ensures refused { OnErr result (self.new ≡ self.old) }
        ensures decided { IfOk result (λ decided. decided ≡ decision self.new) }
    {
        let counts = self.counts()?;
        let decision = self
            .decider
            .feed(&counts.evictions, &counts.pages, &counts.free)
            .unwrap();
        if self.slabs.automove() == 1 {
            Ok(decision)
        } else {
            Ok(None)
        }
    }

    /// Begins to move a page as it was decided, and returns what became of that.
    fn act(&mut self, decision: Decision) -> Result<Option<Acted>, Refused>
        ensures answer { IfOk result (λ answer. answer ≡ acted_answer self.old (Some decision)) }
        ensures after { OnOk result (self.new
            ≡ (decision_outcome self.old (Some decision)).machine) }
        ensures refused { OnErr result (self.new ≡ self.old) }
    {
        let Decision { src, dst } = decision;
        let answer = self.begin(Some(src), dst)?;
        Ok(Some(Acted { decision, answer }))
    }

    /// Begins to move a page, or doesn't, and gives the answer.
    pub(super) fn begin(
        &mut self,
        src: Option<u64>,
        dst: u64,
    ) -> Result<Result<(), Reassign>, Refused>
        ensures answer { IfOk result (λ answer. answer
            ≡ reassign_answer (answer_of self.old.slabs src dst)) }
        ensures after { OnOk result (self.new ≡ machine_after_begin self.old src dst
            (answer_of self.old.slabs src dst)) }
        ensures refused { OnErr result (self.new ≡ self.old) }
    {
        match self.reassign(src, dst) {
            Ok(()) => Ok(Ok(())),
            Err(Reassign::Busy) => Ok(Err(Reassign::Busy)),
            Err(Reassign::Same) => Ok(Err(Reassign::Same)),
            Err(Reassign::BadClass) => Ok(Err(Reassign::BadClass)),
            Err(Reassign::NoSpare) => Ok(Err(Reassign::NoSpare)),
            Err(Reassign::NoMemory(refused)) => Err(refused),
        }
    }
}
