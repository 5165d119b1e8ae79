//! References to items that are had again by hints.
ghost use Rattle.std.specs.Prelude.{◌≡◌, ◌≢◌, ◌+◌, ◌<◌, ◌≤◌, ◌^◌, ◌↔◌, [], true, length, Contains, Err, IfOk, IfErr};
ghost use Rattle.mc_classes.specs.Limits.{most_refs};
ghost use Rattle.mc_core.specs.model.Head.{decode};
ghost use Rattle.mc_core.specs.past.Past.{KnownItem};
ghost use Rattle.mc_core.specs.model.State.{has_chunk};
ghost use Rattle.mc_core.specs.declared.event.Step.TheVariants as step;
ghost use Rattle.mc_words.specs.hand.Arenas.{IsHandOf, setup_of, view};
ghost use Rattle.mc_words.specs.rule.Happens.{Happens};
ghost use Rattle.mc_words.specs.item.Again as hints;
ghost use Rattle.mc_words.specs.item.Again.{FindsContended, FindsGone, GetsAgain, RefersAgain};
ghost use Rattle.mc_words.specs.item.Items.{held_item};
ghost use Rattle.mc_words.specs.item.Refs.{IsIssueOf, IsRefOf};
ghost use Rattle.mc_words.specs.hand.Views.{head_seen};

use crate::arena::Arena;
use crate::hand::Hand;
use crate::header::is_there;
use crate::item::refs::{Again, Hint, Ref};
use mc_classes::MOST_REFS;
use mc_core::Step;

impl Arena {
    /// Gets a reference to the item of a hint, if it is there still. It takes no lock and no memory. A hand that holds `MOST_REFS` chunks
    /// is refused, so a place is left for a reference under a lock. (own)
    #[inline(always)]
    pub fn again(&self, hand: &mut Hand, hint: Hint) -> Result<Ref, Again>
        requires arena { IsHandOf self.now hand.old }
        requires in_range { has_chunk (setup_of self.now).table hint.chunk ≡ true }
        ensures arena { IsHandOf self.now hand.new }
        ensures locks { hand.new.locks ≡ hand.old.locks }
        ensures hinted { IfOk result (λ r. (r.chunk ≡ hint.chunk) × (r.issue ≡ hint.issue)) }
        ensures gets { IfOk result (λ r. GetsAgain (view hand.old) hint.chunk hint.issue r.room
            (view hand.new)) }
        ensures reference { IfOk result (λ r. IsRefOf (view hand.new) r.chunk r.room
            × IsIssueOf (view hand.new) r.chunk r.issue) }
        ensures known { IfOk result (λ r. (k : KnownItem) →
            Contains (view hand.old).row.knows.known k → k.chunk ≡ hint.chunk →
            k.issue ≡ hint.issue → held_item (view hand.new) r.chunk ≡ k.words) }
        ensures gone { result ≡ Err Again.Gone →
            FindsGone (view hand.old) hint.chunk hint.issue (view hand.new) }
        ensures contended { result ≡ Err Again.Contended →
            FindsContended (view hand.old) hint.chunk hint.issue (view hand.new) }
        ensures at_limit { (result ≡ Err Again.TooManyRefs)
            ↔ (most_refs ≤ length (view hand.old).row.holdings) }
        ensures refused { result ≡ Err Again.TooManyRefs → view hand.new ≡ view hand.old }
    {
        if hand.chunks >= MOST_REFS {
            return Err(Again::TooManyRefs);
        }
        let head = self.head(hand, hint.chunk);
        if !is_there(head, hint.issue) {
            return Err(Again::Gone);
        }
        match self.refer_again(hand, hint, head) {
            Ok(reference) => Ok(reference),
            Err(found) if is_there(found, hint.issue) => Err(Again::Contended),
            Err(_) => Err(Again::Gone),
        }
    }

    // Gets the reference, if the header is as it was seen. Otherwise finds its word.
    #[inline(always)]
    fn refer_again(&self, hand: &mut Hand, hint: Hint, head: u64) -> Result<Ref, u64>
        requires arena { IsHandOf self.now hand.old }
        requires in_range { has_chunk (setup_of self.now).table hint.chunk ≡ true }
        requires within_limit { length (view hand.old).row.holdings < most_refs }
        requires there { hints.is_there hint.issue (decode head) ≡ true }
        requires small { head + 1 < 2 ^ 64 }
        ensures arena { IsHandOf self.now hand.new }
        ensures locks { hand.new.locks ≡ hand.old.locks }
        ensures hinted { IfOk result (λ r. (r.chunk ≡ hint.chunk) × (r.issue ≡ hint.issue)) }
        ensures refers { IfOk result (λ r. RefersAgain (view hand.old) hint.chunk hint.issue r.room
            (view hand.new)) }
        ensures reference { IfOk result (λ r. IsRefOf (view hand.new) r.chunk r.room
            × IsIssueOf (view hand.new) r.chunk r.issue) }
        ensures known { IfOk result (λ r. (k : KnownItem) →
            Contains (view hand.old).row.knows.known k → k.chunk ≡ hint.chunk →
            k.issue ≡ hint.issue → held_item (view hand.new) r.chunk ≡ k.words) }
        ensures missed { IfErr result (λ found. (found ≢ head)
            × Happens (view hand.old) [] (step.Head hint.chunk) (view hand.new)
            × (view hand.new ≡ head_seen hint.chunk (decode found) (view hand.old))) }
    {
        let word = self.head_word(hint.chunk);
        let step = Step::Again(hint.chunk, hint.issue);
        let miss = Step::Head(hint.chunk);
        let found = self.exchange(&mut hand.seat, word, head, head + 1, step, miss);
        if found != head {
            return Err(found);
        }
        hand.chunks += 1;
        let room = self.room(hand, hint.chunk);
        Ok(Ref {
            chunk: hint.chunk,
            issue: hint.issue,
            room,
        })
    }
}
