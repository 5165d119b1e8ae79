//! Hands that become one.
ghost use Rattle.std.specs.Prelude.{◌≡◌, true, []};
ghost use Rattle.mc_words.specs.declared.lock.locks.Locks.TheVariants.{Neither};
ghost use Rattle.mc_words.specs.hand.Arenas.{IsHandOf, IsOfArena, view};
ghost use Rattle.mc_words.specs.hand.Idle.{is_idle};
ghost use Rattle.mc_words.specs.rule.Joins.{KnowledgeAgrees, Joins};
ghost use Rattle.mc_words.specs.hand.View.{both_views};

use crate::arena::Arena;
use crate::hand::Hand;
use crate::lock::locks::Locks;
use crate::rule::{BothHands, HandSeat, ToldOfBoth};

impl Arena {
    /// One hand of two, neither of which has a lock or holds a chunk. The first one's number stays; what the other one stored and
    /// knows is the first one's.
    pub fn join_hands(&self, hand: Hand, other: Hand) -> Hand
        requires arena { IsHandOf self.now hand }
        requires other { IsHandOf self.now other }
        requires idle { (is_idle (view hand) ≡ true) × (is_idle (view other) ≡ true) }
        ensures arena { IsHandOf self.now result }
        ensures locks { result.locks ≡ Neither }
        ensures joins { Joins (view hand) (view other).row (view other).events (view result) }
        ensures view { view result ≡ both_views (view hand) (view other) }
        ensures agree { KnowledgeAgrees (view result).row.knows }
    {
        let Hand {
            mut seat,
            number,
            chunks,
            locks: _,
            stamps,
            fresh,
            dead,
        } = hand;
        let Hand {
            seat: spent,
            dead: kept,
            ..
        } = other;
        self.hints.note_kept(kept);
        self.unite(&mut seat, spent);
        Hand {
            seat,
            number,
            chunks,
            locks: Locks::Neither,
            stamps,
            fresh,
            dead,
        }
    }

    // Both seats become one, which learns of that by a second look.
    fn unite(&self, seat: &mut HandSeat, spent: HandSeat)
        requires seat { IsOfArena self.now seat.old.table_id seat.old.me.0 }
        requires spent { IsOfArena self.now spent.table_id spent.me.0 }
        requires idle { (is_idle seat.old.me.0 ≡ true) × (is_idle spent.me.0 ≡ true) }
        requires none { spent.me.1 ≡ [] }
        ensures seat { IsOfArena self.now seat.new.table_id seat.new.me.0 }
        ensures out { seat.new.me.1 ≡ seat.old.me.1 }
        ensures joins { Joins seat.old.me.0 spent.me.0.row spent.me.0.events seat.new.me.0 }
        ensures view { seat.new.me.0 ≡ both_views seat.old.me.0 spent.me.0 }
    {
        let shared = &self.table.shared;
        shared.join_seat::<BothHands>(seat, spent);
        shared.load::<ToldOfBoth>(seat, 0);
    }
}
