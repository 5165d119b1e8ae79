//! Hands that come back, from where no more is known of them than at which table they sit.
ghost use Rattle.std.specs.Prelude.{◌≡◌};
ghost use Rattle.mc_words.specs.hand.Arenas.{IsHandOf, view};
ghost use Rattle.mc_words.specs.hand.Observers.{locks_of, hand_number};
ghost use Rattle.mc_words.specs.hand.Seats.{IsSeatedAt};

use crate::arena::Arena;
use crate::hand::Hand;
use crate::rule::ShownWord;

impl Arena {
    /// The hand, which sits at this arena's table, is one of the arena's again: what it knows is of a lawful moment. One load of
    /// the word of the hands, which is no event, and changes nothing. For a hand that was in a struct whose own facts state no
    /// more than that. (own)
    pub fn recall(&self, hand: &mut Hand)
        requires seated { IsSeatedAt self.now hand.old }
        ensures arena { IsHandOf self.now hand.new }
        ensures same { view hand.new ≡ view hand.old }
        ensures locks { locks_of hand.new ≡ locks_of hand.old }
        ensures number { hand_number hand.new ≡ hand_number hand.old }
    {
        self.table.shared.load::<ShownWord>(&mut hand.seat, 0);
    }
}
