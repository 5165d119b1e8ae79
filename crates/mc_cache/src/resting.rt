//! Hands that lay in a struct between calls, and are the arena's again.
ghost use Rattle.std.specs.Prelude.{◌≡◌};
ghost use Rattle.mc_words.specs.hand.Arenas.{view};
ghost use Rattle.mc_words.specs.hand.Observers.{hand_number};
ghost use Rattle.mc_cache.specs.Resting.{IsRestingHandOf};
ghost use Rattle.mc_shard.specs.Hands.{IsIdleHandOf};

use mc_words::{Arena, Hand};

/// Makes a resting hand an idle one of the arena. It is one load, and changes nothing of what the hand has and knows.
pub(crate) fn recall(arena: &Arena, hand: &mut Hand)
    requires { IsRestingHandOf arena.now hand.old }
    ensures idle { IsIdleHandOf arena.now hand.new }
    ensures same { view hand.new ≡ view hand.old }
    ensures number { hand_number hand.new ≡ hand_number hand.old }
{
    arena.recall(hand);
}
