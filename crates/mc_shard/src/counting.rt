//! The count of all items of a shard, stripe by stripe.
ghost use Rattle.std.specs.Prelude.{◌≡◌, IfOk, OnErr};
ghost use Rattle.mc_words.specs.hand.Arenas.{setup_of, view};
ghost use Rattle.mc_words.specs.hand.Observers.{hand_number};
ghost use Rattle.mc_items.specs.Calls.{RecordsNoCall};
ghost use Rattle.mc_items.specs.Keeping.{StoresNothing};
ghost use Rattle.mc_shard.specs.Hands.{IsIdleHandOf};
ghost use Rattle.mc_shard.specs.Reading.{LeavesSlabs};
ghost use Rattle.mc_shard.specs.Walking.{CountsKeys, MissesCounting};

use mc_items::{count_stripe, count_stripe_within};
use mc_words::{Arena, Hand, Held};
use std::sync::Wait;

/// Returns how many items the shard has, as a sum over the stripes. Each is looked at in one hold of its lock, for which it waits, so the sum
/// is exact where no other hand stores or deletes meanwhile. It stays at 2^64 - 1 once there. (memcached's `curr_items`)
pub fn count<R: Wait>(rt: &R, arena: &Arena, hand: &mut Hand) -> u64
    requires { IsIdleHandOf arena.now hand.old }
    ensures idle { IsIdleHandOf arena.now hand.new }
    ensures number { hand_number hand.new ≡ hand_number hand.old }
    ensures counts { CountsKeys (setup_of arena.now) result hand.old hand.new }
    ensures calls { RecordsNoCall (view hand.old) (view hand.new) }
    ensures stores_nothing { StoresNothing (view hand.old) (view hand.new) }
    ensures slabs { LeavesSlabs (view hand.old) (view hand.new) }
{
    let mut count: u64 = 0;
    for stripe in 0..arena.config().stripes {
        let here = count_stripe(rt, arena, hand, stripe);
        count = count.saturating_add(here);
    }
    count
}

/// The same as `count`, but it tries for the lock of each stripe `tries` times at most, and doesn't wait. `Held` where each try for one of them
/// missed. (own)
pub fn count_within(arena: &Arena, hand: &mut Hand, tries: u64) -> Result<u64, Held>
    requires { IsIdleHandOf arena.now hand.old }
    ensures idle { IsIdleHandOf arena.now hand.new }
    ensures number { hand_number hand.new ≡ hand_number hand.old }
    ensures counts { IfOk result (λ count.
        CountsKeys (setup_of arena.now) count hand.old hand.new) }
    ensures held { OnErr result (MissesCounting (setup_of arena.now) tries hand.old hand.new) }
    ensures calls { RecordsNoCall (view hand.old) (view hand.new) }
    ensures stores_nothing { StoresNothing (view hand.old) (view hand.new) }
    ensures slabs { LeavesSlabs (view hand.old) (view hand.new) }
{
    let mut count: u64 = 0;
    for stripe in 0..arena.config().stripes {
        match count_stripe_within(arena, hand, stripe, tries) {
            Ok(here) => count = count.saturating_add(here),
            Err(held) => return Err(held),
        }
    }
    Ok(count)
}
