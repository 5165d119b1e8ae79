//! The delete of all keys of a shard, stripe by stripe.
ghost use Rattle.std.specs.Prelude.{◌≡◌, IfErr, IfOk, OnErr, OnOk};
ghost use Rattle.mc_words.specs.hand.Arenas.{setup_of, view};
ghost use Rattle.mc_words.specs.hand.Observers.{hand_number};
ghost use Rattle.mc_items.specs.Keeping.{StoresNothing};
ghost use Rattle.mc_shard.specs.Hands.{IsIdleHandOf};
ghost use Rattle.mc_shard.specs.Reading.{LeavesSlabs};
ghost use Rattle.mc_shard.specs.Walking.{ClearsShard, GivesAllBackEmpty, LosesAll, StopsClearWithin, StopsClearingShard};

use mc_items::{WithinError, clear_stripe, clear_stripe_within};
use mc_memory::Refused;
use mc_words::{Arena, Hand};
use std::sync::Wait;
use thiserror::Error;

/// Why a clear that doesn't wait stopped. What was deleted stays deleted. (own)
#[derive(Debug, PartialEq, Eq, Drop, Error)]
pub enum ClearWithinError {
    /// A stripe records its calls, and got no room for one more.
    #[error("out of memory: what was deleted stays deleted")]
    NoMemory(Refused),
    /// Other hands had the lock of a stripe at each try. The stripes before it are cleared, and so many keys were deleted there. The number stays
    /// at 2^64 - 1 once there.
    #[error("other hands had the lock of a stripe at each try, and {0} keys were deleted before")]
    Held(u64),
}

/// Deletes every key of the shard, stripe by stripe, each in one hold of its lock, for which it waits. It returns how many it deleted, which
/// stays at 2^64 - 1 once there. Other hands go on meanwhile: for each stripe there is a moment in the call at which no key of the stripe
/// led anywhere. Where a stripe records calls and memory for one runs out, it stops, and what was deleted stays deleted. (memcached's
/// `flush_all`)
pub fn clear<R: Wait>(rt: &R, arena: &Arena, hand: &mut Hand) -> Result<u64, Refused>
    requires { IsIdleHandOf arena.now hand.old }
    ensures idle { IsIdleHandOf arena.now hand.new }
    ensures number { hand_number hand.new ≡ hand_number hand.old }
    ensures clears { IfOk result (λ count.
        ClearsShard (setup_of arena.now) count hand.old hand.new) }
    ensures empty { OnOk result (GivesAllBackEmpty (setup_of arena.now) hand.new) }
    ensures gone { OnOk result (LosesAll (setup_of arena.now) hand.old hand.new) }
    ensures stops { OnErr result (StopsClearingShard (setup_of arena.now) hand.old hand.new) }
    ensures stores_nothing { StoresNothing (view hand.old) (view hand.new) }
    ensures slabs { LeavesSlabs (view hand.old) (view hand.new) }
{
    let mut count: u64 = 0;
    for stripe in 0..arena.config().stripes {
        let here = clear_stripe(rt, arena, hand, stripe)?;
        count = count.saturating_add(here);
    }
    Ok(count)
}

/// The same as `clear`, but it tries for the lock of each stripe `tries` times at most, and doesn't wait. `Held` where each try for one of them
/// missed: the stripes before it are cleared, and the error has how many keys it deleted there. (own)
pub fn clear_within(arena: &Arena, hand: &mut Hand, tries: u64) -> Result<u64, ClearWithinError>
    requires { IsIdleHandOf arena.now hand.old }
    ensures idle { IsIdleHandOf arena.now hand.new }
    ensures number { hand_number hand.new ≡ hand_number hand.old }
    ensures clears { IfOk result (λ count.
        ClearsShard (setup_of arena.now) count hand.old hand.new) }
    ensures empty { OnOk result (GivesAllBackEmpty (setup_of arena.now) hand.new) }
    ensures gone { OnOk result (LosesAll (setup_of arena.now) hand.old hand.new) }
    ensures stops { IfErr result (λ error.
        StopsClearWithin (setup_of arena.now) tries error hand.old hand.new) }
    ensures stores_nothing { StoresNothing (view hand.old) (view hand.new) }
    ensures slabs { LeavesSlabs (view hand.old) (view hand.new) }
{
    let mut count: u64 = 0;
    for stripe in 0..arena.config().stripes {
        match clear_stripe_within(arena, hand, stripe, tries) {
            Ok(here) => count = count.saturating_add(here),
            Err(WithinError::NoMemory(refused)) => return Err(ClearWithinError::NoMemory(refused)),
            Err(WithinError::Held) => return Err(ClearWithinError::Held(count)),
        }
    }
    Ok(count)
}
