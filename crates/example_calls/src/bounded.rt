//! Calls that try for a lock n times and then give up, and a hand that comes back out of a struct.
ghost use Rattle.std.specs.Prelude.{◌+◌, ◌≡◌, IfOk, OnErr};
ghost use Rattle.mc_stripe.specs.StripeState.{stamp_of_key};
ghost use Rattle.mc_words.specs.hand.Arenas.{view};
ghost use Rattle.mc_words.specs.hand.Ready.{IsReady, IsReadyHandOf, StaysReady};
ghost use Rattle.mc_words.specs.hand.Seats.{IsSeatedAt};
ghost use Rattle.mc_words.specs.item.Refs.{KeepsHoldings};
ghost use Rattle.example_calls.specs.Bounded.{FindsStamp, GivesNoStamp, IsNextStamp, Makes, MakesAtMost, StoresKeyAndWords, SetsOwn, granted_as_given};

use mc_items::{SetWithinError, set_within};
use mc_stripe::{Key, Stamp, Stripe};
use mc_words::{Arena, Hand, Held};

/// How many pages were ever granted, read under the slabs lock. `Held` where each of `tries` tries for it missed. A try is one
/// event of the hand.
pub fn granted_within(arena: &Arena, hand: &mut Hand, tries: u64) -> Result<u64, Held>
    requires { IsReadyHandOf arena.now hand.old }
    ensures ready { IsReadyHandOf arena.now hand.new }
    ensures granted { IfOk result (λ granted. granted ≡ granted_as_given hand.new) }
    ensures within_limit { IfOk result (λ granted. MakesAtMost (tries + 1) hand.old hand.new) }
    ensures missed { OnErr result (Makes tries hand.old hand.new) }
{
    let Ok(held) = arena.slabs_within(hand, tries) else {
        return Err(Held);
    };
    let granted = held.slabs().totals().granted;
    arena.give_slabs(hand, held);
    Ok(granted)
}

/// The stamp of the key's item, if it has one, looked up under its stripe's lock. `Held` where each of `tries` tries for it
/// missed.
pub fn stamp_within(
    arena: &Arena,
    hand: &mut Hand,
    key: Key,
    tries: u64,
) -> Result<Option<Stamp>, Held>
    requires { IsReadyHandOf arena.now hand.old }
    ensures ready { IsReadyHandOf arena.now hand.new }
    ensures stamp { IfOk result (FindsStamp arena.now key hand.old hand.new) }
    ensures within_limit { IfOk result (λ stamp. MakesAtMost (tries + 1) hand.old hand.new) }
    ensures missed { OnErr result (Makes tries hand.old hand.new) }
{
    let stripe = key % arena.config().stripes;
    let Ok(held) = arena.stripe_within(hand, stripe, tries) else {
        return Err(Held);
    };
    let stamp = stamp_in(held.stripe(), key);
    arena.give_stripe(hand, held);
    Ok(stamp)
}

// The stamp of the key's item.
fn stamp_in(stripe: &Stripe, key: Key) -> Option<Stamp>
    ensures { result ≡ stamp_of_key stripe.now.state key }
{
    stripe.find(key).map(|place| place.1)
}

/// Stores an item with one try for each lock, and where that missed with as many as are named. Its stamp is the next that the hand had
/// before both.
pub fn set_at_second_try(
    arena: &Arena,
    hand: &mut Hand,
    key: Key,
    words: &[u64],
    tries: u64,
) -> Result<Stamp, SetWithinError>
    requires { IsReadyHandOf arena.now hand.old }
    ensures ready { IsReadyHandOf arena.now hand.new }
    ensures stamp { IfOk result (IsNextStamp hand.old) }
    ensures stores_words { IfOk result (StoresKeyAndWords key words.now hand.old hand.new) }
    ensures unused { OnErr result (GivesNoStamp hand.old hand.new) }
    ensures holdings { KeepsHoldings (view hand.old) (view hand.new) }
{
    match set_within(arena, hand, key, words, 1) {
        Err(SetWithinError::Held) => set_within(arena, hand, key, words, tries),
        answer => answer,
    }
}

/// Stores an item by a hand that lay in a struct: it is known at which table it sits, and that it is ready.
pub fn recall_and_set(
    arena: &Arena,
    hand: &mut Hand,
    key: Key,
    words: &[u64],
    tries: u64,
) -> Result<Stamp, SetWithinError>
    requires seated { IsSeatedAt arena.now hand.old }
    requires ready { IsReady (view hand.old) }
    ensures sets { IfOk result (SetsOwn key words.now hand.old hand.new) }
    ensures hand { StaysReady arena.now hand.old hand.new }
{
    arena.recall(hand);
    set_within(arena, hand, key, words, tries)
}
