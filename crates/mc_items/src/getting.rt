//! References to the items of keys, by the locks of their stripes.
ghost use Rattle.std.specs.Option.{option_map};
ghost use Rattle.std.specs.Prelude.{◌<◌, ◌↔◌, ◌≡◌, ◌≤◌, Err, IfOk, IfSome, OnErr, length, true};
ghost use Rattle.mc_classes.specs.Limits.{most_refs};
ghost use Rattle.mc_core.specs.model.State.{has_chunk};
ghost use Rattle.mc_core.specs.run.Chunks.{most_holdings};
ghost use Rattle.mc_words.specs.hand.Arenas.{IsHandOf, setup_of, view};
ghost use Rattle.mc_words.specs.lock.Lent.{IsLentStripe};
ghost use Rattle.mc_words.specs.hand.Observers.{locks_of, stripe_lent, stripe_number};
ghost use Rattle.mc_words.specs.lock.Out.{without_stripe};
ghost use Rattle.mc_words.specs.hand.Ready.{IsReady, StaysReady};
ghost use Rattle.mc_words.specs.item.Refs.{HoldsTheSame, KeepsRefs};
ghost use Rattle.mc_items.specs.Calls.{LooksUp, RecordsNoCall, IsFull};
ghost use Rattle.mc_items.specs.ItemRefs.{IsItemRef, item_chunk, item_key, item_stamp};
ghost use Rattle.mc_items.specs.Keeping.{HoldsToo, HasStoredWords, StoresNothing};
ghost use Rattle.mc_items.specs.OnKeys.{DoesOn, FindsNoRoomFor, FindsStripeHeld, Gets, GetsAt, GivesBack, IsRefToKey, RecordsAt, RecordsOn, stamp_there};
ghost use Rattle.mc_items.specs.OnKeys.{stripe_of_key};
ghost use Rattle.mc_stripe.specs.StripeState as stripes;
ghost use Rattle.mc_stripe.specs.declared.history.Call.TheVariants as call;

use crate::refs::{Ref, look_at};
use crate::stripes::stripe_of;
use mc_classes::MOST_REFS;
use mc_memory::Refused;
use mc_stripe::NoMemory;
use mc_words::{Arena, Hand, StripeHeld};
use std::sync::Wait;
use thiserror::Error;

/// Why a get was refused. It wrote no entry into its stripe's history.
#[derive(Debug, PartialEq, Eq, Drop, Error)]
pub enum GetError {
    /// The hand holds `MOST_REFS` chunks.
    #[error("the hand holds 255 chunks, as many as it may")]
    TooManyRefs,
    /// The stripe got no room for one more call.
    #[error("out of memory")]
    NoMemory(Refused),
}

/// Gets a reference to the key's item, if it has one, and waits for the lock of its stripe. At `MOST_REFS` chunks of the hand it is refused
/// first, and at want of memory next: no entry is written then. (memcached's `item_get`, whose `do_item_get` counts the reference)
#[inline(always)]
pub fn get<R: Wait>(
    rt: &R,
    arena: &Arena,
    hand: &mut Hand,
    key: u64,
) -> Result<Option<Ref>, GetError>
    requires arena { IsHandOf arena.now hand.old }
    requires ready { IsReady (view hand.old) }
    ensures gets { IfOk result (λ found. Gets (setup_of arena.now) key found hand.old hand.new) }
    ensures item { IfOk result (λ found. IfSome found (λ item. IsItemRef (view hand.new) item
        × (item_key item ≡ key))) }
    ensures in_range { IfOk result (λ found. IfSome found (λ item.
        has_chunk (setup_of arena.now).table (item_chunk item) ≡ true)) }
    ensures stores_words { IfOk result (λ found. IfSome found (HasStoredWords (view hand.new))) }
    ensures calls { IfOk result (λ found. RecordsOn (setup_of arena.now) key (λ number.
        call.Get number key (option_map item_stamp found)) hand.old hand.new) }
    ensures refused { OnErr result (RecordsNoCall (view hand.old) (view hand.new)) }
    ensures at_limit { (result ≡ Err GetError.TooManyRefs)
        ↔ (most_refs ≤ length (view hand.old).row.holdings) }
    ensures same { result ≡ Err GetError.TooManyRefs → view hand.new ≡ view hand.old }
    ensures no_memory { result ≡ Err (GetError.NoMemory tt) →
        FindsNoRoomFor (setup_of arena.now) key hand.old hand.new }
    ensures holdings { IfOk result (λ found. HoldsToo found (view hand.old) (view hand.new)) }
    ensures no_more { OnErr result (HoldsTheSame (view hand.old) (view hand.new)) }
    ensures keeps { KeepsRefs (view hand.old) (view hand.new) }
    ensures stores_nothing { StoresNothing (view hand.old) (view hand.new) }
    ensures hand { StaysReady arena.now hand.old hand.new }
{
    if hand.refs() >= MOST_REFS {
        return Err(GetError::TooManyRefs);
    }
    let stripe = stripe_of(key, arena.config().stripes);
    let held = arena.lock_stripe(rt, hand, stripe);
    match look_up(arena, hand, held, key) {
        Ok(found) => Ok(found),
        Err(refused) => Err(GetError::NoMemory(refused)),
    }
}

/// Why a get that doesn't wait was refused. It wrote no entry into its stripe's history.
#[derive(Debug, PartialEq, Eq, Drop, Error)]
pub enum TryGetError {
    /// The hand holds `MOST_REFS` chunks.
    #[error("the hand holds 255 chunks, as many as it may")]
    TooManyRefs,
    /// The stripe got no room for one more call.
    #[error("out of memory")]
    NoMemory(Refused),
    /// Another hand has the lock of the key's stripe.
    #[error("another hand has the lock of the key's stripe")]
    Held,
}

/// The same as `get`, but refused where another hand has the lock of the key's stripe. It doesn't wait. (own, for memcached's
/// `item_trylock`)
pub fn try_get(arena: &Arena, hand: &mut Hand, key: u64) -> Result<Option<Ref>, TryGetError>
    requires arena { IsHandOf arena.now hand.old }
    requires ready { IsReady (view hand.old) }
    ensures gets { IfOk result (λ found. Gets (setup_of arena.now) key found hand.old hand.new) }
    ensures item { IfOk result (λ found. IfSome found (λ item. IsItemRef (view hand.new) item
        × (item_key item ≡ key))) }
    ensures in_range { IfOk result (λ found. IfSome found (λ item.
        has_chunk (setup_of arena.now).table (item_chunk item) ≡ true)) }
    ensures stores_words { IfOk result (λ found. IfSome found (HasStoredWords (view hand.new))) }
    ensures calls { IfOk result (λ found. RecordsOn (setup_of arena.now) key (λ number.
        call.Get number key (option_map item_stamp found)) hand.old hand.new) }
    ensures refused { OnErr result (RecordsNoCall (view hand.old) (view hand.new)) }
    ensures at_limit { (result ≡ Err TryGetError.TooManyRefs)
        ↔ (most_refs ≤ length (view hand.old).row.holdings) }
    ensures same { result ≡ Err TryGetError.TooManyRefs → view hand.new ≡ view hand.old }
    ensures held { result ≡ Err TryGetError.Held →
        FindsStripeHeld (setup_of arena.now) key hand.old hand.new }
    ensures no_memory { result ≡ Err (TryGetError.NoMemory tt) →
        FindsNoRoomFor (setup_of arena.now) key hand.old hand.new }
    ensures holdings { IfOk result (λ found. HoldsToo found (view hand.old) (view hand.new)) }
    ensures no_more { OnErr result (HoldsTheSame (view hand.old) (view hand.new)) }
    ensures keeps { KeepsRefs (view hand.old) (view hand.new) }
    ensures stores_nothing { StoresNothing (view hand.old) (view hand.new) }
    ensures hand { StaysReady arena.now hand.old hand.new }
{
    if hand.refs() >= MOST_REFS {
        return Err(TryGetError::TooManyRefs);
    }
    let stripe = key % arena.config().stripes;
    let Ok(held) = arena.try_stripe(hand, stripe) else {
        return Err(TryGetError::Held);
    };
    match look_up(arena, hand, held, key) {
        Ok(found) => Ok(found),
        Err(refused) => Err(TryGetError::NoMemory(refused)),
    }
}

// Looks the key up in its stripe, gives the stripe's lock back, and reads key, stamp and length of the item.
#[inline(always)]
pub(crate) fn look_up(
    arena: &Arena,
    hand: &mut Hand,
    held: StripeHeld,
    key: u64,
) -> Result<Option<Ref>, NoMemory>
    requires arena { IsHandOf arena.now hand.old }
    requires lent { IsLentStripe (view hand.old) (stripe_number held) (stripe_lent held) }
    requires in_range { stripe_number held ≡ stripe_of_key (setup_of arena.now) key }
    requires within_limit { length (view hand.old).row.holdings < most_holdings }
    ensures arena { IsHandOf arena.now hand.new }
    ensures locks { locks_of hand.new ≡ without_stripe (locks_of hand.old) }
    ensures done { IfOk result (λ found. GetsAt held key found hand.old hand.new) }
    ensures item { IfOk result (λ found. IfSome found (λ item. IsItemRef (view hand.new) item
        × (item_key item ≡ key))) }
    ensures calls { IfOk result (λ found. RecordsAt held (λ number.
        call.Get number key (option_map item_stamp found)) hand.old hand.new) }
    ensures given { OnErr result (GivesBack hand.old held hand.new) }
    ensures full { OnErr result (IsFull (stripe_lent held)) }
{
    match refer_at(arena, hand, held, key) {
        Ok(Some(reference)) => Ok(Some(look_at(arena, hand, reference))),
        Ok(None) => Ok(None),
        Err(error) => Err(error),
    }
}

// Looks the key up in its stripe, and gives the stripe's lock back. At want of memory the stripe is as before.
#[inline(always)]
pub(crate) fn refer_at(
    arena: &Arena,
    hand: &mut Hand,
    held: StripeHeld,
    key: u64,
) -> Result<Option<mc_words::Ref>, NoMemory>
    requires arena { IsHandOf arena.now hand.old }
    requires lent { IsLentStripe (view hand.old) (stripe_number held) (stripe_lent held) }
    requires in_range { stripe_number held ≡ stripe_of_key (setup_of arena.now) key }
    requires within_limit { length (view hand.old).row.holdings < most_holdings }
    ensures arena { IsHandOf arena.now hand.new }
    ensures locks { locks_of hand.new ≡ without_stripe (locks_of hand.old) }
    ensures done { IfOk result (λ found. DoesOn (λ number stripe.
        LooksUp number stripe key found) hand.old held hand.new) }
    ensures stamp { IfOk result (λ found. stripes.stamp_of_key (stripe_lent held).state key
        ≡ option_map (stamp_there (view hand.new)) found) }
    ensures reference { IfOk result (λ found. IfSome found (IsRefToKey (view hand.new) key)) }
    ensures given { OnErr result (GivesBack hand.old held hand.new) }
    ensures full { OnErr result (IsFull (stripe_lent held)) }
{
    let mut held = held;
    if let Err(error) = arena.reserve_call(hand, &mut held) {
        arena.give_stripe(hand, held);
        return Err(error);
    }
    // the lock is given in both arms, so that what was found isn't tested once more behind it
    match arena.refer_within(hand, &mut held, key) {
        Some(reference) => {
            arena.give_stripe(hand, held);
            Ok(Some(reference))
        }
        None => {
            arena.give_stripe(hand, held);
            Ok(None)
        }
    }
}
