//! Items that are linked to their keys, in place of those that were there, where these are expected.
ghost use Rattle.std.specs.Prelude.{◌+◌, ◌≡◌, ◌≤◌, IfErr, IfOk, IfSome, None, OnErr, OnOk, Some, false, length, true};
ghost use Rattle.mc_core.specs.model.Holdings.{has_fresh, words_of_item, numbers_of_known};
ghost use Rattle.mc_words.specs.hand.Arenas.{IsHandOf, setup_of, view};
ghost use Rattle.mc_words.specs.item.Fresh.{IsFreshOf};
ghost use Rattle.mc_words.specs.hand.Idle.{is_unlocked};
ghost use Rattle.mc_words.specs.item.Items.{item_with, known_words_in};
ghost use Rattle.mc_words.specs.lock.Lent.{IsLentStripe};
ghost use Rattle.mc_words.specs.hand.Observers.{HasStripe, fresh_chunk, fresh_key, fresh_room, fresh_stamp, locks_of, hand_number, ref_chunk, ref_room, stripe_lent};
ghost use Rattle.mc_words.specs.hand.Observers.{stripe_number};
ghost use Rattle.mc_words.specs.lock.Out.{without_stripe};
ghost use Rattle.mc_words.specs.item.Refs.{IsRefOf};
ghost use Rattle.mc_words.specs.hand.Tallies.{next_stamp};
ghost use Rattle.mc_items.specs.Calls.{RecordsNoCall};
ghost use Rattle.mc_items.specs.FreshChunks.{GivesBackBoth, IsFilledWith, IsHintInto, IsRefInto, LosesFresh, StoresFresh, filled_with};
ghost use Rattle.mc_items.specs.Keeping.{StoresWithStamp};
ghost use Rattle.mc_items.specs.OnKeys.{StoresOn, RecordsOn, stripe_of_key};
ghost use Rattle.mc_items.specs.Storing.{HasOther, IsExpected, IsOwnItem, RefusesStore, Stores, key_put_aside, stripe_lifted};
ghost use Rattle.mc_stripe.specs.StripeState.{stamp_of_key};
ghost use Rattle.mc_stripe.specs.declared.history.Call.TheVariants as call;

use crate::comparing::Expected;
use crate::filling::fill_item;
use crate::stripes::stripe_of;
use mc_stripe::{NoMemory, Stamp};
use mc_words::{Arena, Fresh, Hand, Hint, StripeHeld};
use std::sync::Wait;

// Why an item wasn't stored under its key. The key is as before, and the item's chunk is given up.
#[derive(Debug, PartialEq, Eq, Drop)]
pub(crate) enum StoreError {
    // The stripe got no room for one more call and its entry.
    NoMemory(NoMemory),
    // The key has an item with this stamp, or none, and the store didn't expect that.
    Differs(Option<Stamp>),
}

// Writes an item into the fresh chunk, stores it under its key, and returns a hint of it. No reference is left. (items.c's
// `do_item_alloc` from the chunk on, and then `do_store_item`)
pub(crate) fn store_words<R: Wait>(
    rt: &R,
    arena: &Arena,
    hand: &mut Hand,
    fresh: Fresh,
    key: u64,
    stamp: u64,
    words: &[u64],
    expected: Expected,
) -> Result<Hint, StoreError>
    requires arena { IsHandOf arena.now hand.old }
    requires unlocked { is_unlocked (view hand.old) ≡ true }
    requires fresh { IsFreshOf (view hand.old) (fresh_chunk fresh) (fresh_room fresh) }
    requires own { IsOwnItem (view hand.old) (fresh_chunk fresh) }
    requires room { 3 + length words.now ≤ (fresh_room fresh) }
    requires stamp { next_stamp (view hand.old).row.ids ≡ Some stamp }
    ensures arena { IsHandOf arena.now hand.new }
    ensures locks { locks_of hand.new ≡ locks_of hand.old }
    ensures stores { OnOk result (StoresFresh expected (setup_of arena.now) key stamp fresh
        (hand_number hand.old) (filled_with fresh key stamp words.now (view hand.old))
        (view hand.new)) }
    ensures calls { OnOk result (RecordsOn (setup_of arena.now) key (λ number.
        call.Set number key stamp) hand.old hand.new) }
    ensures stores_words { OnOk result (StoresWithStamp (item_with key stamp words.now) stamp
        (view hand.old) (view hand.new)) }
    ensures lost { IfErr result (λ error. LosesFresh error expected (setup_of arena.now) key fresh
        (filled_with fresh key stamp words.now (view hand.old)) (view hand.new)) }
    ensures refused { OnErr result (RecordsNoCall (view hand.old) (view hand.new)) }
    ensures hint { IfOk result (IsHintInto (view hand.old) fresh) }
{
    let mut fresh = fresh;
    fill_item(arena, hand, &mut fresh, key, stamp, words);
    store(rt, arena, hand, fresh, key, expected)
}

// Stores the item that the hand filled the chunk with under its key, and waits for the lock of the key's stripe. The item that the
// key had is unlinked. No reference is left, and a hint of the item is returned. (items.c's `item_replace`, or `do_item_link`, and
// then `do_item_remove`)
fn store<R: Wait>(
    rt: &R,
    arena: &Arena,
    hand: &mut Hand,
    fresh: Fresh,
    key: u64,
    expected: Expected,
) -> Result<Hint, StoreError>
    requires arena { IsHandOf arena.now hand.old }
    requires unlocked { is_unlocked (view hand.old) ≡ true }
    requires fresh { IsFreshOf (view hand.old) (fresh_chunk fresh) (fresh_room fresh) }
    requires item { IsFilledWith (view hand.old) fresh key (fresh_stamp fresh) }
    requires key { fresh_key fresh ≡ key }
    requires stamp { next_stamp (view hand.old).row.ids ≡ Some (fresh_stamp fresh) }
    ensures arena { IsHandOf arena.now hand.new }
    ensures locks { locks_of hand.new ≡ locks_of hand.old }
    ensures stores { OnOk result (StoresFresh expected (setup_of arena.now) key
        (fresh_stamp fresh) fresh (hand_number hand.old) (view hand.old) (view hand.new)) }
    ensures calls { OnOk result (RecordsOn (setup_of arena.now) key (λ number.
        call.Set number key (fresh_stamp fresh)) hand.old hand.new) }
    ensures stores_words { OnOk result (StoresWithStamp
        (numbers_of_known (words_of_item (known_words_in (view hand.old) (fresh_chunk fresh))))
        (fresh_stamp fresh) (view hand.old) (view hand.new)) }
    ensures lost { IfErr result (λ error. LosesFresh error expected (setup_of arena.now) key fresh
        (view hand.old) (view hand.new)) }
    ensures refused { OnErr result (RecordsNoCall (view hand.old) (view hand.new)) }
    ensures hint { IfOk result (IsHintInto (view hand.old) fresh) }
{
    let stripe = stripe_of(key, arena.config().stripes);
    let held = arena.lock_stripe(rt, hand, stripe);
    match store_at(arena, hand, held, fresh, key, expected) {
        Ok(reference) => {
            let hint = reference.hint();
            arena.release(hand, reference);
            Ok(hint)
        }
        Err(error) => Err(error),
    }
}

// Links the item to its key in the key's stripe, where the key has what is expected, and gives the stripe's lock back. Where it has
// something else, and at want of memory, the stripe is as before, and the chunk is given up.
pub(crate) fn store_at(
    arena: &Arena,
    hand: &mut Hand,
    held: StripeHeld,
    fresh: Fresh,
    key: u64,
    expected: Expected,
) -> Result<mc_words::Ref, StoreError>
    requires arena { IsHandOf arena.now hand.old }
    requires lent { IsLentStripe (view hand.old) (stripe_number held) (stripe_lent held) }
    requires in_range { stripe_number held ≡ stripe_of_key (setup_of arena.now) key }
    requires fresh { IsFreshOf (view hand.old) (fresh_chunk fresh) (fresh_room fresh) }
    requires item { IsFilledWith (view hand.old) fresh key (fresh_stamp fresh) }
    requires key { fresh_key fresh ≡ key }
    requires stamp { next_stamp (view hand.old).row.ids ≡ Some (fresh_stamp fresh) }
    ensures arena { IsHandOf arena.now hand.new }
    ensures locks { locks_of hand.new ≡ without_stripe (locks_of hand.old) }
    ensures done { OnOk result (StoresOn (λ number stripe.
        Stores number stripe key (fresh_stamp fresh) (fresh_chunk fresh) (fresh_room fresh))
        hand.old held hand.new) }
    ensures same { IfOk result (IsRefInto (view hand.old) fresh) }
    ensures reference { IfOk result (λ r. IsRefOf (view hand.new) (ref_chunk r) (ref_room r)) }
    ensures given { OnErr result (GivesBackBoth hand.old held fresh hand.new) }
    ensures met { OnOk result (IsExpected expected (stamp_of_key (stripe_lent held).state key)) }
    ensures refused { IfErr result (λ error. RefusesStore error expected key (stripe_lent held)) }
{
    let mut held = held;
    if let Some(found) = other_stamp(&held, key, expected) {
        arena.give_stripe(hand, held);
        arena.discard(hand, fresh);
        return Err(StoreError::Differs(found));
    }
    if let Err(error) = arena.reserve(hand, &mut held) {
        arena.give_stripe(hand, held);
        arena.discard(hand, fresh);
        return Err(StoreError::NoMemory(error));
    }
    put_aside(arena, hand, &mut held, key);
    let reference = arena.link(hand, &mut held, fresh);
    arena.give_stripe(hand, held);
    Ok(reference)
}

// What the key has in the stripe, the stamp of an item or none, if a store or a delete doesn't expect that.
pub(crate) fn other_stamp(held: &StripeHeld, key: u64, expected: Expected) -> Option<Option<Stamp>>
    ensures met { result ≡ None →
        IsExpected expected (stamp_of_key (stripe_lent held.now).state key) }
    ensures other { IfSome result (λ found.
        HasOther expected found key (stripe_lent held.now)) }
{
    if expected == Expected::Anything {
        return None;
    }
    let found = match held.stripe().find(key) {
        Some((_chunk, stamp)) => Some(stamp),
        None => None,
    };
    if expected.is_met_by(found) {
        None
    } else {
        Some(found)
    }
}

// Unlinks the key's item, if it has one, and puts the key's entry aside, until the hand links the chunk that it fills.
fn put_aside(arena: &Arena, hand: &mut Hand, held: &mut StripeHeld, key: u64)
    requires arena { IsHandOf arena.now hand.old }
    requires in_range { stripe_of_key (setup_of arena.now) key ≡ stripe_number held.old }
    requires held { HasStripe hand.old held.old }
    requires ready { (stripe_lent held.old).ready ≡ true }
    requires whole { (stripe_lent held.old).state.aside ≡ None }
    requires fresh { has_fresh (view hand.old).row.holdings ≡ true }
    ensures arena { IsHandOf arena.now hand.new }
    ensures locks { locks_of hand.new ≡ locks_of hand.old }
    ensures number { stripe_number held.new ≡ stripe_number held.old }
    ensures held { HasStripe hand.new held.new }
    ensures lifted { stripe_lent held.new ≡ stripe_lifted (stripe_lent held.old) key }
    ensures view { view hand.new ≡ key_put_aside (stripe_number held.old) (stripe_lent held.old) key
        (view hand.old) }
{
    let _ = arena.put_aside(hand, held, key);
}
